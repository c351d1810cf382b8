//! Laws of a load, in plain words.
//!
//! A load is told by its stretches of text and its tables; its blocks are these without the empty
//! lines at the end of each stretch. The main promises: an admitted load counts exactly the glyphs,
//! lines, rows and tables that these account for; every row of a table has an entry for each of its
//! columns; no block is an empty text.

#![tactic(auto)]

ghost use Rattle.laws.specs.Stands.{CountsItsBlocks, SettlingLosesEmptyLines, RowsAreEven, TextsAreSolid};

pub fn load_laws()
    ensures counts { CountsItsBlocks }
    ensures settling { SettlingLosesEmptyLines }
    ensures even { RowsAreEven }
    ensures solid { TextsAreSolid }
{}
