//! Laws of a drawing, in plain words.
//!
//! A drawing is built block by block and column by column. The main promises: each border stands behind
//! its columns, and each column is aligned by its own two bits.

#![tactic(auto)]

ghost use Rattle.drawing_laws.specs.Laws.{BordersStandBehindTheirColumns, ColumnsAlignByTheirBits};

pub fn drawing_laws()
    ensures borders { BordersStandBehindTheirColumns }
    ensures bits { ColumnsAlignByTheirBits }
{}
