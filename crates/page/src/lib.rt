// Pages: cells, refusals, and surfaces on which symbols are put and cells are read.
//
// A surface shows a page: a width, a height, and a cell at each place. That is its whole meaning. A put of
// a symbol and a style at a place changes the cell there and no other; outside the page, with a symbol of
// more than 8 bytes or a colour above 16 it is refused and changes nothing. A read answers the cell, or
// none outside. A window shows a part of any surface, a pair shows two side by side, and both hand puts
// and reads on to the cell below that they show. The main promise is one contract for all of these: what
// is proved of a put holds on every pile of surfaces, and of the pages below it, hidden cells included.

#![tactic(auto)]

ghost use Rattle.std.specs.Prelude.{◌≡◌, ℕ, List};
ghost use Rattle.page.specs.declared.cells.Cell.{Cell};
ghost use Rattle.page.specs.Surfaces.{Page, read_at, Put};

mod cells;
mod layers;
mod refusals;
mod sides;

pub use cells::Cell;
pub use layers::{Beside, Window};
pub use refusals::Refusal;
pub use sides::{LAST_SIDE, Sides};
use style::Style;

pub trait Surface {
    // its whole meaning
    ghost shows: { Self → Page };

    // which surface it is: where its layers lie, and which memory lies below them
    ghost held: { Self → List ℕ };

    // the cells that its layers hide, by a path to the layer
    ghost rest: { Self → List ℕ → ℕ → ℕ → Cell };

    // what its memory obeys besides
    ghost lawful: { Self → Type 0 };

    fn sides(&self) -> Sides
        ensures wide { result.width ≡ (shows self.now).wide }
        ensures high { result.height ≡ (shows self.now).high };

    fn read(&self, x: u16, y: u16) -> Option<Cell>
        ensures value { result ≡ read_at (shows self.now) x y };

    fn put(&mut self, x: u16, y: u16, symbol: &[u8], style: Style) -> Result<(), Refusal>
        ensures after { Put shows held rest lawful x y symbol.now style self.old self.new result };

    final fn width(&self) -> u16
        ensures value { result ≡ (shows self.now).wide }
    {
        self.sides().width
    }

    final fn height(&self) -> u16
        ensures value { result ≡ (shows self.now).high }
    {
        self.sides().height
    }
}
