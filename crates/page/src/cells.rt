// What stands at a place of a page.

ghost use Rattle.std.specs.Prelude.{◌≡◌};
ghost use Rattle.page.specs.Cells.{inked, sound, tidy};

use style::{LAST_COLOUR, Style, Symbol, colour_over};

// A symbol, its colours, its modifiers: plain numbers.
#[derive(Clone, Copy, PartialEq, Eq, Debug)]
pub struct Cell {
    pub symbol: Symbol,
    pub fg: u8,
    pub bg: u8,
    pub modifiers: u8,
}

impl Cell {
    pub const FRESH: Cell = Cell {
        symbol: Symbol::SPACE,
        fg: 0,
        bg: 0,
        modifiers: 0,
    };

    // Whether the record is a cell: at most 8 symbol bytes and nothing past them, colours of at most 16.
    pub fn is_sound(self) -> bool
        ensures value { result ≡ sound self }
    {
        self.symbol.is_whole() && self.fg <= LAST_COLOUR && self.bg <= LAST_COLOUR
    }

    // The cell, or a fresh one where the record is none.
    pub fn tidy(self) -> Cell
        ensures value { result ≡ tidy self }
    {
        if self.is_sound() { self } else { Cell::FRESH }
    }

    // The cell after a put.
    pub fn inked(self, symbol: Symbol, style: Style) -> Cell
        ensures value { result ≡ inked symbol style self }
    {
        Cell {
            symbol,
            fg: colour_over(self.fg, style.fg),
            bg: colour_over(self.bg, style.bg),
            modifiers: (self.modifiers | style.add) & !style.remove,
        }
    }
}
