// The two sides of a page, the places between them, and the checks that pages share.

ghost use Rattle.std.specs.Prelude.{◌≡◌, ◌+◌, ◌*◌, length};
ghost use Rattle.style.specs.Symbols.{symbol_of};
ghost use Rattle.page.specs.Refusals.{put_answer, sides, memory_answer};
ghost use Rattle.page.specs.Surfaces.{inside};
ghost use Rattle.page.specs.Admitted.{if_admitted};

use crate::refusals::Refusal;
use style::{Style, Symbol};

// The longest side of a page that is made.
pub const LAST_SIDE: u16 = 1024;

#[derive(Clone, Copy, PartialEq, Eq, Debug)]
pub struct Sides {
    pub width: u16,
    pub height: u16,
}

impl Sides {
    // Those of a page with no place.
    pub const NONE: Sides = Sides {
        width: 0,
        height: 0,
    };

    // Whether both are from 1 to 1,024.
    pub fn fit(self) -> bool
        ensures value { result ≡ sides self.width self.height }
    {
        let side = 1..=LAST_SIDE;
        side.contains(&self.width) && side.contains(&self.height)
    }

    // How many cells lie between them.
    pub fn cells(self) -> usize
        ensures value { result ≡ self.width * self.height }
    {
        usize::from(self.width) * usize::from(self.height)
    }

    // Whether a place lies between them.
    pub fn hold(self, x: u16, y: u16) -> bool
        ensures value { result ≡ inside self.width self.height x y }
    {
        x < self.width && y < self.height
    }

    // Where a place stands among the cells, row by row.
    pub fn place(self, x: u16, y: u16) -> usize
        ensures value { result ≡ y * self.width + x }
    {
        usize::from(y) * usize::from(self.width) + usize::from(x)
    }

    // The checks of a put on a page of these sides, in their order: the place, the symbol, the colours.
    pub fn admit(self, x: u16, y: u16, symbol: &[u8], style: Style) -> Result<Symbol, Refusal>
        ensures value { result ≡ put_answer (inside self.width self.height x y) (length symbol.now) style (symbol_of symbol.now) }
    {
        if !self.hold(x, y) {
            return Err(Refusal::Outside);
        }
        let symbol = Symbol::new(symbol).ok_or(Refusal::Long)?;
        if !style.has_known_colours() {
            return Err(Refusal::Colour);
        }
        Ok(symbol)
    }

    // These sides where a check admits them, else those of a page with no place.
    pub fn if_admitted(self, answer: Result<(), Refusal>) -> Sides
        ensures value { result ≡ if_admitted answer self }
    {
        match answer {
            Ok(()) => self,
            Err(_) => Sides::NONE,
        }
    }

    // The checks of memory for a page of these sides, which needs `needed` of what is lent: first the sides.
    pub fn check_memory(self, needed: usize, lent: usize) -> Result<(), Refusal>
        ensures value { result ≡ memory_answer self.width self.height needed lent }
    {
        if !self.fit() {
            return Err(Refusal::Outside);
        }
        if lent != needed {
            return Err(Refusal::Amount(needed as u64));
        }
        Ok(())
    }
}
