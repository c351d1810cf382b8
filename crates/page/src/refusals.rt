// Why a call on a page is refused.

ghost use Rattle.std.specs.Prelude.{◌≡◌, Some};
ghost use Rattle.std.specs.Option.{option_to_list};
ghost use Rattle.page.specs.Refusals.{number, values, refusal_text};

use std::fmt;

#[derive(Clone, Copy, PartialEq, Eq, Debug)]
pub enum Refusal {
    // the lent memory has not the count that is needed
    Amount(u64),
    // a place outside the page, or a side that is not from 1 to 1,024
    Outside,
    // a symbol of more than 8 bytes
    Long,
    // a block of a shelf that is not lawful
    Block(u64),
    // a colour above 16
    Colour,
}

impl Refusal {
    pub fn number(self) -> u8
        ensures value { result ≡ number self }
    {
        match self {
            Refusal::Amount(_) => 4,
            Refusal::Outside => 6,
            Refusal::Long => 7,
            Refusal::Block(_) => 8,
            Refusal::Colour => 9,
        }
    }

    pub fn value(self) -> Option<u64>
        ensures value { option_to_list result ≡ values self }
    {
        match self {
            Refusal::Amount(n) => Some(n),
            Refusal::Block(b) => Some(b),
            Refusal::Colour => Some(0),
            Refusal::Outside | Refusal::Long => None,
        }
    }
}

impl fmt::Display for Refusal {
    ghost output = { λ e. Some (refusal_text e) };

    fn fmt<W: fmt::Write>(&self, f: &mut fmt::Formatter<W>) -> fmt::Result {
        let number = self.number();
        match self.value() {
            Some(value) => write!(f, "{number} {value}"),
            None => write!(f, "{number}"),
        }
    }
}
