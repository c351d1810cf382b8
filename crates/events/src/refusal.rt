// Why a load is refused.
ghost use Rattle.std.specs.Prelude.{◌≡◌, Some};
ghost use Rattle.events.specs.Refusals.{amount_number, numbered, refusal_text};

use std::fmt;

// What a sheet keeps in limited number.
#[derive(Clone, Copy, PartialEq, Eq, Debug)]
pub enum Amount {
    Glyphs = 0,
    Lines = 1,
    Rows = 2,
    Tables = 3,
}

#[derive(Clone, Copy, PartialEq, Eq, Debug)]
pub enum Refusal {
    // An event that is wrong by itself: its kind, its range in the text or its columns.
    Kind(u64),
    // An event that stands where it may not, or the event count where marks stay open.
    Nesting(u64),
    // An event with text that the ruler does not admit.
    Ruler(u64),
    // The first amount that passes its limit.
    Amount(Amount),
    // A style with a colour that does not exist.
    Style(u8),
}

impl Amount {
    pub fn number(self) -> u64
        ensures value { result ≡ amount_number self }
    {
        self as u64
    }
}

impl Refusal {
    // The number of the refusal and the value that goes with it.
    pub fn numbered(self) -> (u8, u64)
        ensures value { result ≡ numbered self }
    {
        match self {
            Refusal::Kind(event) => (1, event),
            Refusal::Nesting(event) => (2, event),
            Refusal::Ruler(event) => (3, event),
            Refusal::Amount(amount) => (4, amount.number()),
            Refusal::Style(style) => (9, u64::from(style)),
        }
    }
}

impl fmt::Display for Refusal {
    ghost output = { λ e. Some (refusal_text e) };

    fn fmt<W: fmt::Write>(&self, f: &mut fmt::Formatter<W>) -> fmt::Result {
        let (number, value) = self.numbered();
        write!(f, "{number} {value}")
    }
}
