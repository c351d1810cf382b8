// Why a paint is refused.

ghost use Rattle.std.specs.Prelude.{◌≡◌, Some};
ghost use Rattle.paint.specs.Refusals.{number, refusal_text};

use std::fmt;

#[derive(Clone, Copy, PartialEq, Eq, Debug)]
pub enum Refusal {
    // the area passes the surface's edge
    PastEdge,
}

impl Refusal {
    pub fn number(self) -> u8
        ensures value { result ≡ number self }
    {
        match self {
            Refusal::PastEdge => 5,
        }
    }
}

impl fmt::Display for Refusal {
    ghost output = { λ e. Some (refusal_text e) };

    fn fmt<W: fmt::Write>(&self, f: &mut fmt::Formatter<W>) -> fmt::Result {
        let number = self.number();
        write!(f, "{number}")
    }
}
