// What can be wrong with a line, in words for a person.
ghost use Rattle.std.specs.Prelude.{◌≡◌, Some};
ghost use Rattle.words.specs.declared.faults.Fault.TheVariants.{NoMemory};
ghost use Rattle.words.specs.Faults.{fault_words};

use std::alloc::{AllocError, AllocFailed};
use std::fmt;

#[derive(Clone, Copy, Debug, PartialEq, Eq)]
pub enum Fault {
    UnknownCommand,
    NotANumber,
    MissingNumber,
    TooLarge,
    TooWide,
    TooNarrow,
    TooManyColumns,
    NotBytes,
    MissingBytes,
    MissingName,
    UnknownName,
    TooManyWords,
    NotText,
    NoMemory,
}

impl Fault {
    fn words(self) -> &'static str
        ensures { result.now ≡ fault_words self }
    {
        match self {
            Fault::UnknownCommand => "unknown command",
            Fault::NotANumber => "not a number",
            Fault::MissingNumber => "a number is missing",
            Fault::TooLarge => "a number is too large",
            Fault::TooWide => "too wide",
            Fault::TooNarrow => "too narrow",
            Fault::TooManyColumns => "too many columns",
            Fault::NotBytes => "not a byte string",
            Fault::MissingBytes => "a byte string is missing",
            Fault::MissingName => "a name is missing",
            Fault::UnknownName => "unknown name",
            Fault::TooManyWords => "too many words",
            Fault::NotText => "not text",
            Fault::NoMemory => "out of memory",
        }
    }
}

impl fmt::Display for Fault {
    ghost output = { λ f. Some (fault_words f) };

    fn fmt<W: fmt::Write>(&self, f: &mut fmt::Formatter<W>) -> fmt::Result {
        f.write_str(self.words())
    }
}

// An error that says that memory is short. Text that is written to a `String` fails for want of memory alone.
pub trait Shortage: Drop {}

impl Shortage for AllocError {}

impl<T: Drop> Shortage for AllocFailed<T> {}

impl Shortage for fmt::Error {}

impl<E: Shortage> From<E> for Fault {
    ghost from_gives = { λ _ r. r ≡ NoMemory };

    fn from(_e: E) -> Fault {
        Fault::NoMemory
    }
}
