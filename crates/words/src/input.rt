// A line as it is read from an input, and what is printed for one that cannot be read.
ghost use Rattle.std.specs.Prelude.{◌≡◌, Some, IsUtf8, MatchResult};
ghost use Rattle.words.specs.declared.faults.Fault.TheVariants.{NotText};
ghost use Rattle.words.specs.Input.{without, body, trouble_line};

use crate::faults::Fault;
use std::fmt;
use std::str::from_utf8;

// The text of a line, without the line feed and the carriage return that may end it.
pub fn text_of(raw: &[u8]) -> Result<&str, Fault>
    ensures { MatchResult result (λ s. (s.now ≡ body raw.now) × IsUtf8 s.now) (λ e. (e ≡ NotText) × (IsUtf8 (body raw.now) → ⊥)) }
{
    let line = without_last(without_last(raw, b'\n'), b'\r');
    from_utf8(line).map_err(|_| Fault::NotText)
}

fn without_last(bytes: &[u8], end: u8) -> &[u8]
    ensures { result.now ≡ without end bytes.now }
{
    bytes.strip_suffix(&[end]).unwrap_or(bytes)
}

// A line that cannot be read: its number, counted from 1, and why.
#[derive(Clone, Copy, Debug, PartialEq, Eq)]
pub struct Trouble {
    pub line: u64,
    pub fault: Fault,
}

impl fmt::Display for Trouble {
    ghost output = { λ t. Some (trouble_line t.line t.fault) };

    fn fmt<W: fmt::Write>(&self, f: &mut fmt::Formatter<W>) -> fmt::Result {
        let line = self.line;
        let fault = self.fault;
        write!(f, "line {line}: {fault}")
    }
}
