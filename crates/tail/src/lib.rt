//! The tail of a text that is still arriving.

#![tactic(auto)]

ghost use Rattle.std.specs.Prelude.{◌≡◌, length, Some, IfOk};
ghost use Rattle.tail.specs.Cook.{numbered, refusal_text, told, answered, written, handed, cooked};

use judge::judge;
use std::fmt;

mod delimiters;
mod entries;
mod fences;
mod judge;
mod patch;
mod repair;
mod scan;
mod texts;

// The cooked text: the source if nothing changed, else so many bytes of the output.
pub fn cooked_text<'a>(cooked: Option<usize>, source: &'a [u8], out: &'a [u8]) -> &'a [u8]
    ensures { result.now ≡ handed cooked source.now out.now }
{
    match cooked {
        None => source,
        Some(len) => &out[..len.min(out.len())],
    }
}

// Why a source is not cooked.
#[derive(Clone, Copy, Debug, PartialEq, Eq)]
pub enum Refusal {
    // not UTF-8; so many bytes at the front are
    NotUtf8(usize),
    // the output is too short: the cooked text has so many bytes
    TooShort(u128),
}

impl Refusal {
    // The refusal's number and its value.
    pub fn numbered(self) -> (u8, u128)
        ensures { result ≡ numbered self }
    {
        match self {
            Refusal::NotUtf8(valid) => (3, valid as u128),
            Refusal::TooShort(needed) => (4, needed),
        }
    }
}

impl fmt::Display for Refusal {
    ghost output = { λ e. Some (refusal_text e) };

    fn fmt<W: fmt::Write>(&self, f: &mut fmt::Formatter<W>) -> fmt::Result {
        let (number, value) = self.numbered();
        write!(f, "{number} {value}")
    }
}

// Makes a table in progress at the end of a source parseable. Nothing is written where nothing changes; else so many
// bytes of the output are the cooked text.
pub fn cook_streaming_tail(source: &[u8], out: &mut [u8]) -> Result<Option<usize>, Refusal>
    ensures value { told result ≡ answered source.now (length out.old) }
    ensures after { out.new ≡ written source.now out.old }
    ensures text { IfOk result (λ c. handed c source.now out.new ≡ cooked source.now) }
{
    let Some(patch) = judge(source, out.len())? else {
        return Ok(None);
    };
    Ok(Some(patch.write(out)))
}
