//! From which places on bytes are UTF-8 text of white space alone.
//!
//! White space is Unicode's: U+0009 to 000D, 0020, 0085, 00A0, 1680, 2000 to 200A, 2028, 2029, 202F,
//! 205F and 3000. The main promise: for every place the answer is yes exactly where the bytes from
//! there on are text and every character of it is white space; no bytes at all are such a text. The
//! bytes are walked over once, when a source is made, and each answer then takes a few steps.

#![tactic(auto)]

ghost use Rattle.std.specs.Prelude.{◌≡◌, ◌-◌, ◌<◌, ◌≤◌, ◌==◌, true, drop, length, IsUtf8, MatchResult};
ghost use Rattle.clusters.specs.Texts.{is_text};
ghost use Rattle.blank.specs.Blanks.{is_blank};
ghost use Rattle.blank.specs.Ends.{HoldsEnds, IsLongestEnd};

use std::marker::Model;
use std::str::from_utf8;

// All of the bytes, if they are text, or what stands behind their first fault.
#[tactic(auto, using(crate::proofs::Whites::held_behind))]
fn text_or_rest(bytes: &[u8]) -> Result<&str, &[u8]>
    ensures cases { MatchResult result (λ text. (text.now ≡ bytes.now) × IsUtf8 bytes.now) (λ rest. HoldsEnds is_text bytes.now rest.now × (length rest.now < length bytes.now)) }
{
    match from_utf8(bytes) {
        Ok(text) => Ok(text),
        Err(fault) => {
            let (_, rest) = bytes.split_at(fault.valid_up_to() + 1);
            Err(rest)
        }
    }
}

// The longest end of some bytes that is text.
#[tactic(auto, using(crate::proofs::Ends::holds_all, crate::proofs::Whites::held_on, crate::proofs::Whites::held_text))]
fn text_end(bytes: &[u8]) -> &str
    ensures value { IsLongestEnd is_text bytes.now result.now }
{
    let mut rest = bytes;
    loop {
        match text_or_rest(rest) {
            Ok(text) => return text,
            Err(behind) => rest = behind,
        }
    }
}

// The longest end of a text that is white space.
#[tactic(auto, using(crate::proofs::Whites::trimmed_seam, crate::proofs::Whites::trimmed_blank, crate::proofs::Whites::trimmed_holds))]
fn white_end(text: &str) -> &str
    ensures value { IsLongestEnd is_blank text.now result.now }
{
    let (_, white) = text.split_at(text.trim_end().len());
    white
}

// Whether the last bytes of a blank text, so many of them, are blank: they may begin inside a character.
fn is_blank_tail(white: &str, len: usize) -> bool
    requires blank { is_blank white.now ≡ true }
    requires short { len ≤ length white.now }
    ensures value { result ≡ is_blank (drop (length white.now - len) white.now) }
{
    white.is_char_boundary(white.len() - len)
}

// Bytes, and the longest end of them that is blank.
#[derive(Drop)]
pub struct Source<'x> {
    bytes: &'x [u8],
    white: &'x str,
}

// In a contract a source is its bytes.
impl<'x> Model for Source<'x> {
    ghost use Rattle.std.specs.Prelude.{List, ℕ};
    ghost use Rattle.blank.specs.Blanks.{is_blank};
    ghost use Rattle.blank.specs.Ends.{IsLongestEnd};

    ghost Value = { List ℕ };

    ghost view = { λ s. s.bytes.now };

    ghost invariant = { λ s. IsLongestEnd is_blank s.bytes.now s.white.now };
}

impl<'x> Source<'x> {
    #[tactic(auto, using(crate::proofs::Whites::blank_longest))]
    pub fn new(bytes: &'x [u8]) -> Source<'x>
        ensures made { result ≡ bytes.now }
    {
        Source {
            bytes,
            white: white_end(text_end(bytes)),
        }
    }

    // Whether there are no bytes.
    pub fn is_empty(&self) -> bool
        ensures value { result ≡ (length self.now == 0) }
    {
        self.bytes.is_empty()
    }

    // Whether the bytes from a place on are blank; behind the last byte they are.
    #[tactic(auto, using(crate::proofs::Whites::blank_at))]
    pub fn is_blank_from(&self, place: usize) -> bool
        ensures value { result ≡ is_blank (drop place self.now) }
    {
        let left = self.bytes.len().saturating_sub(place);
        left <= self.white.len() && is_blank_tail(self.white, left)
    }
}
