// The words of a line, one after the other: the pieces between its single spaces.
ghost use Rattle.std.specs.Prelude.{◌≡◌, ◌≤◌, [], ◌∷◌, drop, IfOk, vec_items, MatchOption};
ghost use Rattle.std.specs.Iterator.{YieldsFirstRef, item_count};
ghost use Rattle.words.specs.Bytes.{first_number, first_bytes, ended};
ghost use Rattle.words.specs.Outcomes.{Gives};
ghost use Rattle.words.specs.Pieces.{words_of, words_in, words_left, leads, past};

use crate::bytes::bytes;
use crate::faults::Fault;
use crate::numbers::number;
use std::alloc::Global;

// A cursor over a line. `rest` is what lies behind the last space that was passed, and `None` after the last word.
#[derive(Drop)]
pub struct Words<'a> {
    rest: Option<&'a str>,
}

impl<'a> Words<'a> {
    pub fn new(line: &'a str) -> Words<'a>
        ensures { words_left result ≡ words_of line.now }
    {
        Words { rest: Some(line) }
    }

    pub fn next_word(&mut self) -> Option<&'a str>
        ensures { MatchOption result ((words_left self.old ≡ []) × (words_left self.new ≡ [])) (λ w. words_left self.old ≡ w.now ∷ words_left self.new) }
    {
        let (word, after) = first_word(self.rest?);
        self.rest = after;
        Some(word)
    }

    // The next word as a number of at most `most`.
    pub fn next_number(&mut self, most: u64) -> Result<u64, Fault>
        ensures value { result ≡ first_number most (words_left self.old) }
        ensures bound { IfOk result (λ n. n ≤ most) }
        ensures after { words_left self.new ≡ drop 1 (words_left self.old) }
    {
        let word = self.next_word().ok_or(Fault::MissingNumber)?;
        number(word, most, Fault::TooLarge)
    }

    // The next word as a byte string.
    pub fn next_bytes(&mut self, heap: Global) -> Result<Vec<u8>, Fault>
        ensures value { Gives vec_items result (first_bytes (words_left self.old)) }
        ensures after { words_left self.new ≡ drop 1 (words_left self.old) }
    {
        let word = self.next_word().ok_or(Fault::MissingBytes)?;
        bytes(heap, word)
    }

    // That no word is left.
    pub fn end(&self) -> Result<(), Fault>
        ensures { result ≡ ended (words_left self.now) }
    {
        match self.rest {
            Some(_) => Err(Fault::TooManyWords),
            None => Ok(()),
        }
    }

    // Passes over `word` where it is the next one, and says whether it was.
    pub fn skip_word(&mut self, word: &str) -> bool
        ensures value { result ≡ leads word.now (words_left self.old) }
        ensures after { words_left self.new ≡ past word.now (words_left self.old) }
    {
        let Some(line) = self.rest else {
            return false;
        };
        let (next, behind) = first_word(line);
        if next == word {
            self.rest = behind;
            return true;
        }
        false
    }
}

impl<'a> Iterator for Words<'a> {
    type Item = &'a str;

    ghost next_gives = { YieldsFirstRef words_left };

    ghost remaining = { item_count words_left };

    fn next(&mut self) -> Option<&'a str> {
        Words::next_word(self)
    }
}

// The first word of a line, and what follows the space behind it where there is one.
fn first_word(line: &str) -> (&str, Option<&str>)
    ensures { words_of line.now ≡ result.0.now ∷ words_in result.1 }
{
    match line.split_once(' ') {
        Some((word, after)) => (word, Some(after)),
        None => (line, None),
    }
}
