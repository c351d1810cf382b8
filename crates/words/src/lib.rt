//! The words of a script's line: cut at single spaces, read as numbers, and what is wrong with a line that cannot be read.
//!
//! The main promise: the words, and the number that a word says, are those of the definitions in specs/, which go over the
//! line's bytes alone.

#![tactic(auto)]

mod bytes;
mod cursor;
mod faults;
mod input;
mod numbers;

pub use bytes::hex_text;
pub use cursor::Words;
pub use faults::Fault;
pub use input::{Trouble, text_of};
pub use numbers::number;
