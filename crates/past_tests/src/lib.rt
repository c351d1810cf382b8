//! Tests of a sheet's past: thousands of calls of all kinds on one sheet, drawn by a small generator, whose
//! answers and pages are held against the digests of tools/past_answers.py. That was written from the rules
//! alone, and all that it keeps of the calls that came before is the last admitted load and the last switch.
//!
//! The calls are made one by one, or by requests, or all of them by one `Markdown::run`. Besides: two calls that
//! mix rulers, breaking rules and kinds of pages in one past, as a proof for all of them; tables at
//! every width, one run with its answers written out, and what a new sheet holds.

#![tactic(auto)]

#[cfg(test)]
mod answers;
#[cfg(test)]
mod calls;
#[cfg(test)]
mod digest;
pub mod either;
#[cfg(test)]
mod empty;
#[cfg(test)]
mod long;
#[cfg(test)]
mod made;
#[cfg(test)]
mod mixed;
pub mod mixing;
#[cfg(test)]
mod requests;
#[cfg(test)]
mod tables;
#[cfg(test)]
mod whole;
