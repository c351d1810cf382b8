//! Tests of the streaming tail: the worked examples, the points where it departs from the program
//! that it was ported from, the ends of a source, the refusals, and two large sets of sources whose
//! answers are held against digests of tools/tail_answers.py.

#![tactic(auto)]

#[cfg(test)]
mod cooking;
#[cfg(test)]
mod differences;
#[cfg(test)]
mod digests;
#[cfg(test)]
mod ends;
#[cfg(test)]
mod long;
#[cfg(test)]
mod refusals;
