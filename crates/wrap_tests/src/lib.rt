//! Tests of the breaking rules: their worked lines, their edges, and every short line against stored answers.

#![tactic(auto)]

#[cfg(test)]
mod answers;
#[cfg(test)]
mod exhaustive;
#[cfg(test)]
mod lines;
#[cfg(test)]
mod worked;
