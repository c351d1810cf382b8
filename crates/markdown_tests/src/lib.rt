//! Tests of loading a sheet: examples of the branches of the fold, refusals at their edges and in their
//! order, limits, what a refused load leaves, open tables, styles; and sheets by the thousand, held
//! against the digests of tools/load_answers.py, which was written from the rules alone.

#![tactic(auto)]

#[cfg(test)]
mod answers;
#[cfg(test)]
mod branches;
#[cfg(test)]
mod damaged;
#[cfg(test)]
mod digests;
#[cfg(test)]
mod faults;
#[cfg(test)]
mod kept;
#[cfg(test)]
mod limits;
#[cfg(test)]
mod log;
#[cfg(test)]
mod looks;
#[cfg(test)]
mod made;
#[cfg(test)]
mod opens;
