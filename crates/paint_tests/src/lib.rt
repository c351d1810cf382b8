//! Tests of painting: the worked example cell by cell, alignments, wide glyphs, areas at the edges of a
//! page, old content, tables that are cut, the same paint on every surface; and sheets at every width,
//! held against the digests of tools/paint_answers.py, which was written from the rules alone.

#![tactic(auto)]

#[cfg(test)]
mod alignments;
#[cfg(test)]
mod answers;
#[cfg(test)]
mod areas;
#[cfg(test)]
mod clipped;
#[cfg(test)]
mod digests;
#[cfg(test)]
mod flow;
#[cfg(test)]
mod inks;
#[cfg(test)]
mod kept;
#[cfg(test)]
mod looks;
#[cfg(test)]
mod made;
#[cfg(test)]
mod surfaces;
#[cfg(test)]
mod wide;
#[cfg(test)]
mod worked;
