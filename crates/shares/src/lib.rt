//! The rule of column shares, as definitions (specs/) and laws about them (proofs/).
//!
//! A table has some columns, each with a natural width: its widest entry, at least one cell.
//! A page leaves the table a budget of cells. A table that needs more than its budget gives
//! cells up one by one, always from its widest column, and from the rightmost of equals.
//! The code that computes the shares is the crate `columns`; this crate holds what it is
//! proved equal to, so that a change of the code does not prove the laws again.

#![tactic(auto)]

// The most columns that a table has.
pub const MAX_COLUMNS: usize = 32;

// The widest that an entry can be: 50,000 glyphs of two cells each.
pub const MAX_NATURAL: u32 = 100_000;
