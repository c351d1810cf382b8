//! A sheet's layout on a page: the widths of its tables' columns, and how many rows everything takes.
//!
//! A column's natural width is its widest entry; its final width is its share of the page. A line of a
//! text has its rows at the page's width, a table row those of its tallest entry at its column's width.
//! Blocks stand one below another with one row between them.
//!
//! The main promise: for every breaking rule and every page each number is exactly that of the rule over
//! the blocks that the records hold. Nothing is asked of the records: the rows of a block fit 32 bits and
//! those of a sheet 64, whatever they hold.

#![tactic(auto)]

mod naturals;
mod rows;
mod sheets;
mod tables;

use records::kinds::Records;
pub use rows::entries_of;
pub use sheets::table_at;
pub use tables::{is_growing, layout_columns, widths_of};

// A sheet on a page: the sheet's records, the rule that breaks its lines, the page's width, and whether
// the source of the sheet is still arriving.
#[derive(Clone, Copy)]
pub struct Layout<'a, 'm, R> {
    pub rule: &'a R,
    pub records: &'a Records<'m>,
    pub width: u16,
    pub streaming: bool,
}
