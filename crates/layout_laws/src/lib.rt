//! How a sheet is laid out on a page: what its tables' columns and its height are.
//!
//! A column's natural width is its widest entry, and its final width its share of the page. A line of a
//! text has its rows at the page's width, a table row those of its tallest entry at its column's width.
//! Blocks stand one below another with one row between them.

#![tactic(auto)]

ghost use Rattle.layout_laws.specs.Laws.{ColumnsHoldTheirEntries, ColumnsAreNoWider};

// A natural width is that of the widest entry, and at least 1.
pub fn layout_laws()
    ensures held { ColumnsHoldTheirEntries }
    ensures bound { ColumnsAreNoWider }
{}
