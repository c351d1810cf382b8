//! The records of a sheet: glyphs, lines and table rows in lent memory, and the blocks that point into them.
//!
//! The glyphs of a sheet come in order, so a line or a table's entry is a place in them and a length.
//! A text block is a stretch of lines, a table a stretch of rows, its header first. What can be done to
//! the records is a small language of acts: put a glyph, end a line, begin a table, end an entry, the
//! head, a row, the table; and at last flush the text. The main promise: each call does its act, and
//! nothing else. Writing past the end of the memory does nothing, and the counts go on counting, so
//! that memory without a place can be used to count.

#![tactic(auto)]

pub mod kinds;
pub mod read;
pub mod write;
