//! The blocks of a sheet: what the records say, and that it is what was written.
//!
//! A sheet that is being written can be told in two ways: as records in memory, and as lists of glyphs,
//! lines and blocks. The main promise: after any acts, and wherever the records suffice, the blocks read
//! from memory are those of the lists. And the records in use, at the front of the memory, alone say them,
//! the glyphs, lines and table rows each in their order, where each row is in a table that ended.

#![tactic(auto)]

ghost use Rattle.blocks.specs.Stands.{MemoryShowsDraft, FrontShowsDraft};

// The laws that tie the records to the lists.
pub fn memory_shows_draft()
    ensures value { MemoryShowsDraft }
    ensures front { FrontShowsDraft }
{}
