//! The fold of events into the records of a sheet, branch by branch as the original's `parse`.
//!
//! Each event does a few acts, which follow from where in the tags it stands, the style in force and
//! what stands on the sheet; then it may move the fold to another place in the tags, and lay a style
//! on the stack or take one away. The main promise: after all events the records are those that the
//! acts make, one after the other, from the records before them.

#![tactic(auto)]

pub mod load;
mod measure;
pub mod mode;
mod perform;
pub mod step;
mod table;
mod tags;
