// A stack over a lent slice, for every kind of thing that can be copied.
//
// The slice gives the room: what is laid on a full stack is refused, and nothing changes then. Its
// main promise: what a stack holds, top first, follows from the calls as it would for a list.

#![tactic(auto)]

pub mod stack;

pub use stack::{Full, Stack};
