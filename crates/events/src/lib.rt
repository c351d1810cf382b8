// What a load is given, and how it is refused.
//
// A parser tells of a sheet by events, one after the other: each has a number for its kind and, for a
// Text or a Code, a place and a length in a text. With them come the eight styles of the sheet. The
// main promise: every number means the kind that the rule gives it and no other number means one, and
// a cursor gives the events in order and always names the one where it stopped.

#![tactic(auto)]

pub use cursor::Cursor;
pub use event::{Event, Kind, Tag, Unknown, kind_of};
pub use refusal::{Amount, Refusal};
pub use styles::{MarkdownStyles, check_styles};

pub mod cursor;
pub mod event;
pub mod refusal;
pub mod styles;
