//! The blocks of an event list, stated over lists, and that the fold leaves them in memory.
//!
//! An event does a few acts, which follow from where in the tags it stands, the style in force and what
//! stands on the sheet. Said over lists, the acts make the stretches of text and the tables of the
//! sheet; its blocks are these, with the empty lines at the end of each stretch gone. The main promise:
//! wherever the records suffice, the fold leaves exactly these blocks in memory, at its front, and in
//! whatever memory it counts exactly what the events need.

#![tactic(auto)]

ghost use Rattle.parse.specs.Stands.{FoldShows, FoldShowsFront, FoldCounts};

// The laws that tie the fold's records to the lists, and its counts to what the events need.
pub fn fold_laws()
    ensures shows { FoldShows }
    ensures front { FoldShowsFront }
    ensures counts { FoldCounts }
{}
