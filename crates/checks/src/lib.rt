// The checks of a load that need no memory of the sheet.
//
// Each event is looked at in turn: first by itself (its kind, its range in the text, its columns),
// then by the marks that are open (starts and ends pair like brackets, and the parts of a table
// stand in one another), then by the ruler, where its text is measured. After the last event no mark
// may be open. The main promise: the answer tells the first fault, by the number of its event.

#![tactic(auto)]

ghost use Rattle.std.specs.Prelude.{◌≡◌, []};
ghost use Rattle.stack.specs.Stacks.{held};
ghost use Rattle.events.specs.Cursors.{left};
ghost use Rattle.checks.specs.Checks.{closing, checked_from, checked, TellsFirst, PlacesStand};

use events::cursor::Cursor;
use events::event::{Event, Tag};
use events::refusal::Refusal;
use glyphs::Ruler;
use judge::judge;
use marks::{Mark, Place};
use stack::Stack;

mod judge;
mod marks;
mod measure;

// No more marks are open at once.
pub const MAX_MARKS: usize = 64;

// Refuses the first bad event by its number.
#[tactic(auto, using(crate::proofs::Firsts::the_answer_tells_the_first_fault, crate::proofs::Places::the_marks_tell_the_place))]
pub fn check<'x, R: Ruler>(ruler: &R, events: &'x [Event], text: &'x [u8]) -> Result<(), Refusal>
    ensures value { result ≡ checked (R.Ruler.meaning ruler.now).admits text.now events.now }
    ensures first { TellsFirst (R.Ruler.meaning ruler.now).admits text.now events.now result }
    ensures places { PlacesStand events.now }
{
    walk(ruler, Cursor::new(events, text))
}

fn walk<R: Ruler>(ruler: &R, mut cursor: Cursor) -> Result<(), Refusal>
    ensures value { result ≡ checked_from (R.Ruler.meaning ruler.now).admits cursor.entry.text.now cursor.entry.taken [] (left cursor.entry) }
{
    let mut slots = [Mark::plain(Place::Prose, Tag::Strong); MAX_MARKS];
    let mut marks = Stack::new(&mut slots);
    while let Some(event) = cursor.next() {
        judge(ruler, &cursor, &mut marks, event)?;
    }
    check_closed(&marks, cursor.at())
}

fn check_closed(marks: &Stack<Mark>, count: usize) -> Result<(), Refusal>
    ensures value { result ≡ closing (held marks.now) count }
{
    match marks.top() {
        None => Ok(()),
        Some(_) => Err(Refusal::Nesting(count as u64)),
    }
}
