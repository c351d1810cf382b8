// The checks of one event: by itself, by the marks that are open, by the ruler.
ghost use Rattle.std.specs.Prelude.{◌≡◌, Ok};
ghost use Rattle.stack.specs.Stacks.{held, room};
ghost use Rattle.checks.specs.Checks.{in_text, formed, judged, marked};

use super::marks::{Mark, apply, place_in, plan};
use super::measure::is_admitted;
use events::cursor::Cursor;
use events::event::{Event, Kind, Tag, kind_of};
use events::refusal::Refusal;
use glyphs::Ruler;
use shares::MAX_COLUMNS;
use stack::Stack;

fn is_in_text(event: Event, size: usize) -> bool
    ensures value { result ≡ in_text size event }
{
    event.length > 0 && event.place as usize + event.length as usize <= size
}

// Whether an event of a kind is right by itself, with a text of so many bytes.
fn is_formed(event: Event, kind: Kind, size: usize) -> bool
    ensures value { result ≡ formed size event kind }
{
    match kind {
        Kind::Text | Kind::Code => is_in_text(event, size),
        Kind::Start(Tag::Table) => usize::from(event.columns) <= MAX_COLUMNS,
        _ => true,
    }
}

// Checks the event where the cursor stopped, and opens or closes its mark.
pub fn judge<R: Ruler>(
    ruler: &R,
    cursor: &Cursor,
    marks: &mut Stack<Mark>,
    event: Event,
) -> Result<(), Refusal>
    ensures value { result ≡ judged (R.Ruler.meaning ruler.now).admits cursor.now.text.now (room marks.old) (held marks.old) cursor.now.at event }
    ensures held { result ≡ Ok tt → held marks.new ≡ marked (room marks.old) (held marks.old) event }
    ensures room { room marks.new ≡ room marks.old }
{
    let at = cursor.at() as u64;
    let kind = kind_of(event.kind).ok_or(Refusal::Kind(at))?;
    if !is_formed(event, kind, cursor.text.len()) {
        return Err(Refusal::Kind(at));
    }
    let top = marks.top();
    let misplaced = Refusal::Nesting(at);
    let step = plan(top, kind, event.columns).ok_or(misplaced)?;
    apply(marks, step).map_err(|_| misplaced)?;
    if !is_admitted(ruler, place_in(top), kind, cursor.bytes(event)) {
        return Err(Refusal::Ruler(at));
    }
    Ok(())
}
