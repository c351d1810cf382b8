// What of an event is measured, and whether a ruler admits it.
ghost use Rattle.std.specs.Prelude.{◌≡◌, []};
ghost use Rattle.checks.specs.Measures.{every, empty_or, filled, lines_of, measured};

use super::marks::Place;
use events::event::Kind;
use glyphs::Ruler;

fn admits_part<R: Ruler>(ruler: &R, part: &[u8]) -> bool
    ensures value { result ≡ empty_or (R.Ruler.meaning ruler.now).admits part.now }
{
    part.is_empty() || ruler.admits(part)
}

fn admits_lines<R: Ruler>(ruler: &R, text: &[u8]) -> bool
    ensures value { result ≡ every (R.Ruler.meaning ruler.now).admits (filled (lines_of [] text.now)) }
{
    text.split(|byte| *byte == b'\n')
        .all(|line| admits_part(ruler, line))
}

pub fn is_admitted<R: Ruler>(ruler: &R, place: Place, kind: Kind, bytes: &[u8]) -> bool
    ensures value { result ≡ every (R.Ruler.meaning ruler.now).admits (measured place kind bytes.now) }
{
    match (kind, place) {
        (Kind::Text, Place::Prose) => admits_lines(ruler, bytes),
        (Kind::Text, Place::Entry) => ruler.admits(bytes),
        (Kind::Code, Place::Prose | Place::Entry) => ruler.admits(bytes),
        _ => true,
    }
}
