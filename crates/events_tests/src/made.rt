// Events for the tests, and a ruler that tells whole texts from their lines.
ghost use Rattle.std.specs.Prelude.{◌≡◌, ◌<◌};
ghost use Rattle.events_tests.specs.Short.{short_ruling};
ghost use Rattle.events_tests.specs.Told.{told as numbers};

use checks::check;
use clusters::{Cluster, byte_cluster};
use events::{Event, Refusal};
use glyphs::{Bytes, Ruler};

pub const TEXT: u8 = 0;

pub const CODE: u8 = 1;

pub const SOFT_BREAK: u8 = 2;

pub const HARD_BREAK: u8 = 3;

pub const STRONG: u8 = 10;

pub const EMPHASIS: u8 = 11;

pub const CODE_BLOCK: u8 = 12;

pub const PARAGRAPH: u8 = 13;

pub const HEADING: u8 = 14;

pub const ITEM: u8 = 15;

pub const LIST: u8 = 16;

pub const TABLE: u8 = 17;

pub const HEAD: u8 = 18;

pub const ROW: u8 = 19;

pub const CELL: u8 = 20;

pub const OTHER: u8 = 50;

pub const STRONG_END: u8 = 30;

pub const EMPHASIS_END: u8 = 31;

pub const CODE_BLOCK_END: u8 = 32;

pub const PARAGRAPH_END: u8 = 33;

pub const HEADING_END: u8 = 34;

pub const ITEM_END: u8 = 35;

pub const LIST_END: u8 = 36;

pub const TABLE_END: u8 = 37;

pub const HEAD_END: u8 = 38;

pub const ROW_END: u8 = 39;

pub const CELL_END: u8 = 40;

// The sample text of the tests.
pub const SAMPLE: &[u8] = b"ab\ncd";

// Admits one byte or two.
#[derive(Clone, Copy)]
pub struct Short;

impl Ruler for Short {
    ghost meaning = { λ _. short_ruling };

    fn admits(&self, text: &[u8]) -> bool {
        0 < text.len() && text.len() <= 2
    }

    fn cluster(&self, text: &[u8], at: usize) -> Cluster {
        byte_cluster(text, at)
    }
}

// An event of a kind that names these bytes; as a table it has two columns.
pub fn naming(kind: u8, place: u32, length: u32) -> Event
    ensures value { result ≡ record { kind = kind; place = place; length = length; end = 0; columns = 2; alignments = 0 } }
{
    Event {
        kind,
        place,
        length,
        end: 0,
        columns: 2,
        alignments: 0,
    }
}

// An event of a kind that names the first two bytes.
pub fn event(kind: u8) -> Event
    ensures value { result ≡ record { kind = kind; place = 0; length = 2; end = 0; columns = 2; alignments = 0 } }
{
    naming(kind, 0, 2)
}

pub fn table(columns: u8) -> Event
    ensures value { result ≡ record { kind = 17; place = 0; length = 2; end = 0; columns = columns; alignments = 0 } }
{
    Event {
        columns,
        ..event(TABLE)
    }
}

// The numbers of a refusal, 0 and 0 where there is none.
pub fn told(answer: Result<(), Refusal>) -> (u8, u64)
    ensures value { result ≡ numbers answer }
{
    answer.err().map_or((0, 0), Refusal::numbered)
}

// What the check says to these events with the sample text.
pub fn answer(events: &[Event]) -> (u8, u64)
    ensures bound { result.0 < 10 }
{
    told(check(&Bytes, events, SAMPLE))
}

// The same to events of these kinds, at most 16.
pub fn answer_to(kinds: &[u8]) -> (u8, u64)
    ensures bound { result.0 < 10 }
{
    let mut events = [event(OTHER); 16];
    for (slot, kind) in events.iter_mut().zip(kinds) {
        *slot = event(*kind);
    }
    answer(&events)
}
