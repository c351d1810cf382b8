// Damaged copies of a good list are judged like any other. The counts come from a model of the rules in another language.
ghost use Rattle.std.specs.Prelude.{◌≡◌, ◌<◌};

use super::made::*;
use events::Event;

const COUNT: usize = 34;

// Heading, paragraph with bold and code, list, table, code block.
const GOOD: [u8; COUNT] = [
    HEADING,
    TEXT,
    HEADING_END,
    PARAGRAPH,
    TEXT,
    STRONG,
    TEXT,
    STRONG_END,
    CODE,
    SOFT_BREAK,
    PARAGRAPH_END,
    LIST,
    ITEM,
    TEXT,
    ITEM_END,
    LIST_END,
    TABLE,
    HEAD,
    CELL,
    TEXT,
    CELL_END,
    HEAD_END,
    ROW,
    CELL,
    CODE,
    CELL_END,
    CELL,
    CELL_END,
    ROW_END,
    TABLE_END,
    CODE_BLOCK,
    TEXT,
    CODE_BLOCK_END,
    OTHER,
];

// How many of some lists were admitted, and the sum of the numbers of the events that were refused.
#[derive(Clone, Copy)]
struct Tally {
    admitted: u64,
    events: u64,
}

impl Tally {
    const NONE: Tally = Tally {
        admitted: 0,
        events: 0,
    };

    fn with(self, told: (u8, u64)) -> Tally
        ensures refused { 0 < told.0 → result.admitted ≡ self.admitted }
    {
        match told {
            (0, _) => Tally {
                admitted: self.admitted.saturating_add(1),
                ..self
            },
            (_, event) => Tally {
                events: self.events.saturating_add(event),
                ..self
            },
        }
    }
}

fn good() -> [Event; COUNT] {
    GOOD.map(event)
}

#[test]
fn without_any_one_event(rt: HostRuntime) {
    let mut tally = Tally::NONE;
    for gone in 0..COUNT {
        let mut events = good();
        events.copy_within(gone + 1.., gone);
        tally = tally.with(answer(&events[0..COUNT - 1]));
    }
    assert_eq!(rt; tally.admitted, 10);
    assert_eq!(rt; tally.events, 503);
}

#[test]
fn with_any_one_event_doubled(rt: HostRuntime) {
    let mut tally = Tally::NONE;
    for twice in 0..COUNT {
        let mut events = [event(OTHER); COUNT + 1];
        events[..COUNT].copy_from_slice(&good());
        events.copy_within(twice..COUNT, twice + 1);
        tally = tally.with(answer(&events));
    }
    assert_eq!(rt; tally.admitted, 10);
    assert_eq!(rt; tally.events, 537);
}

#[test]
fn with_any_two_neighbours_swapped(rt: HostRuntime) {
    let mut tally = Tally::NONE;
    for first in 0..COUNT - 1 {
        let mut events = good();
        events.swap(first, first + 1);
        tally = tally.with(answer(&events));
    }
    assert_eq!(rt; tally.admitted, 18);
    assert_eq!(rt; tally.events, 289);
}
