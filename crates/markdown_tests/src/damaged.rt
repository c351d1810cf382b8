// Damaged copies of a good sheet, and sheets drawn from the pieces with an event out of place: each is
// answered, and leaves, as tools/load_answers.py says.

use super::answers::{DAMAGED, DRAWN, GOOD, NESTED, PIECES};
use super::log::Log;
use super::made::*;
use events::event::Event;
use glyphs::{Bytes, Ruler, Utf8};
use records::kinds::{Row, Span};
use std::alloc::{AllocError, Global};
use std::test::Fail;

fn good(heap: Global) -> Result<Vec<Event>, AllocError> {
    let mut events = Vec::new(heap);
    for piece in GOOD {
        put_steps(&mut events, PIECES[piece])?;
    }
    Ok(events)
}

// Loads the sheet without each event.
fn load_dropped<R: Ruler>(
    heap: Global,
    log: &mut Log<'_, R>,
    good: &[Event],
) -> Result<(), AllocError> {
    for gone in 0..good.len() {
        let mut events = good[..gone].to_vec(heap)?;
        events.extend_from_slice(&good[gone + 1..])?;
        log.load(events.as_slice());
    }
    Ok(())
}

// Loads the sheet with each event doubled.
fn load_doubled<R: Ruler>(
    heap: Global,
    log: &mut Log<'_, R>,
    good: &[Event],
) -> Result<(), AllocError> {
    for twice in 0..good.len() {
        let mut events = good[..twice + 1].to_vec(heap)?;
        events.extend_from_slice(&good[twice..])?;
        log.load(events.as_slice());
    }
    Ok(())
}

// Loads the sheet with each event before the one that it follows.
fn load_swapped<R: Ruler>(
    heap: Global,
    log: &mut Log<'_, R>,
    good: &[Event],
) -> Result<(), AllocError> {
    for late in 1..good.len() {
        let mut events = good[..late - 1].to_vec(heap)?;
        events.push(good[late])?;
        events.push(good[late - 1])?;
        events.extend_from_slice(&good[late + 1..])?;
        log.load(events.as_slice());
    }
    Ok(())
}

// The digests of the whole sheet with each kind of copy behind it.
fn damaged<R: Ruler>(heap: Global, ruler: &R) -> Result<[u64; 3], AllocError> {
    let mut glyphs = [BLANK; 400];
    let mut lines = [Span::EMPTY; 60];
    let mut rows = [Row::BLANK; 20];
    let good = good(heap)?;
    let mut log = Log::new(ruler, &mut glyphs, &mut lines, &mut rows);
    log.load(good.as_slice());
    load_dropped(heap, &mut log, good.as_slice())?;
    let dropped = log.digest();
    log.forget();
    load_doubled(heap, &mut log, good.as_slice())?;
    let doubled = log.digest();
    log.forget();
    load_swapped(heap, &mut log, good.as_slice())?;
    Ok([dropped, doubled, log.digest()])
}

#[test]
fn a_good_sheet_with_an_event_dropped_doubled_or_swapped(rt: HostRuntime) -> Result<(), Fail> {
    let [bytes, utf8] = DAMAGED;
    assert_eq!(rt; damaged(rt.alloc(), &Bytes)?, bytes);
    assert_eq!(rt; damaged(rt.alloc(), &Utf8)?, utf8);
    Ok(())
}

// What sheets are drawn with.
#[derive(Drop)]
struct Generator {
    state: u64,
}

impl Generator {
    // The next number below n, and 0 below 0.
    fn below(&mut self, n: u64) -> u64 {
        self.state = self
            .state
            .wrapping_mul(6364136223846793005)
            .wrapping_add(1442695040888963407);
        (self.state >> 33).checked_rem(n).unwrap_or(0)
    }

    // One of these.
    fn one<T: Copy>(&mut self, from: &[T]) -> Option<T> {
        let at = self.below(from.len() as u64);
        from.get(at as usize).copied()
    }

    // Changes one event for another of these.
    fn change(&mut self, events: &mut [Event]) {
        let place = self.below(events.len() as u64) as usize;
        let other = self.one(events).unwrap_or(event(OTHER));
        if place < events.len() {
            events[place] = other;
        }
    }
}

// Draws a sheet of up to seven pieces, and changes up to three events for others of them.
fn draw(heap: Global, generator: &mut Generator) -> Result<Vec<Event>, AllocError> {
    let mut events = Vec::new(heap);
    for _ in 0..generator.below(8) {
        let piece = generator.one(&PIECES).unwrap_or(&[]);
        put_steps(&mut events, piece)?;
    }
    for _ in 0..generator.below(4) {
        generator.change(events.as_mut_slice());
    }
    Ok(events)
}

// The digest of twenty thousand drawn sheets, in memory that is too little for some.
fn drawn<R: Ruler>(heap: Global, ruler: &R) -> Result<u64, AllocError> {
    let mut glyphs = [BLANK; 50];
    let mut lines = [Span::EMPTY; 16];
    let mut rows = [Row::BLANK; 4];
    let mut log = Log::new(ruler, &mut glyphs, &mut lines, &mut rows);
    let mut generator = Generator { state: 1 };
    for _ in 0..20_000 {
        log.load(draw(heap, &mut generator)?.as_slice());
    }
    Ok(log.digest())
}

#[test]
fn twenty_thousand_drawn_sheets_good_and_bad(rt: HostRuntime) -> Result<(), Fail> {
    let [bytes, utf8] = DRAWN;
    assert_eq!(rt; drawn(rt.alloc(), &Bytes)?, bytes);
    assert_eq!(rt; drawn(rt.alloc(), &Utf8)?, utf8);
    Ok(())
}

const NEST: [(u8, u8); 3] = [
    (STRONG, STRONG_END),
    (EMPHASIS, EMPHASIS_END),
    (HEADING, HEADING_END),
];

// So many marks, one in the other, with a letter behind each start and each end.
fn nested(heap: Global, depth: usize) -> Result<Vec<Event>, AllocError> {
    let mut events = Vec::new(heap);
    for level in 0..depth {
        put_steps(&mut events, &[(NEST[level % 3].0, 0, 0), (TEXT, 0, 1)])?;
    }
    for level in (0..depth).rev() {
        put_steps(&mut events, &[(NEST[level % 3].1, 0, 0), (TEXT, 1, 1)])?;
    }
    Ok(events)
}

#[test]
fn sixty_four_marks_keep_their_styles_and_one_more_is_refused(rt: HostRuntime) -> Result<(), Fail> {
    let mut glyphs = [BLANK; 400];
    let mut lines = [Span::EMPTY; 60];
    let mut rows = [Row::BLANK; 20];
    let mut log = Log::new(&Utf8, &mut glyphs, &mut lines, &mut rows);
    log.load(nested(rt.alloc(), 64)?.as_slice());
    log.load(nested(rt.alloc(), 65)?.as_slice());
    assert_eq!(rt; log.digest(), NESTED);
    Ok(())
}
