// Sheets by the thousand, held against the digests of tools/load_answers.py, which was written from the
// rules alone.

use super::answers::*;
use super::log::Log;
use super::made::*;
use events::event::Event;
use glyphs::{Bytes, Ruler, Utf8};
use records::kinds::{Row, Span};
use std::alloc::{AllocError, Global};
use std::test::Fail;

// The sheet of one piece.
fn alone<R: Ruler>(heap: Global, ruler: &R, piece: &[Step]) -> Result<u64, AllocError> {
    let mut glyphs = [BLANK; 400];
    let mut lines = [Span::EMPTY; 60];
    let mut rows = [Row::BLANK; 20];
    let mut log = Log::new(ruler, &mut glyphs, &mut lines, &mut rows);
    log.load(joined(heap, piece, &[])?.as_slice());
    Ok(log.digest())
}

// The sheets of a piece with each one behind it.
fn pairs<R: Ruler>(heap: Global, ruler: &R, piece: &[Step]) -> Result<u64, AllocError> {
    let mut glyphs = [BLANK; 400];
    let mut lines = [Span::EMPTY; 60];
    let mut rows = [Row::BLANK; 20];
    let mut log = Log::new(ruler, &mut glyphs, &mut lines, &mut rows);
    for behind in &PIECES {
        log.load(joined(heap, piece, behind)?.as_slice());
    }
    Ok(log.digest())
}

const MARKS: [(u8, u8); 7] = [
    (STRONG, STRONG_END),
    (EMPHASIS, EMPHASIS_END),
    (CODE_BLOCK, CODE_BLOCK_END),
    (PARAGRAPH, PARAGRAPH_END),
    (HEADING, HEADING_END),
    (ITEM, ITEM_END),
    (LIST, LIST_END),
];

// A piece in a mark, between another and that again.
fn between(
    heap: Global,
    mark: (u8, u8),
    piece: &[Step],
    around: &[Step],
) -> Result<Vec<Event>, AllocError> {
    let mut events = joined(heap, around, &[(mark.0, 0, 0)])?;
    put_steps(&mut events, piece)?;
    put_steps(&mut events, &[(mark.1, 0, 0)])?;
    put_steps(&mut events, around)?;
    Ok(events)
}

// The sheets of each piece in a mark, between each piece and that again.
fn marked<R: Ruler>(heap: Global, ruler: &R, mark: (u8, u8)) -> Result<u64, AllocError> {
    let mut glyphs = [BLANK; 400];
    let mut lines = [Span::EMPTY; 60];
    let mut rows = [Row::BLANK; 20];
    let mut log = Log::new(ruler, &mut glyphs, &mut lines, &mut rows);
    for piece in &PIECES {
        for around in &PIECES {
            log.load(between(heap, mark, piece, around)?.as_slice());
        }
    }
    Ok(log.digest())
}

#[test]
fn each_piece_alone(rt: HostRuntime) -> Result<(), Fail> {
    let [bytes, utf8] = ALONE;
    for (piece, (bytes, utf8)) in PIECES.iter().zip(bytes.iter().zip(&utf8)) {
        assert_eq!(rt; alone(rt.alloc(), &Bytes, piece)?, *bytes);
        assert_eq!(rt; alone(rt.alloc(), &Utf8, piece)?, *utf8);
    }
    Ok(())
}

#[test]
fn each_piece_behind_each(rt: HostRuntime) -> Result<(), Fail> {
    let [bytes, utf8] = PAIRS;
    for (piece, (bytes, utf8)) in PIECES.iter().zip(bytes.iter().zip(&utf8)) {
        assert_eq!(rt; pairs(rt.alloc(), &Bytes, piece)?, *bytes);
        assert_eq!(rt; pairs(rt.alloc(), &Utf8, piece)?, *utf8);
    }
    Ok(())
}

#[test]
fn each_piece_in_each_mark_between_each(rt: HostRuntime) -> Result<(), Fail> {
    let [bytes, utf8] = MARKED;
    for (mark, (bytes, utf8)) in MARKS.iter().zip(bytes.iter().zip(&utf8)) {
        assert_eq!(rt; marked(rt.alloc(), &Bytes, *mark)?, *bytes);
        assert_eq!(rt; marked(rt.alloc(), &Utf8, *mark)?, *utf8);
    }
    Ok(())
}

// How many of the sheets of each piece, loaded after each other one, are not as they are alone.
fn changed_by_what_came_before(heap: Global, alone: &[u64]) -> Result<usize, AllocError> {
    let mut glyphs = [BLANK; 400];
    let mut lines = [Span::EMPTY; 60];
    let mut rows = [Row::BLANK; 20];
    let mut log = Log::new(&Utf8, &mut glyphs, &mut lines, &mut rows);
    let mut changed = 0usize;
    for before in &PIECES {
        for (piece, digest) in PIECES.iter().zip(alone) {
            log.load(joined(heap, before, &[])?.as_slice());
            log.forget();
            log.load(joined(heap, piece, &[])?.as_slice());
            changed = changed.saturating_add(usize::from(log.digest() != *digest));
        }
    }
    Ok(changed)
}

#[test]
fn a_load_gives_the_same_whatever_was_loaded_before(rt: HostRuntime) -> Result<(), Fail> {
    let [_, utf8] = ALONE;
    assert_eq!(rt; changed_by_what_came_before(rt.alloc(), &utf8)?, 0);
    Ok(())
}
