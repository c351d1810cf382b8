// What a load counts, exactly at each limit and one past it: in little memory, and in memory that is
// larger than the limits.

use super::made::*;
use events::event::Event;
use events::styles::MarkdownStyles;
use glyphs::Bytes;
use markdown::Markdown;
use records::kinds::{Block, Row, Span};
use std::alloc::{AllocError, Global};
use std::test::Fail;

// For how many glyphs, lines and rows memory is lent.
type Room = (usize, usize, usize);

// What a load into so much memory answers.
fn answer_in(
    heap: Global,
    room: Room,
    events: &[Event],
    text: &[u8],
) -> Result<(u8, u64), AllocError> {
    let mut glyphs = vec![in heap; BLANK; room.0]?;
    let mut lines = vec![in heap; Span::EMPTY; room.1]?;
    let mut rows = vec![in heap; Row::BLANK; room.2]?;
    let mut sheet = Markdown::new(
        glyphs.as_mut_slice(),
        lines.as_mut_slice(),
        rows.as_mut_slice(),
    );
    let answer = sheet.load(&Bytes, &MarkdownStyles::new(), events, text, b"source");
    Ok(told(answer))
}

// Five glyphs, three lines and two rows.
const SMALL: [Step; 9] = [
    (TEXT, 0, 3),
    (TABLE, 0, 1),
    (ROW, 0, 0),
    (CELL, 0, 0),
    (TEXT, 3, 2),
    (CELL_END, 0, 0),
    (ROW_END, 0, 0),
    (TABLE_END, 0, 0),
    (HARD_BREAK, 0, 0),
];

const SMALL_ROOMS: [(Room, (u8, u64)); 10] = [
    ((5, 3, 2), (0, 0)),
    ((6, 4, 3), (0, 0)),
    ((4, 3, 2), (4, 0)),
    ((5, 2, 2), (4, 1)),
    ((5, 3, 1), (4, 2)),
    ((0, 0, 0), (4, 0)),
    ((4, 2, 1), (4, 0)),
    ((5, 0, 0), (4, 1)),
    ((5, 2, 1), (4, 1)),
    ((5, 3, 0), (4, 2)),
];

#[test]
fn lent_memory_is_a_limit_that_may_be_met_and_not_passed(rt: HostRuntime) -> Result<(), Fail> {
    let events = joined(rt.alloc(), &SMALL, &[])?;
    for (room, expected) in SMALL_ROOMS {
        let answer = answer_in(rt.alloc(), room, events.as_slice(), b"abcde")?;
        assert_eq!(rt; answer, expected);
    }
    Ok(())
}

#[test]
fn an_empty_load_needs_one_line(rt: HostRuntime) -> Result<(), Fail> {
    assert_eq!(rt; answer_in(rt.alloc(), (0, 0, 0), &[], b"")?, (4, 1));
    assert_eq!(rt; answer_in(rt.alloc(), (0, 1, 0), &[], b"")?, (0, 0));
    Ok(())
}

// Memory above every limit, and above what 16 bits count.
const LARGE: Room = (70_000, 70_000, 70_000);

// What a load of one Text of so many equal bytes answers.
fn of_bytes(heap: Global, byte: u8, count: usize) -> Result<(u8, u64), AllocError> {
    let text = vec![in heap; byte; count]?;
    let events = [naming(TEXT, 0, u32::try_from(count).unwrap_or(0))];
    answer_in(heap, LARGE, &events, text.as_slice())
}

#[test]
fn a_sheet_has_at_most_fifty_thousand_glyphs(rt: HostRuntime) -> Result<(), Fail> {
    for (count, expected) in [
        (50_000, (0, 0)),
        (50_001, (4, 0)),
        (65_536, (4, 0)),
        (65_546, (4, 0)),
    ] {
        assert_eq!(rt; of_bytes(rt.alloc(), b'a', count)?, expected);
    }
    Ok(())
}

#[test]
fn a_tab_counts_four_glyphs(rt: HostRuntime) -> Result<(), Fail> {
    assert_eq!(rt; of_bytes(rt.alloc(), b'\t', 12_500)?, (0, 0));
    assert_eq!(rt; of_bytes(rt.alloc(), b'\t', 12_501)?, (4, 0));
    Ok(())
}

#[test]
fn a_sheet_has_at_most_4096_lines(rt: HostRuntime) -> Result<(), Fail> {
    for (feeds, expected) in [
        (4_095, (0, 0)),
        (4_096, (4, 1)),
        (65_535, (4, 1)),
        (65_545, (4, 1)),
    ] {
        assert_eq!(rt; of_bytes(rt.alloc(), b'\n', feeds)?, expected);
    }
    Ok(())
}

// A start and an end, so often.
fn repeated(
    heap: Global,
    events: &mut Vec<Event>,
    pair: [Event; 2],
    times: u32,
) -> Result<(), AllocError> {
    for _ in 0..times {
        events.extend_from_slice(&pair)?;
    }
    Ok(())
}

// What a table of so many rows answers, its header not counted.
fn of_rows(heap: Global, rows: u32) -> Result<(u8, u64), AllocError> {
    let mut events = vec![in heap; table(1, 0)]?;
    repeated(heap, &mut events, [event(ROW), event(ROW_END)], rows)?;
    events.push(event(TABLE_END))?;
    answer_in(heap, LARGE, events.as_slice(), b"")
}

#[test]
fn a_sheet_has_at_most_4096_rows_with_each_header(rt: HostRuntime) -> Result<(), Fail> {
    for (rows, expected) in [
        (4_095, (0, 0)),
        (4_096, (4, 2)),
        (65_535, (4, 2)),
        (65_545, (4, 2)),
    ] {
        assert_eq!(rt; of_rows(rt.alloc(), rows)?, expected);
    }
    Ok(())
}

// What so many empty tables answer, behind a text.
fn of_tables(heap: Global, room: Room, tables: u32) -> Result<(u8, u64), AllocError> {
    let mut events = vec![in heap; naming(TEXT, 0, 1)]?;
    repeated(heap, &mut events, [table(1, 0), event(TABLE_END)], tables)?;
    answer_in(heap, room, events.as_slice(), b"a")
}

#[test]
fn a_sheet_has_at_most_255_tables(rt: HostRuntime) -> Result<(), Fail> {
    assert_eq!(rt; of_tables(rt.alloc(), LARGE, 255)?, (0, 0));
    assert_eq!(rt; of_tables(rt.alloc(), LARGE, 256)?, (4, 3));
    assert_eq!(rt; of_tables(rt.alloc(), LARGE, 4_095)?, (4, 3));
    assert_eq!(rt; of_tables(rt.alloc(), LARGE, 4_096)?, (4, 1));
    Ok(())
}

// Rooms for one glyph, 257 lines and 256 rows, and for fewer.
const TABLE_ROOMS: [(Room, (u8, u64)); 5] = [
    ((1, 257, 256), (4, 3)),
    ((1, 257, 255), (4, 2)),
    ((1, 256, 255), (4, 1)),
    ((0, 256, 255), (4, 0)),
    ((0, 257, 256), (4, 0)),
];

#[test]
fn glyphs_are_told_before_lines_before_rows_before_tables(rt: HostRuntime) -> Result<(), Fail> {
    for (room, expected) in TABLE_ROOMS {
        assert_eq!(rt; of_tables(rt.alloc(), room, 256)?, expected);
    }
    Ok(())
}

// The most blocks that a sheet can have: 255 tables, and a text before each and after the last.
fn full_sheet(heap: Global) -> Result<Vec<Event>, AllocError> {
    let mut events = Vec::new(heap);
    for _ in 0..255 {
        put_steps(
            &mut events,
            &[(TEXT, 0, 1), (TABLE, 0, 1), (TABLE_END, 0, 0)],
        )?;
    }
    put_steps(&mut events, &[(TEXT, 0, 1)])?;
    Ok(events)
}

#[test]
fn a_sheet_has_a_text_before_each_of_255_tables_and_after_the_last(
    rt: HostRuntime,
) -> Result<(), Fail> {
    let mut glyphs = [BLANK; 256];
    let mut lines = [Span::EMPTY; 256];
    let mut rows = [Row::BLANK; 255];
    let mut sheet = Markdown::new(&mut glyphs, &mut lines, &mut rows);
    let events = full_sheet(rt.alloc())?;
    let answer = sheet.load(&Bytes, &STYLES, events.as_slice(), b"a", b"source");
    assert_eq!(rt; told(answer), (0, 0));
    assert_eq!(rt; sheet.records().blocks().len(), 511);
    for (i, block) in sheet.records().blocks().iter().enumerate() {
        let is_text = matches!(block, Block::Text(Span { len: 1, .. }));
        let is_table = matches!(block, Block::Table(_, Span { len: 1, .. }));
        assert!(rt; if i % 2 == 0 { is_text } else { is_table });
    }
    Ok(())
}
