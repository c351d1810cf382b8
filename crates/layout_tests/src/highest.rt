// The highest sheet that there is: all glyphs, lines, rows and tables that a sheet may have, at width 1.

use super::sheets::{NO_GLYPH, event};
use events::event::Event;
use events::styles::MarkdownStyles;
use glyphs::Bytes;
use markdown::Markdown;
use records::kinds::{Row, Span};
use std::alloc::{AllocError, Global};
use std::test::Fail;
use wrap::{CuttingRule, WordRule};

const TEXT: u8 = 0;

const HARD_BREAK: u8 = 3;

const TABLE: u8 = 17;

const ROW: u8 = 19;

const ROW_END: u8 = 39;

const TABLE_END: u8 = 37;

// One line of the last text has all glyphs that the other 255 texts leave.
const LONG: u32 = 49_745;

// 15 empty lines, and one with glyphs.
fn push_stretch(events: &mut Vec<Event>, glyphs: u32) -> Result<(), AllocError> {
    for _ in 0..15 {
        events.push(event(HARD_BREAK, 0, 0))?;
    }
    events.push(event(TEXT, 0, glyphs))?;
    Ok(())
}

// A table of a header and so many body rows, all empty.
fn push_table(events: &mut Vec<Event>, body: u32) -> Result<(), AllocError> {
    events.push(event(TABLE, 0, 0))?;
    for _ in 0..body {
        events.push(event(ROW, 0, 0))?;
        events.push(event(ROW_END, 0, 0))?;
    }
    events.push(event(TABLE_END, 0, 0))?;
    Ok(())
}

// 256 texts of 16 lines, and between them 255 tables, 4,096 rows in all.
fn highest(alloc: Global) -> Result<Vec<Event>, AllocError> {
    let mut events = Vec::new(alloc);
    for _ in 0..254 {
        push_stretch(&mut events, 1)?;
        push_table(&mut events, 15)?;
    }
    push_stretch(&mut events, 1)?;
    push_table(&mut events, 31)?;
    push_stretch(&mut events, LONG)?;
    Ok(events)
}

#[test]
fn the_highest_sheet_has_59211_rows(rt: HostRuntime) -> Result<(), Fail> {
    let mut glyphs = vec![in rt.alloc(); NO_GLYPH; 50_000]?;
    let mut lines = vec![in rt.alloc(); Span::EMPTY; 4_096]?;
    let mut rows = vec![in rt.alloc(); Row::BLANK; 4_096]?;
    let text = vec![in rt.alloc(); b'a'; 49_745]?;
    let events = highest(rt.alloc())?;
    let mut sheet = Markdown::new(&mut glyphs, &mut lines, &mut rows);
    sheet.load(
        &Bytes,
        &MarkdownStyles::new(),
        events.as_slice(),
        text.as_slice(),
        b"source",
    )?;
    assert!(rt; sheet.records().used.glyphs == 50_000);
    assert!(rt; sheet.records().used.lines == 4_096);
    assert!(rt; sheet.records().used.rows == 4_096);
    assert!(rt; sheet.records().used.tables == 255);
    assert_eq!(rt; sheet.height(&WordRule, 1), 59_211);
    assert_eq!(rt; sheet.height(&CuttingRule, 1), 59_211);
    Ok(())
}
