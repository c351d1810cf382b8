// Sheets in a notation of lines, which is their text and their source too: "#3" begins a table of 3
// columns and "#3!" one that is open; "^a|b" is its head, "|a|b" a body row, "." its end; any other line
// is a line of text.

use events::event::Event;
use events::styles::MarkdownStyles;
use glyphs::{Glyph, Utf8};
use markdown::{Markdown, TableLayout, TableRefusal};
use records::kinds::{Row, Span};
use std::alloc::{AllocError, Global};
use std::test::Fail;
use style::{Style, Symbol};
use wrap::BreakingRule;

const TEXT: u8 = 0;

const HARD_BREAK: u8 = 3;

const TABLE: u8 = 17;

const HEAD: u8 = 18;

const ROW: u8 = 19;

const CELL: u8 = 20;

const TABLE_END: u8 = 37;

// The end of a mark has its kind and 20 more.
const END: u8 = 20;

pub const NO_GLYPH: Glyph = Glyph {
    symbol: Symbol::EMPTY,
    width: 0,
    style: Style::PLAIN,
};

fn short(length: usize) -> u32 {
    u32::try_from(length).unwrap_or(u32::MAX)
}

pub fn event(kind: u8, place: u32, length: u32) -> Event {
    Event {
        kind,
        place,
        length,
        end: 0,
        columns: 0,
        alignments: 0,
    }
}

// One more event of no text.
fn push(events: &mut Vec<Event>, kind: u8) -> Result<(), AllocError> {
    events.push(event(kind, 0, 0))?;
    Ok(())
}

fn push_text(events: &mut Vec<Event>, text: &[u8], place: u32) -> Result<(), AllocError> {
    if !text.is_empty() {
        events.push(event(TEXT, place, short(text.len())))?;
    }
    Ok(())
}

// A table's start, from the line behind its "#".
fn push_table(events: &mut Vec<Event>, line: &[u8], length: u32) -> Result<(), AllocError> {
    let mut columns: u8 = 0;
    let mut end = 0;
    for byte in line {
        match byte {
            b'0'..=b'9' => columns = columns.wrapping_mul(10).wrapping_add(*byte - b'0'),
            _ => end = length,
        }
    }
    events.push(Event {
        end,
        columns,
        ..event(TABLE, 0, 0)
    })?;
    Ok(())
}

fn push_row(
    events: &mut Vec<Event>,
    kind: u8,
    entries: &[u8],
    place: u32,
) -> Result<(), AllocError> {
    push(events, kind)?;
    let mut at = place;
    for entry in entries.split(|byte| *byte == b'|') {
        push(events, CELL)?;
        push_text(events, entry, at)?;
        push(events, CELL.wrapping_add(END))?;
        at = at.wrapping_add(short(entry.len())).wrapping_add(1);
    }
    push(events, kind.wrapping_add(END))
}

fn push_line(
    events: &mut Vec<Event>,
    line: &[u8],
    place: u32,
    length: u32,
) -> Result<(), AllocError> {
    match line {
        [b'#', rest @ ..] => push_table(events, rest, length),
        [b'^', rest @ ..] => push_row(events, HEAD, rest, place.wrapping_add(1)),
        [b'|', rest @ ..] => push_row(events, ROW, rest, place.wrapping_add(1)),
        [b'.'] => push(events, TABLE_END),
        _ => {
            push_text(events, line, place)?;
            push(events, HARD_BREAK)
        }
    }
}

// The events of a sheet in the notation.
pub fn events_of(alloc: Global, sheet: &[u8]) -> Result<Vec<Event>, AllocError> {
    let mut events = Vec::new(alloc);
    let mut place: u32 = 0;
    for line in sheet.split(|byte| *byte == b'\n') {
        push_line(&mut events, line, place, short(sheet.len()))?;
        place = place.wrapping_add(short(line.len())).wrapping_add(1);
    }
    Ok(events)
}

// Loads a sheet in the notation.
pub fn load(alloc: Global, sheet: &mut Markdown, text: &[u8]) -> Result<(), Fail> {
    let events = events_of(alloc, text)?;
    sheet.load(&Utf8, &MarkdownStyles::new(), events.as_slice(), text, text)?;
    Ok(())
}

// The height of a sheet in the notation.
pub fn height_of<R: BreakingRule>(
    alloc: Global,
    text: &[u8],
    rule: &R,
    width: u16,
) -> Result<u16, Fail> {
    let mut glyphs = [NO_GLYPH; 512];
    let mut lines = [Span::EMPTY; 64];
    let mut rows = [Row::BLANK; 16];
    let mut sheet = Markdown::new(&mut glyphs, &mut lines, &mut rows);
    load(alloc, &mut sheet, text)?;
    Ok(sheet.height(rule, width))
}

// What a table question for a sheet in the notation answers, and what its place holds then: before, it
// holds no columns and 7 rows.
pub fn table_of<R: BreakingRule>(
    alloc: Global,
    text: &[u8],
    rule: &R,
    number: usize,
    width: u16,
    streaming: bool,
) -> Result<(Result<(), TableRefusal>, TableLayout), Fail> {
    let mut glyphs = [NO_GLYPH; 512];
    let mut lines = [Span::EMPTY; 64];
    let mut rows = [Row::BLANK; 16];
    let mut sheet = Markdown::new(&mut glyphs, &mut lines, &mut rows);
    load(alloc, &mut sheet, text)?;
    sheet.streaming(streaming);
    let mut layout = TableLayout {
        rows: 7,
        ..TableLayout::new()
    };
    let answer = sheet.table(rule, number, width, &mut layout);
    Ok((answer, layout))
}
