// What a new sheet holds, and what a switch and a refused load leave.

use super::made::{BLANK, Step, event_of, put_steps, styles_of};
use events::event::Event;
use events::refusal::Refusal;
use events::styles::MarkdownStyles;
use glyphs::{Glyph, Utf8};
use markdown::Markdown;
use records::kinds::{Block, Row, Span};
use std::alloc::{AllocError, Global};
use std::test::Fail;
use style::{Style, Symbol};

#[test]
fn a_new_sheet_has_no_blocks_the_default_border_and_is_not_streaming(rt: HostRuntime) {
    let mut glyphs = [BLANK; 4];
    let mut lines = [Span::EMPTY; 2];
    let mut rows = [Row::BLANK; 2];
    let sheet = Markdown::new(&mut glyphs, &mut lines, &mut rows);
    assert!(rt; sheet.records().blocks().is_empty());
    assert_eq!(rt; sheet.border(), MarkdownStyles::new().table_border);
    assert!(rt; !sheet.is_streaming());
}

// Records that no load writes.
const MARK: Glyph = Glyph {
    symbol: Symbol { bytes: 7, len: 3 },
    width: 9,
    style: Style {
        fg: 200,
        bg: 100,
        add: 3,
        remove: 255,
    },
};

const MARKED_SPAN: Span = Span { start: 77, len: 7 };

const MARKED_ROW: Row = Row {
    entries: [MARKED_SPAN; 32],
};

// A block by its stretch and, where it is a table, its columns, their alignments and whether it is open.
type BlockImage = (Span, Option<(u8, u64, bool)>);

fn block_image(block: &Block) -> BlockImage {
    match block {
        Block::Text(lines) => (*lines, None),
        Block::Table(info, rows) => (*rows, Some((info.columns, info.alignments, info.open))),
    }
}

// All that a sheet holds, but for streaming.
#[derive(PartialEq, Drop)]
struct Image {
    glyphs: Vec<Glyph>,
    lines: Vec<Span>,
    rows: Vec<[Span; 32]>,
    blocks: Vec<BlockImage>,
    // glyphs, lines, rows and tables in use
    used: [u16; 4],
    border: Style,
}

fn image_of(heap: Global, sheet: &Markdown) -> Result<Image, AllocError> {
    let records = sheet.records();
    let used = records.used;
    Ok(Image {
        glyphs: records.glyphs.to_vec(heap)?,
        lines: records.lines.to_vec(heap)?,
        rows: records.rows.iter().map(|row| row.entries).collect(heap)?,
        blocks: records.blocks().iter().map(block_image).collect(heap)?,
        used: [used.glyphs, used.lines, used.rows, used.tables],
        border: sheet.border(),
    })
}

// A text and an open table: three glyphs, two lines, one row.
const GOOD: [Step; 8] = [
    (0, 0, 2),
    (17, 6, 1),
    (18, 0, 0),
    (20, 0, 0),
    (0, 2, 1),
    (40, 0, 0),
    (38, 0, 0),
    (37, 0, 0),
];

fn load(sheet: &mut Markdown, border: u8, events: &[Event]) -> Result<(), Refusal> {
    sheet.load(&Utf8, &styles_of(border), events, b"abc", b"source")
}

#[test]
fn a_switch_changes_nothing_but_streaming(rt: HostRuntime) -> Result<(), Fail> {
    let mut glyphs = [MARK; 6];
    let mut lines = [MARKED_SPAN; 4];
    let mut rows = [MARKED_ROW; 3];
    let mut sheet = Markdown::new(&mut glyphs, &mut lines, &mut rows);
    let mut events = Vec::new(rt.alloc());
    put_steps(&mut events, &GOOD, 0)?;
    load(&mut sheet, 5, events.as_slice())?;
    let image = image_of(rt.alloc(), &sheet)?;
    for on in [true, true, false, false, true] {
        sheet.streaming(on);
        assert_eq!(rt; sheet.is_streaming(), on);
        assert!(rt; image_of(rt.alloc(), &sheet)? == image);
    }
    Ok(())
}

#[test]
fn a_refused_load_behind_a_switch_leaves_the_last_load_and_the_switch(
    rt: HostRuntime,
) -> Result<(), Fail> {
    let mut glyphs = [MARK; 6];
    let mut lines = [MARKED_SPAN; 4];
    let mut rows = [MARKED_ROW; 3];
    let mut sheet = Markdown::new(&mut glyphs, &mut lines, &mut rows);
    let mut events = Vec::new(rt.alloc());
    put_steps(&mut events, &GOOD, 0)?;
    load(&mut sheet, 5, events.as_slice())?;
    let image = image_of(rt.alloc(), &sheet)?;
    sheet.streaming(true);
    events.push(event_of((30, 0, 0), 0))?;
    assert_eq!(rt;
        load(&mut sheet, 6, events.as_slice()),
        Err(Refusal::Nesting(8))
    );
    assert_eq!(rt; load(&mut sheet, 17, &[]), Err(Refusal::Style(6)));
    assert!(rt; sheet.is_streaming());
    assert!(rt; image_of(rt.alloc(), &sheet)? == image);
    Ok(())
}
