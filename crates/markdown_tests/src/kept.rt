// What a refused load leaves: everything as it was, the lent memory too, with what no load wrote.

use super::made::*;
use events::event::Event;
use events::styles::MarkdownStyles;
use glyphs::{Glyph, Utf8};
use markdown::Markdown;
use records::kinds::{Block, Row, Span, Used};
use std::alloc::{AllocError, Global};
use std::test::Fail;
use style::{Style, Symbol};

// All that a sheet holds.
#[derive(Drop)]
struct Held {
    glyphs: Vec<Glyph>,
    lines: Vec<Span>,
    rows: Vec<Row>,
    blocks: Vec<Block>,
    used: Used,
    border: Style,
    streaming: bool,
}

impl Held {
    fn of(heap: Global, sheet: &Markdown) -> Result<Held, AllocError> {
        Ok(Held {
            glyphs: sheet.records().glyphs.to_vec(heap)?,
            lines: sheet.records().lines.to_vec(heap)?,
            rows: sheet.records().rows.to_vec(heap)?,
            blocks: sheet.records().blocks().to_vec(heap)?,
            used: sheet.records().used,
            border: sheet.border(),
            streaming: sheet.is_streaming(),
        })
    }

    fn same_memory(&self, other: &Held) -> bool {
        self.glyphs.as_slice() == other.glyphs.as_slice()
            && self.lines.as_slice() == other.lines.as_slice()
            && self.rows.len() == other.rows.len()
            && self
                .rows
                .iter()
                .zip(other.rows.iter())
                .all(|(row, other)| row.entries == other.entries)
    }

    fn same_blocks(&self, other: &Held) -> bool {
        self.blocks.len() == other.blocks.len()
            && self
                .blocks
                .iter()
                .zip(other.blocks.iter())
                .all(|(block, other)| same_block(block, other))
    }

    fn same_rest(&self, other: &Held) -> bool {
        same_used(self.used, other.used)
            && self.border == other.border
            && self.streaming == other.streaming
    }

    fn same(&self, other: &Held) -> bool {
        self.same_memory(other) && self.same_blocks(other) && self.same_rest(other)
    }
}

fn same_block(block: &Block, other: &Block) -> bool {
    match (block, other) {
        (Block::Text(lines), Block::Text(others)) => lines == others,
        (Block::Table(info, rows), Block::Table(told, others)) => {
            rows == others
                && info.columns == told.columns
                && info.alignments == told.alignments
                && info.open == told.open
        }
        _ => false,
    }
}

fn same_used(used: Used, other: Used) -> bool {
    used.glyphs == other.glyphs
        && used.lines == other.lines
        && used.rows == other.rows
        && used.tables == other.tables
        && used.blocks == other.blocks
}

// A sign that no load writes.
const MARK: Glyph = Glyph {
    symbol: Symbol { bytes: 7, len: 3 },
    width: 9,
    style: Style {
        fg: 200,
        bg: 100,
        add: 3,
        remove: 255,
    },
};

const MARKED_SPAN: Span = Span { start: 77, len: 7 };

const MARKED_ROW: Row = Row {
    entries: [MARKED_SPAN; 32],
};

// A text and a table: three glyphs, two lines, one row.
const GOOD: [Step; 8] = [
    (TEXT, 0, 2),
    (TABLE, 2, 1),
    (HEAD, 0, 0),
    (CELL, 0, 0),
    (TEXT, 2, 1),
    (CELL_END, 0, 0),
    (HEAD_END, 0, 0),
    (TABLE_END, 0, 0),
];

// Other lists, each refused, with room for six glyphs, four lines and two rows.
const REFUSED: [(&'static [Step], (u8, u64)); 9] = [
    (&[(TEXT, 2, 2), (9, 0, 0)], (1, 1)),
    (&[(TEXT, 2, 2), (TEXT, 4, 9)], (1, 1)),
    (&[(TEXT, 2, 2), (TABLE, 0, 33)], (1, 1)),
    (&[(TEXT, 2, 2), (STRONG_END, 0, 0)], (2, 1)),
    (&[(TEXT, 2, 2), (STRONG, 0, 0)], (2, 2)),
    (&[(TEXT, 2, 2), (TEXT, 7, 1)], (3, 1)),
    (&[(TEXT, 1, 6), (TEXT, 1, 1)], (4, 0)),
    (
        &[
            (TEXT, 2, 2),
            (HARD_BREAK, 0, 0),
            (HARD_BREAK, 0, 0),
            (HARD_BREAK, 0, 0),
            (HARD_BREAK, 0, 0),
        ],
        (4, 1),
    ),
    (
        &[
            (TABLE, 0, 1),
            (ROW, 0, 0),
            (ROW_END, 0, 0),
            (ROW, 0, 0),
            (ROW_END, 0, 0),
            (TABLE_END, 0, 0),
        ],
        (4, 2),
    ),
];

fn load(sheet: &mut Markdown, styles: &MarkdownStyles, events: &[Event]) -> (u8, u64) {
    told(sheet.load(&Utf8, styles, events, b"abcdefg\xff", b"source"))
}

// Whether a load with these steps and a colour at the border answers so, and leaves the sheet as it was.
fn leaves(
    heap: Global,
    sheet: &mut Markdown,
    border: u8,
    steps: &[Step],
    expected: (u8, u64),
) -> Result<bool, AllocError> {
    let styles = MarkdownStyles {
        table_border: Style {
            fg: border,
            ..Style::PLAIN
        },
        ..MarkdownStyles::new()
    };
    let events = joined(heap, steps, &[])?;
    let before = Held::of(heap, sheet)?;
    let answer = load(sheet, &styles, events.as_slice());
    let after = Held::of(heap, sheet)?;
    Ok(answer == expected && before.same(&after))
}

// Whether every refused load leaves the sheet as it was.
fn leaves_all(heap: Global, sheet: &mut Markdown) -> Result<bool, AllocError> {
    let mut all = leaves(heap, sheet, 17, &GOOD, (9, 6))?;
    for (steps, expected) in &REFUSED {
        all = leaves(heap, sheet, 5, steps, *expected)? && all;
    }
    Ok(all)
}

#[test]
fn a_refused_load_leaves_a_fresh_sheet_and_a_loaded_one(rt: HostRuntime) -> Result<(), Fail> {
    let mut glyphs = [MARK; 6];
    let mut lines = [MARKED_SPAN; 4];
    let mut rows = [MARKED_ROW; 2];
    let mut sheet = Markdown::new(&mut glyphs, &mut lines, &mut rows);
    assert!(rt; leaves_all(rt.alloc(), &mut sheet)?);
    assert!(rt; sheet.records().blocks().is_empty());
    let events = joined(rt.alloc(), &GOOD, &[])?;
    assert_eq!(rt;
        load(&mut sheet, &MarkdownStyles::new(), events.as_slice()),
        (0, 0)
    );
    assert!(rt; leaves_all(rt.alloc(), &mut sheet)?);
    assert_eq!(rt; sheet.records().blocks().len(), 2);
    Ok(())
}

#[test]
fn an_admitted_load_changes_a_sheet(rt: HostRuntime) -> Result<(), Fail> {
    let mut glyphs = [MARK; 6];
    let mut lines = [MARKED_SPAN; 4];
    let mut rows = [MARKED_ROW; 2];
    let mut sheet = Markdown::new(&mut glyphs, &mut lines, &mut rows);
    assert!(rt; !leaves(rt.alloc(), &mut sheet, 5, &GOOD, (0, 0))?);
    Ok(())
}

#[test]
fn an_empty_source_leaves_no_blocks_and_takes_the_border(rt: HostRuntime) -> Result<(), Fail> {
    let mut glyphs = [MARK; 6];
    let mut lines = [MARKED_SPAN; 4];
    let mut rows = [MARKED_ROW; 2];
    let mut sheet = Markdown::new(&mut glyphs, &mut lines, &mut rows);
    let events = joined(rt.alloc(), &GOOD, &[])?;
    assert_eq!(rt;
        load(&mut sheet, &MarkdownStyles::new(), events.as_slice()),
        (0, 0)
    );
    let answer = sheet.load(&Utf8, &STYLES, events.as_slice(), b"abcdefg\xff", b"");
    assert_eq!(rt; told(answer), (0, 0));
    assert!(rt; sheet.records().blocks().is_empty());
    assert_eq!(rt; sheet.border(), STYLES.table_border);
    Ok(())
}
