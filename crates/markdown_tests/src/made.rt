// Events and memory for the tests.

use events::event::Event;
use events::refusal::Refusal;
use events::styles::MarkdownStyles;
use glyphs::Glyph;
use std::alloc::{AllocError, Global};
use style::{Style, Symbol};

pub const TEXT: u8 = 0;

pub const CODE: u8 = 1;

pub const SOFT_BREAK: u8 = 2;

pub const HARD_BREAK: u8 = 3;

pub const STRONG: u8 = 10;

pub const EMPHASIS: u8 = 11;

pub const CODE_BLOCK: u8 = 12;

pub const PARAGRAPH: u8 = 13;

pub const HEADING: u8 = 14;

pub const ITEM: u8 = 15;

pub const LIST: u8 = 16;

pub const TABLE: u8 = 17;

pub const HEAD: u8 = 18;

pub const ROW: u8 = 19;

pub const CELL: u8 = 20;

pub const STRONG_END: u8 = 30;

pub const EMPHASIS_END: u8 = 31;

pub const CODE_BLOCK_END: u8 = 32;

pub const PARAGRAPH_END: u8 = 33;

pub const HEADING_END: u8 = 34;

pub const ITEM_END: u8 = 35;

pub const LIST_END: u8 = 36;

pub const TABLE_END: u8 = 37;

pub const HEAD_END: u8 = 38;

pub const ROW_END: u8 = 39;

pub const CELL_END: u8 = 40;

pub const OTHER: u8 = 50;

// Columns in order right, centre, left, left, and so on again.
pub const ALIGNMENTS: u64 = 0x1b1b_1b1b_1b1b_1b1b;

// An event by its kind, place and length; the start of a table by its kind, end and columns.
pub type Step = (u8, u32, u8);

pub const BLANK: Glyph = Glyph {
    symbol: Symbol::EMPTY,
    width: 0,
    style: Style::PLAIN,
};

// An event that names bytes of the text.
pub fn naming(kind: u8, place: u32, length: u32) -> Event {
    Event {
        kind,
        place,
        length,
        end: 0,
        columns: 0,
        alignments: 0,
    }
}

pub fn event(kind: u8) -> Event {
    naming(kind, 0, 0)
}

pub fn table(columns: u8, end: u32) -> Event {
    Event {
        end,
        columns,
        alignments: ALIGNMENTS,
        ..event(TABLE)
    }
}

pub fn event_of(step: Step) -> Event {
    match step {
        (TABLE, end, columns) => table(columns, end),
        (kind, place, length) => naming(kind, place, u32::from(length)),
    }
}

// Styles that are all different, and that add and take away so that the order of laying them shows.
pub const STYLES: MarkdownStyles = MarkdownStyles {
    base: Style {
        fg: 1,
        bg: 0,
        add: 4,
        remove: 0,
    },
    code_inline: Style {
        fg: 4,
        bg: 2,
        add: 0,
        remove: 1,
    },
    code_block: Style {
        fg: 3,
        bg: 16,
        add: 8,
        remove: 0,
    },
    bold: Style {
        fg: 0,
        bg: 5,
        add: 16,
        remove: 2,
    },
    italic: Style {
        fg: 6,
        bg: 0,
        add: 32,
        remove: 1,
    },
    heading: Style {
        fg: 7,
        bg: 0,
        add: 65,
        remove: 2,
    },
    table_border: Style {
        fg: 9,
        bg: 0,
        add: 0,
        remove: 0,
    },
    table_header: Style {
        fg: 0,
        bg: 10,
        add: 128,
        remove: 32,
    },
};

pub fn put_steps(events: &mut Vec<Event>, steps: &[Step]) -> Result<(), AllocError> {
    for step in steps {
        events.push(event_of(*step))?;
    }
    Ok(())
}

// The numbers of a refusal, 0 and 0 where there is none.
pub fn told(answer: Result<(), Refusal>) -> (u8, u64) {
    answer.err().map_or((0, 0), Refusal::numbered)
}

// The events of two pieces, one behind the other.
pub fn joined(heap: Global, piece: &[Step], behind: &[Step]) -> Result<Vec<Event>, AllocError> {
    let mut events = Vec::new(heap);
    put_steps(&mut events, piece)?;
    put_steps(&mut events, behind)?;
    Ok(events)
}
