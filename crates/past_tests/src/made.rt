// Events, memory and pages for the tests.

use events::event::Event;
use events::styles::MarkdownStyles;
use glyphs::Glyph;
pub use markdown::Area;
use page::Surface;
use std::alloc::AllocError;
use style::{Style, Symbol};

pub const STRONG: u8 = 10;

const TABLE: u8 = 17;

pub const OTHER: u8 = 50;

// By how much the number of an end is above that of its start.
pub const END: u8 = 20;

// An event by its kind, place and length; the start of a table by its kind, end and columns.
pub type Step = (u8, u32, u8);

pub const BLANK: Glyph = Glyph {
    symbol: Symbol::EMPTY,
    width: 0,
    style: Style::PLAIN,
};

// An event that names bytes of the text.
pub fn naming(kind: u8, place: u32, length: u32) -> Event {
    Event {
        kind,
        place,
        length,
        end: 0,
        columns: 0,
        alignments: 0,
    }
}

// The event of a step; a table has these alignments.
pub fn event_of(step: Step, alignments: u64) -> Event {
    match step {
        (TABLE, end, columns) => Event {
            end,
            columns,
            alignments,
            ..naming(TABLE, 0, 0)
        },
        (kind, place, length) => naming(kind, place, u32::from(length)),
    }
}

pub fn put_steps(
    events: &mut Vec<Event>,
    steps: &[Step],
    alignments: u64,
) -> Result<(), AllocError> {
    for step in steps {
        events.push(event_of(*step, alignments))?;
    }
    Ok(())
}

// The styles of a sheet for which none were set, but for the colour of the borders of tables.
pub fn styles_of(border: u8) -> MarkdownStyles {
    MarkdownStyles {
        table_border: Style {
            fg: border,
            ..Style::PLAIN
        },
        ..MarkdownStyles::new()
    }
}

pub fn area(x: u16, y: u16, width: u16, height: u16) -> Area {
    Area {
        x,
        y,
        width,
        height,
    }
}

// Puts old content on a cell: something else in each place and in each part.
fn put_old<S: Surface>(page: &mut S, x: u16, y: u16) {
    let (i, j) = (u32::from(x), u32::from(y));
    let style = Style {
        fg: ((i + j) % 17) as u8,
        bg: ((i + 3 * j) % 17) as u8,
        add: ((5 * i + 11 * j) % 256) as u8,
        remove: 0,
    };
    let letter = 97 + ((7 * i + 3 * j) % 26) as u8;
    let _ = page.put(x, y, &[letter], style);
}

fn age_row<S: Surface>(page: &mut S, y: u16) {
    for x in 0..page.width() {
        put_old(page, x, y);
    }
}

// Puts old content on every cell of a fresh page.
pub fn aged<S: Surface>(mut page: S) -> S {
    for y in 0..page.height() {
        age_row(&mut page, y);
    }
    page
}
