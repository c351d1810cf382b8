// Sheets for the tests, and the one call that paints them.

use events::event::Event;
use events::styles::MarkdownStyles;
use glyphs::{Glyph, Utf8};
pub use markdown::Area;
use markdown::Markdown;
use page::Surface;
use records::kinds::{Row, Span};
use std::alloc::{AllocError, Global};
use style::{Style, Symbol};
use wrap::BreakingRule;

pub const TEXT: u8 = 0;

pub const HARD_BREAK: u8 = 3;

pub const STRONG: u8 = 10;

pub const ITALIC: u8 = 11;

pub const PARAGRAPH: u8 = 13;

pub const ITEM: u8 = 15;

const TABLE: u8 = 17;

const HEAD: u8 = 18;

const ROW: u8 = 19;

const ENTRY: u8 = 20;

// By how much the number of an end is above that of its start.
const END: u8 = 20;

// An event by its kind, place and length; the start of a table by its kind, end and columns.
pub type Step = (u8, u32, u8);

pub const BLANK: Glyph = Glyph {
    symbol: Symbol::EMPTY,
    width: 0,
    style: Style::PLAIN,
};

// Styles that are all different, and that add and take away.
pub const STYLES: MarkdownStyles = MarkdownStyles {
    base: Style {
        fg: 1,
        bg: 0,
        add: 4,
        remove: 0,
    },
    code_inline: Style {
        fg: 4,
        bg: 2,
        add: 0,
        remove: 1,
    },
    code_block: Style {
        fg: 3,
        bg: 16,
        add: 8,
        remove: 0,
    },
    bold: Style {
        fg: 0,
        bg: 5,
        add: 16,
        remove: 2,
    },
    italic: Style {
        fg: 6,
        bg: 0,
        add: 32,
        remove: 1,
    },
    heading: Style {
        fg: 7,
        bg: 0,
        add: 65,
        remove: 4,
    },
    table_border: Style {
        fg: 9,
        bg: 0,
        add: 0,
        remove: 0,
    },
    table_header: Style {
        fg: 0,
        bg: 10,
        add: 128,
        remove: 32,
    },
};

// An event that names bytes of the text.
fn naming(kind: u8, place: u32, length: u32) -> Event {
    Event {
        kind,
        place,
        length,
        end: 0,
        columns: 0,
        alignments: 0,
    }
}

fn table_start(columns: u8, alignments: u64) -> Event {
    Event {
        columns,
        alignments,
        ..naming(TABLE, 0, 0)
    }
}

// The event of a step; every table has these alignments.
pub fn event_of(step: Step, alignments: u64) -> Event {
    match step {
        (TABLE, _, columns) => table_start(columns, alignments),
        (kind, place, length) => naming(kind, place, u32::from(length)),
    }
}

// A list of events with its text, as a test writes it.
#[derive(Drop)]
pub struct Draft {
    pub events: Vec<Event>,
    pub text: Vec<u8>,
}

impl Draft {
    pub fn new(heap: Global) -> Draft {
        Draft {
            events: Vec::new(heap),
            text: Vec::new(heap),
        }
    }

    pub fn mark(&mut self, kind: u8) -> Result<(), AllocError> {
        self.events.push(naming(kind, 0, 0))?;
        Ok(())
    }

    pub fn end(&mut self, kind: u8) -> Result<(), AllocError> {
        self.mark(kind.saturating_add(END))
    }

    // A Text of these bytes.
    pub fn say(&mut self, text: &str) -> Result<(), AllocError> {
        let place = u32::try_from(self.text.len()).unwrap_or(u32::MAX);
        let length = u32::try_from(text.len()).unwrap_or(u32::MAX);
        self.text.extend_from_slice(text.as_bytes())?;
        self.events.push(naming(TEXT, place, length))?;
        Ok(())
    }

    pub fn paragraph(&mut self, text: &str) -> Result<(), AllocError> {
        self.mark(PARAGRAPH)?;
        self.say(text)?;
        self.end(PARAGRAPH)
    }

    // A head or a row of these entries.
    fn row(&mut self, kind: u8, entries: &[&str]) -> Result<(), AllocError> {
        self.mark(kind)?;
        for entry in entries {
            self.mark(ENTRY)?;
            if !entry.is_empty() {
                self.say(entry)?;
            }
            self.end(ENTRY)?;
        }
        self.end(kind)
    }

    // A table of so many columns with this header and these body rows.
    pub fn table(
        &mut self,
        columns: u8,
        alignments: u64,
        header: &[&str],
        rows: &[&[&str]],
    ) -> Result<(), AllocError> {
        self.events.push(table_start(columns, alignments))?;
        self.row(HEAD, header)?;
        for row in rows {
            self.row(ROW, row)?;
        }
        self.end(TABLE)
    }
}

// Takes a draft in, in the styles of the tests.
pub fn load(sheet: &mut Markdown, draft: &Draft) -> u8 {
    let (events, text) = (draft.events.as_slice(), draft.text.as_slice());
    sheet
        .load(&Utf8, &STYLES, events, text, b"source")
        .err()
        .map_or(0, |refusal| refusal.numbered().0)
}

// Paints a sheet, and tells the number of the refusal, or 0.
pub fn paint<S: Surface, R: BreakingRule>(
    sheet: &Markdown,
    rule: &R,
    area: Area,
    page: &mut S,
) -> u8 {
    sheet
        .render(rule, area, page)
        .err()
        .map_or(0, |refusal| refusal.number())
}

// Takes a draft in and paints it.
pub fn paint_draft<S: Surface, R: BreakingRule>(
    draft: &Draft,
    rule: &R,
    area: Area,
    page: &mut S,
) -> u8 {
    let mut glyphs = [BLANK; 400];
    let mut lines = [Span::EMPTY; 60];
    let mut rows = [Row::BLANK; 20];
    let mut sheet = Markdown::new(&mut glyphs, &mut lines, &mut rows);
    match load(&mut sheet, draft) {
        0 => paint(&sheet, rule, area, page),
        number => number,
    }
}

pub fn area(x: u16, y: u16, width: u16, height: u16) -> Area {
    Area {
        x,
        y,
        width,
        height,
    }
}
