// The commands on the sheet: its memory, what the next load is given, and the load.
use crate::pages::byte;
use crate::requests::{Asked, unanswered};
use crate::stops::*;
use crate::texts::{RulerName, last_bytes};
use events::event::Event;
use events::styles::MarkdownStyles;
use glyphs::Glyph;
use markdown::{Loading, MAX_GLYPHS, MAX_LINES, MAX_ROWS, Markdown, Request};
use records::kinds::{Row, Span};
use std::alloc::Global;
use std::fmt;
use style::{Style, Symbol};
use words::{Fault, Words, hex_text};

// More memory than this is of no use to a sheet.
const MOST_RECORDS: u64 = 65_535;

const BLANK: Glyph = Glyph {
    symbol: Symbol::EMPTY,
    width: 0,
    style: Style::PLAIN,
};

// What a sheet is made over.
#[derive(Drop)]
pub struct SheetMemory {
    glyphs: Vec<Glyph>,
    lines: Vec<Span>,
    rows: Vec<Row>,
}

impl SheetMemory {
    fn new(heap: Global, glyphs: usize, lines: usize, rows: usize) -> Result<SheetMemory, Fault> {
        Ok(SheetMemory {
            glyphs: vec![in heap; BLANK; glyphs]?,
            lines: vec![in heap; Span::EMPTY; lines]?,
            rows: vec![in heap; Row::BLANK; rows]?,
        })
    }

    // As much as the limits of a sheet allow.
    pub fn full(heap: Global) -> Result<SheetMemory, Fault> {
        SheetMemory::new(heap, MAX_GLYPHS, MAX_LINES, MAX_ROWS)
    }

    // A sheet without a block.
    pub fn sheet(&mut self) -> Markdown<'_> {
        Markdown::new(
            self.glyphs.as_mut_slice(),
            self.lines.as_mut_slice(),
            self.rows.as_mut_slice(),
        )
    }
}

fn records(words: &mut Words) -> Result<usize, Fault> {
    Ok(words.next_number(MOST_RECORDS)? as usize)
}

// The memory that a line asks for.
pub fn memory(rt: &HostRuntime, mut words: Words) -> Result<SheetMemory, Stop> {
    let glyphs = records(&mut words)?;
    let lines = records(&mut words)?;
    let rows = records(&mut words)?;
    words.end()?;
    let memory = SheetMemory::new(rt.alloc(), glyphs, lines, rows)?;
    println!(rt; "memory {glyphs} {lines} {rows}")?;
    Ok(memory)
}

// What the next load is given.
#[derive(Drop)]
pub struct Pending {
    styles: MarkdownStyles,
    text: Vec<u8>,
    source: Vec<u8>,
    events: Vec<Event>,
}

pub fn number_32(words: &mut Words) -> Result<u32, Fault> {
    Ok(words.next_number(u64::from(u32::MAX))? as u32)
}

fn read_style(words: &mut Words) -> Result<Style, Fault> {
    Ok(Style {
        fg: byte(words)?,
        bg: byte(words)?,
        add: byte(words)?,
        remove: byte(words)?,
    })
}

// An event as a line gives it: by its three numbers, or with the three of a table's start behind them.
#[derive(Clone, Copy)]
struct EventLine {
    event: Event,
    whole: bool,
}

fn read_event(mut words: Words) -> Result<EventLine, Fault> {
    let event = Event {
        kind: byte(&mut words)?,
        place: number_32(&mut words)?,
        length: number_32(&mut words)?,
        end: 0,
        columns: 0,
        alignments: 0,
    };
    if words.end().is_ok() {
        return Ok(EventLine {
            event,
            whole: false,
        });
    }
    let event = Event {
        end: number_32(&mut words)?,
        columns: byte(&mut words)?,
        alignments: words.next_number(u64::MAX)?,
        ..event
    };
    words.end()?;
    Ok(EventLine { event, whole: true })
}

impl fmt::Display for EventLine {
    fn fmt<W: fmt::Write>(&self, f: &mut fmt::Formatter<W>) -> fmt::Result {
        let Event {
            kind,
            place,
            length,
            end,
            columns,
            alignments,
        } = self.event;
        write!(f, "{kind} {place} {length}")?;
        if self.whole {
            write!(f, " {end} {columns} {alignments}")?;
        }
        Ok(())
    }
}

fn print_bytes(rt: &HostRuntime, command: &str, bytes: &[u8]) -> Result<(), Stop> {
    let bytes = hex_text(rt.alloc(), bytes)?;
    println!(rt; "{command} {bytes}")?;
    Ok(())
}

impl Pending {
    pub fn new(heap: Global) -> Pending {
        Pending {
            styles: MarkdownStyles::new(),
            text: Vec::new(heap),
            source: Vec::new(heap),
            events: Vec::new(heap),
        }
    }

    fn set_style(&mut self, number: u64, style: Style) {
        match number {
            0 => self.styles.base = style,
            1 => self.styles.code_inline = style,
            2 => self.styles.code_block = style,
            3 => self.styles.bold = style,
            4 => self.styles.italic = style,
            5 => self.styles.heading = style,
            6 => self.styles.table_border = style,
            _ => self.styles.table_header = style,
        }
    }

    pub fn style(&mut self, rt: &HostRuntime, mut words: Words) -> Result<(), Stop> {
        let number = words.next_number(7)?;
        let style = read_style(&mut words)?;
        words.end()?;
        self.set_style(number, style);
        let Style {
            fg,
            bg,
            add,
            remove,
        } = style;
        println!(rt; "style {number} {fg} {bg} {add} {remove}")?;
        Ok(())
    }

    pub fn text(&mut self, rt: &HostRuntime, words: Words) -> Result<(), Stop> {
        self.text = last_bytes(rt.alloc(), words)?;
        print_bytes(rt, "text", self.text.as_slice())
    }

    pub fn source(&mut self, rt: &HostRuntime, words: Words) -> Result<(), Stop> {
        self.source = last_bytes(rt.alloc(), words)?;
        print_bytes(rt, "source", self.source.as_slice())
    }

    // No event is pending.
    pub fn clear(&mut self, rt: &HostRuntime, words: Words) -> Result<(), Stop> {
        words.end()?;
        self.events.clear();
        println!(rt; "clear")?;
        Ok(())
    }

    pub fn event(&mut self, rt: &HostRuntime, words: Words) -> Result<(), Stop> {
        let line = read_event(words)?;
        self.events.push(line.event)?;
        println!(rt; "event {line}")?;
        Ok(())
    }

    pub fn read_load(&self, ruler: RulerName, words: Words) -> Result<Asked<'_>, Fault> {
        words.end()?;
        Ok(Request::Load(Loading {
            ruler,
            styles: self.styles,
            events: self.events.as_slice(),
            text: self.text.as_slice(),
            source: self.source.as_slice(),
            answer: unanswered(),
        }))
    }
}
