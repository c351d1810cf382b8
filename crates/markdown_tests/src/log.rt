// What sheets answer and hold, taken into digests as tools/load_answers.py does.

use super::answers::{SAMPLE, SOURCE};
use super::made::*;
use events::event::Event;
use glyphs::{Glyph, Ruler};
use markdown::Markdown;
use records::kinds::{Block, Info, Row, Span, Used};

const PRIME: u64 = 0x0000_0100_0000_01b3;

// FNV-1a over 64 bits. What is taken in begins with a byte that tells what it is.
#[derive(Clone, Copy)]
struct Digest(u64);

impl Digest {
    const START: Digest = Digest(0xcbf2_9ce4_8422_2325);

    fn bytes(self, bytes: &[u8]) -> Digest {
        bytes.iter().fold(self, |digest, b| {
            Digest((digest.0 ^ u64::from(*b)).wrapping_mul(PRIME))
        })
    }

    fn number(self, number: u16) -> Digest {
        self.bytes(&number.to_le_bytes())
    }

    fn glyph(self, glyph: Glyph) -> Digest {
        let style = glyph.style;
        self.bytes(&[1, glyph.symbol.len])
            .bytes(&glyph.symbol.to_bytes())
            .bytes(&[glyph.width, style.fg, style.bg, style.add, style.remove])
    }

    // A line or an entry.
    fn span(self, sheet: &Markdown, tag: u8, span: Span) -> Digest {
        sheet
            .records()
            .glyphs_in(span)
            .iter()
            .fold(self.bytes(&[tag]), |digest, glyph| digest.glyph(*glyph))
    }

    fn info(self, info: Info) -> Digest {
        let start = self.bytes(&[3, info.columns, u8::from(info.open)]);
        (0..info.columns.min(32)).fold(start, |digest, column| {
            digest.bytes(&[((info.alignments >> (2 * column)) & 3).max(1) as u8])
        })
    }

    fn row(self, sheet: &Markdown, columns: u8, row: &Row) -> Digest {
        row.entries.iter().take(usize::from(columns)).fold(
            self.bytes(&[4]),
            |digest, entry| digest.span(sheet, 5, *entry),
        )
    }

    fn block(self, sheet: &Markdown, block: Block) -> Digest {
        match block {
            Block::Text(lines) => sheet.records().lines_in(lines).iter().fold(
                self.bytes(&[6]),
                |digest, line| digest.span(sheet, 2, *line),
            ),
            Block::Table(info, rows) => sheet
                .records()
                .rows_in(rows)
                .iter()
                .fold(self.info(info), |digest, row| {
                    digest.row(sheet, info.columns, row)
                }),
        }
    }

    fn used(self, used: Used) -> Digest {
        self.number(used.glyphs)
            .number(used.lines)
            .number(used.rows)
            .number(used.tables)
    }

    // An answer, what is in use after it, and the blocks after it.
    fn loaded(self, answer: (u8, u64), sheet: &Markdown) -> Digest {
        let start = self
            .bytes(&[7, answer.0])
            .number((answer.1 & 0xffff) as u16)
            .used(sheet.records().used);
        sheet
            .records()
            .blocks()
            .iter()
            .fold(start, |digest, block| digest.block(sheet, *block))
    }
}

// A sheet that is loaded again and again, and what it answered and held after each load.
#[derive(Drop)]
pub struct Log<'a, R> {
    ruler: &'a R,
    sheet: Markdown<'a>,
    digest: Digest,
}

impl<'a, R: Ruler> Log<'a, R> {
    pub fn new(
        ruler: &'a R,
        glyphs: &'a mut [Glyph],
        lines: &'a mut [Span],
        rows: &'a mut [Row],
    ) -> Log<'a, R> {
        Log {
            ruler,
            sheet: Markdown::new(glyphs, lines, rows),
            digest: Digest::START,
        }
    }

    pub fn load(&mut self, events: &[Event]) {
        let answer = self.sheet.load(self.ruler, &STYLES, events, SAMPLE, SOURCE);
        self.digest = self.digest.loaded(told(answer), &self.sheet);
    }

    // What it answered and held so far does not count.
    pub fn forget(&mut self) {
        self.digest = Digest::START;
    }

    pub fn digest(&self) -> u64 {
        self.digest.0
    }
}
