ghost use Rattle.std.specs.Prelude.{◌≡◌, slice_set};
ghost use Rattle.records.specs.Acts.{put, end_line, begin_table, end_entry, end_head, end_row, end_table};
ghost use Rattle.records.specs.Memory.{act, up, span, added, flushed, begun, blank, blank_row, table_acc};

use super::kinds::{Block, Info, MAX_BLOCKS, Records, Row, Span, Stretch, TableAcc, Used};
use glyphs::Glyph;
use std::mem;

// Writes v at i, if there is such a place.
fn place<T: Copy>(s: &mut [T], i: u16, v: T)
    ensures after { s.new ≡ slice_set s.old i v }
{
    let at = usize::from(i);
    if at < s.len() {
        s[at] = v;
    }
}

fn next(n: u16) -> u16
    ensures value { result ≡ up n }
{
    n.saturating_add(1)
}

// Writes v behind the first n, and counts it.
fn append<T: Copy>(s: &mut [T], n: &mut u16, v: T)
    ensures placed { s.new ≡ slice_set s.old n.old v }
    ensures counted { n.new ≡ up n.old }
{
    place(s, *n, v);
    *n = next(*n);
}

fn between(start: u16, end: u16) -> Span
    ensures value { result ≡ span start end }
{
    Span {
        start,
        len: end.saturating_sub(start),
    }
}

impl TableAcc {
    // The open row; the next one is open, and has no entry yet.
    fn take_row(&mut self) -> Row
        ensures row { result ≡ self.old.row }
        ensures after { self.new ≡ table_acc self.old.info self.old.head blank_row 0 }
    {
        self.entries = 0;
        mem::replace(&mut self.row, Row::BLANK)
    }
}

impl<'a> Records<'a> {
    // The records of a sheet without a block.
    pub fn new(glyphs: &'a mut [Glyph], lines: &'a mut [Span], rows: &'a mut [Row]) -> Records<'a>
        ensures made { result ≡ blank glyphs.old lines.old rows.old }
    {
        Records {
            glyphs,
            lines,
            rows,
            blocks: [Block::Text(Span::EMPTY); MAX_BLOCKS],
            used: Used::default(),
            text: Stretch::CLEAN,
            table: TableAcc::NONE,
        }
    }

    // Nothing is in use; the lent memory stays as it is.
    pub fn clear(&mut self)
        ensures after { self.new ≡ blank self.old.glyphs self.old.lines self.old.rows }
    {
        self.blocks = [Block::Text(Span::EMPTY); MAX_BLOCKS];
        self.used = Used::default();
        self.text = Stretch::CLEAN;
        self.table = TableAcc::NONE;
    }

    pub fn put(&mut self, g: Glyph)
        ensures after { self.new ≡ act self.old (put g) }
    {
        append(self.glyphs, &mut self.used.glyphs, g);
        self.text.bare = false;
    }

    pub fn end_line(&mut self)
        ensures after { self.new ≡ act self.old end_line }
    {
        let line = between(self.text.from, self.used.glyphs);
        append(self.lines, &mut self.used.lines, line);
        self.text.full = if self.text.bare {
            self.text.full
        } else {
            self.used.lines
        };
        self.text.from = self.used.glyphs;
        self.text.bare = true;
        self.text.more = true;
    }

    fn add_block(&mut self, b: Block)
        ensures after { self.new ≡ added self.old b }
    {
        append(&mut self.blocks, &mut self.used.blocks, b);
    }

    // The text so far becomes a block, without the empty lines at its end.
    pub fn flush_text(&mut self)
        ensures after { self.new ≡ flushed self.old }
    {
        self.end_line();
        if self.text.first < self.text.full {
            self.add_block(Block::Text(between(self.text.first, self.text.full)));
        }
        self.text.first = self.used.lines;
        self.text.full = self.used.lines;
        self.text.more = false;
    }

    // The header row is there from the start, of empty entries.
    fn open_table(&mut self, info: Info)
        ensures after { self.new ≡ begun self.old info }
    {
        let head = self.used.rows;
        append(self.rows, &mut self.used.rows, Row::BLANK);
        self.used.tables = next(self.used.tables);
        self.table = TableAcc {
            info: Some(info),
            head,
            ..TableAcc::NONE
        };
    }

    pub fn begin_table(&mut self, info: Info)
        ensures after { self.new ≡ act self.old (begin_table info) }
    {
        self.flush_text();
        self.open_table(info);
    }

    pub fn end_entry(&mut self)
        ensures after { self.new ≡ act self.old end_entry }
    {
        let entry = between(self.text.from, self.used.glyphs);
        append(&mut self.table.row.entries, &mut self.table.entries, entry);
        self.text.from = self.used.glyphs;
        self.text.bare = true;
    }

    pub fn end_head(&mut self)
        ensures after { self.new ≡ act self.old end_head }
    {
        let row = self.table.take_row();
        place(self.rows, self.table.head, row);
    }

    pub fn end_row(&mut self)
        ensures after { self.new ≡ act self.old end_row }
    {
        let row = self.table.take_row();
        append(self.rows, &mut self.used.rows, row);
    }

    pub fn end_table(&mut self)
        ensures after { self.new ≡ act self.old end_table }
    {
        if let Some(info) = self.table.info.take() {
            let rows = between(self.table.head, self.used.rows);
            self.add_block(Block::Table(info, rows));
            self.table.head = self.used.rows;
        }
    }
}
