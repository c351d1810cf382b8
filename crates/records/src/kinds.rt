ghost use Rattle.std.specs.Prelude.{◌≡◌};
ghost use Rattle.records.specs.Alignments.{bits, alignment};

use glyphs::Glyph;
use shares::MAX_COLUMNS;
use std::marker::Model;

// A stretch of records: where it begins, and how many they are.
#[derive(Clone, Copy, PartialEq, Eq, Debug)]
pub struct Span {
    pub start: u16,
    pub len: u16,
}

impl Span {
    pub const EMPTY: Span = Span { start: 0, len: 0 };
}

// The most blocks of a sheet.
pub const MAX_BLOCKS: usize = 511;

// A table row: its entries, each a stretch of glyphs, empty ones behind those that came.
#[derive(Clone, Copy)]
pub struct Row {
    pub entries: [Span; MAX_COLUMNS],
}

impl Row {
    pub const BLANK: Row = Row {
        entries: [Span::EMPTY; MAX_COLUMNS],
    };
}

// What a table is told at its start: its columns, their alignments (two bits each, the first
// column's lowest), and whether it runs to the end of the source.
#[derive(Clone, Copy)]
pub struct Info {
    pub columns: u8,
    pub alignments: u64,
    pub open: bool,
}

// Where an entry stands in its column.
#[derive(Clone, Copy, PartialEq, Eq, Debug)]
pub enum Alignment {
    Left,
    Centre,
    Right,
}

impl Info {
    // The two bits of a column's alignment; 0 for columns that have none.
    #[tactic(auto, using(crate::proofs::Shifts::none_left))]
    fn bits(self, column: u8) -> u64
        ensures value { result ≡ bits self column }
    {
        self.alignments
            .checked_shr(2 * u32::from(column))
            .unwrap_or(0)
            % 4
    }

    // Where the entries of a column stand.
    pub fn alignment(self, column: u8) -> Alignment
        ensures value { result ≡ alignment self column }
    {
        match self.bits(column) {
            2 => Alignment::Centre,
            3 => Alignment::Right,
            _ => Alignment::Left,
        }
    }
}

// A block of the sheet: a stretch of lines, or a table with a stretch of rows, its header first.
#[derive(Clone, Copy)]
pub enum Block {
    Text(Span),
    Table(Info, Span),
}

// How many records are in use. A count stops at 65535, which is above every limit.
#[derive(Clone, Copy, Default)]
pub struct Used {
    pub glyphs: u16,
    pub lines: u16,
    pub rows: u16,
    pub tables: u16,
    pub blocks: u16,
}

// The stretch of text that is being written: where its open line (or the open entry) begins in the
// glyphs and whether nothing stands there yet, where the stretch begins in the lines, whether a line
// of it has ended, and up to where in the lines it goes without the empty lines at its end.
#[derive(Clone, Copy)]
pub struct Stretch {
    pub from: u16,
    pub bare: bool,
    pub first: u16,
    pub more: bool,
    pub full: u16,
}

impl Stretch {
    // Before anything is written.
    pub const CLEAN: Stretch = Stretch {
        from: 0,
        bare: true,
        first: 0,
        more: false,
        full: 0,
    };
}

// The table that is being written: what it was told, if there is one, where its header stands in the
// rows, its open row, and how many entries of that have come.
#[derive(Clone, Copy)]
pub struct TableAcc {
    pub info: Option<Info>,
    pub head: u16,
    pub row: Row,
    pub entries: u16,
}

impl TableAcc {
    // No table is being written.
    pub const NONE: TableAcc = TableAcc {
        info: None,
        head: 0,
        row: Row::BLANK,
        entries: 0,
    };
}

// Where a sheet is written: three lent memories, the blocks, and how far all of it is.
#[derive(Drop)]
pub struct Records<'a> {
    pub glyphs: &'a mut [Glyph],
    pub lines: &'a mut [Span],
    pub rows: &'a mut [Row],
    pub blocks: [Block; MAX_BLOCKS],
    pub used: Used,
    pub text: Stretch,
    pub table: TableAcc,
}

// In a contract the records are the lists that they hold.
impl<'a> Model for Records<'a> {
    ghost use Rattle.records.specs.Memory.{Memory};

    ghost Value = { Memory };

    ghost view = { λ s. record { glyphs = s.glyphs.now; lines = s.lines.now; rows = s.rows.now; blocks = s.blocks; used = s.used; text = s.text; table = s.table } };
}
