// The natural widths of a table's columns.
ghost use Rattle.std.specs.Prelude.{◌≡◌, ℕ, ◌*◌, ◌^◌, ◌<◌, ◌≤◌, max, length, map, replicate, slice_index, take};
ghost use Rattle.records.specs.Memory.{spanned};
ghost use Rattle.columns.specs.Layout.{shared_out};
ghost use Rattle.layout_laws.specs.Layouts.{entry_width, wider};

use columns::{ColumnLayout, MAX_COLUMNS, Widths};
use glyphs::Glyph;
use records::kinds::{Records, Span};

// The columns of some rows of a table: the widest entry of each, at least 1, and how many they are. An
// entry has at most 65,535 glyphs of 255 cells each, whatever the records hold.
#[derive(Clone, Copy)]
pub struct Naturals {
    pub cells: [u32; MAX_COLUMNS],
    pub count: usize,
    ghost all: { length cells ≡ 32 },
    ghost few: { count ≤ 32 },
    ghost fed: { (i : ℕ) → i < 32 → 1 ≤ slice_index cells i },
    ghost narrow: { (i : ℕ) → slice_index cells i ≤ 16711425 },
}

// The width of a list of glyphs.
fn width_of(glyphs: &[Glyph]) -> u32
    requires { length glyphs.now < 2 ^ 16 }
    ensures value { result ≡ entry_width glyphs.now }
    ensures bound { result ≤ 255 * length glyphs.now }
{
    let mut width = 0;
    for glyph in glyphs {
        width += u32::from(glyph.width);
    }
    width
}

// The width of an entry.
fn entry_width(records: &Records, entry: Span) -> u32
    ensures value { result ≡ entry_width (spanned records.now.glyphs entry) }
    ensures bound { result ≤ 16711425 }
{
    width_of(records.glyphs_in(entry))
}

impl Naturals {
    // Before the first row.
    pub fn new() -> Naturals
        ensures cells { result.cells ≡ replicate 32 1 }
        ensures count { result.count ≡ 0 }
    {
        Naturals {
            cells: [1; MAX_COLUMNS],
            count: 0,
        }
    }

    // Takes in the entries of one more row.
    pub fn widen(&mut self, records: &Records, entries: &[Span])
        requires { length entries.now ≤ 32 }
        ensures cells { self.new.cells ≡ wider self.old.cells (map entry_width (map (spanned records.now.glyphs) entries.now)) }
        ensures count { self.new.count ≡ max self.old.count (length entries.now) }
    {
        for (column, entry) in entries.iter().enumerate() {
            let width = entry_width(records, *entry);
            self.cells[column] = self.cells[column].max(width);
        }
        self.count = self.count.max(entries.len());
    }

    // The layout of the columns on a page: one column where the rows have none.
    #[tactic(auto, using(crate::proofs::Ones::taken_fed, crate::proofs::Ones::taken_fits))]
    pub fn lay_out(self, width: u16, growing: bool) -> ColumnLayout
        ensures value { result ≡ shared_out width growing (take (max self.count 1) self.cells) }
    {
        let mut cells = self.cells;
        let mut columns = Widths {
            cells: &mut cells[..self.count.max(1)],
        };
        columns.lay_out(width, growing)
    }
}
