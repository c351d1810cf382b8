// Tables on a page.
ghost use Rattle.std.specs.Prelude.{◌≡◌, ◌&&◌, length, map, replicate, take};
ghost use Rattle.columns.specs.Layout.{shared_out};
ghost use Rattle.records.specs.Memory.{spanned};
ghost use Rattle.blocks.specs.Reads.{entries_of};
ghost use Rattle.layout_laws.specs.Layouts.{wider, widest_entries, natural_widths, table_rows};

use super::Layout;
use super::naturals::Naturals;
use super::rows::entries_of;
use columns::ColumnLayout;
use records::kinds::{Info, Records, Row, Span};
use wrap::BreakingRule;

// The natural widths of the columns of some rows.
fn naturals_of(records: &Records, rows: &[Row], columns: u8) -> Naturals
    ensures cells { result.cells ≡ wider (replicate 32 1) (widest_entries (map (entries_of records.now.glyphs columns) rows.now)) }
    ensures count { result.count ≡ length (widest_entries (map (entries_of records.now.glyphs columns) rows.now)) }
{
    let mut naturals = Naturals::new();
    for row in rows {
        naturals.widen(records, entries_of(row, columns));
    }
    naturals
}

// The columns of a table on a page. A growing table is the open table of a streaming sheet.
#[tactic(auto, using(crate::proofs::Entries::columns_used))]
pub fn layout_columns(
    records: &Records,
    rows: &[Row],
    columns: u8,
    width: u16,
    growing: bool,
) -> ColumnLayout
    ensures value { result ≡ shared_out width growing (natural_widths (map (entries_of records.now.glyphs columns) rows.now)) }
{
    naturals_of(records, rows, columns).lay_out(width, growing)
}

// Whether a table is the open one of a streaming sheet.
pub fn is_growing(info: Info, streaming: bool) -> bool
    ensures value { result ≡ (streaming && info.open) }
{
    streaming && info.open
}

// The final widths of columns.
pub fn widths_of(columns: &ColumnLayout) -> &[u16]
    ensures value { result.now ≡ take columns.now.count columns.now.widths }
{
    let widths: &[u16] = &columns.widths;
    &widths[..usize::from(columns.count).min(widths.len())]
}

impl<R: BreakingRule> Layout<'_, '_, R> {
    // The columns of a table, and its rows, rules counted.
    pub fn layout_table(&self, info: Info, rows: Span) -> (ColumnLayout, u32)
        ensures columns { result.0 ≡ shared_out self.now.width (self.now.streaming && info.open) (natural_widths (map (entries_of self.now.records.now.glyphs info.columns) (spanned self.now.records.now.rows rows))) }
        ensures rows { result.1 ≡ table_rows (R.BreakingRule.meaning self.now.rule.now) self.now.width (self.now.streaming && info.open) (map (entries_of self.now.records.now.glyphs info.columns) (spanned self.now.records.now.rows rows)) }
    {
        let rows = self.records.rows_in(rows);
        let growing = is_growing(info, self.streaming);
        let columns = layout_columns(self.records, rows, info.columns, self.width, growing);
        let height = self.rows_at(rows, info.columns, widths_of(&columns));
        (columns, height)
    }
}
