// How many rows lines, texts and table rows take.
ghost use Rattle.std.specs.Prelude.{◌≡◌, ◌^◌, ◌<◌, ◌≤◌, length, map, take};
ghost use Rattle.records.specs.Memory.{spanned};
ghost use Rattle.blocks.specs.Reads.{entries_of};
ghost use Rattle.wrap_laws.specs.Breaks.{rows};
ghost use Rattle.layout_laws.specs.Layouts.{row_height, rule_count, rows_at, text_rows};

use super::Layout;
use records::kinds::{Row, Span};
use wrap::{BreakingRule, row_count};

// The entries of a table row of so many columns.
pub fn entries_of(row: &Row, columns: u8) -> &[Span]
    ensures value { result.now ≡ take columns row.now.entries }
    ensures few { length result.now ≤ 32 }
{
    let entries: &[Span] = &row.entries;
    &entries[..usize::from(columns).min(entries.len())]
}

// The rules of a table of so many rows: one above, one below, and one under the header where body rows follow.
fn rule_count(rows: usize) -> u32
    ensures value { result ≡ rule_count rows }
{
    if rows > 1 { 3 } else { 2 }
}

impl<R: BreakingRule> Layout<'_, '_, R> {
    // The rows of a line or an entry at a width.
    #[tactic(auto, using(crate::proofs::Entries::rows_small))]
    pub(super) fn line_rows(&self, line: Span, width: u16) -> u16
        ensures value { result ≡ rows (R.BreakingRule.meaning self.now.rule.now) (spanned self.now.records.now.glyphs line) width }
    {
        row_count(self.rule, self.records.glyphs_in(line), width) as u16
    }

    // The rows of entries side by side: those of the tallest, each at its column's width, and at least one.
    pub fn row_height(&self, entries: &[Span], widths: &[u16]) -> u16
        ensures value { result ≡ row_height (R.BreakingRule.meaning self.now.rule.now) widths.now (map (spanned self.now.records.now.glyphs) entries.now) }
    {
        let mut height: u16 = 1;
        for (entry, width) in entries.iter().zip(widths) {
            height = height.max(self.line_rows(*entry, *width));
        }
        height
    }

    // The rows of a text's lines.
    pub(super) fn text_rows(&self, lines: Span) -> u32
        ensures value { result ≡ text_rows (R.BreakingRule.meaning self.now.rule.now) self.now.width (map (spanned self.now.records.now.glyphs) (spanned self.now.records.now.lines lines)) }
    {
        let mut rows = 0;
        for line in self.records.lines_in(lines) {
            rows += u32::from(self.line_rows(*line, self.width));
        }
        rows
    }

    // The rows of a table row of so many columns.
    #[tactic(auto, using(crate::proofs::Entries::entries_taken))]
    pub(super) fn table_row_height(&self, row: &Row, columns: u8, widths: &[u16]) -> u16
        ensures value { result ≡ row_height (R.BreakingRule.meaning self.now.rule.now) widths.now (entries_of self.now.records.now.glyphs columns row.now) }
    {
        self.row_height(entries_of(row, columns), widths)
    }

    // The rows of a table, its rules counted, where its columns have these widths.
    #[tactic(auto, using(crate::proofs::Entries::body_step))]
    pub(super) fn rows_at(&self, rows: &[Row], columns: u8, widths: &[u16]) -> u32
        requires { length rows.now < 2 ^ 16 }
        ensures value { result ≡ rows_at (R.BreakingRule.meaning self.now.rule.now) widths.now (map (entries_of self.now.records.now.glyphs columns) rows.now) }
    {
        let mut total = rule_count(rows.len());
        for row in rows {
            total += u32::from(self.table_row_height(row, columns, widths));
        }
        total
    }
}
