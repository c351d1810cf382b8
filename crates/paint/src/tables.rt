// Tables: their rules, borders and entries.

ghost use Rattle.std.specs.Prelude.{◌≡◌, ◌+◌, ◌≤◌, map, MatchOption};
ghost use Rattle.records.specs.Memory.{spanned};
ghost use Rattle.blocks.specs.Pieces.{table};
ghost use Rattle.blocks.specs.Reads.{entries_of};
ghost use Rattle.layout_laws.specs.Layouts.{row_height, block_rows};
ghost use Rattle.drawings.specs.Tables.{alignment, entries_from, table_row, body, body_rows, below_head, below_head_rows, below_rule, below_rule_rows};
ghost use Rattle.drawings.specs.Drawings.{block_strokes};
ghost use Rattle.drawings.specs.Frames.{Drawn};
ghost use Rattle.paint.specs.Pens.{frame_of};

use super::pen::Pen;
use super::rules::stride;
use drawings::Corners;
use layout::{Layout, entries_of, is_growing, layout_columns, widths_of};
use page::Surface;
use records::kinds::{Alignment, Info, Records, Row, Span};
use style::Style;
use wrap::BreakingRule;

// ┌ ┬ ┐
const UPPER: Corners = Corners {
    left: [0xE2, 0x94, 0x8C],
    middle: [0xE2, 0x94, 0xAC],
    right: [0xE2, 0x94, 0x90],
};

// ├ ┼ ┤
const INNER: Corners = Corners {
    left: [0xE2, 0x94, 0x9C],
    middle: [0xE2, 0x94, 0xBC],
    right: [0xE2, 0x94, 0xA4],
};

// └ ┴ ┘
const LOWER: Corners = Corners {
    left: [0xE2, 0x94, 0x94],
    middle: [0xE2, 0x94, 0xB4],
    right: [0xE2, 0x94, 0x98],
};

// The columns of a table: their widths, their alignments (two bits each, the first column's lowest), and
// the style of the rules and borders.
#[derive(Clone, Copy)]
pub struct Columns<'a> {
    pub widths: &'a [u16],
    pub alignments: u64,
    pub border: Style,
}

// The first column's alignment, by the lowest two bits.
fn convert_alignment(bits: u64) -> Alignment
    ensures value { result ≡ alignment bits }
{
    match bits % 4 {
        2 => Alignment::Centre,
        3 => Alignment::Right,
        _ => Alignment::Left,
    }
}

impl Pen {
    // Draws the entries of a row in the `height` rows from row y on, each in its column.
    fn draw_entries<S: Surface, R: BreakingRule>(
        &mut self,
        page: &mut S,
        rule: &R,
        sheet: &Records,
        entries: &[Span],
        widths: &[u16],
        alignments: u64,
        y: u16,
        height: u16,
    )
        requires { row_height (R.BreakingRule.meaning rule.now) widths.now (map (spanned sheet.now.glyphs) entries.now) ≤ height }
        ensures after { Drawn S.Surface.shows S.Surface.held S.Surface.rest S.Surface.lawful (frame_of self.old) (entries_from (R.BreakingRule.meaning rule.now) alignments 0 y widths.now (map (spanned sheet.now.glyphs) entries.now)) page.old page.new }
        ensures bounds { self.new ≡ self.old }
    {
        let right = u32::from(self.bounds.right);
        let mut x = 0;
        let mut bits = alignments;
        for (entry, width) in entries.iter().zip(widths) {
            if x + 2 >= right {
                return;
            }
            let glyphs = sheet.glyphs_in(*entry);
            self.draw_entry(
                page,
                rule,
                glyphs,
                convert_alignment(bits),
                (x + 2) as u16,
                y,
                *width,
                height,
            );
            x += stride(*width);
            bits /= 4;
        }
    }

    // Draws a row of a table: its borders and its entries. Tells the row below it; none where drawing
    // stopped at the lower bound.
    fn draw_cells<S: Surface, R: BreakingRule>(
        &mut self,
        page: &mut S,
        layout: &Layout<R>,
        entries: &[Span],
        columns: Columns,
        top: u32,
    ) -> Option<u32>
        ensures after { Drawn S.Surface.shows S.Surface.held S.Surface.rest S.Surface.lawful (frame_of self.old) (table_row (R.BreakingRule.meaning layout.now.rule.now) columns.entry.border columns.entry.alignments columns.entry.widths.now top (map (spanned layout.now.records.now.glyphs) entries.now)) page.old page.new }
        ensures bounds { self.new ≡ self.old }
        ensures below { MatchOption result (self.old.bounds.bottom ≤ top) (λ n. n ≡ top + row_height (R.BreakingRule.meaning layout.now.rule.now) columns.entry.widths.now (map (spanned layout.now.records.now.glyphs) entries.now)) }
    {
        if top >= u32::from(self.bounds.bottom) {
            return None;
        }
        let height = layout.row_height(entries, columns.widths);
        self.draw_borders(page, columns.widths, top, height, columns.border);
        self.draw_entries(
            page,
            layout.rule,
            layout.records,
            entries,
            columns.widths,
            columns.alignments,
            top as u16,
            height,
        );
        Some(top + u32::from(height))
    }

    // Draws the body rows of a table and the rule below them, and tells the row below that; none where
    // drawing stopped at the lower bound.
    fn draw_body<S: Surface, R: BreakingRule>(
        &mut self,
        page: &mut S,
        layout: &Layout<R>,
        rows: &[Row],
        count: u8,
        columns: Columns,
        top: u32,
    ) -> Option<u32>
        ensures after { Drawn S.Surface.shows S.Surface.held S.Surface.rest S.Surface.lawful (frame_of self.old) (body (R.BreakingRule.meaning layout.now.rule.now) columns.entry.border columns.entry.alignments columns.entry.widths.now top (map (entries_of layout.now.records.now.glyphs count) rows.now)) page.old page.new }
        ensures bounds { self.new ≡ self.old }
        ensures below { MatchOption result (self.old.bounds.bottom ≤ top + body_rows (R.BreakingRule.meaning layout.now.rule.now) columns.entry.widths.now (map (entries_of layout.now.records.now.glyphs count) rows.now)) (λ n. n ≡ top + body_rows (R.BreakingRule.meaning layout.now.rule.now) columns.entry.widths.now (map (entries_of layout.now.records.now.glyphs count) rows.now)) }
    {
        let mut y = top;
        for row in rows {
            let entries = entries_of(row, count);
            y = self.draw_cells(page, layout, entries, columns, y)?;
        }
        self.draw_rule(page, columns.widths, y, LOWER, columns.border)
    }

    // Draws what stands below the header of a table: the rule below the table, or, where there are body
    // rows, a rule and then these.
    fn draw_below_head<S: Surface, R: BreakingRule>(
        &mut self,
        page: &mut S,
        layout: &Layout<R>,
        rows: &[Row],
        count: u8,
        columns: Columns,
        top: u32,
    ) -> Option<u32>
        ensures after { Drawn S.Surface.shows S.Surface.held S.Surface.rest S.Surface.lawful (frame_of self.old) (below_head (R.BreakingRule.meaning layout.now.rule.now) columns.entry.border columns.entry.alignments columns.entry.widths.now top (map (entries_of layout.now.records.now.glyphs count) rows.now)) page.old page.new }
        ensures bounds { self.new ≡ self.old }
        ensures below { MatchOption result (self.old.bounds.bottom ≤ top + below_head_rows (R.BreakingRule.meaning layout.now.rule.now) columns.entry.widths.now (map (entries_of layout.now.records.now.glyphs count) rows.now)) (λ n. n ≡ top + below_head_rows (R.BreakingRule.meaning layout.now.rule.now) columns.entry.widths.now (map (entries_of layout.now.records.now.glyphs count) rows.now)) }
    {
        if rows.is_empty() {
            return self.draw_rule(page, columns.widths, top, LOWER, columns.border);
        }
        let y = self.draw_rule(page, columns.widths, top, INNER, columns.border)?;
        self.draw_body(page, layout, rows, count, columns, y)
    }

    // Draws what stands below the upper rule of a table: the header first.
    fn draw_below_rule<S: Surface, R: BreakingRule>(
        &mut self,
        page: &mut S,
        layout: &Layout<R>,
        rows: &[Row],
        count: u8,
        columns: Columns,
        top: u32,
    ) -> Option<u32>
        ensures after { Drawn S.Surface.shows S.Surface.held S.Surface.rest S.Surface.lawful (frame_of self.old) (below_rule (R.BreakingRule.meaning layout.now.rule.now) columns.entry.border columns.entry.alignments columns.entry.widths.now top (map (entries_of layout.now.records.now.glyphs count) rows.now)) page.old page.new }
        ensures bounds { self.new ≡ self.old }
        ensures below { MatchOption result (self.old.bounds.bottom ≤ top + below_rule_rows (R.BreakingRule.meaning layout.now.rule.now) columns.entry.widths.now (map (entries_of layout.now.records.now.glyphs count) rows.now)) (λ n. n ≡ top + below_rule_rows (R.BreakingRule.meaning layout.now.rule.now) columns.entry.widths.now (map (entries_of layout.now.records.now.glyphs count) rows.now)) }
    {
        let Some((head, rows)) = rows.split_first() else {
            return self.draw_rule(page, columns.widths, top, LOWER, columns.border);
        };
        let entries = entries_of(head, count);
        let y = self.draw_cells(page, layout, entries, columns, top)?;
        self.draw_below_head(page, layout, rows, count, columns, y)
    }

    // Draws a table, lined in a style, and tells the row below it; none where
    // drawing stopped at the lower bound.
    pub fn render_table<S: Surface, R: BreakingRule>(
        &mut self,
        page: &mut S,
        layout: &Layout<R>,
        info: Info,
        rows: &[Row],
        border: Style,
        top: u32,
    ) -> Option<u32>
        ensures after { Drawn S.Surface.shows S.Surface.held S.Surface.rest S.Surface.lawful (frame_of self.old) (block_strokes (R.BreakingRule.meaning layout.now.rule.now) layout.now.width layout.now.streaming border top (table info (map (entries_of layout.now.records.now.glyphs info.columns) rows.now))) page.old page.new }
        ensures bounds { self.new ≡ self.old }
        ensures below { MatchOption result (self.old.bounds.bottom ≤ top + block_rows (R.BreakingRule.meaning layout.now.rule.now) layout.now.width layout.now.streaming (table info (map (entries_of layout.now.records.now.glyphs info.columns) rows.now))) (λ n. n ≡ top + block_rows (R.BreakingRule.meaning layout.now.rule.now) layout.now.width layout.now.streaming (table info (map (entries_of layout.now.records.now.glyphs info.columns) rows.now))) }
    {
        if top >= u32::from(self.bounds.bottom) {
            return None;
        }
        let growing = is_growing(info, layout.streaming);
        let laid = layout_columns(layout.records, rows, info.columns, layout.width, growing);
        let columns = Columns {
            widths: widths_of(&laid),
            alignments: info.alignments,
            border,
        };
        let y = self.draw_rule(page, columns.widths, top, UPPER, border)?;
        self.draw_below_rule(page, layout, rows, info.columns, columns, y)
    }
}
