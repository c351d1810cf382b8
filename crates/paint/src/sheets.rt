// The blocks of a sheet, one below another.

ghost use Rattle.std.specs.Prelude.{◌≡◌, ◌+◌, ◌≤◌, MatchOption};
ghost use Rattle.blocks.specs.Reads.{piece_of, blocks_of};
ghost use Rattle.layout_laws.specs.Layouts.{block_rows};
ghost use Rattle.drawings.specs.Drawings.{block_strokes, drawing};
ghost use Rattle.drawings.specs.Frames.{Drawn};
ghost use Rattle.paint.specs.Pens.{frame_of};

use super::pen::Pen;
use layout::Layout;
use page::Surface;
use records::kinds::Block;
use style::Style;
use wrap::BreakingRule;

impl Pen {
    // Draws a block, and tells the row below it; none where drawing stopped at the lower bound.
    fn draw_block<S: Surface, R: BreakingRule>(
        &mut self,
        page: &mut S,
        layout: &Layout<R>,
        block: &Block,
        border: Style,
        top: u32,
    ) -> Option<u32>
        ensures after { Drawn S.Surface.shows S.Surface.held S.Surface.rest S.Surface.lawful (frame_of self.old) (block_strokes (R.BreakingRule.meaning layout.now.rule.now) layout.now.width layout.now.streaming border top (piece_of layout.now.records.now.glyphs layout.now.records.now.lines layout.now.records.now.rows block.now)) page.old page.new }
        ensures bounds { self.new ≡ self.old }
        ensures below { MatchOption result (self.old.bounds.bottom ≤ top + block_rows (R.BreakingRule.meaning layout.now.rule.now) layout.now.width layout.now.streaming (piece_of layout.now.records.now.glyphs layout.now.records.now.lines layout.now.records.now.rows block.now)) (λ n. n ≡ top + block_rows (R.BreakingRule.meaning layout.now.rule.now) layout.now.width layout.now.streaming (piece_of layout.now.records.now.glyphs layout.now.records.now.lines layout.now.records.now.rows block.now)) }
    {
        match *block {
            Block::Text(lines) => self.draw_text(
                page,
                layout.rule,
                layout.records,
                layout.records.lines_in(lines),
                top,
                layout.width,
            ),
            Block::Table(info, rows) => self.render_table(
                page,
                layout,
                info,
                layout.records.rows_in(rows),
                border,
                top,
            ),
        }
    }

    // Where the block behind one that ends above this row begins: one row stands between them. None where
    // that row is past the lower bound.
    fn next_block(&self, below: u32) -> Option<u32>
        ensures cases { MatchOption result (self.now.bounds.bottom ≤ below) (λ n. n ≡ below + 1) }
    {
        (below < u32::from(self.bounds.bottom)).then(|| below + 1)
    }

    // Draws the blocks of a sheet, with one row between them, down to the lower bound.
    pub fn draw_blocks<S: Surface, R: BreakingRule>(
        &mut self,
        page: &mut S,
        layout: &Layout<R>,
        border: Style,
    )
        ensures after { Drawn S.Surface.shows S.Surface.held S.Surface.rest S.Surface.lawful (frame_of self.old) (drawing (R.BreakingRule.meaning layout.now.rule.now) layout.now.width layout.now.streaming border (blocks_of layout.now.records.now)) page.old page.new }
        ensures bounds { self.new ≡ self.old }
    {
        let mut y = 0;
        for block in layout.records.blocks() {
            let Some(below) = self.draw_block(page, layout, block, border, y) else {
                return;
            };
            let Some(next) = self.next_block(below) else {
                return;
            };
            y = next;
        }
    }
}
