// Lines, broken into rows.

ghost use Rattle.std.specs.Prelude.{◌≡◌, ◌+◌, ◌<◌, ◌≤◌, MatchOption};
ghost use Rattle.wrap_laws.specs.Breaks.{columns, rows};
ghost use Rattle.drawings.specs.Strokes.{indent, aligned_strokes, line_strokes};
ghost use Rattle.drawings.specs.Frames.{Drawn};
ghost use Rattle.paint.specs.Pens.{frame_of};

use super::pen::Pen;
use super::rows::cells_of;
use glyphs::Glyph;
use page::Surface;
use records::kinds::Alignment;
use wrap::{BreakingRule, Rows};

// What glyphs that fit in a row of `width` cells count together.
fn columns(glyphs: &[Glyph], width: u16) -> u16
    requires { columns width glyphs.now ≤ width }
    ensures value { result ≡ columns width glyphs.now }
{
    let mut total = 0;
    for glyph in glyphs {
        total += cells_of(glyph, width);
    }
    total
}

// How far from the left of `width` cells a row that counts `cells` of them starts.
fn indent(alignment: Alignment, width: u16, cells: u16) -> u16
    ensures value { result ≡ indent alignment width cells }
{
    match alignment {
        Alignment::Left => 0,
        Alignment::Centre => (width / 2).saturating_sub(cells / 2),
        Alignment::Right => width.saturating_sub(cells),
    }
}

impl Pen {
    // Draws a row that is aligned in the `width` cells from a column on.
    fn draw_aligned<S: Surface>(
        &self,
        page: &mut S,
        alignment: Alignment,
        x: u32,
        y: u32,
        width: u16,
        glyphs: &[Glyph],
    )
        requires near { x < 131072 }
        requires fits { columns width glyphs.now ≤ width }
        ensures after { Drawn S.Surface.shows S.Surface.held S.Surface.rest S.Surface.lawful (frame_of self.now) (aligned_strokes alignment width x y glyphs.now) page.old page.new }
    {
        let start = x + u32::from(indent(alignment, width, columns(glyphs, width)));
        self.draw_row(page, start, y, width, glyphs);
    }

    // Draws a line that is broken into rows of `width` cells, and tells the row below it; none where
    // drawing stopped at the lower bound.
    pub fn draw_line<S: Surface, R: BreakingRule>(
        &self,
        page: &mut S,
        rule: &R,
        line: &[Glyph],
        alignment: Alignment,
        x: u32,
        top: u32,
        width: u16,
    ) -> Option<u32>
        requires near { x < 131072 }
        requires low { top < 65536 }
        ensures after { Drawn S.Surface.shows S.Surface.held S.Surface.rest S.Surface.lawful (frame_of self.now) (line_strokes (R.BreakingRule.meaning rule.now) alignment width x top line.now) page.old page.new }
        ensures below { MatchOption result (self.now.bounds.bottom ≤ top + rows (R.BreakingRule.meaning rule.now) line.now width) (λ n. n ≡ top + rows (R.BreakingRule.meaning rule.now) line.now width) }
    {
        let mut y = top;
        for (start, end) in Rows::new(rule, line, width) {
            if y >= u32::from(self.bounds.bottom) {
                return None;
            }
            self.draw_aligned(page, alignment, x, y, width, &line[start..end]);
            y += 1;
        }
        Some(y.max(top + 1))
    }
}
