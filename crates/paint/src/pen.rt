// The pen that puts strokes on a page, and the bounds in which it does so.

ghost use Rattle.std.specs.Prelude.{◌≡◌, ◌≤◌, [], ◌∷◌};
ghost use Rattle.wrap_laws.specs.Breaks.{rows};
ghost use Rattle.drawings.specs.Strokes.{stroke, line_strokes};
ghost use Rattle.drawings.specs.Frames.{Drawn, placed, frame_in};
ghost use Rattle.paint.specs.Pens.{frame_of, cut_bounds, with_bounds};

use drawings::Area;
use glyphs::Glyph;
use page::Surface;
use records::kinds::Alignment;
use style::Style;
use wrap::BreakingRule;

// The columns from `left` up to `right` and the rows from `top` up to `bottom`.
#[derive(Clone, Copy, PartialEq, Eq, Debug)]
pub struct Bounds {
    pub left: u16,
    pub top: u16,
    pub right: u16,
    pub bottom: u16,
}

// Where a sheet is drawn: its corner on the page, and the bounds, counted from that corner.
#[derive(Clone, Copy)]
pub struct Pen {
    pub x: u16,
    pub y: u16,
    pub bounds: Bounds,
}

impl Bounds {
    // The part of them that lies in so many cells and rows from a place on.
    fn cut_to(self, x: u16, y: u16, width: u16, height: u16) -> Bounds
        ensures value { result ≡ cut_bounds self x y width height }
    {
        Bounds {
            left: self.left.max(x),
            top: self.top.max(y),
            right: self.right.min(x.saturating_add(width)),
            bottom: self.bottom.min(y.saturating_add(height)),
        }
    }
}

// A pen whose bounds are narrowed for a while. They are put back when this is dropped, whichever way out
// is taken.
pub struct Narrowed<'a> {
    pen: &'a mut Pen,
    saved: Bounds,
}

impl Drop for Narrowed<'_> {
    fn drop(self)
        ensures back { self.exit.0.now ≡ with_bounds self.entry.pen.now self.entry.saved }
    {
        self.pen.bounds = self.saved;
        let Narrowed { pen: _, saved: _ } = self;
    }
}

impl Pen {
    // A pen that draws a sheet in an area.
    pub fn new(area: Area) -> Pen
        ensures value { frame_of result ≡ frame_in area }
    {
        Pen {
            x: area.x,
            y: area.y,
            bounds: Bounds {
                left: 0,
                top: 0,
                right: area.width,
                bottom: area.height,
            },
        }
    }

    // Where on the page a place of the sheet lies, if it lies within the bounds. In an area that lies on the
    // page no sum is cut off.
    fn place(&self, x: u32, y: u32) -> Option<(u16, u16)>
        ensures value { result ≡ placed (frame_of self.now) x y }
    {
        let Bounds {
            left,
            top,
            right,
            bottom,
        } = self.bounds;
        if (u32::from(left)..u32::from(right)).contains(&x)
            && (u32::from(top)..u32::from(bottom)).contains(&y)
        {
            Some((
                self.x.saturating_add(x as u16),
                self.y.saturating_add(y as u16),
            ))
        } else {
            None
        }
    }

    // Puts a symbol at a place, if that lies within the bounds. A page refuses a symbol or a colour that no
    // page takes; its cell then stays as it is.
    pub fn put<S: Surface>(&self, page: &mut S, x: u32, y: u32, symbol: &[u8], style: Style)
        ensures after { Drawn S.Surface.shows S.Surface.held S.Surface.rest S.Surface.lawful (frame_of self.now) (stroke x y symbol.now style ∷ []) page.old page.new }
    {
        if let Some((x, y)) = self.place(x, y) {
            let _ = page.put(x, y, symbol, style);
        }
    }

    // Draws an entry in the `width` cells from column x on and the `height` rows from row y on. The pen has
    // its bounds again afterwards, also where drawing stopped at the lower bound.
    pub fn draw_entry<S: Surface, R: BreakingRule>(
        &mut self,
        page: &mut S,
        rule: &R,
        entry: &[Glyph],
        alignment: Alignment,
        x: u16,
        y: u16,
        width: u16,
        height: u16,
    )
        requires { rows (R.BreakingRule.meaning rule.now) entry.now width ≤ height }
        ensures after { Drawn S.Surface.shows S.Surface.held S.Surface.rest S.Surface.lawful (frame_of self.old) (line_strokes (R.BreakingRule.meaning rule.now) alignment width x y entry.now) page.old page.new }
        ensures bounds { self.new ≡ self.old }
    {
        let saved = self.bounds;
        self.bounds = saved.cut_to(x, y, width, height);
        let narrowed = Narrowed { pen: self, saved };
        let _ = narrowed.pen.draw_line(
            page,
            rule,
            entry,
            alignment,
            u32::from(x),
            u32::from(y),
            width,
        );
    }
}
