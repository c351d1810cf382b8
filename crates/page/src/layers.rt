// Surfaces that show parts of others.

ghost use Rattle.std.specs.Prelude.{◌≡◌, ℕ, List, [], ◌∷◌, ◌++◌};
ghost use Rattle.page.specs.declared.cells.Cell.{Cell};
ghost use Rattle.page.specs.Surfaces.{Page};
ghost use Rattle.page.specs.Layers.{window_page, window_rest, pair_page, pair_rest};

use super::Surface;
use super::cells::Cell;
use super::refusals::Refusal;
use super::sides::Sides;
use style::Style;

// A part of a surface, from a corner on, cut to what lies below.
#[derive(Drop)]
pub struct Window<S> {
    pub below: S,
    pub x: u16,
    pub y: u16,
    pub width: u16,
    pub height: u16,
}

impl<S: Surface> Surface for Window<S> {
    ghost shows = { λ g. window_page (S.Surface.shows g.below) g.x g.y g.width g.height };

    ghost held = { λ g. g.x ∷ g.y ∷ g.width ∷ g.height ∷ (S.Surface.shows g.below).wide ∷ (S.Surface.shows g.below).high ∷ S.Surface.held g.below };

    ghost rest = { λ g. window_rest (S.Surface.shows g.below).cell (S.Surface.rest g.below) g.x g.y };

    ghost lawful = { λ g. S.Surface.lawful g.below };

    fn sides(&self) -> Sides {
        let below = self.below.sides();
        Sides {
            width: self.width.min(below.width.saturating_sub(self.x)),
            height: self.height.min(below.height.saturating_sub(self.y)),
        }
    }

    fn read(&self, x: u16, y: u16) -> Option<Cell> {
        if self.sides().hold(x, y) {
            self.below.read(self.x + x, self.y + y)
        } else {
            None
        }
    }

    fn put(&mut self, x: u16, y: u16, symbol: &[u8], style: Style) -> Result<(), Refusal> {
        if !self.sides().hold(x, y) {
            return Err(Refusal::Outside);
        }
        self.below.put(self.x + x, self.y + y, symbol, style)
    }
}

impl<S: Surface> Window<S> {
    // The surface below, with all that was put through the window.
    pub fn into_inner(self) -> S
        ensures value { result ≡ self.below }
    {
        self.below
    }
}

// Two surfaces, the first at the left, as high as the lower of the two.
#[derive(Drop)]
pub struct Beside<L, R> {
    pub left: L,
    pub right: R,
}

impl<L: Surface, R: Surface> Surface for Beside<L, R> {
    ghost shows = { λ g. pair_page (L.Surface.shows g.left) (R.Surface.shows g.right) };

    ghost held = { λ g. (L.Surface.shows g.left).wide ∷ (L.Surface.shows g.left).high ∷ (R.Surface.shows g.right).wide ∷ (R.Surface.shows g.right).high ∷ (L.Surface.held g.left ++ R.Surface.held g.right) };

    ghost rest = { λ g. pair_rest (L.Surface.shows g.left).wide (L.Surface.shows g.left).cell (L.Surface.rest g.left) (R.Surface.rest g.right) };

    ghost lawful = { λ g. L.Surface.lawful g.left × R.Surface.lawful g.right };

    fn sides(&self) -> Sides {
        let left = self.left.sides();
        let right = self.right.sides();
        Sides {
            width: left.width.saturating_add(right.width),
            height: left.height.min(right.height),
        }
    }

    fn read(&self, x: u16, y: u16) -> Option<Cell> {
        if !self.sides().hold(x, y) {
            return None;
        }
        let w = self.left.width();
        if x < w {
            self.left.read(x, y)
        } else {
            self.right.read(x - w, y)
        }
    }

    fn put(&mut self, x: u16, y: u16, symbol: &[u8], style: Style) -> Result<(), Refusal> {
        if !self.sides().hold(x, y) {
            return Err(Refusal::Outside);
        }
        let w = self.left.width();
        if x < w {
            self.left.put(x, y, symbol, style)
        } else {
            self.right.put(x - w, y, symbol, style)
        }
    }
}

impl<L: Surface, R: Surface> Beside<L, R> {
    // Both surfaces, with all that was put on the pair.
    pub fn into_parts(self) -> (L, R)
        ensures value { result ≡ (self.left, self.right) }
    {
        (self.left, self.right)
    }
}
