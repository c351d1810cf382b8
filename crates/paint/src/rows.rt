// Rows of glyphs.

ghost use Rattle.std.specs.Prelude.{◌≡◌, ◌<◌, [], ◌∷◌};
ghost use Rattle.style.specs.Symbols.{bytes_of};
ghost use Rattle.wrap_laws.specs.Breaks.{counted};
ghost use Rattle.drawings.specs.Strokes.{stroke, symbol_in, glyph_strokes, row_strokes};
ghost use Rattle.drawings.specs.Frames.{Drawn};
ghost use Rattle.paint.specs.Pens.{frame_of};

use super::pen::Pen;
use glyphs::Glyph;
use page::Surface;
use style::{Style, Symbol};

// U+FFFD, which stands for a glyph that is wider than its row.
const STAND_IN: Symbol = Symbol {
    bytes: 0xBD_BF_EF,
    len: 3,
};

// What a glyph counts in a row of `width` cells.
pub fn cells_of(glyph: &Glyph, width: u16) -> u16
    ensures value { result ≡ counted width glyph.now }
{
    u16::from(glyph.width).min(width)
}

// The symbol that a glyph shows in a row of `width` cells.
fn symbol_of(glyph: &Glyph, width: u16) -> Symbol
    ensures value { bytes_of result ≡ symbol_in width glyph.now }
{
    if u16::from(glyph.width) > width {
        STAND_IN
    } else {
        glyph.symbol
    }
}

impl Pen {
    // Puts a symbol at a place.
    fn draw_symbol<S: Surface>(&self, page: &mut S, x: u32, y: u32, symbol: Symbol, style: Style)
        ensures after { Drawn S.Surface.shows S.Surface.held S.Surface.rest S.Surface.lawful (frame_of self.now) (stroke x y (bytes_of symbol) style ∷ []) page.old page.new }
    {
        let bytes = symbol.to_bytes();
        if let Some(text) = bytes.get(..usize::from(symbol.len)) {
            self.put(page, x, y, text, style);
        }
    }

    // Draws a glyph in a row of `width` cells.
    fn draw_glyph<S: Surface>(&self, page: &mut S, x: u32, y: u32, width: u16, glyph: &Glyph)
        requires { x < 65536 }
        ensures after { Drawn S.Surface.shows S.Surface.held S.Surface.rest S.Surface.lawful (frame_of self.now) (glyph_strokes width x y glyph.now) page.old page.new }
    {
        let cells = cells_of(glyph, width);
        if cells == 0 {
            return;
        }
        self.draw_symbol(page, x, y, symbol_of(glyph, width), glyph.style);
        if cells > 1 {
            self.put(page, x + 1, y, b"", glyph.style);
        }
    }

    // Draws glyphs one after another from a column on, in a row of `width` cells.
    pub fn draw_row<S: Surface>(
        &self,
        page: &mut S,
        start: u32,
        y: u32,
        width: u16,
        glyphs: &[Glyph],
    )
        ensures after { Drawn S.Surface.shows S.Surface.held S.Surface.rest S.Surface.lawful (frame_of self.now) (row_strokes width start y glyphs.now) page.old page.new }
    {
        let mut x = start;
        for glyph in glyphs {
            if x >= u32::from(self.bounds.right) {
                return;
            }
            self.draw_glyph(page, x, y, width, glyph);
            x += u32::from(cells_of(glyph, width));
        }
    }
}
