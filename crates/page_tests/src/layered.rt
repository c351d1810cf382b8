// A put through a layer, with every cell of the surfaces below: those that the layer hides too.

ghost use Rattle.std.specs.Prelude.{◌≡◌, ℕ, ◌+◌, ◌-◌, not, ◌&&◌, is_ok, if◌then◌else◌, nat_lt};
ghost use Rattle.style.specs.Symbols.{symbol_of};
ghost use Rattle.page.specs.Cells.{inked};
ghost use Rattle.page.specs.Surfaces.{patch};

use page::{Beside, Refusal, Surface, Window};
use style::Style;

// A put through a window of 10 by 10 from the corner a, b on, and the surface back.
pub(crate) fn windowed<S: Surface>(
    s: S,
    a: u16,
    b: u16,
    x: u16,
    y: u16,
    symbol: &[u8],
    style: Style,
) -> (S, Result<(), Refusal>)
    ensures cells { (i j : ℕ) → (S.Surface.shows result.0).cell i j ≡ (if is_ok result.1 then patch (S.Surface.shows s).cell (a + x) (b + y) (inked (symbol_of symbol.now) style ((S.Surface.shows s).cell (a + x) (b + y))) i j else (S.Surface.shows s).cell i j) }
    ensures lawful { S.Surface.lawful s → S.Surface.lawful result.0 }
{
    let mut w = Window {
        below: s,
        x: a,
        y: b,
        width: 10,
        height: 10,
    };
    let r = w.put(x, y, symbol, style);
    (w.into_inner(), r)
}

// A put on two surfaces side by side, and both back.
pub(crate) fn paired<L: Surface, R: Surface>(
    l: L,
    r: R,
    x: u16,
    y: u16,
    symbol: &[u8],
    style: Style,
) -> (L, R, Result<(), Refusal>)
    ensures left { (i j : ℕ) → (L.Surface.shows result.0).cell i j ≡ (if is_ok result.2 && nat_lt x (L.Surface.shows l).wide then patch (L.Surface.shows l).cell x y (inked (symbol_of symbol.now) style ((L.Surface.shows l).cell x y)) i j else (L.Surface.shows l).cell i j) }
    ensures right { (i j : ℕ) → (R.Surface.shows result.1).cell i j ≡ (if is_ok result.2 && not (nat_lt x (L.Surface.shows l).wide) then patch (R.Surface.shows r).cell (x - (L.Surface.shows l).wide) y (inked (symbol_of symbol.now) style ((R.Surface.shows r).cell (x - (L.Surface.shows l).wide) y)) i j else (R.Surface.shows r).cell i j) }
{
    let mut both = Beside { left: l, right: r };
    let answer = both.put(x, y, symbol, style);
    let (l, r) = both.into_parts();
    (l, r, answer)
}
