// Clusters cut out of a text, and the glyph that each becomes.
ghost use Rattle.std.specs.Prelude.{◌≡◌, ◌+◌, ◌-◌, ◌<◌, ◌≤◌, min, length, take, drop, replicate, if◌then◌else◌, nat_eq};
ghost use Rattle.style.specs.Symbols.{symbol_of};
ghost use Rattle.glyphs.specs.Glyphs.{is_tab, space, replacement, glyph_of, overwritten};

use super::Glyph;
use clusters::Cluster;
use style::{Style, Symbol};

const TAB: u8 = 9;

const TAB_SPACES: usize = 4;

// U+FFFD, the bytes EF BF BD.
const REPLACEMENT: Symbol = Symbol {
    bytes: 0xBD_BF_EF,
    len: 3,
};

// A cluster cut out of a text: at most 8 bytes.
#[derive(Clone, Copy)]
pub struct Cut<'a> {
    pub bytes: &'a [u8],
    pub width: u8,
    pub ghost short: { length bytes.now ≤ 8 },
}

impl Cut<'_> {
    fn symbol(self) -> Symbol
        ensures value { result ≡ symbol_of self.entry.bytes.now }
    {
        Symbol::new(self.bytes).unwrap()
    }
}

fn is_tab(bytes: &[u8]) -> bool
    ensures value { result ≡ is_tab bytes.now }
{
    matches!(bytes, [TAB])
}

// How many glyphs a cluster becomes.
pub fn glyph_count(bytes: &[u8]) -> usize
    ensures value { result ≡ (if is_tab bytes.now then 4 else 1) }
{
    if is_tab(bytes) { TAB_SPACES } else { 1 }
}

// The glyph that a cluster becomes, once or several times.
pub fn glyph_of(cut: Cut<'_>, style: Style) -> Glyph
    ensures value { result ≡ (if is_tab cut.entry.bytes.now then space style else (if nat_eq cut.entry.width 0 then replacement style else glyph_of cut.entry.bytes.now cut.entry.width style)) }
{
    let (symbol, width) = if is_tab(cut.bytes) {
        (Symbol::SPACE, 1)
    } else if cut.width == 0 {
        (REPLACEMENT, 1)
    } else {
        (cut.symbol(), cut.width)
    };
    Glyph {
        symbol,
        width,
        style,
    }
}

// How many of some things have a place from a place on.
fn fitting(times: usize, len: usize, from: usize) -> usize
    ensures value { result ≡ min times (len - from) }
{
    times.min(len.saturating_sub(from))
}

// Writes a glyph so many times from a place on, as far as there is room, and tells how often it did.
pub fn fill(glyphs: &mut [Glyph], from: usize, times: usize, glyph: Glyph) -> usize
    ensures value { result ≡ min times (length glyphs.old - from) }
    ensures after { glyphs.new ≡ overwritten glyphs.old from (replicate times glyph) }
{
    let n = fitting(times, glyphs.len(), from);
    if n > 0 {
        glyphs[from..from + n].fill(glyph);
    }
    n
}

// The bytes of a cluster at a place, with its width.
pub fn cut_out<'a>(text: &'a [u8], at: usize, c: Cluster) -> Cut<'a>
    requires inside { at + c.len ≤ length text.now }
    requires short { c.len ≤ 8 }
    ensures bytes { result.bytes.now ≡ take c.len (drop at text.now) }
    ensures width { result.width ≡ c.width }
    ensures len { length result.bytes.now ≡ c.len }
{
    Cut {
        bytes: &text[at..at + c.len],
        width: c.width,
    }
}
