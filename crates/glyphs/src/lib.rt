//! Rulers, and glyphs: what counts as one character of a text, how wide it is, and what is shown for it.
//!
//! A ruler admits a byte string or not. An admitted one it cuts into clusters of 1 to 8 bytes and a
//! width of 0 to 2, whose joining is the string; a cluster that holds a control byte has width 0. Each
//! cluster becomes glyphs: TAB alone four spaces, any other cluster of width 0 the sign U+FFFD, and any
//! other cluster a glyph of its own bytes and width.
//!
//! The main promise: for every ruler, text and style, `sanitize` writes exactly the glyphs that this
//! rule gives, and nothing else in the memory changes. `count_glyphs` tells their number beforehand.

#![tactic(auto)]

ghost use Rattle.std.specs.Prelude.{◌≡◌, ◌+◌, ◌-◌, ◌^◌, ◌<◌, ◌≤◌, min, true, length, drop, IfSome, MatchOption};
ghost use Rattle.std.specs.List.{AllByRecursion};
ghost use Rattle.style.specs.declared.Style.{Style as Look};
ghost use Rattle.glyphs.specs.Rulings.{Ruling, cut_at, byte_ruling, utf8_ruling};
ghost use Rattle.glyphs.specs.Glyphs.{is_space, sanitized, overwritten, Sized, Clean};

mod cuts;

pub use clusters::Cluster;
use clusters::{byte_cluster, is_text, utf8_cluster};
pub use cuts::{Cut, glyph_count, glyph_of};
use cuts::{cut_out, fill};
use style::{Style, Symbol};

// One character of a line: what is shown, in how many columns, and how.
#[derive(Clone, Copy, PartialEq, Eq, Debug)]
pub struct Glyph {
    pub symbol: Symbol,
    pub width: u8,
    pub style: Style,
}

impl Glyph {
    // Whether it is the single byte 32.
    pub fn is_space(&self) -> bool
        ensures value { result ≡ is_space self.now }
    {
        self.symbol == Symbol::SPACE
    }
}

// What counts as one character, and how wide it is. The meaning is a record: what is admitted, the first
// cluster of what is left of a text, and the laws that every ruler keeps.
pub trait Ruler {
    ghost meaning: { Self → Ruling };

    fn admits(&self, text: &[u8]) -> bool
        ensures value { result ≡ (meaning self.now).admits text.now };

    // The cluster that begins at a place, found in constant time.
    fn cluster(&self, text: &[u8], at: usize) -> Cluster
        ensures value { result ≡ (meaning self.now).first (drop at text.now) };
}

// The byte ruler: admits all, and each byte is a cluster.
#[derive(Clone, Copy)]
pub struct Bytes;

impl Ruler for Bytes {
    ghost meaning = { λ _. byte_ruling };

    fn admits(&self, _text: &[u8]) -> bool {
        true
    }

    fn cluster(&self, text: &[u8], at: usize) -> Cluster {
        byte_cluster(text, at)
    }
}

// The UTF-8 ruler: admits text, and a cluster is a code point with its marks.
#[derive(Clone, Copy)]
pub struct Utf8;

impl Ruler for Utf8 {
    ghost meaning = { λ _. utf8_ruling };

    fn admits(&self, text: &[u8]) -> bool {
        is_text(text)
    }

    fn cluster(&self, text: &[u8], at: usize) -> Cluster {
        utf8_cluster(text, at)
    }
}

// The cluster of a text that begins at a place, none at its end.
#[tactic(auto, using(crate::proofs::Walking::sized_at))]
pub fn cut_at<'a, R: Ruler>(ruler: &R, text: &'a [u8], at: usize) -> Option<Cut<'a>>
    ensures cases { MatchOption result (length text.now ≤ at) (λ c. (at < length text.now) × (c.bytes.now ≡ (cut_at (R.Ruler.meaning ruler.now) text.now at).bytes) × (c.width ≡ (cut_at (R.Ruler.meaning ruler.now) text.now at).width)) }
    ensures len { IfSome result (λ c. length c.bytes.now ≡ ((R.Ruler.meaning ruler.now).first (drop at text.now)).len) }
    ensures bound { IfSome result (λ c. (1 ≤ length c.bytes.now) × (at + length c.bytes.now ≤ length text.now)) }
{
    if at >= text.len() {
        return None;
    }
    let cluster = ruler.cluster(text, at);
    Some(cut_out(text, at, cluster))
}

// The clusters of a text, one after another: the text is what is left of it.
#[derive(Clone, Copy)]
pub struct Clusters<'a, R> {
    pub ruler: &'a R,
    pub text: &'a [u8],
}

impl<'a, R> Clusters<'a, R> {
    pub fn new(ruler: &'a R, text: &'a [u8]) -> Self
        ensures ruler { result.ruler.now ≡ ruler.now }
        ensures text { result.text.now ≡ text.now }
    {
        Clusters { ruler, text }
    }
}

impl<'a, R: Ruler> Iterator for Clusters<'a, R> {
    ghost use Rattle.std.specs.Iterator.{YieldsFirstBy, item_count};
    ghost use Rattle.clusters.specs.Cuts.{cut};
    ghost use Rattle.glyphs.specs.Pieces.{piece};

    type Item = Cut<'a>;

    ghost next_gives = { YieldsFirstBy piece (λ s. cut (R.Ruler.meaning s.ruler.now).first s.text.now) };

    ghost remaining = { item_count (λ s. cut (R.Ruler.meaning s.ruler.now).first s.text.now) };

    #[tactic(auto, using(crate::proofs::Walking::cut_step))]
    fn next(&mut self) -> Option<Cut<'a>> {
        let cut = cut_at(self.ruler, self.text, 0)?;
        self.text = &self.text[cut.bytes.len()..];
        Some(cut)
    }
}

// How many glyphs a text becomes, whatever the style. The count stops at the greatest `usize`.
pub fn count_glyphs<R: Ruler>(ruler: &R, text: &[u8]) -> usize
    ensures value { (t : Look) → result ≡ min (length (sanitized (R.Ruler.meaning ruler.now) t text.now)) (2 ^ 64 - 1) }
{
    let mut count: usize = 0;
    for cut in Clusters::new(ruler, text) {
        count = count.saturating_add(glyph_count(cut.bytes));
    }
    count
}

// Writes the glyphs of a text from a place on, as many as there are places for, and tells how many.
pub fn sanitize<R: Ruler>(
    ruler: &R,
    text: &[u8],
    style: Style,
    glyphs: &mut [Glyph],
    from: usize,
) -> usize
    ensures value { result ≡ min (length (sanitized (R.Ruler.meaning ruler.now) style text.now)) (length glyphs.old - from) }
    ensures after { glyphs.new ≡ overwritten glyphs.old from (sanitized (R.Ruler.meaning ruler.now) style text.now) }
    ensures bound { AllByRecursion Sized (sanitized (R.Ruler.meaning ruler.now) style text.now) }
    ensures clean { (R.Ruler.meaning ruler.now).admits text.now ≡ true → AllByRecursion Clean (sanitized (R.Ruler.meaning ruler.now) style text.now) }
{
    let mut written = 0;
    for cut in Clusters::new(ruler, text) {
        let count = glyph_count(cut.bytes);
        written += fill(glyphs, from + written, count, glyph_of(cut, style));
    }
    written
}
