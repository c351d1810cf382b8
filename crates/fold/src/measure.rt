ghost use Rattle.std.specs.Prelude.{◌≡◌, ◌≢◌, [], ◌∷◌, ◌++◌, slice_index, EachIndex, MatchOption};
ghost use Rattle.style.specs.declared.Style.{Style as Look};
ghost use Rattle.records.specs.Acts.{put};
ghost use Rattle.records.specs.Memory.{acted};
ghost use Rattle.glyphs.specs.Glyphs.{shown, space};
ghost use Rattle.glyphs.specs.Pieces.{piece};
ghost use Rattle.fold.specs.Parts.{puts, measured, part, spread};

use super::load::Load;
use glyphs::{Clusters, Cut, Glyph, Ruler, glyph_count, glyph_of};
use records::kinds::Records;
use style::{Style, Symbol};

pub fn space(style: Style) -> Glyph
    ensures value { result ≡ space style }
{
    Glyph {
        symbol: Symbol::SPACE,
        width: 1,
        style,
    }
}

// The glyphs of a cluster.
#[tactic(auto, using(crate::proofs::Walks::puts_more, crate::proofs::Walks::shown_times))]
fn show(records: &mut Records, cut: Cut<'_>, style: Style)
    ensures after { records.new ≡ acted records.old (puts (shown style (piece cut.entry))) }
{
    let glyph = glyph_of(cut, style);
    for _ in 0..glyph_count(cut.bytes) {
        records.put(glyph);
    }
}

// What stands before the first line feed, and what behind it.
fn split_line(s: &[u8]) -> Option<(&[u8], &[u8])>
    ensures cases { MatchOption result (EachIndex s.now (λ k. slice_index s.now k ≢ 10)) (λ p. (s.now ≡ p.0.now ++ 10 ∷ p.1.now) × EachIndex p.0.now (λ k. slice_index p.0.now k ≢ 10)) }
{
    let end = s.iter().position(|b| *b == b'\n')?;
    Some((&s[..end], &s[end + 1..]))
}

impl<'x, R: Ruler> Load<'x, R> {
    // The glyphs of what is measured by itself.
    pub(super) fn measure(&self, records: &mut Records, s: &[u8], style: Style)
        ensures after { records.new ≡ acted records.old (measured (R.Ruler.meaning self.now.ruler.now) style s.now) }
    {
        for cut in Clusters::new(self.ruler, s) {
            show(records, cut, style);
        }
    }

    // A part of a text between line feeds, in a code block behind two spaces.
    fn measure_part(&self, records: &mut Records, s: &[u8], style: Style, code: bool)
        ensures after { records.new ≡ acted records.old (part (R.Ruler.meaning self.now.ruler.now) style code s.now) }
    {
        if s.is_empty() {
            return;
        }
        if code {
            records.put(space(style));
            records.put(space(style));
        }
        self.measure(records, s, style);
    }

    // A text outside tables: its parts, and at each line feed between them the line ends.
    pub(super) fn measure_lines(&self, records: &mut Records, s: &[u8], style: Style, code: bool)
        ensures after { records.new ≡ acted records.old (spread (part (R.Ruler.meaning self.now.ruler.now) style code) [] s.now) }
    {
        let mut rest = s;
        while let Some((line, behind)) = split_line(rest) {
            self.measure_part(records, line, style, code);
            records.end_line();
            rest = behind;
        }
        self.measure_part(records, rest, style, code);
    }
}
