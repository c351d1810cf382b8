// A ruler and a breaking rule of either kind, so that one run can mix them.
ghost use Rattle.past_tests.specs.Either.{ruling_of, breaking_of};

use glyphs::{Bytes, Cluster, Glyph, Ruler, Utf8};
use wrap::{BreakingRule, CuttingRule, WordRule};

#[derive(Clone, Copy)]
pub enum EitherRuler {
    Bytes,
    Utf8,
}

impl Ruler for EitherRuler {
    ghost meaning = { ruling_of };

    fn admits(&self, text: &[u8]) -> bool {
        match self {
            EitherRuler::Bytes => Bytes.admits(text),
            EitherRuler::Utf8 => Utf8.admits(text),
        }
    }

    fn cluster(&self, text: &[u8], at: usize) -> Cluster {
        match self {
            EitherRuler::Bytes => Bytes.cluster(text, at),
            EitherRuler::Utf8 => Utf8.cluster(text, at),
        }
    }
}

#[derive(Clone, Copy)]
pub enum EitherRule {
    Words,
    Cutting,
}

impl BreakingRule for EitherRule {
    ghost meaning = { breaking_of };

    fn break_row(&self, line: &[Glyph], width: u16, start: usize) -> (usize, usize) {
        match self {
            EitherRule::Words => WordRule.break_row(line, width, start),
            EitherRule::Cutting => CuttingRule.break_row(line, width, start),
        }
    }
}
