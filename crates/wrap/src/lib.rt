//! Breaking rules: where a row of a line ends and the next one starts.
//!
//! A line is a list of glyphs; a glyph counts min(its width, w) in a row of w columns. The word rule
//! keeps words together, the cutting rule fills each row. "a cccccc d" at 5 columns:
//!
//!     word rule     |a    |  |ccccc|  |c d  |      places 0-1, 2-7, 7-10
//!     cutting rule  |a ccc|  |ccc d|               places 0-5, 5-10
//!
//! A row is found by one scan over the glyphs that fit in it and back, never by summing the rest of the
//! line, so the rows of a line cost time in proportion to its glyphs.
//!
//! Main promise: whatever the rule, of two widths from 1 up the wider gives no more rows.

#![tactic(auto)]

ghost use Rattle.std.specs.Prelude.{◌≡◌, length};
ghost use Rattle.wrap_laws.specs.Breaks.{Breaking, WiderNoMoreRows, rows, rows_from};
ghost use Rattle.wrap_laws.specs.Rules.{cutting_break, word_break};
ghost use Rattle.wrap_laws.proofs.CuttingLaws.{cutting_ordered, cutting_onward, cutting_narrow, cutting_spaces, cutting_fewer};
ghost use Rattle.wrap_laws.proofs.WordLaws.{word_ordered, word_onward, word_narrow, word_spaces, word_fewer};

mod scan;

use glyphs::Glyph;
use scan::{first_misfit, last_break, past_spaces};

// A rule for where rows end. Its meaning is its answers together with the laws that they keep, among
// them that one more column never gives more rows: a type is a rule only with a proof of each law.
pub trait BreakingRule {
    ghost meaning: { Self → Breaking };

    // Where the row that starts at `start` ends, and where the next one starts. Every question is
    // answered; the laws speak of starts inside the line.
    fn break_row(&self, line: &[Glyph], width: u16, start: usize) -> (usize, usize)
        ensures value { result ≡ (meaning self.now).breaks line.now width start };
}

// Fills each row; skips nothing.
#[derive(Clone, Copy)]
pub struct CuttingRule;

impl BreakingRule for CuttingRule {
    ghost meaning = { λ _. record { breaks = cutting_break; ordered = cutting_ordered; onward = cutting_onward; narrow = cutting_narrow; spaces = cutting_spaces; fewer = cutting_fewer } };

    fn break_row(&self, line: &[Glyph], width: u16, start: usize) -> (usize, usize) {
        let end = first_misfit(line, width, start);
        (end, end)
    }
}

// Breaks at spaces where it can: behind the last word that fits, or past the spaces that do not.
#[derive(Clone, Copy)]
pub struct WordRule;

impl BreakingRule for WordRule {
    ghost meaning = { λ _. record { breaks = word_break; ordered = word_ordered; onward = word_onward; narrow = word_narrow; spaces = word_spaces; fewer = word_fewer } };

    #[tactic(auto, using(wrap_laws::proofs::WordLaws::word_breaks_at))]
    fn break_row(&self, line: &[Glyph], width: u16, start: usize) -> (usize, usize) {
        let misfit = first_misfit(line, width, start);
        if misfit >= line.len() {
            return (misfit, misfit);
        }
        if line[misfit].is_space() {
            return (misfit, past_spaces(line, misfit));
        }
        match last_break(line, start, misfit) {
            Some(space) => (space, space + 1),
            None => (misfit, misfit),
        }
    }
}

// The rows of a line, one after another, each by its start and its end: none where there is no glyph.
#[derive(Clone, Copy)]
pub struct Rows<'a, R> {
    pub rule: &'a R,
    pub line: &'a [Glyph],
    pub width: u16,
    pub start: usize,
}

impl<'a, R> Rows<'a, R> {
    pub fn new(rule: &'a R, line: &'a [Glyph], width: u16) -> Self
        ensures rule { result.rule.now ≡ rule.now }
        ensures line { result.line.now ≡ line.now }
        ensures width { result.width ≡ width }
        ensures start { result.start ≡ 0 }
    {
        Rows {
            rule,
            line,
            width,
            start: 0,
        }
    }
}

impl<R: BreakingRule> Iterator for Rows<'_, R> {
    ghost use Rattle.std.specs.Iterator.{YieldsFirst, item_count};
    ghost use Rattle.wrap_laws.specs.Breaks.{places};

    type Item = (usize, usize);

    ghost next_gives = { YieldsFirst (λ s. places (R.BreakingRule.meaning s.rule.now) s.line.now s.width s.start) };

    ghost remaining = { item_count (λ s. places (R.BreakingRule.meaning s.rule.now) s.line.now s.width s.start) };

    #[tactic(auto, using(wrap_laws::proofs::RowCounts::places_step, wrap_laws::proofs::RowCounts::places_end))]
    fn next(&mut self) -> Option<(usize, usize)> {
        let start = self.start;
        if start >= self.line.len() {
            return None;
        }
        let (end, next) = self.rule.break_row(self.line, self.width, start);
        self.start = next;
        Some((start, end))
    }
}

// The rows from the first glyph on: none where there is no glyph.
#[tactic(auto, using(wrap_laws::proofs::RowCounts::row_counts, wrap_laws::proofs::RowCounts::wider_no_more_rows))]
fn rows_of_glyphs<R: BreakingRule>(rule: &R, line: &[Glyph], width: u16) -> usize
    ensures value { result ≡ rows_from (R.BreakingRule.meaning rule.now).breaks line.now width (length line.now) 0 }
    ensures bound { WiderNoMoreRows (R.BreakingRule.meaning rule.now) }
{
    Rows::new(rule, line, width).count()
}

// How many rows a line has at a width: an empty line is one row.
pub fn row_count<R: BreakingRule>(rule: &R, line: &[Glyph], width: u16) -> usize
    ensures value { result ≡ rows (R.BreakingRule.meaning rule.now) line.now width }
    ensures bound { WiderNoMoreRows (R.BreakingRule.meaning rule.now) }
{
    rows_of_glyphs(rule, line, width).max(1)
}
