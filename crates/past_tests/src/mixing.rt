//! Pasts in which rulers, or breaking rules and kinds of pages, are mixed: whatever they are, each call is the
//! end of every past that the calls before it made.
ghost use Rattle.events.specs.Styles.{defaults};
ghost use Rattle.markdown.specs.Outcomes.{load_outcome, render_outcome};
ghost use Rattle.markdown.specs.Calls.{load, load_of, paint};
ghost use Rattle.markdown.specs.Replies.{load_ended, paint_ended};
ghost use Rattle.markdown.specs.Pasts.{Past, longer};
ghost use Rattle.markdown.specs.GoesOn.{HasPast};

use events::event::Event;
use events::refusal::Refusal;
use events::styles::MarkdownStyles;
use glyphs::Ruler;
use markdown::{Area, Markdown, RenderRefusal};
use page::Surface;
use wrap::BreakingRule;

/// Where both paints go.
pub const CORNER: Area = Area {
    x: 0,
    y: 0,
    width: 5,
    height: 2,
};

/// How two loads ended.
#[derive(Drop)]
pub struct Loads {
    pub first: Result<(), Refusal>,
    pub second: Result<(), Refusal>,
}

/// How two paints ended.
#[derive(Drop)]
pub struct Paints {
    pub first: Result<(), RenderRefusal>,
    pub second: Result<(), RenderRefusal>,
}

/// Loads a text by one ruler, and again by another.
pub fn load_by_two_rulers<'x, R: Ruler, Q: Ruler>(
    sheet: &mut Markdown,
    first: &R,
    second: &Q,
    events: &'x [Event],
    text: &'x [u8],
) -> Loads
    ensures { let one = load_of (R.Ruler.meaning first.now) defaults text.now text.now events.now in
        let two = load_of (Q.Ruler.meaning second.now) defaults text.now text.now events.now in
        (p : Past) → HasPast p sheet.old →
        HasPast (longer (longer p (load one) (load_ended (load_outcome result.first)))
        (load two) (load_ended (load_outcome result.second))) sheet.new }
{
    let styles = MarkdownStyles::new();
    let first = sheet.load(first, &styles, events, text, text);
    let second = sheet.load(second, &styles, events, text, text);
    Loads { first, second }
}

/// Paints on a page by one breaking rule, and on another page by another.
pub fn paint_on_two_pages<B: BreakingRule, S: Surface, C: BreakingRule, T: Surface>(
    sheet: &Markdown,
    rule: &B,
    page: &mut S,
    other_rule: &C,
    other_page: &mut T,
) -> Paints
    ensures { let one = paint (B.BreakingRule.meaning rule.now) CORNER (S.Surface.shows page.old) in
        let two = paint (C.BreakingRule.meaning other_rule.now) CORNER
        (T.Surface.shows other_page.old) in
        let first = paint_ended (render_outcome result.first) (S.Surface.shows page.new) in
        let second = paint_ended (render_outcome result.second) (T.Surface.shows other_page.new) in
        (p : Past) → HasPast p sheet.now →
        HasPast (longer (longer p one first) two second) sheet.now }
{
    let first = sheet.render(rule, CORNER, page);
    let second = sheet.render(other_rule, CORNER, other_page);
    Paints { first, second }
}

#[cfg(test)]
mod tests {
    use super::super::made::{BLANK, naming};
    use super::*;
    use glyphs::{Bytes, Utf8};
    use grid::Grid;
    use page::{Cell, Window};
    use records::kinds::{Row, Span};
    use std::test::Fail;
    use style::Symbol;
    use wrap::{CuttingRule, WordRule};

    // Whether a page shows a letter at a place.
    fn shows<S: Surface>(page: &S, x: u16, y: u16, letter: u8) -> bool {
        let symbol = Symbol::new(&[letter]);
        page.read(x, y)
            .is_some_and(|cell| Some(cell.symbol) == symbol)
    }

    #[test]
    fn the_second_ruler_counts_and_each_page_breaks_by_its_own_rule(
        rt: HostRuntime,
    ) -> Result<(), Fail> {
        let mut glyphs = [BLANK; 8];
        let mut lines = [Span::EMPTY; 1];
        let mut sheet = Markdown::new(&mut glyphs, &mut lines, &mut []);
        let events = [naming(0, 0, 8)];
        let loads = load_by_two_rulers(&mut sheet, &Utf8, &Bytes, &events, b"a cccccc");
        assert!(rt; loads.first.is_ok() && loads.second.is_ok());
        let mut cells = [Cell::FRESH; 10];
        let mut grid = Grid::new(&mut cells, 5, 2);
        let mut below = [Cell::FRESH; 12];
        let mut window = Window {
            below: Grid::new(&mut below, 6, 2),
            x: 1,
            y: 0,
            width: 5,
            height: 2,
        };
        let paints = paint_on_two_pages(&sheet, &WordRule, &mut grid, &CuttingRule, &mut window);
        assert!(rt; paints.first.is_ok() && paints.second.is_ok());
        assert!(rt; shows(&grid, 1, 0, b' ') && shows(&grid, 0, 1, b'c'));
        assert!(rt; shows(&window, 2, 0, b'c') && shows(&window, 2, 1, b'c'));
        Ok(())
    }
}
