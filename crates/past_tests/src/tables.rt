// Tables of all sorts, each on a sheet of its own, at every width from 0 to 100: what is told of the table,
// how high the sheet is, and every cell of a page after each paint.

use super::answers::*;
use super::digest::Digest;
use super::made::{BLANK, Step, aged, area, put_steps};
use events::styles::MarkdownStyles;
use glyphs::Utf8;
use grid::Grid;
use markdown::{Markdown, TableLayout};
use page::{Cell, Surface};
use records::kinds::{Row, Span};
use std::alloc::{AllocError, Global};
use std::test::Fail;
use wrap::{BreakingRule, CuttingRule, WordRule};

// What is found of the table at one more width.
fn at<R: BreakingRule, S: Surface>(
    digest: Digest,
    sheet: &Markdown,
    rule: &R,
    width: u16,
    page: &mut S,
) -> Digest {
    let mut layout = TableLayout::new();
    let told = sheet.table(rule, 0, width, &mut layout);
    let rows = sheet.height(rule, width);
    let painted = sheet.render(rule, area(1, 1, width, 18), page);
    digest
        .table(told, &layout)
        .height(rows)
        .paint(painted, page)
}

// What is found at every width, off and on while the sheet is streaming.
fn at_every_width<R: BreakingRule, S: Surface>(
    sheet: &mut Markdown,
    rule: &R,
    page: &mut S,
) -> Digest {
    let mut digest = Digest::START;
    for step in 0..202 {
        sheet.streaming(step > 100);
        digest = at(digest, sheet, rule, step % 101, page);
    }
    digest
}

// The digest of a table before such a source by a rule; 0 if it is not admitted.
fn digest_of<R: BreakingRule>(
    heap: Global,
    steps: &[Step],
    source: &[u8],
    rule: &R,
) -> Result<u64, AllocError> {
    let mut events = Vec::new(heap);
    put_steps(&mut events, steps, ALIGNMENTS[0])?;
    let mut glyphs = [BLANK; 100];
    let mut lines = [Span::EMPTY; 2];
    let mut rows = [Row::BLANK; 3];
    let mut sheet = Markdown::new(&mut glyphs, &mut lines, &mut rows);
    let styles = MarkdownStyles::new();
    let loaded = sheet.load(&Utf8, &styles, events.as_slice(), SAMPLE, source);
    if loaded.is_err() {
        return Ok(0);
    }
    let mut cells = vec![in heap; Cell::FRESH; 2040]?;
    let mut page = aged(Grid::new(cells.as_mut_slice(), 102, 20));
    Ok(at_every_width(&mut sheet, rule, &mut page).0)
}

// The first table before such a source that has not the digest that is stored for it.
fn first_wrong<R: BreakingRule>(
    heap: Global,
    source: &[u8],
    rule: &R,
    stored: &[u64],
) -> Result<Option<usize>, AllocError> {
    for (number, (steps, digest)) in TABLES.iter().zip(stored).enumerate() {
        if digest_of(heap, steps, source, rule)? != *digest {
            return Ok(Some(number));
        }
    }
    Ok(None)
}

const CLOSED: &[u8] = b"closed  ";

const OPEN: &[u8] = b"        ";

#[test]
fn closed_tables_by_the_word_rule_are_the_same_streaming_or_not(
    rt: HostRuntime,
) -> Result<(), Fail> {
    let wrong = first_wrong(rt.alloc(), CLOSED, &WordRule, &CLOSED_BY_WORDS)?;
    assert_eq!(rt; wrong, None);
    Ok(())
}

#[test]
fn closed_tables_by_the_cutting_rule_are_the_same_streaming_or_not(
    rt: HostRuntime,
) -> Result<(), Fail> {
    let wrong = first_wrong(rt.alloc(), CLOSED, &CuttingRule, &CLOSED_BY_CUTTING)?;
    assert_eq!(rt; wrong, None);
    Ok(())
}

#[test]
fn open_tables_by_the_word_rule_fill_the_page_while_streaming(rt: HostRuntime) -> Result<(), Fail> {
    let wrong = first_wrong(rt.alloc(), OPEN, &WordRule, &OPEN_BY_WORDS)?;
    assert_eq!(rt; wrong, None);
    Ok(())
}

#[test]
fn open_tables_by_the_cutting_rule_fill_the_page_while_streaming(
    rt: HostRuntime,
) -> Result<(), Fail> {
    let wrong = first_wrong(rt.alloc(), OPEN, &CuttingRule, &OPEN_BY_CUTTING)?;
    assert_eq!(rt; wrong, None);
    Ok(())
}
