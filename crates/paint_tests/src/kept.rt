// What a paint finds on a sheet: the blocks of the last admitted load, whatever was refused since.

use super::looks::{age, same, shows, stay};
use super::made::{BLANK, Draft, PARAGRAPH, STYLES, area, load, paint};
use glyphs::Utf8;
use grid::Grid;
use markdown::Markdown;
use page::Cell;
use records::kinds::{Row, Span};
use std::test::Fail;
use wrap::WordRule;

#[test]
fn a_sheet_without_blocks_paints_nothing(rt: HostRuntime) -> Result<(), Fail> {
    let mut glyphs = [BLANK; 10];
    let mut lines = [Span::EMPTY; 4];
    let mut sheet = Markdown::new(&mut glyphs, &mut lines, &mut []);
    let mut cells = [Cell::FRESH; 12];
    let mut page = Grid::new(&mut cells, 4, 3);
    age(&mut page);
    assert_eq!(rt; paint(&sheet, &WordRule, area(0, 0, 4, 3), &mut page), 0);
    assert_eq!(rt; paint(&sheet, &WordRule, area(0, 0, 5, 3), &mut page), 5);
    let mut draft = Draft::new(rt.alloc());
    assert_eq!(rt; load(&mut sheet, &draft), 0);
    assert_eq!(rt; paint(&sheet, &WordRule, area(0, 0, 4, 3), &mut page), 0);
    draft.say("ab")?;
    let events = draft.events.as_slice();
    assert!(rt; sheet.load(&Utf8, &STYLES, events, b"ab", b"").is_ok());
    assert_eq!(rt; paint(&sheet, &WordRule, area(0, 0, 4, 3), &mut page), 0);
    assert!(rt; stay(&page, 0, 3));
    Ok(())
}

#[test]
fn a_paint_after_a_refused_load_paints_the_old_blocks(rt: HostRuntime) -> Result<(), Fail> {
    let mut glyphs = [BLANK; 10];
    let mut lines = [Span::EMPTY; 4];
    let mut sheet = Markdown::new(&mut glyphs, &mut lines, &mut []);
    let mut old = Draft::new(rt.alloc());
    old.paragraph("old blocks")?;
    assert_eq!(rt; load(&mut sheet, &old), 0);
    let mut open = Draft::new(rt.alloc());
    open.mark(PARAGRAPH)?;
    open.say("new")?;
    assert_eq!(rt; load(&mut sheet, &open), 2);
    let mut long = Draft::new(rt.alloc());
    long.paragraph("more than ten")?;
    assert_eq!(rt; load(&mut sheet, &long), 4);
    let mut cells = [Cell::FRESH; 24];
    let mut page = Grid::new(&mut cells, 12, 2);
    assert_eq!(rt; paint(&sheet, &WordRule, area(0, 0, 12, 2), &mut page), 0);
    assert!(rt; shows(&page, &["old blocks", ""]));
    Ok(())
}

#[test]
fn a_paint_after_another_load_paints_the_new_blocks(rt: HostRuntime) -> Result<(), Fail> {
    let mut glyphs = [BLANK; 10];
    let mut lines = [Span::EMPTY; 4];
    let mut sheet = Markdown::new(&mut glyphs, &mut lines, &mut []);
    let mut old = Draft::new(rt.alloc());
    old.paragraph("old blocks")?;
    assert_eq!(rt; load(&mut sheet, &old), 0);
    let mut new = Draft::new(rt.alloc());
    new.paragraph("new")?;
    assert_eq!(rt; load(&mut sheet, &new), 0);
    let mut cells = [Cell::FRESH; 24];
    let mut page = Grid::new(&mut cells, 12, 2);
    assert_eq!(rt; paint(&sheet, &WordRule, area(0, 0, 12, 2), &mut page), 0);
    assert!(rt; shows(&page, &["new", ""]));
    Ok(())
}

#[test]
fn a_sheet_paints_the_same_again_whatever_was_asked_before(rt: HostRuntime) -> Result<(), Fail> {
    let mut glyphs = [BLANK; 40];
    let mut lines = [Span::EMPTY; 4];
    let mut rows = [Row::BLANK; 2];
    let mut sheet = Markdown::new(&mut glyphs, &mut lines, &mut rows);
    let mut draft = Draft::new(rt.alloc());
    draft.paragraph("before the table")?;
    draft.table(2, 0, &["a", "b"], &[&["10", "7"]])?;
    assert_eq!(rt; load(&mut sheet, &draft), 0);
    let (mut cells, mut others) = ([Cell::FRESH; 120], [Cell::FRESH; 120]);
    let mut page = Grid::new(&mut cells, 12, 10);
    let mut other = Grid::new(&mut others, 12, 10);
    assert_eq!(rt; paint(&sheet, &WordRule, area(0, 0, 12, 10), &mut page), 0);
    assert_eq!(rt; paint(&sheet, &WordRule, area(0, 0, 3, 10), &mut other), 0);
    assert_eq!(rt; paint(&sheet, &WordRule, area(0, 0, 13, 10), &mut other), 5);
    let mut fresh = [Cell::FRESH; 120];
    let mut again = Grid::new(&mut fresh, 12, 10);
    assert_eq!(rt; paint(&sheet, &WordRule, area(0, 0, 12, 10), &mut again), 0);
    assert!(rt; same(&page, &again));
    assert!(rt; !same(&page, &other));
    Ok(())
}
