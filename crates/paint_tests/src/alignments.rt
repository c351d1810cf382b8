// Where a row stands in its column.

use super::looks::{age, old_cell, shows, symbol_at};
use super::made::{Draft, area, paint_draft};
use grid::Grid;
use page::{Cell, Surface};
use std::test::Fail;
use style::Symbol;
use wrap::WordRule;

// Left, centre, right.
const EACH: u64 = 0b11_10_01;

#[test]
fn rows_of_every_width_stand_left_in_the_middle_and_right_of_six_cells(
    rt: HostRuntime,
) -> Result<(), Fail> {
    let mut draft = Draft::new(rt.alloc());
    let body: [&[&str]; 5] = [
        &["a", "a", "a"],
        &["ab", "ab", "ab"],
        &["abc", "abc", "abc"],
        &["abcd", "abcd", "abcd"],
        &["abcde", "abcde", "abcde"],
    ];
    draft.table(3, EACH, &["123456", "123456", "123456"], &body)?;
    let mut cells = [Cell::FRESH; 252];
    let mut page = Grid::new(&mut cells, 28, 9);
    assert_eq!(rt;
        paint_draft(&draft, &WordRule, area(0, 0, 28, 9), &mut page),
        0
    );
    let rows = [
        "┌────────┬────────┬────────┐",
        "│ 123456 │ 123456 │ 123456 │",
        "├────────┼────────┼────────┤",
        "│ a      │    a   │      a │",
        "│ ab     │   ab   │     ab │",
        "│ abc    │   abc  │    abc │",
        "│ abcd   │  abcd  │   abcd │",
        "│ abcde  │  abcde │  abcde │",
        "└────────┴────────┴────────┘",
    ];
    assert!(rt; shows(&page, &rows));
    Ok(())
}

#[test]
fn rows_of_every_width_stand_left_in_the_middle_and_right_of_five_cells(
    rt: HostRuntime,
) -> Result<(), Fail> {
    let mut draft = Draft::new(rt.alloc());
    let body: [&[&str]; 4] = [
        &["a", "a", "a"],
        &["ab", "ab", "ab"],
        &["abc", "abc", "abc"],
        &["abcd", "abcd", "abcd"],
    ];
    draft.table(3, EACH, &["12345", "12345", "12345"], &body)?;
    let mut cells = [Cell::FRESH; 200];
    let mut page = Grid::new(&mut cells, 25, 8);
    assert_eq!(rt;
        paint_draft(&draft, &WordRule, area(0, 0, 25, 8), &mut page),
        0
    );
    let rows = [
        "┌───────┬───────┬───────┐",
        "│ 12345 │ 12345 │ 12345 │",
        "├───────┼───────┼───────┤",
        "│ a     │   a   │     a │",
        "│ ab    │  ab   │    ab │",
        "│ abc   │  abc  │   abc │",
        "│ abcd  │ abcd  │  abcd │",
        "└───────┴───────┴───────┘",
    ];
    assert!(rt; shows(&page, &rows));
    Ok(())
}

#[test]
fn each_row_of_an_entry_is_aligned_by_itself(rt: HostRuntime) -> Result<(), Fail> {
    let mut draft = Draft::new(rt.alloc());
    draft.table(
        2,
        0b10_11,
        &["12345", "1234"],
        &[&["ab cdefg h", "a bcd e"]],
    )?;
    let mut cells = [Cell::FRESH; 112];
    let mut page = Grid::new(&mut cells, 16, 7);
    assert_eq!(rt;
        paint_draft(&draft, &WordRule, area(0, 0, 16, 7), &mut page),
        0
    );
    let rows = [
        "┌───────┬──────┐",
        "│ 12345 │ 1234 │",
        "├───────┼──────┤",
        "│    ab │   a  │",
        "│ cdefg │  bcd │",
        "│     h │   e  │",
        "└───────┴──────┘",
    ];
    assert!(rt; shows(&page, &rows));
    Ok(())
}

#[test]
fn wide_glyphs_count_two_in_a_row_that_is_aligned(rt: HostRuntime) -> Result<(), Fail> {
    let mut draft = Draft::new(rt.alloc());
    draft.table(
        2,
        0b10_11,
        &["12345", "1234"],
        &[&["茶", "茶"], &["茶a", "茶a"]],
    )?;
    let mut cells = [Cell::FRESH; 96];
    let mut page = Grid::new(&mut cells, 16, 6);
    assert_eq!(rt;
        paint_draft(&draft, &WordRule, area(0, 0, 16, 6), &mut page),
        0
    );
    let rows = [
        "┌───────┬──────┐",
        "│ 12345 │ 1234 │",
        "├───────┼──────┤",
        "│    茶 │  茶  │",
        "│   茶a │  茶a │",
        "└───────┴──────┘",
    ];
    assert!(rt; shows(&page, &rows));
    Ok(())
}

#[test]
fn alignment_bits_of_0_mean_left(rt: HostRuntime) -> Result<(), Fail> {
    let mut draft = Draft::new(rt.alloc());
    draft.table(2, 0b00_11, &["ab", "ab"], &[&["c", "c"]])?;
    let mut cells = [Cell::FRESH; 55];
    let mut page = Grid::new(&mut cells, 11, 5);
    assert_eq!(rt;
        paint_draft(&draft, &WordRule, area(0, 0, 11, 5), &mut page),
        0
    );
    let rows = [
        "┌────┬────┐",
        "│ ab │ ab │",
        "├────┼────┤",
        "│  c │ c  │",
        "└────┴────┘",
    ];
    assert!(rt; shows(&page, &rows));
    Ok(())
}

#[test]
fn spaces_of_a_row_are_put_and_its_slack_is_not(rt: HostRuntime) -> Result<(), Fail> {
    let mut draft = Draft::new(rt.alloc());
    draft.table(1, 0b11, &["1234"], &[&["a "]])?;
    let mut cells = [Cell::FRESH; 40];
    let mut page = Grid::new(&mut cells, 8, 5);
    age(&mut page);
    assert_eq!(rt;
        paint_draft(&draft, &WordRule, area(0, 0, 8, 5), &mut page),
        0
    );
    let a = Symbol { bytes: 97, len: 1 };
    assert_eq!(rt; page.read(1, 3), Some(old_cell(1, 3)));
    assert_eq!(rt; page.read(2, 3), Some(old_cell(2, 3)));
    assert_eq!(rt; page.read(3, 3), Some(old_cell(3, 3)));
    assert_eq!(rt; symbol_at(&page, 4, 3), Some(a));
    assert_eq!(rt; symbol_at(&page, 5, 3), Some(Symbol::SPACE));
    assert_eq!(rt; page.read(6, 3), Some(old_cell(6, 3)));
    Ok(())
}
