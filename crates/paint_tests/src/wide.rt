// Glyphs of width 2: their second cell, rows that end before them, and columns of width 1.

use super::looks::{age, old_cell, shows, symbol_at};
use super::made::{Draft, ITALIC, area, paint_draft};
use grid::Grid;
use page::{Cell, Surface};
use std::test::Fail;
use style::Symbol;
use wrap::{CuttingRule, WordRule};

#[test]
fn a_wide_glyph_is_followed_by_an_empty_symbol_in_its_style(rt: HostRuntime) -> Result<(), Fail> {
    let mut draft = Draft::new(rt.alloc());
    draft.mark(ITALIC)?;
    draft.say("茶")?;
    draft.end(ITALIC)?;
    let mut cells = [Cell::FRESH; 3];
    let mut page = Grid::new(&mut cells, 3, 1);
    assert_eq!(rt;
        paint_draft(&draft, &WordRule, area(0, 0, 3, 1), &mut page),
        0
    );
    let first = Cell {
        symbol: Symbol {
            bytes: 0xb6_8c_e8,
            len: 3,
        },
        fg: 6,
        bg: 0,
        modifiers: 38,
    };
    let second = Cell {
        symbol: Symbol::EMPTY,
        ..first
    };
    assert_eq!(rt; page.read(0, 0), Some(first));
    assert_eq!(rt; page.read(1, 0), Some(second));
    assert_eq!(rt; page.read(2, 0), Some(Cell::FRESH));
    Ok(())
}

#[test]
fn a_wide_glyph_that_does_not_fit_starts_the_next_row(rt: HostRuntime) -> Result<(), Fail> {
    let mut draft = Draft::new(rt.alloc());
    draft.say("ab茶茶茶c")?;
    let mut cells = [Cell::FRESH; 12];
    let mut page = Grid::new(&mut cells, 3, 4);
    assert_eq!(rt;
        paint_draft(&draft, &CuttingRule, area(0, 0, 3, 4), &mut page),
        0
    );
    assert!(rt; shows(&page, &["ab", "茶", "茶", "茶c"]));
    Ok(())
}

#[test]
fn the_cell_before_a_wide_glyph_that_does_not_fit_stays(rt: HostRuntime) -> Result<(), Fail> {
    let mut draft = Draft::new(rt.alloc());
    draft.say("ab茶")?;
    let mut cells = [Cell::FRESH; 6];
    let mut page = Grid::new(&mut cells, 3, 2);
    age(&mut page);
    assert_eq!(rt;
        paint_draft(&draft, &WordRule, area(0, 0, 3, 2), &mut page),
        0
    );
    assert_eq!(rt; page.read(2, 0), Some(old_cell(2, 0)));
    assert_eq!(rt; symbol_at(&page, 1, 1), Some(Symbol::EMPTY));
    assert_eq!(rt; page.read(2, 1), Some(old_cell(2, 1)));
    Ok(())
}

#[test]
fn a_wide_glyph_at_width_one_is_drawn_as_the_replacement_character(
    rt: HostRuntime,
) -> Result<(), Fail> {
    let mut draft = Draft::new(rt.alloc());
    draft.say("a茶b")?;
    let mut cells = [Cell::FRESH; 8];
    let mut page = Grid::new(&mut cells, 2, 4);
    assert_eq!(rt;
        paint_draft(&draft, &WordRule, area(0, 0, 1, 4), &mut page),
        0
    );
    assert!(rt; shows(&page, &["a", "\u{fffd}", "b", ""]));
    assert_eq!(rt; page.read(1, 1), Some(Cell::FRESH));
    Ok(())
}

#[test]
fn a_wide_glyph_in_a_column_of_width_one_is_drawn_as_the_replacement_character(
    rt: HostRuntime,
) -> Result<(), Fail> {
    let mut draft = Draft::new(rt.alloc());
    draft.table(2, 0b11_10, &["茶", "ab"], &[&["x茶", "茶"]])?;
    let mut cells = [Cell::FRESH; 63];
    let mut page = Grid::new(&mut cells, 9, 7);
    assert_eq!(rt;
        paint_draft(&draft, &WordRule, area(0, 0, 9, 7), &mut page),
        0
    );
    let rows = [
        "┌───┬───┐",
        "│ \u{fffd} │ a │",
        "│   │ b │",
        "├───┼───┤",
        "│ x │ \u{fffd} │",
        "│ \u{fffd} │   │",
        "└───┴───┘",
    ];
    assert!(rt; shows(&page, &rows));
    Ok(())
}
