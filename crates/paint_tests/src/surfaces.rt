// The same paint on a grid, on a shelf, and on a window over a pair of both.

use super::looks::{age, old_cell, same};
use super::made::{Draft, STRONG, area, paint_draft};
use grid::Grid;
use page::{Beside, Cell, Surface, Window};
use shelf::Shelf;
use std::alloc::{AllocError, Global};
use std::test::Fail;
use wrap::{BreakingRule, CuttingRule, WordRule};

const WIDTH: u16 = 20;

const HEIGHT: u16 = 12;

fn mixed(heap: Global) -> Result<Draft, AllocError> {
    let mut draft = Draft::new(heap);
    draft.mark(STRONG)?;
    draft.say("bold 太字 and more of it")?;
    draft.end(STRONG)?;
    draft.table(2, 0b10_11, &["ab", "茶 and"], &[&["12", "34 茶茶"], &["5"]])?;
    draft.paragraph("a paragraph behind it")?;
    Ok(draft)
}

// Paints on an old page of 20 by 12, and over that once more, lower and narrower.
fn paint_twice<S: Surface, R: BreakingRule>(draft: &Draft, rule: &R, page: &mut S) -> bool {
    age(page);
    paint_draft(draft, rule, area(0, 0, WIDTH, HEIGHT), page) == 0
        && paint_draft(draft, rule, area(3, 2, 14, 9), page) == 0
        && paint_draft(draft, rule, area(3, 2, 18, 9), page) == 5
}

#[test]
fn a_paint_is_the_same_on_a_grid_and_on_a_shelf(rt: HostRuntime) -> Result<(), Fail> {
    let draft = mixed(rt.alloc())?;
    let mut cells = [Cell::FRESH; 240];
    let mut bytes = [0; 4096];
    let mut grid = Grid::new(&mut cells, WIDTH, HEIGHT);
    let mut shelf = Shelf::new(&mut bytes, WIDTH, HEIGHT);
    assert!(rt; paint_twice(&draft, &WordRule, &mut grid));
    assert!(rt; paint_twice(&draft, &WordRule, &mut shelf));
    assert!(rt; same(&grid, &shelf));
    assert!(rt; paint_twice(&draft, &CuttingRule, &mut grid));
    assert!(rt; !same(&grid, &shelf), "the other rule gives another page");
    assert!(rt; paint_twice(&draft, &CuttingRule, &mut shelf));
    assert!(rt; same(&grid, &shelf));
    Ok(())
}

#[test]
fn a_paint_is_the_same_on_a_grid_and_on_a_window_over_a_pair(rt: HostRuntime) -> Result<(), Fail> {
    let draft = mixed(rt.alloc())?;
    let mut cells = [Cell::FRESH; 240];
    let mut left = [Cell::FRESH; 117];
    let mut bytes = [0; 3584];
    let mut grid = Grid::new(&mut cells, WIDTH, HEIGHT);
    let pair = Beside {
        left: Grid::new(&mut left, 9, 13),
        right: Shelf::new(&mut bytes, 14, 14),
    };
    let mut window = Window {
        below: pair,
        x: 2,
        y: 1,
        width: WIDTH,
        height: HEIGHT,
    };
    assert!(rt; paint_twice(&draft, &WordRule, &mut grid));
    assert!(rt; paint_twice(&draft, &WordRule, &mut window));
    assert!(rt; same(&grid, &window));
    let (left, right) = window.into_inner().into_parts();
    assert_eq!(rt; left.read(8, 1), grid.read(6, 0));
    assert_eq!(rt; right.read(0, 1), grid.read(7, 0));
    Ok(())
}

// Whether a cell is one that a window of 20 by 12 from 2, 1 on shows.
fn is_shown(x: u16, y: u16) -> bool {
    (2..2 + WIDTH).contains(&x) && (1..1 + HEIGHT).contains(&y)
}

// How many cells of a row are hidden and not fresh.
fn changed_in_row<S: Surface>(page: &S, y: u16) -> u16 {
    let mut changed = 0u16;
    for x in 0..page.width() {
        if !is_shown(x, y) && page.read(x, y) != Some(Cell::FRESH) {
            changed = changed.saturating_add(1);
        }
    }
    changed
}

#[test]
fn a_paint_through_a_window_leaves_what_it_hides(rt: HostRuntime) -> Result<(), Fail> {
    let draft = mixed(rt.alloc())?;
    let mut cells = [Cell::FRESH; 345];
    let mut window = Window {
        below: Grid::new(&mut cells, 23, 15),
        x: 2,
        y: 1,
        width: WIDTH,
        height: HEIGHT,
    };
    assert!(rt; paint_twice(&draft, &WordRule, &mut window));
    assert_eq!(rt; window.read(19, 11), Some(old_cell(19, 11)));
    let grid = window.into_inner();
    for y in 0..15 {
        assert_eq!(rt; changed_in_row(&grid, y), 0);
    }
    Ok(())
}
