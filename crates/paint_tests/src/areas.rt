// Areas at the edges of a page and past them, empty ones, and what they leave.

use super::looks::{age, old_cell, same, shows};
use super::made::{Draft, area, paint_draft};
use grid::Grid;
use page::{Cell, Surface, Window};
use std::test::Fail;
use wrap::WordRule;

#[test]
fn an_area_that_passes_the_edge_is_refused_and_leaves_every_cell(
    rt: HostRuntime,
) -> Result<(), Fail> {
    let mut draft = Draft::new(rt.alloc());
    draft.paragraph("abcdefgh")?;
    let (mut cells, mut others) = ([Cell::FRESH; 24], [Cell::FRESH; 24]);
    let mut page = Grid::new(&mut cells, 6, 4);
    let mut old = Grid::new(&mut others, 6, 4);
    age(&mut page);
    age(&mut old);
    let areas = [
        area(0, 0, 7, 4),
        area(0, 0, 6, 5),
        area(1, 0, 6, 4),
        area(0, 1, 6, 4),
        area(5, 3, 2, 1),
        area(5, 3, 1, 2),
        area(6, 3, 1, 1),
        area(5, 4, 1, 1),
        area(7, 0, 0, 1),
        area(0, 5, 1, 0),
        area(7, 0, 0, 0),
        area(0, 5, 0, 0),
        area(0, 4, 7, 0),
        area(6, 0, 0, 5),
        area(65535, 0, 1, 1),
        area(0, 65535, 1, 1),
        area(1, 1, 65535, 65535),
        area(65535, 65535, 65535, 65535),
    ];
    for refused in &areas {
        assert_eq!(rt; paint_draft(&draft, &WordRule, *refused, &mut page), 5);
    }
    assert!(rt; same(&page, &old));
    Ok(())
}

#[test]
fn an_empty_area_on_the_edge_is_admitted_and_gets_nothing(rt: HostRuntime) -> Result<(), Fail> {
    let mut draft = Draft::new(rt.alloc());
    draft.paragraph("abcdefgh")?;
    let (mut cells, mut others) = ([Cell::FRESH; 24], [Cell::FRESH; 24]);
    let mut page = Grid::new(&mut cells, 6, 4);
    let mut old = Grid::new(&mut others, 6, 4);
    age(&mut page);
    age(&mut old);
    let areas = [
        area(0, 0, 0, 0),
        area(0, 0, 6, 0),
        area(0, 0, 0, 4),
        area(2, 1, 0, 2),
        area(2, 1, 2, 0),
        area(6, 0, 0, 4),
        area(0, 4, 6, 0),
        area(6, 4, 0, 0),
    ];
    for empty in &areas {
        assert_eq!(rt; paint_draft(&draft, &WordRule, *empty, &mut page), 0);
    }
    assert!(rt; same(&page, &old));
    Ok(())
}

#[test]
fn an_area_of_the_last_cell_gets_the_first_glyph(rt: HostRuntime) -> Result<(), Fail> {
    let mut draft = Draft::new(rt.alloc());
    draft.paragraph("abc")?;
    let mut cells = [Cell::FRESH; 6];
    let mut page = Grid::new(&mut cells, 3, 2);
    assert_eq!(rt;
        paint_draft(&draft, &WordRule, area(2, 1, 1, 1), &mut page),
        0
    );
    assert!(rt; shows(&page, &["", "  a"]));
    Ok(())
}

#[test]
fn an_area_may_be_the_whole_page(rt: HostRuntime) -> Result<(), Fail> {
    let mut draft = Draft::new(rt.alloc());
    draft.paragraph("abcde")?;
    let mut cells = [Cell::FRESH; 6];
    let mut page = Grid::new(&mut cells, 3, 2);
    assert_eq!(rt;
        paint_draft(&draft, &WordRule, area(0, 0, 3, 2), &mut page),
        0
    );
    assert!(rt; shows(&page, &["abc", "de"]));
    Ok(())
}

#[test]
fn layout_uses_the_width_of_the_area(rt: HostRuntime) -> Result<(), Fail> {
    let mut draft = Draft::new(rt.alloc());
    draft.paragraph("ab cd ef")?;
    let mut cells = [Cell::FRESH; 30];
    let mut page = Grid::new(&mut cells, 10, 3);
    assert_eq!(rt;
        paint_draft(&draft, &WordRule, area(2, 0, 5, 3), &mut page),
        0
    );
    assert!(rt; shows(&page, &["  ab cd", "  ef", ""]));
    Ok(())
}

#[test]
fn cells_outside_the_area_and_below_the_sheet_stay(rt: HostRuntime) -> Result<(), Fail> {
    let mut draft = Draft::new(rt.alloc());
    draft.say("xxx")?;
    let mut cells = [Cell::FRESH; 30];
    let mut page = Grid::new(&mut cells, 6, 5);
    age(&mut page);
    assert_eq!(rt;
        paint_draft(&draft, &WordRule, area(1, 1, 4, 3), &mut page),
        0
    );
    for y in 0..5 {
        for x in 0..6 {
            let stays = page.read(x, y) == Some(old_cell(x, y));
            assert_eq!(rt; stays, y != 1 || x < 1 || x > 3);
        }
    }
    Ok(())
}

#[test]
fn a_page_without_cells_admits_the_empty_area_alone(rt: HostRuntime) -> Result<(), Fail> {
    let mut draft = Draft::new(rt.alloc());
    draft.say("x")?;
    let mut cells = [Cell::FRESH; 4];
    let mut page = Window {
        below: Grid::new(&mut cells, 2, 2),
        x: 2,
        y: 2,
        width: 9,
        height: 9,
    };
    assert_eq!(rt;
        paint_draft(&draft, &WordRule, area(0, 0, 0, 0), &mut page),
        0
    );
    assert_eq!(rt;
        paint_draft(&draft, &WordRule, area(0, 0, 1, 0), &mut page),
        5
    );
    assert_eq!(rt;
        paint_draft(&draft, &WordRule, area(0, 0, 0, 1), &mut page),
        5
    );
    assert_eq!(rt;
        paint_draft(&draft, &WordRule, area(0, 0, 1, 1), &mut page),
        5
    );
    Ok(())
}
