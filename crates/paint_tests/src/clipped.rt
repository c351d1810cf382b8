// Sheets that are higher than the area, and tables that are wider.

use super::looks::{age, look_alike, shows, stay};
use super::made::{Draft, area, paint_draft};
use grid::Grid;
use page::{Cell, Surface};
use std::alloc::{AllocError, Global};
use std::test::Fail;
use wrap::{CuttingRule, WordRule};

// A text, a table with entries of several rows, and a text: fifteen rows at width 11.
fn mixed(heap: Global) -> Result<Draft, AllocError> {
    let mut draft = Draft::new(heap);
    draft.paragraph("ab cd ef gh ij")?;
    draft.table(2, 0b11_10, &["ab", "茶"], &[&["abcde", "f"], &["", "茶茶茶"]])?;
    draft.paragraph("end")?;
    Ok(draft)
}

#[test]
fn the_sheet_that_is_cut_has_fifteen_rows(rt: HostRuntime) -> Result<(), Fail> {
    let draft = mixed(rt.alloc())?;
    let mut cells = [Cell::FRESH; 165];
    let mut page = Grid::new(&mut cells, 11, 15);
    assert_eq!(rt;
        paint_draft(&draft, &WordRule, area(0, 0, 11, 15), &mut page),
        0
    );
    let rows = [
        "ab cd ef gh",
        "ij",
        "",
        "┌────┬────┐",
        "│ ab │ 茶 │",
        "├────┼────┤",
        "│ ab │  f │",
        "│ cd │    │",
        "│  e │    │",
        "│    │ 茶 │",
        "│    │ 茶 │",
        "│    │ 茶 │",
        "└────┴────┘",
        "",
        "end",
    ];
    assert!(rt; shows(&page, &rows));
    Ok(())
}

#[test]
fn a_lower_area_shows_the_first_rows_of_the_sheet_and_leaves_the_rest(
    rt: HostRuntime,
) -> Result<(), Fail> {
    let draft = mixed(rt.alloc())?;
    let mut all = [Cell::FRESH; 165];
    let mut whole = Grid::new(&mut all, 11, 15);
    age(&mut whole);
    assert_eq!(rt;
        paint_draft(&draft, &WordRule, area(0, 0, 11, 15), &mut whole),
        0
    );
    for height in 0..16 {
        let mut cells = [Cell::FRESH; 165];
        let mut page = Grid::new(&mut cells, 11, 15);
        age(&mut page);
        let answer = paint_draft(&draft, &WordRule, area(0, 0, 11, height), &mut page);
        assert_eq!(rt; answer, 0);
        assert!(rt; look_alike(&page, &whole, 0, height));
        assert!(rt; stay(&page, height, 15));
    }
    Ok(())
}

#[test]
fn of_thirty_two_columns_at_12_three_are_left_without_the_border_behind_them(
    rt: HostRuntime,
) -> Result<(), Fail> {
    let mut draft = Draft::new(rt.alloc());
    draft.table(32, 0, &["ab"; 32], &[&["c"; 32]])?;
    let mut cells = [Cell::FRESH; 91];
    let mut page = Grid::new(&mut cells, 13, 7);
    assert_eq!(rt;
        paint_draft(&draft, &WordRule, area(0, 0, 12, 7), &mut page),
        0
    );
    let rows = [
        "┌───┬───┬───",
        "│ a │ a │ a",
        "│ b │ b │ b",
        "├───┼───┼───",
        "│ c │ c │ c",
        "└───┴───┴───",
        "",
    ];
    assert!(rt; shows(&page, &rows));
    Ok(())
}

#[test]
fn what_lies_beyond_the_area_falls_off_cell_by_cell(rt: HostRuntime) -> Result<(), Fail> {
    let mut draft = Draft::new(rt.alloc());
    draft.table(2, 0, &["a", "b"], &[])?;
    let cut = [
        ["┌", "│", "└"],
        ["┌─", "│", "└─"],
        ["┌──", "│ a", "└──"],
        ["┌───", "│ a", "└───"],
        ["┌───┬", "│ a │", "└───┴"],
        ["┌───┬─", "│ a │", "└───┴─"],
        ["┌───┬──", "│ a │ b", "└───┴──"],
        ["┌───┬───", "│ a │ b", "└───┴───"],
        ["┌───┬───┐", "│ a │ b │", "└───┴───┘"],
        ["┌───┬───┐", "│ a │ b │", "└───┴───┘"],
    ];
    let mut width = 0u16;
    for rows in &cut {
        width = width.saturating_add(1);
        let mut cells = [Cell::FRESH; 36];
        let mut page = Grid::new(&mut cells, 12, 3);
        let answer = paint_draft(&draft, &CuttingRule, area(0, 0, width, 3), &mut page);
        assert_eq!(rt; answer, 0);
        assert!(rt; shows(&page, rows));
    }
    Ok(())
}

#[test]
fn naturals_5_9_9_at_12_lose_their_right_border(rt: HostRuntime) -> Result<(), Fail> {
    let mut draft = Draft::new(rt.alloc());
    draft.table(3, 0, &["", "", ""], &[&["abcde", "123456789", "xxxxxxxxx"]])?;
    let mut cells = [Cell::FRESH; 60];
    let mut page = Grid::new(&mut cells, 15, 4);
    assert_eq!(rt;
        paint_draft(&draft, &WordRule, area(1, 0, 12, 4), &mut page),
        0
    );
    let rows = [
        " ┌───┬───┬───",
        " │   │   │",
        " ├───┼───┼───",
        " │ a │ 1 │ x",
    ];
    assert!(rt; shows(&page, &rows));
    Ok(())
}
