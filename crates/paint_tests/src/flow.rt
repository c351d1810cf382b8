// Texts and tables one below another, by both breaking rules.

use super::looks::shows;
use super::made::{Draft, HARD_BREAK, ITEM, area, paint_draft};
use grid::Grid;
use page::Cell;
use std::test::Fail;
use wrap::{CuttingRule, WordRule};

#[test]
fn words_stay_together_by_the_word_rule_and_rows_are_full_by_the_cutting_rule(
    rt: HostRuntime,
) -> Result<(), Fail> {
    let mut draft = Draft::new(rt.alloc());
    draft.say("a cccccc d")?;
    let mut cells = [Cell::FRESH; 20];
    let mut page = Grid::new(&mut cells, 5, 4);
    assert_eq!(rt;
        paint_draft(&draft, &WordRule, area(0, 0, 5, 4), &mut page),
        0
    );
    assert!(rt; shows(&page, &["a", "ccccc", "c d", ""]));
    let mut cells = [Cell::FRESH; 20];
    let mut page = Grid::new(&mut cells, 5, 4);
    assert_eq!(rt;
        paint_draft(&draft, &CuttingRule, area(0, 0, 5, 4), &mut page),
        0
    );
    assert!(rt; shows(&page, &["a ccc", "ccc d", "", ""]));
    Ok(())
}

#[test]
fn four_spaces_at_2_push_what_follows_down_by_the_cutting_rule_alone(
    rt: HostRuntime,
) -> Result<(), Fail> {
    let mut draft = Draft::new(rt.alloc());
    draft.say("    \nx")?;
    let mut cells = [Cell::FRESH; 6];
    let mut page = Grid::new(&mut cells, 2, 3);
    assert_eq!(rt;
        paint_draft(&draft, &WordRule, area(0, 0, 2, 3), &mut page),
        0
    );
    assert!(rt; shows(&page, &["", "x", ""]));
    let mut cells = [Cell::FRESH; 6];
    let mut page = Grid::new(&mut cells, 2, 3);
    assert_eq!(rt;
        paint_draft(&draft, &CuttingRule, area(0, 0, 2, 3), &mut page),
        0
    );
    assert!(rt; shows(&page, &["", "", "x"]));
    Ok(())
}

#[test]
fn entries_break_by_the_rule_too(rt: HostRuntime) -> Result<(), Fail> {
    let mut draft = Draft::new(rt.alloc());
    draft.table(1, 0, &["ab cde"], &[])?;
    let mut cells = [Cell::FRESH; 32];
    let mut page = Grid::new(&mut cells, 8, 4);
    assert_eq!(rt;
        paint_draft(&draft, &WordRule, area(0, 0, 8, 4), &mut page),
        0
    );
    assert!(rt; shows(&page, &["┌──────┐", "│ ab   │", "│ cde  │", "└──────┘"]));
    assert_eq!(rt;
        paint_draft(&draft, &CuttingRule, area(0, 0, 8, 4), &mut page),
        0
    );
    assert!(rt; shows(&page, &["┌──────┐", "│ ab c │", "│ dee  │", "└──────┘"]));
    Ok(())
}

#[test]
fn one_row_lies_between_two_blocks(rt: HostRuntime) -> Result<(), Fail> {
    let mut draft = Draft::new(rt.alloc());
    draft.table(1, 0, &["a"], &[])?;
    draft.table(1, 0, &["b"], &[])?;
    draft.paragraph("c d")?;
    draft.table(0, 0, &["e"], &[&["f"]])?;
    let mut cells = [Cell::FRESH; 85];
    let mut page = Grid::new(&mut cells, 5, 17);
    assert_eq!(rt;
        paint_draft(&draft, &WordRule, area(0, 0, 5, 17), &mut page),
        0
    );
    let rows = [
        "┌───┐",
        "│ a │",
        "└───┘",
        "",
        "┌───┐",
        "│ b │",
        "└───┘",
        "",
        "c d",
        "",
        "┌───┐",
        "│ e │",
        "├───┤",
        "│ f │",
        "└───┘",
        "",
        "",
    ];
    assert!(rt; shows(&page, &rows));
    Ok(())
}

#[test]
fn empty_lines_in_a_text_are_rows_and_those_at_its_end_are_not(
    rt: HostRuntime,
) -> Result<(), Fail> {
    let mut draft = Draft::new(rt.alloc());
    draft.say("\na\n\n")?;
    draft.mark(HARD_BREAK)?;
    draft.say("b\n\n")?;
    draft.table(1, 0, &["c"], &[])?;
    let mut cells = [Cell::FRESH; 50];
    let mut page = Grid::new(&mut cells, 5, 10);
    assert_eq!(rt;
        paint_draft(&draft, &WordRule, area(0, 0, 5, 10), &mut page),
        0
    );
    let rows = ["", "a", "", "", "b", "", "┌───┐", "│ c │", "└───┘", ""];
    assert!(rt; shows(&page, &rows));
    Ok(())
}

#[test]
fn a_sign_that_a_load_adds_is_drawn_like_others(rt: HostRuntime) -> Result<(), Fail> {
    let mut draft = Draft::new(rt.alloc());
    draft.mark(ITEM)?;
    draft.say("a\tb")?;
    draft.end(ITEM)?;
    let mut cells = [Cell::FRESH; 10];
    let mut page = Grid::new(&mut cells, 10, 1);
    assert_eq!(rt;
        paint_draft(&draft, &WordRule, area(0, 0, 10, 1), &mut page),
        0
    );
    assert!(rt; shows(&page, &["- a    b"]));
    Ok(())
}

#[test]
fn missing_entries_are_empty_and_a_table_without_a_head_has_an_empty_one(
    rt: HostRuntime,
) -> Result<(), Fail> {
    let mut draft = Draft::new(rt.alloc());
    draft.table(3, 0, &["a"], &[&[], &["", "b"]])?;
    let mut cells = [Cell::FRESH; 78];
    let mut page = Grid::new(&mut cells, 13, 6);
    assert_eq!(rt;
        paint_draft(&draft, &WordRule, area(0, 0, 13, 6), &mut page),
        0
    );
    let rows = [
        "┌───┬───┬───┐",
        "│ a │   │   │",
        "├───┼───┼───┤",
        "│   │   │   │",
        "│   │ b │   │",
        "└───┴───┴───┘",
    ];
    assert!(rt; shows(&page, &rows));
    Ok(())
}
