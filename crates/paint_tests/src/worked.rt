// The worked example, cell by cell.

use super::looks::{Look, look, shows};
use super::made::{Draft, area, paint_draft};
use grid::Grid;
use page::Cell;
use std::test::Fail;
use wrap::WordRule;

// Fresh cells, borders, header and entries in the styles of the tests.
const LOOKS: [Look; 4] = [
    (b' ', (0, 0, 0)),
    (b'b', (9, 0, 0)),
    (b'h', (1, 10, 132)),
    (b'e', (1, 0, 4)),
];

#[test]
fn header_a_b_and_row_10_7_at_20(rt: HostRuntime) -> Result<(), Fail> {
    let mut draft = Draft::new(rt.alloc());
    draft.table(2, 0, &["a", "b"], &[&["10", "7"]])?;
    let mut cells = [Cell::FRESH; 120];
    let mut page = Grid::new(&mut cells, 20, 6);
    assert_eq!(rt;
        paint_draft(&draft, &WordRule, area(0, 0, 20, 6), &mut page),
        0
    );
    let rows = [
        "┌────┬───┐",
        "│ a  │ b │",
        "├────┼───┤",
        "│ 10 │ 7 │",
        "└────┴───┘",
        "",
    ];
    assert!(rt; shows(&page, &rows));
    let signs = [
        "bbbbbbbbbb          ",
        "b h  b h b          ",
        "bbbbbbbbbb          ",
        "b ee b e b          ",
        "bbbbbbbbbb          ",
        "                    ",
    ];
    assert!(rt; look(&page, &signs, &LOOKS));
    Ok(())
}
