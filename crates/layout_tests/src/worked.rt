// The worked examples.

use super::sheets::{height_of, table_of};
use std::test::Fail;
use wrap::{CuttingRule, WordRule};

// Natural widths 5, 9 and 9: page, whether it is streaming, final widths, cells taken.
const SHARES: [(u16, bool, [u16; 3], u32); 5] = [
    (25, false, [5, 5, 5], 8),
    (24, false, [5, 5, 4], 9),
    (34, false, [5, 9, 9], 0),
    (34, true, [5, 9, 10], 0),
    (12, true, [1, 1, 1], 20),
];

#[test]
fn naturals_5_9_9_are_shared_out_as_the_page_on_columns_tells(rt: HostRuntime) -> Result<(), Fail> {
    for (width, streaming, widths, taken) in SHARES {
        let (answer, layout) = table_of(
            rt.alloc(),
            b"#3!\n^aaaaa|bbb|ccccccccc\n|a|bbbbbbbbb|c\n.",
            &WordRule,
            0,
            width,
            streaming,
        )?;
        assert!(rt; answer.is_ok());
        assert!(rt; layout.columns.count == 3);
        assert!(rt; layout.columns.natural[..4] == [5, 9, 9, 0]);
        assert!(rt;
            &layout.columns.widths[..3] == widths.as_slice(),
            "at {width}"
        );
        assert!(rt; layout.columns.taken == taken, "at {width}");
    }
    Ok(())
}

#[test]
fn a_line_has_three_rows_by_the_word_rule_and_two_by_the_cutting_rule(
    rt: HostRuntime,
) -> Result<(), Fail> {
    assert_eq!(rt; height_of(rt.alloc(), b"a cccccc d", &WordRule, 5)?, 3);
    assert_eq!(rt; height_of(rt.alloc(), b"a cccccc d", &CuttingRule, 5)?, 2);
    Ok(())
}

#[test]
fn a_header_and_a_row_make_a_table_of_five_rows(rt: HostRuntime) -> Result<(), Fail> {
    assert_eq!(rt;
        height_of(rt.alloc(), b"#2\n^a|b\n|10|7\n.", &WordRule, 20)?,
        5
    );
    Ok(())
}
