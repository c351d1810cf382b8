// Tables and sheets at their edges.

use super::sheets::{height_of, table_of};
use markdown::TableRefusal;
use std::test::Fail;
use wrap::WordRule;

// Tables of few and of most columns: the sheet, and how many columns it has.
const COUNTS: [(&[u8], u8); 5] = [
    (b"#0\n^ab\n.", 1),
    (b"#1\n^ab\n.", 1),
    (b"#2\n^ab\n.", 2),
    (b"#31\n^ab\n.", 31),
    (b"#32\n^ab\n.", 32),
];

#[test]
fn tables_have_from_1_to_32_columns(rt: HostRuntime) -> Result<(), Fail> {
    for (sheet, count) in COUNTS {
        let (answer, layout) = table_of(rt.alloc(), sheet, &WordRule, 0, 200, false)?;
        assert!(rt; answer.is_ok());
        assert!(rt; layout.columns.count == count);
        assert!(rt; layout.columns.natural[0] == 2);
        assert!(rt; layout.columns.widths[0] == 2);
        assert!(rt;
            layout
                .columns
                .widths
                .iter()
                .filter(|width| **width == 1)
                .count()
                == usize::from(count) - 1
        );
        assert!(rt; layout.columns.taken == 0);
        assert!(rt; layout.rows == 3);
    }
    Ok(())
}

#[test]
fn entries_that_did_not_come_are_empty(rt: HostRuntime) -> Result<(), Fail> {
    let (answer, layout) = table_of(rt.alloc(), b"#3\n^a|b|c\n|dd\n.", &WordRule, 0, 80, false)?;
    assert!(rt; answer.is_ok());
    assert!(rt; layout.columns.widths[..4] == [2, 1, 1, 0]);
    assert!(rt; layout.rows == 5);
    Ok(())
}

#[test]
fn wide_glyphs_in_a_column_of_one_cell_take_a_row_each(rt: HostRuntime) -> Result<(), Fail> {
    let (answer, layout) = table_of(
        rt.alloc(),
        "#2\n|世界|a\n.".as_bytes(),
        &WordRule,
        0,
        0,
        false,
    )?;
    assert!(rt; answer.is_ok());
    assert!(rt; layout.columns.natural[..2] == [4, 1]);
    assert!(rt; layout.columns.widths[..2] == [1, 1]);
    assert!(rt; layout.columns.taken == 3);
    assert!(rt; layout.rows == 6);
    Ok(())
}

#[test]
fn a_table_without_a_head_has_an_empty_header_row(rt: HostRuntime) -> Result<(), Fail> {
    assert_eq!(rt; height_of(rt.alloc(), b"#1\n|a\n.", &WordRule, 9)?, 5);
    Ok(())
}

#[test]
fn a_table_without_body_rows_has_two_rules(rt: HostRuntime) -> Result<(), Fail> {
    assert_eq!(rt; height_of(rt.alloc(), b"#1\n^a\n.", &WordRule, 9)?, 3);
    Ok(())
}

#[test]
fn a_table_grows_where_it_is_open_and_the_sheet_streams(rt: HostRuntime) -> Result<(), Fail> {
    let cases: [(&[u8], bool, u16); 4] = [
        (b"#1!\n|a\n.", true, 16),
        (b"#1!\n|a\n.", false, 1),
        (b"#1\n|a\n.", true, 1),
        (b"#1\n|a\n.", false, 1),
    ];
    for (sheet, streaming, width) in cases {
        let (answer, layout) = table_of(rt.alloc(), sheet, &WordRule, 0, 20, streaming)?;
        assert!(rt; answer.is_ok());
        assert!(rt; layout.columns.widths[0] == width);
    }
    Ok(())
}

const THREE_TABLES: &[u8] = b"#1\n^a\n.\n#2\n^b|c\n.\nsome text\n#3\n^d|e|f\n.";

#[test]
fn tables_are_counted_from_0_and_texts_are_not(rt: HostRuntime) -> Result<(), Fail> {
    for number in 0..3u8 {
        let (answer, layout) = table_of(
            rt.alloc(),
            THREE_TABLES,
            &WordRule,
            usize::from(number),
            80,
            false,
        )?;
        assert!(rt; answer.is_ok());
        assert!(rt; layout.columns.count == number + 1);
    }
    assert_eq!(rt; height_of(rt.alloc(), THREE_TABLES, &WordRule, 80)?, 13);
    Ok(())
}

#[test]
fn a_question_for_no_table_is_refused_and_leaves_the_place(rt: HostRuntime) -> Result<(), Fail> {
    for number in [3, 4, usize::MAX] {
        let (answer, layout) = table_of(rt.alloc(), THREE_TABLES, &WordRule, number, 80, false)?;
        assert!(rt; answer == Err(TableRefusal::NoTable));
        assert!(rt; TableRefusal::NoTable.number() == 10);
        assert!(rt; layout.columns.count == 0);
        assert!(rt; layout.rows == 7);
    }
    Ok(())
}

#[test]
fn a_sheet_has_no_height_at_width_0_or_without_blocks(rt: HostRuntime) -> Result<(), Fail> {
    assert_eq!(rt; height_of(rt.alloc(), b"a", &WordRule, 0)?, 0);
    assert_eq!(rt; height_of(rt.alloc(), b"", &WordRule, 9)?, 0);
    assert_eq!(rt; height_of(rt.alloc(), b"\n\n", &WordRule, 9)?, 0);
    Ok(())
}

#[test]
fn an_empty_line_is_a_row(rt: HostRuntime) -> Result<(), Fail> {
    assert_eq!(rt; height_of(rt.alloc(), b"a\n\nb", &WordRule, 9)?, 3);
    Ok(())
}
