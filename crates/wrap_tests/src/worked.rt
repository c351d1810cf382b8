ghost use Rattle.std.specs.Prelude.{◌<◌, ◌^◌};

use super::lines::glyph;
use std::process::Abort;
use wrap::{BreakingRule, CuttingRule, Rows, WordRule, row_count};

// The rows of a text are these, each by its start and end.
fn check_rows<R: BreakingRule, const N: usize>(
    rt: &impl Abort,
    rule: &R,
    text: &[u8; N],
    width: u16,
    rows: &[(usize, usize)],
)
    requires { N < 2 ^ 32 }
{
    let line = text.map(glyph);
    assert_eq!(rt; row_count(rule, &line, width), rows.len());
    // `Rows` gives an empty line no row, and `row_count` counts one
    let given = if N == 0 { &[] } else { rows };
    assert!(rt; Rows::new(rule, &line, width).eq(given.iter().copied()));
    let mut start = 0;
    for (from, to) in rows {
        let (end, next) = rule.break_row(&line, width, start);
        assert_eq!(rt; start, *from);
        assert_eq!(rt; end, *to);
        start = next;
    }
    assert!(rt; start >= line.len());
}

#[test]
fn a_long_word_between_two_letters_has_three_rows_by_the_word_rule_and_two_by_the_cutting_rule(
    rt: HostRuntime,
) {
    check_rows(&rt, &WordRule, b"a cccccc d", 5, &[(0, 1), (2, 7), (7, 10)]);
    check_rows(&rt, &CuttingRule, b"a cccccc d", 5, &[(0, 5), (5, 10)]);
}

#[test]
fn four_spaces_at_two_have_one_row_by_the_word_rule_and_two_by_the_cutting_rule(rt: HostRuntime) {
    check_rows(&rt, &WordRule, b"    ", 2, &[(0, 2)]);
    check_rows(&rt, &CuttingRule, b"    ", 2, &[(0, 2), (2, 4)]);
}

#[test]
fn an_empty_line_is_one_row(rt: HostRuntime) {
    check_rows(&rt, &WordRule, b"", 3, &[(0, 0)]);
    check_rows(&rt, &CuttingRule, b"", 3, &[(0, 0)]);
}

#[test]
fn a_line_as_wide_as_the_row_is_one_row(rt: HostRuntime) {
    check_rows(&rt, &WordRule, b"ab cd", 5, &[(0, 5)]);
    check_rows(&rt, &CuttingRule, b"ab cd", 5, &[(0, 5)]);
    check_rows(&rt, &WordRule, b"aBc", 4, &[(0, 3)]);
}

#[test]
fn no_row_breaks_at_a_leading_space(rt: HostRuntime) {
    check_rows(&rt, &WordRule, b"  abcd", 4, &[(0, 4), (4, 6)]);
    check_rows(&rt, &WordRule, b" abcd", 4, &[(0, 4), (4, 5)]);
    check_rows(&rt, &WordRule, b" a bcd", 5, &[(0, 2), (3, 6)]);
}

#[test]
fn trailing_spaces_that_fit_belong_to_the_row_and_others_are_skipped(rt: HostRuntime) {
    check_rows(&rt, &WordRule, b"ab  ", 4, &[(0, 4)]);
    check_rows(&rt, &WordRule, b"ab  ", 3, &[(0, 3)]);
    check_rows(&rt, &WordRule, b"ab  ", 2, &[(0, 2)]);
    check_rows(&rt, &CuttingRule, b"ab  ", 3, &[(0, 3), (3, 4)]);
}

#[test]
fn repeated_spaces_are_skipped_where_they_do_not_fit_and_kept_where_they_do(rt: HostRuntime) {
    check_rows(&rt, &WordRule, b"ab   cd", 2, &[(0, 2), (5, 7)]);
    check_rows(&rt, &WordRule, b"ab   cd", 3, &[(0, 3), (5, 7)]);
    check_rows(&rt, &WordRule, b"ab   cd", 6, &[(0, 4), (5, 7)]);
}

#[test]
fn a_space_qualifies_by_a_non_space_anywhere_before_it_in_the_row(rt: HostRuntime) {
    check_rows(&rt, &WordRule, b"a   aB", 3, &[(0, 3), (4, 6)]);
    check_rows(&rt, &WordRule, b"a   aB", 4, &[(0, 3), (4, 6)]);
}

#[test]
fn a_word_longer_than_the_row_is_cut(rt: HostRuntime) {
    check_rows(&rt, &WordRule, b"abcdefg", 3, &[(0, 3), (3, 6), (6, 7)]);
    check_rows(&rt, &WordRule, b"a bcdefg", 3, &[(0, 1), (2, 5), (5, 8)]);
}

#[test]
fn a_wide_glyph_counts_one_at_width_one_and_two_at_width_two(rt: HostRuntime) {
    check_rows(&rt, &WordRule, b"AB", 1, &[(0, 1), (1, 2)]);
    check_rows(&rt, &CuttingRule, b"AbC", 1, &[(0, 1), (1, 2), (2, 3)]);
    check_rows(&rt, &CuttingRule, b"AbC", 2, &[(0, 1), (1, 2), (2, 3)]);
    check_rows(&rt, &CuttingRule, b"AbC", 3, &[(0, 2), (2, 3)]);
}

#[test]
fn at_width_zero_the_rest_of_the_line_is_the_row(rt: HostRuntime) {
    check_rows(&rt, &WordRule, b"a bC", 0, &[(0, 4)]);
    check_rows(&rt, &CuttingRule, b"a bC", 0, &[(0, 4)]);
}

#[test]
fn a_start_past_the_line_gets_an_empty_row_there(rt: HostRuntime) {
    let line = b"a b".map(glyph);
    assert_eq!(rt; WordRule.break_row(&line, 2, 3), (3, 3));
    assert_eq!(rt; WordRule.break_row(&line, 2, 9), (9, 9));
    assert_eq!(rt; CuttingRule.break_row(&line, 0, 9), (9, 9));
}
