// What a source is cooked to.
use std::process::Abort;
use std::test::Fail;
use tail::{cook_streaming_tail, cooked_text};

// How many bytes of output the tests lend.
const ROOM: usize = 96;

// What the output holds before.
const FILL: u8 = 7;

// The source stays as it is, and the output too.
pub fn stays(rt: &impl Abort, source: &[u8]) -> Result<(), Fail> {
    let mut out = [FILL; ROOM];
    let cooked = cook_streaming_tail(source, &mut out)?;
    assert_eq!(rt; cooked, None);
    assert_eq!(rt; cooked_text(cooked, source, &out), source);
    assert!(rt; out.iter().all(|b| *b == FILL));
    Ok(())
}

// The source is cooked to this text, and the output beyond it stays.
pub fn becomes(rt: &impl Abort, source: &[u8], wanted: &[u8]) -> Result<(), Fail> {
    let mut out = [FILL; ROOM];
    let cooked = cook_streaming_tail(source, &mut out)?;
    assert_eq!(rt; cooked, Some(wanted.len()));
    assert_eq!(rt; cooked_text(cooked, source, &out), wanted);
    assert!(rt; out.iter().skip(wanted.len()).all(|b| *b == FILL));
    Ok(())
}

#[test]
fn a_header_alone_gets_a_line_feed_and_a_delimiter_row(rt: HostRuntime) -> Result<(), Fail> {
    becomes(&rt, b"|a", b"|a\n|---|")?;
    becomes(&rt, b"|a|b|c", b"|a|b|c\n|---|---|---|")
}

#[test]
fn a_header_that_is_a_lone_pipe_stays(rt: HostRuntime) -> Result<(), Fail> {
    stays(&rt, b"|")?;
    stays(&rt, b" \t| ")?;
    stays(&rt, b"|\n")?;
    stays(&rt, b"|\n|-")?;
    becomes(&rt, b"||", b"||\n|---|")
}

#[test]
fn an_unfinished_delimiter_row_is_replaced(rt: HostRuntime) -> Result<(), Fail> {
    becomes(&rt, b"|a|b\n|---|:", b"|a|b\n|---|---|")?;
    becomes(&rt, b"|a|b\n|", b"|a|b\n|---|---|")?;
    becomes(&rt, b"|a\n|---|---|", b"|a\n|---|")?;
    becomes(&rt, b"x\n|a\n |\t:", b"x\n|a\n|---|")?;
    becomes(&rt, b"|a\n|\xc2\xa0", b"|a\n|---|")
}

#[test]
fn a_complete_delimiter_row_stays(rt: HostRuntime) -> Result<(), Fail> {
    stays(&rt, b"|a\n|-")?;
    stays(&rt, b"|a\n|-|")?;
    stays(&rt, b"|a|b|\n| :-: | --- |")?;
    stays(&rt, b"|a\n|\xe3\x80\x80:--\xc2\xa0|")?;
    stays(&rt, b"|a\n|-|\n")
}

#[test]
fn a_second_line_that_is_no_delimiter_row_stays(rt: HostRuntime) -> Result<(), Fail> {
    stays(&rt, b"|a\n|b")?;
    stays(&rt, b"|a\n|--\\|")?;
    stays(&rt, b"|a|b\n|-\n")
}

#[test]
fn three_lines_stay(rt: HostRuntime) -> Result<(), Fail> {
    stays(&rt, b"|a\n|-\n|b")?;
    stays(&rt, b"|a\n|\n|-")
}

#[test]
fn only_the_run_at_the_end_matters(rt: HostRuntime) -> Result<(), Fail> {
    stays(&rt, b"")?;
    stays(&rt, b"a|b")?;
    stays(&rt, b"|a\nb")?;
    becomes(&rt, b"|a\nb\n|c|d", b"|a\nb\n|c|d\n|---|---|")?;
    becomes(&rt, b"\xe3\x80\x80|a", b"\xe3\x80\x80|a\n|---|")
}

#[test]
fn escaped_pipes_part_no_entries(rt: HostRuntime) -> Result<(), Fail> {
    becomes(&rt, b"|a\\|b", b"|a\\|b\n|---|")?;
    becomes(&rt, b"|a\\|", b"|a\\|\n|---|")?;
    becomes(&rt, b"|a\\\\|b", b"|a\\\\|b\n|---|---|")?;
    becomes(&rt, b"|a||", b"|a||\n|---|---|")
}

#[test]
fn pipes_in_a_fence_are_no_table(rt: HostRuntime) -> Result<(), Fail> {
    stays(&rt, b"```\n|a")?;
    stays(&rt, b"~~~ x\n|a")?;
    stays(&rt, b"```\n~~~\n|a")?;
    becomes(&rt, b"```\n```\n|a", b"```\n```\n|a\n|---|")?;
    becomes(
        &rt,
        b"~~~\n|x\n  ~~~~ \t\n|a",
        b"~~~\n|x\n  ~~~~ \t\n|a\n|---|",
    )?;
    becomes(&rt, b"``\n|a", b"``\n|a\n|---|")
}
