// The points where this differs from the program that it was ported from.
use super::cooking::{becomes, stays};
use std::test::Fail;

#[test]
fn three_backticks_with_a_backtick_later_open_no_fence(rt: HostRuntime) -> Result<(), Fail> {
    becomes(&rt, b"```a`\n|b", b"```a`\n|b\n|---|")?;
    stays(&rt, b"~~~a~\n|b")
}

#[test]
fn three_marks_do_not_close_a_fence_of_four(rt: HostRuntime) -> Result<(), Fail> {
    stays(&rt, b"````\n```\n|a")?;
    stays(&rt, b"~~~~\n~~~\n|a")?;
    becomes(&rt, b"````\n`````\n|a", b"````\n`````\n|a\n|---|")
}

#[test]
fn words_behind_the_marks_close_no_fence(rt: HostRuntime) -> Result<(), Fail> {
    stays(&rt, b"```\n```a\n|b")?;
    stays(&rt, b"~~~\n~~~ a\n|b")?;
    becomes(&rt, b"```\n```\xc2\xa0\n|b", b"```\n```\xc2\xa0\n|b\n|---|")
}

#[test]
fn colons_that_stand_together_are_no_delimiter_entry(rt: HostRuntime) -> Result<(), Fail> {
    becomes(&rt, b"|a\n|::-", b"|a\n|---|")?;
    becomes(&rt, b"|a\n|- -", b"|a\n|---|")?;
    becomes(&rt, b"|a|b\n|-|:", b"|a|b\n|---|---|")?;
    stays(&rt, b"|a\n|::-\n")
}

#[test]
fn a_pipe_after_two_backslashes_is_decoration(rt: HostRuntime) -> Result<(), Fail> {
    becomes(&rt, b"|\\\\|", b"|\\\\|\n|---|")?;
    becomes(&rt, b"|a\\\\|", b"|a\\\\|\n|---|")?;
    becomes(&rt, b"|a\\\\\\|", b"|a\\\\\\|\n|---|")
}
