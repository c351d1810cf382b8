// The ends of a source.
use super::cooking::{becomes, stays};
use std::test::Fail;

#[test]
fn one_line_feed_ends_the_last_line(rt: HostRuntime) -> Result<(), Fail> {
    becomes(&rt, b"|a\n", b"|a\n|---|")?;
    stays(&rt, b"|a\n|-:|-\n")?;
    stays(&rt, b"\n")
}

#[test]
fn two_line_feeds_end_the_run(rt: HostRuntime) -> Result<(), Fail> {
    stays(&rt, b"|a\n\n")?;
    stays(&rt, b"\n\n")?;
    becomes(&rt, b"\n\n|a\n", b"\n\n|a\n|---|")
}

#[test]
fn a_carriage_return_is_white_space_and_ends_no_line(rt: HostRuntime) -> Result<(), Fail> {
    becomes(&rt, b"|a\r", b"|a\r\n|---|")?;
    becomes(&rt, b"|a\r\n", b"|a\r\n|---|")?;
    becomes(&rt, b"|a\r|b", b"|a\r|b\n|---|---|")?;
    stays(&rt, b"|a\r\n|-\r\n")?;
    stays(&rt, b"|a\r\n|-|\r")?;
    becomes(&rt, b"|a\r\n|:\r", b"|a\r\n|---|")
}

#[test]
fn indented_pipes_begin_a_run(rt: HostRuntime) -> Result<(), Fail> {
    becomes(&rt, b"    |a", b"    |a\n|---|")
}
