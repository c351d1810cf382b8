// What a line asks for.
use script::{Command, answer_line, read_command};
use std::alloc::Global;
use std::process::Abort;
use std::test::Fail;

fn reads(
    rt: &impl Abort,
    heap: Global,
    line: &str,
    width: u16,
    growing: bool,
    natural: &[u32],
) -> Result<(), Fail> {
    match read_command(heap, line)? {
        None => Err(Fail::new("nothing is asked for")),
        Some(Command::Columns(asked)) => {
            assert_eq!(rt; asked.width, width);
            assert_eq!(rt; asked.growing, growing);
            assert_eq!(rt; asked.natural.as_slice(), natural);
            Ok(())
        }
    }
}

fn prints_nothing(heap: Global, line: &str) -> Result<(), Fail> {
    match answer_line(heap, line.as_bytes())? {
        None => Ok(()),
        Some(_) => Err(Fail::new(format_args!("{line}: something is printed"))),
    }
}

#[test]
fn columns_gives_a_width_and_the_natural_widths(rt: HostRuntime) -> Result<(), Fail> {
    let heap = rt.alloc();
    reads(&rt, heap, "columns 25 5 9 9", 25, false, &[5, 9, 9])?;
    reads(&rt, heap, "columns 25 9 9 5", 25, false, &[9, 9, 5])?;
    reads(&rt, heap, "columns 40", 40, false, &[])?;
    reads(
        &rt,
        heap,
        "columns 65535 4294967295 0",
        65535,
        false,
        &[4_294_967_295, 0],
    )?;
    reads(&rt, heap, "columns 007 010", 7, false, &[10])
}

#[test]
fn streaming_asks_for_a_growing_table(rt: HostRuntime) -> Result<(), Fail> {
    let heap = rt.alloc();
    reads(
        &rt,
        heap,
        "columns 34 streaming 5 9 9",
        34,
        true,
        &[5, 9, 9],
    )?;
    reads(&rt, heap, "columns 34 streaming", 34, true, &[])
}

#[test]
fn empty_lines_and_comments_ask_for_nothing(rt: HostRuntime) -> Result<(), Fail> {
    let heap = rt.alloc();
    for line in [
        "",
        "\n",
        "\r\n",
        "\r",
        "#",
        "# columns 40 x",
        "#columns 40\n",
        "# é\r\n",
    ] {
        prints_nothing(heap, line)?;
    }
    Ok(())
}
