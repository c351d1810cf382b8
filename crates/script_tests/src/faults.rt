// Lines that cannot be read.
use script::answer_line;
use std::alloc::Global;
use std::process::Abort;
use std::str::from_utf8;
use std::test::Fail;
use words::Fault;

// A line that cannot be read for this fault. A failure tells the line where it is text.
fn refuses(rt: &impl Abort, heap: Global, raw: &[u8], fault: Fault) {
    let name = from_utf8(raw).unwrap_or("bytes that are no text");
    assert_eq!(rt; answer_line(heap, raw).err(), Some(fault), "{name}");
}

fn answers(heap: Global, raw: &[u8]) -> Result<(), Fail> {
    match answer_line(heap, raw)? {
        Some(_) => Ok(()),
        None => Err(Fail::new("nothing is printed")),
    }
}

fn refuses_behind(
    rt: &impl Abort,
    heap: Global,
    front: &str,
    last: &str,
    fault: Fault,
) -> Result<(), Fail> {
    let line = format!(in heap; "{front} {last}")?;
    refuses(rt, heap, line.as_bytes(), fault);
    Ok(())
}

// As many columns as a table can have.
const FULL: &str = "columns 40 7 7 7 7 7 7 7 7 7 7 7 7 7 7 7 7 7 7 7 7 7 7 7 7 7 7 7 7 7 7 7 7";

#[test]
fn another_first_word_is_an_unknown_command(rt: HostRuntime) -> Result<(), Fail> {
    let heap = rt.alloc();
    for line in [
        "frobnicate",
        "column 40",
        "columnsx 40",
        "Columns 40",
        " columns 40",
        " ",
        "columns\t40",
        " # no comment",
    ] {
        refuses(&rt, heap, line.as_bytes(), Fault::UnknownCommand);
    }
    Ok(())
}

#[test]
fn a_command_without_its_width_misses_a_number(rt: HostRuntime) -> Result<(), Fail> {
    refuses(&rt, rt.alloc(), b"columns", Fault::MissingNumber);
    Ok(())
}

#[test]
fn a_number_is_decimal_digits_and_nothing_else(rt: HostRuntime) -> Result<(), Fail> {
    let heap = rt.alloc();
    for word in [
        "x",
        "",
        "+4",
        "-4",
        "4.0",
        "0x10",
        "4x",
        "٤",
        "99999999999999999999x",
    ] {
        refuses_behind(&rt, heap, "columns", word, Fault::NotANumber)?;
        refuses_behind(&rt, heap, "columns 40 5", word, Fault::NotANumber)?;
    }
    Ok(())
}

#[test]
fn spaces_are_single(rt: HostRuntime) -> Result<(), Fail> {
    let heap = rt.alloc();
    for line in [
        "columns  40",
        "columns ",
        "columns 40 ",
        "columns 40  5",
        "columns 40 5 ",
        "columns 40 streaming ",
    ] {
        refuses(&rt, heap, line.as_bytes(), Fault::NotANumber);
    }
    Ok(())
}

#[test]
fn streaming_stands_once_and_behind_the_width(rt: HostRuntime) -> Result<(), Fail> {
    let heap = rt.alloc();
    answers(heap, b"columns 40 streaming")?;
    answers(heap, b"columns 40 streaming 5")?;
    refuses(&rt, heap, b"columns streaming 40 5", Fault::NotANumber);
    refuses(&rt, heap, b"columns 40 5 streaming", Fault::NotANumber);
    refuses(
        &rt,
        heap,
        b"columns 40 streaming streaming",
        Fault::NotANumber,
    );
    Ok(())
}

#[test]
fn a_page_is_at_most_65535_cells_wide(rt: HostRuntime) -> Result<(), Fail> {
    let heap = rt.alloc();
    answers(heap, b"columns 0 5")?;
    answers(heap, b"columns 65535 5")?;
    answers(heap, b"columns 000000000000000000000065535 5")?;
    refuses(&rt, heap, b"columns 65536 5", Fault::TooWide);
    refuses(&rt, heap, b"columns 18446744073709551615 5", Fault::TooWide);
    refuses(&rt, heap, b"columns 18446744073709551616 5", Fault::TooWide);
    Ok(())
}

#[test]
fn a_column_is_at_most_100000_cells_wide(rt: HostRuntime) -> Result<(), Fail> {
    let heap = rt.alloc();
    answers(heap, b"columns 40 0")?;
    answers(heap, b"columns 40 100000")?;
    refuses(&rt, heap, b"columns 40 100001", Fault::TooWide);
    refuses(&rt, heap, b"columns 40 4294967295", Fault::TooWide);
    refuses(&rt, heap, b"columns 40 4294967296", Fault::TooWide);
    refuses(
        &rt,
        heap,
        b"columns 40 5 18446744073709551616",
        Fault::TooWide,
    );
    Ok(())
}

#[test]
fn a_table_has_at_most_32_columns(rt: HostRuntime) -> Result<(), Fail> {
    let heap = rt.alloc();
    answers(heap, b"columns 40")?;
    answers(heap, FULL.as_bytes())?;
    refuses_behind(&rt, heap, FULL, "7", Fault::TooManyColumns)
}

#[test]
fn a_word_that_cannot_be_read_comes_before_the_limits_on_columns(
    rt: HostRuntime,
) -> Result<(), Fail> {
    let heap = rt.alloc();
    refuses_behind(&rt, heap, FULL, "x", Fault::NotANumber)?;
    refuses_behind(&rt, heap, FULL, "4294967296", Fault::TooWide)?;
    refuses_behind(&rt, heap, FULL, "100001", Fault::TooManyColumns)?;
    refuses(&rt, heap, b"columns 40 100001 x", Fault::NotANumber);
    refuses(&rt, heap, b"columns 65536 x", Fault::TooWide);
    refuses(&rt, heap, b"columns x 65536", Fault::NotANumber);
    Ok(())
}

#[test]
fn a_line_is_utf8(rt: HostRuntime) -> Result<(), Fail> {
    let heap = rt.alloc();
    refuses(&rt, heap, b"\xff", Fault::NotText);
    refuses(&rt, heap, b"columns 40 \xc3\n", Fault::NotText);
    refuses(
        &rt,
        heap,
        b"# half a character: \xe2\x82\r\n",
        Fault::NotText,
    );
    refuses(&rt, heap, b"\xc3\xa9", Fault::UnknownCommand);
    Ok(())
}
