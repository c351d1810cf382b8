// What is printed.
use columns::{ColumnLayout, share_columns};
use script::{answer_line, columns_line};
use std::alloc::Global;
use std::fmt::Display;
use std::process::Abort;
use std::test::Fail;
use words::{Fault, Trouble};

// A layout of so many columns, the first three 5, 10 and 65,535 cells wide.
fn layout(count: u8) -> ColumnLayout {
    let mut layout = ColumnLayout::new();
    layout.count = count;
    layout.widths[0] = 5;
    layout.widths[1] = 10;
    layout.widths[2] = 65535;
    layout.taken = 1_234_567;
    layout
}

fn tells(rt: &impl Abort, heap: Global, width: u16, count: u8, expected: &str) -> Result<(), Fail> {
    assert_eq!(rt;
        columns_line(heap, width, &layout(count))?.as_str(),
        expected
    );
    Ok(())
}

fn says(
    rt: &impl Abort,
    heap: Global,
    value: impl Display + Drop,
    expected: &str,
) -> Result<(), Fail> {
    assert_eq!(rt; value.to_string(heap)?.as_str(), expected);
    Ok(())
}

fn prints(rt: &impl Abort, heap: Global, raw: &[u8], expected: &str) -> Result<(), Fail> {
    let Some(answer) = answer_line(heap, raw)? else {
        return Err(Fail::new("nothing is printed"));
    };
    assert_eq!(rt; answer.as_str(), expected);
    Ok(())
}

#[test]
fn an_answer_tells_the_widths_of_the_columns(rt: HostRuntime) -> Result<(), Fail> {
    let heap = rt.alloc();
    tells(
        &rt,
        heap,
        40,
        3,
        "columns 40 widths 5 10 65535 taken 1234567",
    )?;
    tells(&rt, heap, 65535, 1, "columns 65535 widths 5 taken 1234567")?;
    tells(&rt, heap, 0, 0, "columns 0 widths taken 1234567")
}

#[test]
fn an_answer_tells_at_most_32_widths(rt: HostRuntime) -> Result<(), Fail> {
    let heap = rt.alloc();
    let most = columns_line(heap, 40, &layout(32))?;
    let more = columns_line(heap, 40, &layout(255))?;
    assert_eq!(rt; more.as_str(), most.as_str());
    Ok(())
}

#[test]
fn an_answer_is_the_shares_of_what_was_asked(rt: HostRuntime) -> Result<(), Fail> {
    let heap = rt.alloc();
    let mut shared = ColumnLayout::new();
    assert!(rt; share_columns(34, true, &[5, 9, 9], &mut shared).is_ok());
    let expected = columns_line(heap, 34, &shared)?;
    prints(&rt, heap, b"columns 34 streaming 5 9 9", expected.as_str())?;
    prints(
        &rt,
        heap,
        b"columns 34 streaming 5 9 9\r\n",
        expected.as_str(),
    )
}

#[test]
fn a_table_without_columns_is_answered_as_one_column(rt: HostRuntime) -> Result<(), Fail> {
    let heap = rt.alloc();
    let mut shared = ColumnLayout::new();
    assert!(rt; share_columns(40, false, &[], &mut shared).is_ok());
    assert_eq!(rt; shared.count, 1);
    prints(
        &rt,
        heap,
        b"columns 40\n",
        columns_line(heap, 40, &shared)?.as_str(),
    )
}

#[test]
fn a_line_that_cannot_be_read_is_told_by_number_and_words(rt: HostRuntime) -> Result<(), Fail> {
    let heap = rt.alloc();
    let first = Trouble {
        line: 1,
        fault: Fault::UnknownCommand,
    };
    let last = Trouble {
        line: u64::MAX,
        fault: Fault::TooWide,
    };
    says(&rt, heap, first, "line 1: unknown command")?;
    says(&rt, heap, last, "line 18446744073709551615: too wide")
}

#[test]
fn every_fault_has_words(rt: HostRuntime) -> Result<(), Fail> {
    let heap = rt.alloc();
    says(&rt, heap, Fault::UnknownCommand, "unknown command")?;
    says(&rt, heap, Fault::NotANumber, "not a number")?;
    says(&rt, heap, Fault::MissingNumber, "a number is missing")?;
    says(&rt, heap, Fault::TooLarge, "a number is too large")?;
    says(&rt, heap, Fault::TooWide, "too wide")?;
    says(&rt, heap, Fault::TooManyColumns, "too many columns")?;
    says(&rt, heap, Fault::NotText, "not text")?;
    says(&rt, heap, Fault::NoMemory, "out of memory")
}
