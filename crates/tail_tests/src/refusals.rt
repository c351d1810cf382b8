// The refusals.
use std::process::Abort;
use std::test::Fail;
use tail::{Refusal, cook_streaming_tail};

// The source is refused by this number and value, and the output stays.
fn refused(
    rt: &impl Abort,
    source: &[u8],
    out: &mut [u8],
    number: u8,
    value: u128,
) -> Result<(), Fail> {
    let Err(refusal) = cook_streaming_tail(source, out) else {
        return Err(Fail::new("it was taken"));
    };
    assert_eq!(rt; refusal.numbered(), (number, value));
    assert!(rt; out.iter().all(|b| *b == 7));
    Ok(())
}

#[test]
fn a_source_that_is_not_utf8_is_refused_with_the_length_of_its_valid_part(
    rt: HostRuntime,
) -> Result<(), Fail> {
    let mut out = [7; 8];
    refused(&rt, b"\xff", &mut out, 3, 0)?;
    refused(&rt, b"|a\xc3", &mut out, 3, 2)?;
    refused(&rt, b"|\xc3\xa9\xe3\x80", &mut out, 3, 3)?;
    refused(&rt, b"|a\xed\xa0\x80|", &mut out, 3, 2)
}

#[test]
fn an_output_one_byte_short_is_refused_with_the_cooked_length(rt: HostRuntime) -> Result<(), Fail> {
    let mut out = [7; 7];
    refused(&rt, b"|a", &mut out, 4, 8)?;
    refused(&rt, b"|a|b\n|-", &mut out, 4, 14)
}

#[test]
fn an_output_of_just_the_cooked_length_is_enough(rt: HostRuntime) -> Result<(), Fail> {
    let mut out = [7; 8];
    assert_eq!(rt; cook_streaming_tail(b"|a", &mut out)?, Some(8));
    assert!(rt; out[7] == 124);
    Ok(())
}

#[test]
fn an_unchanged_source_needs_no_output(rt: HostRuntime) -> Result<(), Fail> {
    assert_eq!(rt; cook_streaming_tail(b"a", &mut [])?, None);
    Ok(())
}

#[test]
fn a_bad_source_is_named_before_a_short_output(rt: HostRuntime) -> Result<(), Fail> {
    refused(&rt, b"|a\xff", &mut [], 3, 2)
}

#[test]
fn refusals_have_their_numbers(rt: HostRuntime) {
    assert_eq!(rt; Refusal::NotUtf8(5).numbered(), (3, 5));
    assert_eq!(rt; Refusal::TooShort(6).numbered(), (4, 6));
}

#[test]
fn a_refusal_is_printed_as_its_number_and_its_value(rt: HostRuntime) -> Result<(), Fail> {
    assert_eq!(rt;
        Refusal::NotUtf8(17).to_string(rt.alloc())?.as_str(),
        "3 17"
    );
    assert_eq!(rt;
        Refusal::TooShort(14).to_string(rt.alloc())?.as_str(),
        "4 14"
    );
    Ok(())
}
