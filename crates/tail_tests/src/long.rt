// Long sources. A walk that went over some part again for each character would not end in time.
use std::alloc::{AllocError, Global};
use std::test::Fail;
use tail::cook_streaming_tail;

// A million bytes, and the most that they can be cooked to.
const LONG: usize = 1_000_000;

const ROOM: usize = 5_000_010;

// A million bytes of these, over and over.
fn repeated(heap: Global, part: &[u8]) -> Result<Vec<u8>, AllocError> {
    part.iter().copied().cycle().take(LONG).collect(heap)
}

// How long the source is when it is cooked, if it does not stay.
fn cooked_len(heap: Global, part: &[u8]) -> Result<Option<usize>, Fail> {
    let source = repeated(heap, part)?;
    let mut out = vec![in heap; 0; ROOM]?;
    Ok(cook_streaming_tail(source.as_slice(), out.as_mut_slice())?)
}

#[test]
fn a_million_pipes_are_one_header(rt: HostRuntime) -> Result<(), Fail> {
    assert_eq!(rt;
        cooked_len(rt.alloc(), b"|")?,
        Some(LONG + 1 + 1 + 4 * 999_999)
    );
    Ok(())
}

#[test]
fn a_million_bytes_of_short_lines_marks_backslashes_and_white_space(
    rt: HostRuntime,
) -> Result<(), Fail> {
    let heap = rt.alloc();
    assert_eq!(rt; cooked_len(heap, b"|\n")?, None);
    assert_eq!(rt; cooked_len(heap, b"a\n")?, None);
    assert_eq!(rt; cooked_len(heap, b"```\n~~~\n")?, None);
    assert_eq!(rt; cooked_len(heap, b"`")?, None);
    assert_eq!(rt; cooked_len(heap, b" ")?, None);
    assert_eq!(rt; cooked_len(heap, b"|\\")?, Some(LONG + 1 + 1 + 4));
    Ok(())
}
