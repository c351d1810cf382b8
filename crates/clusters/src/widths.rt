// How many columns a code point takes.
ghost use Rattle.std.specs.Prelude.{◌≡◌, true, ◌++◌};
ghost use Rattle.clusters.specs.Widths.{is_control, is_mark, zero_width, wide, columns_of, Apart, table, ascends, looked, standing};

use std::cmp::Ordering;

// The first and the last code point of a range, and how many columns each takes.
pub type Range = (u32, u32, u8);

const LAST_C0: u32 = 0x1F;

const DELETE: u32 = 0x7F;

const LAST_C1: u32 = 0x9F;

const FIRST_MARK: u32 = 0x300;

const LAST_MARK: u32 = 0x36F;

const FIRST_PRINTABLE: u32 = 0x20;

// All code points that do not take one column, in ascending order.
const RANGES: [Range; 17] = [
    (0, LAST_C0, 0),
    (DELETE, LAST_C1, 0),
    (FIRST_MARK, LAST_MARK, 0),
    (0x600, 0x605, 0),
    (0x1100, 0x115F, 2),
    (0x200B, 0x200F, 0),
    (0x2E80, 0x303E, 2),
    (0x3041, 0x4DBF, 2),
    (0x4E00, 0x9FFF, 2),
    (0xAC00, 0xD7A3, 2),
    (0xF900, 0xFAFF, 2),
    (0xFE30, 0xFE4F, 2),
    (0xFEFF, 0xFEFF, 0),
    (0xFF01, 0xFF60, 2),
    (0xFFE0, 0xFFE6, 2),
    (0x2_0000, 0x2_FFFD, 2),
    (0x3_0000, 0x3_FFFD, 2),
];

// A control takes no marks.
pub fn is_control(code: u32) -> bool
    ensures value { result ≡ is_control code }
{
    matches!(code, 0..=LAST_C0 | DELETE..=LAST_C1)
}

pub fn is_mark(code: u32) -> bool
    ensures value { result ≡ is_mark code }
{
    matches!(code, FIRST_MARK..=LAST_MARK)
}

fn ranges() -> &'static [Range]
    ensures value { result.now ≡ table }
{
    &RANGES
}

// How a range stands to a code point: before it, behind it, or around it.
fn standing(range: Range, code: u32) -> Ordering
    ensures value { result ≡ standing code range }
{
    let (low, high, _) = range;
    if code < low {
        Ordering::Greater
    } else if code <= high {
        Ordering::Equal
    } else {
        Ordering::Less
    }
}

fn look_up(ranges: &[Range], code: u32) -> u8
    requires { ascends 0 ranges.now ≡ true }
    ensures value { result ≡ looked ranges.now code }
{
    match ranges.binary_search_by(|range| standing(*range, code)) {
        Ok(i) => ranges[i].2,
        Err(_) => 1,
    }
}

// The columns of a code point that begins a cluster. The ranges that decide it ascend and are apart.
pub fn columns(code: u32) -> u8
    ensures value { result ≡ columns_of code }
    ensures ascends { ascends 0 table ≡ true }
    ensures apart { Apart (zero_width ++ wide) }
{
    match code {
        // most text: printable ASCII stands in no range
        FIRST_PRINTABLE..DELETE => 1,
        _ => look_up(ranges(), code),
    }
}
