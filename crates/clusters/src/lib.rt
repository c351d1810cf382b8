//! Clusters: what counts as one character of a byte string, and how many columns it takes.
//!
//! To the byte ruler each byte is a cluster, and the printable ones of ASCII take one column, the others
//! none. To the UTF-8 ruler a cluster is a code point with the marks after it that fit in 8 bytes, and
//! takes the columns of its code point: none, one or two, by a table of ranges. A control takes no marks.
//!
//! The main promise: for every byte string and every place in it, a look at a few bytes finds exactly
//! the cluster that the rule gives there. Whether bytes are text at all is left to `from_utf8`.

#![tactic(auto)]

ghost use Rattle.std.specs.Prelude.{◌≡◌, ◌-◌, ◌≤◌, ◌&&◌, ◌∷◌, drop, if◌then◌else◌, IsUtf8, MatchBool, nat_le, slice_index};
ghost use Rattle.std.specs.Char.{len_utf8};
ghost use Rattle.std.specs.Str.{chars};
ghost use Rattle.clusters.specs.Texts.{is_text};
ghost use Rattle.clusters.specs.Widths.{is_control, is_mark};
ghost use Rattle.clusters.specs.Cuts.{byte_columns, byte_first, mark_bytes, point_first, utf8_first};

mod points;
mod widths;

use points::{Points, size};
use std::str::from_utf8;
pub use widths::columns;
use widths::{is_control, is_mark};

// No cluster has more bytes.
pub const MAX_LEN: usize = 8;

// The bytes and the columns that a cluster takes.
#[derive(Clone, Copy, PartialEq, Eq, Debug)]
pub struct Cluster {
    pub len: usize,
    pub width: u8,
}

// Whether bytes are UTF-8 text.
#[tactic(auto, using(crate::proofs::Spelling::text_decides))]
pub fn is_text(bytes: &[u8]) -> bool
    ensures value { result ≡ is_text bytes.now }
    ensures cases { MatchBool result (IsUtf8 bytes.now) (IsUtf8 bytes.now → ⊥) }
{
    from_utf8(bytes).is_ok()
}

// What is left of a text from a place on.
fn left(text: &[u8], at: usize) -> &[u8]
    ensures value { result.now ≡ drop at text.now }
{
    text.get(at..).unwrap_or(&[])
}

// The first byte, 0 where there is none.
fn first_byte(bytes: &[u8]) -> u8
    ensures value { result ≡ slice_index bytes.now 0 }
{
    bytes.first().copied().unwrap_or(0)
}

fn byte_columns(b: u8) -> u8
    ensures value { result ≡ byte_columns b }
{
    match b {
        b' '..=b'~' => 1,
        _ => 0,
    }
}

// The cluster of one byte at a place.
pub fn byte_cluster(text: &[u8], at: usize) -> Cluster
    ensures value { result ≡ byte_first (drop at text.now) }
{
    Cluster {
        len: 1,
        width: byte_columns(first_byte(left(text, at))),
    }
}

// Whether a code point is a mark that fits into the room.
fn is_fitting_mark(code: u32, room: usize) -> bool
    ensures value { result ≡ (is_mark code && nat_le (len_utf8 code) room) }
{
    is_mark(code) && size(code) <= room
}

// How many bytes the marks at the front take, as far as they fit into the room.
fn mark_bytes(points: Points<'_>, room: usize) -> usize
    ensures value { result ≡ mark_bytes room (chars points.entry.bytes.now) }
    ensures bound { result ≤ room }
{
    let mut left = room;
    for code in points {
        if !is_fitting_mark(code, left) {
            break;
        }
        left -= size(code);
    }
    room - left
}

// How many bytes the marks of a code point take: none at a control.
fn own_marks(code: u32, behind: Points<'_>) -> usize
    ensures value { result ≡ (if is_control code then 0 else mark_bytes (8 - len_utf8 code) (chars behind.entry.bytes.now)) }
    ensures bound { result ≤ 8 - len_utf8 code }
{
    if is_control(code) {
        0
    } else {
        mark_bytes(behind, MAX_LEN - size(code))
    }
}

// The cluster of a code point with those behind it.
fn point_cluster(code: u32, behind: Points<'_>) -> Cluster
    ensures value { result ≡ point_first (code ∷ chars behind.entry.bytes.now) }
{
    Cluster {
        len: size(code) + own_marks(code, behind),
        width: columns(code),
    }
}

fn spelled_cluster(bytes: &[u8]) -> Cluster
    ensures value { result ≡ point_first (chars bytes.now) }
{
    let mut points = Points { bytes };
    match points.next() {
        Some(code) => point_cluster(code, points),
        None => Cluster { len: 1, width: 0 },
    }
}

// The cluster of code points that begins at a place.
pub fn utf8_cluster(text: &[u8], at: usize) -> Cluster
    ensures value { result ≡ utf8_first (drop at text.now) }
{
    let bytes = left(text, at);
    let spelled = spelled_cluster(bytes);
    Cluster {
        len: spelled.len.min(bytes.len()),
        ..spelled
    }
}
