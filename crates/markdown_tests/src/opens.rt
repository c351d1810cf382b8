// When a table is open: what stands in the source behind its end.

use super::made::*;
use events::styles::MarkdownStyles;
use glyphs::Bytes;
use markdown::Markdown;
use records::kinds::{Block, Row, Span};

// Whether a table that ends here is open.
fn is_open(source: &[u8], end: u32) -> Option<bool> {
    let mut lines = [Span::EMPTY; 2];
    let mut rows = [Row::BLANK; 1];
    let mut sheet = Markdown::new(&mut [], &mut lines, &mut rows);
    let events = [table(1, end), event(TABLE_END)];
    let _ = sheet.load(&Bytes, &MarkdownStyles::new(), &events, b"", source);
    match sheet.records().blocks() {
        [Block::Table(info, _)] => Some(info.open),
        _ => None,
    }
}

#[test]
fn nothing_behind_the_end_leaves_a_table_open(rt: HostRuntime) {
    assert_eq!(rt; is_open(b"table", 4), Some(false));
    assert_eq!(rt; is_open(b"table", 5), Some(true));
    assert_eq!(rt; is_open(b"table", 6), Some(true));
    assert_eq!(rt; is_open(b"table", u32::MAX), Some(true));
    assert_eq!(rt; is_open(b"table", 0), Some(false));
    assert_eq!(rt; is_open(b" \n", 0), Some(true));
}

#[test]
fn white_space_alone_leaves_a_table_open(rt: HostRuntime) {
    assert_eq!(rt; is_open(b"| \t\n\x0b\x0c\r ", 1), Some(true));
    assert_eq!(rt; is_open(b"| \t\n\x0b\x0c\r .", 1), Some(false));
    assert_eq!(rt; is_open(b"|. \t\n\x0b\x0c\r ", 1), Some(false));
    assert_eq!(rt; is_open(b"|   .   ", 1), Some(false));
    assert_eq!(rt; is_open(b"|   .   ", 5), Some(true));
}

// The characters that are white space.
const WHITE: [char; 25] = [
    '\u{9}', '\u{a}', '\u{b}', '\u{c}', '\u{d}', '\u{20}', '\u{85}', '\u{a0}', '\u{1680}',
    '\u{2000}', '\u{2001}', '\u{2002}', '\u{2003}', '\u{2004}', '\u{2005}', '\u{2006}', '\u{2007}',
    '\u{2008}', '\u{2009}', '\u{200a}', '\u{2028}', '\u{2029}', '\u{202f}', '\u{205f}', '\u{3000}',
];

// Whether a table is open with this character alone behind it.
fn is_open_before(c: char) -> Option<bool> {
    let mut bytes = [0; 4];
    let source = c.encode_utf8(&mut bytes);
    is_open(source.as_bytes(), 0)
}

#[test]
fn twenty_five_characters_are_white_space(rt: HostRuntime) {
    for code in 0..0x3100 {
        let c = char::from_u32(code).unwrap_or('.');
        assert_eq!(rt; is_open_before(c), Some(WHITE.contains(&c)));
    }
    for c in [
        '\u{feff}',
        '\u{ffa0}',
        '\u{fffd}',
        '\u{1d173}',
        '\u{e0020}',
        '\u{10ffff}',
    ] {
        assert_eq!(rt; is_open_before(c), Some(false));
    }
}

#[test]
fn bytes_that_are_no_text_are_not_white_space(rt: HostRuntime) {
    for bytes in [
        b"  \xff",
        b" \xc2 ",
        b"\x80\x80 ",
        b"\xe3\x80 ",
        b"\xc0\xa0 ",
        b"   ",
    ] {
        assert_eq!(rt; is_open(bytes, 0), Some(bytes == b"   "));
    }
}

#[test]
fn an_end_inside_a_character_leaves_no_white_space(rt: HostRuntime) {
    let source = "\u{3000}\u{a0}".as_bytes();
    for (end, open) in [
        (0, true),
        (1, false),
        (2, false),
        (3, true),
        (4, false),
        (5, true),
    ] {
        assert_eq!(rt; is_open(source, end), Some(open));
    }
}

#[test]
fn bytes_before_the_end_do_not_matter(rt: HostRuntime) {
    assert_eq!(rt; is_open(b"\xff\xc3  ", 2), Some(true));
    assert_eq!(rt; is_open(b"\xff\xc3  ", 1), Some(false));
}
