// What stands on a sheet, glyph by glyph: the styles in force, and what the rulers make of odd texts.

use super::made::*;
use events::styles::MarkdownStyles;
use glyphs::{Bytes, Glyph, Ruler, Utf8};
use markdown::Markdown;
use records::kinds::{Block, Row, Span};
use std::alloc::{AllocError, Global};
use std::test::Fail;
use style::{Style, Symbol};

// A glyph by its bytes, its width, and its style: the colours, what is added, what is taken away.
type Sign = (&'static [u8], u8, Look);

type Look = (u8, u8, u8, u8);

// In STYLES: the base style, bold over it, the heading, inline code, the code block.
const BASE: Look = (1, 0, 4, 0);

const BOLD: Look = (1, 5, 21, 2);

const TITLE: Look = (7, 0, 65, 2);

const INLINE: Look = (4, 2, 0, 1);

const BLOCK: Look = (3, 16, 8, 0);

const GRAY: Look = (9, 0, 0, 0);

fn look_of(style: Style) -> Look {
    (style.fg, style.bg, style.add, style.remove)
}

fn are(glyphs: &[Glyph], signs: &[Sign]) -> bool {
    glyphs.len() == signs.len()
        && glyphs.iter().zip(signs).all(|(glyph, (bytes, width, look))| {
            Symbol::new(bytes) == Some(glyph.symbol)
                && glyph.width == *width
                && look_of(glyph.style) == *look
        })
}

// Where the last line of a block stands, or the first entry of its last row.
fn last_place(sheet: &Markdown, block: Block) -> Option<Span> {
    match block {
        Block::Text(lines) => sheet.records().lines_in(lines).last().copied(),
        Block::Table(_, rows) => sheet
            .records()
            .rows_in(rows)
            .last()
            .map(|row| row.entries[0]),
    }
}

// Whether the last line or entry of the last block of these steps has these glyphs.
fn ends<R: Ruler>(
    heap: Global,
    ruler: &R,
    styles: &MarkdownStyles,
    steps: &[Step],
    text: &[u8],
    signs: &[Sign],
) -> Result<bool, AllocError> {
    let mut glyphs = [BLANK; 40];
    let mut lines = [Span::EMPTY; 12];
    let mut rows = [Row::BLANK; 3];
    let mut sheet = Markdown::new(&mut glyphs, &mut lines, &mut rows);
    let events = joined(heap, steps, &[])?;
    let answer = sheet.load(ruler, styles, events.as_slice(), text, b"source");
    let place = sheet
        .records()
        .blocks()
        .last()
        .and_then(|block| last_place(&sheet, *block));
    Ok(answer.is_ok() && place.is_some_and(|place| are(sheet.records().glyphs_in(place), signs)))
}

// Steps over the text "abcd", and the glyphs at their end.
type Case = (&'static [Step], &'static [Sign]);

const STYLED: [Case; 9] = [
    (&[(TEXT, 0, 1)], &[(b"a", 1, BASE)]),
    (
        &[
            (STRONG, 0, 0),
            (TEXT, 0, 1),
            (STRONG_END, 0, 0),
            (TEXT, 1, 1),
        ],
        &[(b"a", 1, BOLD), (b"b", 1, BASE)],
    ),
    // italic adds 2, which bold took away, and takes away 1, which bold added
    (
        &[
            (STRONG, 0, 0),
            (EMPHASIS, 0, 0),
            (TEXT, 0, 1),
            (EMPHASIS_END, 0, 0),
            (SOFT_BREAK, 0, 0),
            (STRONG_END, 0, 0),
        ],
        &[(b"a", 1, (6, 5, 54, 1)), (b" ", 1, BOLD)],
    ),
    // a heading's style stands alone
    (
        &[
            (STRONG, 0, 0),
            (HEADING, 0, 0),
            (TEXT, 0, 1),
            (HEADING_END, 0, 0),
            (TEXT, 1, 1),
            (STRONG_END, 0, 0),
        ],
        &[(b"a", 1, TITLE), (b"b", 1, BOLD)],
    ),
    (
        &[(STRONG, 0, 0), (CODE, 0, 1), (STRONG_END, 0, 0)],
        &[(b"a", 1, INLINE)],
    ),
    // in a code block the text has its style, and the break the style in force
    (
        &[
            (CODE_BLOCK, 0, 0),
            (STRONG, 0, 0),
            (TEXT, 0, 1),
            (SOFT_BREAK, 0, 0),
            (CODE, 1, 1),
            (STRONG_END, 0, 0),
            (CODE_BLOCK_END, 0, 0),
        ],
        &[
            (b" ", 1, BLOCK),
            (b" ", 1, BLOCK),
            (b"a", 1, BLOCK),
            (b" ", 1, BOLD),
            (b"b", 1, INLINE),
        ],
    ),
    (
        &[
            (STRONG, 0, 0),
            (ITEM, 0, 0),
            (TEXT, 0, 1),
            (ITEM_END, 0, 0),
            (STRONG_END, 0, 0),
        ],
        &[(b"-", 1, GRAY), (b" ", 1, GRAY), (b"a", 1, BOLD)],
    ),
    // bold over the head of a table in a heading
    (
        &[
            (HEADING, 0, 0),
            (TABLE, 0, 1),
            (HEAD, 0, 0),
            (CELL, 0, 0),
            (STRONG, 0, 0),
            (TEXT, 0, 1),
            (STRONG_END, 0, 0),
            (HARD_BREAK, 0, 0),
            (CELL_END, 0, 0),
            (HEAD_END, 0, 0),
            (TABLE_END, 0, 0),
            (HEADING_END, 0, 0),
        ],
        &[(b"a", 1, (7, 5, 209, 34)), (b" ", 1, (7, 10, 193, 34))],
    ),
    // a row has no style of its own, also in a code block
    (
        &[
            (CODE_BLOCK, 0, 0),
            (TABLE, 0, 1),
            (ROW, 0, 0),
            (CELL, 0, 0),
            (TEXT, 0, 2),
            (CELL_END, 0, 0),
            (ROW_END, 0, 0),
            (TABLE_END, 0, 0),
            (CODE_BLOCK_END, 0, 0),
        ],
        &[(b"a", 1, BASE), (b"b", 1, BASE)],
    ),
];

#[test]
fn styles_lie_over_one_another_as_the_marks_stand(rt: HostRuntime) -> Result<(), Fail> {
    for (steps, signs) in &STYLED {
        assert!(rt; ends(rt.alloc(), &Utf8, &STYLES, steps, b"abcd", signs)?);
    }
    Ok(())
}

#[test]
fn a_style_takes_away_what_its_mark_adds(rt: HostRuntime) -> Result<(), Fail> {
    let styles = MarkdownStyles {
        bold: Style {
            remove: 1,
            ..Style::PLAIN
        },
        italic: Style {
            remove: 2,
            ..Style::PLAIN
        },
        ..STYLES
    };
    let steps = [
        (STRONG, 0, 0),
        (EMPHASIS, 0, 0),
        (TEXT, 0, 1),
        (EMPHASIS_END, 0, 0),
        (SOFT_BREAK, 0, 0),
        (STRONG_END, 0, 0),
    ];
    let signs = [(b"a".as_slice(), 1, (1, 0, 4, 3)), (b" ", 1, (1, 0, 4, 1))];
    assert!(rt; ends(rt.alloc(), &Utf8, &styles, &steps, b"abcd", &signs)?);
    Ok(())
}

// Texts, and their glyphs by the UTF-8 ruler.
const ODD: [(&'static [u8], &'static [Sign]); 7] = [
    (
        b"\ta",
        &[
            (b" ", 1, BASE),
            (b" ", 1, BASE),
            (b" ", 1, BASE),
            (b" ", 1, BASE),
            (b"a", 1, BASE),
        ],
    ),
    (b"\x1b\x7f", &[(SIGN, 1, BASE), (SIGN, 1, BASE)]),
    // a control takes no marks, and a mark alone has no width
    (
        b"\t\xcc\x81",
        &[
            (b" ", 1, BASE),
            (b" ", 1, BASE),
            (b" ", 1, BASE),
            (b" ", 1, BASE),
            (SIGN, 1, BASE),
        ],
    ),
    (b"\xe2\x80\x8b\xcc\x81", &[(SIGN, 1, BASE)]),
    (b"e\xcc\x81", &[(b"e\xcc\x81", 1, BASE)]),
    (b"\xe6\xbc\xa2", &[(b"\xe6\xbc\xa2", 2, BASE)]),
    // three marks fit behind a letter, and the fourth stands alone
    (
        b"e\xcc\x81\xcc\x82\xcc\x83\xcc\x84",
        &[(b"e\xcc\x81\xcc\x82\xcc\x83", 1, BASE), (SIGN, 1, BASE)],
    ),
];

// U+FFFD, which stands for what has no width.
const SIGN: &[u8] = b"\xef\xbf\xbd";

#[test]
fn a_tab_is_four_spaces_and_no_width_is_the_replacement_character(
    rt: HostRuntime,
) -> Result<(), Fail> {
    for (text, signs) in &ODD {
        let steps = [(TEXT, 0, text.len().min(99) as u8)];
        assert!(rt; ends(rt.alloc(), &Utf8, &STYLES, &steps, text, signs)?);
    }
    Ok(())
}

#[test]
fn each_byte_outside_ascii_is_the_replacement_character_to_the_byte_ruler(
    rt: HostRuntime,
) -> Result<(), Fail> {
    let signs = [
        (b"a".as_slice(), 1, BASE),
        (SIGN, 1, BASE),
        (SIGN, 1, BASE),
        (b"~", 1, BASE),
    ];
    assert!(rt;
        ends(
            rt.alloc(),
            &Bytes,
            &STYLES,
            &[(TEXT, 0, 4)],
            b"a\xc3\xa9~",
            &signs
        )?
    );
    assert!(rt;
        ends(
            rt.alloc(),
            &Bytes,
            &STYLES,
            &[(TEXT, 0, 4)],
            b"a\x00\xff~",
            &signs
        )?
    );
    Ok(())
}

// A line feed is a line's end in a text outside tables, and a control in a code and in an entry.
#[test]
fn a_line_feed_that_ends_no_line_is_the_replacement_character(rt: HostRuntime) -> Result<(), Fail> {
    let code = [(CODE, 0, 3)];
    let inline = [
        (b"a".as_slice(), 1, INLINE),
        (SIGN, 1, INLINE),
        (b"b", 1, INLINE),
    ];
    assert!(rt; ends(rt.alloc(), &Utf8, &STYLES, &code, b"a\nb", &inline)?);
    let entry = [
        (TABLE, 0, 1),
        (ROW, 0, 0),
        (CELL, 0, 0),
        (TEXT, 0, 3),
        (CELL_END, 0, 0),
        (ROW_END, 0, 0),
        (TABLE_END, 0, 0),
    ];
    let plain = [(b"a".as_slice(), 1, BASE), (SIGN, 1, BASE), (b"b", 1, BASE)];
    assert!(rt; ends(rt.alloc(), &Utf8, &STYLES, &entry, b"a\nb", &plain)?);
    assert!(rt;
        ends(
            rt.alloc(),
            &Utf8,
            &STYLES,
            &[(TEXT, 0, 3)],
            b"a\nb",
            &[(b"b", 1, BASE)]
        )?
    );
    Ok(())
}
