//! Examples for the crates `clusters` and `glyphs`: every edge of the width ranges, what is text and what
//! is not, marks around the limit of 8 bytes, and glyphs in lent memory.

#![tactic(auto)]

use clusters::columns;
use glyphs::{Bytes, Clusters, Glyph, Ruler, Utf8, count_glyphs, cut_at, sanitize};
use style::{Style, Symbol};

// Whether a ruler admits a text and cuts it into clusters of these lengths and widths.
fn cuts_into<R: Ruler>(ruler: &R, text: &[u8], expected: &[(usize, u8)]) -> bool {
    let cuts = Clusters::new(ruler, text).map(|cut| (cut.bytes.len(), cut.width));
    ruler.admits(text) && cuts.eq(expected.iter().copied())
}

// Whether a glyph has these bytes, this width and this style.
fn is_glyph(g: Glyph, bytes: &[u8], width: u8, style: Style) -> bool {
    Symbol::new(bytes).is_some_and(|symbol| {
        g == Glyph {
            symbol,
            width,
            style,
        }
    })
}

#[cfg(test)]
mod tests {
    use super::*;

    const BOLD: Style = Style {
        fg: 1,
        bg: 2,
        add: 1,
        remove: 0,
    };

    const BLANK: Glyph = Glyph {
        symbol: Symbol::EMPTY,
        width: 0,
        style: Style::PLAIN,
    };

    const RANGES: [(u32, u32, u8); 17] = [
        (0, 0x1F, 0),
        (0x7F, 0x9F, 0),
        (0x300, 0x36F, 0),
        (0x600, 0x605, 0),
        (0x1100, 0x115F, 2),
        (0x200B, 0x200F, 0),
        (0x2E80, 0x303E, 2),
        (0x3041, 0x4DBF, 2),
        (0x4E00, 0x9FFF, 2),
        (0xAC00, 0xD7A3, 2),
        (0xF900, 0xFAFF, 2),
        (0xFE30, 0xFE4F, 2),
        (0xFEFF, 0xFEFF, 0),
        (0xFF01, 0xFF60, 2),
        (0xFFE0, 0xFFE6, 2),
        (0x2_0000, 0x2_FFFD, 2),
        (0x3_0000, 0x3_FFFD, 2),
    ];

    // Whether a code point by itself is one cluster of this width.
    fn takes(code: u32, width: u8) -> bool {
        let Some(c) = char::from_u32(code) else {
            return false;
        };
        let mut bytes = [0u8; 4];
        let text = c.encode_utf8(&mut bytes).as_bytes();
        columns(code) == width && cuts_into(&Utf8, text, &[(text.len(), width)])
    }

    #[test]
    fn a_cluster_is_cut_out_at_a_place(rt: HostRuntime) {
        // two letters, the second with an accent of its own, and a wide character
        let text = "ae\u{301}緑".as_bytes();
        let cut = cut_at(&Utf8, text, 1);
        assert!(rt; cut.is_some_and(|c| c.bytes == b"e\xCC\x81".as_slice() && c.width == 1));
        let cut = cut_at(&Utf8, text, 4);
        assert!(rt; cut.is_some_and(|c| c.bytes == b"\xE7\xB7\x91".as_slice() && c.width == 2));
        let cut = cut_at(&Bytes, text, 4);
        assert!(rt; cut.is_some_and(|c| c.bytes == b"\xE7".as_slice()));
        assert!(rt; cut_at(&Utf8, text, 7).is_none());
    }

    #[test]
    fn the_edges_of_every_range_and_their_neighbours(rt: HostRuntime) {
        for &(low, high, width) in &RANGES {
            assert!(rt; takes(low, width));
            assert!(rt; takes(high, width));
            assert!(rt; low == 0 || takes(low.saturating_sub(1), 1));
            assert!(rt; takes(high.saturating_add(1), 1));
        }
    }

    #[test]
    fn the_edges_of_the_code_points(rt: HostRuntime) {
        assert!(rt; takes(0xD7FF, 1));
        assert!(rt; takes(0xE000, 1));
        assert!(rt; takes(0x10_FFFF, 1));
    }

    #[test]
    fn two_bytes_are_text_as_utf_8_says(rt: HostRuntime) {
        for a in 0..=255u8 {
            for b in 0..=255u8 {
                let text = [a, b];
                let ascii = a < 0x80 && b < 0x80;
                let pair = matches!((a, b), (0xC2..0xE0, 0x80..0xC0));
                assert!(rt; Utf8.admits(&text) == (ascii || pair));
                assert!(rt; Bytes.admits(&text));
            }
        }
    }

    // Overlong forms, surrogates, what lies above the last code point, truncated sequences, and stray bytes.
    const MALFORMED: [&[u8]; 18] = [
        b"\xC0\x80",
        b"\xC1\xBF",
        b"\xE0\x80\x80",
        b"\xE0\x9F\xBF",
        b"\xF0\x80\x80\x80",
        b"\xF0\x8F\xBF\xBF",
        b"\xED\xA0\x80",
        b"\xED\xBF\xBF",
        b"\xF4\x90\x80\x80",
        b"\xF5\x80\x80\x80",
        b"\xF8\x88\x80\x80\x80",
        b"\xFF",
        b"\xC3",
        b"\xE3\x81",
        b"\xF0\x9F\x98",
        b"\xE3\x81a",
        b"\x80",
        b"a\xBF",
    ];

    #[test]
    fn malformed_bytes_are_no_text(rt: HostRuntime) {
        for text in &MALFORMED {
            assert!(rt; !Utf8.admits(text) && Bytes.admits(text));
        }
        assert!(rt; Utf8.admits(b""));
    }

    // A text, and the lengths and widths of its clusters.
    #[derive(Clone, Copy)]
    struct Case {
        text: &'static [u8],
        clusters: &'static [(usize, u8)],
    }

    const MARKED: [Case; 12] = [
        // a base of one byte takes up to three marks
        Case {
            text: b"a\xCC\x81",
            clusters: &[(3, 1)],
        },
        Case {
            text: b"a\xCC\x81\xCC\x80",
            clusters: &[(5, 1)],
        },
        Case {
            text: b"a\xCC\x81\xCC\x80\xCD\xAF",
            clusters: &[(7, 1)],
        },
        Case {
            text: b"a\xCC\x81\xCC\x80\xCD\xAF\xCC\x81b",
            clusters: &[(7, 1), (2, 0), (1, 1)],
        },
        // one of two bytes three, of three bytes two, of four bytes two
        Case {
            text: b"\xC3\xA9\xCC\x81\xCC\x81\xCC\x81",
            clusters: &[(8, 1)],
        },
        Case {
            text: b"\xC3\xA9\xCC\x81\xCC\x81\xCC\x81\xCC\x81",
            clusters: &[(8, 1), (2, 0)],
        },
        Case {
            text: b"\xE3\x81\x82\xCC\x81\xCC\x81\xCC\x81\xCC\x81",
            clusters: &[(7, 2), (4, 0)],
        },
        Case {
            text: b"\xF0\x9F\x91\xA8\xCC\x81\xCC\x81\xCC\x81",
            clusters: &[(8, 1), (2, 0)],
        },
        // a leading mark, a control, and a code point of no width
        Case {
            text: b"\xCC\x81\xCC\x81a",
            clusters: &[(4, 0), (1, 1)],
        },
        Case {
            text: b"\n\xCC\x81",
            clusters: &[(1, 0), (2, 0)],
        },
        Case {
            text: b"\xC2\x85\xCC\x81",
            clusters: &[(2, 0), (2, 0)],
        },
        Case {
            text: b"\xE2\x80\x8B\xCC\x81",
            clusters: &[(5, 0)],
        },
    ];

    #[test]
    fn marks_join_what_they_fit_to(rt: HostRuntime) {
        for case in &MARKED {
            assert!(rt; cuts_into(&Utf8, case.text, case.clusters));
        }
    }

    #[test]
    fn emoji_joined_by_zwj_are_clusters_of_their_own(rt: HostRuntime) {
        let family = b"\xF0\x9F\x91\xA8\xE2\x80\x8D\xF0\x9F\x91\xA9\xE2\x80\x8D\xF0\x9F\x91\xA7";
        assert!(rt; cuts_into(&Utf8, family, &[(4, 1), (3, 0), (4, 1), (3, 0), (4, 1)]));
    }

    #[test]
    fn a_japanese_price_line(rt: HostRuntime) {
        let line = "茶 ¥1,200".as_bytes();
        assert!(rt;
            cuts_into(
                &Utf8,
                line,
                &[
                    (3, 2),
                    (1, 1),
                    (2, 1),
                    (1, 1),
                    (1, 1),
                    (1, 1),
                    (1, 1),
                    (1, 1),
                ],
            )
        );
        assert_eq!(rt; count_glyphs(&Utf8, line), 8);
    }

    #[test]
    fn control_bytes_have_no_width_under_both_rulers(rt: HostRuntime) {
        let text = b"\x00\x1B\x7F ~";
        let expected = [(1, 0), (1, 0), (1, 0), (1, 1), (1, 1)];
        assert!(rt; cuts_into(&Utf8, text, &expected));
        assert!(rt; cuts_into(&Bytes, text, &expected));
    }

    #[test]
    fn the_byte_ruler_cuts_every_byte(rt: HostRuntime) {
        assert!(rt; cuts_into(&Bytes, b"a\xC3\xA9\xFF", &[(1, 1), (1, 0), (1, 0), (1, 0)]));
        assert!(rt; cuts_into(&Bytes, b"", &[]));
    }

    #[test]
    fn glyphs_stand_in_their_places_and_all_else_stays(rt: HostRuntime) {
        let mut memory = [BLANK; 9];
        let text = b"a\t\x1Be\xCC\x81";
        assert_eq!(rt; count_glyphs(&Utf8, text), 7);
        assert_eq!(rt; sanitize(&Utf8, text, BOLD, &mut memory, 1), 7);
        assert!(rt; is_glyph(memory[0], b"", 0, Style::PLAIN));
        assert!(rt; is_glyph(memory[1], b"a", 1, BOLD));
        for g in &memory[2..6] {
            assert!(rt; g.is_space() && is_glyph(*g, b" ", 1, BOLD));
        }
        assert!(rt; is_glyph(memory[6], b"\xEF\xBF\xBD", 1, BOLD));
        assert!(rt; is_glyph(memory[7], b"e\xCC\x81", 1, BOLD));
        assert!(rt; is_glyph(memory[8], b"", 0, Style::PLAIN));
    }

    #[test]
    fn glyphs_stop_where_the_memory_ends(rt: HostRuntime) {
        let mut memory = [BLANK; 4];
        assert_eq!(rt; sanitize(&Bytes, b"xy\t", BOLD, &mut memory, 1), 3);
        assert!(rt; is_glyph(memory[2], b"y", 1, BOLD));
        assert!(rt; memory[3].is_space());
        assert_eq!(rt; sanitize(&Bytes, b"z", BOLD, &mut memory, 4), 0);
        assert_eq!(rt; sanitize(&Bytes, b"z", BOLD, &mut memory, usize::MAX), 0);
        assert!(rt; memory[3].is_space());
    }

    #[test]
    fn wide_glyphs_keep_their_bytes_and_width(rt: HostRuntime) {
        let mut memory = [BLANK; 2];
        assert_eq!(rt; sanitize(&Utf8, "日a".as_bytes(), BOLD, &mut memory, 0), 2);
        assert!(rt; is_glyph(memory[0], b"\xE6\x97\xA5", 2, BOLD));
        assert!(rt; is_glyph(memory[1], b"a", 1, BOLD));
        assert!(rt; !memory[0].is_space());
    }
}
