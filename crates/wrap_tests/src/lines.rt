// Lines written as text: a capital letter is a wide glyph, a blank is a space.

use glyphs::Glyph;
use style::{Style, Symbol};

pub fn glyph(byte: u8) -> Glyph {
    let symbol = Symbol {
        bytes: u64::from(byte),
        len: 1,
    };
    let width = if byte.is_ascii_uppercase() { 2 } else { 1 };
    Glyph {
        symbol,
        width,
        style: Style::PLAIN,
    }
}
