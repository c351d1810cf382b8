// What stands on a page, held against what a test expects there.

use page::{Cell, Surface};
use style::{Style, Symbol};

// Cells as a page has them before a paint: something else in each place and in each part.
pub fn old_cell(x: u16, y: u16) -> Cell {
    let (x, y) = (u32::from(x), u32::from(y));
    Cell {
        symbol: Symbol {
            bytes: u64::from(97 + (7 * x + 3 * y) % 26),
            len: 1,
        },
        fg: ((x + y) % 17) as u8,
        bg: ((x + 3 * y) % 17) as u8,
        modifiers: ((5 * x + 11 * y) % 256) as u8,
    }
}

// Puts old content on every cell of a fresh row.
fn age_row<S: Surface>(page: &mut S, y: u16) {
    for x in 0..page.width() {
        let old = old_cell(x, y);
        let style = Style {
            fg: old.fg,
            bg: old.bg,
            add: old.modifiers,
            remove: 0,
        };
        let symbol = old.symbol.to_bytes();
        let _ = page.put(x, y, &symbol[..1], style);
    }
}

// Puts old content on every cell of a fresh page.
pub fn age<S: Surface>(page: &mut S) {
    for y in 0..page.height() {
        age_row(page, y);
    }
}

// What is left of a row's text behind the symbol of a cell, if that comes next; behind the text there
// are spaces.
fn behind(text: &[u8], symbol: Symbol) -> Option<&[u8]> {
    if text.is_empty() && symbol == Symbol::SPACE {
        return Some(text);
    }
    let (first, rest) = text.split_at_checked(usize::from(symbol.len))?;
    if Symbol::new(first) == Some(symbol) {
        Some(rest)
    } else {
        None
    }
}

fn row_shows<S: Surface>(page: &S, y: u16, row: &str) -> bool {
    let mut text = row.as_bytes();
    for x in 0..page.width() {
        let symbol = symbol_at(page, x, y).unwrap_or(Symbol::EMPTY);
        match behind(text, symbol) {
            Some(rest) => text = rest,
            None => return false,
        }
    }
    text.is_empty()
}

// Whether the page shows exactly these rows, spaces at their ends aside.
pub fn shows<S: Surface>(page: &S, rows: &[&str]) -> bool {
    let mut y = 0u16;
    for row in rows {
        if !row_shows(page, y, row) {
            return false;
        }
        y = y.saturating_add(1);
    }
    y == page.height()
}

// The symbol of a cell.
pub fn symbol_at<S: Surface>(page: &S, x: u16, y: u16) -> Option<Symbol> {
    page.read(x, y).map(|cell| cell.symbol)
}

// The colours and the modifiers of a cell, by a sign.
pub type Look = (u8, (u8, u8, u8));

// Whether a cell looks as its sign says.
fn cell_looks(cell: Cell, sign: u8, looks: &[Look]) -> bool {
    let shown = (cell.fg, cell.bg, cell.modifiers);
    looks.contains(&(sign, shown))
}

// Whether the row's cells look as the signs say.
fn row_looks<S: Surface>(page: &S, y: u16, signs: &[u8], looks: &[Look]) -> bool {
    let mut x = 0u16;
    for sign in signs {
        match page.read(x, y) {
            Some(cell) if cell_looks(cell, *sign, looks) => x = x.saturating_add(1),
            _ => return false,
        }
    }
    x == page.width()
}

// Whether every cell of the page looks as its sign says.
pub fn look<S: Surface>(page: &S, rows: &[&str], looks: &[Look]) -> bool {
    let mut y = 0u16;
    for row in rows {
        if !row_looks(page, y, row.as_bytes(), looks) {
            return false;
        }
        y = y.saturating_add(1);
    }
    y == page.height()
}

// Whether a row of two pages is the same.
fn same_row<L: Surface, R: Surface>(page: &L, other: &R, y: u16) -> bool {
    for x in 0..page.width() {
        if page.read(x, y) != other.read(x, y) {
            return false;
        }
    }
    true
}

// Whether two pages are the same in the rows from `from` up to `to`.
pub fn look_alike<L: Surface, R: Surface>(page: &L, other: &R, from: u16, to: u16) -> bool {
    for y in from..to {
        if !same_row(page, other, y) {
            return false;
        }
    }
    true
}

// Whether two pages are of one size and the same in every cell.
pub fn same<L: Surface, R: Surface>(page: &L, other: &R) -> bool {
    page.sides() == other.sides() && look_alike(page, other, 0, page.height())
}

fn row_stays<S: Surface>(page: &S, y: u16) -> bool {
    for x in 0..page.width() {
        if page.read(x, y) != Some(old_cell(x, y)) {
            return false;
        }
    }
    true
}

// Whether old content stands in the rows from `from` up to `to`.
pub fn stay<S: Surface>(page: &S, from: u16, to: u16) -> bool {
    for y in from..to {
        if !row_stays(page, y) {
            return false;
        }
    }
    true
}
