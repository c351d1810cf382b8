// What a put does to a cell, and its refusals at their edges and one past them, alike on every surface.

use grid::Grid;
use page::{Beside, Cell, Refusal, Surface, Window};
use shelf::Shelf;
use std::process::Abort;
use style::{BOLD, ITALIC, Style, Symbol};

pub const PLAIN: Style = Style::PLAIN;

// The letter a, put on a fresh cell.
pub const LETTER: Cell = Cell {
    symbol: Symbol { bytes: 97, len: 1 },
    fg: 0,
    bg: 0,
    modifiers: 0,
};

const NO_SUCH_FRONT: Style = Style {
    fg: 17,
    bg: 0,
    add: 0,
    remove: 0,
};

const NO_SUCH_BACK: Style = Style {
    fg: 0,
    bg: 17,
    add: 0,
    remove: 0,
};

const LAST_COLOURS: Style = Style {
    fg: 16,
    bg: 16,
    add: 255,
    remove: 0,
};

// The number and the value that a call tells, 0 where it is admitted.
pub fn told(r: Result<(), Refusal>) -> (u8, Option<u64>) {
    r.err().map_or((0, None), |e| (e.number(), e.value()))
}

fn edges<S: Surface>(rt: &impl Abort, s: &mut S) {
    assert_eq!(rt; told(s.put(2, 1, b"12345678", LAST_COLOURS)), (0, None));
    assert_eq!(rt; told(s.put(3, 1, b"a", PLAIN)), (6, None));
    assert_eq!(rt; told(s.put(2, 2, b"a", PLAIN)), (6, None));
    assert_eq!(rt; told(s.put(65535, 65535, b"a", PLAIN)), (6, None));
    assert_eq!(rt; told(s.put(2, 1, b"123456789", PLAIN)), (7, None));
    assert_eq!(rt; told(s.put(2, 1, b"a", NO_SUCH_FRONT)), (9, Some(0)));
    assert_eq!(rt; told(s.put(2, 1, b"a", NO_SUCH_BACK)), (9, Some(0)));
    let last = Cell {
        symbol: Symbol {
            bytes: 0x3837363534333231,
            len: 8,
        },
        fg: 16,
        bg: 16,
        modifiers: 255,
    };
    assert_eq!(rt; s.read(2, 1), Some(last), "no refused put changed the cell");
}

fn orders<S: Surface>(rt: &impl Abort, s: &mut S) {
    assert_eq!(rt; told(s.put(3, 0, b"123456789", PLAIN)), (6, None));
    assert_eq!(rt; told(s.put(3, 0, b"a", NO_SUCH_FRONT)), (6, None));
    assert_eq!(rt; told(s.put(3, 0, b"123456789", NO_SUCH_BACK)), (6, None));
    assert_eq!(rt; told(s.put(0, 0, b"123456789", NO_SUCH_FRONT)), (7, None));
}

// Symbols are replaced, unset colours stay, modifiers are joined and then dropped.
fn overlays<S: Surface>(rt: &impl Abort, s: &mut S) {
    let first = Style {
        fg: 3,
        bg: 4,
        add: BOLD,
        remove: 0,
    };
    let second = Style {
        fg: 0,
        bg: 5,
        add: ITALIC,
        remove: BOLD,
    };
    let both = Style {
        fg: 0,
        bg: 0,
        add: 4,
        remove: 4,
    };
    assert_eq!(rt; told(s.put(1, 0, b"ab", first)), (0, None));
    assert_eq!(rt; told(s.put(1, 0, b"", second)), (0, None));
    assert_eq!(rt;
        s.read(1, 0),
        Some(Cell {
            symbol: Symbol::EMPTY,
            fg: 3,
            bg: 5,
            modifiers: ITALIC,
        })
    );
    assert_eq!(rt; told(s.put(1, 0, b"c", both)), (0, None));
    assert_eq!(rt;
        s.read(1, 0),
        Some(Cell {
            symbol: Symbol { bytes: 99, len: 1 },
            fg: 3,
            bg: 5,
            modifiers: ITALIC,
        })
    );
    assert_eq!(rt; s.read(0, 0), Some(Cell::FRESH));
    assert_eq!(rt; s.read(2, 0), Some(Cell::FRESH));
}

// A surface of 3 by 2, all fresh.
fn rules<S: Surface>(rt: &impl Abort, s: &mut S) {
    assert_eq!(rt; s.width(), 3);
    assert_eq!(rt; s.height(), 2);
    overlays(rt, s);
    edges(rt, s);
    orders(rt, s);
}

#[test]
fn a_grid_keeps_the_rules_of_a_put(rt: HostRuntime) {
    let mut cells = [Cell::FRESH; 6];
    rules(&rt, &mut Grid::new(&mut cells, 3, 2));
}

#[test]
fn a_shelf_keeps_the_rules_of_a_put(rt: HostRuntime) {
    let mut bytes = [7; 512];
    rules(&rt, &mut Shelf::new(&mut bytes, 3, 2));
}

#[test]
fn a_window_keeps_the_rules_of_a_put(rt: HostRuntime) {
    let mut cells = [Cell::FRESH; 20];
    let mut w = Window {
        below: Grid::new(&mut cells, 5, 4),
        x: 1,
        y: 1,
        width: 3,
        height: 2,
    };
    rules(&rt, &mut w);
}

#[test]
fn a_pair_keeps_the_rules_of_a_put(rt: HostRuntime) {
    let mut cells = [Cell::FRESH; 4];
    let mut bytes = [7; 512];
    let mut pair = Beside {
        left: Grid::new(&mut cells, 2, 2),
        right: Shelf::new(&mut bytes, 1, 9),
    };
    rules(&rt, &mut pair);
}
