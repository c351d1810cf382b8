// Layers over layers: what they show, where a put through them goes, and that all else stays.

use super::layered::{paired, windowed};
use super::puts::{LETTER, PLAIN, told};
use grid::Grid;
use page::{Beside, Cell, Surface, Window};
use shelf::Shelf;

fn window<S>(below: S, x: u16, y: u16, width: u16, height: u16) -> Window<S> {
    Window {
        below,
        x,
        y,
        width,
        height,
    }
}

#[test]
fn a_window_is_cut_to_what_lies_below(rt: HostRuntime) {
    let mut cells = [Cell::FRESH; 6];
    let w = window(Grid::new(&mut cells, 3, 2), 1, 1, 2, 1);
    assert_eq!(rt; (w.width(), w.height()), (2, 1));
    let w = window(w.into_inner(), 1, 1, 3, 2);
    assert_eq!(rt; (w.width(), w.height()), (2, 1));
    let w = window(w.into_inner(), 3, 0, 9, 9);
    assert_eq!(rt; (w.width(), w.height()), (0, 2));
    assert_eq!(rt; w.read(0, 0), None);
    let w = window(w.into_inner(), 65535, 65535, 65535, 65535);
    assert_eq!(rt; (w.width(), w.height()), (0, 0));
}

#[test]
fn a_pair_is_as_high_as_the_lower_and_as_wide_as_both(rt: HostRuntime) {
    let mut cells = [Cell::FRESH; 6];
    let mut bytes = [0; 512];
    let pair = Beside {
        left: Grid::new(&mut cells, 3, 2),
        right: Shelf::new(&mut bytes, 4, 3),
    };
    assert_eq!(rt; (pair.width(), pair.height()), (7, 2));
    assert_eq!(rt; pair.read(6, 1), Some(Cell::FRESH));
    assert_eq!(rt; pair.read(7, 1), None);
    assert_eq!(rt; pair.read(6, 2), None);
}

#[test]
fn a_put_through_a_window_over_a_pair_reaches_the_cell_below(rt: HostRuntime) {
    let mut cells = [Cell::FRESH; 6];
    let mut bytes = [0; 512];
    let pair = Beside {
        left: Grid::new(&mut cells, 3, 2),
        right: Shelf::new(&mut bytes, 4, 3),
    };
    let mut w = window(pair, 1, 0, 5, 9);
    assert_eq!(rt; (w.width(), w.height()), (5, 2));
    assert_eq!(rt; told(w.put(1, 1, b"a", PLAIN)), (0, None));
    assert_eq!(rt; told(w.put(2, 0, b"a", PLAIN)), (0, None));
    assert_eq!(rt; told(w.put(5, 0, b"a", PLAIN)), (6, None));
    assert_eq!(rt; w.read(1, 1), Some(LETTER));
    let (grid, shelf) = w.into_inner().into_parts();
    assert_eq!(rt; grid.read(2, 1), Some(LETTER));
    assert_eq!(rt; grid.read(1, 1), Some(Cell::FRESH));
    assert_eq!(rt; shelf.read(0, 0), Some(LETTER));
    assert_eq!(rt; shelf.read(1, 0), Some(Cell::FRESH));
    assert_eq!(rt; shelf.read(0, 2), Some(Cell::FRESH));
}

#[test]
fn windows_lie_in_windows(rt: HostRuntime) {
    let mut bytes = [0; 512];
    let outer = window(Shelf::new(&mut bytes, 5, 5), 1, 1, 3, 3);
    let mut inner = window(outer, 1, 2, 9, 9);
    assert_eq!(rt; (inner.width(), inner.height()), (2, 1));
    assert_eq!(rt; told(inner.put(1, 0, b"a", PLAIN)), (0, None));
    assert_eq!(rt; told(inner.put(1, 1, b"a", PLAIN)), (6, None));
    let shelf = inner.into_inner().into_inner();
    assert_eq!(rt; shelf.read(3, 3), Some(LETTER));
}

#[test]
fn the_surfaces_come_back_out_of_their_layers(rt: HostRuntime) {
    let mut cells = [Cell::FRESH; 6];
    let mut bytes = [0; 512];
    let (grid, r) = windowed(Grid::new(&mut cells, 3, 2), 1, 1, 0, 0, b"a", PLAIN);
    assert_eq!(rt; told(r), (0, None));
    let (grid, shelf, r) = paired(grid, Shelf::new(&mut bytes, 1, 1), 3, 0, b"a", PLAIN);
    assert_eq!(rt; told(r), (0, None));
    assert_eq!(rt; grid.read(1, 1), Some(LETTER));
    assert_eq!(rt; shelf.read(0, 0), Some(LETTER));
}
