// The refusals of a grid at their edges and one past them, and their order.

use super::puts::{PLAIN, told};
use grid::Grid;
use page::{Cell, Surface};
use style::Symbol;

// What memory held before a grid was made over it.
const OLD: Cell = Cell {
    symbol: Symbol::EMPTY,
    fg: 3,
    bg: 4,
    modifiers: 5,
};

#[test]
fn a_grid_has_sides_of_1_to_1024_and_exactly_its_cells(rt: HostRuntime) {
    let cells = [Cell::FRESH; 1025];
    assert_eq!(rt; told(Grid::check(&cells[0..1], 1, 1)), (0, None));
    assert_eq!(rt; told(Grid::check(&cells[0..1024], 1024, 1)), (0, None));
    assert_eq!(rt; told(Grid::check(&cells[0..1024], 1, 1024)), (0, None));
    assert_eq!(rt; told(Grid::check(&cells[0..0], 0, 1)), (6, None));
    assert_eq!(rt; told(Grid::check(&cells[0..0], 1, 0)), (6, None));
    assert_eq!(rt; told(Grid::check(&cells, 1025, 1)), (6, None));
    assert_eq!(rt; told(Grid::check(&cells, 1, 1025)), (6, None));
    assert_eq!(rt; told(Grid::check(&cells[0..5], 3, 2)), (4, Some(6)));
    assert_eq!(rt; told(Grid::check(&cells[0..6], 3, 2)), (0, None));
    assert_eq!(rt; told(Grid::check(&cells[0..7], 3, 2)), (4, Some(6)));
    assert_eq!(rt; told(Grid::check(&cells[0..3], 65535, 65535)), (6, None));
    assert_eq!(rt;
        told(Grid::check(&cells[0..3], 1024, 1024)),
        (4, Some(1048576))
    );
}

#[test]
fn a_new_grid_is_fresh_whatever_its_memory_held(rt: HostRuntime) {
    let mut cells = [OLD; 6];
    let g = Grid::new(&mut cells, 3, 2);
    assert_eq!(rt; g.width(), 3);
    assert_eq!(rt; g.height(), 2);
    assert_eq!(rt; g.read(2, 1), Some(Cell::FRESH));
    assert_eq!(rt; g.read(3, 1), None);
    assert_eq!(rt; g.read(2, 2), None);
}

#[test]
fn a_grid_over_refused_memory_has_no_place_and_leaves_it(rt: HostRuntime) {
    let mut cells = [OLD; 5];
    {
        let mut g = Grid::new(&mut cells, 3, 2);
        assert_eq!(rt; g.width(), 0);
        assert_eq!(rt; g.height(), 0);
        assert_eq!(rt; told(g.put(0, 0, b"a", PLAIN)), (6, None));
    }
    assert_eq!(rt; cells[0], OLD);
    assert_eq!(rt; cells[4], OLD);
}
