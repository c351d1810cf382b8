// A grid: a page whose cells are records in lent memory, row by row.
//
// A page has sides of 1 to 1,024 and exactly as many cells as places. `check` tells whether lent cells
// make such a page, `new` makes it, all cells fresh. Its main promise: a put changes one lent cell, as
// the rule of a put says, and nothing else.

#![tactic(auto)]

ghost use Rattle.std.specs.Prelude.{◌≡◌, ℕ, ◌+◌, ◌*◌, ◌<◌, length, replicate, is_ok, if◌then◌else◌, slice_set};
ghost use Rattle.style.specs.Symbols.{symbol_of};
ghost use Rattle.page.specs.Cells.{fresh};
ghost use Rattle.page.specs.Refusals.{told, memory_answer, memory_told};
ghost use Rattle.page.specs.Surfaces.{Put};
ghost use Rattle.page.specs.Rows.{fits};
ghost use Rattle.grid.specs.Memory.{cell_put};
ghost use Rattle.grid.specs.Grids.{grid_shows, grid_held, grid_rest, GridLawful};

use page::{Cell, Refusal, Sides, Surface};
use style::Style;

// Makes each cell fresh.
fn freshen(cells: &mut [Cell])
    ensures after { cells.new ≡ replicate (length cells.old) fresh }
{
    cells.fill(Cell::FRESH);
}

// Writes one cell; the others stay.
fn write(cells: &mut [Cell], i: usize, cell: Cell)
    requires { i < length cells.old }
    ensures after { cells.new ≡ slice_set cells.old i cell }
{
    cells[i] = cell;
}

#[derive(Drop)]
pub struct Grid<'a> {
    pub cells: &'a mut [Cell],
    pub width: u16,
    pub height: u16,
}

impl<'a> Grid<'a> {
    // Whether these cells make a page of these sides.
    pub fn check(cells: &[Cell], width: u16, height: u16) -> Result<(), Refusal>
        ensures value { result ≡ memory_answer width height (width * height) (length cells.now) }
        ensures numbers { told result ≡ memory_told width height (width * height) (length cells.now) }
    {
        let sides = Sides { width, height };
        sides.check_memory(sides.cells(), cells.len())
    }

    // The page of these sides over cells that `check` admits, all fresh. Over others, which stay as they are,
    // it has sides of 0.
    pub fn new(cells: &'a mut [Cell], width: u16, height: u16) -> Grid<'a>
        ensures memory { result.cells.now ≡ (if fits width height (width * height) (length cells.old) then replicate (width * height) fresh else cells.old) }
        ensures wide { (grid_shows result).wide ≡ (if fits width height (width * height) (length cells.old) then width else 0) }
        ensures high { (grid_shows result).high ≡ (if fits width height (width * height) (length cells.old) then height else 0) }
        ensures cells { (i j : ℕ) → (grid_shows result).cell i j ≡ fresh }
        ensures held { result.cells.ghost_name ≡ cells.entry.ghost_name }
        ensures lawful { GridLawful result }
    {
        if Grid::check(cells, width, height).is_err() {
            return Grid {
                cells,
                width: 0,
                height: 0,
            };
        }
        freshen(cells);
        Grid {
            cells,
            width,
            height,
        }
    }
}

impl<'a> Surface for Grid<'a> {
    ghost shows = { grid_shows };

    ghost held = { grid_held };

    ghost rest = { grid_rest };

    ghost lawful = { GridLawful };

    fn sides(&self) -> Sides {
        let sides = Sides {
            width: self.width,
            height: self.height,
        };
        sides.if_admitted(Grid::check(self.cells, self.width, self.height))
    }

    fn read(&self, x: u16, y: u16) -> Option<Cell> {
        let sides = self.sides();
        if !sides.hold(x, y) {
            return None;
        }
        Some(self.cells[sides.place(x, y)].tidy())
    }

    fn put(&mut self, x: u16, y: u16, symbol: &[u8], style: Style) -> Result<(), Refusal>
        ensures after { Put grid_shows grid_held grid_rest GridLawful x y symbol.now style self.old self.new result }
        ensures memory { self.new.cells.now ≡ (if is_ok result then cell_put self.old.cells.now (y * self.old.width + x) (symbol_of symbol.now) style else self.old.cells.now) }
    {
        let sides = self.sides();
        let symbol = sides.admit(x, y, symbol, style)?;
        let cell = self.read(x, y).unwrap().inked(symbol, style);
        write(self.cells, sides.place(x, y), cell);
        Ok(())
    }
}
