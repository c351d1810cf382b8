// A shelf: a page as bytes, in blocks of 512.
//
// A block holds 31 cells of 16 bytes, row by row, and a tail of 16 bytes: the block's number, the sides of
// the page, zeros. `check` and `new` make a fresh shelf in lent bytes, `check_open` and `open` take lent
// bytes that hold one already. Its main promise: a put changes the 16 bytes of one cell, as the rule of a
// put says, and leaves every block lawful.

#![tactic(auto)]

ghost use Rattle.std.specs.Prelude.{◌≡◌, ℕ, ◌+◌, ◌*◌, length, is_some, is_ok, if◌then◌else◌};
ghost use Rattle.style.specs.Symbols.{symbol_of};
ghost use Rattle.page.specs.Cells.{fresh};
ghost use Rattle.page.specs.Refusals.{told, memory_answer, memory_told};
ghost use Rattle.page.specs.Rows.{fits};
ghost use Rattle.page.specs.Surfaces.{Put};
ghost use Rattle.shelf.specs.Bytes.{bytes_put};
ghost use Rattle.shelf.specs.Blocks.{shelf_length, shelved, wide_of, high_of, fault, open_answer, open_told};
ghost use Rattle.shelf.specs.Shelves.{shelf_shows, shelf_held, shelf_rest, ShelfLawful};

mod checks;
mod layout;

use checks::{blocks, opened, opened_or_none};
use layout::{BLOCK, cell_from, fill_fresh, slot, slot_at, write_cell};
use page::{Cell, Refusal, Sides, Surface};
use style::Style;

// Makes the bytes a page of these sides, all cells fresh.
fn freshen(bytes: &mut [u8], sides: Sides)
    requires { length bytes.old ≡ shelf_length sides.width sides.height }
    ensures after { bytes.new ≡ shelved sides.width sides.height (λ _. fresh) }
{
    fill_fresh(bytes, sides);
}

#[derive(Drop)]
pub struct Shelf<'a> {
    pub bytes: &'a mut [u8],
    pub width: u16,
    pub height: u16,
}

impl<'a> Shelf<'a> {
    // Whether these bytes make a fresh page of these sides.
    pub fn check(bytes: &[u8], width: u16, height: u16) -> Result<(), Refusal>
        ensures value { result ≡ memory_answer width height (shelf_length width height) (length bytes.now) }
        ensures numbers { told result ≡ memory_told width height (shelf_length width height) (length bytes.now) }
    {
        let sides = Sides { width, height };
        sides.check_memory(BLOCK * blocks(sides), bytes.len())
    }

    // The page of these sides over bytes that `check` admits, all cells fresh. Over others, which stay as
    // they are, it has sides of 0.
    pub fn new(bytes: &'a mut [u8], width: u16, height: u16) -> Shelf<'a>
        ensures memory { result.bytes.now ≡ (if fits width height (shelf_length width height) (length bytes.old) then shelved width height (λ _. fresh) else bytes.old) }
        ensures wide { (shelf_shows result).wide ≡ (if fits width height (shelf_length width height) (length bytes.old) then width else 0) }
        ensures high { (shelf_shows result).high ≡ (if fits width height (shelf_length width height) (length bytes.old) then height else 0) }
        ensures cells { (i j : ℕ) → (shelf_shows result).cell i j ≡ fresh }
        ensures held { result.bytes.ghost_name ≡ bytes.entry.ghost_name }
        ensures lawful { ShelfLawful result }
    {
        if Shelf::check(bytes, width, height).is_err() {
            return Shelf {
                bytes,
                width: 0,
                height: 0,
            };
        }
        freshen(bytes, Sides { width, height });
        Shelf {
            bytes,
            width,
            height,
        }
    }

    // Whether these bytes hold a page.
    pub fn check_open(bytes: &[u8]) -> Result<(), Refusal>
        ensures value { result ≡ open_answer (fault bytes.now) }
        ensures numbers { told result ≡ open_told (fault bytes.now) }
    {
        opened(bytes)?;
        Ok(())
    }

    // The page that bytes which `check_open` admits hold. Over others it has sides of 0. The bytes stay.
    pub fn open(bytes: &'a mut [u8]) -> Shelf<'a>
        ensures memory { result.bytes.now ≡ bytes.old }
        ensures wide { (shelf_shows result).wide ≡ (if is_some (fault bytes.old) then 0 else wide_of bytes.old) }
        ensures high { (shelf_shows result).high ≡ (if is_some (fault bytes.old) then 0 else high_of bytes.old) }
        ensures held { result.bytes.ghost_name ≡ bytes.entry.ghost_name }
        ensures lawful { ShelfLawful result }
    {
        let Sides { width, height } = opened_or_none(bytes);
        Shelf {
            bytes,
            width,
            height,
        }
    }
}

impl<'a> Surface for Shelf<'a> {
    ghost shows = { shelf_shows };

    ghost held = { shelf_held };

    ghost rest = { shelf_rest };

    ghost lawful = { ShelfLawful };

    fn sides(&self) -> Sides {
        let sides = Sides {
            width: self.width,
            height: self.height,
        };
        sides.if_admitted(Shelf::check(self.bytes, self.width, self.height))
    }

    fn read(&self, x: u16, y: u16) -> Option<Cell> {
        let sides = self.sides();
        if !sides.hold(x, y) {
            return None;
        }
        Some(cell_from(slot_at(self.bytes, slot(sides.place(x, y)))).tidy())
    }

    fn put(&mut self, x: u16, y: u16, symbol: &[u8], style: Style) -> Result<(), Refusal>
        ensures after { Put shelf_shows shelf_held shelf_rest ShelfLawful x y symbol.now style self.old self.new result }
        ensures memory { self.new.bytes.now ≡ (if is_ok result then bytes_put self.old.bytes.now (y * self.old.width + x) (symbol_of symbol.now) style else self.old.bytes.now) }
    {
        let sides = self.sides();
        let symbol = sides.admit(x, y, symbol, style)?;
        let cell = self.read(x, y).unwrap().inked(symbol, style);
        write_cell(self.bytes, slot(sides.place(x, y)), cell);
        Ok(())
    }
}
