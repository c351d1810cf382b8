// Where a cell stands in the bytes of a shelf, and how it is written there.

ghost use Rattle.std.specs.Prelude.{◌≡◌, ◌+◌, ◌^◌, ◌<◌, ◌≤◌, map, length, slice_range};
ghost use Rattle.std.specs.List.{range_with_len};
ghost use Rattle.page.specs.Cells.{fresh};
ghost use Rattle.shelf.specs.Blocks.{shelf_byte};
ghost use Rattle.shelf.specs.Bytes.{slot, cell_from, cell_bytes, tail_bytes, written};

use page::{Cell, Sides};
use style::Symbol;

pub const BLOCK: usize = 512;

pub const CELLS: usize = 31;

pub const CELL: usize = 16;

pub const TAIL: usize = CELLS * CELL;

pub fn slot(k: usize) -> usize
    requires { k < 2 ^ 40 }
    ensures value { result ≡ slot k }
{
    k / CELLS * BLOCK + k % CELLS * CELL
}

// The 16 bytes from p on.
pub fn slot_at(bytes: &[u8], p: usize) -> [u8; CELL]
    requires { p + 16 ≤ length bytes.now }
    ensures value { result ≡ slice_range bytes.now p (p + 16) }
{
    *bytes[p..p + CELL].as_array().unwrap()
}

// The cell that 16 bytes hold.
pub fn cell_from(slot: [u8; CELL]) -> Cell
    ensures value { result ≡ cell_from slot 0 }
{
    let mut symbol = [0; 8];
    symbol.copy_from_slice(&slot[..8]);
    Cell {
        symbol: Symbol {
            bytes: u64::from_le_bytes(symbol),
            len: slot[8],
        },
        fg: slot[9],
        bg: slot[10],
        modifiers: slot[11],
    }
}

pub fn cell_bytes(cell: Cell) -> [u8; CELL]
    ensures value { result ≡ cell_bytes cell }
{
    let mut slot = [0; CELL];
    slot[..8].copy_from_slice(&cell.symbol.to_bytes());
    slot[8..12].copy_from_slice(&[cell.symbol.len, cell.fg, cell.bg, cell.modifiers]);
    slot
}

pub fn tail_bytes(block: usize, sides: Sides) -> [u8; CELL]
    ensures value { result ≡ tail_bytes block sides.width sides.height }
{
    let mut tail = [0; CELL];
    tail[..4].copy_from_slice(&block.to_le_bytes()[..4]);
    tail[4..6].copy_from_slice(&sides.width.to_le_bytes());
    tail[6..8].copy_from_slice(&sides.height.to_le_bytes());
    tail
}

// Writes the 16 bytes of a cell from p on.
#[tactic(auto, using(crate::proofs::Slots::written_by))]
pub fn write_cell(bytes: &mut [u8], p: usize, cell: Cell)
    requires { p + 16 ≤ length bytes.old }
    ensures after { bytes.new ≡ written bytes.old p (cell_bytes cell) }
{
    bytes[p..p + CELL].copy_from_slice(&cell_bytes(cell));
}

// What stands at k in a page whose cells are all fresh.
fn fresh_byte(sides: Sides, k: usize) -> u8
    ensures value { result ≡ shelf_byte sides.width sides.height (λ _. fresh) k }
{
    let block = k / BLOCK;
    if k % BLOCK >= TAIL {
        return tail_bytes(block, sides)[k % CELL];
    }
    if CELLS * block + k % BLOCK / CELL < sides.cells() {
        cell_bytes(Cell::FRESH)[k % CELL]
    } else {
        0
    }
}

pub fn fill_fresh(bytes: &mut [u8], sides: Sides)
    ensures after { bytes.new ≡ map (shelf_byte sides.width sides.height (λ _. fresh)) (range_with_len 0 (length bytes.old)) }
{
    for (k, byte) in bytes.iter_mut().enumerate() {
        *byte = fresh_byte(sides, k);
    }
}
