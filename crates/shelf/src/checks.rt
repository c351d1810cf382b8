// Whether the bytes of a shelf are lawful.

ghost use Rattle.std.specs.Prelude.{◌≡◌, ◌+◌, ◌-◌, ◌*◌, ◌^◌, ◌<◌, ◌≤◌, length};
ghost use Rattle.shelf.specs.Blocks.{blocks, slot_lawful, block_lawful, wide_of, high_of, unlawful, opened, no_sides};
ghost use Rattle.std.specs.Result.{result_unwrap_or};

use super::layout::{BLOCK, CELL, CELLS, TAIL, cell_bytes, cell_from, slot_at, tail_bytes};
use page::{Refusal, Sides};

// How many blocks a page of these sides needs.
pub fn blocks(sides: Sides) -> usize
    ensures value { result ≡ blocks (sides.width * sides.height) }
    ensures bound { result < 2 ^ 32 }
{
    sides.cells().div_ceil(CELLS)
}

// Whether 16 bytes are lawful for cell k of so many.
fn slot_lawful(slot: [u8; CELL], cells: usize, k: usize) -> bool
    ensures value { result ≡ slot_lawful slot cells k 0 }
{
    if k >= cells {
        return slot == [0; CELL];
    }
    let cell = cell_from(slot);
    cell.is_sound() && slot == cell_bytes(cell)
}

fn block_lawful(bytes: &[u8], sides: Sides, b: usize) -> bool
    requires { 512 * b + 512 ≤ length bytes.now }
    ensures value { result ≡ block_lawful bytes.now sides.width sides.height b }
{
    for i in 0..CELLS {
        let slot = slot_at(bytes, BLOCK * b + CELL * i);
        if !slot_lawful(slot, sides.cells(), CELLS * b + i) {
            return false;
        }
    }
    slot_at(bytes, BLOCK * b + TAIL) == tail_bytes(b, sides)
}

// The first block after block 0 that is not lawful.
fn first_unlawful(bytes: &[u8], sides: Sides, count: usize) -> Option<usize>
    requires { 512 * count ≤ length bytes.now }
    ensures value { result ≡ unlawful bytes.now sides.width sides.height (count - 1) 1 }
{
    (1..count).find(|b| !block_lawful(bytes, sides, *b))
}

// The sides that block 0 tells.
fn sides_of(bytes: &[u8]) -> Sides
    requires { 512 ≤ length bytes.now }
    ensures wide { result.width ≡ wide_of bytes.now }
    ensures high { result.height ≡ high_of bytes.now }
{
    Sides {
        width: u16::from_le_bytes([bytes[500], bytes[501]]),
        height: u16::from_le_bytes([bytes[502], bytes[503]]),
    }
}

// The sides of the page that bytes hold, or the block that keeps them from being opened.
pub fn opened(bytes: &[u8]) -> Result<Sides, Refusal>
    ensures value { result ≡ opened bytes.now }
{
    if bytes.len() < BLOCK {
        return Err(Refusal::Block(0));
    }
    let sides = sides_of(bytes);
    if !sides.fit() || !block_lawful(bytes, sides, 0) {
        return Err(Refusal::Block(0));
    }
    let count = blocks(sides);
    if bytes.len() != BLOCK * count {
        return Err(Refusal::Block((bytes.len() / BLOCK) as u64));
    }
    match first_unlawful(bytes, sides, count) {
        None => Ok(sides),
        Some(b) => Err(Refusal::Block(b as u64)),
    }
}

// The same, with no sides where they are kept from it.
pub fn opened_or_none(bytes: &[u8]) -> Sides
    ensures value { result ≡ result_unwrap_or (opened bytes.now) no_sides }
{
    opened(bytes).unwrap_or(Sides::NONE)
}
