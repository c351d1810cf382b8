// The bytes of a shelf, and what opening them answers.

use super::puts::{LETTER, PLAIN, told};
use page::{Cell, Sides, Surface};
use shelf::Shelf;
use std::test::Fail;
use style::{BOLD, Style};

// What stands at a place of a block of a fresh page, of which some cells are left.
fn fresh_byte(left: usize, block: usize, sides: Sides, at: usize) -> u8 {
    match at {
        0..496 => match at % 16 {
            0 => if at / 16 < left { 32 } else { 0 },
            8 => if at / 16 < left { 1 } else { 0 },
            _ => 0,
        },
        496 => (block % 256) as u8,
        497 => (block / 256 % 256) as u8,
        498 => (block / 65536 % 256) as u8,
        499 => (block / 16777216 % 256) as u8,
        500 => (sides.width % 256) as u8,
        501 => (sides.width / 256) as u8,
        502 => (sides.height % 256) as u8,
        503 => (sides.height / 256) as u8,
        _ => 0,
    }
}

fn is_fresh_block(bytes: &[u8], left: usize, block: usize, sides: Sides) -> bool {
    bytes
        .iter()
        .enumerate()
        .all(|(at, b)| *b == fresh_byte(left, block, sides, at))
}

// Whether bytes are those of a fresh page, looked at block by block.
fn is_fresh(bytes: &[u8], sides: Sides) -> bool {
    let mut left = usize::from(sides.width) * usize::from(sides.height);
    for (block, bytes) in bytes.chunks(512).enumerate() {
        if !is_fresh_block(bytes, left, block, sides) {
            return false;
        }
        left = left.saturating_sub(31);
    }
    bytes.len() % 512 == 0
}

// Makes a fresh shelf in bytes that held something else, and looks at them.
fn made_fresh(bytes: &mut [u8], width: u16, height: u16) -> bool {
    {
        let shelf = Shelf::new(bytes, width, height);
        if shelf.width() != width || shelf.height() != height {
            return false;
        }
    }
    is_fresh(bytes, Sides { width, height }) && Shelf::check_open(bytes).is_ok()
}

#[test]
fn a_fresh_shelf_has_the_bytes_of_its_blocks(rt: HostRuntime) {
    assert!(rt; made_fresh(&mut [7; 512], 1, 1));
    assert!(rt; made_fresh(&mut [7; 512], 31, 1));
    assert!(rt; made_fresh(&mut [7; 1024], 32, 1));
    assert!(rt; made_fresh(&mut [7; 1536], 21, 3));
}

#[test]
fn the_largest_shelf_has_33826_blocks(rt: HostRuntime) -> Result<(), Fail> {
    let mut bytes = vec![in rt.alloc(); 7u8; 17318912]?;
    assert!(rt; made_fresh(bytes.as_mut_slice(), 1024, 1024));
    Ok(())
}

#[test]
fn a_shelf_has_sides_of_1_to_1024_and_exactly_its_bytes(rt: HostRuntime) -> Result<(), Fail> {
    let bytes = vec![in rt.alloc(); 0u8; 17408]?;
    let bytes = bytes.as_slice();
    assert!(rt; bytes.len() == 17408);
    assert_eq!(rt; told(Shelf::check(&bytes[0..512], 1, 1)), (0, None));
    assert_eq!(rt; told(Shelf::check(&bytes[0..511], 1, 1)), (4, Some(512)));
    assert_eq!(rt; told(Shelf::check(&bytes[0..513], 1, 1)), (4, Some(512)));
    assert_eq!(rt; told(Shelf::check(&bytes[0..512], 31, 1)), (0, None));
    assert_eq!(rt; told(Shelf::check(&bytes[0..512], 32, 1)), (4, Some(1024)));
    assert_eq!(rt; told(Shelf::check(bytes, 1024, 1)), (0, None));
    assert_eq!(rt; told(Shelf::check(bytes, 1, 1024)), (0, None));
    assert_eq!(rt; told(Shelf::check(bytes, 1025, 1)), (6, None));
    assert_eq!(rt; told(Shelf::check(bytes, 1, 1025)), (6, None));
    assert_eq!(rt; told(Shelf::check(&bytes[0..0], 0, 1)), (6, None));
    assert_eq!(rt; told(Shelf::check(bytes, 1024, 1024)), (4, Some(17318912)));
    Ok(())
}

#[test]
fn a_put_writes_the_16_bytes_of_its_cell(rt: HostRuntime) {
    let mut bytes = [7; 1024];
    {
        let mut shelf = Shelf::new(&mut bytes, 32, 1);
        let style = Style {
            fg: 9,
            bg: 16,
            add: BOLD,
            remove: 0,
        };
        assert_eq!(rt; told(shelf.put(31, 0, b"\xe2\x94\x80", style)), (0, None));
    }
    assert!(rt; bytes[512..528] == [0xe2, 0x94, 0x80, 0, 0, 0, 0, 0, 3, 9, 16, 1, 0, 0, 0, 0]);
    assert!(rt; bytes[496..512] == [0, 0, 0, 0, 32, 0, 1, 0, 0, 0, 0, 0, 0, 0, 0, 0]);
    assert!(rt; bytes[1008..1024] == [1, 0, 0, 0, 32, 0, 1, 0, 0, 0, 0, 0, 0, 0, 0, 0]);
}

#[test]
fn a_shelf_is_opened_as_it_was_left(rt: HostRuntime) {
    let mut bytes = [7; 512];
    {
        let mut shelf = Shelf::new(&mut bytes, 3, 2);
        assert_eq!(rt; told(shelf.put(2, 1, b"a", PLAIN)), (0, None));
    }
    let shelf = Shelf::open(&mut bytes);
    assert_eq!(rt; (shelf.width(), shelf.height()), (3, 2));
    assert_eq!(rt; shelf.read(2, 1), Some(LETTER));
    assert_eq!(rt; shelf.read(1, 1), Some(Cell::FRESH));
}
