// Opening bytes that are no shelf: which block is told, in which order, and after every damage of one byte.

use super::puts::told;
use page::{Refusal, Surface};
use shelf::Shelf;
use std::process::Abort;

#[test]
fn block_0_is_told_also_when_it_is_missing(rt: HostRuntime) {
    assert_eq!(rt; told(Shelf::check_open(&[])), (8, Some(0)));
    assert_eq!(rt; told(Shelf::check_open(&[0; 511])), (8, Some(0)));
    assert_eq!(rt; told(Shelf::check_open(&[0; 512])), (8, Some(0)));
    assert_eq!(rt; told(Shelf::check_open(&[0; 1024])), (8, Some(0)));
}

#[test]
fn the_length_tells_the_whole_blocks_present(rt: HostRuntime) {
    let mut bytes = [0; 1536];
    bytes[500] = 1;
    bytes[502] = 1;
    assert_eq!(rt; told(Shelf::check_open(&bytes[0..512])), (0, None));
    assert_eq!(rt; told(Shelf::check_open(&bytes[0..513])), (8, Some(1)));
    assert_eq!(rt; told(Shelf::check_open(&bytes[0..1023])), (8, Some(1)));
    assert_eq!(rt; told(Shelf::check_open(&bytes[0..1024])), (8, Some(2)));
    assert_eq!(rt; told(Shelf::check_open(&bytes)), (8, Some(3)));
}

fn change(bytes: &mut [u8], k: usize) {
    if let Some(b) = bytes.get_mut(k) {
        *b ^= 1;
    }
}

// Opens a fresh shelf of 63 by 1 with up to three of its 1,536 bytes changed.
fn open_changed(a: usize, b: usize, c: usize) -> (u8, Option<u64>) {
    let mut bytes = [0; 1536];
    let _ = Shelf::new(&mut bytes, 63, 1).width();
    change(&mut bytes, a);
    change(&mut bytes, b);
    change(&mut bytes, c);
    told(Shelf::check_open(&bytes))
}

#[test]
fn blocks_are_looked_at_in_their_order(rt: HostRuntime) {
    assert_eq!(rt; open_changed(1536, 1536, 1536), (0, None));
    assert_eq!(rt;
        open_changed(496, 1008, 1520),
        (8, Some(0)),
        "numbers of all three blocks"
    );
    assert_eq!(rt; open_changed(1008, 1520, 1536), (8, Some(1)));
    assert_eq!(rt; open_changed(1520, 1536, 1536), (8, Some(2)));
    assert_eq!(rt;
        open_changed(501, 1520, 1536),
        (8, Some(3)),
        "319 by 1 needs 11 blocks"
    );
    assert_eq!(rt;
        open_changed(501, 496, 1536),
        (8, Some(0)),
        "block 0 before the length"
    );
    assert_eq!(rt; open_changed(503, 1536, 1536), (8, Some(3)), "63 by 257");
}

// What opening answers when the sides of a fresh page of n by 1 are changed to others.
fn sides_judged(n: u64, blocks: u64, width: u64, height: u64) -> Result<(), Refusal> {
    let side = 1..=1024;
    if !side.contains(&width) || !side.contains(&height) {
        return Err(Refusal::Block(0));
    }
    let cells = width * height;
    if cells < n && cells < 31 {
        return Err(Refusal::Block(0));
    }
    if cells.div_ceil(31) != blocks {
        return Err(Refusal::Block(blocks));
    }
    if blocks > 1 {
        Err(Refusal::Block(1))
    } else {
        Ok(())
    }
}

// What opening answers when byte k of a fresh page of n by 1, n below 256, is changed to v.
fn judged(n: u8, blocks: u64, k: usize, v: u8) -> Result<(), Refusal> {
    let n = u64::from(n);
    let block = (k / 512) as u64;
    let refused = Err(Refusal::Block(block));
    match k {
        500 => return sides_judged(n, blocks, u64::from(v), 1),
        501 => return sides_judged(n, blocks, n + 256 * u64::from(v), 1),
        502 => return sides_judged(n, blocks, n, u64::from(v)),
        503 => return sides_judged(n, blocks, n, 1 + 256 * u64::from(v)),
        _ => {}
    }
    if k % 512 >= 496 || block * 31 + (k % 512 / 16) as u64 >= n {
        return refused;
    }
    match (k % 16, v) {
        (0, _) | (11, _) => Ok(()),
        (8, 1..=8) => Ok(()),
        (9, 0..=16) | (10, 0..=16) => Ok(()),
        _ => refused,
    }
}

// Changes each byte of a fresh page of n by 1 to each value in turn, and holds the answer to the judgement.
fn all_damage(rt: &impl Abort, bytes: &mut [u8], n: u8, blocks: u64) {
    {
        let _ = Shelf::new(bytes, u16::from(n), 1).width();
    }
    assert!(rt; Shelf::check_open(bytes).is_ok());
    for k in 0..bytes.len() {
        let old = bytes[k];
        for v in 0..=255u8 {
            bytes[k] = v;
            let answer = Shelf::check_open(bytes);
            if v != old {
                assert_eq!(rt; answer, judged(n, blocks, k, v));
            }
        }
        bytes[k] = old;
    }
}

#[test]
fn every_damage_of_a_page_of_one_cell_is_refused_or_another_page(rt: HostRuntime) {
    all_damage(&rt, &mut [0; 512], 1, 1);
}

#[test]
fn every_damage_of_a_page_of_two_blocks_is_refused_with_its_block(rt: HostRuntime) {
    all_damage(&rt, &mut [0; 1024], 32, 2);
}
