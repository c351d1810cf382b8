// Runs whose calls are all made by one `Markdown::run`, each paint on a page of its own.

use super::answers::*;
use super::calls::{Series, draw_series};
use super::digest::Digest;
use super::made::{BLANK, aged};
use super::requests::requests_of;
use grid::Grid;
use markdown::{Markdown, Request};
use page::{Beside, Cell, Sides, Surface, Window};
use records::kinds::{Row, Span};
use shelf::Shelf;
use std::alloc::{AllocError, Global};
use std::test::Fail;

fn digest_of<R, B, S: Surface>(requests: &[Request<'_, R, B, S>]) -> u64 {
    requests
        .iter()
        .fold(Digest::START, |digest, request| digest.request(request))
        .0
}

// The first hundred of the requests that has not the digest that is stored for it.
fn first_wrong<R, B, S: Surface>(
    requests: &[Request<'_, R, B, S>],
    stored: &[u64],
) -> Option<usize> {
    for (number, (hundred, digest)) in requests.chunks(100).zip(stored).enumerate() {
        if digest_of(hundred) != *digest {
            return Some(number);
        }
    }
    None
}

// What one run of the calls over so much memory finds: how many requests it made, the first hundred of them
// that is wrong, and the digest of what the sheet tells of itself behind them.
fn found<S: Surface + Drop>(
    heap: Global,
    room: (usize, usize, usize),
    series: &Series,
    pages: Vec<S>,
    stored: &[u64],
) -> Result<(usize, Option<usize>, u64), AllocError> {
    let mut glyphs = vec![in heap; BLANK; room.0]?;
    let mut lines = vec![in heap; Span::EMPTY; room.1]?;
    let mut rows = vec![in heap; Row::BLANK; room.2]?;
    let mut requests = requests_of(heap, series, pages)?;
    let sheet = Markdown::run(
        glyphs.as_mut_slice(),
        lines.as_mut_slice(),
        rows.as_mut_slice(),
        requests.as_mut_slice(),
    );
    let behind = Digest::START.sheet(&sheet).0;
    let wrong = first_wrong(requests.as_slice(), stored);
    Ok((requests.len(), wrong, behind))
}

// Old grids of 20 by 10, as many as there are cells for.
fn grids<'x>(heap: Global, cells: &'x mut [Cell]) -> Result<Vec<Grid<'x>>, AllocError> {
    let mut pages = Vec::new(heap);
    for part in cells.chunks_exact_mut(200) {
        pages.push(aged(Grid::new(part, 20, 10)))?;
    }
    Ok(pages)
}

#[test]
fn a_run_on_grids_answers_each_call_from_the_last_load_and_switch(
    rt: HostRuntime,
) -> Result<(), Fail> {
    let sides = Sides {
        width: 20,
        height: 10,
    };
    let series = draw_series(rt.alloc(), 5, 700, sides)?;
    let mut cells = vec![in rt.alloc(); Cell::FRESH; 140_000]?;
    let pages = grids(rt.alloc(), cells.as_mut_slice())?;
    let found = found(rt.alloc(), (800, 100, 20), &series, pages, &RUN_ON_GRIDS)?;
    assert_eq!(rt; found, (700, None, BEHIND_GRIDS));
    Ok(())
}

type Pair<'x> = Beside<Grid<'x>, Window<Grid<'x>>>;

// A grid of 11 by 12, and beside it a window of 10 by 11 over one of 14 by 12.
fn pair<'x>(left: &'x mut [Cell], right: &'x mut [Cell]) -> Pair<'x> {
    Beside {
        left: Grid::new(left, 11, 12),
        right: Window {
            below: Grid::new(right, 14, 12),
            x: 3,
            y: 1,
            width: 10,
            height: 11,
        },
    }
}

// Old pairs, as many as there are cells for.
fn pairs<'x>(heap: Global, cells: &'x mut [Cell]) -> Result<Vec<Pair<'x>>, AllocError> {
    let mut pages = Vec::new(heap);
    for part in cells.chunks_exact_mut(300) {
        let (left, right) = part.split_at_mut(132);
        pages.push(aged(pair(left, right)))?;
    }
    Ok(pages)
}

#[test]
fn a_run_on_pairs_answers_each_call_from_the_last_load_and_switch(
    rt: HostRuntime,
) -> Result<(), Fail> {
    let sides = Sides {
        width: 21,
        height: 11,
    };
    let series = draw_series(rt.alloc(), 6, 500, sides)?;
    let mut cells = vec![in rt.alloc(); Cell::FRESH; 150_000]?;
    let pages = pairs(rt.alloc(), cells.as_mut_slice())?;
    let found = found(rt.alloc(), (150, 16, 6), &series, pages, &RUN_ON_PAIRS)?;
    assert_eq!(rt; found, (500, None, BEHIND_PAIRS));
    Ok(())
}

// Old shelves of 14 by 6, as many as there are bytes for.
fn shelves<'x>(heap: Global, bytes: &'x mut [u8]) -> Result<Vec<Shelf<'x>>, AllocError> {
    let mut pages = Vec::new(heap);
    for part in bytes.chunks_exact_mut(1536) {
        pages.push(aged(Shelf::new(part, 14, 6)))?;
    }
    Ok(pages)
}

#[test]
fn a_run_over_little_memory_answers_each_call_from_the_last_load_and_switch(
    rt: HostRuntime,
) -> Result<(), Fail> {
    let sides = Sides {
        width: 14,
        height: 6,
    };
    let series = draw_series(rt.alloc(), 7, 400, sides)?;
    let mut bytes = vec![in rt.alloc(); 0; 614_400]?;
    let pages = shelves(rt.alloc(), bytes.as_mut_slice())?;
    let found = found(rt.alloc(), (24, 4, 3), &series, pages, &RUN_ON_SHELVES)?;
    assert_eq!(rt; found, (400, None, BEHIND_SHELVES));
    Ok(())
}
