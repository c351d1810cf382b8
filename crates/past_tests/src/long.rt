// Long runs of calls on one sheet and one page, by plain calls and by requests as it is drawn.

use super::answers::*;
use super::calls::{Generator, draw_call};
use super::digest::Digest;
use super::made::{BLANK, aged};
use super::requests::{call, give_back, request_of};
use grid::Grid;
use markdown::Markdown;
use page::{Beside, Cell, Sides, Surface, Window};
use records::kinds::{Row, Span};
use shelf::Shelf;
use std::alloc::{AllocError, Global};
use std::test::Fail;

fn only<S: Drop>(heap: Global, page: S) -> Result<Vec<S>, AllocError> {
    let mut pages = Vec::new(heap);
    pages.push(page)?;
    Ok(pages)
}

// Draws a call, makes it, and takes in what it answers; the page is the only one of `pages`.
fn step<S: Surface + Drop>(
    heap: Global,
    sheet: &mut Markdown,
    generator: &mut Generator,
    pages: &mut Vec<S>,
    digest: Digest,
) -> Result<Digest, Fail> {
    let sides = pages.first().map_or(Sides::NONE, |page| page.sides());
    let mut events = Vec::new(heap);
    let drawn = draw_call(generator, &mut events, sides)?;
    let mut request = request_of(&drawn, events.as_slice(), pages).ok_or("no page")?;
    if generator.below(2) == 0 {
        sheet.answer(&mut request);
    } else {
        call(sheet, &mut request);
    }
    let digest = digest.request(&request);
    give_back(request, pages)?;
    Ok(digest)
}

// The digest of the next hundred calls, and of what the sheet tells of itself behind them.
fn hundred<S: Surface + Drop>(
    heap: Global,
    sheet: &mut Markdown,
    generator: &mut Generator,
    pages: &mut Vec<S>,
) -> Result<u64, Fail> {
    let mut digest = Digest::START;
    for _ in 0..100 {
        digest = step(heap, sheet, generator, pages, digest)?;
    }
    Ok(digest.sheet(sheet).0)
}

// The first hundred of the calls behind this seed that has not the digest that is stored for it.
fn first_wrong<S: Surface + Drop>(
    heap: Global,
    sheet: &mut Markdown,
    seed: u64,
    pages: &mut Vec<S>,
    stored: &[u64],
) -> Result<Option<usize>, Fail> {
    let mut generator = Generator { state: seed };
    for (number, digest) in stored.iter().enumerate() {
        if hundred(heap, sheet, &mut generator, pages)? != *digest {
            return Ok(Some(number));
        }
    }
    Ok(None)
}

#[test]
fn each_answer_follows_from_the_last_load_and_switch_on_a_grid(
    rt: HostRuntime,
) -> Result<(), Fail> {
    let mut glyphs = [BLANK; 800];
    let mut lines = [Span::EMPTY; 100];
    let mut rows = [Row::BLANK; 20];
    let mut sheet = Markdown::new(&mut glyphs, &mut lines, &mut rows);
    let mut cells = [Cell::FRESH; 336];
    let mut pages = only(rt.alloc(), aged(Grid::new(&mut cells, 24, 14)))?;
    let wrong = first_wrong(rt.alloc(), &mut sheet, 1, &mut pages, &ON_A_GRID)?;
    assert_eq!(rt; wrong, None);
    Ok(())
}

#[test]
fn each_answer_follows_from_the_last_load_and_switch_on_a_shelf(
    rt: HostRuntime,
) -> Result<(), Fail> {
    let mut glyphs = [BLANK; 110];
    let mut lines = [Span::EMPTY; 14];
    let mut rows = [Row::BLANK; 6];
    let mut sheet = Markdown::new(&mut glyphs, &mut lines, &mut rows);
    let mut bytes = [0; 5632];
    let mut pages = only(rt.alloc(), aged(Shelf::new(&mut bytes, 26, 12)))?;
    let wrong = first_wrong(rt.alloc(), &mut sheet, 2, &mut pages, &ON_A_SHELF)?;
    assert_eq!(rt; wrong, None);
    Ok(())
}

#[test]
fn each_answer_follows_from_the_last_load_and_switch_on_a_window(
    rt: HostRuntime,
) -> Result<(), Fail> {
    let mut glyphs = [BLANK; 300];
    let mut lines = [Span::EMPTY; 30];
    let mut rows = [Row::BLANK; 10];
    let mut sheet = Markdown::new(&mut glyphs, &mut lines, &mut rows);
    let mut cells = [Cell::FRESH; 600];
    let window = Window {
        below: Grid::new(&mut cells, 30, 20),
        x: 5,
        y: 3,
        width: 40,
        height: 15,
    };
    let mut pages = only(rt.alloc(), aged(window))?;
    let wrong = first_wrong(rt.alloc(), &mut sheet, 3, &mut pages, &ON_A_WINDOW)?;
    assert_eq!(rt; wrong, None);
    let window = pages.pop().ok_or("no page")?;
    assert_eq!(rt;
        Digest::START.page(0, &window.into_inner()).0,
        BELOW_THE_WINDOW
    );
    Ok(())
}

#[test]
fn each_answer_follows_from_the_last_load_and_switch_on_a_pair(
    rt: HostRuntime,
) -> Result<(), Fail> {
    let mut glyphs = [BLANK; 800];
    let mut lines = [Span::EMPTY; 60];
    let mut rows = [Row::BLANK; 4];
    let mut sheet = Markdown::new(&mut glyphs, &mut lines, &mut rows);
    let (mut left, mut right) = ([0; 3584], [Cell::FRESH; 320]);
    let window = Window {
        below: Grid::new(&mut right, 20, 16),
        x: 4,
        y: 2,
        width: 12,
        height: 20,
    };
    let pair = Beside {
        left: Shelf::new(&mut left, 13, 15),
        right: window,
    };
    let mut pages = only(rt.alloc(), aged(pair))?;
    let wrong = first_wrong(rt.alloc(), &mut sheet, 4, &mut pages, &ON_A_PAIR)?;
    assert_eq!(rt; wrong, None);
    let (left, right) = pages.pop().ok_or("no page")?.into_parts();
    let digest = Digest::START.page(0, &left).page(0, &right.into_inner());
    assert_eq!(rt; digest.0, BELOW_THE_PAIR);
    Ok(())
}
