// One run with calls of every kind, its answers written out.

use super::made::{BLANK, Step, area, put_steps, styles_of};
use events::event::Event;
use glyphs::Utf8;
use grid::Grid;
use markdown::{
    Area, HeightQuestion, Loading, Markdown, Painting, RenderRefusal, Request, TableLayout,
    TableQuestion,
};
use page::{Cell, Surface, Window};
use records::kinds::{Row, Span};
use std::alloc::{AllocError, Global};
use std::test::Fail;
use style::Symbol;
use wrap::WordRule;

type Part<'x> = Window<Grid<'x>>;

type Asked<'x> = Request<'x, Utf8, WordRule, Part<'x>>;

// Behind the eight bytes of the sheet stands one that is no text.
const TEXT: &[u8] = b"ab cdxyy\xff";

// The events of the loads: a text and an open table, which take all the glyphs, lines and rows there are;
// then an unknown kind, a mark that stays open, a byte that is no text, and a glyph too many.
const STEPS: [Step; 19] = [
    (0, 0, 5),
    (17, 9, 1),
    (18, 0, 0),
    (20, 0, 0),
    (0, 5, 1),
    (40, 0, 0),
    (38, 0, 0),
    (19, 0, 0),
    (20, 0, 0),
    (0, 6, 2),
    (40, 0, 0),
    (39, 0, 0),
    (37, 0, 0),
    (0, 0, 5),
    (99, 0, 0),
    (10, 0, 0),
    (0, 8, 1),
    (0, 0, 8),
    (0, 7, 1),
];

// A load of the events from a place to a place, with a colour for the borders of tables.
fn load<'x>(events: &'x [Event], from: usize, to: usize, border: u8) -> Asked<'x> {
    Request::Load(Loading {
        ruler: Utf8,
        styles: styles_of(border),
        events: events.get(from..to).unwrap_or_default(),
        text: TEXT,
        source: TEXT,
        answer: Ok(()),
    })
}

fn switch<'x>(on: bool) -> Asked<'x> {
    Request::Streaming(on)
}

fn height<'x>(width: u16) -> Asked<'x> {
    Request::Height(HeightQuestion {
        rule: WordRule,
        width,
        answer: 99,
    })
}

// The place for the answer holds 77 rows.
fn question<'x>(number: usize) -> Asked<'x> {
    let layout = TableLayout {
        rows: 77,
        ..TableLayout::new()
    };
    Request::Table(TableQuestion {
        rule: WordRule,
        number,
        width: 9,
        layout,
        answer: Ok(()),
    })
}

fn paint<'x>(area: Area, page: Part<'x>) -> Asked<'x> {
    Request::Paint(Painting {
        rule: WordRule,
        area,
        page,
        answer: Err(RenderRefusal::PastEdge),
    })
}

fn add<'x>(all: &mut Vec<Asked<'x>>, one: Asked<'x>) -> Result<(), AllocError> {
    all.push(one)?;
    Ok(())
}

// A window of 9 by 7 in the middle of a grid of 11 by 9.
fn part<'x>(cells: &'x mut [Cell]) -> Part<'x> {
    Window {
        below: Grid::new(cells, 11, 9),
        x: 1,
        y: 1,
        width: 9,
        height: 7,
    }
}

// The calls up to the first paint.
fn first_calls<'x>(
    all: &mut Vec<Asked<'x>>,
    events: &'x [Event],
    page: Part<'x>,
) -> Result<(), AllocError> {
    add(all, height(9))?;
    add(all, question(0))?;
    add(all, switch(true))?;
    add(all, load(events, 0, 13, 5))?;
    add(all, height(9))?;
    add(all, question(0))?;
    add(all, load(events, 13, 15, 6))?;
    add(all, load(events, 15, 16, 6))?;
    add(all, load(events, 16, 17, 6))?;
    add(all, load(events, 17, 19, 6))?;
    add(all, load(events, 0, 13, 17))?;
    add(all, question(0))?;
    add(all, question(1))?;
    add(all, height(3))?;
    add(all, paint(area(0, 0, 9, 7), page))
}

fn last_calls<'x>(
    all: &mut Vec<Asked<'x>>,
    events: &'x [Event],
    first: Part<'x>,
    second: Part<'x>,
) -> Result<(), AllocError> {
    add(all, paint(area(0, 0, 10, 7), first))?;
    add(all, switch(false))?;
    add(all, question(0))?;
    add(all, paint(area(0, 0, 9, 7), second))?;
    add(all, load(events, 0, 0, 6))?;
    add(all, height(9))
}

// The number of a refusal with its value, or 0 with what is told: the rows of a height and of a table with
// the width of its first column.
fn told<R, B, S>(request: &Request<'_, R, B, S>) -> (u8, u64, u16) {
    match request {
        Request::Load(it) => {
            let (number, value) = it.answer.err().map_or((0, 0), |refusal| refusal.numbered());
            (number, value, 0)
        }
        Request::Streaming(_) => (0, 0, 0),
        Request::Table(it) => (
            it.answer.err().map_or(0, |refusal| refusal.number()),
            u64::from(it.layout.rows),
            it.layout.columns.widths[0],
        ),
        Request::Height(it) => (0, u64::from(it.answer), 0),
        Request::Paint(it) => (it.answer.err().map_or(0, |refusal| refusal.number()), 0, 0),
    }
}

const TOLD: [(u8, u64, u16); 21] = [
    // a new sheet has no rows and no table, and the place for the answer stays
    (0, 0, 0),
    (10, 77, 0),
    (0, 0, 0),
    (0, 0, 0),
    // one row of text, one between, five of the table, whose column fills the page while streaming
    (0, 7, 0),
    (0, 5, 5),
    // five loads that are refused: the sheet stays, and goes on streaming
    (1, 1, 0),
    (2, 1, 0),
    (3, 0, 0),
    (4, 0, 0),
    (9, 6, 0),
    (0, 5, 5),
    (10, 77, 0),
    // at three columns two rows of text, one between, and six of the table, whose column has one cell
    (0, 9, 0),
    (0, 0, 0),
    // an area that passes the edge by one
    (5, 0, 0),
    // the text has arrived: the column has its own width
    (0, 0, 0),
    (0, 5, 2),
    (0, 0, 0),
    // no blocks any more
    (0, 0, 0),
    (0, 0, 0),
];

fn symbol_of(symbol: char) -> Option<Symbol> {
    let mut bytes = [0; 4];
    Symbol::new(symbol.encode_utf8(&mut bytes).as_bytes())
}

fn row_shows<S: Surface>(page: &S, y: u16, row: &str) -> bool {
    let mut x = 0u16;
    for symbol in row.chars() {
        if page.read(x, y).map(|cell| cell.symbol) != symbol_of(symbol) {
            return false;
        }
        x = x.saturating_add(1);
    }
    x == page.width()
}

// Whether a page shows these rows, and at the left of the third one this colour.
fn shows<S: Surface>(page: &S, rows: &[&str; 7], border: u8) -> bool {
    page.read(0, 2).is_some_and(|cell| cell.fg == border)
        && (0..page.height())
            .zip(rows)
            .all(|(y, row)| row_shows(page, y, row))
}

// Whether a paint left its page so.
fn leaves<R, B, S: Surface>(
    request: Option<&Request<'_, R, B, S>>,
    rows: &[&str; 7],
    border: u8,
) -> bool {
    match request {
        Some(Request::Paint(it)) => shows(&it.page, rows, border),
        _ => false,
    }
}

const STREAMING: [&str; 7] = [
    "ab cd    ",
    "         ",
    "┌───────┐",
    "│ x     │",
    "├───────┤",
    "│ yy    │",
    "└───────┘",
];

const ARRIVED: [&str; 7] = [
    "ab cd    ",
    "         ",
    "┌────┐   ",
    "│ x  │   ",
    "├────┤   ",
    "│ yy │   ",
    "└────┘   ",
];

const NOTHING: [&str; 7] = ["         "; 7];

#[test]
fn a_run_answers_calls_of_every_kind(rt: HostRuntime) -> Result<(), Fail> {
    let (mut glyphs, mut lines, mut rows) = ([BLANK; 8], [Span::EMPTY; 2], [Row::BLANK; 2]);
    let mut events = Vec::new(rt.alloc());
    put_steps(&mut events, &STEPS, 0)?;
    let mut first = [Cell::FRESH; 99];
    let (mut second, mut third) = (first, first);
    let mut requests = Vec::new(rt.alloc());
    first_calls(&mut requests, events.as_slice(), part(&mut first))?;
    let (second, third) = (part(&mut second), part(&mut third));
    last_calls(&mut requests, events.as_slice(), second, third)?;
    let sheet = Markdown::run(&mut glyphs, &mut lines, &mut rows, requests.as_mut_slice());
    assert!(rt; !sheet.is_streaming());
    assert_eq!(rt; requests.len(), 21);
    for (request, expected) in requests.iter().zip(&TOLD) {
        assert_eq!(rt; told(request), *expected);
    }
    assert!(rt; leaves(requests.get(14), &STREAMING, 5));
    assert!(rt; leaves(requests.get(15), &NOTHING, 0));
    assert!(rt; leaves(requests.get(18), &ARRIVED, 5));
    Ok(())
}
