// The commands on pages: a grid or a shelf, with a window over it where one is set.
use crate::requests::{Asked, ask, unanswered};
use crate::stops::*;
use crate::texts::{RuleName, last_bytes, push_symbol, symbol_text};
use drawings::Area;
use grid::Grid;
use markdown::{Markdown, Painting, Request};
use page::{Cell, Refusal, Sides, Surface, Window};
use shelf::Shelf;
use std::alloc::Global;
use std::fs;
use style::Style;
use words::{Fault, Words, hex_text};

// More than any page needs, and little enough to be had.
const MOST_CELLS: u64 = 2_000_000;

const MOST_BYTES: u64 = 20_000_000;

// What a page is made over: a grid's cells or a shelf's bytes.
#[derive(Drop)]
enum Memory {
    Cells(Vec<Cell>),
    Bytes(Vec<u8>),
}

// The page that a script works on.
#[derive(Drop)]
pub struct Page {
    memory: Memory,
    sides: Sides,
}

// A part of a page, from a corner on.
#[derive(Clone, Copy)]
pub struct Part {
    x: u16,
    y: u16,
    width: u16,
    height: u16,
}

impl Part {
    fn over<S: Surface>(self, below: S) -> Window<S> {
        Window {
            below,
            x: self.x,
            y: self.y,
            width: self.width,
            height: self.height,
        }
    }
}

// What is done on a page, through its window.
#[derive(Drop)]
pub enum Act<'s, 'm> {
    Put(Put),
    Read(u16, u16),
    Cells,
    Show,
    Paint(Paint<'s, 'm>),
}

// A sheet, the rule by which it breaks, and the area in which it is painted.
#[derive(Drop)]
pub struct Paint<'s, 'm> {
    sheet: &'s mut Markdown<'m>,
    rule: RuleName,
    area: Area,
}

#[derive(Drop)]
pub struct Put {
    x: u16,
    y: u16,
    symbol: Vec<u8>,
    style: Style,
}

pub fn side(words: &mut Words) -> Result<u16, Fault> {
    Ok(words.next_number(65535)? as u16)
}

pub fn byte(words: &mut Words) -> Result<u8, Fault> {
    Ok(words.next_number(255)? as u8)
}

// How much memory a page needs, by the check of a page over none: nothing where no memory makes it.
fn needed(over_none: Result<(), Refusal>) -> usize {
    match over_none {
        Err(Refusal::Amount(count)) => usize::try_from(count).unwrap_or(0),
        _ => 0,
    }
}

// The sides of a page, and how much memory it is made over: as much as the line says, or else what it needs.
fn read_sides<F: FnOnce(u16, u16) -> Result<(), Refusal>>(
    mut words: Words,
    most: u64,
    over_none: F,
) -> Result<(Sides, usize), Fault>
    requires { F.IsAlwaysCallable over_none }
{
    let width = side(&mut words)?;
    let height = side(&mut words)?;
    let count = if words.end().is_ok() {
        needed(over_none(width, height))
    } else {
        words.next_number(most)? as usize
    };
    words.end()?;
    Ok((Sides { width, height }, count))
}

pub fn grid(rt: &HostRuntime, words: Words) -> Result<Page, Stop> {
    let (sides, count) = read_sides(words, MOST_CELLS, |w, h| Grid::check(&[], w, h))?;
    let Sides { width, height } = sides;
    let mut cells = vec![in rt.alloc(); Cell::FRESH; count]?;
    Grid::check(cells.as_slice(), width, height).map_err(|e| Stop::Refused("grid", e))?;
    let _grid = Grid::new(cells.as_mut_slice(), width, height);
    println!(rt; "grid {width} {height}")?;
    Ok(Page {
        memory: Memory::Cells(cells),
        sides,
    })
}

pub fn shelf(rt: &HostRuntime, words: Words) -> Result<Page, Stop> {
    let (sides, count) = read_sides(words, MOST_BYTES, |w, h| Shelf::check(&[], w, h))?;
    let Sides { width, height } = sides;
    let mut bytes = vec![in rt.alloc(); 0u8; count]?;
    Shelf::check(bytes.as_slice(), width, height).map_err(|e| Stop::Refused("shelf", e))?;
    let _shelf = Shelf::new(bytes.as_mut_slice(), width, height);
    println!(rt; "shelf {width} {height}")?;
    Ok(Page {
        memory: Memory::Bytes(bytes),
        sides,
    })
}

// Takes over the bytes of a shelf.
fn take_shelf(rt: &HostRuntime, mut bytes: Vec<u8>) -> Result<Page, Stop> {
    Shelf::check_open(bytes.as_slice()).map_err(|e| Stop::Refused("open", e))?;
    let sides = Shelf::open(bytes.as_mut_slice()).sides();
    let Sides { width, height } = sides;
    println!(rt; "open {width} {height}")?;
    Ok(Page {
        memory: Memory::Bytes(bytes),
        sides,
    })
}

pub fn open(rt: &HostRuntime, words: Words) -> Result<Page, Stop> {
    take_shelf(rt, last_bytes(rt.alloc(), words)?)
}

// The name of a file, the last word of a line.
fn file_name<'a>(mut words: Words<'a>) -> Result<&'a str, Fault> {
    let name = words.next_word().ok_or(Fault::MissingName)?;
    words.end()?;
    Ok(name)
}

// The page in a file, none where the file cannot be read.
pub fn open_file(rt: &HostRuntime, words: Words) -> Result<Option<Page>, Stop> {
    match fs::read(rt, file_name(words)?) {
        Ok(bytes) => Ok(Some(take_shelf(rt, bytes)?)),
        Err(_) => {
            println!(rt; "open-file failed")?;
            Ok(None)
        }
    }
}

pub fn save(rt: &HostRuntime, page: Option<&Page>, words: Words) -> Result<(), Stop> {
    let name = file_name(words)?;
    let page = page.ok_or(Stop::NoPage("save"))?;
    match &page.memory {
        Memory::Cells(_) => println!(rt; "save none")?,
        Memory::Bytes(bytes) => match fs::write(rt, name, bytes.as_slice()) {
            Ok(()) => println!(rt; "save {name}")?,
            Err(_) => println!(rt; "save failed")?,
        },
    }
    Ok(())
}

pub fn bytes(rt: &HostRuntime, page: Option<&Page>, words: Words) -> Result<(), Stop> {
    words.end()?;
    let page = page.ok_or(Stop::NoPage("bytes"))?;
    match &page.memory {
        Memory::Cells(_) => println!(rt; "bytes none")?,
        Memory::Bytes(bytes) => {
            let text = hex_text(rt.alloc(), bytes.as_slice())?;
            println!(rt; "bytes {text}")?;
        }
    }
    Ok(())
}

// The window that a line sets, or none for `window off`.
pub fn read_window(rt: &HostRuntime, mut words: Words) -> Result<Option<Part>, Stop> {
    if words.skip_word("off") {
        words.end()?;
        println!(rt; "window off")?;
        return Ok(None);
    }
    let x = side(&mut words)?;
    let y = side(&mut words)?;
    let width = side(&mut words)?;
    let height = side(&mut words)?;
    words.end()?;
    println!(rt; "window {x} {y} {width} {height}")?;
    Ok(Some(Part {
        x,
        y,
        width,
        height,
    }))
}

pub fn read_put<'s, 'm>(heap: Global, mut words: Words) -> Result<Act<'s, 'm>, Fault> {
    let x = side(&mut words)?;
    let y = side(&mut words)?;
    let symbol = words.next_bytes(heap)?;
    let style = Style {
        fg: byte(&mut words)?,
        bg: byte(&mut words)?,
        add: byte(&mut words)?,
        remove: byte(&mut words)?,
    };
    words.end()?;
    Ok(Act::Put(Put {
        x,
        y,
        symbol,
        style,
    }))
}

pub fn read_read<'s, 'm>(mut words: Words) -> Result<Act<'s, 'm>, Fault> {
    let x = side(&mut words)?;
    let y = side(&mut words)?;
    words.end()?;
    Ok(Act::Read(x, y))
}

pub fn read_paint<'s, 'm>(
    sheet: &'s mut Markdown<'m>,
    rule: RuleName,
    mut words: Words,
) -> Result<Act<'s, 'm>, Fault> {
    let area = Area {
        x: side(&mut words)?,
        y: side(&mut words)?,
        width: side(&mut words)?,
        height: side(&mut words)?,
    };
    words.end()?;
    Ok(Act::Paint(Paint { sheet, rule, area }))
}

impl Page {
    // Does it on the page, through the window where one is set.
    pub fn act(
        &mut self,
        rt: &HostRuntime,
        window: Option<Part>,
        act: Act<'_, '_>,
    ) -> Result<(), Stop> {
        let Sides { width, height } = self.sides;
        match &mut self.memory {
            Memory::Cells(cells) => {
                let grid = Grid {
                    cells: cells.as_mut_slice(),
                    width,
                    height,
                };
                through(rt, grid, window, act)
            }
            Memory::Bytes(bytes) => {
                let shelf = Shelf {
                    bytes: bytes.as_mut_slice(),
                    width,
                    height,
                };
                through(rt, shelf, window, act)
            }
        }
    }
}

fn through<S: Surface + Drop>(
    rt: &HostRuntime,
    page: S,
    window: Option<Part>,
    act: Act<'_, '_>,
) -> Result<(), Stop> {
    match window {
        None => perform(rt, page, act),
        Some(part) => perform(rt, part.over(page), act),
    }
}

fn perform<S: Surface + Drop>(rt: &HostRuntime, mut page: S, act: Act<'_, '_>) -> Result<(), Stop> {
    match act {
        Act::Put(put) => {
            page.put(put.x, put.y, put.symbol.as_slice(), put.style)
                .map_err(|e| Stop::Refused("put", e))?;
            println!(rt; "put ok")?;
            Ok(())
        }
        Act::Read(x, y) => {
            match page.read(x, y) {
                Some(cell) => print_cell(rt, "read ", x, y, cell)?,
                None => println!(rt; "read {x} {y} none")?,
            }
            Ok(())
        }
        Act::Paint(paint) => {
            let Paint { sheet, rule, area } = paint;
            ask(rt, sheet, painting(rule, area, page))
        }
        Act::Cells => print_cells(rt, &page),
        Act::Show => show(rt, &page),
    }
}

fn painting<'x, S>(rule: RuleName, area: Area, page: S) -> Asked<'x, S> {
    Request::Paint(Painting {
        rule,
        area,
        page,
        answer: unanswered(),
    })
}

fn print_cell(rt: &HostRuntime, before: &str, x: u16, y: u16, cell: Cell) -> Result<(), Stop> {
    let symbol = symbol_text(rt.alloc(), cell.symbol)?;
    let fg = cell.fg;
    let bg = cell.bg;
    let modifiers = cell.modifiers;
    println!(rt; "{before}{x} {y} {symbol} {fg} {bg} {modifiers}")?;
    Ok(())
}

// Every cell that is not fresh, row by row.
fn print_cells<S: Surface>(rt: &HostRuntime, page: &S) -> Result<(), Stop> {
    let Sides { width, height } = page.sides();
    println!(rt; "cells {width} {height}")?;
    for y in 0..height {
        print_row_cells(rt, page, width, y)?;
    }
    println!(rt; "end")?;
    Ok(())
}

fn print_row_cells<S: Surface>(rt: &HostRuntime, page: &S, width: u16, y: u16) -> Result<(), Stop> {
    for x in 0..width {
        if let Some(cell) = page.read(x, y) {
            if cell != Cell::FRESH {
                print_cell(rt, "", x, y, cell)?;
            }
        }
    }
    Ok(())
}

// The page as text: each row's symbols, without the spaces at its end.
fn show<S: Surface>(rt: &HostRuntime, page: &S) -> Result<(), Stop> {
    let Sides { width, height } = page.sides();
    println!(rt; "show {width} {height}")?;
    for y in 0..height {
        let row = row_text(rt.alloc(), page, width, y)?;
        rt.println(row.as_str().trim_end_matches(' '))?;
    }
    Ok(())
}

fn row_text<S: Surface>(heap: Global, page: &S, width: u16, y: u16) -> Result<String, Stop> {
    let mut row = String::new(heap);
    for x in 0..width {
        if let Some(cell) = page.read(x, y) {
            push_symbol(&mut row, cell.symbol)?;
        }
    }
    Ok(row)
}
