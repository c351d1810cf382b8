// Calls of a sheet, drawn as tools/past_answers.py draws them.

use super::answers::{ALIGNMENTS, PIECES, SAMPLE, SOURCES, TABLES};
use super::either::{EitherRule, EitherRuler};
use super::made::*;
use events::event::Event;
use events::styles::MarkdownStyles;
use page::Sides;
use std::alloc::{AllocError, Global};
use style::Style;

// What the calls are drawn with: a linear congruential generator.
#[derive(Drop)]
pub struct Generator {
    pub state: u64,
}

impl Generator {
    // The next number below n; 0 where n is.
    pub fn below(&mut self, n: u16) -> u16 {
        self.state = self
            .state
            .wrapping_mul(6364136223846793005)
            .wrapping_add(1442695040888963407);
        ((self.state >> 33) % u64::from(n.max(1))) as u16
    }

    // The same for an n of at most 256.
    fn byte(&mut self, n: u16) -> u8 {
        (self.below(n) & 0xff) as u8
    }

    fn coin(&mut self) -> bool {
        self.below(2) == 1
    }
}

// A load to be made: its events by their places in a list, how much of the text there is, and the number of
// its source.
#[derive(Clone, Copy)]
pub struct LoadCall {
    pub ruler: EitherRuler,
    pub styles: MarkdownStyles,
    pub first: usize,
    pub last: usize,
    pub text: usize,
    pub source: usize,
}

// A call to be made. A table question names what stands in each number of the place for its answer.
#[derive(Clone, Copy)]
pub enum Call {
    Load(LoadCall),
    Streaming(bool),
    Table(EitherRule, usize, u16, u8),
    Height(EitherRule, u16),
    Paint(EitherRule, Area),
}

// A colour, unset in every other case.
fn draw_colour(generator: &mut Generator) -> u8 {
    generator.byte(32).saturating_sub(15)
}

fn draw_style(generator: &mut Generator) -> Style {
    let fg = draw_colour(generator);
    let bg = draw_colour(generator);
    let add = generator.byte(256);
    let remove = generator.byte(256);
    Style {
        fg,
        bg,
        add,
        remove,
    }
}

// Gives one of the styles a colour that does not exist.
fn spoil(generator: &mut Generator, styles: &mut [Style]) {
    let number = usize::from(generator.below(8));
    let colour = 17u8.wrapping_add(generator.byte(239));
    let is_behind = generator.coin();
    if let Some(style) = styles.get_mut(number) {
        if is_behind {
            style.bg = colour;
        } else {
            style.fg = colour;
        }
    }
}

fn draw_styles(generator: &mut Generator) -> MarkdownStyles {
    let mut styles = [Style::PLAIN; 8];
    for style in &mut styles {
        *style = draw_style(generator);
    }
    if generator.below(16) == 0 {
        spoil(generator, &mut styles);
    }
    let [
        base,
        code_inline,
        code_block,
        bold,
        italic,
        heading,
        table_border,
        table_header,
    ] = styles;
    MarkdownStyles {
        base,
        code_inline,
        code_block,
        bold,
        italic,
        heading,
        table_border,
        table_header,
    }
}

// The number of an item of a list.
fn draw_number(generator: &mut Generator, length: usize) -> usize {
    usize::from(generator.below(u16::try_from(length).unwrap_or(0)))
}

// The steps of a piece or, behind all of these, of a table.
fn steps_of(number: usize) -> &'static [Step] {
    if number < PIECES.len() {
        PIECES[number]
    } else {
        let number = number.saturating_sub(PIECES.len());
        TABLES.get(number).copied().unwrap_or_default()
    }
}

// A piece of a sheet or a table, every third time in a mark.
fn draw_piece(
    generator: &mut Generator,
    events: &mut Vec<Event>,
    alignments: u64,
) -> Result<(), AllocError> {
    let mark = STRONG.wrapping_add(generator.byte(21));
    let number = draw_number(generator, PIECES.len() + TABLES.len());
    if mark <= 16 {
        events.push(naming(mark, 0, 0))?;
    }
    put_steps(events, steps_of(number), alignments)?;
    if mark <= 16 {
        events.push(naming(mark.wrapping_add(END), 0, 0))?;
    }
    Ok(())
}

// An event with another kind, length or column count, or another event in its place.
fn changed(old: Event, damage: u16, other: Event, number: u16) -> Event {
    match damage {
        0 => Event {
            kind: (number % 60) as u8,
            ..old
        },
        1 => other,
        2 => Event { kind: OTHER, ..old },
        3 => Event {
            length: u32::from(number),
            ..old
        },
        _ => Event {
            columns: (number % 64) as u8,
            ..old
        },
    }
}

// Changes one of the events of a load, which begin at a place, or leaves a mark open, or takes most of the text
// away; tells how much of the text there is.
fn damage(
    generator: &mut Generator,
    events: &mut Vec<Event>,
    first: usize,
) -> Result<usize, AllocError> {
    let count = events.len().saturating_sub(first);
    let damage = generator.below(7);
    let place = first.saturating_add(draw_number(generator, count));
    let other = first.saturating_add(draw_number(generator, count));
    let number = generator.below(300);
    if damage == 5 {
        events.push(naming(STRONG, 0, 0))?;
    }
    if damage == 6 {
        return Ok(usize::from(number));
    }
    let other = events.get(other).copied();
    if let (0..5, Some(other), Some(event)) = (damage, other, events.get_mut(place)) {
        *event = changed(*event, damage, other, number);
    }
    Ok(SAMPLE.len())
}

// Draws the events of a load behind those that are there.
fn draw_events(
    generator: &mut Generator,
    events: &mut Vec<Event>,
    alignments: u64,
) -> Result<(), AllocError> {
    for _ in 0..generator.below(6) {
        draw_piece(generator, events, alignments)?;
    }
    Ok(())
}

fn draw_load(generator: &mut Generator, events: &mut Vec<Event>) -> Result<LoadCall, AllocError> {
    let ruler = match generator.below(3) {
        0 => EitherRuler::Bytes,
        _ => EitherRuler::Utf8,
    };
    let styles = draw_styles(generator);
    let source = draw_number(generator, SOURCES.len());
    let alignments = draw_number(generator, ALIGNMENTS.len());
    let alignments = ALIGNMENTS.get(alignments).copied().unwrap_or(0);
    let first = events.len();
    draw_events(generator, events, alignments)?;
    let mut text = SAMPLE.len();
    if generator.below(3) == 0 {
        text = damage(generator, events, first)?;
    }
    Ok(LoadCall {
        ruler,
        styles,
        first,
        last: events.len(),
        text,
        source,
    })
}

fn draw_rule(generator: &mut Generator) -> EitherRule {
    if generator.coin() {
        EitherRule::Cutting
    } else {
        EitherRule::Words
    }
}

// A narrow width, a width from 0 to 100, or any width.
fn draw_width(generator: &mut Generator) -> u16 {
    match generator.below(8) {
        0 => generator.below(65535),
        1..4 => generator.below(30),
        _ => generator.below(101),
    }
}

fn draw_question(generator: &mut Generator) -> Call {
    let rule = draw_rule(generator);
    let number = match generator.below(8) {
        0 => generator.below(65535),
        _ => generator.below(3),
    };
    let width = draw_width(generator);
    let before = 1u8.wrapping_add(generator.byte(99));
    Call::Table(rule, usize::from(number), width, before)
}

// An area whose corner lies at `low` or behind it; what is drawn of each number is below one of `most`.
fn draw_in(generator: &mut Generator, low: (u16, u16), most: [u16; 4]) -> Area {
    let x = low.0.saturating_add(generator.below(most[0]));
    let y = low.1.saturating_add(generator.below(most[1]));
    let width = generator.below(most[2]);
    let height = generator.below(most[3]);
    area(x, y, width, height)
}

// An area that begins near the corner, and passes the edge by one now and then.
fn draw_near(generator: &mut Generator, sides: Sides) -> Area {
    let x = generator.below(6);
    let y = generator.below(4);
    let width = generator.below(sides.width.saturating_add(2).saturating_sub(x));
    let height = generator.below(sides.height.saturating_add(2).saturating_sub(y));
    area(x, y, width, height)
}

// An area at the page's edge, the page, any area, or one that begins near the corner.
fn draw_area(generator: &mut Generator, sides: Sides) -> Area {
    let Sides { width, height } = sides;
    match generator.below(8) {
        0 => {
            let edge = (width.saturating_sub(1), height.saturating_sub(1));
            draw_in(generator, edge, [3; 4])
        }
        1 => area(0, 0, width, height),
        2 => draw_in(generator, (0, 0), [65535; 4]),
        _ => draw_near(generator, sides),
    }
}

// A call; the events of a load come behind those that are there.
pub fn draw_call(
    generator: &mut Generator,
    events: &mut Vec<Event>,
    sides: Sides,
) -> Result<Call, AllocError> {
    Ok(match generator.below(20) {
        0..6 => Call::Load(draw_load(generator, events)?),
        6..9 => Call::Streaming(generator.coin()),
        9..13 => draw_question(generator),
        13..15 => {
            let rule = draw_rule(generator);
            Call::Height(rule, draw_width(generator))
        }
        _ => {
            let rule = draw_rule(generator);
            Call::Paint(rule, draw_area(generator, sides))
        }
    })
}

// Calls to be made one behind the other, with the events of all their loads.
#[derive(Drop)]
pub struct Series {
    pub calls: Vec<Call>,
    pub events: Vec<Event>,
}

// So many calls on pages of these sides.
pub fn draw_series(
    heap: Global,
    seed: u64,
    count: usize,
    sides: Sides,
) -> Result<Series, AllocError> {
    let mut generator = Generator { state: seed };
    let mut calls = Vec::new(heap);
    let mut events = Vec::new(heap);
    for _ in 0..count {
        calls.push(draw_call(&mut generator, &mut events, sides)?)?;
    }
    Ok(Series { calls, events })
}
