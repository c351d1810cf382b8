// Sheets at every width and over old pages, held against the digests of tools/paint_answers.py, which was
// written from the rules alone.

use super::answers::*;
use super::looks::age;
use super::made::*;
use events::event::Event;
use glyphs::Utf8;
use grid::Grid;
use markdown::Markdown;
use page::{Cell, Surface};
use records::kinds::{Row, Span};
use std::alloc::{AllocError, Global};
use std::test::Fail;
use wrap::{BreakingRule, CuttingRule, WordRule};

const PRIME: u64 = 0x0000_0100_0000_01b3;

const HEIGHTS: [u16; 3] = [1, 6, 21];

// A page of 42 by 24.
type Cells = [Cell; 1008];

// FNV-1a over 64 bits.
#[derive(Clone, Copy)]
struct Digest(u64);

impl Digest {
    const START: Digest = Digest(0xcbf2_9ce4_8422_2325);

    fn byte(self, b: u8) -> Digest {
        Digest((self.0 ^ u64::from(b)).wrapping_mul(PRIME))
    }

    fn cell(self, cell: Cell) -> Digest {
        let len = cell.symbol.len;
        cell.symbol
            .to_bytes()
            .iter()
            .take(usize::from(len))
            .fold(self.byte(len), |digest, b| digest.byte(*b))
            .byte(cell.fg)
            .byte(cell.bg)
            .byte(cell.modifiers)
    }

    fn row<S: Surface>(self, page: &S, y: u16) -> Digest {
        (0..page.width()).fold(self, |digest, x| {
            page.read(x, y).map_or(digest, |cell| digest.cell(cell))
        })
    }

    // What a paint answers, and every cell of the page after it.
    fn page<S: Surface>(self, answer: u8, page: &S) -> Digest {
        (0..page.height()).fold(self.byte(answer), |digest, y| digest.row(page, y))
    }
}

fn put_steps(events: &mut Vec<Event>, steps: &[Step]) -> Result<(), AllocError> {
    for step in steps {
        events.push(event_of(*step, ALIGNMENTS))?;
    }
    Ok(())
}

fn take_in(sheet: &mut Markdown, events: &[Event]) -> bool {
    sheet.load(&Utf8, &STYLES, events, SAMPLE, SOURCE).is_ok()
}

fn page_over(cells: &mut Cells) -> Grid<'_> {
    Grid {
        cells,
        width: 42,
        height: 24,
    }
}

// The digest after one more paint, on a page of these cells.
fn painted<R: BreakingRule>(
    digest: Digest,
    old: &Cells,
    sheet: &Markdown,
    rule: &R,
    area: Area,
) -> Digest {
    let mut cells = *old;
    let mut page = page_over(&mut cells);
    let answer = paint(sheet, rule, area, &mut page);
    digest.page(answer, &page)
}

// A sheet at every width up to 40 and a few heights, each on an old page.
fn at_every_width<R: BreakingRule>(sheet: &Markdown, rule: &R) -> u64 {
    let mut old = [Cell::FRESH; 1008];
    age(&mut page_over(&mut old));
    let mut digest = Digest::START;
    for height in &HEIGHTS {
        for width in 0..41 {
            let area = area(width % 3, *height % 4, width, *height);
            digest = painted(digest, &old, sheet, rule, area);
        }
    }
    digest.0
}

// The digest of a sheet of these steps by a rule; 0 if it is not admitted.
fn digest_of<R: BreakingRule>(heap: Global, steps: &[Step], rule: &R) -> Result<u64, AllocError> {
    let mut events = Vec::new(heap);
    put_steps(&mut events, steps)?;
    let mut glyphs = [BLANK; 800];
    let mut lines = [Span::EMPTY; 100];
    let mut rows = [Row::BLANK; 20];
    let mut sheet = Markdown::new(&mut glyphs, &mut lines, &mut rows);
    if !take_in(&mut sheet, events.as_slice()) {
        return Ok(0);
    }
    Ok(at_every_width(&sheet, rule))
}

#[test]
fn sheets_at_every_width_and_a_few_heights_by_the_word_rule(rt: HostRuntime) -> Result<(), Fail> {
    for (steps, stored) in SHEETS.iter().zip(&BY_WORDS) {
        assert_eq!(rt; digest_of(rt.alloc(), steps, &WordRule)?, *stored);
    }
    Ok(())
}

#[test]
fn sheets_at_every_width_and_a_few_heights_by_the_cutting_rule(
    rt: HostRuntime,
) -> Result<(), Fail> {
    for (steps, stored) in SHEETS.iter().zip(&BY_CUTTING) {
        assert_eq!(rt; digest_of(rt.alloc(), steps, &CuttingRule)?, *stored);
    }
    Ok(())
}

// What the drawn paints are drawn with.
#[derive(Drop)]
struct Generator {
    state: u64,
}

impl Generator {
    // The next number below n, which is above 0.
    fn below(&mut self, n: u16) -> u16 {
        self.state = self
            .state
            .wrapping_mul(6364136223846793005)
            .wrapping_add(1442695040888963407);
        ((self.state >> 33) % u64::from(n.max(1))) as u16
    }
}

// The events of up to four pieces.
fn draw_events(heap: Global, generator: &mut Generator) -> Result<Vec<Event>, AllocError> {
    let mut events = Vec::new(heap);
    for _ in 0..generator.below(5) {
        if let Some(piece) = PIECES.get(usize::from(generator.below(PIECES.len() as u16))) {
            put_steps(&mut events, piece)?;
        }
    }
    Ok(events)
}

fn draw_area(generator: &mut Generator) -> Area {
    let (x, y) = (generator.below(12), generator.below(8));
    let (width, height) = (
        generator.below(33u16.saturating_sub(x)),
        generator.below(19u16.saturating_sub(y)),
    );
    area(x, y, width, height)
}

#[test]
fn four_hundred_sheets_each_over_what_the_ones_before_it_left(rt: HostRuntime) -> Result<(), Fail> {
    let mut glyphs = [BLANK; 800];
    let mut lines = [Span::EMPTY; 100];
    let mut rows = [Row::BLANK; 20];
    let mut sheet = Markdown::new(&mut glyphs, &mut lines, &mut rows);
    let mut cells = [Cell::FRESH; 527];
    let mut page = Grid::new(&mut cells, 31, 17);
    age(&mut page);
    let mut generator = Generator { state: 1 };
    let mut digest = Digest::START;
    for _ in 0..400 {
        let events = draw_events(rt.alloc(), &mut generator)?;
        assert!(rt; take_in(&mut sheet, events.as_slice()));
        let by_words = generator.below(2) == 0;
        let area = draw_area(&mut generator);
        let answer = if by_words {
            paint(&sheet, &WordRule, area, &mut page)
        } else {
            paint(&sheet, &CuttingRule, area, &mut page)
        };
        digest = digest.page(answer, &page);
    }
    assert_eq!(rt; digest.0, DRAWN);
    Ok(())
}
