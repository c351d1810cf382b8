// The requests of calls to be made.

use super::answers::{SAMPLE, SOURCES};
use super::calls::{Call, LoadCall, Series};
use super::either::{EitherRule, EitherRuler};
use columns::ColumnLayout;
use events::event::Event;
use glyphs::{Bytes, Utf8};
use markdown::{
    HeightQuestion, Loading, Markdown, Painting, RenderRefusal, Request, TableLayout, TableQuestion,
};
use page::Surface;
use std::alloc::{AllocError, Global};
use wrap::{CuttingRule, WordRule};

pub type Asked<'x, S> = Request<'x, EitherRuler, EitherRule, S>;

fn source_of(number: usize) -> &'static [u8] {
    SOURCES.get(number).copied().unwrap_or_default()
}

fn load_of<'x>(load: &LoadCall, events: &'x [Event]) -> Loading<'x, EitherRuler> {
    Loading {
        ruler: load.ruler,
        styles: load.styles,
        events: events.get(load.first..load.last).unwrap_or_default(),
        text: SAMPLE.get(..load.text).unwrap_or(SAMPLE),
        source: source_of(load.source),
        answer: Ok(()),
    }
}

// A place for an answer that holds this in each of its numbers.
fn layout_of(number: u8) -> TableLayout {
    TableLayout {
        columns: ColumnLayout {
            count: number,
            natural: [u32::from(number); 32],
            widths: [u16::from(number); 32],
            taken: u32::from(number),
        },
        rows: u16::from(number),
    }
}

// The request of a call; a paint takes one of the pages, and without one there is no request of it.
pub fn request_of<'x, S>(
    call: &Call,
    events: &'x [Event],
    pages: &mut Vec<S>,
) -> Option<Asked<'x, S>> {
    Some(match call {
        Call::Load(load) => Request::Load(load_of(load, events)),
        Call::Streaming(on) => Request::Streaming(*on),
        Call::Table(rule, number, width, before) => Request::Table(TableQuestion {
            rule: *rule,
            number: *number,
            width: *width,
            layout: layout_of(*before),
            answer: Ok(()),
        }),
        Call::Height(rule, width) => Request::Height(HeightQuestion {
            rule: *rule,
            width: *width,
            answer: u16::MAX,
        }),
        Call::Paint(rule, area) => Request::Paint(Painting {
            rule: *rule,
            area: *area,
            page: pages.pop()?,
            answer: Err(RenderRefusal::PastEdge),
        }),
    })
}

// The requests of calls, as far as there are pages.
pub fn requests_of<'x, S: Drop>(
    heap: Global,
    series: &'x Series,
    mut pages: Vec<S>,
) -> Result<Vec<Asked<'x, S>>, AllocError> {
    let mut requests = Vec::new(heap);
    for call in series.calls.iter() {
        if let Some(request) = request_of(call, series.events.as_slice(), &mut pages) {
            requests.push(request)?;
        }
    }
    Ok(requests)
}

// Gives back the page of a paint.
pub fn give_back<S: Drop>(request: Asked<'_, S>, pages: &mut Vec<S>) -> Result<(), AllocError> {
    if let Request::Paint(it) = request {
        pages.push(it.page)?;
    }
    Ok(())
}

// Makes the call of a request, not by `answer`, and keeps its answer there as that does.
pub fn call<S: Surface>(sheet: &mut Markdown, request: &mut Asked<'_, S>) {
    match request {
        Request::Load(it) => {
            it.answer = match it.ruler {
                EitherRuler::Bytes => sheet.load(&Bytes, &it.styles, it.events, it.text, it.source),
                EitherRuler::Utf8 => sheet.load(&Utf8, &it.styles, it.events, it.text, it.source),
            };
        }
        Request::Streaming(on) => sheet.streaming(*on),
        Request::Table(it) => {
            it.answer = match it.rule {
                EitherRule::Words => sheet.table(&WordRule, it.number, it.width, &mut it.layout),
                EitherRule::Cutting => {
                    sheet.table(&CuttingRule, it.number, it.width, &mut it.layout)
                }
            };
        }
        Request::Height(it) => {
            it.answer = match it.rule {
                EitherRule::Words => sheet.height(&WordRule, it.width),
                EitherRule::Cutting => sheet.height(&CuttingRule, it.width),
            };
        }
        Request::Paint(it) => {
            it.answer = match it.rule {
                EitherRule::Words => sheet.render(&WordRule, it.area, &mut it.page),
                EitherRule::Cutting => sheet.render(&CuttingRule, it.area, &mut it.page),
            };
        }
    }
}
