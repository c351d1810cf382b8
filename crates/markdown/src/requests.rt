// Calls of a sheet, each with the place for its answer.
use crate::RenderRefusal;
use crate::tables::{TableLayout, TableRefusal};
use drawings::Area;
use events::event::Event;
use events::refusal::Refusal;
use events::styles::MarkdownStyles;

/// A load: what it is given, and how it ended. What `answer` holds before the call is not read, here and in every
/// request.
#[derive(Drop)]
pub struct Loading<'x, R> {
    pub ruler: R,
    pub styles: MarkdownStyles,
    pub events: &'x [Event],
    pub text: &'x [u8],
    pub source: &'x [u8],
    pub answer: Result<(), Refusal>,
}

/// A table question, by the table's number among the sheet's tables, from 0, and the width of the page in cells.
/// `layout` is the place for the layout, which stays as it is where there is no such table.
#[derive(Drop)]
pub struct TableQuestion<B> {
    pub rule: B,
    pub number: usize,
    pub width: u16,
    pub layout: TableLayout,
    pub answer: Result<(), TableRefusal>,
}

/// How many rows the sheet takes on a page of this width in cells.
#[derive(Drop)]
pub struct HeightQuestion<B> {
    pub rule: B,
    pub width: u16,
    pub answer: u16,
}

/// A paint into an area of a page.
#[derive(Drop)]
pub struct Painting<B, S> {
    pub rule: B,
    pub area: Area,
    pub page: S,
    pub answer: Result<(), RenderRefusal>,
}

/// A call of a sheet: a load, a streaming switch, a table question, a height or a paint.
#[derive(Drop)]
pub enum Request<'x, R, B, S> {
    Load(Loading<'x, R>),
    Streaming(bool),
    Table(TableQuestion<B>),
    Height(HeightQuestion<B>),
    Paint(Painting<B, S>),
}
