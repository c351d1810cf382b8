use blank::Source;
use events::event::Event;
use events::styles::MarkdownStyles;

// What a load is given: a ruler and styles, and events with the text that they name and its source.
#[derive_where(Clone, Copy)]
pub struct Load<'x, R> {
    pub ruler: &'x R,
    pub styles: &'x MarkdownStyles,
    pub events: &'x [Event],
    pub text: &'x [u8],
    pub source: &'x Source<'x>,
}
