// Reading the records. What lies past their end reads as nothing.
ghost use Rattle.std.specs.Prelude.{◌≡◌};
ghost use Rattle.records.specs.Memory.{spanned};

use super::kinds::{Block, Records, Row, Span};
use glyphs::Glyph;

// The records of a slice that a span marks.
fn part<T>(xs: &[T], span: Span) -> &[T]
    ensures value { result.now ≡ spanned xs.now span }
{
    let rest = xs.get(usize::from(span.start)..).unwrap_or_default();
    &rest[..rest.len().min(usize::from(span.len))]
}

impl<'a> Records<'a> {
    // The glyphs of a line or an entry.
    pub fn glyphs_in(&self, span: Span) -> &[Glyph]
        ensures value { result.now ≡ spanned self.now.glyphs span }
    {
        part(self.glyphs, span)
    }

    // The lines of a text.
    pub fn lines_in(&self, span: Span) -> &[Span]
        ensures value { result.now ≡ spanned self.now.lines span }
    {
        part(self.lines, span)
    }

    // The rows of a table.
    pub fn rows_in(&self, span: Span) -> &[Row]
        ensures value { result.now ≡ spanned self.now.rows span }
    {
        part(self.rows, span)
    }

    // The blocks of the sheet.
    pub fn blocks(&self) -> &[Block]
        ensures value { result.now ≡ spanned self.now.blocks (record { start = 0; len = self.now.used.blocks }) }
    {
        part(
            &self.blocks,
            Span {
                start: 0,
                len: self.used.blocks,
            },
        )
    }
}
