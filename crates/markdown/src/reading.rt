// What a sheet tells of itself.
ghost use Rattle.std.specs.Prelude.{◌≡◌};

use crate::Markdown;
use records::kinds::Records;
use style::Style;

impl<'a> Markdown<'a> {
    ghost use Rattle.markdown.specs.Views.{sheet_of, memory_of};

    /// The records of its blocks, to be read.
    pub fn records(&self) -> &Records<'a>
        ensures value { result.now ≡ memory_of self.now }
    {
        &self.records
    }

    /// The style in which its tables are lined.
    pub fn border(&self) -> Style
        ensures value { result ≡ (sheet_of self.now).border }
    {
        self.border
    }

    /// Whether its source is still arriving.
    pub fn is_streaming(&self) -> bool
        ensures value { result ≡ (sheet_of self.now).streaming }
    {
        self.streaming
    }
}
