// The answer to a table question.
ghost use Rattle.std.specs.Prelude.{◌≡◌, Some};
ghost use Rattle.markdown.specs.Tables.{refusal_text};

use columns::ColumnLayout;
use std::fmt;

/// How a table is laid out on a page: its columns, and its rows, rules counted.
#[derive(Clone, Copy, Debug, PartialEq, Eq)]
pub struct TableLayout {
    pub columns: ColumnLayout,
    pub rows: u16,
}

impl TableLayout {
    ghost use Rattle.markdown.specs.Tables.{no_layout};

    /// A layout of no columns, to be filled.
    pub fn new() -> TableLayout
        ensures value { result ≡ no_layout }
    {
        TableLayout {
            columns: ColumnLayout::new(),
            rows: 0,
        }
    }
}

/// Why a table question cannot be answered.
#[derive(Clone, Copy, Debug, PartialEq, Eq)]
pub enum TableRefusal {
    /// The sheet has no table of this number.
    NoTable,
}

impl TableRefusal {
    ghost use Rattle.markdown.specs.Tables.{number_of};

    /// The number of the refusal.
    pub fn number(self) -> u8
        ensures value { result ≡ number_of self }
    {
        match self {
            TableRefusal::NoTable => 10,
        }
    }
}

impl fmt::Display for TableRefusal {
    ghost output = { λ e. Some (refusal_text e) };

    fn fmt<W: fmt::Write>(&self, f: &mut fmt::Formatter<W>) -> fmt::Result {
        let number = self.number();
        write!(f, "{number}")
    }
}
