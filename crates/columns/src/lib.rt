//! How the cells of a page are shared out among the columns of a table.
//!
//! A column's natural width is its widest entry, at least one cell. `n` columns have the page's
//! width less `3n + 1` cells together. A table that needs more gives cells up one by one, from its
//! widest column, the rightmost of equals, down to one cell. A table that fits keeps its natural
//! widths, but while it is still growing its last column gets the cells that are left.
//!
//! The main promise: `share_columns` fills the lent layout with exactly the shares that this rule
//! gives, for every page width and every list of widths, or refuses and leaves it as it was.

#![tactic(auto)]

ghost use Rattle.std.specs.Prelude.{◌≡◌, ◌≤◌, length, Ok};
ghost use Rattle.shares.specs.Shares.{naturals};
ghost use Rattle.columns.specs.Layout.{slots, answered, laid, filled, empty};

mod sharing;

pub use shares::{MAX_COLUMNS, MAX_NATURAL};
pub use sharing::Widths;

// A table's columns on a page: `count` of the 32 slots are used, the others are 0.
#[derive(Clone, Copy, Debug, PartialEq, Eq)]
pub struct ColumnLayout {
    pub count: u8,
    // the widest entry of each column
    pub natural: [u32; MAX_COLUMNS],
    // the cells that each column gets
    pub widths: [u16; MAX_COLUMNS],
    // how many cells were taken away, one by one
    pub taken: u32,
}

// Why a question cannot be answered.
#[derive(Clone, Copy, Debug, PartialEq, Eq)]
pub enum Refusal {
    // more than 32 columns
    TooManyColumns,
    // the first column whose natural width is above 100,000
    TooWide(u8),
}

fn check(given: &[u32]) -> Result<(), Refusal>
    ensures { result ≡ answered given.now }
{
    if given.len() > MAX_COLUMNS {
        return Err(Refusal::TooManyColumns);
    }
    match given.iter().position(|n| *n > MAX_NATURAL) {
        Some(i) => Err(Refusal::TooWide(i as u8)),
        None => Ok(()),
    }
}

// The natural widths in their slots: each at least 1, and one column where none is given.
fn natural_slots(given: &[u32]) -> [u32; MAX_COLUMNS]
    requires { length given.now ≤ 32 }
    ensures { result ≡ slots (naturals given.now) }
{
    let mut natural = [0; MAX_COLUMNS];
    natural[..given.len()].copy_from_slice(given);
    for n in natural[..given.len().max(1)].iter_mut() {
        *n = (*n).max(1);
    }
    natural
}

// The layout of columns that passed the check.
fn lay_out(width: u16, growing: bool, given: &[u32]) -> ColumnLayout
    requires { answered given.now ≡ Ok tt }
    ensures { result ≡ laid width growing given.now }
{
    let count = given.len().max(1);
    let mut natural = natural_slots(given);
    let mut columns = Widths {
        cells: &mut natural[..count],
    };
    columns.lay_out(width, growing)
}

// Fills `layout` with the shares of columns of these natural widths on a page `width` cells wide.
// `growing` says that the table is the open one of a sheet whose text is still arriving.
pub fn share_columns(
    width: u16,
    growing: bool,
    natural: &[u32],
    layout: &mut ColumnLayout,
) -> Result<(), Refusal>
    ensures value { result ≡ answered natural.now }
    ensures after { layout.new ≡ filled width growing natural.now layout.old }
{
    check(natural)?;
    *layout = lay_out(width, growing, natural);
    Ok(())
}

impl ColumnLayout {
    // A layout of no columns, to be filled.
    pub fn new() -> ColumnLayout
        ensures { result ≡ empty }
    {
        ColumnLayout {
            count: 0,
            natural: [0; MAX_COLUMNS],
            widths: [0; MAX_COLUMNS],
            taken: 0,
        }
    }
}
