// Columns among which the cells of a page are shared out.
ghost use Rattle.std.specs.Prelude.{◌≡◌, ℕ, ◌+◌, ◌-◌, ◌^◌, ◌<◌, ◌≤◌, length, sum, slice_index};
ghost use Rattle.shares.specs.Shares.{Fed, Lowers, budget, shaved, stretched, widths, taken};
ghost use Rattle.columns.specs.Layout.{slots};

use crate::{ColumnLayout, MAX_COLUMNS};

// The widths of a table's columns, which are lent to be changed: one column at least and 32 at most, each of one cell at least.
#[derive(Drop)]
pub struct Widths<'a> {
    pub cells: &'a mut [u32],
    ghost some: { 0 < length cells.now },
    ghost few: { length cells.now ≤ 32 },
    ghost fed: { Fed cells.now },
    ghost fits: { sum cells.now < 2 ^ 32 },
}

impl Widths<'_> {
    ghost use Rattle.columns.specs.Layout.{shared_out};

    // The place of the widest column, the rightmost of equals.
    fn find_widest(&self) -> usize
        ensures bound { result < length self.now.cells.now }
        ensures most { (k : ℕ) → k < length self.now.cells.now → slice_index self.now.cells.now k ≤ slice_index self.now.cells.now result }
        ensures rightmost { (k : ℕ) → result < k → k < length self.now.cells.now → slice_index self.now.cells.now k < slice_index self.now.cells.now result }
    {
        let mut best = 0;
        for (i, w) in self.cells.iter().enumerate() {
            if *w >= self.cells[best] {
                best = i;
            }
        }
        best
    }

    // Takes one cell from the widest column, and tells whether it had one to give.
    fn take_cell(&mut self) -> bool
        ensures { Lowers self.old.cells.now result self.new.cells.now }
    {
        let w = self.find_widest();
        if self.cells[w] <= 1 {
            return false;
        }
        self.cells[w] -= 1;
        true
    }

    // Takes cells one by one, as many as are asked for or until every column has one. Gives the number taken.
    fn shave(&mut self, excess: u32) -> u32
        ensures after { self.new.cells.now ≡ shaved excess self.old.cells.now }
        ensures value { result + sum self.new.cells.now ≡ sum self.old.cells.now }
    {
        for taken in 0..excess {
            if !self.take_cell() {
                return taken;
            }
        }
        excess
    }

    // Gives the slack to the last column.
    fn stretch(&mut self, slack: u32)
        requires { sum self.old.cells.now + slack < 2 ^ 32 }
        ensures { self.new.cells.now ≡ stretched slack self.old.cells.now }
    {
        let last = self.cells.len() - 1;
        self.cells[last] += slack;
    }

    // The cells that the columns have together.
    fn total(&self) -> u32
        ensures { result ≡ sum self.now.cells.now }
    {
        self.cells.iter().sum()
    }

    // The cells that a page leaves to the columns: each has a border and a space at either side, and one border closes the table.
    fn budget(&self, width: u16) -> u32
        ensures { result ≡ budget width (length self.now.cells.now) }
    {
        u32::from(width).saturating_sub(3 * self.cells.len() as u32 + 1)
    }

    // Shares the cells of a page out among the columns. Gives the number of cells taken away.
    fn share(&mut self, width: u16, growing: bool) -> u32
        ensures after { self.new.cells.now ≡ widths width growing self.old.cells.now }
        ensures value { result ≡ taken width growing self.old.cells.now }
    {
        let need = self.total();
        let budget = self.budget(width);
        if need > budget {
            return self.shave(need - budget);
        }
        if growing {
            self.stretch(budget - need);
        }
        0
    }

    // The widths in the slots of a layout, in 16 bits.
    fn in_slots(&self) -> [u16; MAX_COLUMNS]
        requires { (i : ℕ) → slice_index self.now.cells.now i < 2 ^ 16 }
        ensures { result ≡ slots self.now.cells.now }
    {
        let mut slots = [0; MAX_COLUMNS];
        for (i, w) in self.cells.iter().enumerate() {
            slots[i] = *w as u16;
        }
        slots
    }

    // The widths in the slots of a layout, in 32 bits.
    fn in_wide_slots(&self) -> [u32; MAX_COLUMNS]
        ensures { result ≡ slots self.now.cells.now }
    {
        let mut slots = [0; MAX_COLUMNS];
        slots[..self.cells.len()].copy_from_slice(self.cells);
        slots
    }

    // The layout on a page of columns that have their natural widths. Afterwards they have their final ones.
    #[tactic(auto, using(crate::proofs::Filling::widths_small, crate::proofs::Filling::as_many))]
    pub fn lay_out(&mut self, width: u16, growing: bool) -> ColumnLayout
        ensures after { self.new.cells.now ≡ widths width growing self.old.cells.now }
        ensures value { result ≡ shared_out width growing self.old.cells.now }
    {
        let natural = self.in_wide_slots();
        let taken = self.share(width, growing);
        ColumnLayout {
            count: self.cells.len() as u8,
            natural,
            widths: self.in_slots(),
            taken,
        }
    }
}
