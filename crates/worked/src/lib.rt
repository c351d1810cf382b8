//! Ten worked sheets: what the rules give to them, in numbers and in signs.
//!
//! A table on pages of four widths, a table as it is drawn, two lines in rows and three tails are
//! written out, each with the answer that a reader finds by hand. The main promise: the definitions
//! that the contracts of the library cite give all these answers.

#![tactic(auto)]

ghost use Rattle.worked.specs.TenSheets.{TenSheets};

use wrap::{BreakingRule, CuttingRule, WordRule};

/// The worked sheets, by the word rule and the cutting rule.
pub fn ten_sheets()
    ensures { let word = ⟦<WordRule as BreakingRule>⟧.meaning (record {}) in
        let cutting = ⟦<CuttingRule as BreakingRule>⟧.meaning (record {}) in
        TenSheets word cutting }
{}
