// One mixed sheet at widths 0 to 40 and at 65,535, against the answers that tools/height_answers.py
// found by trying every place and handing out every cell.

use super::answers::{SHEET, STORED, Stored};
use super::sheets::{NO_GLYPH, load};
use markdown::{Markdown, TableLayout};
use records::kinds::{Row, Span};
use std::process::Abort;
use std::test::Fail;
use wrap::{BreakingRule, CuttingRule, WordRule};

// How many numbers an answer has for each table, and where the first table's begin.
const EACH: usize = 8;

const FIRST: usize = 4;

// Holds the answers by one rule against the stored ones; `rule_number` is the place of the rule's own numbers.
fn check<R: BreakingRule>(
    rt: &impl Abort,
    sheet: &Markdown,
    rule: &R,
    rule_number: usize,
    stored: &Stored,
) {
    assert!(rt; rule_number < 2);
    let width = u16::try_from(stored[0]).unwrap_or(u16::MAX);
    assert!(rt;
        u32::from(sheet.height(rule, width)) == stored[2 + rule_number],
        "height at {width}"
    );
    for number in 0..4usize {
        let numbers = &stored[FIRST + EACH * number..FIRST + EACH * number + EACH];
        let mut layout = TableLayout::new();
        assert!(rt; sheet.table(rule, number, width, &mut layout).is_ok());
        assert!(rt;
            u32::from(layout.columns.count) == numbers[0],
            "columns at {width}"
        );
        for (place, cells) in layout.columns.widths[..4].iter().enumerate() {
            assert!(rt;
                u32::from(*cells) == numbers[1 + place],
                "widths at {width}"
            );
        }
        assert!(rt; layout.columns.taken == numbers[5], "taken at {width}");
        assert!(rt;
            u32::from(layout.rows) == numbers[6 + rule_number],
            "rows at {width}"
        );
    }
}

#[test]
fn a_mixed_sheet_is_laid_out_as_stored(rt: HostRuntime) -> Result<(), Fail> {
    let mut glyphs = [NO_GLYPH; 512];
    let mut lines = [Span::EMPTY; 64];
    let mut rows = [Row::BLANK; 16];
    let mut sheet = Markdown::new(&mut glyphs, &mut lines, &mut rows);
    load(rt.alloc(), &mut sheet, SHEET.as_bytes())?;
    for stored in &STORED {
        sheet.streaming(stored[1] == 1);
        check(&rt, &sheet, &WordRule, 0, stored);
        check(&rt, &sheet, &CuttingRule, 1, stored);
    }
    Ok(())
}
