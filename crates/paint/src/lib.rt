//! Painting a sheet on a page.
//!
//! A sheet is drawn in an area of any surface, by any breaking rule: texts row by row, tables in rules
//! and borders, one row between blocks, down to the area's lower edge and no further. The pen puts
//! strokes within its bounds only; while an entry is drawn these are narrowed to the entry, and put
//! back on every way out. All reaches the surface through its own `put`.
//!
//! The main promise: every cell of the page after a paint is that of the definition in `drawings`, and
//! a refusal changes nothing.

#![tactic(auto)]

ghost use Rattle.std.specs.Prelude.{◌≡◌, true, false, is_ok};
ghost use Rattle.blocks.specs.Reads.{blocks_of};
ghost use Rattle.drawings.specs.Drawings.{drawing};
ghost use Rattle.drawings.specs.Pages.{on_page, Apart, EachTaken, Paint};
ghost use Rattle.paint.specs.Refusals.{answered};

mod lines;
mod pen;
mod refusals;
mod rows;
mod rules;
mod sheets;
mod tables;
mod texts;

use drawings::Area;
use layout::Layout;
use page::{Sides, Surface};
use pen::Pen;
use records::kinds::Records;
pub use refusals::Refusal;
use style::Style;
use wrap::BreakingRule;

// Whether an area lies on a page of these sides.
fn lies_on(area: Area, sides: Sides) -> bool
    ensures value { result ≡ on_page area sides.width sides.height }
{
    let right = u32::from(area.x) + u32::from(area.width);
    let bottom = u32::from(area.y) + u32::from(area.height);
    right <= u32::from(sides.width) && bottom <= u32::from(sides.height)
}

// Draws a sheet in an area of a page, tables lined in the border's style. It is refused where the area
// passes the edge of the page.
pub fn render<S: Surface, R: BreakingRule>(
    page: &mut S,
    area: Area,
    rule: &R,
    sheet: &Records,
    streaming: bool,
    border: Style,
) -> Result<(), Refusal>
    ensures answer { result ≡ answered area (S.Surface.shows page.old).wide (S.Surface.shows page.old).high }
    ensures after { is_ok result ≡ true → Paint S.Surface.shows S.Surface.held S.Surface.rest S.Surface.lawful area (drawing (R.BreakingRule.meaning rule.now) area.width streaming border (blocks_of sheet.now)) page.old page.new }
    ensures same { is_ok result ≡ false → page.new ≡ page.old }
    ensures apart { Apart (drawing (R.BreakingRule.meaning rule.now) area.width streaming border (blocks_of sheet.now)) }
    ensures taken { EachTaken border (blocks_of sheet.now) (drawing (R.BreakingRule.meaning rule.now) area.width streaming border (blocks_of sheet.now)) }
{
    if !lies_on(area, page.sides()) {
        return Err(Refusal::PastEdge);
    }
    if area.width > 0 && area.height > 0 {
        let mut pen = Pen::new(area);
        let layout = Layout {
            rule,
            records: sheet,
            width: area.width,
            streaming,
        };
        pen.draw_blocks(page, &layout, border);
    }
    Ok(())
}
