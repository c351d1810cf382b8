//! A sheet: the blocks of its last admitted load, in memory lent at its start.
//!
//! A load takes events with their text and source, eight styles and a ruler, from any host. It checks
//! all of them and counts the records that they need, in memory without a place, before it writes
//! anything. The main promise: the answer is a function of styles, events, text, source, the ruler's
//! meaning and the lent lengths alone; on a refusal nothing changes, lent memory included; on success
//! the blocks read from memory are those of the definition over lists.
//!
//! A loaded sheet tells its height on a page, and how a table of it is laid out there, and is painted into
//! an area of any page, by any breaking rule. All of these are exactly those of the rules over its blocks,
//! and none changes the sheet. Streaming is switched on and off.
//!
//! The law over its past: some time ago a sheet was new, and the calls made of it since are its entire past.
//! Whatever these were, it holds the blocks and the border of its last admitted load and streaming as last
//! switched, and every one of them was answered, and drew, as that gives. `answer` makes any call, and its
//! contract owns this law; `run` makes many on a new sheet.

#![tactic(auto)]

ghost use Rattle.blocks.specs.Reads.{blocks_of};
ghost use Rattle.layout_laws.specs.Layouts.{Low};
ghost use Rattle.markdown.specs.Sheets.{sheet};
ghost use Rattle.markdown.specs.Pasts.{HasSomePast};

mod loading;
mod reading;
mod requests;
mod tables;

use blank::Source;
pub use drawings::Area;
use events::event::Event;
use events::refusal::Refusal;
use events::styles::MarkdownStyles;
use fold::load::Load;
use glyphs::{Glyph, Ruler};
use layout::{Layout, table_at};
use loading::refill;
pub use loading::{MAX_GLYPHS, MAX_LINES, MAX_ROWS, MAX_TABLES};
use page::Surface;
pub use paint::Refusal as RenderRefusal;
use records::kinds::{Records, Row, Span};
pub use requests::{HeightQuestion, Loading, Painting, Request, TableQuestion};
use style::Style;
pub use tables::{TableLayout, TableRefusal};
use wrap::BreakingRule;

/// A sheet, over memory that is lent. Its fields are its own, so that no host makes one that no past gives.
/// Whatever the page and the rule, its blocks take at most 59,211 rows.
#[derive(Drop)]
pub struct Markdown<'a> {
    records: Records<'a>,
    border: Style,
    streaming: bool,
    ghost low: { Low (blocks_of records) },
    ghost lived: { HasSomePast (sheet (blocks_of records) border streaming) records },
}

impl<'a> Markdown<'a> {
    ghost use Rattle.std.specs.Prelude.{◌≡◌, ◌≤◌, true, false, [], None, map, length, is_ok};
    ghost use Rattle.std.specs.List.{AllZip};
    ghost use Rattle.drawings.specs.Pages.{Paint};
    ghost use Rattle.markdown.specs.Sheets.{empty_sheet, switched, lent_of};
    ghost use Rattle.markdown.specs.Tables.{height_of, table_placed};
    ghost use Rattle.markdown.specs.Pictures.{picture};
    ghost use Rattle.markdown.specs.Outcomes.{load_outcome, table_outcome, render_outcome};
    ghost use Rattle.markdown.specs.Calls.{load as load_call, load_of, loaded, switch, question, height as height_call, paint};
    ghost use Rattle.markdown.specs.Fronts.{StandsInFront, IsUntouched};
    ghost use Rattle.markdown.specs.Holds.{over, admitted_load};
    ghost use Rattle.markdown.specs.Replies.{load_ended, switch_ended, question_ended, height_is, paint_ended, load_verdict, table_verdict, render_verdict, Gives};
    ghost use Rattle.markdown.specs.Pasts.{past, Law};
    ghost use Rattle.markdown.specs.Views.{sheet_of, memory_of, limits_of};
    ghost use Rattle.markdown.specs.GoesOn.{HasPast, GoesOn};
    ghost use Rattle.markdown.specs.Requests.{call_in, answer_in, IsAnswered};

    /// A sheet without a block over the memory that it is lent, whose lengths are its limits. The memory is
    /// left as it is, and no record of it is in use; the border is the default, and streaming is off.
    pub fn new(glyphs: &'a mut [Glyph], lines: &'a mut [Span], rows: &'a mut [Row]) -> Markdown<'a>
        ensures made { sheet_of result ≡ empty_sheet }
        ensures memory { IsUntouched (lent_of glyphs.old lines.old rows.old) (memory_of result) }
        ensures past { HasPast (past (over glyphs.old lines.old rows.old) [] []) result }
    {
        Markdown {
            records: Records::new(glyphs, lines, rows),
            border: MarkdownStyles::new().table_border,
            streaming: false,
        }
    }

    /// Takes in a sheet, or tells why not; then nothing changes, the lent memory included. After an
    /// admitted load its records stand at the front of the lent memory, and what lies beyond them is free.
    pub fn load<'x, R: Ruler>(
        &mut self,
        ruler: &R,
        styles: &MarkdownStyles,
        events: &'x [Event],
        text: &'x [u8],
        source: &[u8],
    ) -> Result<(), Refusal>
        ensures number { let l = load_of (R.Ruler.meaning ruler.now) styles.now text.now
            source.now events.now in
            load_outcome result ≡ load_verdict (limits_of self.old) l }
        ensures held { let l = load_of (R.Ruler.meaning ruler.now) styles.now text.now
            source.now events.now in
            sheet_of self.new ≡ loaded result l (sheet_of self.old) }
        ensures front { let l = load_of (R.Ruler.meaning ruler.now) styles.now text.now
            source.now events.now in
            is_ok result ≡ true → StandsInFront l (memory_of self.new) }
        ensures same { is_ok result ≡ false → memory_of self.new ≡ memory_of self.old }
        ensures room { limits_of self.new ≡ limits_of self.old }
        ensures past { let l = load_of (R.Ruler.meaning ruler.now) styles.now text.now
            source.now events.now in
            GoesOn (load_call l) (load_ended (load_outcome result)) self.old self.new }
    {
        let source = Source::new(source);
        let load = Load {
            ruler,
            styles,
            events,
            text,
            source: &source,
        };
        refill(&mut self.records, &load)?;
        self.border = styles.table_border;
        Ok(())
    }

    /// Switches streaming on or off: whether the source is still arriving, so that an open table at its end
    /// takes the slack of the page. Nothing else changes, the lent memory included.
    pub fn streaming(&mut self, on: bool)
        ensures held { sheet_of self.new ≡ switched on (sheet_of self.old) }
        ensures same { memory_of self.new ≡ memory_of self.old }
        ensures past { GoesOn (switch on) switch_ended self.old self.new }
    {
        self.streaming = on;
    }

    /// How many rows the sheet takes on a page of this width in cells, at most 59,211; none at width 0.
    pub fn height<R: BreakingRule>(&self, rule: &R, width: u16) -> u16
        ensures value { let rule = R.BreakingRule.meaning rule.now in
            result ≡ height_of rule width (sheet_of self.now) }
        ensures bound { result ≤ 59211 }
        ensures past { let call = height_call (R.BreakingRule.meaning rule.now) width in
            GoesOn call (height_is result) self.now self.now }
    {
        if width == 0 {
            return 0;
        }
        let page = Layout {
            rule,
            records: &self.records,
            width,
            streaming: self.streaming,
        };
        page.total_rows() as u16
    }

    /// Fills `layout` with the layout that a table has on a page of this width in cells, 0 allowed. The table
    /// goes by its number among the sheet's tables, from 0. Refused with 10 where there is none; `layout`
    /// stays as it is then.
    pub fn table<R: BreakingRule>(
        &self,
        rule: &R,
        number: usize,
        width: u16,
        layout: &mut TableLayout,
    ) -> Result<(), TableRefusal>
        ensures number { table_outcome result ≡ table_verdict number (sheet_of self.now) }
        ensures after { let rule = R.BreakingRule.meaning rule.now in
            layout.new ≡ table_placed rule number width (sheet_of self.now) layout.old }
        ensures past { let rule = R.BreakingRule.meaning rule.now in
            let call = question rule number width layout.old in
            GoesOn call (question_ended (table_outcome result) layout.new) self.now self.now }
    {
        let (info, rows) = table_at(&self.records, number).ok_or(TableRefusal::NoTable)?;
        let page = Layout {
            rule,
            records: &self.records,
            width,
            streaming: self.streaming,
        };
        let (columns, height) = page.layout_table(info, rows);
        *layout = TableLayout {
            columns,
            rows: height as u16,
        };
        Ok(())
    }

    /// Paints the sheet into an area of a page, from the area's upper left corner on and as far as the area
    /// goes. Refused with 5 where the area passes the edge of the page; nothing changes then.
    pub fn render<S: Surface, R: BreakingRule>(
        &self,
        rule: &R,
        area: Area,
        page: &mut S,
    ) -> Result<(), RenderRefusal>
        ensures number { let shown = S.Surface.shows page.old in
            render_outcome result ≡ render_verdict area shown.wide shown.high }
        ensures after { let rule = R.BreakingRule.meaning rule.now in
            let drawing = picture rule area.width (sheet_of self.now) in
            let painted = Paint S.Surface.shows S.Surface.held S.Surface.rest S.Surface.lawful in
            is_ok result ≡ true → painted area drawing page.old page.new }
        ensures same { is_ok result ≡ false → page.new ≡ page.old }
        ensures past { let rule = R.BreakingRule.meaning rule.now in
            let call = paint rule area (S.Surface.shows page.old) in
            let shown = S.Surface.shows page.new in
            GoesOn call (paint_ended (render_outcome result) shown) self.now self.now }
    {
        paint::render(page, area, rule, &self.records, self.streaming, self.border)
    }

    /// Makes a call of any kind, and keeps its answer in the request. This call owns the law over a sheet's
    /// past: the call and its answer are now the end of it.
    pub fn answer<R: Ruler, B: BreakingRule, S: Surface>(
        &mut self,
        request: &mut Request<'_, R, B, S>,
    )
        ensures given { let c = call_in R.Ruler.meaning B.BreakingRule.meaning S.Surface.shows
            request.old in
            let a = answer_in S.Surface.shows request.new in
            Gives (limits_of self.old) (sheet_of self.old) c a }
        ensures past { let c = call_in R.Ruler.meaning B.BreakingRule.meaning S.Surface.shows
            request.old in
            GoesOn c (answer_in S.Surface.shows request.new) self.old self.new }
        ensures same { let c = call_in R.Ruler.meaning B.BreakingRule.meaning S.Surface.shows
            request.old in
            admitted_load (limits_of self.old) c ≡ None → memory_of self.new ≡ memory_of self.old }
        ensures room { limits_of self.new ≡ limits_of self.old }
        ensures kept { let kept = IsAnswered S.Surface.held S.Surface.rest S.Surface.lawful in
            kept request.old request.new }
    {
        match request {
            Request::Load(it) => {
                it.answer = self.load(&it.ruler, &it.styles, it.events, it.text, it.source);
            }
            Request::Streaming(on) => self.streaming(*on),
            Request::Table(it) => {
                it.answer = self.table(&it.rule, it.number, it.width, &mut it.layout);
            }
            Request::Height(it) => it.answer = self.height(&it.rule, it.width),
            Request::Paint(it) => it.answer = self.render(&it.rule, it.area, &mut it.page),
        }
    }

    /// A new sheet, of which these calls have been made in their order; each request keeps its answer.
    pub fn run<R: Ruler, B: BreakingRule, S: Surface>(
        glyphs: &'a mut [Glyph],
        lines: &'a mut [Span],
        rows: &'a mut [Row],
        requests: &mut [Request<'_, R, B, S>],
    ) -> Markdown<'a>
        ensures past { let call = call_in R.Ruler.meaning B.BreakingRule.meaning S.Surface.shows in
            let calls = map call requests.old in
            let answers = map (answer_in S.Surface.shows) requests.new in
            HasPast (past (over glyphs.old lines.old rows.old) calls answers) result }
        ensures kept { let kept = IsAnswered S.Surface.held S.Surface.rest S.Surface.lawful in
            AllZip kept requests.old requests.new }
    {
        let mut sheet = Markdown::new(glyphs, lines, rows);
        for request in requests.iter_mut() {
            sheet.answer(request);
        }
        sheet
    }
}
