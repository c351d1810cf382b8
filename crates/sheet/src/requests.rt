// What a script asks of its sheet: a line is read into a request, the sheet answers it, and the answer is told.
//
// Loads, questions, paints and switches all go through `Markdown::answer`, whose contract is the library's law over
// a sheet's past.
use crate::pages::side;
use crate::sheets::number_32;
use crate::stops::*;
use crate::texts::{RuleName, RulerName, last_name};
use grid::Grid;
use markdown::{HeightQuestion, Markdown, Request, TableLayout, TableQuestion};
use page::Surface;
use std::fmt;
use std::str::FromStr;
use words::{Fault, Words};

// A request of a script. A paint alone has a page. The others have none, but a type of page has to be named for
// them all the same: a grid, the plainest.
pub type Asked<'x, S = Grid<'x>> = Request<'x, RulerName, RuleName, S>;

// Whether the source is still arriving, as a script names it.
#[derive(Clone, Copy)]
struct SwitchName(bool);

impl FromStr for SwitchName {
    type Err = Fault;

    fn from_str(word: &str) -> Result<SwitchName, Fault> {
        match word {
            "on" => Ok(SwitchName(true)),
            "off" => Ok(SwitchName(false)),
            _ => Err(Fault::UnknownName),
        }
    }
}

impl fmt::Display for SwitchName {
    fn fmt<W: fmt::Write>(&self, f: &mut fmt::Formatter<W>) -> fmt::Result {
        f.write_str(if self.0 { "on" } else { "off" })
    }
}

// What stands for the answer of a request until the sheet gives its own: nothing is refused so far.
pub fn unanswered<E>() -> Result<(), E> {
    Ok(())
}

pub fn read_streaming<'x>(words: Words) -> Result<Asked<'x>, Fault> {
    let SwitchName(on) = last_name(words)?;
    Ok(Request::Streaming(on))
}

pub fn read_height<'x>(rule: RuleName, mut words: Words) -> Result<Asked<'x>, Fault> {
    let width = side(&mut words)?;
    words.end()?;
    Ok(Request::Height(HeightQuestion {
        rule,
        width,
        // no row is counted so far
        answer: 0,
    }))
}

pub fn read_table<'x>(rule: RuleName, mut words: Words) -> Result<Asked<'x>, Fault> {
    let number = number_32(&mut words)? as usize;
    let width = side(&mut words)?;
    words.end()?;
    Ok(Request::Table(TableQuestion {
        rule,
        number,
        width,
        layout: TableLayout::new(),
        answer: unanswered(),
    }))
}

// Has the sheet answer a request, and tells the answer.
pub fn ask<S: Surface + Drop>(
    rt: &HostRuntime,
    sheet: &mut Markdown,
    mut request: Asked<'_, S>,
) -> Result<(), Stop> {
    sheet.answer(&mut request);
    tell(rt, &request)
}

// Prints the answer that a request holds, or gives the refusal.
fn tell<S>(rt: &HostRuntime, request: &Asked<'_, S>) -> Result<(), Stop> {
    match request {
        Request::Load(loading) => {
            loading.answer?;
            println!(rt; "load ok")?;
        }
        Request::Streaming(on) => {
            let name = SwitchName(*on);
            println!(rt; "streaming {name}")?;
        }
        Request::Table(question) => {
            question.answer?;
            print_table(rt, question)?;
        }
        Request::Height(measure) => {
            let HeightQuestion { width, answer, .. } = measure;
            println!(rt; "height {width} {answer}")?;
        }
        Request::Paint(painting) => {
            painting.answer?;
            println!(rt; "paint ok")?;
        }
    }
    Ok(())
}

// A layout behind the question that it answers.
fn print_table(rt: &HostRuntime, question: &TableQuestion<RuleName>) -> Result<(), Stop> {
    let TableQuestion {
        number,
        width,
        layout,
        ..
    } = question;
    let mut widths = String::new(rt.alloc());
    for cells in layout
        .columns
        .widths
        .iter()
        .take(usize::from(layout.columns.count))
    {
        write!(widths, " {cells}")?;
    }
    let taken = layout.columns.taken;
    let rows = layout.rows;
    println!(rt; "table {number} {width} widths{widths} taken {taken} rows {rows}")?;
    Ok(())
}
