// The command `columns`: how the columns of a table are shared out on a page.
//
// `columns WIDTH N1 N2 ..` gives the page's width and the natural widths of the columns;
// `columns WIDTH streaming N1 N2 ..` asks for an open table of a sheet that is still streaming.
// The answer is `columns WIDTH widths W1 W2 .. taken T`.
ghost use Rattle.std.specs.Prelude.{◌≡◌, take, Ok, vec_items, string_bytes};
ghost use Rattle.words.specs.Outcomes.{Gives};
ghost use Rattle.words.specs.Pieces.{words_left};
ghost use Rattle.script.specs.Shares.{asked, naturals_in, columns_in, spaced, columns_line, fault_of, shares_answer};

use columns::{ColumnLayout, MAX_COLUMNS, Refusal, share_columns};
use std::alloc::Global;
use words::{Fault, Words, number};

#[derive(Drop)]
pub struct ColumnsCommand {
    pub width: u16,
    pub growing: bool,
    pub natural: Vec<u32>,
}

// The limits on columns are those of the shares, which alone know them.
fn fault_of(e: Refusal) -> Fault
    ensures { result ≡ fault_of e }
{
    match e {
        Refusal::TooManyColumns => Fault::TooManyColumns,
        Refusal::TooWide(_) => Fault::TooWide,
    }
}

pub fn read_columns(heap: Global, mut words: Words) -> Result<ColumnsCommand, Fault>
    ensures { Gives asked result (columns_in (words_left words.entry)) }
{
    let word = words.next_word().ok_or(Fault::MissingNumber)?;
    Ok(ColumnsCommand {
        width: number(word, u64::from(u16::MAX), Fault::TooWide)? as u16,
        growing: words.skip_word("streaming"),
        natural: read_naturals(heap, words)?,
    })
}

fn read_naturals(heap: Global, words: Words) -> Result<Vec<u32>, Fault>
    ensures { Gives vec_items result (naturals_in (words_left words.entry)) }
{
    let mut natural = Vec::new(heap);
    for word in words {
        let n = number(word, u64::from(u32::MAX), Fault::TooWide)?;
        natural.push(n as u32)?;
    }
    Ok(natural)
}

pub fn answer_columns(heap: Global, command: &ColumnsCommand) -> Result<String, Fault>
    ensures { Gives string_bytes result (shares_answer (asked command.now)) }
{
    let mut layout = ColumnLayout::new();
    let natural = command.natural.as_slice();
    share_columns(command.width, command.growing, natural, &mut layout).map_err(fault_of)?;
    columns_line(heap, command.width, &layout)
}

// The line that tells a layout at a page width.
pub fn columns_line(heap: Global, width: u16, layout: &ColumnLayout) -> Result<String, Fault>
    ensures { Gives string_bytes result (Ok (columns_line width layout.now)) }
{
    let widths = numbers_text(heap, widths_of(layout))?;
    let taken = layout.taken;
    Ok(format!(in heap; "columns {width} widths{widths} taken {taken}")?)
}

fn widths_of(layout: &ColumnLayout) -> &[u16]
    ensures { result.now ≡ take layout.now.count layout.now.widths }
{
    let count = usize::from(layout.count).min(MAX_COLUMNS);
    &layout.widths[..count]
}

// Numbers in decimal, each behind a space.
fn numbers_text(heap: Global, numbers: &[u16]) -> Result<String, Fault>
    ensures { Gives string_bytes result (Ok (spaced numbers.now)) }
{
    let mut text = String::new(heap);
    for n in numbers {
        write!(text, " {n}")?;
    }
    Ok(text)
}
