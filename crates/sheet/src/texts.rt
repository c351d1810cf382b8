// The commands on byte strings: measuring, glyphs, rows and the streaming tail.
ghost use Rattle.sheet.specs.Names.{ruling_of, breaking_of};

use crate::pages::side;
use crate::stops::*;
use glyphs::{Bytes, Cluster, Clusters, Glyph, Ruler, Utf8, count_glyphs, sanitize};
use std::alloc::Global;
use std::fmt;
use std::str::{FromStr, from_utf8};
use style::{Style, Symbol};
use tail::{Refusal, cook_streaming_tail, cooked_text};
use words::{Fault, Words, hex_text};
use wrap::{BreakingRule, CuttingRule, Rows, WordRule, row_count};

// A ruler, as a script names it.
#[derive(Clone, Copy)]
pub enum RulerName {
    Byte,
    Utf8,
}

impl FromStr for RulerName {
    type Err = Fault;

    fn from_str(word: &str) -> Result<RulerName, Fault> {
        match word {
            "byte" => Ok(RulerName::Byte),
            "utf8" => Ok(RulerName::Utf8),
            _ => Err(Fault::UnknownName),
        }
    }
}

impl Ruler for RulerName {
    ghost meaning = { ruling_of };

    fn admits(&self, text: &[u8]) -> bool {
        match self {
            RulerName::Byte => Bytes.admits(text),
            RulerName::Utf8 => Utf8.admits(text),
        }
    }

    fn cluster(&self, text: &[u8], at: usize) -> Cluster {
        match self {
            RulerName::Byte => Bytes.cluster(text, at),
            RulerName::Utf8 => Utf8.cluster(text, at),
        }
    }
}

impl fmt::Display for RulerName {
    fn fmt<W: fmt::Write>(&self, f: &mut fmt::Formatter<W>) -> fmt::Result {
        f.write_str(match self {
            RulerName::Byte => "byte",
            RulerName::Utf8 => "utf8",
        })
    }
}

// A breaking rule, as a script names it.
#[derive(Clone, Copy)]
pub enum RuleName {
    Word,
    Cutting,
}

impl FromStr for RuleName {
    type Err = Fault;

    fn from_str(word: &str) -> Result<RuleName, Fault> {
        match word {
            "word" => Ok(RuleName::Word),
            "cutting" => Ok(RuleName::Cutting),
            _ => Err(Fault::UnknownName),
        }
    }
}

impl BreakingRule for RuleName {
    ghost meaning = { breaking_of };

    fn break_row(&self, line: &[Glyph], width: u16, start: usize) -> (usize, usize) {
        match self {
            RuleName::Word => WordRule.break_row(line, width, start),
            RuleName::Cutting => CuttingRule.break_row(line, width, start),
        }
    }
}

impl fmt::Display for RuleName {
    fn fmt<W: fmt::Write>(&self, f: &mut fmt::Formatter<W>) -> fmt::Result {
        f.write_str(match self {
            RuleName::Word => "word",
            RuleName::Cutting => "cutting",
        })
    }
}

const BLANK: Glyph = Glyph {
    symbol: Symbol::SPACE,
    width: 1,
    style: Style::PLAIN,
};

// The byte string that is the last word of a line.
pub fn last_bytes(heap: Global, mut words: Words) -> Result<Vec<u8>, Fault> {
    let bytes = words.next_bytes(heap)?;
    words.end()?;
    Ok(bytes)
}

// The name that is the last word of a line.
pub fn last_name<T: FromStr<Err = Fault> + Drop>(mut words: Words) -> Result<T, Fault> {
    let name = words.next_word().ok_or(Fault::MissingName)?;
    let value = name.parse::<T>()?;
    words.end()?;
    Ok(value)
}

// A cluster or a glyph as it is told behind others: its bytes and its width.
fn push_piece(heap: Global, line: &mut String, bytes: &[u8], width: u8) -> Result<(), Fault> {
    let bytes = hex_text(heap, bytes)?;
    write!(line, " {bytes}:{width}")?;
    Ok(())
}

pub fn measure(rt: &HostRuntime, ruler: RulerName, words: Words) -> Result<(), Stop> {
    let text = last_bytes(rt.alloc(), words)?;
    let text = text.as_slice();
    if !ruler.admits(text) {
        println!(rt; "measure refused")?;
        return Ok(());
    }
    let mut line = String::from_str(rt.alloc(), "measure")?;
    for cut in Clusters::new(&ruler, text) {
        push_piece(rt.alloc(), &mut line, cut.bytes, cut.width)?;
    }
    rt.println(line)?;
    Ok(())
}

// The glyphs that a text becomes, where the ruler admits it.
fn glyphs_of(heap: Global, ruler: RulerName, text: &[u8]) -> Result<Option<Vec<Glyph>>, Stop> {
    if !ruler.admits(text) {
        return Ok(None);
    }
    let count = count_glyphs(&ruler, text);
    let mut memory = vec![in heap; BLANK; count]?;
    sanitize(&ruler, text, Style::PLAIN, memory.as_mut_slice(), 0);
    Ok(Some(memory))
}

pub fn glyphs(rt: &HostRuntime, ruler: RulerName, words: Words) -> Result<(), Stop> {
    let text = last_bytes(rt.alloc(), words)?;
    let Some(glyphs) = glyphs_of(rt.alloc(), ruler, text.as_slice())? else {
        println!(rt; "glyphs refused")?;
        return Ok(());
    };
    let mut line = String::from_str(rt.alloc(), "glyphs")?;
    for glyph in glyphs.iter() {
        let bytes = glyph.symbol.to_bytes();
        let bytes = symbol_bytes(&bytes, glyph.symbol);
        push_piece(rt.alloc(), &mut line, bytes, glyph.width)?;
    }
    rt.println(line)?;
    Ok(())
}

// A symbol's own bytes of the eight that stand for it.
pub fn symbol_bytes(bytes: &[u8; 8], symbol: Symbol) -> &[u8] {
    &bytes[..usize::from(symbol.len).min(8)]
}

// The bytes of a symbol as they are printed.
pub fn symbol_text(heap: Global, symbol: Symbol) -> Result<String, Fault> {
    hex_text(heap, symbol_bytes(&symbol.to_bytes(), symbol))
}

// A symbol that is text without controls as it is, any other as the replacement sign.
pub fn push_symbol(row: &mut String, symbol: Symbol) -> Result<(), Fault> {
    let bytes = symbol.to_bytes();
    match from_utf8(symbol_bytes(&bytes, symbol)) {
        Ok(text) if !has_control(text) => row.push_str(text)?,
        _ => row.push('\u{FFFD}')?,
    }
    Ok(())
}

fn has_control(symbol: &str) -> bool {
    symbol.chars().any(|c| c.is_control())
}

pub fn rows(
    rt: &HostRuntime,
    ruler: RulerName,
    rule: RuleName,
    mut words: Words,
) -> Result<(), Stop> {
    let width = side(&mut words)?;
    let text = last_bytes(rt.alloc(), words)?;
    if width == 0 {
        return Err(Stop::Line(Fault::TooNarrow));
    }
    let Some(glyphs) = glyphs_of(rt.alloc(), ruler, text.as_slice())? else {
        println!(rt; "rows refused")?;
        return Ok(());
    };
    print_rows(rt, rule, glyphs.as_slice(), width)
}

// The rows of a line, each by the places where it starts and ends: an empty line is one row.
fn print_rows(rt: &HostRuntime, rule: RuleName, line: &[Glyph], width: u16) -> Result<(), Stop> {
    let count = row_count(&rule, line, width);
    let mut places = String::new(rt.alloc());
    if line.is_empty() {
        places.push_str(" 0-0")?;
    }
    for (start, end) in Rows::new(&rule, line, width) {
        write!(places, " {start}-{end}")?;
    }
    println!(rt; "rows {width} {count}{places}")?;
    Ok(())
}

// Asks first how long the cooked text is, and then for the text.
pub fn cook(rt: &HostRuntime, words: Words) -> Result<(), Stop> {
    let source = last_bytes(rt.alloc(), words)?;
    let source = source.as_slice();
    let len = match cook_streaming_tail(source, &mut []) {
        Ok(_) => {
            println!(rt; "cook same")?;
            return Ok(());
        }
        Err(Refusal::TooShort(needed)) => {
            usize::try_from(needed).map_err(|_| Stop::Line(Fault::NoMemory))?
        }
        Err(refusal) => {
            println!(rt; "cook refused {refusal}")?;
            return Ok(());
        }
    };
    let mut out = vec![in rt.alloc(); 0u8; len]?;
    if let Ok(cooked) = cook_streaming_tail(source, out.as_mut_slice()) {
        let text = hex_text(rt.alloc(), cooked_text(cooked, source, out.as_slice()))?;
        println!(rt; "cook {text}")?;
    }
    Ok(())
}
