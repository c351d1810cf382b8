// The blocks of a sheet: glyph by glyph, and as text for a person.
use crate::stops::*;
use crate::texts::{push_symbol, symbol_text};
use glyphs::Glyph;
use markdown::Markdown;
use records::kinds::{Alignment, Block, Info, Records, Row, Span};
use std::alloc::Global;
use std::fmt;
use words::{Fault, Words};

// An alignment, as it is printed.
#[derive(Clone, Copy)]
struct AlignmentName(Alignment);

impl fmt::Display for AlignmentName {
    fn fmt<W: fmt::Write>(&self, f: &mut fmt::Formatter<W>) -> fmt::Result {
        f.write_str(match self.0 {
            Alignment::Left => "left",
            Alignment::Centre => "centre",
            Alignment::Right => "right",
        })
    }
}

fn open_name(info: Info) -> &'static str {
    if info.open { "open" } else { "closed" }
}

// The entries of a row, as many as the table has columns.
fn entries(row: &Row, info: Info) -> &[Span] {
    row.entries
        .get(..usize::from(info.columns))
        .unwrap_or(&row.entries)
}

fn push_glyph(heap: Global, line: &mut String, glyph: Glyph) -> Result<(), Fault> {
    let symbol = symbol_text(heap, glyph.symbol)?;
    let width = glyph.width;
    let style = glyph.style;
    write!(
        line,
        " {symbol}:{width}:{}:{}:{}:{}",
        style.fg, style.bg, style.add, style.remove
    )?;
    Ok(())
}

// Glyphs behind a name.
fn print_glyphs(rt: &HostRuntime, mut line: String, glyphs: &[Glyph]) -> Result<(), Stop> {
    for glyph in glyphs {
        push_glyph(rt.alloc(), &mut line, *glyph)?;
    }
    rt.println(line)?;
    Ok(())
}

fn print_text(rt: &HostRuntime, records: &Records, lines: &[Span]) -> Result<(), Stop> {
    let count = lines.len();
    println!(rt; "text {count}")?;
    for line in lines {
        let name = String::from_str(rt.alloc(), "line")?;
        print_glyphs(rt, name, records.glyphs_in(*line))?;
    }
    Ok(())
}

fn print_row(rt: &HostRuntime, records: &Records, info: Info, row: &Row) -> Result<(), Stop> {
    println!(rt; "row")?;
    for (column, entry) in (0..info.columns).zip(entries(row, info)) {
        let name = AlignmentName(info.alignment(column));
        let mut line = String::new(rt.alloc());
        write!(line, "entry {name}")?;
        print_glyphs(rt, line, records.glyphs_in(*entry))?;
    }
    Ok(())
}

fn print_table(rt: &HostRuntime, records: &Records, info: Info, rows: &[Row]) -> Result<(), Stop> {
    let columns = info.columns;
    let count = rows.len();
    let name = open_name(info);
    println!(rt; "table {columns} {count} {name}")?;
    for row in rows {
        print_row(rt, records, info, row)?;
    }
    Ok(())
}

// Every block, glyph by glyph.
pub fn blocks(rt: &HostRuntime, sheet: &Markdown, words: Words) -> Result<(), Stop> {
    words.end()?;
    let records = sheet.records();
    let count = records.blocks().len();
    println!(rt; "blocks {count}")?;
    for block in records.blocks() {
        match *block {
            Block::Text(lines) => print_text(rt, records, records.lines_in(lines))?,
            Block::Table(info, rows) => print_table(rt, records, info, records.rows_in(rows))?,
        }
    }
    println!(rt; "end")?;
    Ok(())
}

fn push_text(text: &mut String, glyphs: &[Glyph]) -> Result<(), Fault> {
    for glyph in glyphs {
        push_symbol(text, glyph.symbol)?;
    }
    Ok(())
}

// A line of the outline, without the spaces at its end.
fn print_outline(rt: &HostRuntime, line: &String) -> Result<(), Stop> {
    rt.println(line.as_str().trim_end_matches(' '))?;
    Ok(())
}

fn outline_text(rt: &HostRuntime, records: &Records, lines: &[Span]) -> Result<(), Stop> {
    let count = lines.len();
    println!(rt; "text of {count}")?;
    for line in lines {
        let mut text = String::from_str(rt.alloc(), "  ")?;
        push_text(&mut text, records.glyphs_in(*line))?;
        print_outline(rt, &text)?;
    }
    Ok(())
}

fn outline_row(rt: &HostRuntime, records: &Records, entries: &[Span]) -> Result<(), Stop> {
    let mut text = String::from_str(rt.alloc(), "  |")?;
    for entry in entries {
        text.push(' ')?;
        push_text(&mut text, records.glyphs_in(*entry))?;
        text.push_str(" |")?;
    }
    print_outline(rt, &text)
}

fn outline_table(
    rt: &HostRuntime,
    records: &Records,
    info: Info,
    rows: &[Row],
) -> Result<(), Stop> {
    let columns = info.columns;
    let count = rows.len();
    let name = open_name(info);
    println!(rt; "table of {columns} by {count}, {name}")?;
    for row in rows {
        outline_row(rt, records, entries(row, info))?;
    }
    Ok(())
}

// Every block as text: the lines of a text, and the rows of a table with bars between the entries.
pub fn outline(rt: &HostRuntime, sheet: &Markdown, words: Words) -> Result<(), Stop> {
    words.end()?;
    let records = sheet.records();
    let count = records.blocks().len();
    println!(rt; "outline {count}")?;
    for block in records.blocks() {
        match *block {
            Block::Text(lines) => outline_text(rt, records, records.lines_in(lines))?,
            Block::Table(info, rows) => outline_table(rt, records, info, records.rows_in(rows))?,
        }
    }
    println!(rt; "end")?;
    Ok(())
}
