// Examples of branches of the fold, as a reader would draw them.

use super::made::*;
use events::styles::MarkdownStyles;
use glyphs::{Bytes, Glyph};
use markdown::Markdown;
use records::kinds::{Block, Row, Span};
use std::test::Fail;
use style::Symbol;

// Whether glyphs show these bytes, one each.
fn shows(glyphs: &[Glyph], text: &[u8]) -> bool {
    glyphs.len() == text.len()
        && glyphs
            .iter()
            .zip(text)
            .all(|(g, b)| Symbol::new(&[*b]) == Some(g.symbol))
}

// The lines of a text block, none if it is no text.
fn lines<'a>(sheet: &'a Markdown, block: usize) -> &'a [Span] {
    match sheet.records().blocks().get(block) {
        Some(Block::Text(span)) => sheet.records().lines_in(*span),
        _ => &[],
    }
}

// The rows of a table, none if the block is no table.
fn rows<'a>(sheet: &'a Markdown, block: usize) -> &'a [Row] {
    match sheet.records().blocks().get(block) {
        Some(Block::Table(_, span)) => sheet.records().rows_in(*span),
        _ => &[],
    }
}

// Whether a line of a text block shows these bytes.
fn has_line(sheet: &Markdown, block: usize, line: usize, text: &[u8]) -> bool {
    lines(sheet, block)
        .get(line)
        .is_some_and(|place| shows(sheet.records().glyphs_in(*place), text))
}

// How many lines a text block has, none if it is no text.
fn line_count(sheet: &Markdown, block: usize) -> usize {
    lines(sheet, block).len()
}

// Whether an entry of a table shows these bytes.
fn has_entry(sheet: &Markdown, block: usize, row: usize, column: usize, text: &[u8]) -> bool {
    rows(sheet, block)
        .get(row)
        .and_then(|r| r.entries.get(column))
        .is_some_and(|place| shows(sheet.records().glyphs_in(*place), text))
}

#[test]
fn an_item_has_its_paragraph_behind_the_bullet(rt: HostRuntime) -> Result<(), Fail> {
    let mut glyphs = [BLANK; 16];
    let mut lines = [Span::EMPTY; 4];
    let mut rows = [Row::BLANK; 1];
    let mut sheet = Markdown::new(&mut glyphs, &mut lines, &mut rows);
    let events = [
        event(LIST),
        event(ITEM),
        event(PARAGRAPH),
        naming(TEXT, 0, 2),
        event(PARAGRAPH_END),
        event(ITEM_END),
        event(LIST_END),
    ];
    sheet.load(&Bytes, &MarkdownStyles::new(), &events, b"ab", b"- ab")?;
    assert!(rt; sheet.records().blocks().len() == 1);
    assert!(rt; line_count(&sheet, 0) == 1);
    assert!(rt; has_line(&sheet, 0, 0, b"- ab"));
    Ok(())
}

#[test]
fn code_stands_behind_two_spaces(rt: HostRuntime) -> Result<(), Fail> {
    let mut glyphs = [BLANK; 16];
    let mut lines = [Span::EMPTY; 8];
    let mut rows = [Row::BLANK; 1];
    let mut sheet = Markdown::new(&mut glyphs, &mut lines, &mut rows);
    let events = [
        event(PARAGRAPH),
        naming(TEXT, 0, 1),
        event(PARAGRAPH_END),
        event(CODE_BLOCK),
        naming(TEXT, 1, 4),
        event(CODE_BLOCK_END),
    ];
    sheet.load(
        &Bytes,
        &MarkdownStyles::new(),
        &events,
        b"ab\nc\n",
        b"source",
    )?;
    assert!(rt; line_count(&sheet, 0) == 4);
    assert!(rt; has_line(&sheet, 0, 0, b"a"));
    assert!(rt; has_line(&sheet, 0, 1, b""));
    assert!(rt; has_line(&sheet, 0, 2, b"  b"));
    assert!(rt; has_line(&sheet, 0, 3, b"  c"));
    Ok(())
}

#[test]
fn rows_are_padded_and_the_head_comes_first(rt: HostRuntime) -> Result<(), Fail> {
    let mut glyphs = [BLANK; 16];
    let mut lines = [Span::EMPTY; 2];
    let mut rows = [Row::BLANK; 2];
    let mut sheet = Markdown::new(&mut glyphs, &mut lines, &mut rows);
    let events = [
        table(2, 9),
        event(HEAD),
        event(CELL),
        naming(TEXT, 0, 1),
        event(CELL_END),
        event(CELL),
        naming(TEXT, 1, 1),
        event(CELL_END),
        event(HEAD_END),
        event(ROW),
        event(CELL),
        naming(TEXT, 2, 1),
        event(CELL_END),
        event(ROW_END),
        event(TABLE_END),
    ];
    sheet.load(&Bytes, &MarkdownStyles::new(), &events, b"abc", b"source")?;
    assert!(rt; sheet.records().blocks().len() == 1);
    assert!(rt; has_entry(&sheet, 0, 0, 0, b"a"));
    assert!(rt; has_entry(&sheet, 0, 0, 1, b"b"));
    assert!(rt; has_entry(&sheet, 0, 1, 0, b"c"));
    assert!(rt; has_entry(&sheet, 0, 1, 1, b""));
    Ok(())
}
