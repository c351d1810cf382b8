// What a script has set up so far, and the commands that work on it.
use crate::pages::{Act, Page, Part};
use crate::requests::ask;
use crate::sheets::{Pending, SheetMemory};
use crate::stops::*;
use crate::texts::{RuleName, RulerName, last_name};
use crate::{listing, pages, requests, sheets, texts};
use markdown::Markdown;
use script::answer_line;
use std::alloc::Global;
use std::fmt;
use std::str::FromStr;
use words::{Fault, Words, text_of};

#[derive(Drop)]
pub struct Desk {
    ruler: RulerName,
    rule: RuleName,
    page: Option<Page>,
    window: Option<Part>,
    pending: Pending,
}

impl Desk {
    pub fn new(heap: Global) -> Desk {
        Desk {
            ruler: RulerName::Utf8,
            rule: RuleName::Word,
            page: None,
            window: None,
            pending: Pending::new(heap),
        }
    }

    // Carries one line out, and prints its answer. Gives the memory of a new sheet where the line asks for one.
    pub fn take(
        &mut self,
        rt: &HostRuntime,
        sheet: &mut Markdown,
        raw: &[u8],
    ) -> Result<Option<SheetMemory>, Stop> {
        let mut words = Words::new(text_of(raw)?);
        match words.next_word() {
            Some("memory") => return Ok(Some(sheets::memory(rt, words)?)),
            Some(name) => self.take_load(rt, sheet, raw, name, words)?,
            None => {}
        }
        Ok(None)
    }

    // The commands on the sheet.
    fn take_load(
        &mut self,
        rt: &HostRuntime,
        sheet: &mut Markdown,
        raw: &[u8],
        name: &str,
        words: Words,
    ) -> Result<(), Stop> {
        match name {
            "style" => self.pending.style(rt, words),
            "text" => self.pending.text(rt, words),
            "source" => self.pending.source(rt, words),
            "clear" => self.pending.clear(rt, words),
            "event" => self.pending.event(rt, words),
            "load" => ask(rt, sheet, self.pending.read_load(self.ruler, words)?),
            "streaming" => ask(rt, sheet, requests::read_streaming(words)?),
            "blocks" => listing::blocks(rt, sheet, words),
            "outline" => listing::outline(rt, sheet, words),
            "table" => ask(rt, sheet, requests::read_table(self.rule, words)?),
            "height" => ask(rt, sheet, requests::read_height(self.rule, words)?),
            "paint" => self.act(rt, "paint", pages::read_paint(sheet, self.rule, words)?),
            _ => self.take_text(rt, raw, name, words),
        }
    }

    // The commands on byte strings, and what they are measured by.
    fn take_text(
        &mut self,
        rt: &HostRuntime,
        raw: &[u8],
        name: &str,
        words: Words,
    ) -> Result<(), Stop> {
        match name {
            "ruler" => set(rt, name, &mut self.ruler, words),
            "rule" => set(rt, name, &mut self.rule, words),
            "measure" => texts::measure(rt, self.ruler, words),
            "glyphs" => texts::glyphs(rt, self.ruler, words),
            "rows" => texts::rows(rt, self.ruler, self.rule, words),
            "cook" => texts::cook(rt, words),
            _ => self.take_page(rt, raw, name, words),
        }
    }

    // The commands that make pages and keep them.
    fn take_page(
        &mut self,
        rt: &HostRuntime,
        raw: &[u8],
        name: &str,
        words: Words,
    ) -> Result<(), Stop> {
        match name {
            "grid" => self.page = Some(pages::grid(rt, words)?),
            "shelf" => self.page = Some(pages::shelf(rt, words)?),
            "open" => self.page = Some(pages::open(rt, words)?),
            "open-file" => {
                if let Some(page) = pages::open_file(rt, words)? {
                    self.page = Some(page);
                }
            }
            "save" => pages::save(rt, self.page.as_ref(), words)?,
            "bytes" => pages::bytes(rt, self.page.as_ref(), words)?,
            "window" => self.window = pages::read_window(rt, words)?,
            _ => self.take_act(rt, raw, name, words)?,
        }
        Ok(())
    }

    // The commands on a page, and then those that need nothing set up.
    fn take_act(
        &mut self,
        rt: &HostRuntime,
        raw: &[u8],
        name: &str,
        words: Words,
    ) -> Result<(), Stop> {
        match name {
            "put" => self.act(rt, "put", pages::read_put(rt.alloc(), words)?),
            "read" => self.act(rt, "read", pages::read_read(words)?),
            "cells" => {
                words.end()?;
                self.act(rt, "cells", Act::Cells)
            }
            "show" => {
                words.end()?;
                self.act(rt, "show", Act::Show)
            }
            _ => other(rt, raw),
        }
    }

    fn act(&mut self, rt: &HostRuntime, name: &'static str, act: Act<'_, '_>) -> Result<(), Stop> {
        let page = self.page.as_mut().ok_or(Stop::NoPage(name))?;
        page.act(rt, self.window, act)
    }
}

// Sets what a line names, and tells it.
fn set<T: FromStr<Err = Fault> + fmt::Display + Copy>(
    rt: &HostRuntime,
    command: &str,
    place: &mut T,
    words: Words,
) -> Result<(), Stop> {
    let value = last_name::<T>(words)?;
    *place = value;
    println!(rt; "{command} {value}")?;
    Ok(())
}

// The commands that need nothing set up.
fn other(rt: &HostRuntime, raw: &[u8]) -> Result<(), Stop> {
    if let Some(answer) = answer_line(rt.alloc(), raw)? {
        rt.println(answer)?;
    }
    Ok(())
}
