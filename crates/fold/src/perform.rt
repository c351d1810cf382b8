ghost use Rattle.std.specs.Prelude.{◌≡◌};
ghost use Rattle.stack.specs.Stacks.{held};
ghost use Rattle.records.specs.Memory.{acted};
ghost use Rattle.fold.specs.Branches.{bullet, text_acts, start_acts, end_acts, acts};
ghost use Rattle.fold.specs.Inks.{in_force};
ghost use Rattle.fold.specs.Steps.{kind_in, spot_of};
ghost use Rattle.fold.specs.Tables.{info_of};

use super::load::Load;
use super::measure::space;
use super::mode::{InItem, Mode, Spot};
use super::table::info_of;
use super::tags::Tags;
use events::event::{Event, Kind, Tag};
use glyphs::{Glyph, Ruler};
use records::kinds::Records;
use style::{DARK_GRAY, Style, Symbol};

const HYPHEN: Symbol = Symbol { bytes: 45, len: 1 };

// A number that means no kind counts as an event that is ignored.
pub fn kind_in(event: Event) -> Kind
    ensures value { result ≡ kind_in event }
{
    Kind::try_from(event.kind).unwrap_or(Kind::Other)
}

fn spot(records: &Records) -> Spot
    ensures value { result ≡ spot_of records.now }
{
    Spot {
        bare: records.text.bare,
        more: records.text.more,
        table: records.table.info.is_some(),
    }
}

// The sign before an item.
fn put_bullet(records: &mut Records)
    ensures after { records.new ≡ acted records.old bullet }
{
    let style = Style {
        fg: DARK_GRAY,
        ..Style::PLAIN
    };
    records.put(Glyph {
        symbol: HYPHEN,
        width: 1,
        style,
    });
    records.put(space(style));
}

fn end(records: &mut Records, tag: Tag)
    ensures after { records.new ≡ acted records.old (end_acts (spot_of records.old) tag) }
{
    let at = spot(records);
    match tag {
        Tag::CodeBlock if !at.bare => records.end_line(),
        Tag::Table => records.end_table(),
        Tag::TableHead if at.table => records.end_head(),
        Tag::TableRow if at.table => records.end_row(),
        Tag::TableCell if at.table => records.end_entry(),
        _ => {}
    }
}

impl<'x, R: Ruler> Load<'x, R> {
    fn text(&self, records: &mut Records, mode: Mode, style: Style, s: &[u8])
        ensures after { records.new ≡ acted records.old (text_acts (R.Ruler.meaning self.now.ruler.now) self.now.styles.now mode style (spot_of records.old) s.now) }
    {
        if spot(records).table {
            if mode.entry {
                self.measure(records, s, style);
            }
        } else {
            let style = if mode.code {
                self.styles.code_block
            } else {
                style
            };
            self.measure_lines(records, s, style, mode.code);
        }
    }

    fn start(&self, records: &mut Records, mode: Mode, event: Event, tag: Tag)
        ensures after { records.new ≡ acted records.old (start_acts mode (spot_of records.old) (info_of event self.now.source.now) tag) }
    {
        let at = spot(records);
        let filled = at.more || !at.bare;
        match tag {
            Tag::CodeBlock if !at.bare => {
                records.end_line();
                records.end_line();
            }
            Tag::Paragraph if filled && mode.item == InItem::Later => records.end_line(),
            Tag::Paragraph if filled && mode.item == InItem::No => {
                records.end_line();
                records.end_line();
            }
            Tag::Heading if filled => {
                records.end_line();
                records.end_line();
            }
            Tag::Item => {
                if filled {
                    records.end_line();
                }
                put_bullet(records);
            }
            Tag::List if filled => records.end_line(),
            Tag::Table => records.begin_table(info_of(event, self.source)),
            _ => {}
        }
    }

    // What an event that names the bytes `s` does to the sheet.
    pub(super) fn perform(&self, records: &mut Records, tags: &Tags, event: Event, s: &[u8])
        ensures after { records.new ≡ acted records.old (acts (R.Ruler.meaning self.now.ruler.now) self.now.styles.now tags.now.mode (in_force self.now.styles.now (held tags.now.stack)) (spot_of records.old) (info_of event self.now.source.now) (kind_in event) s.now) }
    {
        let mode = tags.mode;
        let style = tags.style(self.styles);
        let table = spot(records).table;
        let open = mode.entry || !table;
        match kind_in(event) {
            Kind::Text => self.text(records, mode, style, s),
            Kind::Code if open => self.measure(records, s, self.styles.code_inline),
            Kind::SoftBreak if open => records.put(space(style)),
            Kind::HardBreak if !table => records.end_line(),
            Kind::HardBreak if mode.entry => records.put(space(style)),
            Kind::Start(tag) => self.start(records, mode, event, tag),
            Kind::End(tag) => end(records, tag),
            _ => {}
        }
    }
}
