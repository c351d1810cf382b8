// Nesting: starts and ends pair like brackets, and the parts of a table stand in one another.
ghost use Rattle.std.specs.Prelude.{◌≡◌, Some, is_ok};
ghost use Rattle.stack.specs.Stacks.{held, room, holding};
ghost use Rattle.checks.specs.Marks.{place_in, is_a, plain, table, with_row, with_entry, headed, rowed, takes_entry, entered, outside, opened, closed, planned, allowed, applied};

use events::event::{Kind, Tag};
use stack::{Full, Stack};

// Where text stands: outside tables, in a table but in none of its entries, or in an entry.
#[derive(Clone, Copy, PartialEq, Eq, Debug)]
pub enum Place {
    Prose,
    Table,
    Entry,
}

// A start whose end has not come.
#[derive(Clone, Copy, PartialEq, Eq, Debug)]
pub struct Mark {
    pub tag: Tag,
    // Where its text stands.
    pub place: Place,
    // How many entries a head or a row still takes; how many each of a table's rows takes.
    pub entries: u8,
    // Whether it is a table that holds neither head nor row yet.
    pub fresh: bool,
}

// What an event does to the open marks.
#[derive(Clone, Copy, PartialEq, Eq, Debug)]
pub enum Move {
    Stay,
    // The innermost mark ends.
    Close,
    // A mark begins.
    Open(Mark),
    // The innermost mark changes as a mark begins in it.
    Enter(Mark, Mark),
}

pub fn place_in(top: Option<Mark>) -> Place
    ensures value { result ≡ place_in top }
{
    top.map_or(Place::Prose, |mark| mark.place)
}

impl Mark {
    fn is(self, tag: Tag) -> bool
        ensures value { result ≡ is_a tag self }
    {
        self.tag == tag
    }

    // A mark that holds neither rows nor entries.
    pub fn plain(place: Place, tag: Tag) -> Mark
        ensures value { result ≡ plain place tag }
    {
        Mark {
            tag,
            place,
            entries: 0,
            fresh: false,
        }
    }

    fn table(columns: u8) -> Mark
        ensures value { result ≡ table columns }
    {
        Mark {
            tag: Tag::Table,
            place: Place::Table,
            entries: columns.max(1),
            fresh: true,
        }
    }

    // A table with a head or a row that begins in it.
    fn with_row(self, tag: Tag) -> Move
        ensures value { result ≡ with_row tag self }
    {
        let used = Mark {
            fresh: false,
            ..self
        };
        Move::Enter(used, Mark { tag, ..used })
    }

    // A head or a row with an entry that begins in it.
    fn with_entry(self) -> Move
        ensures value { result ≡ with_entry self }
    {
        let used = Mark {
            entries: self.entries.saturating_sub(1),
            ..self
        };
        Move::Enter(used, Mark::plain(Place::Entry, Tag::TableCell))
    }

    fn takes_entry(self) -> bool
        ensures value { result ≡ takes_entry self }
    {
        (self.is(Tag::TableHead) || self.is(Tag::TableRow)) && self.entries > 0
    }

    // What begins a head in the mark, if it may stand there.
    fn open_head(self) -> Option<Move>
        ensures value { result ≡ headed (Some self) }
    {
        (self.is(Tag::Table) && self.fresh).then_some(self.with_row(Tag::TableHead))
    }

    fn open_row(self) -> Option<Move>
        ensures value { result ≡ rowed (Some self) }
    {
        self.is(Tag::Table).then_some(self.with_row(Tag::TableRow))
    }

    fn open_entry(self) -> Option<Move>
        ensures value { result ≡ entered (Some self) }
    {
        self.takes_entry().then_some(self.with_entry())
    }

    // What ends the mark, if the tag is its own.
    fn close(self, tag: Tag) -> Option<Move>
        ensures value { result ≡ closed (Some self) tag }
    {
        self.is(tag).then_some(Move::Close)
    }
}

// Begins a mark that no table holds.
fn open_outside(top: Option<Mark>, mark: Mark) -> Option<Move>
    ensures value { result ≡ outside (place_in top) mark }
{
    match place_in(top) {
        Place::Prose => Some(Move::Open(mark)),
        Place::Table | Place::Entry => None,
    }
}

fn open(top: Option<Mark>, tag: Tag, columns: u8) -> Option<Move>
    ensures value { result ≡ opened top tag columns }
{
    match tag {
        Tag::Strong | Tag::Emphasis => Some(Move::Open(Mark::plain(place_in(top), tag))),
        Tag::CodeBlock | Tag::Paragraph | Tag::Heading | Tag::Item | Tag::List => {
            open_outside(top, Mark::plain(Place::Prose, tag))
        }
        Tag::Table => open_outside(top, Mark::table(columns)),
        Tag::TableHead => top?.open_head(),
        Tag::TableRow => top?.open_row(),
        Tag::TableCell => top?.open_entry(),
    }
}

// What an event of a kind does, given the innermost open mark, if nesting allows it.
pub fn plan(top: Option<Mark>, kind: Kind, columns: u8) -> Option<Move>
    ensures value { result ≡ planned top kind columns }
{
    match kind {
        Kind::Start(tag) => open(top, tag, columns),
        Kind::End(tag) => top?.close(tag),
        Kind::Text | Kind::Code | Kind::SoftBreak | Kind::HardBreak | Kind::Other => {
            Some(Move::Stay)
        }
    }
}

// Does it, if there is room for one more mark.
pub fn apply(marks: &mut Stack<Mark>, step: Move) -> Result<(), Full>
    ensures value { is_ok result ≡ allowed (room marks.old) (held marks.old) (Some step) }
    ensures after { marks.new ≡ holding marks.old (applied (room marks.old) (held marks.old) (Some step)) }
{
    match step {
        Move::Stay => Ok(()),
        Move::Close => {
            let _ = marks.pop();
            Ok(())
        }
        Move::Open(mark) => marks.push(mark),
        Move::Enter(outer, inner) => {
            marks.replace(outer);
            marks.push(inner)
        }
    }
}
