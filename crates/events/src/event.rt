ghost use Rattle.std.specs.Prelude.{◌≡◌};
ghost use Rattle.std.specs.Option.{ok_or};
ghost use Rattle.events.specs.Kinds.{tag_of, kind_of, start_of, unknown};

// An event as the host gives it. `end` (in the source), `columns` and `alignments` matter for the
// start of a table alone.
#[derive(Clone, Copy, PartialEq, Eq, Debug)]
pub struct Event {
    pub kind: u8,
    pub place: u32,
    pub length: u32,
    pub end: u32,
    pub columns: u8,
    pub alignments: u64,
}

// What a start opens and an end closes, each with the number of its start.
#[derive(Clone, Copy, PartialEq, Eq, Debug)]
pub enum Tag {
    Strong = 10,
    Emphasis = 11,
    CodeBlock = 12,
    Paragraph = 13,
    Heading = 14,
    Item = 15,
    List = 16,
    Table = 17,
    TableHead = 18,
    TableRow = 19,
    TableCell = 20,
}

#[derive(Clone, Copy, PartialEq, Eq, Debug)]
pub enum Kind {
    Text,
    Code,
    SoftBreak,
    HardBreak,
    Start(Tag),
    End(Tag),
    Other,
}

impl Tag {
    // The number that starts it; 20 more ends it.
    pub fn start(self) -> u8
        ensures value { result ≡ start_of self }
    {
        self as u8
    }
}

// A number that means no kind, or starts no tag.
#[derive(Clone, Copy, PartialEq, Eq, Debug)]
pub struct Unknown;

impl TryFrom<u8> for Tag {
    type Error = Unknown;

    ghost try_from_gives = { λ number r. r ≡ ok_or (tag_of number) unknown };

    // The tag that the number starts.
    fn try_from(number: u8) -> Result<Tag, Unknown> {
        match number {
            10 => Ok(Tag::Strong),
            11 => Ok(Tag::Emphasis),
            12 => Ok(Tag::CodeBlock),
            13 => Ok(Tag::Paragraph),
            14 => Ok(Tag::Heading),
            15 => Ok(Tag::Item),
            16 => Ok(Tag::List),
            17 => Ok(Tag::Table),
            18 => Ok(Tag::TableHead),
            19 => Ok(Tag::TableRow),
            20 => Ok(Tag::TableCell),
            _ => Err(Unknown),
        }
    }
}

impl TryFrom<u8> for Kind {
    type Error = Unknown;

    ghost try_from_gives = { λ number r. r ≡ ok_or (kind_of number) unknown };

    fn try_from(number: u8) -> Result<Kind, Unknown> {
        match number {
            0 => Ok(Kind::Text),
            1 => Ok(Kind::Code),
            2 => Ok(Kind::SoftBreak),
            3 => Ok(Kind::HardBreak),
            10..=20 => Ok(Kind::Start(Tag::try_from(number)?)),
            30..=40 => Ok(Kind::End(Tag::try_from(number - 20)?)),
            50 => Ok(Kind::Other),
            _ => Err(Unknown),
        }
    }
}

// The kind that a number means, if it means one.
pub fn kind_of(number: u8) -> Option<Kind>
    ensures value { result ≡ kind_of number }
{
    Kind::try_from(number).ok()
}
