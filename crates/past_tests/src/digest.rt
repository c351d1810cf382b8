// What calls answer and what stands on their pages, taken into digests as tools/past_answers.py does.

use columns::ColumnLayout;
use events::refusal::Refusal;
use markdown::{Markdown, RenderRefusal, Request, TableLayout, TableRefusal};
use page::{Cell, Surface};
use records::kinds::Used;

const PRIME: u64 = 0x0000_0100_0000_01b3;

// FNV-1a over 64 bits. What is taken in of a call begins with a byte that tells its kind.
#[derive(Clone, Copy)]
pub struct Digest(pub u64);

impl Digest {
    pub const START: Digest = Digest(0xcbf2_9ce4_8422_2325);

    fn bytes(self, bytes: &[u8]) -> Digest {
        bytes.iter().fold(self, |digest, b| {
            Digest((digest.0 ^ u64::from(*b)).wrapping_mul(PRIME))
        })
    }

    fn number(self, number: u16) -> Digest {
        self.bytes(&number.to_le_bytes())
    }

    fn cell(self, cell: Cell) -> Digest {
        let len = cell.symbol.len;
        let symbol = cell.symbol.to_bytes();
        self.bytes(&[len])
            .bytes(symbol.get(..usize::from(len)).unwrap_or_default())
            .bytes(&[cell.fg, cell.bg, cell.modifiers])
    }

    fn row<S: Surface>(self, page: &S, y: u16) -> Digest {
        (0..page.width()).fold(self, |digest, x| {
            page.read(x, y).map_or(digest, |cell| digest.cell(cell))
        })
    }

    // The number of a refusal, and every cell of a page.
    pub fn page<S: Surface>(self, refused: u8, page: &S) -> Digest {
        (0..page.height()).fold(self.bytes(&[refused]), |digest, y| digest.row(page, y))
    }

    fn columns(self, columns: &ColumnLayout) -> Digest {
        let naturals = columns
            .natural
            .iter()
            .fold(self.bytes(&[columns.count]), |digest, n| {
                digest.bytes(&n.to_le_bytes())
            });
        columns
            .widths
            .iter()
            .fold(naturals, |digest, n| digest.number(*n))
            .bytes(&columns.taken.to_le_bytes())
    }

    // The number of a load's refusal with its value.
    fn load(self, answer: Result<(), Refusal>) -> Digest {
        let (refused, value) = answer.err().map_or((0, 0), Refusal::numbered);
        self.bytes(&[1, refused]).number((value & 0xffff) as u16)
    }

    // The number of a table question's refusal, and what the place for its answer holds.
    pub fn table(self, answer: Result<(), TableRefusal>, layout: &TableLayout) -> Digest {
        let refused = answer.err().map_or(0, |refusal| refusal.number());
        self.bytes(&[3, refused])
            .columns(&layout.columns)
            .number(layout.rows)
    }

    pub fn height(self, rows: u16) -> Digest {
        self.bytes(&[4]).number(rows)
    }

    // The number of a paint's refusal, and every cell of the page.
    pub fn paint<S: Surface>(self, answer: Result<(), RenderRefusal>, page: &S) -> Digest {
        let refused = answer.err().map_or(0, |refusal| refusal.number());
        self.bytes(&[5]).page(refused, page)
    }

    // What a request keeps of its answer.
    pub fn request<R, B, S: Surface>(self, request: &Request<'_, R, B, S>) -> Digest {
        match request {
            Request::Load(it) => self.load(it.answer),
            Request::Streaming(on) => self.bytes(&[2, u8::from(*on)]),
            Request::Table(it) => self.table(it.answer, &it.layout),
            Request::Height(it) => self.height(it.answer),
            Request::Paint(it) => self.paint(it.answer, &it.page),
        }
    }

    fn used(self, used: Used) -> Digest {
        self.number(used.glyphs)
            .number(used.lines)
            .number(used.rows)
            .number(used.tables)
    }

    // What a sheet tells of itself.
    pub fn sheet(self, sheet: &Markdown) -> Digest {
        let border = sheet.border();
        let blocks = sheet.records().blocks().len();
        self.bytes(&[6, u8::from(sheet.is_streaming())])
            .bytes(&[border.fg, border.bg, border.add, border.remove])
            .used(sheet.records().used)
            .number(u16::try_from(blocks).unwrap_or(u16::MAX))
    }
}
