// Styles and symbols: the two things that a put carries to a page.
//
// A style has two colours (0 unset, 1 to 16 in ANSI order) and two sets of modifiers, those that it
// adds and those that it takes away. Patching lays one style over another. A symbol is a string of 0
// to 8 bytes, held as one number. Its main promise: the bytes that went into a symbol come out again.

#![tactic(auto)]

ghost use Rattle.std.specs.Prelude.{◌≡◌, ◌≤◌, length, IfSome};
ghost use Rattle.style.specs.Symbols.{packed, unpacked, bytes_of, symbol_from, whole};
ghost use Rattle.style.specs.Styles.{colour_over, patched, adding, known_colours};

pub const UNSET: u8 = 0;

pub const DARK_GRAY: u8 = 9;

pub const LAST_COLOUR: u8 = 16;

pub const BOLD: u8 = 1;

pub const ITALIC: u8 = 2;

#[derive(Clone, Copy, PartialEq, Eq, Debug)]
pub struct Style {
    pub fg: u8,
    pub bg: u8,
    pub add: u8,
    pub remove: u8,
}

// The colour laid over another: the upper one where it is set.
pub fn colour_over(lower: u8, upper: u8) -> u8
    ensures value { result ≡ colour_over lower upper }
{
    if upper == UNSET { lower } else { upper }
}

impl Style {
    pub const PLAIN: Style = Style {
        fg: UNSET,
        bg: UNSET,
        add: 0,
        remove: 0,
    };

    pub fn patch(self, other: Style) -> Style
        ensures value { result ≡ patched self other }
    {
        Style {
            fg: colour_over(self.fg, other.fg),
            bg: colour_over(self.bg, other.bg),
            add: self.add & !other.remove | other.add,
            remove: self.remove & !other.add | other.remove,
        }
    }

    pub fn add_modifier(self, m: u8) -> Style
        ensures value { result ≡ patched self (adding m) }
    {
        self.patch(Style {
            add: m,
            ..Style::PLAIN
        })
    }

    // Whether both colours exist: at most 16 each.
    pub fn has_known_colours(self) -> bool
        ensures value { result ≡ known_colours self }
    {
        self.fg <= LAST_COLOUR && self.bg <= LAST_COLOUR
    }
}

// The bytes of a symbol as one number, the first lowest, and how many they are.
#[derive(Clone, Copy, PartialEq, Eq, Debug)]
pub struct Symbol {
    pub bytes: u64,
    pub len: u8,
}

fn pack(text: &[u8]) -> u64
    requires { length text.now ≤ 8 }
    ensures { result ≡ packed text.now }
{
    let mut bytes = [0; 8];
    bytes[..text.len()].copy_from_slice(text);
    u64::from_le_bytes(bytes)
}

impl Symbol {
    pub const MAX_LEN: usize = 8;

    pub const EMPTY: Symbol = Symbol { bytes: 0, len: 0 };

    pub const SPACE: Symbol = Symbol { bytes: 32, len: 1 };

    // The symbol that a byte string is, or none where it has more than 8 bytes.
    pub fn new(text: &[u8]) -> Option<Symbol>
        ensures value { result ≡ symbol_from text.now }
        ensures back { IfSome result (λ s. bytes_of s ≡ text.now) }
    {
        if text.len() > Symbol::MAX_LEN {
            return None;
        }
        Some(Symbol {
            bytes: pack(text),
            len: text.len() as u8,
        })
    }

    // Whether the record is a symbol: at most 8 bytes, and nothing past them.
    pub fn is_whole(self) -> bool
        ensures value { result ≡ whole self }
    {
        match self.len {
            0..8 => self.bytes < 1 << (8 * self.len),
            8 => true,
            _ => false,
        }
    }

    // The number's eight bytes: the symbol's, padded with 0.
    pub fn to_bytes(self) -> [u8; 8]
        ensures value { result ≡ unpacked 8 self.bytes }
    {
        self.bytes.to_le_bytes()
    }
}
