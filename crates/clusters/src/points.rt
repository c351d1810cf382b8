// Code points read from the bytes that spell them. Bytes that are no text spell something too: what
// `chars` of the standard library says of them.
ghost use Rattle.std.specs.Prelude.{◌≡◌, ℕ, ◌+◌, ◌-◌, ◌*◌, ◌^◌, ◌<◌, ◌≤◌, [], ◌∷◌, length, drop, MatchOption, IfSome};
ghost use Rattle.std.specs.Char.{len_utf8};
ghost use Rattle.std.specs.Str.{chars, lead_bits};

// The code points that some bytes spell, one after another.
#[derive(Clone, Copy)]
pub struct Points<'a> {
    pub bytes: &'a [u8],
}

// The bits of a code point that its first byte holds.
fn lead(b: u8) -> u32
    ensures value { result ≡ lead_bits b }
    ensures bound { result < 128 }
{
    match b {
        0..0x80 => u32::from(b),
        0x80..0xE0 => u32::from(b.saturating_sub(0xC0)),
        0xE0..0xF0 => u32::from(b) - 0xE0,
        0xF0.. => u32::from(b) - 0xF0,
    }
}

// The bits so far, with six more.
fn more(code: u32, b: u8) -> u32
    requires { code < 2 ^ 25 }
    ensures value { result ≡ code * 64 + (b - 128) }
    ensures bound { result < code * 64 + 128 }
{
    code * 64 + u32::from(b.saturating_sub(0x80))
}

// The first code point, and the bytes behind it, if its bytes are all there.
fn split_first(bytes: &[u8]) -> Option<(u32, &[u8])>
    ensures cases { MatchOption result (chars bytes.now ≡ []) (λ p. chars bytes.now ≡ p.0 ∷ chars p.1.now) }
    ensures behind { IfSome result (λ p. (n : ℕ) × (n ≤ length bytes.now) × (p.1.now ≡ drop n bytes.now)) }
{
    match *bytes {
        [a, ref rest @ ..] if a < 0x80 => Some((lead(a), rest)),
        [a, b, ref rest @ ..] if a < 0xE0 => Some((more(lead(a), b), rest)),
        [a, b, c, ref rest @ ..] if a < 0xF0 => Some((more(more(lead(a), b), c), rest)),
        [a, b, c, d, ref rest @ ..] => Some((more(more(more(lead(a), b), c), d), rest)),
        _ => None,
    }
}

impl Iterator for Points<'_> {
    ghost use Rattle.std.specs.Iterator.{YieldsFirst, item_count};

    type Item = u32;

    ghost next_gives = { YieldsFirst (λ p. chars p.bytes.now) };

    ghost remaining = { item_count (λ p. chars p.bytes.now) };

    fn next(&mut self) -> Option<u32> {
        let (code, rest) = split_first(self.bytes)?;
        self.bytes = rest;
        Some(code)
    }
}

// How many bytes spell a code point.
pub fn size(code: u32) -> usize
    ensures value { result ≡ len_utf8 code }
    ensures bound { (1 ≤ result) × (result ≤ 4) }
{
    match code {
        0..0x80 => 1,
        0x80..0x800 => 2,
        0x800..0x1_0000 => 3,
        0x1_0000.. => 4,
    }
}
