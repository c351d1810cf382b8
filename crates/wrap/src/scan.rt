// The scans along a line that the rules are made of.

ghost use Rattle.std.specs.Prelude.{◌≡◌, ◌≤◌, length, MatchOption, nat_le};
ghost use Rattle.std.specs.List.{prefix_len};
ghost use Rattle.glyphs.specs.Glyphs.{is_space};
ghost use Rattle.wrap_laws.specs.Breaks.{counted};
ghost use Rattle.wrap_laws.specs.Rules.{fitting, first_misfit, past_spaces, IsLastBreak, NoBreak};

use glyphs::Glyph;

// What a glyph counts in a row of `width` columns.
fn columns_of(glyph: &Glyph, width: u16) -> u16
    ensures value { result ≡ counted width glyph.now }
{
    u16::from(glyph.width).min(width)
}

// Whether a glyph fits in what is left of the row.
fn fits(glyph: &Glyph, width: u16, room: u16) -> bool
    ensures value { result ≡ nat_le (counted width glyph.now) room }
{
    columns_of(glyph, width) <= room
}

// How many glyphs from the front fit in a row.
fn fitting(glyphs: &[Glyph], width: u16) -> usize
    ensures value { result ≡ fitting width width glyphs.now }
    ensures bound { result ≤ length glyphs.now }
{
    let mut room = width;
    for (count, glyph) in glyphs.iter().enumerate() {
        if !fits(glyph, width, room) {
            return count;
        }
        room -= columns_of(glyph, width);
    }
    glyphs.len()
}

// The first glyph that does not fit in the row; the line's end where all do, and `start` itself past that.
pub fn first_misfit(line: &[Glyph], width: u16, start: usize) -> usize
    ensures value { result ≡ first_misfit line.now width start }
{
    line.get(start..)
        .map_or(start, |glyphs| start + fitting(glyphs, width))
}

// How many spaces stand at the front.
fn spaces(glyphs: &[Glyph]) -> usize
    ensures value { result ≡ prefix_len is_space glyphs.now }
    ensures bound { result ≤ length glyphs.now }
{
    glyphs.iter().take_while(|glyph| glyph.is_space()).count()
}

// The first place from `start` on that holds no space, or the line's end where there is none.
pub fn past_spaces(line: &[Glyph], start: usize) -> usize
    ensures value { result ≡ past_spaces line.now start }
{
    line.get(start..)
        .map_or(start, |glyphs| start + spaces(glyphs))
}

// The last space before `end` with a non-space before it in the row. Where the last space has only
// spaces before it, so has every other, and the search is over.
pub fn last_break(line: &[Glyph], start: usize, end: usize) -> Option<usize>
    requires { end ≤ length line.now }
    ensures cases { MatchOption result (NoBreak line.now start end) (λ k. IsLastBreak line.now start end k) }
{
    let mut at = end;
    'search: loop {
        if at <= start {
            break None;
        }
        at -= 1;
        if line[at].is_space() {
            let mut before = at;
            while before > start {
                before -= 1;
                if !line[before].is_space() {
                    break 'search Some(at);
                }
            }
            break 'search None;
        }
    }
}
