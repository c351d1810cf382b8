// Which repair the run at the end of a text asks for.
ghost use Rattle.std.specs.Prelude.{◌≡◌, [], ◌∷◌};
ghost use Rattle.std.proofs.Math.Utf8.{encodes};
ghost use Rattle.std.specs.Option.{option_map};
ghost use Rattle.std.specs.Str.{chars};
ghost use Rattle.tail.specs.Texts.{ends_with};
ghost use Rattle.tail.specs.Cook.{lone_pipe, without_last_line, repaired_by, repaired_bytes};
ghost use Rattle.tail.specs.Patches.{patched};

use super::delimiters::{complete, delimiter_charset};
use super::entries::cell_count;
use super::patch::Patch;
use super::scan::{Run, run_at_end};
use super::texts::without_last;

// Whether the line, once trimmed, is a pipe and nothing else.
fn lone_pipe(line: &str) -> bool
    ensures { result ≡ lone_pipe (chars line.now) }
{
    line.trim() == "|"
}

// Whether the last line is ended.
fn ended(text: &str) -> bool
    ensures { result ≡ ends_with 10 (chars text.now) }
{
    text.ends_with('\n')
}

// The text without its last line.
fn without_last_line(text: &str) -> &str
    ensures { result.now ≡ encodes (without_last_line (chars text.now)) }
{
    match text.rfind('\n') {
        Some(i) => &text[..i + 1],
        None => "",
    }
}

// Below a header alone: the delimiter row is still to come.
fn after_header<'a>(text: &'a str, header: &str) -> Option<Patch<'a>>
    ensures { option_map patched result ≡ option_map encodes (repaired_by (chars header.now ∷ []) (chars text.now)) }
{
    if lone_pipe(header) {
        return None;
    }
    Some(Patch {
        kept: text,
        line_feed: !ended(text),
        cols: cell_count(header),
    })
}

// A header and one more line, which may be a delimiter row in progress.
fn after_two<'a>(text: &'a str, header: &str, line: &str) -> Option<Patch<'a>>
    ensures { option_map patched result ≡ option_map encodes (repaired_by (chars header.now ∷ chars line.now ∷ []) (chars text.now)) }
{
    if lone_pipe(header) {
        return None;
    }
    let cols = cell_count(header);
    if complete(line, cols) || ended(text) || !delimiter_charset(line) {
        return None;
    }
    Some(Patch {
        kept: without_last_line(text),
        line_feed: false,
        cols,
    })
}

// The repair of a text, if it needs one.
pub fn repair(text: &str) -> Option<Patch<'_>>
    ensures { option_map patched result ≡ repaired_bytes text.now }
{
    match run_at_end(without_last(text, '\n')) {
        Run::Header(header) => after_header(text, header),
        Run::Pair(header, line) => after_two(text, header, line),
        Run::Empty | Run::Longer => None,
    }
}
