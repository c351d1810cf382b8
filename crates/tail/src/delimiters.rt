// Delimiter rows: the second line of a table.
ghost use Rattle.std.specs.Prelude.{◌≡◌};
ghost use Rattle.std.specs.Str.{chars};
ghost use Rattle.tail.specs.Entries.{delimits, delimiter_char, unfinished, complete};

use super::entries::{cell_count, undecorated};
use super::texts::{without_first, without_last};

// Whether the entry, once trimmed, is one or more hyphens with an optional colon at either end.
fn delimits(entry: &str) -> bool
    ensures { result ≡ delimits (chars entry.now) }
{
    let hyphens = without_last(without_first(entry.trim(), ':'), ':');
    !hyphens.is_empty() && hyphens.chars().all(|c| matches!(c, '-'))
}

// Whether an unfinished delimiter row may have the character: a pipe, a hyphen, a colon, a space or a tab.
fn delimiter_char(c: char) -> bool
    ensures { result ≡ delimiter_char c }
{
    matches!(c, '|' | '-' | ':' | ' ' | '\t')
}

// Whether the line could still become a delimiter row: only pipes, hyphens, colons, spaces and tabs so far.
pub fn delimiter_charset(line: &str) -> bool
    ensures { result ≡ unfinished (chars line.now) }
{
    let trimmed = line.trim();
    !trimmed.is_empty() && trimmed.chars().all(delimiter_char)
}

// Whether the line is a complete delimiter row for so many entries.
pub fn complete(line: &str, cols: usize) -> bool
    ensures { result ≡ complete cols (chars line.now) }
{
    // no entry with a backslash delimits, so here each pipe parts two entries
    cell_count(line) == cols && undecorated(line).split('|').all(delimits)
}
