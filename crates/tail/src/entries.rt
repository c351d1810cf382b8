// The entries of a table line.
ghost use Rattle.std.specs.Prelude.{◌≡◌, ◌≤◌};
ghost use Rattle.std.specs.Str.{chars};
ghost use Rattle.tail.specs.Texts.{is, at_end};
ghost use Rattle.tail.specs.Entries.{without_last_pipe, undecorated, cell_count};

use super::texts::without_first;

// How many backslashes stand at the end.
fn backslashes_at_end(text: &str) -> usize
    ensures { result ≡ at_end (is 92) (chars text.now) }
{
    text.len() - text.trim_end_matches('\\').len()
}

// Without a last pipe that stands after an even number of backslashes.
fn without_last_pipe(text: &str) -> &str
    ensures { chars result.now ≡ without_last_pipe (chars text.now) }
{
    let Some(inner) = text.strip_suffix('|') else {
        return text;
    };
    if backslashes_at_end(inner) % 2 == 0 {
        inner
    } else {
        text
    }
}

// The line, trimmed, without the pipes that are decoration.
pub fn undecorated(line: &str) -> &str
    ensures { chars result.now ≡ undecorated (chars line.now) }
{
    without_last_pipe(without_first(line.trim(), '|'))
}

// How many entries a line has: one more than it has pipes that no backslash escapes, those that are decoration left out.
pub fn cell_count(line: &str) -> usize
    ensures value { result ≡ cell_count (chars line.now) }
    ensures bound { 1 ≤ result }
{
    let mut rest = undecorated(line).chars();
    let mut count = 1;
    while let Some(c) = rest.next() {
        match c {
            // the character behind a backslash is passed over
            '\\' => {
                rest.next();
            }
            '|' => count += 1,
            _ => {}
        }
    }
    count
}
