// What is put in place of a tail, and how it is written.
ghost use Rattle.std.specs.Prelude.{◌≡◌, ◌+◌, ◌*◌, ◌≤◌, ◌++◌, length, take, drop};
ghost use Rattle.tail.specs.Entries.{delimiter_row};
ghost use Rattle.tail.specs.Patches.{patched, size};

// A repaired text: what is kept of the source, a line feed if one is missing, and a delimiter row.
#[derive(Clone, Copy)]
pub struct Patch<'a> {
    pub kept: &'a str,
    pub line_feed: bool,
    pub cols: usize,
}

// Writes a delimiter row of so many entries to the front of the output.
fn delimiter_row(out: &mut [u8], cols: usize)
    requires { 1 + 4 * cols ≤ length out.old }
    ensures { out.new ≡ delimiter_row cols ++ drop (1 + 4 * cols) out.old }
{
    for (k, byte) in out[..1 + 4 * cols].iter_mut().enumerate() {
        *byte = if k % 4 == 0 { b'|' } else { b'-' };
    }
}

impl<'a> Patch<'a> {
    // How many bytes the repaired text has.
    pub fn size(self) -> u128
        ensures { result ≡ size self.entry }
    {
        self.kept.len() as u128 + u128::from(self.line_feed) + 1 + 4 * self.cols as u128
    }

    // Writes the repaired text to the front of the output. Gives its length.
    pub fn write(self, out: &mut [u8]) -> usize
        requires { size self ≤ length out.old }
        ensures value { result ≡ size self.entry }
        ensures after { out.new ≡ patched self.entry ++ drop (size self.entry) out.old }
        ensures text { take result out.new ≡ patched self.entry }
    {
        let mut at = self.kept.len();
        out[..at].copy_from_slice(self.kept.as_bytes());
        if self.line_feed {
            out[at] = b'\n';
            at += 1;
        }
        delimiter_row(&mut out[at..], self.cols);
        at + 1 + 4 * self.cols
    }
}
