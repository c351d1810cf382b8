// The run of pipe lines at the end of a text.
ghost use Rattle.std.specs.Prelude.{◌≡◌, ℕ, List, [], ◌∷◌, ◌++◌, None, if◌then◌else◌};
ghost use Rattle.std.specs.Str.{chars};
ghost use Rattle.tail.specs.Lines.{lines_of};
ghost use Rattle.tail.specs.Fences.{belongs, fence_below, run_at_end};
ghost use Rattle.tail.specs.Scanning.{Sound, Holds};

use super::fences::{Class, Fence, classify, fence_below};

// The lines of a run, as far as they matter.
#[derive(Clone, Copy)]
pub enum Run<'a> {
    Empty,
    Header(&'a str),
    Pair(&'a str, &'a str),
    // three lines or more
    Longer,
}

impl<'a> Run<'a> {
    // With one more line.
    fn grown(self, line: &'a str) -> Run<'a>
        ensures { (ls : List (List ℕ)) → Holds self.entry ls → Holds result (ls ++ (chars line.now ∷ [])) }
    {
        match self {
            Run::Empty => Run::Header(line),
            Run::Header(header) => Run::Pair(header, line),
            Run::Pair(_, _) | Run::Longer => Run::Longer,
        }
    }
}

// What was read of a text: the fence below the last line, if one is open, and the run that reaches that line.
#[derive(Clone, Copy)]
struct Scanner<'a> {
    fence: Option<Fence>,
    run: Run<'a>,
}

impl<'a> Scanner<'a> {
    // With one more line.
    fn read(self, line: &'a str) -> Scanner<'a>
        requires { Sound self.fence }
        ensures fence { result.fence ≡ fence_below self.entry.fence (chars line.now) }
        ensures sound { Sound result.fence }
        ensures run { (ls : List (List ℕ)) → Holds self.entry.run ls → Holds result.run (if belongs self.entry.fence (chars line.now) then ls ++ (chars line.now ∷ []) else []) }
    {
        let class = classify(line);
        let run = match (self.fence, class) {
            (None, Class::Pipe) => self.run.grown(line),
            _ => Run::Empty,
        };
        Scanner {
            fence: fence_below(self.fence, class),
            run,
        }
    }
}

// The run that reaches the end of a text.
pub fn run_at_end(text: &str) -> Run<'_>
    ensures { Holds result (run_at_end None (lines_of (chars text.now))) }
{
    let mut scanner = Scanner {
        fence: None,
        run: Run::Empty,
    };
    for line in text.split('\n') {
        scanner = scanner.read(line);
    }
    scanner.run
}
