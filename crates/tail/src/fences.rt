// Fences, and what a line is to them.
ghost use Rattle.std.specs.Prelude.{◌≡◌};
ghost use Rattle.std.specs.List.{prefix_len};
ghost use Rattle.std.specs.Str.{chars};
ghost use Rattle.tail.specs.Texts.{is, past};
ghost use Rattle.tail.specs.Fences.{sign, may_follow};
ghost use Rattle.tail.specs.Scanning.{ends, stepped, mark_class, class_of};

// A fence has three marks or more.
const LEAST: usize = 3;

// What a fence is made of.
#[derive(Clone, Copy, PartialEq, Eq)]
pub enum Mark {
    Backtick,
    Tilde,
}

impl Mark {
    fn sign(self) -> char
        ensures { result ≡ sign self }
    {
        match self {
            Mark::Backtick => '`',
            Mark::Tilde => '~',
        }
    }

    // Whether an opener may have this text behind its marks.
    fn may_precede(self, text: &str) -> bool
        ensures { result ≡ may_follow self (chars text.now) }
    {
        match self {
            Mark::Backtick => !text.contains('`'),
            Mark::Tilde => true,
        }
    }
}

// A fence, by what it is made of and how many marks open it.
#[derive(Clone, Copy)]
pub struct Fence {
    pub mark: Mark,
    pub marks: usize,
}

impl Fence {
    // Whether a line of these marks alone closes the fence that is open.
    fn ends(self, opened: Fence) -> bool
        ensures { result ≡ ends self opened }
    {
        self.mark == opened.mark && opened.marks <= self.marks
    }
}

// What a line is to the scanner.
#[derive(Clone, Copy)]
pub enum Class {
    // it starts with a pipe
    Pipe,
    // the marks of a fence and nothing else: it opens this fence, or closes one of as many marks or fewer
    Bare(Fence),
    // the marks of a fence and words behind them: it opens this fence
    Info(Fence),
    Other,
}

// The fence that is open below a line of this class, by the one that is open above it.
pub fn fence_below(fence: Option<Fence>, class: Class) -> Option<Fence>
    ensures { result ≡ stepped fence class }
{
    match (fence, class) {
        (None, Class::Bare(opened) | Class::Info(opened)) => Some(opened),
        (None, Class::Pipe | Class::Other) => None,
        (Some(open), Class::Bare(found)) if found.ends(open) => None,
        (Some(open), _) => Some(open),
    }
}

// How many of the mark the text begins with, and what follows them.
fn split_marks(text: &str, mark: Mark) -> (usize, &str)
    ensures count { result.0 ≡ prefix_len (is (sign mark)) (chars text.now) }
    ensures rest { chars result.1.now ≡ past (is (sign mark)) (chars text.now) }
{
    let rest = text.trim_start_matches(mark.sign());
    (text.len() - rest.len(), rest)
}

// The class of a text that begins with the mark.
fn classify_marks(text: &str, mark: Mark) -> Class
    ensures { result ≡ mark_class mark (chars text.now) }
{
    let (marks, rest) = split_marks(text, mark);
    if marks < LEAST {
        Class::Other
    } else if rest.trim_start().is_empty() {
        Class::Bare(Fence { mark, marks })
    } else if mark.may_precede(rest) {
        Class::Info(Fence { mark, marks })
    } else {
        Class::Other
    }
}

// The class of a line, by the first character after its leading white space.
pub fn classify(line: &str) -> Class
    ensures { result ≡ class_of (chars line.now) }
{
    let text = line.trim_start();
    let Some(first) = text.chars().next() else {
        return Class::Other;
    };
    match first {
        '|' => Class::Pipe,
        '`' => classify_marks(text, Mark::Backtick),
        '~' => classify_marks(text, Mark::Tilde),
        _ => Class::Other,
    }
}
