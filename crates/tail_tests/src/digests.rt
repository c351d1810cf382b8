// Large sets of sources, their answers folded into one number that tools/tail_answers.py, which was
// written from the rules alone, gives too.
ghost use Rattle.std.specs.Prelude.{◌<◌, ◌≤◌};

use std::alloc::{AllocError, Global};
use std::test::Fail;
use tail::{cook_streaming_tail, cooked_text};

// FNV-1a over 64 bits.
const START: u64 = 0xcbf29ce484222325;

const PRIME: u64 = 0x100000001b3;

// The digests of tools/tail_answers.py.
const SHORT: u64 = 7578272132833436125;

const LONGER: u64 = 18314488361946141579;

const LETTERS: [u8; 10] = *b"|-:a`~\\ \t\n";

fn fold(digest: u64, b: u8) -> u64 {
    (digest ^ u64::from(b)).wrapping_mul(PRIME)
}

fn fold_text(digest: u64, text: &[u8]) -> u64 {
    text.iter().fold(digest, |digest, b| fold(digest, *b))
}

// The answer for one source: 0, or 1 and the cooked text, or 2; and 255.
fn fold_answer(digest: u64, source: &[u8]) -> u64 {
    let mut out = [0; 512];
    let answer = match cook_streaming_tail(source, &mut out) {
        Ok(None) => fold(digest, 0),
        Ok(cooked) => fold_text(fold(digest, 1), cooked_text(cooked, source, &out)),
        Err(_) => fold(digest, 2),
    };
    fold(answer, 255)
}

// Five letters, the last changing fastest.
fn letters(n: u32) -> [u8; 5] {
    let mut source = [0; 5];
    let mut rest = n;
    for letter in source.iter_mut().rev() {
        *letter = LETTERS[(rest % 10) as usize];
        rest /= 10;
    }
    source
}

// All sources of so many letters.
fn fold_all(digest: u64, len: usize, count: u32) -> u64
    requires { len ≤ 5 }
{
    let mut digest = digest;
    for n in 0..count {
        let source = letters(n);
        digest = fold_answer(digest, &source[5 - len..]);
    }
    digest
}

#[test]
fn all_sources_of_up_to_five_letters(rt: HostRuntime) {
    let digest = fold_all(START, 0, 1);
    let digest = fold_all(digest, 1, 10);
    let digest = fold_all(digest, 2, 100);
    let digest = fold_all(digest, 3, 1000);
    let digest = fold_all(digest, 4, 10000);
    let digest = fold_all(digest, 5, 100000);
    assert_eq!(rt; digest, SHORT);
}

// What longer sources are made of.
const PIECES: [&str; 24] = [
    "|", "-", ":", "a", "`", "~", "\\", " ", "\t", "\n", "```", "````", "~~~", "---", "|--", "\n|",
    "\n```", "\n~~~", "\n~~~~", "\\|", "\r", "\u{a0}", "\u{3000}", "\u{e9}",
];

// What the longer sources are drawn with.
#[derive(Drop)]
struct Generator {
    state: u64,
}

impl Generator {
    // The next number below n.
    fn below(&mut self, n: u64) -> u64
        requires { 0 < n }
        ensures { result < n }
    {
        self.state = self
            .state
            .wrapping_mul(6364136223846793005)
            .wrapping_add(1442695040888963407);
        (self.state >> 33) % n
    }
}

// Draws a source of up to 16 pieces.
fn draw(heap: Global, generator: &mut Generator) -> Result<Vec<u8>, AllocError> {
    let mut source = Vec::new(heap);
    for _ in 0..generator.below(17) {
        source.extend_from_slice(PIECES[generator.below(24) as usize].as_bytes())?;
    }
    Ok(source)
}

#[test]
fn a_hundred_thousand_longer_sources(rt: HostRuntime) -> Result<(), Fail> {
    let mut generator = Generator { state: 1 };
    let mut digest = START;
    for _ in 0..100000 {
        let source = draw(rt.alloc(), &mut generator)?;
        digest = fold_answer(digest, source.as_slice());
    }
    assert_eq!(rt; digest, LONGER);
    Ok(())
}
