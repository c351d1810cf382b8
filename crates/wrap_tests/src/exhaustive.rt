// Every line of up to 6 glyphs over letter, space and wide glyph, at widths 1 to 8, against the answers
// that tools/wrap_answers.py found by trying every place.

use super::answers::{CUTTING_RULE, Stored, WORD_RULE};
use super::lines::glyph;
use glyphs::Glyph;
use std::process::Abort;
use wrap::{BreakingRule, CuttingRule, WordRule, row_count};

const LINES: [u32; 7] = [1, 3, 9, 27, 81, 243, 729];

const NO_DIGEST: u64 = 0xcbf2_9ce4_8422_2325;

const LINE_END: usize = 255;

// FNV-1a, one byte on.
fn mixed(digest: u64, byte: usize) -> u64 {
    (digest ^ byte as u64).wrapping_mul(0x0000_0100_0000_01b3)
}

// The line whose glyphs are the base-3 digits of a number, lowest first.
fn numbered(mut number: u32) -> [Glyph; 6] {
    let kinds = [glyph(b'a'), glyph(b' '), glyph(b'A')];
    let mut line = [glyph(b'a'); 6];
    for place in &mut line {
        *place = kinds[(number % 3) as usize];
        number /= 3;
    }
    line
}

// Counts the rows of a line as the rule's answers go on, and mixes their places into a digest.
fn walked<R: BreakingRule>(rule: &R, line: &[Glyph], width: u16, mut digest: u64) -> (u32, u64) {
    let mut rows = 0u32;
    let mut start = 0;
    for _ in 0..6 {
        let (end, next) = rule.break_row(line, width, start);
        digest = mixed(mixed(digest, start), end);
        rows = rows.saturating_add(1);
        start = next;
        if start >= line.len() {
            break;
        }
    }
    (rows, mixed(digest, LINE_END))
}

fn check_length<R: BreakingRule>(
    rt: &impl Abort,
    rule: &R,
    length: usize,
    width: u16,
) -> (u32, u64) {
    assert!(rt; length < 7);
    let mut all = 0u32;
    let mut digest = NO_DIGEST;
    for number in 0..LINES[length] {
        let line = &numbered(number)[..length];
        let (rows, mixed) = walked(rule, line, width, digest);
        assert_eq!(rt; row_count(rule, line, width), rows as usize);
        digest = mixed;
        all = all.saturating_add(rows);
    }
    (all, digest)
}

fn check_all<R: BreakingRule>(rt: &impl Abort, rule: &R, stored: &Stored) {
    for (length, (rows, digests)) in stored.rows.iter().zip(&stored.digests).enumerate() {
        for (width, (rows, digest)) in (1..).zip(rows.iter().zip(digests)) {
            assert_eq!(rt; check_length(rt, rule, length, width), (*rows, *digest));
        }
    }
}

#[test]
fn the_word_rule_answers_every_short_line_as_stored(rt: HostRuntime) {
    check_all(&rt, &WordRule, &WORD_RULE);
}

#[test]
fn the_cutting_rule_answers_every_short_line_as_stored(rt: HostRuntime) {
    check_all(&rt, &CuttingRule, &CUTTING_RULE);
}
