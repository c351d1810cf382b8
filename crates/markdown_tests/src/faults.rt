// Refusals through a load: each at its edge and one past it, and which of two faults is told.

use super::made::*;
use events::event::Event;
use events::styles::MarkdownStyles;
use glyphs::Utf8;
use markdown::Markdown;
use records::kinds::{Row, Span};
use std::alloc::{AllocError, Global};
use std::test::Fail;
use style::Style;

// Letters, and from the sixth byte on no text.
const BYTES: &[u8] = b"abcde\xff\xff";

// What a load with a source answers, with room for four glyphs, eight lines and eight rows.
fn answer_from(styles: &MarkdownStyles, events: &[Event], source: &[u8]) -> (u8, u64) {
    let mut glyphs = [BLANK; 4];
    let mut lines = [Span::EMPTY; 8];
    let mut rows = [Row::BLANK; 8];
    let mut sheet = Markdown::new(&mut glyphs, &mut lines, &mut rows);
    told(sheet.load(&Utf8, styles, events, BYTES, source))
}

fn answer(events: &[Event]) -> (u8, u64) {
    answer_from(&MarkdownStyles::new(), events, b"source")
}

// Steps, and what a load of them answers.
type Case = (&'static [Step], (u8, u64));

// How many cases are not answered as they say.
fn wrong(
    heap: Global,
    styles: &MarkdownStyles,
    source: &[u8],
    cases: &[Case],
) -> Result<usize, AllocError> {
    let mut wrong = 0usize;
    for (steps, expected) in cases {
        let events = joined(heap, steps, &[])?;
        let answer = answer_from(styles, events.as_slice(), source);
        wrong = wrong.saturating_add(usize::from(answer != *expected));
    }
    Ok(wrong)
}

// Each refusal of an event, and of what is counted.
const FAULTS: [Case; 11] = [
    (&[(OTHER, 0, 0), (9, 0, 0)], (1, 1)),
    (&[(TEXT, 0, 0)], (1, 0)),
    (&[(CODE, 3, 0)], (1, 0)),
    (&[(TEXT, 6, 2)], (1, 0)),
    (&[(TABLE, 0, 33), (TABLE_END, 0, 0)], (1, 0)),
    (&[(STRONG, 0, 0), (EMPHASIS_END, 0, 0)], (2, 1)),
    (&[(STRONG, 0, 0), (TEXT, 0, 1)], (2, 2)),
    (&[(TEXT, 5, 2)], (3, 0)),
    (&[(CODE, 4, 2)], (3, 0)),
    (&[(TEXT, 0, 5)], (4, 0)),
    (&[(TEXT, 0, 4), (TABLE, 0, 1), (TABLE_END, 0, 0)], (0, 0)),
];

#[test]
fn every_refusal_is_told_with_its_numbers(rt: HostRuntime) -> Result<(), Fail> {
    let styles = MarkdownStyles::new();
    assert_eq!(rt; wrong(rt.alloc(), &styles, b"source", &FAULTS)?, 0);
    Ok(())
}

#[test]
fn an_empty_source_refuses_as_any_other(rt: HostRuntime) -> Result<(), Fail> {
    let styles = MarkdownStyles::new();
    assert_eq!(rt; wrong(rt.alloc(), &styles, b"", &FAULTS)?, 0);
    Ok(())
}

// Two faults in one list: by the order of the checks at one event, by the order of the events, and events
// before marks that stay open, and those before what is counted.
const TWO_FAULTS: [Case; 16] = [
    (&[(TABLE, 0, 1), (TABLE, 0, 33)], (1, 1)),
    (
        &[(TABLE, 0, 1), (ROW, 0, 0), (CELL, 0, 0), (TEXT, 6, 2)],
        (1, 3),
    ),
    (&[(TEXT, 5, 3)], (1, 0)),
    (&[(TEXT, 5, 2), (9, 0, 0)], (3, 0)),
    (&[(9, 0, 0), (TEXT, 5, 2)], (1, 0)),
    (&[(STRONG_END, 0, 0), (9, 0, 0)], (2, 0)),
    (&[(9, 0, 0), (STRONG_END, 0, 0)], (1, 0)),
    (&[(STRONG_END, 0, 0), (TEXT, 5, 2)], (2, 0)),
    (&[(TEXT, 5, 2), (STRONG_END, 0, 0)], (3, 0)),
    (&[(STRONG, 0, 0), (9, 0, 0)], (1, 1)),
    (&[(STRONG, 0, 0), (TEXT, 5, 2)], (3, 1)),
    (&[(TEXT, 0, 5), (9, 0, 0)], (1, 1)),
    (&[(TEXT, 0, 5), (STRONG_END, 0, 0)], (2, 1)),
    (&[(TEXT, 0, 5), (TEXT, 5, 2)], (3, 1)),
    (&[(TEXT, 0, 5), (STRONG, 0, 0)], (2, 2)),
    (&[(ITEM, 0, 0), (TEXT, 0, 3)], (2, 2)),
];

#[test]
fn of_two_faults_the_first_in_order_is_told(rt: HostRuntime) -> Result<(), Fail> {
    let styles = MarkdownStyles::new();
    assert_eq!(rt; wrong(rt.alloc(), &styles, b"source", &TWO_FAULTS)?, 0);
    Ok(())
}

const BAD_STYLE: [Case; 6] = [
    (&[], (9, 4)),
    (&[(9, 0, 0)], (9, 4)),
    (&[(STRONG_END, 0, 0)], (9, 4)),
    (&[(TEXT, 5, 2)], (9, 4)),
    (&[(STRONG, 0, 0)], (9, 4)),
    (&[(TEXT, 0, 5)], (9, 4)),
];

#[test]
fn a_bad_style_is_told_before_everything_else(rt: HostRuntime) -> Result<(), Fail> {
    let styles = MarkdownStyles {
        italic: Style {
            bg: 17,
            ..Style::PLAIN
        },
        ..MarkdownStyles::new()
    };
    assert_eq!(rt; wrong(rt.alloc(), &styles, b"source", &BAD_STYLE)?, 0);
    Ok(())
}

#[test]
fn places_and_lengths_near_the_greatest_number_are_past_the_text(rt: HostRuntime) {
    let most = u32::MAX;
    for (place, length) in [
        (most, 1),
        (most, most),
        (1, most),
        (0, most),
        (8, most - 7),
        (7, 1),
    ] {
        assert_eq!(rt; answer(&[naming(TEXT, place, length)]), (1, 0));
        assert_eq!(rt; answer(&[naming(CODE, place, length)]), (1, 0));
        assert_eq!(rt; answer(&[naming(OTHER, place, length)]), (0, 0));
    }
}

#[test]
fn sixty_four_marks_are_admitted_and_the_next_is_refused(rt: HostRuntime) {
    let mut events = [event(STRONG); 130];
    events[65..].fill(event(STRONG_END));
    assert_eq!(rt; answer(&events), (2, 64));
    assert_eq!(rt; answer(&events[1..129]), (0, 0));
}

#[test]
fn thirty_two_columns_are_admitted_and_the_next_is_refused(rt: HostRuntime) {
    assert_eq!(rt; answer(&[table(32, 0), event(TABLE_END)]), (0, 0));
    assert_eq!(rt; answer(&[table(33, 0), event(TABLE_END)]), (1, 0));
    assert_eq!(rt;
        answer(&[Event {
            columns: 33,
            ..event(OTHER)
        }]),
        (0, 0)
    );
}
