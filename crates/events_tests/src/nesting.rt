use super::made::*;
use std::process::Abort;

// Kinds of events, and the refusal of a list of them.
type Case = (&'static [u8], (u8, u64));

// Whether each list is answered as its case says.
fn all_answer(rt: &impl Abort, cases: &[Case]) {
    for (kinds, expected) in cases {
        assert_eq!(rt; answer_to(kinds), *expected);
    }
}

const BRACKETS: [Case; 5] = [
    (&[STRONG, EMPHASIS, EMPHASIS_END, STRONG_END], (0, 0)),
    (
        &[LIST, ITEM, PARAGRAPH, PARAGRAPH_END, ITEM_END, LIST_END],
        (0, 0),
    ),
    (&[STRONG, EMPHASIS, STRONG_END, EMPHASIS_END], (2, 2)),
    (&[STRONG_END], (2, 0)),
    (&[STRONG, STRONG_END, STRONG_END], (2, 2)),
];

#[test]
fn starts_and_ends_pair_like_brackets(rt: HostRuntime) {
    all_answer(&rt, &BRACKETS);
}

#[test]
fn marks_that_stay_open_are_refused_with_the_event_count(rt: HostRuntime) {
    assert_eq!(rt; answer(&[]), (0, 0));
    assert_eq!(rt; answer(&[event(STRONG)]), (2, 1));
    assert_eq!(rt;
        answer(&[event(STRONG), event(EMPHASIS), event(EMPHASIS_END)]),
        (2, 3)
    );
}

#[test]
fn sixty_four_marks_may_be_open_and_no_more(rt: HostRuntime) {
    let mut events = [event(STRONG); 128];
    assert_eq!(rt; answer(&events), (2, 64));
    events[64..].fill(event(STRONG_END));
    assert_eq!(rt; answer(&events), (0, 0));
}

#[test]
fn a_table_counts_its_own_marks(rt: HostRuntime) {
    let mut events = [event(STRONG); 65];
    events[62] = event(TABLE);
    events[63] = event(ROW);
    events[64] = event(CELL);
    assert_eq!(rt; answer(&events), (2, 64));
    events[61] = event(OTHER);
    assert_eq!(rt; answer(&events), (2, 65));
}

const PARTS: [Case; 10] = [
    (&[HEAD], (2, 0)),
    (&[ROW], (2, 0)),
    (&[CELL], (2, 0)),
    (&[TABLE, CELL], (2, 1)),
    (&[TABLE, STRONG, HEAD], (2, 2)),
    (&[TABLE, STRONG, ROW], (2, 2)),
    (&[TABLE, ROW, ROW], (2, 2)),
    (&[TABLE, ROW, STRONG, CELL], (2, 3)),
    (&[TABLE, ROW, CELL, CELL], (2, 3)),
    (&[PARAGRAPH, HEAD], (2, 1)),
];

#[test]
fn the_parts_of_a_table_stand_directly_in_one_another(rt: HostRuntime) {
    all_answer(&rt, &PARTS);
}

const HEADS: [Case; 5] = [
    (
        &[TABLE, HEAD, HEAD_END, ROW, ROW_END, ROW, ROW_END, TABLE_END],
        (0, 0),
    ),
    (&[TABLE, ROW, ROW_END, TABLE_END], (0, 0)),
    (
        &[
            TABLE, HEAD, HEAD_END, TABLE_END, TABLE, HEAD, HEAD_END, TABLE_END,
        ],
        (0, 0),
    ),
    (&[TABLE, HEAD, HEAD_END, HEAD], (2, 3)),
    (&[TABLE, ROW, ROW_END, HEAD], (2, 3)),
];

#[test]
fn the_head_comes_once_and_before_every_row(rt: HostRuntime) {
    all_answer(&rt, &HEADS);
}

// Of tables with two columns.
const ENTRIES: [Case; 4] = [
    (
        &[
            TABLE, ROW, CELL, CELL_END, CELL, CELL_END, ROW_END, TABLE_END,
        ],
        (0, 0),
    ),
    (&[TABLE, ROW, CELL, CELL_END, CELL, CELL_END, CELL], (2, 6)),
    (&[TABLE, HEAD, CELL, CELL_END, CELL, CELL_END, CELL], (2, 6)),
    (
        &[
            TABLE, HEAD, CELL, CELL_END, HEAD_END, ROW, CELL, CELL_END, CELL, CELL_END, CELL,
        ],
        (2, 10),
    ),
];

#[test]
fn a_row_takes_as_many_entries_as_there_are_columns(rt: HostRuntime) {
    all_answer(&rt, &ENTRIES);
}

#[test]
fn a_table_without_columns_takes_one_entry_in_a_row(rt: HostRuntime) {
    let mut events = [
        table(0),
        event(ROW),
        event(CELL),
        event(CELL_END),
        event(ROW_END),
        event(TABLE_END),
    ];
    assert_eq!(rt; answer(&events), (0, 0));
    events[4] = event(CELL);
    assert_eq!(rt; answer(&events), (2, 4));
}

#[test]
fn no_block_stands_in_a_table_at_any_depth(rt: HostRuntime) {
    for kind in [CODE_BLOCK, PARAGRAPH, HEADING, ITEM, LIST, TABLE] {
        assert_eq!(rt; answer_to(&[TABLE, kind]), (2, 1));
        assert_eq!(rt; answer_to(&[TABLE, ROW, kind]), (2, 2));
        assert_eq!(rt; answer_to(&[TABLE, ROW, CELL, kind]), (2, 3));
        assert_eq!(rt; answer_to(&[TABLE, ROW, CELL, STRONG, kind]), (2, 4));
        assert_eq!(rt; answer_to(&[TABLE, EMPHASIS, kind]), (2, 2));
        assert_eq!(rt; answer_to(&[TABLE, TABLE_END, kind, kind + 20]), (0, 0));
    }
}

#[test]
fn a_table_may_stand_in_any_other_mark(rt: HostRuntime) {
    for kind in [STRONG, EMPHASIS, CODE_BLOCK, PARAGRAPH, HEADING, ITEM, LIST] {
        assert_eq!(rt; answer_to(&[kind, TABLE, TABLE_END, kind + 20]), (0, 0));
    }
}

const INLINE: [Case; 2] = [
    (
        &[
            TABLE, TEXT, CODE, SOFT_BREAK, HARD_BREAK, OTHER, STRONG, STRONG_END, TABLE_END,
        ],
        (0, 0),
    ),
    (
        &[
            TABLE,
            ROW,
            EMPHASIS,
            TEXT,
            EMPHASIS_END,
            CELL,
            CELL_END,
            CODE,
            ROW_END,
            TABLE_END,
        ],
        (0, 0),
    ),
];

#[test]
fn a_table_admits_styles_and_texts_outside_its_entries(rt: HostRuntime) {
    all_answer(&rt, &INLINE);
}
