ghost use Rattle.std.specs.Prelude.{◌<◌};

use super::made::*;
use checks::check as check_events;
use events::Event;
use glyphs::Utf8;

// The check with the ruler that admits one byte or two.
fn short(events: &[Event], text: &[u8]) -> (u8, u64)
    ensures bound { result.0 < 10 }
{
    told(check_events(&Short, events, text))
}

#[test]
fn a_text_is_measured_line_by_line_and_a_code_whole(rt: HostRuntime) {
    assert_eq!(rt; short(&[naming(TEXT, 0, 5)], SAMPLE), (0, 0));
    assert_eq!(rt; short(&[naming(CODE, 0, 5)], SAMPLE), (3, 0));
    assert_eq!(rt; short(&[naming(CODE, 0, 2)], SAMPLE), (0, 0));
    assert_eq!(rt; short(&[naming(TEXT, 0, 5)], b"abccd"), (3, 0));
    assert_eq!(rt; short(&[naming(TEXT, 0, 5)], b"abc\nd"), (3, 0));
    assert_eq!(rt; short(&[naming(TEXT, 0, 5)], b"a\nbcd"), (3, 0));
}

#[test]
fn empty_lines_are_not_measured(rt: HostRuntime) {
    assert_eq!(rt; short(&[naming(TEXT, 0, 5)], b"\nab\n\n"), (0, 0));
    assert_eq!(rt; short(&[naming(TEXT, 0, 1)], b"\n"), (0, 0));
}

#[test]
fn in_an_entry_everything_is_measured_whole(rt: HostRuntime) {
    let mut events = [
        table(1),
        event(ROW),
        event(CELL),
        naming(TEXT, 0, 5),
        event(CELL_END),
        event(ROW_END),
        event(TABLE_END),
    ];
    assert_eq!(rt; short(&events, SAMPLE), (3, 3));
    events[3] = naming(CODE, 0, 5);
    assert_eq!(rt; short(&events, SAMPLE), (3, 3));
    events[3] = naming(TEXT, 3, 2);
    assert_eq!(rt; short(&events, SAMPLE), (0, 0));
}

#[test]
fn styles_do_not_change_what_is_measured(rt: HostRuntime) {
    let events = [
        table(1),
        event(ROW),
        event(CELL),
        event(STRONG),
        naming(TEXT, 0, 5),
    ];
    assert_eq!(rt; short(&events, SAMPLE), (3, 4));
    let events = [event(STRONG), naming(TEXT, 0, 5), event(STRONG_END)];
    assert_eq!(rt; short(&events, SAMPLE), (0, 0));
}

#[test]
fn in_a_table_outside_its_entries_nothing_is_measured(rt: HostRuntime) {
    let long = naming(CODE, 0, 5);
    let mut events = [
        table(1),
        long,
        event(ROW),
        long,
        event(CELL),
        event(CELL_END),
        long,
        event(ROW_END),
        long,
        event(TABLE_END),
        event(OTHER),
    ];
    assert_eq!(rt; short(&events, SAMPLE), (0, 0));
    events[10] = long;
    assert_eq!(rt; short(&events, SAMPLE), (3, 10));
}

#[test]
fn the_utf8_ruler_refuses_what_is_no_text(rt: HostRuntime) {
    let events = [naming(TEXT, 0, 2)];
    assert_eq!(rt; told(check_events(&Utf8, &events, &[0xC3, 0xA9])), (0, 0));
    assert_eq!(rt; told(check_events(&Utf8, &events, &[0xC3, 0x0A])), (3, 0));
}

#[test]
fn the_first_fault_in_order_is_told(rt: HostRuntime) {
    let empty = naming(TEXT, 0, 0);
    let long = naming(CODE, 0, 5);
    assert_eq!(rt; short(&[long, empty], SAMPLE), (3, 0));
    assert_eq!(rt; short(&[empty, long], SAMPLE), (1, 0));
    assert_eq!(rt; short(&[event(STRONG_END), empty], SAMPLE), (2, 0));
    assert_eq!(rt; short(&[event(STRONG), long], SAMPLE), (3, 1));
    assert_eq!(rt; short(&[event(TABLE), table(33)], SAMPLE), (1, 1));
    assert_eq!(rt; short(&[event(TABLE), naming(TEXT, 0, 6)], SAMPLE), (1, 1));
}
