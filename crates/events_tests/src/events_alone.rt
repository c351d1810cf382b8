use super::made::*;
use events::{Cursor, Kind, Tag, Unknown, kind_of};

#[test]
fn twenty_seven_numbers_mean_a_kind(rt: HostRuntime) {
    let known = (0..=255u8).filter(|number| kind_of(*number).is_some());
    assert_eq!(rt; known.count(), 27);
}

#[test]
fn a_start_an_end_and_a_tag_are_known_by_their_numbers(rt: HostRuntime) {
    assert_eq!(rt; Kind::try_from(TABLE), Ok(Kind::Start(Tag::Table)));
    assert_eq!(rt; Kind::try_from(TABLE_END), Ok(Kind::End(Tag::Table)));
    assert_eq!(rt; Kind::try_from(21), Err(Unknown));
    assert_eq!(rt; Tag::try_from(CELL), Ok(Tag::TableCell));
    assert_eq!(rt; Tag::try_from(CELL_END), Err(Unknown));
}

#[test]
fn every_other_number_is_refused(rt: HostRuntime) {
    for number in [4, 9, 21, 29, 41, 49, 51, 255] {
        assert_eq!(rt; answer(&[event(OTHER), event(number)]), (1, 1));
    }
}

#[test]
fn a_text_or_a_code_lies_in_the_text_and_is_not_empty(rt: HostRuntime) {
    for kind in [TEXT, CODE] {
        assert_eq!(rt; answer(&[naming(kind, 0, 5)]), (0, 0));
        assert_eq!(rt; answer(&[naming(kind, 4, 1)]), (0, 0));
        assert_eq!(rt; answer(&[naming(kind, 0, 6)]), (1, 0));
        assert_eq!(rt; answer(&[naming(kind, 4, 2)]), (1, 0));
        assert_eq!(rt; answer(&[naming(kind, 2, 0)]), (1, 0));
        assert_eq!(rt; answer(&[naming(kind, u32::MAX, u32::MAX)]), (1, 0));
    }
}

#[test]
fn no_other_event_needs_a_range(rt: HostRuntime) {
    assert_eq!(rt; answer(&[naming(SOFT_BREAK, 9, 9)]), (0, 0));
    assert_eq!(rt; answer(&[naming(HARD_BREAK, 9, 0)]), (0, 0));
    assert_eq!(rt; answer(&[naming(OTHER, 0, 9)]), (0, 0));
    assert_eq!(rt;
        answer(&[naming(STRONG, 9, 9), naming(STRONG_END, 9, 9)]),
        (0, 0)
    );
}

#[test]
fn a_table_has_at_most_thirty_two_columns(rt: HostRuntime) {
    assert_eq!(rt; answer(&[table(32), event(TABLE_END)]), (0, 0));
    assert_eq!(rt; answer(&[table(33), event(TABLE_END)]), (1, 0));
    assert_eq!(rt; answer(&[table(255), event(TABLE_END)]), (1, 0));
}

#[test]
fn the_cursor_names_the_event_where_it_stopped(rt: HostRuntime) {
    let events = [event(OTHER), event(TEXT)];
    let mut cursor = Cursor::new(&events, SAMPLE);
    assert_eq!(rt; cursor.at(), 0);
    assert!(rt; cursor.next().is_some());
    assert_eq!(rt; cursor.at(), 0);
    assert!(rt; cursor.next().is_some());
    assert_eq!(rt; cursor.at(), 1);
    assert!(rt; cursor.next().is_none());
    assert_eq!(rt; cursor.at(), 2);
    assert!(rt; cursor.next().is_none());
    assert_eq!(rt; cursor.at(), 2);
}

#[test]
fn an_event_that_reaches_past_the_text_names_no_bytes(rt: HostRuntime) {
    let cursor = Cursor::new(&[], SAMPLE);
    assert_eq!(rt; cursor.bytes(naming(TEXT, 3, 2)), b"cd".as_slice());
    assert_eq!(rt; cursor.bytes(naming(TEXT, 3, 3)), b"".as_slice());
    assert_eq!(rt; cursor.bytes(naming(TEXT, 5, 0)), b"".as_slice());
    assert_eq!(rt;
        cursor.bytes(naming(TEXT, u32::MAX, u32::MAX)),
        b"".as_slice()
    );
}
