//! Examples for the crate `columns`: the worked tables, each refusal at its edge, and shares that look right and are not.

#![tactic(auto)]

use columns::{ColumnLayout, Refusal, share_columns};

#[cfg(test)]
mod tests {
    use super::*;

    // A table of three columns.
    #[derive(Clone, Copy)]
    struct Table {
        natural: [u32; 3],
        growing: bool,
    }

    impl Table {
        // Whether these are its shares on a page of this width, with the fourth slot free.
        fn answers(self, width: u16, widths: [u16; 3], taken: u32) -> bool {
            let mut layout = ColumnLayout::new();
            let answer = share_columns(width, self.growing, &self.natural, &mut layout);
            answer.is_ok()
                && layout.count == 3
                && layout.widths[..3] == widths[..]
                && layout.widths[3] == 0
                && layout.taken == taken
        }
    }

    #[test]
    fn worked_tables(rt: HostRuntime) {
        let whole = Table {
            natural: [5, 9, 9],
            growing: false,
        };
        let open = Table {
            growing: true,
            ..whole
        };
        assert!(rt; whole.answers(25, [5, 5, 5], 8));
        assert!(rt; whole.answers(24, [5, 5, 4], 9));
        assert!(rt; whole.answers(34, [5, 9, 9], 0));
        assert!(rt; open.answers(34, [5, 9, 10], 0));
        assert!(rt; whole.answers(12, [1, 1, 1], 20));
    }

    #[test]
    fn shares_are_not_in_proportion(rt: HostRuntime) {
        let table = Table {
            natural: [5, 9, 9],
            growing: false,
        };
        // in proportion to 5, 9 and 9 the fifteen cells would be shared as 3, 6 and 6
        assert!(rt; !table.answers(25, [3, 6, 6], 8));
    }

    #[test]
    fn slack_goes_to_the_last_column_of_a_growing_table_that_fits(rt: HostRuntime) {
        let open = Table {
            natural: [2, 3, 4],
            growing: true,
        };
        let whole = Table {
            growing: false,
            ..open
        };
        assert!(rt; open.answers(19, [2, 3, 4], 0));
        assert!(rt; open.answers(20, [2, 3, 5], 0));
        assert!(rt; open.answers(18, [2, 3, 3], 1));
        assert!(rt; open.answers(65535, [2, 3, 65520], 0));
        assert!(rt; whole.answers(65535, [2, 3, 4], 0));
    }

    #[test]
    fn a_page_without_room_leaves_each_column_one_cell(rt: HostRuntime) {
        let whole = Table {
            natural: [1, 0, 100_000],
            growing: false,
        };
        let open = Table {
            growing: true,
            ..whole
        };
        assert!(rt; whole.answers(0, [1, 1, 1], 99_999));
        assert!(rt; open.answers(13, [1, 1, 1], 99_999));
        assert!(rt; open.answers(14, [1, 1, 2], 99_998));
    }

    // The only column's natural width and share, after the number of columns and before that of the cells taken.
    fn one(layout: ColumnLayout) -> (u8, u32, u16, u32) {
        (
            layout.count,
            layout.natural[0],
            layout.widths[0],
            layout.taken,
        )
    }

    #[test]
    fn a_table_without_columns_has_one(rt: HostRuntime) {
        let mut layout = ColumnLayout::new();
        assert!(rt; share_columns(20, false, &[], &mut layout).is_ok());
        assert_eq!(rt; one(layout), (1, 1, 1, 0));
        assert!(rt; share_columns(20, true, &[], &mut layout).is_ok());
        assert_eq!(rt; one(layout), (1, 1, 16, 0));
    }

    // A layout that no question gives.
    fn old() -> ColumnLayout {
        ColumnLayout {
            count: 7,
            taken: 9,
            ..ColumnLayout::new()
        }
    }

    #[test]
    fn thirty_two_columns_are_answered_and_one_more_is_refused(rt: HostRuntime) {
        let natural = [100_000; 33];
        let mut layout = old();
        let answer = share_columns(65535, false, &natural, &mut layout);
        assert_eq!(rt; answer, Err(Refusal::TooManyColumns));
        assert_eq!(rt; layout, old());
        assert!(rt; share_columns(65535, false, &natural[..32], &mut layout).is_ok());
        // 65,438 cells for 32 columns: the rightmost two give one more than the others
        assert_eq!(rt; layout.count, 32);
        assert_eq!(rt; layout.natural[31], 100_000);
        assert_eq!(rt; layout.widths[0], 2045);
        assert!(rt; layout.widths[29..] == [2045, 2044, 2044]);
        assert_eq!(rt; layout.taken, 3_200_000 - 65_438);
    }

    #[test]
    fn the_first_column_that_is_too_wide_is_named(rt: HostRuntime) {
        let mut layout = old();
        let answer = share_columns(40, false, &[3, 100_001, 100_002], &mut layout);
        assert_eq!(rt; answer, Err(Refusal::TooWide(1)));
        assert_eq!(rt; layout, old());
        assert!(rt; share_columns(40, false, &[3, 100_000, 100_000], &mut layout).is_ok());
        assert_eq!(rt; layout.count, 3);
    }
}
