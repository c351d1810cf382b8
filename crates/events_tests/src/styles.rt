use super::made::told;
use events::{Amount, MarkdownStyles, Refusal, check_styles};
use style::Style;

// The default styles with this one in the place of each in turn.
fn in_each_place(style: Style) -> [MarkdownStyles; 8] {
    let plain = MarkdownStyles::new();
    [
        MarkdownStyles {
            base: style,
            ..plain
        },
        MarkdownStyles {
            code_inline: style,
            ..plain
        },
        MarkdownStyles {
            code_block: style,
            ..plain
        },
        MarkdownStyles {
            bold: style,
            ..plain
        },
        MarkdownStyles {
            italic: style,
            ..plain
        },
        MarkdownStyles {
            heading: style,
            ..plain
        },
        MarkdownStyles {
            table_border: style,
            ..plain
        },
        MarkdownStyles {
            table_header: style,
            ..plain
        },
    ]
}

#[test]
fn a_colour_may_be_sixteen_in_each_style(rt: HostRuntime) {
    assert_eq!(rt; told(check_styles(&MarkdownStyles::new())), (0, 0));
    let last = Style {
        fg: 16,
        bg: 16,
        add: 255,
        remove: 255,
    };
    for styles in &in_each_place(last) {
        assert_eq!(rt; told(check_styles(styles)), (0, 0));
    }
}

#[test]
fn a_colour_may_be_seventeen_in_no_style(rt: HostRuntime) {
    for (fg, bg) in [(17, 0), (0, 17), (17, 17), (255, 16), (16, 255)] {
        let past = Style {
            fg,
            bg,
            ..Style::PLAIN
        };
        for (i, styles) in in_each_place(past).iter().enumerate() {
            assert_eq!(rt; told(check_styles(styles)), (9, i as u64));
        }
    }
}

#[test]
fn the_first_of_two_bad_styles_is_refused(rt: HostRuntime) {
    let past = Style {
        fg: 255,
        ..Style::PLAIN
    };
    let styles = MarkdownStyles {
        italic: past,
        table_header: past,
        ..MarkdownStyles::new()
    };
    assert_eq!(rt; told(check_styles(&styles)), (9, 4));
}

#[test]
fn every_amount_has_its_number(rt: HostRuntime) {
    assert_eq!(rt; Refusal::Amount(Amount::Glyphs).numbered(), (4, 0));
    assert_eq!(rt; Refusal::Amount(Amount::Lines).numbered(), (4, 1));
    assert_eq!(rt; Refusal::Amount(Amount::Rows).numbered(), (4, 2));
    assert_eq!(rt; Refusal::Amount(Amount::Tables).numbered(), (4, 3));
}
