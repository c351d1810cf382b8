// What a paint puts on cells that hold something, and which of them it leaves.

use super::looks::{age, old_cell, stay, symbol_at};
use super::made::{Draft, ITALIC, area, paint_draft};
use grid::Grid;
use page::{Cell, Surface};
use std::test::Fail;
use style::{Style, Symbol};
use wrap::{CuttingRule, WordRule};

// A cell with all colours and the modifiers of the lower four bits.
const OLD: Cell = Cell {
    symbol: Symbol {
        bytes: 0x7a,
        len: 1,
    },
    fg: 3,
    bg: 5,
    modifiers: 15,
};

const OLD_STYLE: Style = Style {
    fg: 3,
    bg: 5,
    add: 15,
    remove: 0,
};

fn symbol(letter: u8) -> Symbol {
    Symbol {
        bytes: u64::from(letter),
        len: 1,
    }
}

#[test]
fn a_paint_keeps_unset_colours_joins_what_a_style_adds_and_drops_what_it_removes(
    rt: HostRuntime,
) -> Result<(), Fail> {
    let mut draft = Draft::new(rt.alloc());
    draft.say("a")?;
    draft.mark(ITALIC)?;
    draft.say("b")?;
    draft.end(ITALIC)?;
    let mut cells = [Cell::FRESH; 3];
    let mut page = Grid::new(&mut cells, 3, 1);
    for x in 0..3 {
        assert!(rt; page.put(x, 0, b"z", OLD_STYLE).is_ok());
    }
    assert_eq!(rt;
        paint_draft(&draft, &WordRule, area(0, 0, 3, 1), &mut page),
        0
    );
    let plain = Cell {
        symbol: symbol(b'a'),
        fg: 1,
        ..OLD
    };
    // The style of italic adds bits 1, 2 and 5 and removes bit 0.
    let italic = Cell {
        symbol: symbol(b'b'),
        fg: 6,
        modifiers: 46,
        ..OLD
    };
    assert_eq!(rt; page.read(0, 0), Some(plain));
    assert_eq!(rt; page.read(1, 0), Some(italic));
    assert_eq!(rt; page.read(2, 0), Some(OLD));
    Ok(())
}

#[test]
fn borders_and_header_have_their_styles_on_old_content(rt: HostRuntime) -> Result<(), Fail> {
    let mut draft = Draft::new(rt.alloc());
    draft.table(1, 0, &["a"], &[])?;
    let mut cells = [Cell::FRESH; 15];
    let mut page = Grid::new(&mut cells, 5, 3);
    for y in 0..3 {
        for x in 0..5 {
            assert!(rt; page.put(x, y, b"z", OLD_STYLE).is_ok());
        }
    }
    assert_eq!(rt;
        paint_draft(&draft, &WordRule, area(0, 0, 5, 3), &mut page),
        0
    );
    let border = Cell {
        symbol: Symbol {
            bytes: 0x82_94_e2,
            len: 3,
        },
        fg: 9,
        ..OLD
    };
    let header = Cell {
        symbol: symbol(b'a'),
        fg: 1,
        bg: 10,
        modifiers: 143,
    };
    assert_eq!(rt; page.read(0, 1), Some(border));
    assert_eq!(rt; page.read(1, 1), Some(OLD));
    assert_eq!(rt; page.read(2, 1), Some(header));
    assert_eq!(rt; page.read(3, 1), Some(OLD));
    assert_eq!(rt; page.read(4, 1), Some(border));
    Ok(())
}

#[test]
fn a_skipped_space_is_not_put(rt: HostRuntime) -> Result<(), Fail> {
    let mut draft = Draft::new(rt.alloc());
    draft.say("ab cd")?;
    let mut cells = [Cell::FRESH; 6];
    let mut page = Grid::new(&mut cells, 3, 2);
    age(&mut page);
    assert_eq!(rt;
        paint_draft(&draft, &WordRule, area(0, 0, 3, 2), &mut page),
        0
    );
    assert_eq!(rt; page.read(2, 0), Some(old_cell(2, 0)));
    assert_eq!(rt; symbol_at(&page, 0, 1), Some(symbol(b'c')));
    assert_eq!(rt;
        paint_draft(&draft, &CuttingRule, area(0, 0, 3, 2), &mut page),
        0
    );
    assert_eq!(rt; symbol_at(&page, 2, 0), Some(Symbol::SPACE));
    Ok(())
}

#[test]
fn empty_lines_rows_between_blocks_and_the_inside_of_entries_stay(
    rt: HostRuntime,
) -> Result<(), Fail> {
    let mut draft = Draft::new(rt.alloc());
    draft.say("a\n\nb")?;
    draft.table(1, 0, &[""], &[&["c"]])?;
    let mut cells = [Cell::FRESH; 45];
    let mut page = Grid::new(&mut cells, 5, 9);
    age(&mut page);
    assert_eq!(rt;
        paint_draft(&draft, &WordRule, area(0, 0, 5, 9), &mut page),
        0
    );
    assert!(rt; stay(&page, 1, 2));
    assert!(rt; stay(&page, 3, 4));
    for x in 1..4 {
        assert_eq!(rt; page.read(x, 5), Some(old_cell(x, 5)));
    }
    assert_eq!(rt; page.read(1, 7), Some(old_cell(1, 7)));
    assert_eq!(rt; page.read(3, 7), Some(old_cell(3, 7)));
    Ok(())
}
