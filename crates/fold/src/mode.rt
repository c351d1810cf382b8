// Whether the fold is in a list item, and there before or behind its first paragraph.
#[derive(Clone, Copy, PartialEq, Eq, Default)]
pub enum InItem {
    #[default]
    No,
    First,
    Later,
}

// Where in the tags the fold is: in a code block, in a list item, in a table's entry.
#[derive(Clone, Copy, Default)]
pub struct Mode {
    pub code: bool,
    pub item: InItem,
    pub entry: bool,
}

// What stands on the sheet: whether the open line is empty, whether a line has ended before it since
// the last table, and whether a table is being written.
#[derive(Clone, Copy)]
pub struct Spot {
    pub bare: bool,
    pub more: bool,
    pub table: bool,
}
