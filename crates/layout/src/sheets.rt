// Sheets on a page.
ghost use Rattle.std.specs.Prelude.{◌≡◌, ◌-◌, ◌^◌, ◌<◌, length, map};
ghost use Rattle.std.specs.Option.{option_map};
ghost use Rattle.blocks.specs.Reads.{piece_of, blocks_of};
ghost use Rattle.layout_laws.specs.Layouts.{block_rows, total_rows, table_at};
ghost use Rattle.layout.specs.Reads.{table_of};

use super::Layout;
use records::kinds::{Block, Info, Records, Span};
use wrap::BreakingRule;

// The rows between so many blocks.
fn gaps(blocks: usize) -> u64
    ensures value { result ≡ blocks - 1 }
{
    blocks.saturating_sub(1) as u64
}

impl<R: BreakingRule> Layout<'_, '_, R> {
    // The rows of a block.
    fn block_rows(&self, block: &Block) -> u32
        ensures value { result ≡ block_rows (R.BreakingRule.meaning self.now.rule.now) self.now.width self.now.streaming (piece_of self.now.records.now.glyphs self.now.records.now.lines self.now.records.now.rows block.now) }
    {
        match *block {
            Block::Text(lines) => self.text_rows(lines),
            Block::Table(info, rows) => self.layout_table(info, rows).1,
        }
    }

    // The rows of some blocks, with one row between them.
    fn rows_of(&self, blocks: &[Block]) -> u64
        requires { length blocks.now < 2 ^ 16 }
        ensures value { result ≡ total_rows (R.BreakingRule.meaning self.now.rule.now) self.now.width self.now.streaming (map (piece_of self.now.records.now.glyphs self.now.records.now.lines self.now.records.now.rows) blocks.now) }
    {
        let mut total = gaps(blocks.len());
        for block in blocks {
            total += u64::from(self.block_rows(block));
        }
        total
    }

    // The rows of the sheet's blocks; there are none where nothing was loaded.
    pub fn total_rows(&self) -> u64
        ensures value { result ≡ total_rows (R.BreakingRule.meaning self.now.rule.now) self.now.width self.now.streaming (blocks_of self.now.records.now) }
    {
        let records = self.records;
        if records.used.blocks == 0 {
            return 0;
        }
        self.rows_of(records.blocks())
    }
}

// The table of this number among the tables, counted from 0: what it was told, and its rows.
pub fn table_at(records: &Records, number: usize) -> Option<(Info, Span)>
    ensures value { option_map (table_of records.now) result ≡ table_at (blocks_of records.now) number }
{
    let mut left = number;
    for block in records.blocks() {
        if let Block::Table(info, rows) = *block {
            if left == 0 {
                return Some((info, rows));
            }
            left -= 1;
        }
    }
    None
}
