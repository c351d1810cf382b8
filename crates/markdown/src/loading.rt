// A load into records: everything is checked before anything is written.
ghost use Rattle.std.specs.Prelude.{◌≡◌, true, false, [], length, is_ok};
ghost use Rattle.blocks.specs.Reads.{blocks_of};
ghost use Rattle.parse.specs.Sketches.{parsed};
ghost use Rattle.parse.specs.Stands.{filled};
ghost use Rattle.markdown.specs.Answers.{within, limited_by, answered};
ghost use Rattle.markdown.specs.Sheets.{on_ok, limits_in, refilled};
ghost use Rattle.markdown.specs.Calls.{load_of};
ghost use Rattle.markdown.specs.Fronts.{StandsInFront};

use checks::check;
use events::refusal::{Amount, Refusal};
use events::styles::check_styles;
use fold::load::Load;
use glyphs::Ruler;
use records::kinds::{Records, Used};

pub const MAX_GLYPHS: usize = 50_000;

pub const MAX_LINES: usize = 4_096;

pub const MAX_ROWS: usize = 4_096;

pub const MAX_TABLES: u16 = 255;

// For how many records the lent memory has places.
#[derive(Clone, Copy)]
struct Room {
    glyphs: usize,
    lines: usize,
    rows: usize,
}

// The records that a load uses, written into memory without a place.
fn count<R: Ruler>(load: &Load<'_, R>) -> Used
    ensures value { result ≡ (filled (R.Ruler.meaning load.now.ruler.now) load.now.styles.now load.now.text.now load.now.source.now load.now.events.now [] [] []).used }
{
    let mut records = Records::new(&mut [], &mut [], &mut []);
    load.run(&mut records);
    records.flush_text();
    records.used
}

// Refuses an amount that passes its limit.
fn within(count: u16, limit: usize, amount: Amount) -> Result<(), Refusal>
    ensures value { result ≡ within count limit amount }
{
    if usize::from(count) > limit {
        return Err(Refusal::Amount(amount));
    }
    Ok(())
}

// Refuses the first amount that passes its limit.
fn check_amounts(used: Used, room: Room) -> Result<(), Refusal>
    ensures value { result ≡ limited_by used.glyphs used.lines used.rows used.tables room.glyphs room.lines room.rows }
{
    within(used.glyphs, room.glyphs.min(MAX_GLYPHS), Amount::Glyphs)?;
    within(used.lines, room.lines.min(MAX_LINES), Amount::Lines)?;
    within(used.rows, room.rows.min(MAX_ROWS), Amount::Rows)?;
    within(used.tables, usize::from(MAX_TABLES), Amount::Tables)
}

// All checks of a load, in their order.
#[tactic(auto, using(crate::proofs::Loads::dry_limits))]
fn judge<R: Ruler>(load: &Load<'_, R>, room: Room) -> Result<(), Refusal>
    ensures value { result ≡ answered (R.Ruler.meaning load.now.ruler.now) load.now.styles.now load.now.text.now load.now.source.now load.now.events.now room.glyphs room.lines room.rows }
{
    check_styles(load.styles)?;
    check(load.ruler, load.events, load.text)?;
    check_amounts(count(load), room)
}

// The fold of events that were admitted.
fn fill<R: Ruler>(records: &mut Records, load: &Load<'_, R>)
    ensures after { records.new ≡ refilled (R.Ruler.meaning load.now.ruler.now) load.now.styles.now load.now.text.now load.now.source.now load.now.events.now records.old.glyphs records.old.lines records.old.rows }
{
    records.clear();
    if !load.source.is_empty() {
        load.run(records);
        records.flush_text();
    }
}

// Checks everything, then writes.
#[tactic(auto, using(crate::proofs::Loads::load_blocks, crate::proofs::Loads::load_room))]
pub fn refill<R: Ruler>(records: &mut Records, load: &Load<'_, R>) -> Result<(), Refusal>
    ensures answer { result ≡ answered (R.Ruler.meaning load.now.ruler.now) load.now.styles.now load.now.text.now load.now.source.now load.now.events.now (length records.old.glyphs) (length records.old.lines) (length records.old.rows) }
    ensures blocks { blocks_of records.new ≡ on_ok result (parsed (R.Ruler.meaning load.now.ruler.now) load.now.styles.now load.now.text.now load.now.source.now load.now.events.now) (blocks_of records.old) }
    ensures front { let given = load.now in
        let l = load_of (R.Ruler.meaning given.ruler.now) given.styles.now given.text.now
        given.source.now given.events.now in
        is_ok result ≡ true → StandsInFront l records.new }
    ensures same { is_ok result ≡ false → records.new ≡ records.old }
    ensures room { limits_in records.new ≡ limits_in records.old }
{
    let room = Room {
        glyphs: records.glyphs.len(),
        lines: records.lines.len(),
        rows: records.rows.len(),
    };
    judge(load, room)?;
    fill(records, load);
    Ok(())
}
