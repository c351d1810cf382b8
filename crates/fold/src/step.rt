ghost use Rattle.std.specs.Prelude.{◌≡◌};
ghost use Rattle.stack.specs.Stacks.{held, room};
ghost use Rattle.fold.specs.Steps.{state_of, stepped_by, ran};

use super::load::Load;
use super::perform::kind_in;
use super::tags::Tags;
use events::cursor::Cursor;
use events::event::Event;
use glyphs::Ruler;
use records::kinds::Records;

impl<'x, R: Ruler> Load<'x, R> {
    // One event of the fold, which names the bytes `s` in the text.
    fn step(&self, records: &mut Records, tags: &mut Tags, event: Event, s: &[u8])
        ensures after { state_of records.new tags.new.mode (held tags.new.stack) ≡ stepped_by (R.Ruler.meaning self.now.ruler.now) self.now.styles.now self.now.source.now (room tags.old.stack) (state_of records.old tags.old.mode (held tags.old.stack)) event s.now }
        ensures room { room tags.new.stack ≡ room tags.old.stack }
    {
        self.perform(records, tags, event, s);
        tags.shift(self.styles, kind_in(event));
    }

    // All events, one after the other.
    pub fn run(&self, records: &mut Records)
        ensures after { records.new ≡ ran (R.Ruler.meaning self.now.ruler.now) self.now.styles.now self.now.text.now self.now.source.now self.now.events.now records.old }
    {
        let mut slots = [self.styles.base; 65];
        let mut tags = Tags::new(&mut slots, self.styles.base);
        let mut cursor = Cursor::new(self.events, self.text);
        while let Some(event) = cursor.next() {
            let s = cursor.bytes(event);
            self.step(records, &mut tags, event, s);
        }
    }
}
