// A cursor over events and their text, used by whoever walks over a load.
ghost use Rattle.std.specs.Prelude.{◌≡◌};
ghost use Rattle.std.specs.Iterator.{item_count};
ghost use Rattle.events.specs.Cursors.{left, bytes_of, Gives};

use super::event::Event;

// `at` is the event where the cursor stopped: the one it gave last, or the event count after the end.
#[derive(Drop)]
pub struct Cursor<'a> {
    pub events: &'a [Event],
    pub text: &'a [u8],
    pub taken: usize,
    pub at: usize,
}

impl<'a> Cursor<'a> {
    pub fn new(events: &'a [Event], text: &'a [u8]) -> Cursor<'a>
        ensures left { left result ≡ events.now }
        ensures text { result.text.now ≡ text.now }
        ensures taken { result.taken ≡ 0 }
        ensures at { result.at ≡ 0 }
    {
        Cursor {
            events,
            text,
            taken: 0,
            at: 0,
        }
    }

    // The number of the event where the cursor stopped.
    pub fn at(&self) -> usize
        ensures value { result ≡ self.now.at }
    {
        self.at
    }

    // The bytes that an event names in the text, none where it reaches past the text.
    pub fn bytes(&self, event: Event) -> &'a [u8]
        ensures value { result.now ≡ bytes_of self.now.text.now event }
    {
        let from = event.place as usize;
        let to = from + event.length as usize;
        self.text.get(from..to).unwrap_or_default()
    }
}

impl<'a> Iterator for Cursor<'a> {
    type Item = Event;

    ghost next_gives = { Gives };

    ghost remaining = { item_count left };

    // The next event, if one is left.
    fn next(&mut self) -> Option<Event> {
        self.at = self.taken;
        let event = self.events.get(self.taken).copied()?;
        self.taken += 1;
        Some(event)
    }
}
