ghost use Rattle.std.specs.Prelude.{◌≡◌};
ghost use Rattle.fold.specs.Tables.{info_of};

use blank::Source;
use events::event::Event;
use records::kinds::Info;

// What a table is told at its start.
pub fn info_of(event: Event, source: &Source) -> Info
    ensures value { result ≡ info_of event source.now }
{
    Info {
        columns: event.columns.max(1),
        alignments: if event.columns == 0 {
            0
        } else {
            event.alignments
        },
        // an end past the source counts as its length
        open: source.is_blank_from(event.end as usize),
    }
}
