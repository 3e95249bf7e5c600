// What it is to give events, one at a time.
ghost use Rattle.std.specs.Prelude.{◌≡◌};
ghost use Rattle.stream.specs.Streams.{Stream, EachFit};
ghost use Rattle.stream.specs.Nexts.{Next};

use crate::errors::Error;
use crate::events::Event;

// How events end: with no refusal, or with one.
pub type Ending = Result<(), Error>;

pub trait EventSource {
    // The events that are left, and how they end.
    ghost means: { Self → Stream };

    // Gives the next event, with its text in the scratch, or the ending, every time.
    fn next(&mut self, scratch: &mut [u8]) -> Result<Option<Event>, Error>
        ensures { Next (means self.old) scratch.old result (means self.new) scratch.new };

    // A text has at most 1,024 bytes, and a String is UTF-8.
    ghost fit: { (x : Self) → EachFit (means x).events };
}
