// A source over a lent list of events.
ghost use Rattle.std.specs.Prelude.{◌≡◌, map};
ghost use Rattle.stream.specs.Fits.{part_fit};
ghost use Rattle.stream.specs.Lists.{listed, StandsFor, text_of, unfit, fit_part, meaning};
ghost use Rattle.stream.specs.Streams.{EachFit, stream};

use crate::errors::Error;
use crate::events::Event;
use crate::scratch::{TEXT_BYTES, clear, put_text};
use crate::sources::{Ending, EventSource};
use crate::uid::Uid;
use text::integer::Integer;
use text::utf8::is_utf8;

// An event whose text is borrowed. Signed and Unsigned both stand for an Integer. (An enum of its own: were it `Event` with another parameter, an event made
// for itself alone would not say which of the two it is, and no variant of either alias could be imported.)
#[derive(Clone, Copy, Debug)]
pub enum ListedEvent<'a> {
    StartArray(Option<u64>),
    StartDictionary(Option<u64>),
    EndCollection,
    Boolean(bool),
    Data(&'a [u8]),
    Signed(i64),
    Unsigned(u64),
    Real(f64),
    String(&'a [u8]),
    Uid(Uid),
}

impl<'a> ListedEvent<'a> {
    // Its text, or no byte where it has none.
    fn text(self) -> &'a [u8]
        ensures { result.now ≡ text_of (listed self.entry) }
    {
        match self {
            ListedEvent::Data(text) | ListedEvent::String(text) => text,
            _ => &[],
        }
    }

    // Why it is not given, if so many events stand before it.
    fn refusal(self, position: u32) -> Option<Error>
        ensures { result ≡ unfit position (listed self.entry) }
    {
        match self {
            ListedEvent::Data(text) | ListedEvent::String(text) if text.len() > TEXT_BYTES => {
                Some(Error::TextTooLong { position })
            }
            ListedEvent::String(text) if !is_utf8(text) => {
                Some(Error::InvalidUtf8AsciiStream { position })
            }
            _ => None,
        }
    }

    // The event that is given, its text standing in the scratch.
    fn event(self) -> Event
        ensures { StandsFor result (listed self.entry) }
    {
        match self {
            ListedEvent::StartArray(count) => Event::StartArray(count),
            ListedEvent::StartDictionary(count) => Event::StartDictionary(count),
            ListedEvent::EndCollection => Event::EndCollection,
            ListedEvent::Boolean(value) => Event::Boolean(value),
            ListedEvent::Data(text) => Event::Data(text.len()),
            ListedEvent::Signed(value) => Event::Integer(Integer::from(value)),
            ListedEvent::Unsigned(value) => Event::Integer(Integer::from(value)),
            ListedEvent::Real(value) => Event::Real(value),
            ListedEvent::String(text) => Event::String(text.len()),
            ListedEvent::Uid(value) => Event::Uid(value),
        }
    }
}

// Gives the events of a list, and then an ending. An event that is unfit, for its text is over 1,024 bytes or a String's is
// not UTF-8, is refused in place of being given, and so ends the list; the position is how many events stand before it.
#[derive(Drop)]
pub struct EventList<'a> {
    events: &'a [ListedEvent<'a>],
    given: u32,
    ending: Ending,
}

impl<'a> EventList<'a> {
    pub fn new(events: &'a [ListedEvent<'a>], ending: Ending) -> EventList<'a>
        ensures part { meaning result ≡ fit_part 0 (map listed events.now) ending }
        ensures whole { EachFit (map listed events.now) → meaning result ≡ stream (map listed events.now) ending }
    {
        EventList {
            events,
            given: 0,
            ending,
        }
    }
}

impl EventSource for EventList<'_> {
    ghost means = { meaning };

    ghost fit = { λ x. part_fit x.given (map listed x.events.now) x.ending };

    fn next(&mut self, scratch: &mut [u8]) -> Result<Option<Event>, Error> {
        if scratch.len() < TEXT_BYTES {
            return Err(Error::ShortScratch);
        }
        let [first, rest @ ..] = self.events else {
            clear(scratch, 0);
            self.ending?;
            return Ok(None);
        };
        if let Some(error) = first.refusal(self.given) {
            clear(scratch, 0);
            return Err(error);
        }
        put_text(scratch, first.text());
        self.events = rest;
        self.given = self.given.saturating_add(1);
        Ok(Some(first.event()))
    }
}
