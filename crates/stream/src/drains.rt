// Going through all the events of any source.
ghost use Rattle.stream.specs.Drains.{Drains};

use crate::errors::Error;
use crate::scratch::TEXT_BYTES;
use crate::sources::{Ending, EventSource};

// How many events a source gave, and how it ended. The count stays at its highest number.
#[derive(Clone, Copy, PartialEq, Eq, Debug)]
pub struct Drained {
    pub count: u64,
    pub ending: Ending,
}

pub fn drain<E: EventSource>(source: &mut E, scratch: &mut [u8]) -> Result<Drained, Error>
    ensures { Drains (E.EventSource.means source.old) scratch.old result (E.EventSource.means source.new) scratch.new }
{
    if scratch.len() < TEXT_BYTES {
        return Err(Error::ShortScratch);
    }
    let mut count = 0u64;
    let ending = loop {
        match source.next(scratch) {
            Ok(Some(_event)) => count = count.saturating_add(1),
            Ok(None) => break Ok(()),
            Err(error) => break Err(error),
        }
    };
    Ok(Drained { count, ending })
}

#[cfg(test)]
mod tests {
    use super::*;
    use crate::either::Either;
    use crate::events::Event;
    use crate::lists::{EventList, ListedEvent};

    #[test]
    fn gives_a_list(rt: HostRuntime) {
        let events = [
            ListedEvent::String(b"ab"),
            ListedEvent::Real(f64::NAN),
            ListedEvent::String(b"\xff"),
        ];
        let mut scratch = [7u8; 1025];
        let list: EventList = EventList::new(&events, Ok(()));
        let mut source: Either<EventList, EventList> = Either::Left(list);
        assert_eq!(rt; source.next(&mut scratch), Ok(Some(Event::String(2))));
        assert!(rt;
            scratch[1] == b'b' && scratch[2] == 0 && scratch[1023] == 0 && scratch[1024] == 7
        );
        let mut short = [7u8; 1023];
        assert_eq!(rt; source.next(&mut short), Err(Error::ShortScratch));
        assert_eq!(rt; source.next(&mut scratch), Ok(Some(Event::Real(f64::NAN))));
        let left = drain(&mut source, &mut scratch);
        let ending = Err(Error::InvalidUtf8AsciiStream { position: 2 });
        assert_eq!(rt; left, Ok(Drained { count: 0, ending }));
    }
}
