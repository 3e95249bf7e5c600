// The events that spell a property list, one after another.
ghost use Rattle.std.specs.Prelude.{◌≡◌, Decides};
ghost use Rattle.stream.specs.Events.{kind_of, text_length_lem};
ghost use Rattle.std.specs.Cmp.{partial_equiv_from_equiv};
ghost use Rattle.stream.specs.Equals.{equal_event, event_laws};

use crate::kinds::EventKind;
use crate::uid::Uid;
use text::integer::Integer;

// A Data or a String carries the length of its text, whose bytes stand at the front of the scratch.
#[derive(Clone, Copy, Debug)]
pub enum Event {
    StartArray(Option<u64>),
    StartDictionary(Option<u64>),
    EndCollection,
    Boolean(bool),
    Data(usize),
    Integer(Integer),
    Real(f64),
    String(usize),
    Uid(Uid),
}

impl Event {
    pub fn kind(self) -> EventKind
        ensures { result ≡ kind_of self }
    {
        match self {
            Event::StartArray(_) => EventKind::StartArray,
            Event::StartDictionary(_) => EventKind::StartDictionary,
            Event::EndCollection => EventKind::EndCollection,
            Event::Boolean(_) => EventKind::Boolean,
            Event::Data(_) => EventKind::Data,
            Event::Integer(_) => EventKind::Integer,
            Event::Real(_) => EventKind::Real,
            Event::String(_) => EventKind::String,
            Event::Uid(_) => EventKind::Uid,
        }
    }

    // How many bytes at the front of the scratch are the event's text.
    pub fn text_length(self) -> usize
        ensures { result ≡ text_length_lem self }
    {
        match self {
            Event::Data(n) | Event::String(n) => n,
            _ => 0,
        }
    }
}

// Whether two floats are one value: both are not a number, or they have the same bits.
fn same_real(a: f64, b: f64) -> bool
    ensures { Decides result (a ≡ b) }
{
    if a.is_nan() {
        return b.is_nan();
    }
    if b.is_nan() {
        return false;
    }
    a.to_bits() == b.to_bits()
}

// Two events are equal where they are the same. So a Real that is not a number equals itself, and 0.0 and -0.0 are two: a
// derive would compare floats as IEEE 754 does.
impl PartialEq for Event {
    ghost eq = { equal_event };

    ghost laws = { partial_equiv_from_equiv event_laws };

    fn eq(&self, other: &Event) -> bool
        ensures value { result ≡ equal_event self.now other.now }
        ensures same { Decides result (self.now ≡ other.now) }
    {
        match (*self, *other) {
            (Event::StartArray(a), Event::StartArray(b)) => a == b,
            (Event::StartDictionary(a), Event::StartDictionary(b)) => a == b,
            (Event::EndCollection, Event::EndCollection) => true,
            (Event::Boolean(a), Event::Boolean(b)) => a == b,
            (Event::Data(a), Event::Data(b)) => a == b,
            (Event::Integer(a), Event::Integer(b)) => a == b,
            (Event::Real(a), Event::Real(b)) => same_real(a, b),
            (Event::String(a), Event::String(b)) => a == b,
            (Event::Uid(a), Event::Uid(b)) => a == b,
            _ => false,
        }
    }
}

impl Eq for Event {
    ghost laws = { event_laws };
}

#[cfg(test)]
mod tests {
    use super::*;

    // Of which type an event is, it says itself: nothing else here does.
    #[test]
    fn an_event_alone(rt: HostRuntime) {
        assert_eq!(rt; Event::EndCollection.kind(), EventKind::EndCollection);
        let start = Event::StartArray(None);
        assert_eq!(rt; start.kind(), EventKind::StartArray);
    }
}
