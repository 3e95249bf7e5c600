// What is printed of events.
ghost use Rattle.std.specs.Prelude.{◌≡◌, ◌++◌, Some, IfOk, OnOk, to_bits};
ghost use Rattle.std.specs.Float.{binary64};
ghost use Rattle.std.specs.Fmt.{AppendsText};
ghost use Rattle.stream.specs.Events.{event};
ghost use Rattle.stream.specs.Streams.{over};
ghost use Rattle.report.specs.Events.{event_text, stream_text};

use crate::hex::Hex;
use std::alloc::{AllocError, Global};
use std::fmt;
use stream::errors::Error;
use stream::events::Event;
use stream::labels::Labelled;
use stream::scratch::TEXT_BYTES;
use stream::sources::EventSource;

// The 64 bits of a number; of all not-a-numbers one pattern.
fn real_bits(x: f64) -> u64
    ensures { result ≡ to_bits binary64 x }
{
    if x.is_nan() {
        0x7ff8_0000_0000_0000
    } else {
        x.to_bits()
    }
}

// Prints an event whose text, if it has one, stands at the front of the scratch.
#[derive(Clone, Copy)]
pub struct PrintedEvent<'a> {
    pub event: Event,
    pub scratch: &'a [u8],
}

impl fmt::Display for PrintedEvent<'_> {
    ghost output = { λ x. Some (event_text (event x.event x.scratch.now)) };

    fn fmt<W: fmt::Write>(&self, f: &mut fmt::Formatter<W>) -> fmt::Result {
        let length = self.event.text_length().min(self.scratch.len());
        let text = Hex(&self.scratch[..length]);
        match self.event {
            Event::StartArray(count) => write!(f, "StartArray{}", Labelled::new(" ", count)),
            Event::StartDictionary(count) => {
                write!(f, "StartDictionary{}", Labelled::new(" ", count))
            }
            Event::EndCollection => write!(f, "EndCollection"),
            Event::Boolean(value) => write!(f, "Boolean {value}"),
            Event::Data(_) => write!(f, "Data {text}"),
            Event::Integer(value) => write!(f, "Integer {value}"),
            Event::Real(value) => write!(f, "Real {}", Hex(&real_bits(value).to_be_bytes())),
            Event::String(_) => write!(f, "String {text}"),
            Event::Uid(value) => write!(f, "Uid {}", value.get()),
        }
    }
}

// What a value prints, behind what `out` holds. It is written in `line` first, whose room is used again from call to call.
fn push_shown<D: fmt::Display + Drop>(
    out: &mut Vec<u8>,
    line: &mut String,
    value: D,
) -> Result<(), AllocError>
    ensures { OnOk result (AppendsText out.old.items out.new.items (D.Display.output value)) }
{
    line.clear();
    line.write(value)?;
    out.extend_from_slice(line.as_bytes())
}

// The events that a source gives, `between` behind each, and then how they end.
fn push_events<E: EventSource>(
    out: &mut Vec<u8>,
    source: &mut E,
    scratch: &mut [u8; TEXT_BYTES],
    between: &[u8],
) -> Result<(), AllocError>
    ensures text { OnOk result (out.new.items ≡ out.old.items ++ stream_text between.now (E.EventSource.means source.old)) }
    ensures left { OnOk result (E.EventSource.means source.new ≡ over (E.EventSource.means source.old).ending) }
{
    let mut line = String::new(*out.allocator());
    loop {
        match source.next(scratch) {
            Ok(Some(event)) => {
                push_shown(out, &mut line, PrintedEvent { event, scratch })?;
                out.extend_from_slice(between)?;
            }
            Ok(None) => return push_shown(out, &mut line, "end"),
            Err(error) => return push_shown(out, &mut line, error),
        }
    }
}

// All that a source gives, as text: the events, `between` behind each, and then `end` or the refusal. Bytes and no String, since
// `between` may be any bytes: a `&str` would ask more of a caller.
pub fn events_report<E: EventSource>(
    heap: Global,
    source: &mut E,
    between: &[u8],
) -> Result<Vec<u8>, AllocError>
    ensures text { IfOk result (λ v. v.items ≡ stream_text between.now (E.EventSource.means source.old)) }
    ensures left { OnOk result (E.EventSource.means source.new ≡ over (E.EventSource.means source.old).ending) }
{
    let mut scratch = [0u8; TEXT_BYTES];
    let mut out = Vec::new(heap);
    push_events(&mut out, source, &mut scratch, between)?;
    Ok(out)
}
