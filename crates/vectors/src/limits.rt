// The reader at its limits: the last position, a fault behind every byte of a list, a second call behind a refusal, and a short scratch.
use crate::readings::answer;
use crate::rows::Tally;
use reader::ascii_reader::AsciiReader;
use source::faults::Faulted;
use source::repeats::Repeated;
use source::slices::SliceSource;
use source::sources::ByteSource;
use std::alloc::Global;
use stream::errors::Error;
use stream::sources::EventSource;

const LIST: &[u8] = b"{ a = (-1, 'x\\256'); /* c */ b = 0x1F; } //";

// A source of blanks, and what its reading comes to.
fn position<S: ByteSource + Drop>(
    tally: &mut Tally,
    blanks: S,
    wanted: &str,
) -> anyhow::Result<()> {
    let text = answer(tally.heap(), blanks)?;
    tally.row(wanted, text.as_slice() == wanted.as_bytes())
}

fn positions(tally: &mut Tally) -> anyhow::Result<()> {
    let blanks = |count| Repeated::new(b' ', count);
    let broken = |count| Faulted::new(blanks(count), 9);
    position(tally, blanks(16_777_215), "end")?;
    position(tally, blanks(16_777_216), "refused 8 TooLong at 16777215")?;
    position(tally, broken(16_777_215), "refused 7 Io code=9 at 16777214")?;
    position(tally, broken(16_777_216), "refused 7 Io code=9 at 16777215")?;
    position(tally, broken(16_777_217), "refused 8 TooLong at 16777215")
}

// A fault behind a front of the list: its last byte is not taken.
fn fault_behind(heap: Global, front: &[u8], wanted: &str) -> anyhow::Result<bool> {
    let text = answer(heap, Faulted::new(SliceSource::new(front), 9))?;
    Ok(text.as_slice().ends_with(wanted.as_bytes()))
}

fn faults(tally: &mut Tally) -> anyhow::Result<()> {
    for taken in 0..LIST.len() {
        let wanted = format!(in tally.heap(); "refused 7 Io code=9 at {taken}")?;
        let front = &LIST[..taken + 1];
        let same = fault_behind(tally.heap(), front, wanted.as_str())?;
        tally.row(wanted.as_str(), same)?;
    }
    Ok(())
}

// Whether a source that is lent a scratch of sevens answers the wanted refusal, and leaves so many zeros and sevens behind them.
fn refuses<E: EventSource>(
    source: &mut E,
    scratch: &mut [u8],
    wanted: Error,
    zeros: usize,
) -> bool {
    let refused = source.next(scratch) == Err(wanted);
    let left = |i| if i < zeros { 0 } else { 7 };
    refused && scratch.iter().enumerate().all(|(i, b)| *b == left(i))
}

fn refusals(tally: &mut Tally) -> anyhow::Result<()> {
    let mut reader = AsciiReader::new(SliceSource::new(b"/*"));
    let open = Error::IncompleteComment { position: 2 };
    for _ in 0..3 {
        // A short scratch is refused and touched nowhere, whatever the source would answer.
        let short = refuses(&mut reader, &mut [7; 1023], Error::ShortScratch, 0);
        tally.row("a short scratch", short)?;
        let again = refuses(&mut reader, &mut [7; 1025], open, 1024);
        tally.row("a refusal again", again)?;
    }
    Ok(())
}

pub fn limits(rt: &HostRuntime) -> anyhow::Result<()> {
    let mut tally = Tally::new(rt, "limits");
    positions(&mut tally)?;
    faults(&mut tally)?;
    refusals(&mut tally)?;
    tally.total()
}
