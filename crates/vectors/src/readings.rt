// Stored answers of readers: an input in hexadecimal (`-` for no bytes), `!CODE` behind it where its source ends with that fault, and the answer.
use anyhow::anyhow;
use report::hex::parse_bytes;
use report::readings::reading_report;
use source::faults::Faulted;
use source::slices::SliceSource;
use source::sources::ByteSource;
use std::alloc::{AllocError, Global};

// The events of a list on one line.
pub fn answer<S: ByteSource + Drop>(heap: Global, source: S) -> Result<Vec<u8>, AllocError> {
    reading_report(heap, source, 1, b"; ")
}

// The answer of the reader to an input.
fn reading(heap: Global, input: &str) -> anyhow::Result<Vec<u8>> {
    let (word, code) = match input.split_once('!') {
        Some((word, code)) => (word, Some(code.parse::<u8>()?)),
        None => (input, None),
    };
    let bytes = parse_bytes(heap, word.as_bytes())?;
    let bytes = bytes.ok_or(anyhow!("an input that is not hexadecimal"))?;
    let list = SliceSource::new(bytes.as_slice());
    // Two arms, since the two sources are of two types.
    match code {
        Some(code) => Ok(answer(heap, Faulted::new(list, code))?),
        None => Ok(answer(heap, list)?),
    }
}

// An input, and the answer to be given; what stands behind ` | ` is another reader's answer.
pub fn same_reading(heap: Global, input: &str, answers: &str) -> anyhow::Result<bool> {
    let ours = answers.split_once(" | ").map_or(answers, |(ours, _)| ours);
    Ok(reading(heap, input)?.as_slice() == ours.as_bytes())
}
