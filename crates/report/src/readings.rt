// What is printed of a property list: the reading of its bytes.
ghost use Rattle.std.specs.Prelude.{◌≡◌, IfOk};
ghost use Rattle.reader.specs.Readings.{reading};
ghost use Rattle.report.specs.Events.{stream_text};
ghost use Rattle.report.specs.Inputs.{given_bytes, given_ending};

use crate::events::events_report;
use crate::inputs::{Buffered, FileSource, ListFile};
use reader::ascii_reader::AsciiReader;
use source::sources::ByteSource;
use std::alloc::{AllocError, Global};

// The reading of a source's bytes, `between` behind each event: through any number of buffers the same.
pub fn reading_report<S: ByteSource + Drop>(
    heap: Global,
    source: S,
    buffers: u8,
    between: &[u8],
) -> Result<Vec<u8>, AllocError>
    ensures { IfOk result (λ v. v.items ≡ stream_text between.now (reading 0 (S.ByteSource.bytes source) (S.ByteSource.ending source))) }
{
    let mut reader = AsciiReader::new(Buffered::new(source, buffers));
    events_report(heap, &mut reader, between)
}

impl ListFile<'_> {
    // The events of the list, `between` behind each, and then `end` or the refusal.
    pub fn events(&self, heap: Global, between: &[u8]) -> Result<Vec<u8>, AllocError>
        ensures { IfOk result (λ v. v.items ≡ stream_text between.now (reading 0 (given_bytes self.now.deck self.now.list.now) (given_ending self.now.deck self.now.list.now))) }
    {
        let source = FileSource::new(self.list, self.deck);
        reading_report(heap, source, self.buffers, between)
    }
}
