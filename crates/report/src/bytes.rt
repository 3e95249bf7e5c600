// What is printed of a byte source.
ghost use Rattle.std.specs.Prelude.{◌≡◌, IfOk};
ghost use Rattle.report.specs.Bytes.{bytes_report_lem};
ghost use Rattle.report.specs.Inputs.{given_bytes, given_ending};

use crate::hex::Hex;
use crate::inputs::{Buffered, FileSource, ListFile};
use source::drains::{DrainError, drain};
use source::sources::{ByteSource, PrintedEnding};
use std::alloc::{AllocError, Global};

// The bytes that a source gives, in hexadecimal, and how it ends, a line each: through any number of buffers the same.
// As bytes, since `attrs` writes bytes and the two methods of `ListFile` answer alike: a String would be no plainer.
fn bytes_report<S: ByteSource + Drop>(
    heap: Global,
    source: S,
    buffers: u8,
) -> Result<Vec<u8>, AllocError>
    ensures { IfOk result (λ v. v.items ≡ bytes_report_lem (S.ByteSource.bytes source) (S.ByteSource.ending source)) }
{
    let mut bytes = Vec::new(heap);
    let drained = drain(&mut Buffered::new(source, buffers), &mut bytes);
    let hex = Hex(bytes.as_slice());
    let ending = PrintedEnding(match drained {
        Ok(()) => Ok(()),
        Err(DrainError::Fault(fault)) => Err(fault),
        Err(DrainError::Memory(error)) => return Err(error),
    });
    let text = format!(in heap; "{hex}\n{ending}\n")?;
    Ok(text.into_bytes())
}

impl ListFile<'_> {
    // What `attrs bytes` prints of a list.
    pub fn bytes(&self, heap: Global) -> Result<Vec<u8>, AllocError>
        ensures { IfOk result (λ v. v.items ≡ bytes_report_lem (given_bytes self.now.deck self.now.list.now) (given_ending self.now.deck self.now.list.now)) }
    {
        bytes_report(heap, FileSource::new(self.list, self.deck), self.buffers)
    }
}

#[cfg(test)]
mod tests {
    use super::*;
    use std::test::Fail;

    #[test]
    fn bytes_and_the_ending(rt: HostRuntime) -> Result<(), Fail> {
        for (deck, printed) in [(false, "6162\nend\n"), (true, "\nfault 1\n")] {
            let file = ListFile {
                list: b"ab",
                deck,
                buffers: 2,
            };
            let text = file.bytes(rt.alloc())?;
            assert_eq!(rt; text.as_slice(), printed.as_bytes());
        }
        Ok(())
    }
}
