// Many short lists in one file, a line each in hexadecimal, and each answered by a line.
ghost use Rattle.std.specs.Prelude.{◌≡◌, ℕ, Some, Ok, Err, IfOk, IsErrOf, vec_items};
ghost use Rattle.std.specs.Option.{option_map};
ghost use Rattle.report.specs.Hex.{from_word};
ghost use Rattle.report.specs.declared.batches.BatchError.TheVariants.{Line, Memory};
ghost use Rattle.report.specs.Batches.{answer, batch, error_text, lines};

use crate::hex::parse_bytes;
use crate::inputs::ListFile;
use std::alloc::{AllocError, Global};
use std::error::Error;
use std::fmt;

// Why a file of lists is not answered.
#[derive(Clone, Copy, PartialEq, Eq, Debug)]
pub enum BatchError {
    // A line writes no list; the first line is number 1.
    Line(usize),
    Memory(AllocError),
}

impl fmt::Display for BatchError {
    ghost output = { λ e. Some (error_text e) };

    fn fmt<W: fmt::Write>(&self, f: &mut fmt::Formatter<W>) -> fmt::Result {
        match self {
            BatchError::Line(number) => write!(
                f,
                "line {number}: expected a list in hexadecimal, two digits a byte, or - for no bytes"
            ),
            BatchError::Memory(_) => write!(f, "out of memory"),
        }
    }
}

impl Error for BatchError {}

impl From<AllocError> for BatchError {
    ghost from_gives = { λ e b. b ≡ Memory e };

    fn from(error: AllocError) -> BatchError {
        BatchError::Memory(error)
    }
}

// The line with the events of the list that a line writes, or none if it writes none. (None inside Ok, as at `parse_hex`: only
// `batch_of` knows the line's number.)
fn answer_line(heap: Global, line: &[u8]) -> Result<Option<Vec<u8>>, AllocError>
    ensures { IfOk result (λ text. option_map vec_items text ≡ option_map answer (from_word line.now)) }
{
    let Some(list) = parse_bytes(heap, line)? else {
        return Ok(None);
    };
    let list = ListFile {
        list: list.as_slice(),
        deck: false,
        buffers: 1,
    };
    let mut text = list.events(heap, b"; ")?;
    text.push(b'\n')?;
    Ok(Some(text))
}

// The answers to all lines of a file, or the number of the first line that writes no list.
pub fn batch_of(heap: Global, file: &[u8]) -> Result<Vec<u8>, BatchError>
    ensures answers { IfOk result (λ answers. batch 1 (lines file.now) ≡ Ok answers.items) }
    ensures line { (n : ℕ) → IsErrOf result (Line n) → batch 1 (lines file.now) ≡ Err n }
{
    let mut out = Vec::new(heap);
    for (i, line) in file.split_inclusive(|b| *b == b'\n').enumerate() {
        let line = line.strip_suffix(b"\n").unwrap_or(line);
        let Some(text) = answer_line(heap, line)? else {
            return Err(BatchError::Line(i + 1));
        };
        out.extend_from_slice(text.as_slice())?;
    }
    Ok(out)
}

#[cfg(test)]
mod tests {
    use super::*;

    #[test]
    fn a_line_for_each_line(rt: HostRuntime) {
        let wanted = "end\nInteger 1; end\n";
        match batch_of(rt.alloc(), b"-\n31") {
            Ok(text) => assert_eq!(rt; text.as_slice(), wanted.as_bytes()),
            Err(error) => assert!(rt; false, "{}", error),
        }
        let refused = batch_of(rt.alloc(), b"31\n3\n");
        assert!(rt; matches!(refused, Err(BatchError::Line(2))));
    }
}
