// Taking all that a source has left.
ghost use Rattle.std.specs.Prelude.{◌≡◌, [], ◌++◌};
ghost use Rattle.source.specs.Drains.{Drained, drain_error_text};
ghost use Rattle.source.specs.declared.drains.DrainError.TheVariants.{Fault as FaultError, Memory};

use crate::sources::{ByteSource, Fault};
use std::alloc::AllocError;
use std::error::Error;
use std::fmt;

// Why a drain did not come to the end.
#[derive(Clone, Copy, PartialEq, Eq, Debug)]
pub enum DrainError {
    Fault(Fault),
    Memory(AllocError),
}

impl fmt::Display for DrainError {
    ghost output = { drain_error_text };

    fn fmt<W: fmt::Write>(&self, f: &mut fmt::Formatter<W>) -> fmt::Result {
        match self {
            Self::Fault(fault) => write!(f, "{fault}"),
            Self::Memory(error) => write!(f, "{error}"),
        }
    }
}

impl Error for DrainError {}

impl From<Fault> for DrainError {
    ghost from_gives = { λ fault e. e ≡ FaultError fault };

    fn from(fault: Fault) -> DrainError {
        DrainError::Fault(fault)
    }
}

impl From<AllocError> for DrainError {
    ghost from_gives = { λ error e. e ≡ Memory error };

    fn from(error: AllocError) -> DrainError {
        DrainError::Memory(error)
    }
}

// Takes every byte that the source has left to the end of `bytes`. A source that ends with a fault is drained too, and the fault is answered.
// Where memory runs out, the bytes not yet taken are still the source's.
pub fn drain<S: ByteSource>(source: &mut S, bytes: &mut Vec<u8>) -> Result<(), DrainError>
    ensures { Drained bytes.old.items (S.ByteSource.bytes source.old) (S.ByteSource.ending source.old) result bytes.new.items (S.ByteSource.bytes source.new) (S.ByteSource.ending source.new) }
{
    loop {
        bytes.reserve(1)?;
        match source.next()? {
            Some(b) => bytes.push_reserved(b),
            None => return Ok(()),
        }
    }
}
