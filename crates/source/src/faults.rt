// A source that ends with a fault of one's choice, for tests and scripts.
ghost use Rattle.std.specs.Prelude.{◌≡◌};
ghost use Rattle.source.specs.Endings.{faulty};
ghost use Rattle.source.specs.Faults.{faulted_bytes, faulted_ending};

use crate::sources::{ByteSource, Fault};

// The bytes of the source below, and then the fault, however the source below ends.
#[derive(Drop)]
pub struct Faulted<S> {
    below: S,
    fault: Fault,
}

impl<S: ByteSource> Faulted<S> {
    pub fn new(below: S, code: u8) -> Faulted<S>
        ensures bytes { faulted_bytes S.ByteSource.bytes result ≡ S.ByteSource.bytes below }
        ensures ending { faulted_ending result ≡ faulty code }
    {
        Faulted {
            below,
            fault: Fault { code },
        }
    }
}

impl<S: ByteSource> ByteSource for Faulted<S> {
    ghost bytes = { faulted_bytes S.ByteSource.bytes };

    ghost ending = { faulted_ending };

    fn next(&mut self) -> Result<Option<u8>, Fault> {
        match self.below.next() {
            Ok(Some(b)) => Ok(Some(b)),
            _ => Err(self.fault),
        }
    }
}
