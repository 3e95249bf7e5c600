// A source that gives one byte many times and holds it once, for tests and scripts.
ghost use Rattle.std.specs.Prelude.{◌≡◌};
ghost use Rattle.source.specs.Endings.{at_end};
ghost use Rattle.source.specs.Repeats.{copies, repeated_bytes, repeated_ending};

use crate::sources::{ByteSource, Fault};

#[derive(Drop)]
pub struct Repeated {
    byte: u8,
    left: u64,
}

impl Repeated {
    pub fn new(byte: u8, count: u64) -> Repeated
        ensures bytes { repeated_bytes result ≡ copies count byte }
        ensures ending { repeated_ending result ≡ at_end }
    {
        Repeated { byte, left: count }
    }
}

impl ByteSource for Repeated {
    ghost bytes = { repeated_bytes };

    ghost ending = { repeated_ending };

    #[tactic(auto, unfolding(crate::specs::Repeats::copies))]
    fn next(&mut self) -> Result<Option<u8>, Fault> {
        if self.left == 0 {
            return Ok(None);
        }
        self.left -= 1;
        Ok(Some(self.byte))
    }
}
