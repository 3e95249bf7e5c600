// A source over lent bytes.
ghost use Rattle.std.specs.Prelude.{◌≡◌};
ghost use Rattle.source.specs.Endings.{at_end};
ghost use Rattle.source.specs.Slices.{slice_bytes, slice_ending};

use crate::sources::{ByteSource, Fault};

#[derive(Drop)]
pub struct SliceSource<'a> {
    rest: &'a [u8],
}

impl<'a> SliceSource<'a> {
    pub fn new(bytes: &'a [u8]) -> SliceSource<'a>
        ensures bytes { slice_bytes result ≡ bytes.now }
        ensures ending { slice_ending result ≡ at_end }
    {
        SliceSource { rest: bytes }
    }
}

impl<'a> ByteSource for SliceSource<'a> {
    ghost bytes = { slice_bytes };

    ghost ending = { slice_ending };

    fn next(&mut self) -> Result<Option<u8>, Fault> {
        let [b, rest @ ..] = self.rest else {
            return Ok(None);
        };
        self.rest = rest;
        Ok(Some(*b))
    }
}
