// A buffer over any byte source: it takes the bytes from below a block at a time.
ghost use Rattle.std.specs.Prelude.{◌≡◌, ◌≤◌, IfOk, IfErr};
ghost use Rattle.source.specs.declared.buffers.TheConstants.{BLOCK};

use crate::sources::{ByteSource, Fault};
use std::ops::Range;

// The bytes of a block.
const BLOCK: usize = 64;

// What is held is the part `span` of the block. A fixed block, since byte sources allocate nothing.
#[derive(Drop)]
pub struct Buffer<S> {
    below: S,
    block: [u8; BLOCK],
    span: Range<usize>,
    ghost within: { span.end ≤ BLOCK },
}

impl<S: ByteSource> Buffer<S> {
    ghost use Rattle.source.specs.Asking.{first, rest};
    ghost use Rattle.source.specs.Buffers.{held, buffer_bytes, buffer_ending, Filled};

    pub fn new(below: S) -> Buffer<S>
        ensures bytes { buffer_bytes S.ByteSource.bytes result ≡ S.ByteSource.bytes below }
        ensures ending { buffer_ending S.ByteSource.ending result ≡ S.ByteSource.ending below }
    {
        Buffer {
            below,
            block: [0; BLOCK],
            span: 0..0,
        }
    }

    // Takes bytes from below into a block until it is full or the ending comes, and answers how many. A fault is answered only if it comes first.
    fn fill(below: &mut S, block: &mut [u8; BLOCK]) -> Result<usize, Fault>
        ensures filled { Filled (S.ByteSource.bytes below.old) (S.ByteSource.ending below.old) result block.new (S.ByteSource.bytes below.new) (S.ByteSource.ending below.new) }
        ensures fits { IfOk result (λ n. n ≤ BLOCK) }
        ensures kept { IfErr result (λ fault. block.new ≡ block.old) }
    {
        for (n, slot) in block.iter_mut().enumerate() {
            match below.next() {
                Ok(Some(b)) => *slot = b,
                Err(fault) if n == 0 => return Err(fault),
                Ok(None) | Err(_) => return Ok(n),
            }
        }
        Ok(BLOCK)
    }

    // The first byte that is held, which is then no longer held.
    #[tactic(auto, using(crate::proofs::Blocks::part_some))]
    fn take_held(&mut self) -> Option<u8>
        ensures gives { result ≡ first (held self.old) }
        ensures leaves { held self.new ≡ rest (held self.old) }
        ensures below { self.new.below ≡ self.old.below }
    {
        Some(self.block[self.span.next()?])
    }
}

impl<S: ByteSource> ByteSource for Buffer<S> {
    ghost use Rattle.source.specs.Asking.{Asked};
    ghost use Rattle.source.specs.Buffers.{held, buffer_bytes, buffer_ending, Ahead};

    ghost bytes = { buffer_bytes S.ByteSource.bytes };

    ghost ending = { buffer_ending S.ByteSource.ending };

    fn next(&mut self) -> Result<Option<u8>, Fault>
        ensures asked { Asked (buffer_bytes S.ByteSource.bytes self.old) (buffer_ending S.ByteSource.ending self.old) result (buffer_bytes S.ByteSource.bytes self.new) (buffer_ending S.ByteSource.ending self.new) }
        ensures ahead { Ahead (held self.old) (S.ByteSource.bytes self.old.below) (held self.new) (S.ByteSource.bytes self.new.below) }
    {
        if let Some(b) = self.take_held() {
            return Ok(Some(b));
        }
        self.span = 0..Self::fill(&mut self.below, &mut self.block)?;
        Ok(self.take_held())
    }
}
