// The scratch that is lent for texts: a text at its front, and zeros behind it up to byte 1,024.
ghost use Rattle.std.specs.Prelude.{◌≡◌, ◌≤◌, ◌++◌, length, take};
ghost use Rattle.stream.specs.Scratch.{behind, zeroed};

// How many bytes a text has at most, and so how many a scratch needs.
pub const TEXT_BYTES: usize = 1024;

// Makes the bytes from the given one on zeros, up to byte 1,024 or the end of the scratch.
pub fn clear(scratch: &mut [u8], from: usize)
    ensures all { scratch.new ≡ zeroed from scratch.old }
    ensures room { 1024 ≤ length scratch.old → from ≤ 1024 → scratch.new ≡ take from scratch.old ++ behind from scratch.old }
{
    let end = scratch.len().min(TEXT_BYTES);
    if from < end {
        scratch[from..end].fill(0);
    }
}

// Puts a text at the front, and zeros behind it. Over a slice: with an array of 1,024 bytes the proof of `EventList`'s `next` did not close.
pub(crate) fn put_text(scratch: &mut [u8], text: &[u8])
    requires room { 1024 ≤ length scratch.old }
    requires fits { length text.now ≤ 1024 }
    ensures { scratch.new ≡ text.now ++ behind (length text.now) scratch.old }
{
    scratch[0..text.len()].copy_from_slice(text);
    clear(scratch, text.len());
}
