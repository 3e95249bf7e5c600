// Texts written into lent cells, read out of them and compared.
ghost use Rattle.std.specs.Prelude.{◌≡◌, ℕ, ◌≤◌, List, ◌++◌, length, drop, Decides};
ghost use Rattle.cells.specs.Frees.{Free};
ghost use Rattle.texts.specs.Texts.{links, Holds, Answered, TextIs};

use crate::cell::TextCell;
use crate::errors::TooFewCells;
use crate::parts::Parts;
use cells::frees::FreeList;

// Writes a text into free cells, or finds too few free and changes nothing. From the last block to the first, so that each cell links to the one before.
// The cells and their free list are two parameters, as at `FreeList`.
pub fn write_text(
    cells: &mut [TextCell],
    list: &mut FreeList,
    text: &[u8],
) -> Result<Option<u16>, TooFewCells>
    requires spare { ∥ ((free : List ℕ) × Free (links cells.old) list.old free) ∥₁ }
    ensures wrote { Answered cells.old list.old text.now cells.new list.new result }
{
    if text.len().div_ceil(TextCell::BLOCK) > list.count as usize {
        return Err(TooFewCells);
    }
    let mut first = None;
    'parts: for part in text.chunks(TextCell::BLOCK).rev() {
        let Some(at) = list.take(cells) else {
            unreachable!();
        };
        let mut bytes = [0; TextCell::BLOCK];
        bytes[..part.len()].copy_from_slice(part);
        cells[at as usize] = TextCell { next: first, bytes };
        first = Some(at);
    }
    Ok(first)
}

// Reads a text of n bytes into the front of the slice.
// The cells, the first one and the length are three parameters, here and below: the cells are the store's, the other two a node's, and a
// struct of those two would be taken apart here at once.
pub fn read_text(cells: &[TextCell], first: Option<u16>, n: usize, out: &mut [u8])
    requires fits { n ≤ length out.old }
    requires held { ∥ ((is bs : List ℕ) × Holds cells.now first is bs × (length bs ≡ n)) ∥₁ }
    ensures text { (is bs : List ℕ) → Holds cells.now first is bs → length bs ≡ n → out.new ≡ bs ++ drop n out.old }
{
    // Over `chunks_mut`, or with `split_at_mut` in the loop, `returns` stays open: a proof then knows no byte of `out`.
    for (i, part) in Parts::new(cells, first, n).enumerate() {
        let start = i * TextCell::BLOCK;
        out[start..start + part.len()].copy_from_slice(part);
    }
}

// Whether a text of n bytes is the key, byte by byte up to the first that differs.
pub fn same_text(cells: &[TextCell], first: Option<u16>, n: usize, key: &[u8]) -> bool
    requires held { ∥ ((is bs : List ℕ) × Holds cells.now first is bs × (length bs ≡ n)) ∥₁ }
    ensures same { (is bs : List ℕ) → Holds cells.now first is bs → length bs ≡ n → Decides result (bs ≡ key.now) }
{
    if n != key.len() {
        return false;
    }
    let parts = Parts::new(cells, first, n);
    'parts: for (part, wanted) in parts.zip(key.chunks(TextCell::BLOCK)) {
        // By an index: `zip` tests for each byte whether either part is at its end, and takes a third longer.
        'bytes: for j in 0..part.len() {
            if part[j] != wanted[j] {
                return false;
            }
        }
    }
    true
}

// The bytes of a text are the first ones of its cells' blocks, one block after another.
pub fn texts_stand()
    ensures { TextIs }
{}
