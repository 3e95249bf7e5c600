// A text in cells, read block by block.
ghost use Rattle.std.specs.Prelude.{◌≡◌, List, ℕ};
ghost use Rattle.std.specs.Iterator.{at_most};
ghost use Rattle.texts.specs.Texts.{Spans};
ghost use Rattle.texts.specs.Parts.{parts_steps};

use crate::cell::TextCell;

// What is left of a text: the cell where that begins, and how many bytes it has.
#[derive(Drop)]
pub(crate) struct Parts<'a> {
    cells: &'a [TextCell],
    todo: Option<u16>,
    left: usize,
}

impl<'a> Parts<'a> {
    // The whole of a text of n bytes.
    pub(crate) fn new(cells: &'a [TextCell], first: Option<u16>, n: usize) -> Parts<'a>
        ensures cells { result.cells.now ≡ cells.now }
        ensures todo { result.todo ≡ first }
        ensures left { result.left ≡ n }
    {
        Parts {
            cells,
            todo: first,
            left: n,
        }
    }
}

// It gives the block of each cell in turn, the last one cut where the text ends.
impl<'a> Iterator for Parts<'a> {
    type Item = &'a [u8];

    ghost can_next = { λ s. ∥ ((is : List ℕ) × Spans s.cells.now s.todo is s.left) ∥₁ };

    ghost next_gives = { parts_steps };

    ghost remaining = { λ s. at_most s.left };

    fn next(&mut self) -> Option<&'a [u8]> {
        let cell = &self.cells[self.todo? as usize];
        let (part, _) = cell.bytes.split_at(self.left.min(TextCell::BLOCK));
        self.todo = cell.next;
        self.left -= part.len();
        Some(part)
    }
}
