// A cell of a text.
ghost use Rattle.std.specs.Prelude.{Option};

use cells::linked::Linked;

// Texts take no heap, so the link is an index: the cells stand in one array of a fixed size.
// The link leads to the cell with the text's next block, or in a free cell to the next free one.
#[derive(Clone, Copy)]
pub struct TextCell {
    pub next: Option<u16>,
    pub bytes: [u8; TextCell::BLOCK],
}

impl TextCell {
    // How many bytes a cell holds.
    pub const BLOCK: usize = 24;
}

impl Linked for TextCell {
    type Load = [u8; TextCell::BLOCK];

    ghost linkof = { λ c. c.next };

    ghost loadof = { λ c. c.bytes };

    fn link(&self) -> Option<u16> {
        self.next
    }

    fn set_link(&mut self, to: Option<u16>) {
        self.next = to;
    }
}
