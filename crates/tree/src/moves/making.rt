// New arrays, and new nodes.
ghost use Rattle.std.specs.Prelude.{◌≡◌, ◌≤◌, length};
ghost use Rattle.tree.specs.Models.{Represents, Sound, EachTrees};
ghost use Rattle.tree.specs.Moves.{Added};
ghost use Rattle.tree.specs.Trees.{nil};

use crate::arrays::Arrays;
use crate::nodes::{Content, FREE, Node};
use cells::frees::FreeList;
use stream::errors::Error;
use texts::cell::TextCell;
use texts::moves::write_text;

impl Arrays {
    // All nodes and all text cells are free.
    pub fn new() -> Arrays
        ensures { Represents result nil }
    {
        let mut nodes = [FREE; Arrays::NODES];
        let free_nodes = FreeList::of_all(&mut nodes);
        let mut texts = [TextCell {
            next: None,
            bytes: [0; TextCell::BLOCK],
        }; Arrays::TEXTS];
        let free_texts = FreeList::of_all(&mut texts);
        Arrays {
            nodes,
            free_nodes,
            texts,
            free_texts,
        }
    }

    // Takes a node, and text cells for its text, as a tree of its own; or finds too few free and changes nothing.
    #[tactic(auto, using(crate::proofs::Adding::sound_facts))]
    pub fn add(&mut self, content: Content, up: Option<u16>, text: &[u8]) -> Result<u16, Error>
        requires short { length text.now ≤ 1024 }
        requires sound { Sound self.old }
        ensures added { EachTrees self.old (λ ts. Added self.old content up text.now ts self.new result) }
    {
        if self.free_nodes.count == 0 {
            return Err(Error::NoNodes);
        }
        let wrote = write_text(&mut self.texts, &mut self.free_texts, text);
        let first = wrote.map_err(|_| Error::NoTextCells)?;
        let n = self.free_nodes.take(&self.nodes).unwrap();
        self.nodes[n as usize] = Node {
            up,
            text: first,
            length: text.len() as u16,
            content,
            ..FREE
        };
        Ok(n)
    }
}
