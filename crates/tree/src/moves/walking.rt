// Walks over trees, step by step.
ghost use Rattle.std.specs.Prelude.{◌≡◌, None};
ghost use Rattle.tree.specs.Forms.{SpelledFit};
ghost use Rattle.tree.specs.Models.{EachTrees};
ghost use Rattle.tree.specs.Trees.{Lies, at as node_at_lem};
ghost use Rattle.tree.specs.Ups.{Under};
ghost use Rattle.tree.specs.Walks.{along, onward, run, spelled, subtree};

use crate::arrays::Arrays;
use crate::cursor::Cursor;
use crate::nodes::{FREE, Node};

// The node at an index, or a free one past the end.
pub fn node_at(nodes: &[Node], i: u16) -> Node
    ensures { result ≡ node_at_lem nodes.now i }
{
    nodes.get(i as usize).copied().unwrap_or(FREE)
}

impl Node {
    // Where a walk goes after the node: to the next one, or else out of the one above.
    fn after(&self) -> Cursor
        ensures { result ≡ along self.now.next self.now.up }
    {
        match (self.next, self.up) {
            (Some(next), _) => Cursor::Enter(next),
            (None, Some(up)) => Cursor::Leave(up),
            (None, None) => Cursor::Over,
        }
    }
}

// The next step of the walk of the value `top`, which is over when that is left.
pub fn step(nodes: &[Node], top: u16, cursor: Cursor) -> Cursor
    ensures { result ≡ onward nodes.now top cursor }
{
    match cursor {
        Cursor::Over => Cursor::Over,
        Cursor::Enter(i) => node_at(nodes, i)
            .first
            .map_or(Cursor::Leave(i), Cursor::Enter),
        Cursor::Leave(i) if i == top => Cursor::Over,
        Cursor::Leave(i) => node_at(nodes, i).after(),
    }
}

// What well-formed trees spell fits every event source: texts of at most 1,024 bytes, Strings in UTF-8.
#[tactic(auto, using(crate::proofs::Fits::spelled_fit))]
pub fn spellings_fit()
    ensures { SpelledFit }
{}

impl Arrays {
    // Where the walk of a node begins: from there it says how the node's tree is spelled, in at most two steps a node.
    pub fn walk_from(&self, n: u16) -> Cursor
        ensures starts { result ≡ Cursor.Enter n }
        ensures says { EachTrees self.now (λ ts. Under None ts → Lies n ts → run 1024 self.now.nodes self.now.texts n result ≡ spelled (subtree n ts)) }
    {
        Cursor::Enter(n)
    }
}
