// The tree that a node lies in.
ghost use Rattle.std.specs.Prelude.{◌≡◌, true, None};
ghost use Rattle.tree.specs.Models.{SomeTrees, EachTrees};
ghost use Rattle.tree.specs.Trees.{Lies, rooted, tree};
ghost use Rattle.tree.specs.Ups.{Under};

use crate::arrays::Arrays;

impl Arrays {
    // The root of the tree that the node n lies in.
    pub fn tree_of(&self, n: u16) -> u16
        requires placed { SomeTrees self.now (λ ts. Under None ts × Lies n ts) }
        ensures root { EachTrees self.now (λ ts. Under None ts → Lies n ts → rooted result ts ≡ true) }
        ensures lies { EachTrees self.now (λ ts. Under None ts → Lies n ts → Lies n (tree result ts)) }
    {
        let mut at = n;
        while let Some(up) = self.nodes[at as usize].up {
            at = up;
        }
        at
    }
}
