// Pairs found by their keys, and what is free.
ghost use Rattle.std.specs.Prelude.{◌≡◌, ◌+◌};
ghost use Rattle.tree.specs.Costs.{node_cost, text_cost};
ghost use Rattle.tree.specs.Keys.{under};
ghost use Rattle.tree.specs.Models.{SomeTrees, EachTrees};
ghost use Rattle.tree.specs.Trees.{Lies, below};

use crate::arrays::Arrays;
use texts::moves::same_text;

impl Arrays {
    // The pair of a dictionary with the given key, compared byte by byte, if there is one.
    #[tactic(auto, using(crate::proofs::Appending::placed_facts))]
    pub fn find_pair(&self, dictionary: u16, key: &[u8]) -> Option<u16>
        requires placed { SomeTrees self.now (Lies dictionary) }
        ensures found { EachTrees self.now (λ ts. Lies dictionary ts → result ≡ under key.now (below dictionary ts)) }
    {
        let mut todo = self.nodes[dictionary as usize].first;
        'pairs: while let Some(pair) = todo {
            let node = self.nodes[pair as usize];
            if same_text(&self.texts, node.text, node.length as usize, key) {
                return Some(pair);
            }
            todo = node.next;
        }
        None
    }

    // How many nodes and how many text cells are free: all but what the trees cost.
    pub fn free(&self) -> (u16, u16)
        ensures nodes { EachTrees self.now (λ ts. result.0 + node_cost ts ≡ 512) }
        ensures texts { EachTrees self.now (λ ts. result.1 + text_cost ts ≡ 1024) }
    {
        (self.free_nodes.count, self.free_texts.count)
    }
}
