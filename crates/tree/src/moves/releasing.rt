// Trees given back, with all their text cells.
ghost use Rattle.std.specs.Prelude.{◌≡◌, true, List, ℕ, ◌∷◌, Some};
ghost use Rattle.tree.specs.Models.{Holding, Represents, SomeWork, SomeTrees, EachTrees};
ghost use Rattle.tree.specs.Trees.{Trees, opened, rooted, without};

use super::linking::link_last;
use crate::arrays::Arrays;
use crate::nodes::FREE;

impl Arrays {
    // Frees the first node of a row, with its text; the nodes below it come first in the row then.
    #[tactic(auto, using(crate::proofs::Releasing::first_facts))]
    fn free_first(&mut self, at: u16) -> Option<u16>
        requires held { SomeWork self.old (Some at) }
        ensures freed { (w ts : Trees) (fs gs : List ℕ) → Holding self.old (Some at) w ts fs gs → ((hs : List ℕ) × Holding self.new result (opened w) ts (at ∷ fs) hs) }
    {
        let node = self.nodes[at as usize];
        self.free_texts.give_chain(&mut self.texts, node.text);
        link_last(&mut self.nodes, node.last, node.next);
        self.nodes[at as usize] = FREE;
        self.free_nodes.give(&mut self.nodes, at);
        node.first.or(node.next)
    }

    // Frees a tree. What is still to be freed stands in a row, by its nodes' own links.
    pub fn release(&mut self, n: u16)
        requires held { SomeTrees self.old (λ ts. rooted n ts ≡ true) }
        ensures released { EachTrees self.old (λ ts. rooted n ts ≡ true → Represents self.new (without n ts)) }
    {
        let mut todo = Some(n);
        while let Some(at) = todo {
            todo = self.free_first(at);
        }
    }
}
