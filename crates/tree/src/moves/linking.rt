// Trees put below a node, and taken off again.
ghost use Rattle.std.specs.Prelude.{◌≡◌, ℕ, ◌<◌, length, Some};
ghost use Rattle.tree.specs.Links.{linked, linked_below, unlinked_below};
ghost use Rattle.tree.specs.Models.{Represents, SomeTrees, EachTrees};
ghost use Rattle.tree.specs.Moves.{Separate, appended, Detached};
ghost use Rattle.tree.specs.Trees.{Lies, at as node_at_lem};

use crate::arrays::Arrays;
use crate::nodes::Node;

// Makes the last node of a row, if there is one, lead to another.
// That an index lies within the nodes is asked in each contract here: links are plain numbers, by a rule of the project (`Node`).
pub(crate) fn link_last(nodes: &mut [Node], last: Option<u16>, to: Option<u16>)
    requires { (k : ℕ) → last ≡ Some k → k < length nodes.old }
    ensures { nodes.new ≡ linked nodes.old last to }
{
    if let Some(k) = last {
        nodes[k as usize].next = to;
    }
}

// Puts the node `new` last below `to`.
#[tactic(auto, using(std::proofs::lemmas::List::get_or_read))]
fn link_below(nodes: &mut [Node], to: u16, new: u16)
    requires to_within { to < length nodes.old }
    requires new_within { new < length nodes.old }
    requires last_within { (k : ℕ) → (node_at_lem nodes.old to).last ≡ Some k → k < length nodes.old }
    requires room { (node_at_lem nodes.old to).count < 65535 }
    ensures { nodes.new ≡ linked_below nodes.old to new }
{
    let above = nodes[to as usize];
    link_last(nodes, above.last, Some(new));
    nodes[to as usize] = Node {
        first: above.first.or(Some(new)),
        last: Some(new),
        count: above.count + 1,
        ..above
    };
    nodes[new as usize].up = Some(to);
}

// Takes the one node below `top` off it.
fn unlink_below(nodes: &mut [Node], top: u16, n: u16)
    requires top_within { top < length nodes.old }
    requires within { n < length nodes.old }
    ensures { nodes.new ≡ unlinked_below nodes.old top n }
{
    let above = &mut nodes[top as usize];
    above.first = None;
    above.last = None;
    above.count = 0;
    nodes[n as usize].up = None;
}

impl Arrays {
    // Makes the tree `new` the last one below the node `to`: an item of an array, a pair of a dictionary, or the value of a pair.
    #[tactic(auto, using(crate::proofs::Appending::append_facts))]
    pub fn append(&mut self, to: u16, new: u16)
        requires placed { SomeTrees self.old (Separate to new) }
        ensures appended { EachTrees self.old (λ ts. Separate to new ts → Represents self.new (appended to new ts)) }
    {
        link_below(&mut self.nodes, to, new);
    }

    // Takes the value off a pair: it is a tree of its own then.
    #[tactic(auto, using(crate::proofs::Appending::placed_facts))]
    pub fn detach(&mut self, pair: u16) -> Option<u16>
        requires placed { SomeTrees self.old (Lies pair) }
        ensures detached { EachTrees self.old (λ ts. Lies pair ts → Detached self.old pair ts self.new result) }
    {
        let value = self.nodes[pair as usize].first?;
        unlink_below(&mut self.nodes, pair, value);
        Some(value)
    }
}
