// A node of a tree.
ghost use Rattle.std.specs.Prelude.{None, Option};

use cells::linked::Linked;
use stream::uid::Uid;
use text::integer::Integer;

// What a node is. A pair is a key and a value of a dictionary; the bytes of a Data, of a String and of a pair's key stand in text cells.
#[derive(Clone, Copy)]
pub enum Content {
    Free,
    Array,
    Dictionary,
    Pair,
    Boolean(bool),
    Data,
    Integer(Integer),
    Real(f64),
    String,
    Uid(Uid),
}

// Links are indices: the project's trees take no heap, and stand in one array of a fixed size.
// `next` is the next node below the same one, or in a free node the next free one; `up` is the node above.
// `first`, `last` and `count` are of the nodes below it: items of an array, pairs of a dictionary, the value of a pair.
// `text` is the first cell of its text, and `length` how many bytes that has.
#[derive(Clone, Copy)]
pub struct Node {
    pub next: Option<u16>,
    pub up: Option<u16>,
    pub first: Option<u16>,
    pub last: Option<u16>,
    pub count: u16,
    pub text: Option<u16>,
    pub length: u16,
    pub content: Content,
}

// The load is the whole node, but for its link.
impl Linked for Node {
    type Load = Node;

    ghost linkof = { λ x. x.next };

    ghost loadof = { λ x. record x { next = None } };

    fn link(&self) -> Option<u16> {
        self.next
    }

    fn set_link(&mut self, to: Option<u16>) {
        self.next = to;
    }
}

// A node that is part of no tree.
pub const FREE: Node = Node {
    next: None,
    up: None,
    first: None,
    last: None,
    count: 0,
    text: None,
    length: 0,
    content: Content::Free,
};
