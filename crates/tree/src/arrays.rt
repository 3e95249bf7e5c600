// The cells of a store: its nodes, its text cells, and what is free of each.
use crate::nodes::Node;
use cells::frees::FreeList;
use texts::cell::TextCell;

// No model: the fields do not say in which order the trees that stand alone are listed, so the trees are no function of them.
// No ghost field for `Sound`: of all calls `add` alone asks no more, and `free_first` begins where a row is under way beside the trees.
#[derive(Drop)]
pub struct Arrays {
    pub nodes: [Node; Arrays::NODES],
    pub free_nodes: FreeList,
    pub texts: [TextCell; Arrays::TEXTS],
    pub free_texts: FreeList,
}

impl Arrays {
    // How many nodes and how many text cells there are.
    pub const NODES: usize = 512;

    pub const TEXTS: usize = 1024;
}
