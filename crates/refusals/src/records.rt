// The records that the tables begin with.
use std::alloc::{AllocError, Global};
use table::{NONE, Node};

// A record to be laid: a node, its production, literal, parent and children. Two cases and no flag: `Used` and `Free` read better below than a bool among the numbers.
#[derive(Clone, Copy)]
pub enum Laid {
    Used(usize, u8, i32, u16, [u16; 3]),
    Free(usize, u8, i32, u16, [u16; 3]),
}

// the child fields of a production without children
pub const LEAF: [u16; 3] = [NONE, NONE, NONE];

// Formulas: the tree (7+_) of nodes 0, 15, 14 and the hole 10, and the clipping (3-_) of nodes 13, 12 and the hole 11.
pub const FORMULAS: [Laid; 7] = [
    Laid::Used(0, 0, 0, NONE, [15, NONE, NONE]),
    Laid::Used(15, 4, 0, 0, [14, 10, NONE]),
    Laid::Used(14, 2, 7, 15, LEAF),
    Laid::Used(10, 1, 0, 15, LEAF),
    Laid::Used(13, 5, 0, NONE, [12, 11, NONE]),
    Laid::Used(12, 2, 3, 13, LEAF),
    Laid::Used(11, 1, 0, 13, LEAF),
];

// Plans: the tree `let 5=_;~` of nodes 0, 15, 14, the hole 11 of a Term and the hole 13 of a Step, and the clipping 9, a Term, of node 12.
pub const PLANS: [Laid; 6] = [
    Laid::Used(0, 0, 0, NONE, [15, NONE, NONE]),
    Laid::Used(15, 3, 0, 0, [14, 13, NONE]),
    Laid::Used(14, 4, 5, 15, [11, NONE, NONE]),
    Laid::Used(13, 1, 0, 15, LEAF),
    Laid::Used(11, 2, 0, 14, LEAF),
    Laid::Used(12, 6, 9, NONE, LEAF),
];

// Formulas: the tree (_+_) of nodes 0, 3, 2 and 1, of which the last two are holes.
pub const SUM: [Laid; 4] = [
    Laid::Used(0, 0, 0, NONE, [3, NONE, NONE]),
    Laid::Used(3, 4, 0, 0, [2, 1, NONE]),
    Laid::Used(2, 1, 0, 3, LEAF),
    Laid::Used(1, 1, 0, 3, LEAF),
];

// The record of one node, and the node's number.
fn node_of(laid: Laid) -> (usize, Node) {
    let used = matches!(laid, Laid::Used(..));
    match laid {
        Laid::Used(n, production, literal, parent, children)
        | Laid::Free(n, production, literal, parent, children) => {
            let node = Node {
                used,
                production,
                literal,
                parent,
                children,
            };
            (n, node)
        }
    }
}

// Lays records in a table, those for which it has nodes.
pub fn lay(nodes: &mut [Node], records: &[Laid]) {
    for laid in records {
        let (n, node) = node_of(*laid);
        if let Some(place) = nodes.get_mut(n) {
            *place = node;
        }
    }
}

// A table of free nodes.
pub fn blank(heap: Global, count: usize) -> Result<Vec<Node>, AllocError> {
    vec![in heap; Node::FREE; count]
}
