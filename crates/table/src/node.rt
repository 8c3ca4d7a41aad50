// One node of a table.

// The number that stands for no node: a rule of the records' format, in which nodes go by 16-bit numbers.
pub const NONE: u16 = 65_535;

// A node's record: whether it is in use, its production and literal, its parent and the nodes at its three child places.
// Plain fields, and records that name each other by number: the table is a slice that the caller lends, with no heap behind it, and what it holds may be
// damaged, a free record with a production as well as a used one without, and has to be told from what is whole.
#[derive(Clone, Copy, PartialEq, Eq)]
pub struct Node {
    pub used: bool,
    pub production: u8,
    pub literal: i32,
    pub parent: u16,
    pub children: [u16; 3],
}

impl Node {
    // The record of a free node.
    pub const FREE: Node = Node {
        used: false,
        production: 0,
        literal: 0,
        parent: NONE,
        children: [NONE; 3],
    };
}
