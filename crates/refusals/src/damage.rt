// Records that form no sheet: each damage breaks one condition of a sheet, on the table of formulas.
use crate::records::{LEAF, Laid};
use table::NONE;

#[derive(Clone, Copy)]
pub struct Damage {
    pub what: &'static str,
    pub records: &'static [Laid],
}

pub const DAMAGES: [Damage; 22] = [
    Damage {
        what: "free node 5 has production 1",
        records: &[Laid::Free(5, 1, 0, NONE, LEAF)],
    },
    Damage {
        what: "free node 5 has literal 1",
        records: &[Laid::Free(5, 0, 1, NONE, LEAF)],
    },
    Damage {
        what: "free node 5 has parent 15",
        records: &[Laid::Free(5, 0, 0, 15, LEAF)],
    },
    Damage {
        what: "free node 5 has node 0 at its third child place",
        records: &[Laid::Free(5, 0, 0, NONE, [NONE, NONE, 0])],
    },
    Damage {
        what: "node 0 is free",
        records: &[
            Laid::Free(0, 0, 0, NONE, LEAF),
            Laid::Used(15, 4, 0, NONE, [14, 10, NONE]),
        ],
    },
    Damage {
        what: "node 0 has production 2",
        records: &[
            Laid::Used(0, 2, 7, NONE, LEAF),
            Laid::Used(15, 4, 0, NONE, [14, 10, NONE]),
        ],
    },
    Damage {
        what: "node 0 has parent 13",
        records: &[Laid::Used(0, 0, 0, 13, [15, NONE, NONE])],
    },
    Damage {
        what: "node 9 has production 0",
        records: &[
            Laid::Used(9, 0, 0, NONE, [8, NONE, NONE]),
            Laid::Used(8, 1, 0, 9, LEAF),
        ],
    },
    Damage {
        what: "node 14 has production 10",
        records: &[Laid::Used(14, 10, 0, 15, LEAF)],
    },
    Damage {
        what: "hole 10 has literal 1",
        records: &[Laid::Used(10, 1, 1, 15, LEAF)],
    },
    Damage {
        what: "node 14 has literal 2147483647",
        records: &[Laid::Used(14, 2, 2147483647, 15, LEAF)],
    },
    Damage {
        what: "node 15 lacks its second child",
        records: &[
            Laid::Used(15, 4, 0, 0, [14, NONE, NONE]),
            Laid::Free(10, 0, 0, NONE, LEAF),
        ],
    },
    Damage {
        what: "node 15 has node 16 as its second child",
        records: &[
            Laid::Used(15, 4, 0, 0, [14, 16, NONE]),
            Laid::Free(10, 0, 0, NONE, LEAF),
        ],
    },
    Damage {
        what: "node 15 has a free node as its second child",
        records: &[Laid::Free(10, 0, 0, NONE, LEAF)],
    },
    Damage {
        what: "node 15's first child has no parent",
        records: &[Laid::Used(14, 2, 7, NONE, LEAF)],
    },
    Damage {
        what: "node 14 has a node at a place without child",
        records: &[Laid::Used(14, 2, 7, 15, [NONE, 5, NONE])],
    },
    Damage {
        what: "node 13 has parent 16",
        records: &[Laid::Used(13, 5, 0, 16, [12, 11, NONE])],
    },
    Damage {
        what: "node 13 has the free node 5 as parent",
        records: &[Laid::Used(13, 5, 0, 5, [12, 11, NONE])],
    },
    Damage {
        what: "node 13 has parent 14 and is no child of it",
        records: &[Laid::Used(13, 5, 0, 14, [12, 11, NONE])],
    },
    Damage {
        what: "node 14 is both children of node 15",
        records: &[
            Laid::Used(15, 4, 0, 0, [14, 14, NONE]),
            Laid::Free(10, 0, 0, NONE, LEAF),
        ],
    },
    Damage {
        what: "node 9 is a hole without parent",
        records: &[Laid::Used(9, 1, 0, NONE, LEAF)],
    },
    Damage {
        what: "node 9 is a child of itself",
        records: &[
            Laid::Used(9, 4, 0, 9, [9, 8, NONE]),
            Laid::Used(8, 2, 1, 9, LEAF),
        ],
    },
];
