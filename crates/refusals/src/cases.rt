// The calls that are tried, and what memory they are tried on.
use crate::records::{FORMULAS, LEAF, Laid, PLANS, SUM};
use std::fmt;
use table::NONE;
use trials::Call;

// numbers that are nodes on the sheet and clippings' roots, and numbers that are not
const NODES_AND_CLIPPINGS: [Call; 61] = [
    Call::Insert(10, 2, 5),
    Call::Insert(10, 9, 0),
    Call::Insert(16, 2, 5),
    Call::Insert(65535, 2, 5),
    Call::Insert(5, 2, 5),
    Call::Insert(11, 2, 5),
    Call::Insert(14, 2, 5),
    Call::Insert(0, 2, 5),
    Call::Cut(14),
    Call::Cut(15),
    Call::Cut(16),
    Call::Cut(65535),
    Call::Cut(5),
    Call::Cut(12),
    Call::Cut(13),
    Call::Cut(10),
    Call::Cut(0),
    Call::Paste(13, 10),
    Call::Paste(16, 10),
    Call::Paste(65535, 10),
    Call::Paste(5, 10),
    Call::Paste(12, 10),
    Call::Paste(14, 10),
    Call::Paste(0, 10),
    Call::Paste(13, 16),
    Call::Paste(13, 65535),
    Call::Paste(13, 5),
    Call::Paste(13, 11),
    Call::Paste(13, 13),
    Call::Paste(13, 14),
    Call::Paste(13, 0),
    Call::Exchange(13, 14),
    Call::Exchange(13, 15),
    Call::Exchange(16, 14),
    Call::Exchange(65535, 14),
    Call::Exchange(5, 14),
    Call::Exchange(12, 14),
    Call::Exchange(14, 14),
    Call::Exchange(0, 14),
    Call::Exchange(13, 16),
    Call::Exchange(13, 65535),
    Call::Exchange(13, 5),
    Call::Exchange(13, 12),
    Call::Exchange(13, 13),
    Call::Exchange(13, 10),
    Call::Exchange(13, 0),
    Call::Retype(14, 9),
    Call::Retype(16, 9),
    Call::Retype(65535, 9),
    Call::Retype(5, 9),
    Call::Retype(12, 9),
    Call::Discard(13, 16),
    Call::Discard(13, 18),
    Call::Discard(16, 16),
    Call::Discard(65535, 16),
    Call::Discard(5, 16),
    Call::Discard(12, 16),
    Call::Discard(14, 16),
    Call::Discard(0, 16),
    Call::Discard(13, 15),
    Call::Discard(13, 0),
];

// productions and literals, on the table of formulas
const PRODUCTIONS_AND_LITERALS: [Call; 22] = [
    Call::Insert(10, 0, 0),
    Call::Insert(10, 1, 0),
    Call::Insert(10, 10, 0),
    Call::Insert(10, 255, 0),
    Call::Insert(10, 2, 1000000000),
    Call::Insert(10, 2, -1000000000),
    Call::Insert(10, 2, 1000000001),
    Call::Insert(10, 2, -1000000001),
    Call::Insert(10, 2, 2147483647),
    Call::Insert(10, 2, -2147483648),
    Call::Insert(10, 4, 1),
    Call::Retype(14, 1000000000),
    Call::Retype(14, 7),
    Call::Retype(10, 0),
    Call::Retype(0, 0),
    Call::Retype(14, 1000000001),
    Call::Retype(14, -1000000001),
    Call::Retype(14, 2147483647),
    Call::Retype(14, -2147483648),
    Call::Retype(15, 1),
    Call::Retype(10, 1),
    Call::Retype(0, 1),
];

// productions, literals and clippings of two symbols, on the table of plans
const SYMBOLS: [Call; 22] = [
    Call::Insert(13, 6, 0),
    Call::Insert(11, 3, 0),
    Call::Insert(13, 0, 0),
    Call::Insert(13, 2, 0),
    Call::Insert(11, 2, 0),
    Call::Insert(11, 9, 0),
    Call::Insert(11, 7, 31),
    Call::Insert(11, 7, 32),
    Call::Insert(11, 7, -1),
    Call::Insert(13, 4, 126),
    Call::Insert(13, 4, 0),
    Call::Insert(13, 4, 3),
    Call::Insert(13, 4, 127),
    Call::Insert(13, 4, 128),
    Call::Insert(13, 4, 129),
    Call::Retype(14, 6),
    Call::Retype(14, 7),
    Call::Retype(14, 4),
    Call::Paste(12, 11),
    Call::Paste(12, 13),
    Call::Exchange(12, 14),
    Call::Exchange(12, 15),
];

// calls that need nodes, where two are free
const FEW_FREE: [Call; 3] = [Call::Insert(2, 4, 0), Call::Insert(2, 8, 0), Call::Cut(3)];

// the same, where none is free
const NONE_FREE: [Call; 4] = [
    Call::Insert(2, 2, 5),
    Call::Insert(2, 4, 0),
    Call::Insert(2, 8, 0),
    Call::Cut(3),
];

// calls on the table of formulas with 1000 nodes
const LARGE: [Call; 7] = [
    Call::Insert(10, 4, 0),
    Call::Cut(14),
    Call::Paste(13, 10),
    Call::Exchange(13, 14),
    Call::Retype(14, 9),
    Call::Discard(13, 999),
    Call::Discard(13, 1000),
];

// one call of each kind on the table of formulas, accepted there
const EACH_ON_FORMULAS: [Call; 7] = [
    Call::Make,
    Call::Insert(10, 2, 5),
    Call::Cut(14),
    Call::Paste(13, 10),
    Call::Exchange(13, 14),
    Call::Retype(14, 9),
    Call::Discard(13, 16),
];

// the same but make, which needs no sheet; written out, as lists of a test are
pub const ON_FORMULAS: [Call; 6] = [
    Call::Insert(10, 2, 5),
    Call::Cut(14),
    Call::Paste(13, 10),
    Call::Exchange(13, 14),
    Call::Retype(14, 9),
    Call::Discard(13, 16),
];

// one call of each kind on the table of plans
const EACH_ON_PLANS: [Call; 7] = [
    Call::Make,
    Call::Insert(11, 7, 31),
    Call::Cut(14),
    Call::Paste(12, 11),
    Call::Exchange(12, 14),
    Call::Retype(14, 6),
    Call::Discard(12, 16),
];

// the same but make
const ON_PLANS: [Call; 6] = [
    Call::Insert(11, 7, 31),
    Call::Cut(14),
    Call::Paste(12, 11),
    Call::Exchange(12, 14),
    Call::Retype(14, 6),
    Call::Discard(12, 16),
];

// calls with whatever can be wrong with their numbers
const ALL_WRONG: [Call; 6] = [
    Call::Insert(16, 255, 2147483647),
    Call::Cut(16),
    Call::Paste(12, 16),
    Call::Exchange(12, 16),
    Call::Retype(16, 2147483647),
    Call::Discard(12, 0),
];

// several checks that fail at once, each of them the first in turn
const IN_TURN: [Call; 13] = [
    Call::Insert(16, 255, 2147483647),
    Call::Insert(14, 255, 2147483647),
    Call::Insert(10, 255, 2147483647),
    Call::Insert(10, 4, 2147483647),
    Call::Paste(12, 16),
    Call::Paste(12, 14),
    Call::Paste(13, 0),
    Call::Exchange(12, 16),
    Call::Exchange(12, 10),
    Call::Exchange(13, 0),
    Call::Retype(5, 2147483647),
    Call::Discard(12, 15),
    Call::Discard(12, 16),
];

// the same, where no node is free
const FULL_IN_TURN: [Call; 7] = [
    Call::Insert(4, 255, 1),
    Call::Insert(3, 255, 1),
    Call::Insert(2, 1, 1),
    Call::Insert(2, 4, 1),
    Call::Cut(4),
    Call::Cut(2),
    Call::Cut(0),
];

// the same, where symbols differ
const SYMBOLS_IN_TURN: [Call; 5] = [
    Call::Insert(13, 6, 1000000001),
    Call::Paste(12, 12),
    Call::Paste(12, 14),
    Call::Exchange(12, 13),
    Call::Exchange(12, 0),
];

// What is lent: records laid in a table of some nodes, and over them some more, and how many values; and the calls that are tried on it.
#[derive(Clone, Copy)]
pub struct Scene {
    pub note: &'static str,
    pub records: &'static [Laid],
    pub over: &'static [Laid],
    pub nodes: usize,
    pub values: usize,
    pub calls: &'static [Call],
}

impl fmt::Display for Scene {
    fn fmt<W: fmt::Write>(&self, f: &mut fmt::Formatter<W>) -> fmt::Result {
        let nodes = self.nodes;
        let values = self.values;
        let note = self.note;
        write!(f, "{nodes} nodes, {values} values: {note}")
    }
}

// on formulas
pub const ON_FORMULA_TABLES: [Scene; 18] = [
    Scene {
        note: "nodes and clippings",
        records: &FORMULAS,
        over: &[],
        nodes: 16,
        values: 64,
        calls: &NODES_AND_CLIPPINGS,
    },
    Scene {
        note: "productions and literals",
        records: &FORMULAS,
        over: &[],
        nodes: 16,
        values: 64,
        calls: &PRODUCTIONS_AND_LITERALS,
    },
    Scene {
        note: "two nodes are free",
        records: &SUM,
        over: &[],
        nodes: 6,
        values: 24,
        calls: &FEW_FREE,
    },
    Scene {
        note: "no node is free",
        records: &SUM,
        over: &[],
        nodes: 4,
        values: 16,
        calls: &NONE_FREE,
    },
    Scene {
        note: "make alone",
        records: &[],
        over: &[],
        nodes: 1,
        values: 4,
        calls: &[Call::Make],
    },
    Scene {
        note: "make alone",
        records: &[],
        over: &[],
        nodes: 2,
        values: 8,
        calls: &[Call::Make],
    },
    Scene {
        note: "any records, and further values",
        records: &[Laid::Used(0, 9, 5, 1, LEAF), Laid::Free(1, 200, 0, 0, LEAF)],
        over: &[],
        nodes: 3,
        values: 14,
        calls: &[Call::Make],
    },
    Scene {
        note: "no node and no value",
        records: &[],
        over: &[],
        nodes: 0,
        values: 0,
        calls: &EACH_ON_FORMULAS,
    },
    Scene {
        note: "no node",
        records: &[],
        over: &[],
        nodes: 0,
        values: 64,
        calls: &EACH_ON_FORMULAS,
    },
    Scene {
        note: "no value",
        records: &FORMULAS,
        over: &[],
        nodes: 16,
        values: 0,
        calls: &EACH_ON_FORMULAS,
    },
    Scene {
        note: "too few values",
        records: &FORMULAS,
        over: &[],
        nodes: 16,
        values: 63,
        calls: &EACH_ON_FORMULAS,
    },
    Scene {
        note: "too many nodes",
        records: &FORMULAS,
        over: &[],
        nodes: 1001,
        values: 4004,
        calls: &EACH_ON_FORMULAS,
    },
    Scene {
        note: "as many nodes as there may be",
        records: &FORMULAS,
        over: &[],
        nodes: 1000,
        values: 4000,
        calls: &LARGE,
    },
    Scene {
        note: "several faults",
        records: &FORMULAS,
        over: &[],
        nodes: 16,
        values: 64,
        calls: &IN_TURN,
    },
    Scene {
        note: "several faults, no node is free",
        records: &SUM,
        over: &[],
        nodes: 4,
        values: 16,
        calls: &FULL_IN_TURN,
    },
    Scene {
        note: "several faults, no sheet and too few values",
        records: &FORMULAS,
        over: &[Laid::Used(9, 1, 0, NONE, LEAF)],
        nodes: 16,
        values: 63,
        calls: &ALL_WRONG,
    },
    Scene {
        note: "several faults, no sheet",
        records: &FORMULAS,
        over: &[Laid::Used(9, 1, 0, NONE, LEAF)],
        nodes: 16,
        values: 64,
        calls: &ALL_WRONG,
    },
    Scene {
        note: "several faults, too few nodes and values",
        records: &[],
        over: &[],
        nodes: 1,
        values: 3,
        calls: &[Call::Make],
    },
];

// on plans
pub const ON_PLAN_TABLES: [Scene; 3] = [
    Scene {
        note: "symbols",
        records: &PLANS,
        over: &[],
        nodes: 16,
        values: 64,
        calls: &SYMBOLS,
    },
    Scene {
        note: "several faults",
        records: &PLANS,
        over: &[],
        nodes: 16,
        values: 64,
        calls: &SYMBOLS_IN_TURN,
    },
    Scene {
        note: "node 11 is of another symbol than its place",
        records: &PLANS,
        over: &[Laid::Used(11, 1, 0, 14, LEAF)],
        nodes: 16,
        values: 64,
        calls: &ON_PLANS,
    },
];

// on altered plans, whose language is circular
pub const ON_ALTERED_TABLES: [Scene; 2] = [
    Scene {
        note: "a circular language",
        records: &PLANS,
        over: &[],
        nodes: 16,
        values: 64,
        calls: &EACH_ON_PLANS,
    },
    Scene {
        note: "several faults",
        records: &[],
        over: &[],
        nodes: 0,
        values: 0,
        calls: &ALL_WRONG,
    },
];
