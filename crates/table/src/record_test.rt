// Tests of one node's record by itself.
ghost use Rattle.std.specs.Prelude.{◌≡◌, ◌<◌, ◌≤◌, MatchBool};
ghost use Rattle.table.specs.Nodes.{child_field, Blank};
ghost use Rattle.table.specs.Testing.{NoChildFrom, Once};

use crate::node::{NONE, Node};

impl Node {
    // Whether no child stands at a place from the given one on.
    pub(crate) fn has_no_child_from(&self, from: usize) -> bool
        ensures { MatchBool result (NoChildFrom self.now from) (NoChildFrom self.now from → ⊥) }
    {
        self.children.iter().skip(from).all(|child| *child == NONE)
    }

    // Whether the record is that of a free node.
    pub(crate) fn is_blank(&self) -> bool
        ensures { MatchBool result (Blank self.now) (Blank self.now → ⊥) }
    {
        *self == Node::FREE
    }

    // Whether exactly one of the first child places names node n; how many there are is the production's word, and a record has three.
    pub(crate) fn names_once(&self, count: usize, n: u16) -> bool
        requires { count ≤ 3 }
        ensures { MatchBool result (Once self.now count n) (Once self.now count n → ⊥) }
    {
        let places = &self.children[..count];
        places.iter().filter(|child| **child == n).count() == 1
    }
}
