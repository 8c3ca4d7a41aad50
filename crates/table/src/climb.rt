// Climbing from a node by its parents, and what that tells of the node.
ghost use Rattle.std.specs.Prelude.{◌≡◌, ℕ, ◌≤◌, [], ◌∷◌, length, MatchBool, MatchOption};
ghost use Rattle.table.specs.Checks.{on_sheet};
ghost use Rattle.table.specs.Climbing.{Climb, OnSheet};
ghost use Rattle.table.specs.Nodes.{at as record_at, Used};
ghost use Rattle.table.specs.Refusals.{Answer};
ghost use Rattle.table.specs.Sheets.{ClippingRoot};

use crate::fault::TableFault;
use crate::node::{NONE, Node};

// A table of at most 1000 nodes, lent for reading.
#[derive(Clone, Copy)]
pub struct Table<'a> {
    pub nodes: &'a [Node],
    ghost few: { length nodes.now ≤ 1000 },
}

impl<'a> Table<'a> {
    // The table of these nodes.
    pub fn new(nodes: &'a [Node]) -> Table<'a>
        requires { length nodes.now ≤ 1000 }
        ensures { result.nodes.now ≡ nodes.now }
    {
        Table { nodes }
    }

    // The node at which the climb from node n ends. A climb of as many steps as there are nodes never ends.
    #[tactic(auto, using(crate::proofs::Climbs::walks))]
    pub fn top_of(self, n: u16) -> Option<u16>
        ensures { MatchOption result ((top : ℕ) → Climb self.entry.nodes.now top n → ⊥) (λ top. Climb self.entry.nodes.now top n) }
    {
        let mut reached = n;
        // The count bounds the steps; no node is reached by it.
        for _step in 0..self.nodes.len() {
            let parent = used_node(self.nodes, reached)?.parent;
            if parent == NONE {
                return Some(reached);
            }
            reached = parent;
        }
        None
    }

    // Whether node n is on the sheet.
    #[tactic(auto, using(crate::proofs::Answering::on_sheet_by_top))]
    pub fn is_on_sheet(self, n: u16) -> bool
        ensures { MatchBool result (OnSheet self.entry.nodes.now n) (OnSheet self.entry.nodes.now n → ⊥) }
    {
        self.top_of(n) == Some(0)
    }

    // Refuses a node that is not on the sheet.
    pub fn check_on_sheet(self, n: u16) -> Result<(), TableFault>
        ensures { Answer (on_sheet self.entry.nodes.now n ∷ []) result }
    {
        if !self.is_on_sheet(n) {
            return Err(TableFault::NotOnSheet(n));
        }
        Ok(())
    }
}

// The record of node n, where it is in the table and in use.
pub(crate) fn used_node(nodes: &[Node], n: u16) -> Option<&Node>
    ensures { MatchOption result (Used nodes.now n → ⊥) (λ node. Used nodes.now n × (node.now ≡ record_at nodes.now n)) }
{
    nodes.get(usize::from(n)).filter(|node| node.used)
}

// Whether node n is in the table and in use.
pub fn is_used(nodes: &[Node], n: u16) -> bool
    ensures { MatchBool result (Used nodes.now n) (Used nodes.now n → ⊥) }
{
    used_node(nodes, n).is_some()
}

// Whether node n is the root of a clipping.
pub fn is_clipping_root(nodes: &[Node], n: u16) -> bool
    ensures { MatchBool result (ClippingRoot nodes.now n) (ClippingRoot nodes.now n → ⊥) }
{
    n != 0 && used_node(nodes, n).is_some_and(|node| node.parent == NONE)
}
