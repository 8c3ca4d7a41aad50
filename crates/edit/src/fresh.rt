// The new nodes of an edit: the highest free numbers.
ghost use Rattle.std.specs.Prelude.{◌≡◌, ℕ, ◌<◌, ◌≤◌, [], ◌∷◌, length, MatchOption};
ghost use Rattle.edit.specs.Fresh.{free_below, free_numbers, new_nodes, three, NextFree, NewNodes};

use table::{NONE, Node, Table};

// The highest free node below a number, if any is free there. By `rposition` or by `find` over the numbers it got no proof: what they say of
// the items that they passed over, from the back, did not come out as numbers of nodes.
pub(crate) fn next_free(nodes: &[Node], below: u16) -> Option<u16>
    requires { below ≤ length nodes.now }
    ensures { MatchOption result (free_below nodes.now below ≡ []) (NextFree nodes.now below) }
{
    for n in (0..below).rev() {
        if !nodes[n as usize].used {
            return Some(n);
        }
    }
    None
}

// The child fields for some new nodes, none where too few are free.
pub(crate) fn new_nodes(table: Table<'_>, count: usize) -> Option<[u16; 3]>
    requires { count ≤ 3 }
    ensures { MatchOption result (length (free_numbers table.entry.nodes.now) < count) (NewNodes table.entry.nodes.now count) }
{
    let mut children = [NONE; 3];
    let mut below = table.nodes.len() as u16;
    for child in &mut children[..count] {
        below = next_free(table.nodes, below)?;
        *child = below;
    }
    Some(children)
}
