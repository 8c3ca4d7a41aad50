// The step that cut, paste and exchange share: a root is hung in a node's place.
ghost use Rattle.std.specs.Prelude.{◌≡◌, ℕ, ◌<◌, length, slice_set};
ghost use Rattle.table.specs.Nodes.{none, child_field};
ghost use Rattle.edit.specs.Edits.{Exchanged};
ghost use Rattle.edit.specs.Fresh.{free_record, hole_record};
ghost use Rattle.edit.specs.Hanging.{Hangable};

use table::{NONE, Node};

// The child place that names a node, one of three.
fn place_of(node: &Node, child: u16) -> usize
    requires { (place : ℕ) × (place < 3) × (child_field node.now place ≡ child) }
    ensures { (result < 3) × (child_field node.now result ≡ child) }
{
    node.children
        .iter()
        .position(|named| *named == child)
        .unwrap()
}

// Hangs a root in a node's place; the node has no parent then.
pub(crate) fn hang(nodes: &mut [Node], root: u16, node: u16)
    requires { Hangable nodes.old root node }
    ensures { Exchanged root node nodes.old nodes.new }
{
    let parent = nodes[node as usize].parent;
    let place = place_of(&nodes[parent as usize], node);
    nodes[parent as usize].children[place] = root;
    nodes[root as usize].parent = parent;
    nodes[node as usize].parent = NONE;
}
