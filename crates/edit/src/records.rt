// The record of a hole, and holes put down.
ghost use Rattle.std.specs.Prelude.{◌≡◌, ◌≤◌, length};
ghost use Rattle.edit.specs.Fresh.{hole_record};
ghost use Rattle.edit.specs.Planting.{Apart, Planted};

use table::Node;

// The record of a hole of a symbol under a parent.
pub(crate) fn hole_node(symbol: u8, parent: u16) -> Node
    ensures { result ≡ hole_record symbol parent }
{
    Node {
        used: true,
        production: symbol,
        parent,
        ..Node::FREE
    }
}

// Puts holes of some symbols down under a parent, at the first of some nodes.
pub(crate) fn put_holes(nodes: &mut [Node], symbols: &[u8], parent: u16, at: &[u16])
    requires { (length symbols.now ≤ length at.now) × (Apart (length nodes.old) (length symbols.now) at.now) }
    ensures { Planted symbols.now parent at.now (length symbols.now) nodes.old nodes.new }
{
    for (symbol, n) in symbols.iter().zip(at) {
        nodes[*n as usize] = hole_node(*symbol, parent);
    }
}
