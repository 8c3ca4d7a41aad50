// Make: a sheet with production 0 over holes and nothing else.
ghost use Rattle.std.specs.Prelude.{ℕ, ◌<◌, ◌≤◌, length};
ghost use Rattle.edit.specs.Calls.{MakeCall};
ghost use Rattle.edit.specs.Edits.{Made};
ghost use Rattle.edit.specs.Starting.{FreeTo};

use crate::fault::EditFault;
use crate::fresh::new_nodes;
use crate::records::put_holes;
use crate::rows::blank_first;
use grammar::{Figure, Language};
use table::{Node, Table, View};

// Puts down node 0 over holes, in a table of free nodes.
fn put_start<L: Language>(language: &L, nodes: &mut [Node])
    requires { (length nodes.old ≤ 1000) × ((length ((L.grammar language.now).children 0) < length nodes.old) × (FreeTo (length nodes.old) nodes.old)) }
    ensures { Made (L.grammar language.now) (length nodes.old) nodes.new }
{
    let symbols = language.children(0);
    let children = new_nodes(Table::new(nodes), symbols.len()).unwrap();
    put_holes(nodes, symbols, 0, &children);
    nodes[0] = Node {
        used: true,
        children,
        ..Node::FREE
    };
}

// Makes a sheet of all nodes and values, whatever they held: production 0 at node 0, over holes, and every other node free.
pub fn make<L: Language>(
    language: &L,
    nodes: &mut [Node],
    values: &mut [L::Row],
) -> Result<(), EditFault>
    ensures { MakeCall (L.grammar language.now) (λ row. L.Value.Figure.means (L.Value.Figure.reads row)) L.Value.Figure.nothing nodes.old values.old nodes.new values.new result }
{
    View {
        language,
        nodes,
        values: values.len(),
    }
    .check_memory()?;
    if nodes.len() <= language.children(0).len() {
        return Err(EditFault::TooFewNodes(0));
    }
    nodes.fill(Node::FREE);
    put_start(language, nodes);
    blank_first::<L>(values, 4 * nodes.len());
    Ok(())
}
