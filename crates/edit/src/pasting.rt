// Paste: a clipping in the place of a hole, whose node is free then.
ghost use Rattle.edit.specs.Calls.{PasteCall};

use crate::clipping_checks::check_paste;
use crate::fault::EditFault;
use crate::hang::hang;
use grammar::{Figure, Language};
use table::{Node, View};

pub fn paste<L: Language>(
    language: &L,
    nodes: &mut [Node],
    values: &mut [L::Row],
    root: u16,
    node: u16,
) -> Result<(), EditFault>
    ensures { PasteCall (L.grammar language.now) (λ row. L.Value.Figure.means (L.Value.Figure.reads row)) L.Value.Figure.nothing nodes.old values.old nodes.new values.new root node result }
{
    check_paste(
        View {
            language,
            nodes,
            values: values.len(),
        },
        root,
        node,
    )?;
    hang(nodes, root, node);
    nodes[node as usize] = Node::FREE;
    Ok(())
}
