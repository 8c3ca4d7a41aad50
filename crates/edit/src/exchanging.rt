// Exchange: a clipping in the place of a subtree, which is handed out.
ghost use Rattle.edit.specs.Calls.{ExchangeCall};

use crate::clipping_checks::check_exchange;
use crate::fault::EditFault;
use crate::hang::hang;
use grammar::{Figure, Language};
use table::{Node, View};

pub fn exchange<L: Language>(
    language: &L,
    nodes: &mut [Node],
    values: &mut [L::Row],
    root: u16,
    node: u16,
) -> Result<(), EditFault>
    ensures { ExchangeCall (L.grammar language.now) (λ row. L.Value.Figure.means (L.Value.Figure.reads row)) L.Value.Figure.nothing nodes.old values.old nodes.new values.new root node result }
{
    check_exchange(
        View {
            language,
            nodes,
            values: values.len(),
        },
        root,
        node,
    )?;
    hang(nodes, root, node);
    Ok(())
}
