// Retype: a node's literal changes, and nothing else.
ghost use Rattle.std.specs.Prelude.{◌≡◌, ◌<◌, length, slice_set};
ghost use Rattle.table.specs.Nodes.{at as record_at};
ghost use Rattle.edit.specs.Fresh.{with_literal};
ghost use Rattle.edit.specs.Calls.{RetypeCall};

use crate::checks::check_retype;
use crate::fault::EditFault;
use grammar::Language;
use table::{Node, View};

// Gives a node another literal. That the node lies in the table is asked for, as in insert.
fn set_literal(nodes: &mut [Node], n: u16, literal: i32)
    requires { n < length nodes.old }
    ensures { nodes.new ≡ slice_set nodes.old n (with_literal (record_at nodes.old n) literal) }
{
    nodes[n as usize].literal = literal;
}

// Gives a node on the sheet another literal, which its production must accept.
#[tactic(auto, using(crate::proofs::Placed::lies_inside))]
pub fn retype<L: Language>(
    language: &L,
    nodes: &mut [Node],
    values: &mut [L::Row],
    n: u16,
    literal: i32,
) -> Result<(), EditFault>
    ensures { RetypeCall (L.grammar language.now) (λ row. L.Value.Figure.means (L.Value.Figure.reads row)) L.Value.Figure.nothing nodes.old values.old nodes.new values.new n literal result }
{
    check_retype(
        View {
            language,
            nodes,
            values: values.len(),
        },
        n,
        literal,
    )?;
    set_literal(nodes, n, literal);
    Ok(())
}
