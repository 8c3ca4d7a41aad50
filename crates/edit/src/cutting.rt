// Cut: a new hole in a node's place; the node is the root of a clipping then.
ghost use Rattle.std.specs.Prelude.{length, MatchResult};
ghost use Rattle.table.specs.Refusals.{Met, First};
ghost use Rattle.edit.specs.Fresh.{NextFree};
ghost use Rattle.edit.specs.Checks.{cut_checks};
ghost use Rattle.edit.specs.Calls.{CutCall};

use crate::checks::check_at_node;
use crate::clipping_checks::check_no_hole;
use crate::fault::EditFault;
use crate::fresh::next_free;
use crate::hang::hang;
use crate::records::hole_node;
use crate::rows::blank_node;
use grammar::{Figure, Language};
use table::{NONE, Node, View};

// What cut checks; it answers the number for the new hole.
fn check_cut<L: Language>(view: View<'_, L>, n: u16) -> Result<u16, EditFault>
    ensures { MatchResult result (λ hole. Met (cut_checks (L.grammar view.entry.language.now) view.entry.nodes.now view.entry.values n) × NextFree view.entry.nodes.now (length view.entry.nodes.now) hole) (First (cut_checks (L.grammar view.entry.language.now) view.entry.nodes.now view.entry.values n)) }
{
    check_at_node(view, n)?;
    check_no_hole(view, n)?;
    next_free(view.nodes, view.nodes.len() as u16).ok_or(EditFault::TooFewNodes(n))
}

// Cuts the subtree at a node out; answers the number of the hole in its place.
#[tactic(auto, using(crate::proofs::Placed::lies_inside))]
pub fn cut<L: Language>(
    language: &L,
    nodes: &mut [Node],
    values: &mut [L::Row],
    node: u16,
) -> Result<u16, EditFault>
    ensures { CutCall (L.grammar language.now) (λ row. L.Value.Figure.means (L.Value.Figure.reads row)) L.Value.Figure.nothing nodes.old values.old nodes.new values.new node result }
{
    let hole = check_cut(
        View {
            language,
            nodes,
            values: values.len(),
        },
        node,
    )?;
    let symbol = language.symbol(nodes[node as usize].production);
    nodes[hole as usize] = hole_node(symbol, NONE);
    hang(nodes, hole, node);
    blank_node::<L>(values, hole);
    Ok(hole)
}
