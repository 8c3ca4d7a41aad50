// Discard: a clipping's nodes become free.
ghost use Rattle.std.specs.Prelude.{ℕ, ◌<◌, ◌≤◌, length, MatchBool, slice_index};
ghost use Rattle.table.specs.Climbing.{Climb};
ghost use Rattle.edit.specs.Calls.{DiscardCall};
ghost use Rattle.edit.specs.Gathering.{Gathered, Freed, ClippingFreed};

use crate::fault::EditFault;
use grammar::{Figure, Language};
use table::{Node, Table, View, check_buffer, is_clipping_root};

// Whether the climb from node n ends at a root.
fn climbs_to(table: Table<'_>, root: u16, n: u16) -> bool
    ensures { MatchBool result (Climb table.entry.nodes.now root n) (Climb table.entry.nodes.now root n → ⊥) }
{
    table.top_of(n) == Some(root)
}

// Lists the nodes whose climb ends at a root, in the first slots. Answers how many there are: the slots are the caller's, there may be more of them,
// and there is no heap here for a Vec.
fn gather(table: Table<'_>, root: u16, slots: &mut [u16]) -> usize
    requires { length table.nodes.now ≤ length slots.old }
    ensures { Gathered table.entry.nodes.now root (length table.entry.nodes.now) slots.old slots.new result }
{
    // By a chain over the slots, a map would run for its writes alone, and be no plainer.
    let mut count = 0;
    for n in 0..table.nodes.len() {
        if climbs_to(table, root, n as u16) {
            slots[count] = n as u16;
            count += 1;
        }
    }
    count
}

// Frees the listed nodes.
fn free_listed(nodes: &mut [Node], listed: &[u16])
    requires { (k : ℕ) → k < length listed.now → slice_index listed.now k < length nodes.old }
    ensures { Freed listed.now (length listed.now) nodes.old nodes.new }
{
    for n in listed {
        nodes[*n as usize] = Node::FREE;
    }
}

// Frees the nodes of the clipping with a root. The waiting list has to have an entry for each node; those entries may change.
pub fn discard<L: Language>(
    language: &L,
    nodes: &mut [Node],
    values: &[L::Row],
    root: u16,
    waiting: &mut [u16],
) -> Result<(), EditFault>
    ensures { DiscardCall (L.grammar language.now) (λ row. L.Value.Figure.means (L.Value.Figure.reads row)) L.Value.Figure.nothing nodes.old values.now nodes.new values.now root waiting.old waiting.new result }
{
    let table = View {
        language,
        nodes,
        values: values.len(),
    }
    .begin()?;
    check_buffer(waiting.len(), nodes.len())?;
    if !is_clipping_root(nodes, root) {
        return Err(EditFault::NoClipping);
    }
    let count = gather(table, root, waiting);
    free_listed(nodes, &waiting[..count]);
    Ok(())
}
