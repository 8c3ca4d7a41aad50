// The checks of the edits that put a clipping in a node's place. Those of paste and exchange differ in one; with that one handed in as a closure, the
// contract would have to speak of any check. That the node lies in the table is asked for: a type that carries it would be made for three calls.
ghost use Rattle.std.specs.Prelude.{◌<◌, [], ◌∷◌, length};
ghost use Rattle.table.specs.Refusals.{Answer};
ghost use Rattle.edit.specs.Checks.{hole_at, no_hole_at, same_symbol, with_a_clipping, exchange_checks, paste_checks};

use crate::fault::EditFault;
use grammar::Language;
use table::{View, is_clipping_root, is_hole};

// What every edit with a clipping checks first.
fn check_with_clipping<L: Language>(view: View<'_, L>, root: u16, n: u16) -> Result<(), EditFault>
    ensures { Answer (with_a_clipping (L.grammar view.entry.language.now) view.entry.nodes.now view.entry.values root n) result }
{
    let table = view.begin()?;
    if !is_clipping_root(view.nodes, root) {
        return Err(EditFault::NoClipping);
    }
    table.check_on_sheet(n)?;
    Ok(())
}

// Refuses a node that is a hole or node 0.
pub(crate) fn check_no_hole<L: Language>(view: View<'_, L>, n: u16) -> Result<(), EditFault>
    requires { n < length view.nodes.now }
    ensures { Answer (no_hole_at (L.grammar view.entry.language.now) view.entry.nodes.now n ∷ []) result }
{
    if n == 0 || is_hole(view.language, view.nodes[n as usize].production) {
        return Err(EditFault::WrongPlace(n));
    }
    Ok(())
}

// Refuses a node that is no hole.
fn check_hole<L: Language>(view: View<'_, L>, n: u16) -> Result<(), EditFault>
    requires { n < length view.nodes.now }
    ensures { Answer (hole_at (L.grammar view.entry.language.now) view.entry.nodes.now n ∷ []) result }
{
    if !is_hole(view.language, view.nodes[n as usize].production) {
        return Err(EditFault::WrongPlace(n));
    }
    Ok(())
}

// Refuses a clipping whose root is of another symbol than the node.
fn check_symbol<L: Language>(view: View<'_, L>, root: u16, n: u16) -> Result<(), EditFault>
    requires { (root < length view.nodes.now) × (n < length view.nodes.now) }
    ensures { Answer (same_symbol (L.grammar view.entry.language.now) view.entry.nodes.now root n ∷ []) result }
{
    let symbol = |node: u16| view.language.symbol(view.nodes[node as usize].production);
    if symbol(root) != symbol(n) {
        return Err(EditFault::WrongSymbol(n));
    }
    Ok(())
}

// What exchange checks.
#[tactic(auto, using(crate::proofs::Placed::lies_inside))]
pub(crate) fn check_exchange<L: Language>(
    view: View<'_, L>,
    root: u16,
    n: u16,
) -> Result<(), EditFault>
    ensures { Answer (exchange_checks (L.grammar view.entry.language.now) view.entry.nodes.now view.entry.values root n) result }
{
    check_with_clipping(view, root, n)?;
    check_no_hole(view, n)?;
    check_symbol(view, root, n)
}

// What paste checks.
#[tactic(auto, using(crate::proofs::Placed::lies_inside))]
pub(crate) fn check_paste<L: Language>(
    view: View<'_, L>,
    root: u16,
    n: u16,
) -> Result<(), EditFault>
    ensures { Answer (paste_checks (L.grammar view.entry.language.now) view.entry.nodes.now view.entry.values root n) result }
{
    check_with_clipping(view, root, n)?;
    check_hole(view, n)?;
    check_symbol(view, root, n)
}
