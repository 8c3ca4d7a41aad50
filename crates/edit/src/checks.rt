// The checks of the edits, in their order, all before the first write.
ghost use Rattle.std.specs.Prelude.{◌≡◌, ◌<◌, [], ◌∷◌, ◌++◌, length, MatchBool, MatchResult};
ghost use Rattle.table.specs.Refusals.{Answer, Met, First};
ghost use Rattle.table.specs.Sheets.{Hole};
ghost use Rattle.edit.specs.Checks.{Fitting, at_a_node, insert_checks, insert_checks_but_free, retype_checks};
ghost use Rattle.edit.specs.Fresh.{NewNodes};

use crate::fault::EditFault;
use crate::fresh::new_nodes;
use grammar::Language;
use table::{Table, View, is_hole};

// What every edit at a node checks first.
pub(crate) fn check_at_node<L: Language>(view: View<'_, L>, n: u16) -> Result<(), EditFault>
    ensures { Answer (at_a_node (L.grammar view.entry.language.now) view.entry.nodes.now view.entry.values n) result }
{
    view.begin()?.check_on_sheet(n)?;
    Ok(())
}

// What retype checks.
#[tactic(auto, using(crate::proofs::Placed::lies_inside))]
pub(crate) fn check_retype<L: Language>(
    view: View<'_, L>,
    n: u16,
    literal: i32,
) -> Result<(), EditFault>
    ensures { Answer (retype_checks (L.grammar view.entry.language.now) view.entry.nodes.now view.entry.values n literal) result }
{
    check_at_node(view, n)?;
    if !view
        .language
        .accepts(view.nodes[n as usize].production, literal)
    {
        return Err(EditFault::LiteralRefused(n));
    }
    Ok(())
}

// Whether a production exists, is no hole and is of another production's symbol.
fn is_fitting<L: Language>(language: &L, other: u8, production: u8) -> bool
    ensures { MatchBool result (Fitting (L.grammar language.now) other production) (Fitting (L.grammar language.now) other production → ⊥) }
{
    production < language.productions()
        && !is_hole(language, production)
        && language.symbol(production) == language.symbol(other)
}

// What insert checks before it looks for free nodes.
#[tactic(auto, using(crate::proofs::Placed::lies_inside))]
fn check_production<L: Language>(
    view: View<'_, L>,
    n: u16,
    production: u8,
    literal: i32,
) -> Result<(), EditFault>
    ensures { Answer (insert_checks_but_free (L.grammar view.entry.language.now) view.entry.nodes.now view.entry.values n production literal) result }
{
    check_at_node(view, n)?;
    let language = view.language;
    let old = view.nodes[n as usize].production;
    if !is_hole(language, old) {
        return Err(EditFault::WrongPlace(n));
    }
    if !is_fitting(language, old, production) {
        return Err(EditFault::WrongSymbol(n));
    }
    if !language.accepts(production, literal) {
        return Err(EditFault::LiteralRefused(n));
    }
    Ok(())
}

// What insert checks; it answers the child fields for the new nodes.
pub(crate) fn check_insert<L: Language>(
    view: View<'_, L>,
    n: u16,
    production: u8,
    literal: i32,
) -> Result<[u16; 3], EditFault>
    ensures { MatchResult result (λ fields. Met (insert_checks (L.grammar view.entry.language.now) view.entry.nodes.now view.entry.values n production literal) × NewNodes view.entry.nodes.now (length ((L.grammar view.entry.language.now).children production)) fields) (First (insert_checks (L.grammar view.entry.language.now) view.entry.nodes.now view.entry.values n production literal)) }
{
    check_production(view, n, production, literal)?;
    new_nodes(
        Table::new(view.nodes),
        view.language.children(production).len(),
    )
    .ok_or(EditFault::TooFewNodes(n))
}
