// What the two languages are: their members, and those of their figure, are the definitions of specs/. These functions do nothing;
// their contracts are the theorems.
ghost use Rattle.std.specs.Prelude.{◌≡◌};
ghost use Rattle.plan.specs.contracts.figure.PlanFigureFigure.TheImpl.{ghosts as figure};
ghost use Rattle.plan.specs.contracts.language.PlanLanguage.TheImpl.{ghosts as plan};
ghost use Rattle.plan.specs.contracts.altered.AlteredPlanLanguage.TheImpl.{ghosts as altered};
ghost use Rattle.plan.specs.Figures.{PlanFigures};
ghost use Rattle.plan.specs.Scope.{ScopesByEntries};
ghost use Rattle.plan.specs.Table.{plan_grammar, plan_rule, plan_text, altered_grammar};

use crate::altered::AlteredPlan;
use crate::language::Plan;

// The language of plans is the table, the rules and the texts of specs/.
pub fn plan_is_as_specified(language: &Plan)
    ensures table { plan.grammar language.now ≡ plan_grammar }
    ensures functions { plan.rule language.now ≡ plan_rule }
    ensures texts { plan.text language.now ≡ plan_text }
{}

// The altered plan has the altered table, and the functions and the texts of the plan.
pub fn altered_plan_is_as_specified(language: &AlteredPlan)
    ensures table { altered.grammar language.now ≡ altered_grammar }
    ensures functions { altered.rule language.now ≡ plan_rule }
    ensures texts { altered.text language.now ≡ plan_text }
{}

// What the figures of both languages are, when two are the same, and what a row reads as.
pub fn figures_are_as_specified()
    ensures { PlanFigures figure.means figure.reads figure.nothing }
{}

// A scope is told by its entries, and those of a scope that a rule makes are the ones said.
pub fn scopes_are_told_by_entries()
    ensures { ScopesByEntries }
{}
