// The worked examples as theorems, in one table on one contract.
#![tactic(auto)]

ghost use Rattle.examples.specs.Table.{Examples};
ghost use Rattle.formula.specs.contracts.language.FormulaLanguage.TheImpl.{ghosts as formula_members};
ghost use Rattle.plan.specs.contracts.language.PlanLanguage.TheImpl.{ghosts as plan_members};
ghost use Rattle.plan.specs.contracts.altered.AlteredPlanLanguage.TheImpl.{ghosts as altered_members};

use formula::Formula;
use plan::{AlteredPlan, Plan};

// The table of examples, of the three languages' own tables and of the formula's own rules.
pub fn examples_hold(formula: &Formula, plan: &Plan, altered: &AlteredPlan)
    ensures { Examples (formula_members.grammar formula.now) (plan_members.grammar plan.now) (altered_members.grammar altered.now) (formula_members.rule formula.now) }
{}
