// The altered plan: as the plan, but that the scope after a declaration takes the type of the declaration's term as well.
ghost use Rattle.std.specs.Prelude.{◌≡◌};
ghost use Rattle.plan.specs.Table.{altered_grammar, plan_rule, plan_text};
ghost use Rattle.plan.specs.TableLimits.{altered_limits};

use crate::figure::{PlanFigure, PlanRow};
use crate::language::Plan;
use crate::numbers::{DECLARATION, FIRST_TYPE, IN, OWN, STEP_OUT};
use grammar::{Arguments, Language, Occurrence, Piece};

// It differs from the plan in one answer; an impl gives every method, so each of the others asks the plan.
pub struct AlteredPlan;

impl Language for AlteredPlan {
    type Meaning = PlanFigure;

    type Row = PlanRow;

    type Value = PlanFigure;

    ghost grammar = { λ plan. altered_grammar };

    ghost rule = { λ plan. plan_rule };

    ghost text = { λ plan. plan_text };

    ghost limits = { λ plan. altered_limits };

    fn symbols(&self) -> u8 {
        Plan.symbols()
    }

    fn productions(&self) -> u8 {
        Plan.productions()
    }

    fn inherited(&self, symbol: u8) -> u8 {
        Plan.inherited(symbol)
    }

    fn synthesized(&self, symbol: u8) -> u8 {
        Plan.synthesized(symbol)
    }

    fn symbol(&self, production: u8) -> u8 {
        Plan.symbol(production)
    }

    fn children(&self, production: u8) -> &[u8] {
        Plan.children(production)
    }

    fn accepts(&self, production: u8, literal: i32) -> bool {
        Plan.accepts(production, literal)
    }

    fn arguments(&self, production: u8, target: Occurrence) -> &[Occurrence] {
        match (production, target.place, target.attribute) {
            (DECLARATION, OWN, STEP_OUT) => &[IN, FIRST_TYPE],
            _ => Plan.arguments(production, target),
        }
    }

    fn evaluate(
        &self,
        production: u8,
        target: Occurrence,
        literal: i32,
        arguments: &Arguments<'_, PlanRow>,
    ) -> PlanFigure {
        Plan.evaluate(production, target, literal, arguments)
    }

    fn pieces(&self, production: u8) -> &[Piece] {
        Plan.pieces(production)
    }
}
