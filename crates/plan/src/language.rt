// Plans as a language: the table's answers, the rules, and the texts.
ghost use Rattle.std.specs.Prelude.{◌≡◌};
ghost use Rattle.plan.specs.Table.{plan_grammar, plan_rule, plan_text};
ghost use Rattle.plan.specs.TableLimits.{plan_limits};

use crate::figure::{PlanFigure, PlanRow, PlanType};
use crate::numbers::{
    BLOCK, CHAIN, DECLARATION, ENV, ENV_OF_TERM, FIRST, FIRST_BAD, FIRST_OUT, FIRST_TERM_BAD,
    FIRST_TYPE, IN, LESS, NAME, NUMBER, OWN, PLAN, PLAN_BAD, SECOND, SECOND_BAD, SECOND_OUT,
    SECOND_TERM_BAD, SECOND_TYPE, STEP, STEP_BAD, STEP_ENV, STEP_HOLE, STEP_IN, STEP_OUT, TERM,
    TERM_BAD, TERM_ENV, TERM_HOLE, TERM_TYPE,
};
use crate::rules::{comparison_bad, declaration_bad, scope_after, type_of_name};
use crate::scope::Scope;
use grammar::{Arguments, Figure, Language, Occurrence, Piece};

// The language of session plans.
pub struct Plan;

impl Language for Plan {
    type Meaning = PlanFigure;

    type Row = PlanRow;

    type Value = PlanFigure;

    ghost grammar = { λ plan. plan_grammar };

    ghost rule = { λ plan. plan_rule };

    ghost text = { λ plan. plan_text };

    ghost limits = { λ plan. plan_limits };

    fn symbols(&self) -> u8 {
        3
    }

    fn productions(&self) -> u8 {
        9
    }

    fn inherited(&self, symbol: u8) -> u8 {
        match symbol {
            STEP => 2,
            TERM => 1,
            _ => 0,
        }
    }

    fn synthesized(&self, symbol: u8) -> u8 {
        match symbol {
            0 => 1,
            STEP | TERM => 2,
            _ => 0,
        }
    }

    fn symbol(&self, production: u8) -> u8 {
        match production {
            STEP_HOLE | CHAIN | DECLARATION | BLOCK => STEP,
            TERM_HOLE | NUMBER | NAME | LESS => TERM,
            _ => 0,
        }
    }

    fn children(&self, production: u8) -> &[u8] {
        match production {
            PLAN | BLOCK => &[STEP],
            CHAIN => &[STEP, STEP],
            DECLARATION => &[TERM],
            LESS => &[TERM, TERM],
            _ => &[],
        }
    }

    fn accepts(&self, production: u8, literal: i32) -> bool {
        match production {
            PLAN | STEP_HOLE | TERM_HOLE | CHAIN | BLOCK | LESS => literal == 0,
            DECLARATION => (0..128).contains(&literal) && matches!(literal % 4, 1 | 2),
            NUMBER => (-1_000_000_000..=1_000_000_000).contains(&literal),
            NAME => (0..32).contains(&literal),
            _ => false,
        }
    }

    fn arguments(&self, production: u8, target: Occurrence) -> &[Occurrence] {
        match (production, target.place, target.attribute) {
            (PLAN, FIRST, STEP_ENV) => &[FIRST_OUT],
            (PLAN, OWN, PLAN_BAD) => &[FIRST_BAD],
            (STEP_HOLE, OWN, STEP_OUT) => &[IN],
            (CHAIN, FIRST, STEP_IN) => &[IN],
            (CHAIN, FIRST | SECOND, STEP_ENV) => &[ENV],
            (CHAIN, SECOND, STEP_IN) => &[FIRST_OUT],
            (CHAIN, OWN, STEP_OUT) => &[SECOND_OUT],
            (CHAIN, OWN, STEP_BAD) => &[FIRST_BAD, SECOND_BAD],
            (DECLARATION, FIRST, TERM_ENV) => &[ENV],
            (DECLARATION, OWN, STEP_OUT) => &[IN],
            (DECLARATION, OWN, STEP_BAD) => &[FIRST_TYPE, FIRST_TERM_BAD],
            (BLOCK, FIRST, STEP_ENV) => &[FIRST_OUT, ENV],
            (BLOCK, OWN, STEP_OUT) => &[IN],
            (BLOCK, OWN, STEP_BAD) => &[FIRST_BAD],
            (NAME, OWN, TERM_TYPE | TERM_BAD) => &[ENV_OF_TERM],
            (LESS, FIRST | SECOND, TERM_ENV) => &[ENV_OF_TERM],
            (LESS, OWN, TERM_BAD) => &[FIRST_TYPE, SECOND_TYPE, FIRST_TERM_BAD, SECOND_TERM_BAD],
            _ => &[],
        }
    }

    fn evaluate(
        &self,
        production: u8,
        target: Occurrence,
        literal: i32,
        arguments: &Arguments<'_, PlanRow>,
    ) -> PlanFigure {
        // What argument k of the rule is, read as a scope, a type and a count; the blank where there is none. Each hands on the part that a rule takes:
        // with whole figures handed on, the function made room for twenty of them at each call, which took up to 1.8 times as long.
        let scope = |k: usize| -> Scope { arguments.value::<PlanFigure>(k).scope() };
        let type_of = |k: usize| -> PlanType { arguments.value::<PlanFigure>(k).type_of() };
        let count = |k: usize| -> u16 { arguments.value::<PlanFigure>(k).count() };
        match (production, target.place, target.attribute) {
            (PLAN | BLOCK, FIRST, STEP_IN) => PlanFigure::Scope(Scope::EMPTY),
            (PLAN, FIRST, STEP_ENV) => PlanFigure::Scope(scope(0)),
            (PLAN, OWN, PLAN_BAD) => PlanFigure::Count(count(0)),
            (STEP_HOLE, OWN, STEP_OUT) => PlanFigure::Scope(scope(0)),
            (STEP_HOLE, OWN, STEP_BAD) => PlanFigure::Count(0),
            (TERM_HOLE, OWN, TERM_TYPE) => PlanFigure::Type(PlanType::Unknown),
            (TERM_HOLE, OWN, TERM_BAD) => PlanFigure::Count(0),
            (CHAIN, FIRST | SECOND, STEP_IN | STEP_ENV) => PlanFigure::Scope(scope(0)),
            (CHAIN, OWN, STEP_OUT) => PlanFigure::Scope(scope(0)),
            (CHAIN, OWN, STEP_BAD) => PlanFigure::Count(count(0).saturating_add(count(1))),
            (DECLARATION, FIRST, TERM_ENV) => PlanFigure::Scope(scope(0)),
            (DECLARATION, OWN, STEP_OUT) => PlanFigure::Scope(scope_after(scope(0), literal)),
            (DECLARATION, OWN, STEP_BAD) => PlanFigure::Count(declaration_bad(
                type_of(0),
                count(1),
                literal,
            )),
            (BLOCK, FIRST, STEP_ENV) => PlanFigure::Scope(scope(0).over(scope(1))),
            (BLOCK, OWN, STEP_OUT) => PlanFigure::Scope(scope(0)),
            (BLOCK, OWN, STEP_BAD) => PlanFigure::Count(count(0)),
            (NUMBER, OWN, TERM_TYPE) => PlanFigure::Type(PlanType::Number),
            (NUMBER, OWN, TERM_BAD) => PlanFigure::Count(0),
            (NAME, OWN, TERM_TYPE) => PlanFigure::Type(type_of_name(scope(0), literal)),
            (NAME, OWN, TERM_BAD) => {
                let found = type_of_name(scope(0), literal);
                PlanFigure::Count(u16::from(found == PlanType::Unknown))
            }
            (LESS, FIRST | SECOND, TERM_ENV) => PlanFigure::Scope(scope(0)),
            (LESS, OWN, TERM_TYPE) => PlanFigure::Type(PlanType::Truth),
            (LESS, OWN, TERM_BAD) => PlanFigure::Count(comparison_bad(
                type_of(0),
                type_of(1),
                count(2),
                count(3),
            )),
            _ => PlanFigure::blank(),
        }
    }

    fn pieces(&self, production: u8) -> &[Piece] {
        match production {
            PLAN => &[Piece::Child(1)],
            STEP_HOLE => &[Piece::Fixed(b"~")],
            TERM_HOLE => &[Piece::Fixed(b"_")],
            CHAIN => &[Piece::Child(1), Piece::Fixed(b";"), Piece::Child(2)],
            DECLARATION => &[
                Piece::Fixed(b"let "),
                Piece::Literal,
                Piece::Fixed(b"="),
                Piece::Child(1),
            ],
            BLOCK => &[Piece::Fixed(b"{"), Piece::Child(1), Piece::Fixed(b"}")],
            NUMBER => &[Piece::Literal],
            NAME => &[Piece::Fixed(b"v"), Piece::Literal],
            LESS => &[
                Piece::Fixed(b"("),
                Piece::Child(1),
                Piece::Fixed(b"<"),
                Piece::Child(2),
                Piece::Fixed(b")"),
            ],
            _ => &[],
        }
    }
}
