// The language of price formulas: the table, with the operation of each rule, and the text of each production.
ghost use Rattle.std.specs.Prelude.{◌≡◌};
ghost use Rattle.grammar.specs.Grammar.{arguments};
ghost use Rattle.formula.specs.Table.{formula_grammar, operation_of, formula_text, formula_rule};
ghost use Rattle.formula.specs.Keeping.{formula_limits};

use crate::operation::Operation;
use crate::quantity::Quantity;
use crate::quantity::row::QuantityRow;
use crate::reading::{Reading, in_range};
use grammar::{Arguments, Language, Occurrence, Piece};

#[derive(Clone, Copy)]
pub struct Formula;

// The productions: plain numbers, since the questions are asked of every byte and have an answer past the last production too.
const SHEET: u8 = 0;

const HOLE: u8 = 1;

const CONSTANT: u8 = 2;

const IT: u8 = 3;

const SUM: u8 = 4;

const DIFFERENCE: u8 = 5;

const PRODUCT: u8 = 6;

const QUOTIENT: u8 = 7;

const CHOOSE: u8 = 8;

const LET: u8 = 9;

// The symbols, by their numbers in the interface: sheets and expressions.
const S: u8 = 0;

const E: u8 = 1;

// The arguments of the rules: what an expression has bound to it, and the values of the children. An expression's attribute 0 is what is
// bound to it, and attribute 1 its value; a sheet's attribute 0 is its value.
const BOUND: Occurrence = Occurrence {
    place: 0,
    attribute: 0,
};

const A: Occurrence = Occurrence {
    place: 1,
    attribute: 1,
};

const B: Occurrence = Occurrence {
    place: 2,
    attribute: 1,
};

const C: Occurrence = Occurrence {
    place: 3,
    attribute: 1,
};

// The pieces that several texts have: the children, and the brackets of an operation on two.
const FIRST: Piece = Piece::Child(1);

const SECOND: Piece = Piece::Child(2);

const THIRD: Piece = Piece::Child(3);

const OPEN: Piece = Piece::Fixed(b"(");

const CLOSE: Piece = Piece::Fixed(b")");

// The rule for a target, by production, place and attribute: the operation by which it computes, and the arguments that it takes.
fn rule(production: u8, target: Occurrence) -> (Operation, &'static [Occurrence])
    ensures operation { result.0 ≡ operation_of production target.place target.attribute }
    ensures arguments { result.1.now ≡ arguments formula_grammar production target.place target.attribute }
{
    match (production, target.place, target.attribute) {
        (SHEET, 0, 0) => (Operation::Same, &[A]),
        (SHEET, 1, 0) => (Operation::Unbound, &[]),
        (HOLE, 0, 1) => (Operation::Hole, &[]),
        (CONSTANT, 0, 1) => (Operation::Literal, &[]),
        (IT, 0, 1) => (Operation::Same, &[BOUND]),
        (SUM, 0, 1) => (Operation::Sum, &[A, B]),
        (DIFFERENCE, 0, 1) => (Operation::Difference, &[A, B]),
        (PRODUCT, 0, 1) => (Operation::Product, &[A, B]),
        (QUOTIENT, 0, 1) => (Operation::Quotient, &[A, B]),
        (CHOOSE, 0, 1) => (Operation::Choose, &[A, B, C]),
        (LET, 0, 1) => (Operation::Same, &[B]),
        (LET, 2, 0) => (Operation::Same, &[A]),
        (SUM..=LET, 1 | 2, 0) | (CHOOSE, 3, 0) => (Operation::Same, &[BOUND]),
        _ => (Operation::Nothing, &[]),
    }
}

impl Language for Formula {
    type Meaning = Reading;

    type Row = QuantityRow;

    type Value = Quantity;

    ghost grammar = { λ _. formula_grammar };

    ghost rule = { λ _. formula_rule };

    ghost text = { λ _. formula_text };

    ghost limits = { λ _. formula_limits };

    fn symbols(&self) -> u8 {
        2
    }

    fn productions(&self) -> u8 {
        10
    }

    fn inherited(&self, symbol: u8) -> u8 {
        match symbol {
            E => 1,
            _ => 0,
        }
    }

    fn synthesized(&self, symbol: u8) -> u8 {
        match symbol {
            S | E => 1,
            _ => 0,
        }
    }

    fn symbol(&self, production: u8) -> u8 {
        match production {
            SHEET => S,
            _ => E,
        }
    }

    fn children(&self, production: u8) -> &[u8] {
        match production {
            SHEET => &[E],
            SUM..=QUOTIENT | LET => &[E, E],
            CHOOSE => &[E, E, E],
            _ => &[],
        }
    }

    fn accepts(&self, production: u8, literal: i32) -> bool {
        match production {
            CONSTANT => in_range(i64::from(literal)),
            _ => literal == 0,
        }
    }

    fn arguments(&self, production: u8, target: Occurrence) -> &[Occurrence] {
        let (_, arguments) = rule(production, target);
        arguments
    }

    fn evaluate(
        &self,
        production: u8,
        target: Occurrence,
        literal: i32,
        arguments: &Arguments<'_, QuantityRow>,
    ) -> Quantity {
        let (operation, _) = rule(production, target);
        operation.apply(literal, arguments)
    }

    fn pieces(&self, production: u8) -> &[Piece] {
        match production {
            SHEET => &[FIRST],
            HOLE => &[Piece::Fixed(b"_")],
            CONSTANT => &[Piece::Literal],
            IT => &[Piece::Fixed(b"it")],
            SUM => &[OPEN, FIRST, Piece::Fixed(b"+"), SECOND, CLOSE],
            DIFFERENCE => &[OPEN, FIRST, Piece::Fixed(b"-"), SECOND, CLOSE],
            PRODUCT => &[OPEN, FIRST, Piece::Fixed(b"*"), SECOND, CLOSE],
            QUOTIENT => &[OPEN, FIRST, Piece::Fixed(b"/"), SECOND, CLOSE],
            CHOOSE => &[
                Piece::Fixed(b"["),
                FIRST,
                Piece::Fixed(b"?"),
                SECOND,
                Piece::Fixed(b":"),
                THIRD,
                Piece::Fixed(b"]"),
            ],
            LET => &[
                Piece::Fixed(b"{"),
                FIRST,
                Piece::Fixed(b";"),
                SECOND,
                Piece::Fixed(b"}"),
            ],
            _ => &[],
        }
    }
}
