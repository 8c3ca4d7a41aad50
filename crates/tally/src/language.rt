// The language of tallies: the table's answers, the rules, and the texts.
ghost use Rattle.std.specs.Prelude.{◌≡◌};
ghost use Rattle.tally.specs.Table.{tally_grammar, operation_of, tally_rule, tally_text};
ghost use Rattle.tally.specs.Keeping.{tally_limits};

use crate::operation::Operation;
use crate::sum::Sum;
use grammar::{Arguments, Language, Occurrence, Piece};

#[derive(Clone, Copy)]
pub struct Tally;

// The symbol of items, by its number in the interface; that of sheets is 0.
const ITEM: u8 = 1;

// The productions: numbers and no enum, since each question answers for every byte.
const SHEET: u8 = 0;

const HOLE: u8 = 1;

const AMOUNT: u8 = 2;

const PAIR: u8 = 3;

// What the rules take: what was counted before the production, and after its children.
const BEFORE: Occurrence = Occurrence {
    place: 0,
    attribute: 0,
};

const AFTER_FIRST: Occurrence = Occurrence {
    place: 1,
    attribute: 1,
};

const AFTER_SECOND: Occurrence = Occurrence {
    place: 2,
    attribute: 1,
};

// The operation of the rule for a target, by production, place and attribute.
fn operation(production: u8, target: Occurrence) -> Operation
    ensures { result ≡ operation_of production target.place target.attribute }
{
    match (production, target.place, target.attribute) {
        (SHEET, 0, 0) => Operation::Same,
        (SHEET, 1, 0) => Operation::Nothing,
        (HOLE, 0, 1) => Operation::Same,
        (AMOUNT, 0, 1) => Operation::PlusLiteral,
        (PAIR, 1 | 2, 0) => Operation::Same,
        (PAIR, 0, 1) => Operation::Same,
        _ => Operation::Nothing,
    }
}

impl Language for Tally {
    type Meaning = u16;

    type Row = u16;

    type Value = Sum;

    ghost grammar = { λ tally. tally_grammar };

    ghost rule = { λ tally. tally_rule };

    ghost text = { λ tally. tally_text };

    ghost limits = { λ tally. tally_limits };

    fn symbols(&self) -> u8 {
        2
    }

    fn productions(&self) -> u8 {
        4
    }

    fn inherited(&self, symbol: u8) -> u8 {
        match symbol {
            ITEM => 1,
            _ => 0,
        }
    }

    fn synthesized(&self, symbol: u8) -> u8 {
        match symbol {
            0 | ITEM => 1,
            _ => 0,
        }
    }

    fn symbol(&self, production: u8) -> u8 {
        match production {
            SHEET => 0,
            _ => ITEM,
        }
    }

    fn children(&self, production: u8) -> &[u8] {
        match production {
            SHEET => &[ITEM],
            PAIR => &[ITEM, ITEM],
            _ => &[],
        }
    }

    fn accepts(&self, production: u8, literal: i32) -> bool {
        match production {
            AMOUNT => (0..=999).contains(&literal),
            _ => literal == 0,
        }
    }

    fn arguments(&self, production: u8, target: Occurrence) -> &[Occurrence] {
        match (production, target.place, target.attribute) {
            (SHEET, 0, 0) => &[AFTER_FIRST],
            (HOLE | AMOUNT, 0, 1) => &[BEFORE],
            (PAIR, 1, 0) => &[BEFORE],
            (PAIR, 2, 0) => &[AFTER_FIRST],
            (PAIR, 0, 1) => &[AFTER_SECOND],
            _ => &[],
        }
    }

    fn evaluate(
        &self,
        production: u8,
        target: Occurrence,
        literal: i32,
        arguments: &Arguments<'_, u16>,
    ) -> Sum {
        operation(production, target).apply(literal, arguments)
    }

    fn pieces(&self, production: u8) -> &[Piece] {
        match production {
            SHEET => &[Piece::Child(1)],
            HOLE => &[Piece::Fixed(b"_")],
            AMOUNT => &[Piece::Literal],
            PAIR => &[
                Piece::Fixed(b"("),
                Piece::Child(1),
                Piece::Fixed(b" "),
                Piece::Child(2),
                Piece::Fixed(b")"),
            ],
            _ => &[],
        }
    }
}
