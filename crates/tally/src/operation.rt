// The operations by which rules compute, and what each gives. An enum and no closures, since the table of rules names them and definitions speak of them.
ghost use Rattle.std.specs.Prelude.{◌≡◌};
ghost use Rattle.grammar.specs.Values.{meanings};
ghost use Rattle.tally.specs.Figures.{value_of, read};
ghost use Rattle.tally.specs.Operations.{gives};

use crate::sum::Sum;
use grammar::{Arguments, Figure};

#[derive(Clone, Copy)]
pub enum Operation {
    Nothing,
    Same,
    PlusLiteral,
}

impl Operation {
    // What the operation gives of a literal and of a rule's arguments.
    pub fn apply(self, literal: i32, arguments: &Arguments<'_, u16>) -> Sum
        ensures { result.value ≡ gives self literal (meanings value_of read 0 arguments.now.rows.now arguments.now.at.now) }
    {
        let first: Sum = arguments.value(0);
        match self {
            Operation::Nothing => Sum::blank(),
            Operation::Same => first,
            Operation::PlusLiteral => first.plus(literal),
        }
    }
}
