// The operations by which rules compute, and what each gives. An enum and no closures, since the table of rules names them and definitions speak of them.
ghost use Rattle.std.specs.Prelude.{◌≡◌};
ghost use Rattle.grammar.specs.Values.{meanings};
ghost use Rattle.formula.specs.Readings.{blank};
ghost use Rattle.formula.specs.Rows.{reading_of, read};
ghost use Rattle.formula.specs.Operations.{gives};

use crate::quantity::Quantity;
use crate::quantity::row::QuantityRow;
use crate::reading::Trouble;
use crate::rules;
use grammar::Arguments;

#[derive(Clone, Copy)]
pub enum Operation {
    Nothing,
    Unbound,
    Hole,
    Literal,
    Same,
    Sum,
    Difference,
    Product,
    Quotient,
    Choose,
}

impl Operation {
    // What the operation gives of a literal and of a rule's arguments.
    pub fn apply(self, literal: i32, arguments: &Arguments<'_, QuantityRow>) -> Quantity
        ensures { result.reading ≡ gives self literal (meanings reading_of read blank arguments.now.rows.now arguments.now.at.now) }
    {
        let argument = |k: usize| -> Quantity { arguments.value(k) };
        match self {
            Operation::Nothing => Quantity::trouble(Trouble::Blank),
            Operation::Unbound => Quantity::trouble(Trouble::NothingBound),
            Operation::Hole => Quantity::trouble(Trouble::Hole),
            Operation::Literal => Quantity::number(literal),
            Operation::Same => argument(0),
            Operation::Sum => rules::sum(argument(0), argument(1)).into(),
            Operation::Difference => rules::difference(argument(0), argument(1)).into(),
            Operation::Product => rules::product(argument(0), argument(1)).into(),
            Operation::Quotient => rules::quotient(argument(0), argument(1)).into(),
            Operation::Choose => rules::choose(argument(0), argument(1), argument(2)),
        }
    }
}
