// The row in which a figure of price formulas lies in memory, and the figure that each row reads as.
ghost use Rattle.std.specs.Prelude.{◌≡◌, true};
ghost use Rattle.formula.specs.Readings.{blank};
ghost use Rattle.formula.specs.Rows.{reading_of, read};

use crate::quantity::Quantity;
use crate::reading::{Reading, Trouble, in_range};
use grammar::Figure;

// A plain type: a number or a trouble's number, and what lies outside their ranges reads as the blank. Any byte
// may stand in lent memory, so a `Result` here would have a bare number for its error.
#[derive(Clone, Copy)]
pub enum QuantityRow {
    Number(i32),
    Trouble(u8),
}

impl Figure for Quantity {
    type Meaning = Reading;

    type Row = QuantityRow;

    ghost means = { reading_of };

    ghost reads = { read };

    ghost nothing = { blank };

    fn blank() -> Quantity {
        Quantity::trouble(Trouble::Blank)
    }

    fn same(self, other: Quantity) -> bool {
        self == other
    }

    fn load(row: QuantityRow) -> Quantity {
        match row {
            QuantityRow::Number(number) if in_range(i64::from(number)) => Quantity::number(number),
            QuantityRow::Number(_) => Quantity::blank(),
            QuantityRow::Trouble(number) => Quantity::trouble(Trouble::try_from(number).unwrap_or(
                Trouble::Blank,
            )),
        }
    }

    fn store(self) -> QuantityRow {
        match self.reading {
            Ok(number) => QuantityRow::Number(number),
            Err(trouble) => QuantityRow::Trouble(u8::from(trouble)),
        }
    }
}
