// The figure of price formulas: a reading whose number, where it is one, lies in the range. There is no figure outside.
ghost use Rattle.std.specs.Prelude.{◌≡◌, T};
ghost use Rattle.formula.specs.Readings.{lawful, number_or_trouble, as_reading};

pub mod row;

use crate::reading::{Reading, Trouble, in_range};

#[derive(Clone, Copy, PartialEq, Eq)]
pub struct Quantity {
    reading: Reading,
    ghost within: { T (lawful reading) },
}

impl Quantity {
    // What the figure says.
    pub fn reading(self) -> Reading
        ensures { result ≡ self.reading }
    {
        self.reading
    }

    // The figure of a number, trouble where the number lies outside the range.
    pub fn number(number: i32) -> Quantity
        ensures { result.reading ≡ number_or_trouble number }
    {
        Quantity::from(Ok(i64::from(number)))
    }

    // The figure of a trouble.
    pub fn trouble(trouble: Trouble) -> Quantity
        ensures { result.reading ≡ Err trouble }
    {
        Quantity {
            reading: Err(trouble),
        }
    }
}

// The figure of what comes of a computation: a number outside the range is trouble.
impl From<Result<i64, Trouble>> for Quantity {
    ghost from_gives = { λ outcome quantity. quantity.reading ≡ as_reading outcome };

    fn from(outcome: Result<i64, Trouble>) -> Quantity {
        match outcome {
            Ok(number) if in_range(number) => Quantity {
                reading: Ok(number as i32),
            },
            Ok(_) => Quantity::trouble(Trouble::OutOfRange),
            Err(trouble) => Quantity::trouble(trouble),
        }
    }
}
