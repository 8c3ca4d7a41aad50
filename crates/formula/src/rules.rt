// What the rules of price formulas compute: each is a small function of figures. Four have one shape, in two lines each; with the operation handed to
// one function as a closure, product and quotient got no proof.
ghost use Rattle.std.specs.Prelude.{◌≡◌};
ghost use Rattle.formula.specs.Readings.{as_reading};
ghost use Rattle.formula.specs.Rules.{numbers as numbers_of, sum as sum_of, difference as difference_of, product as product_of, quotient as quotient_of, choose as choice_of};

use crate::quantity::Quantity;
use crate::reading::Trouble;

// Both numbers, or the first trouble.
fn numbers(a: Quantity, b: Quantity) -> Result<(i64, i64), Trouble>
    ensures { result ≡ numbers_of a.reading b.reading }
{
    Ok((i64::from(a.reading()?), i64::from(b.reading()?)))
}

pub(crate) fn sum(a: Quantity, b: Quantity) -> Result<i64, Trouble>
    ensures { as_reading result ≡ sum_of a.reading b.reading }
{
    let (x, y) = numbers(a, b)?;
    Ok(x + y)
}

pub(crate) fn difference(a: Quantity, b: Quantity) -> Result<i64, Trouble>
    ensures { as_reading result ≡ difference_of a.reading b.reading }
{
    let (x, y) = numbers(a, b)?;
    Ok(x - y)
}

pub(crate) fn product(a: Quantity, b: Quantity) -> Result<i64, Trouble>
    ensures { as_reading result ≡ product_of a.reading b.reading }
{
    let (x, y) = numbers(a, b)?;
    Ok(x * y)
}

// The fraction is dropped toward zero.
pub(crate) fn quotient(a: Quantity, b: Quantity) -> Result<i64, Trouble>
    ensures { as_reading result ≡ quotient_of a.reading b.reading }
{
    let (x, y) = numbers(a, b)?;
    x.checked_div(y).ok_or(Trouble::ZeroDivisor)
}

pub(crate) fn choose(a: Quantity, b: Quantity, c: Quantity) -> Quantity
    ensures { result.reading ≡ choice_of a.reading b.reading c.reading }
{
    match a.reading() {
        Ok(n) if n <= 0 => c,
        Ok(_) => b,
        Err(_) => a,
    }
}
