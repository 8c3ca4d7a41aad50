// What a figure of a price formula says: a number, or the trouble that stands in its place.
ghost use Rattle.std.specs.Prelude.{◌≡◌};
ghost use Rattle.formula.specs.Readings.{trouble_number, numbered_trouble, in_range};

#[derive(Clone, Copy, PartialEq, Eq)]
pub enum Trouble {
    Blank,
    Hole,
    OutOfRange,
    ZeroDivisor,
    NothingBound,
}

// A trouble is the error of a reading, so that `?` hands it on.
pub type Reading = Result<i32, Trouble>;

// The largest number; the smallest is its opposite.
pub const LARGEST: i64 = 1_000_000_000;

// Whether a number lies in the range of figures and literals.
pub fn in_range(number: i64) -> bool
    ensures { result ≡ in_range number }
{
    (-LARGEST..=LARGEST).contains(&number)
}

// A number that no trouble goes by.
#[derive(Clone, Copy, PartialEq, Eq)]
pub struct UnknownTrouble(pub u8);

// The number that a trouble goes by.
impl From<Trouble> for u8 {
    ghost from_gives = { λ trouble number. number ≡ trouble_number trouble };

    fn from(trouble: Trouble) -> u8 {
        trouble as u8
    }
}

// The trouble that goes by a number.
impl TryFrom<u8> for Trouble {
    type Error = UnknownTrouble;

    ghost try_from_gives = { λ number outcome. outcome ≡ numbered_trouble number };

    fn try_from(number: u8) -> Result<Trouble, UnknownTrouble> {
        match number {
            0 => Ok(Trouble::Blank),
            1 => Ok(Trouble::Hole),
            2 => Ok(Trouble::OutOfRange),
            3 => Ok(Trouble::ZeroDivisor),
            4 => Ok(Trouble::NothingBound),
            _ => Err(UnknownTrouble(number)),
        }
    }
}
