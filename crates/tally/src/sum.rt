// The figure of tallies: a number from 0 to 9,999. There is no figure outside.
ghost use Rattle.std.specs.Prelude.{◌≡◌, T, ◌+◌};
ghost use Rattle.tally.specs.Range.{in_range, capped, literal_number};

#[derive(Clone, Copy, PartialEq, Eq)]
pub struct Sum {
    pub value: u16,
    ghost within: { T (in_range value) },
}

// The largest figure.
pub const LARGEST: u16 = 9_999;

impl Sum {
    // The figure of a number, the largest for a larger one.
    pub fn capped(number: u32) -> Sum
        ensures { result.value ≡ capped number }
    {
        Sum {
            value: number.min(u32::from(LARGEST)) as u16,
        }
    }

    // This figure with a literal added; a negative literal, which is accepted nowhere, adds nothing.
    pub fn plus(self, literal: i32) -> Sum
        ensures { result.value ≡ capped (self.value + literal_number literal) }
    {
        Sum::capped(u32::from(self.value) + u32::try_from(literal).unwrap_or(0))
    }
}
