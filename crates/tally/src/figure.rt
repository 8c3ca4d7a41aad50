// The kind of figure: what a sum means, and the row in which it lies in memory.
ghost use Rattle.std.specs.Prelude.{◌≡◌, true};
ghost use Rattle.tally.specs.Figures.{value_of, read};

use crate::sum::{LARGEST, Sum};
use grammar::Figure;

impl Figure for Sum {
    type Meaning = u16;

    type Row = u16;

    ghost means = { value_of };

    ghost reads = { read };

    ghost nothing = { 0 };

    fn blank() -> Sum {
        Sum { value: 0 }
    }

    fn same(self, other: Sum) -> bool {
        self == other
    }

    fn load(row: u16) -> Sum {
        if row <= LARGEST {
            Sum { value: row }
        } else {
            Sum::blank()
        }
    }

    fn store(self) -> u16 {
        self.value
    }
}
