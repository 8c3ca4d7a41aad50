// Faults of the edit layer. A fault of a lower layer travels whole inside.
ghost use Rattle.std.specs.Prelude.{◌≡◌};
ghost use Rattle.edit.specs.declared.fault.EditFault.TheVariants.{Table};
ghost use Rattle.edit.specs.Faults.{number_of, layer_of, named_by};

use circularity::fault::{Fault, Layer, Named};
use table::fault::TableFault;

// The clipping is none of this table; the node is a hole where none may be, or none where one must be; the symbols do not fit; the literal
// is not accepted; or too few nodes are free.
#[derive(Clone, Copy, PartialEq, Eq)]
pub enum EditFault {
    Table(TableFault),
    NoClipping,
    WrongPlace(u16),
    WrongSymbol(u16),
    LiteralRefused(u16),
    TooFewNodes(u16),
}

impl Fault for EditFault {
    ghost number_is = { number_of };

    ghost layer_is = { layer_of };

    ghost names_what = { named_by };

    fn number(self) -> u8 {
        match self {
            EditFault::Table(fault) => fault.number(),
            EditFault::NoClipping => 5,
            EditFault::WrongPlace(_) => 7,
            EditFault::WrongSymbol(_) => 8,
            EditFault::LiteralRefused(_) => 9,
            EditFault::TooFewNodes(_) => 10,
        }
    }

    fn layer(self) -> Layer {
        match self {
            EditFault::Table(fault) => fault.layer(),
            EditFault::NoClipping
            | EditFault::WrongPlace(_)
            | EditFault::WrongSymbol(_)
            | EditFault::LiteralRefused(_)
            | EditFault::TooFewNodes(_) => Layer::Edit,
        }
    }

    fn names(self) -> Option<Named> {
        match self {
            EditFault::Table(fault) => fault.names(),
            EditFault::NoClipping => None,
            EditFault::WrongPlace(node)
            | EditFault::WrongSymbol(node)
            | EditFault::LiteralRefused(node)
            | EditFault::TooFewNodes(node) => Some(Named::Node(node)),
        }
    }
}

impl From<TableFault> for EditFault {
    ghost from_gives = { λ e r. r ≡ Table e };

    fn from(fault: TableFault) -> EditFault {
        EditFault::Table(fault)
    }
}
