// Faults of the table layer. One of the language layer travels whole inside, and keeps its number, its layer and what it names.
ghost use Rattle.std.specs.Prelude.{◌≡◌};
ghost use Rattle.table.specs.declared.fault.TableFault.TheVariants.{Language};
ghost use Rattle.table.specs.Faults.{number_of, layer_of, named_by};

use circularity::fault::{Fault, LanguageFault, Layer, Named};

// The lent memory has no fitting size, the nodes form no sheet, the output buffer is too short, or the node named is not on the sheet.
#[derive(Clone, Copy, PartialEq, Eq)]
pub enum TableFault {
    Language(LanguageFault),
    Size,
    NoSheet,
    Buffer,
    NotOnSheet(u16),
}

impl Fault for TableFault {
    ghost number_is = { number_of };

    ghost layer_is = { layer_of };

    ghost names_what = { named_by };

    fn number(self) -> u8 {
        match self {
            TableFault::Language(fault) => fault.number(),
            TableFault::Size => 2,
            TableFault::NoSheet => 3,
            TableFault::Buffer => 4,
            TableFault::NotOnSheet(_) => 6,
        }
    }

    fn layer(self) -> Layer {
        match self {
            TableFault::Language(fault) => fault.layer(),
            TableFault::Size
            | TableFault::NoSheet
            | TableFault::Buffer
            | TableFault::NotOnSheet(_) => Layer::Table,
        }
    }

    fn names(self) -> Option<Named> {
        match self {
            TableFault::Language(fault) => fault.names(),
            TableFault::NotOnSheet(node) => Some(Named::Node(node)),
            TableFault::Size | TableFault::NoSheet | TableFault::Buffer => None,
        }
    }
}

impl From<LanguageFault> for TableFault {
    ghost from_gives = { λ e r. r ≡ Language e };

    fn from(value: LanguageFault) -> TableFault {
        TableFault::Language(value)
    }
}
