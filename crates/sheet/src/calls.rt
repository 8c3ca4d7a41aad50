// Make, insert and retype.
ghost use Rattle.sheet.specs.Handled.{MakeHandled, InsertHandled, RetypeHandled};

use crate::answer::{Inserted, Made, Refused, Retyped};
use crate::handle::{Open, Settled};
use edit::{EditFault, OpenedBy};
use grammar::Language;
use table::Node;

// Makes a sheet of all nodes and values, whatever they held.
pub fn make<L: Language>(
    language: &L,
    nodes: &mut [Node],
    values: &mut [L::Row],
) -> Result<Made, EditFault>
    ensures { MakeHandled (L.grammar language.now) (λ row. L.Value.Figure.means (L.Value.Figure.reads row)) L.Value.Figure.nothing nodes.old values.old nodes.new values.new result }
{
    edit::make(language, nodes, values)?;
    Ok(Made {
        sheet: Open {
            call: OpenedBy::Make,
            node: 0,
        },
    })
}

// Turns a hole on the sheet into a production of its symbol with a literal; its children are new holes.
pub fn insert<L: Language>(
    language: &L,
    nodes: &mut [Node],
    values: &mut [L::Row],
    sheet: Settled,
    node: u16,
    production: u8,
    literal: i32,
) -> Result<Inserted, Refused>
    ensures { InsertHandled (L.grammar language.now) (λ row. L.Value.Figure.means (L.Value.Figure.reads row)) L.Value.Figure.nothing nodes.old values.old nodes.new values.new node production literal result }
{
    edit::insert(language, nodes, values, node, production, literal).map_err(|fault| Refused {
        sheet,
        fault,
    })?;
    Ok(Inserted {
        sheet: Open {
            call: OpenedBy::Insert,
            node,
        },
    })
}

// Gives a node on the sheet another literal, which its production must accept.
pub fn retype<L: Language>(
    language: &L,
    nodes: &mut [Node],
    values: &mut [L::Row],
    sheet: Settled,
    node: u16,
    literal: i32,
) -> Result<Retyped, Refused>
    ensures { RetypeHandled (L.grammar language.now) (λ row. L.Value.Figure.means (L.Value.Figure.reads row)) L.Value.Figure.nothing nodes.old values.old nodes.new values.new node literal result }
{
    edit::retype(language, nodes, values, node, literal).map_err(|fault| Refused { sheet, fault })?;
    Ok(Retyped {
        sheet: Open {
            call: OpenedBy::Retype,
            node,
        },
    })
}
