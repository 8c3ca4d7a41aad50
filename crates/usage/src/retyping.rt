// A handle goes into a call and comes back out of it: an edit takes a settled one and answers an open one, or hands the settled one back.
use formula::{Formula, QuantityRow};
use sheet::{Open, Refused, Settled, retype};
use table::Node;

// Gives a node another literal.
pub fn retype_once(
    nodes: &mut [Node],
    values: &mut [QuantityRow],
    sheet: Settled,
    node: u16,
    literal: i32,
) -> Result<Open, Refused> {
    Ok(retype(&Formula, nodes, values, sheet, node, literal)?.sheet)
}

// Gives a node the first of two literals, or the second where the first is refused.
pub fn retype_or(
    nodes: &mut [Node],
    values: &mut [QuantityRow],
    sheet: Settled,
    node: u16,
    literals: (i32, i32),
) -> Result<Open, Refused> {
    match retype_once(nodes, values, sheet, node, literals.0) {
        Ok(sheet) => Ok(sheet),
        Err(refused) => retype_once(nodes, values, refused.sheet, node, literals.1),
    }
}
