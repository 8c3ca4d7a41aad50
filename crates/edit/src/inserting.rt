// Insert: a hole becomes a production with a literal, over new holes.
ghost use Rattle.std.specs.Prelude.{◌≡◌, ◌<◌, length, slice_set};
ghost use Rattle.table.specs.Nodes.{at as record_at};
ghost use Rattle.edit.specs.Memory.{Blanked};
ghost use Rattle.edit.specs.Fresh.{with_production};
ghost use Rattle.edit.specs.Planting.{Roomy};
ghost use Rattle.edit.specs.Calls.{InsertCall};

use crate::checks::check_insert;
use crate::fault::EditFault;
use crate::records::put_holes;
use crate::rows::blank_node;
use grammar::Language;
use table::{Node, View};

// Gives a node another production, literal and children. That the node lies in the table is asked for: a type that carries it would be made for this call.
fn set_production(nodes: &mut [Node], n: u16, production: u8, literal: i32, children: [u16; 3])
    requires { n < length nodes.old }
    ensures { nodes.new ≡ slice_set nodes.old n (with_production (record_at nodes.old n) production literal children) }
{
    nodes[n as usize] = Node {
        production,
        literal,
        children,
        ..nodes[n as usize]
    };
}

// Makes the values of some nodes blank.
fn blank_nodes<L: Language>(values: &mut [L::Row], nodes: &[u16])
    requires { Roomy (length values.old) (length nodes.now) nodes.now }
    ensures { Blanked (λ row. L.Value.Figure.means (L.Value.Figure.reads row)) L.Value.Figure.nothing nodes.now values.old values.new }
{
    for n in nodes {
        blank_node::<L>(values, *n);
    }
}

// Turns a hole on the sheet into a production of its symbol with a literal; its children are new holes.
pub fn insert<L: Language>(
    language: &L,
    nodes: &mut [Node],
    values: &mut [L::Row],
    n: u16,
    production: u8,
    literal: i32,
) -> Result<(), EditFault>
    ensures { InsertCall (L.grammar language.now) (λ row. L.Value.Figure.means (L.Value.Figure.reads row)) L.Value.Figure.nothing nodes.old values.old nodes.new values.new n production literal result }
{
    let at = check_insert(
        View {
            language,
            nodes,
            values: values.len(),
        },
        n,
        production,
        literal,
    )?;
    let symbols = language.children(production);
    set_production(nodes, n, production, literal, at);
    put_holes(nodes, symbols, n, &at);
    blank_nodes::<L>(values, &at[..symbols.len()]);
    Ok(())
}
