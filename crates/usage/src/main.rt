// How a program uses handles and clippings. The edits in misuse/ misuse them, one each, and the types refuse every one.
#![tactic(auto)]

mod moving;
mod retyping;

use circularity::fault::Fault;
use formula::{Formula, Quantity};
use grammar::Figure;
use sheet::make;
use table::Node;

// Makes a sheet on sixteen nodes, and prints what its handle keeps.
fn main(rt: HostRuntime) -> anyhow::Result<()> {
    let mut nodes = vec![in rt.alloc(); Node::FREE; 16]?;
    let mut values = vec![in rt.alloc(); Quantity::blank().store(); 64]?;
    match make(&Formula, &mut nodes, &mut values) {
        Ok(made) => {
            let call = made.sheet.call();
            let node = made.sheet.node();
            println!(rt; "open {call} {node}")?;
        }
        Err(fault) => {
            let number = fault.number();
            println!(rt; "refused {number}")?;
        }
    }
    Ok(())
}
