// Tables of nodes: their records, when they form a sheet, which nodes are on it, and what calls on them check first.
#![tactic(auto)]

pub mod checks;
pub mod climb;
pub mod fault;
pub mod node;
mod record_test;
pub mod sheet_test;
pub mod stack;
pub mod trees;

pub use checks::{View, check_buffer, check_memory};
pub use climb::{Table, is_clipping_root, is_used};
pub use fault::TableFault;
pub use node::{NONE, Node};
pub use sheet_test::is_hole;
pub use stack::Stack;
