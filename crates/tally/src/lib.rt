// Tallies: the smallest language behind the interface, and the model for a new one. A tally is a sheet of one item; an item is an amount
// or a pair of items, and carries a running total from its start to its end.
#![tactic(auto)]

mod figure;
mod language;
mod operation;
mod sum;
mod theorem;

pub use language::Tally;
pub use sum::Sum;
pub use theorem::tally_is_as_specified;
