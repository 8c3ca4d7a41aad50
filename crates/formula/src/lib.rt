// Price formulas: a language of sums, differences, products, quotients, choices and bindings, behind the interface of languages.
#![tactic(auto)]

pub mod language;
pub mod meaning;
mod operation;
pub mod quantity;
pub mod reading;
mod rules;

pub use language::Formula;
pub use quantity::Quantity;
pub use quantity::row::QuantityRow;
pub use reading::{Reading, Trouble, UnknownTrouble};
