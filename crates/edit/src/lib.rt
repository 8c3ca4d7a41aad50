// The work of the calls that change a sheet, on records and rows: make, insert, cut, paste, exchange, retype and discard.
// Records and rows are two slices that the caller lends, and stay two parameters: a struct of both, lent for writing, could be left holding other slices,
// and each contract would have to say that it is not. What a row means stands in the clauses by two members of the figure's bound; as a third, each
// language's figure would have to give it once more.
#![tactic(auto)]

mod checks;
mod clipping_checks;
mod cutting;
mod discarding;
mod exchanging;
pub mod fault;
mod fresh;
mod hang;
mod inserting;
mod making;
pub mod opened;
mod pasting;
mod records;
mod retyping;
mod rows;

pub use cutting::cut;
pub use discarding::discard;
pub use exchanging::exchange;
pub use fault::EditFault;
pub use inserting::insert;
pub use making::make;
pub use opened::OpenedBy;
pub use pasting::paste;
pub use retyping::retype;
