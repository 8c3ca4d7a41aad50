// Trials: a call on a copy of lent memory, without handles, and how much of the memory differs after it. For tests.
#![tactic(auto)]

pub mod call;
pub mod trial;

pub use call::Call;
pub use trial::{Lent, Outcome, tried};
