// The language of session plans, and the altered plan, behind the interface of every language.
#![tactic(auto)]

pub mod altered;
pub mod figure;
pub mod language;
mod numbers;
mod rules;
mod scope;
pub mod theorems;

pub use altered::AlteredPlan;
pub use figure::{PlanFigure, PlanRow, PlanType};
pub use language::Plan;
pub use scope::Scope;
