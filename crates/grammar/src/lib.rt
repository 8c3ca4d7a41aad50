// The interface that every language stands behind: what a figure is, what a language is, and how a rule gets its arguments.
#![tactic(auto)]

pub mod figure;
pub mod language;

pub use figure::{Arguments, Figure};
pub use language::{Language, Occurrence, Piece};
