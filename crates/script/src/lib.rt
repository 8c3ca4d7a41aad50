// Scripts: the calls that a line of a script makes, and the lines that answer them.
#![tactic(auto)]

ghost use Rattle.std.specs.Prelude.{ℕ};

pub mod answer;
pub mod call;
pub mod conversation;
pub mod printing;
pub mod reading;
pub mod session;
pub mod testing;
pub mod words;
