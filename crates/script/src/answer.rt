// Answers: what a call is answered, and how it is printed.
ghost use Rattle.std.specs.Prelude.{◌≡◌, Some};
ghost use Rattle.script.specs.Answers.{answer_text, test_answer};

use crate::call::Reason;
use circularity::Passes;
use circularity::fault::{Fault, LanguageFault, Refusal};
use std::fmt;

#[derive(Clone, Copy, PartialEq, Eq)]
pub enum Answer {
    Done,
    Passes(u16),
    Refused(Refusal),
    NotAccepted(Reason),
    NoSheet,
}

impl fmt::Display for Answer {
    ghost output = { λ answer. Some (answer_text answer) };

    fn fmt<W: fmt::Write>(&self, f: &mut fmt::Formatter<W>) -> fmt::Result {
        match self {
            Answer::Done => write!(f, "ok"),
            Answer::Passes(relations) => write!(f, "passes {relations}"),
            Answer::Refused(refusal) => write!(f, "{refusal}"),
            Answer::NotAccepted(reason) => write!(f, "not accepted: {reason}"),
            Answer::NoSheet => write!(f, "no sheet"),
        }
    }
}

// The answer of the test of circularity.
impl From<Result<Passes, LanguageFault>> for Answer {
    ghost from_gives = { λ verdict answer. answer ≡ test_answer verdict };

    fn from(verdict: Result<Passes, LanguageFault>) -> Answer {
        match verdict {
            Ok(passes) => Answer::Passes(passes.relations),
            Err(fault) => Answer::Refused(fault.refusal()),
        }
    }
}
