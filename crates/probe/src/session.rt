// The probe's sessions: which languages they work in.
ghost use Rattle.std.specs.Prelude.{◌≡◌};
ghost use Rattle.probe.specs.Session.{choice, grammar_of};

use formula::Formula;
use plan::{AlteredPlan, Plan};
use script::answer::Answer;
use script::call::{LanguageName, Reason};
use script::session::Program;
use script::testing::tested;

// A language is chosen once, but that a session goes from the plan to the altered plan and back.
pub struct Probe;

impl Program for Probe {
    type Language = LanguageName;

    ghost choice = { choice };

    ghost grammar = { grammar_of };

    fn choose(chosen: Option<LanguageName>, name: LanguageName) -> Result<LanguageName, Reason>
        ensures { result ≡ choice chosen name }
    {
        match (chosen, name) {
            (None, _)
            | (Some(LanguageName::Plan), LanguageName::Altered)
            | (Some(LanguageName::Altered), LanguageName::Plan) => Ok(name),
            _ => Err(Reason::LanguageChosen),
        }
    }

    fn test(language: LanguageName) -> Answer {
        match language {
            LanguageName::Formula => tested(&Formula),
            LanguageName::Plan => tested(&Plan),
            LanguageName::Altered => tested(&AlteredPlan),
        }
    }
}
