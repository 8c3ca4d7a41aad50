// The editor's sessions: which languages they work in.
ghost use Rattle.std.specs.Prelude.{◌≡◌};
ghost use Rattle.editor.specs.Session.{choice, grammar_of};

use formula::Formula;
use plan::Plan;
use script::answer::Answer;
use script::call::{LanguageName, Reason};
use script::session::Program;
use script::testing::tested;

// The languages of the editor.
#[derive(Clone, Copy, PartialEq, Eq)]
pub enum Language {
    Formula,
    Plan,
}

// A language is chosen once, and there is no altered plan.
pub struct Editor;

impl Program for Editor {
    type Language = Language;

    ghost choice = { choice };

    ghost grammar = { grammar_of };

    fn choose(chosen: Option<Language>, name: LanguageName) -> Result<Language, Reason>
        ensures { result ≡ choice chosen name }
    {
        match (chosen, name) {
            (_, LanguageName::Altered) => Err(Reason::UnknownLanguage),
            (Some(_), _) => Err(Reason::LanguageChosen),
            (None, LanguageName::Formula) => Ok(Language::Formula),
            (None, LanguageName::Plan) => Ok(Language::Plan),
        }
    }

    fn test(language: Language) -> Answer {
        match language {
            Language::Formula => tested(&Formula),
            Language::Plan => tested(&Plan),
        }
    }
}
