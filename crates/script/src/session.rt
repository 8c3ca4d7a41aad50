// Sessions: a conversation that works in one language, once the script has chosen it.
ghost use Rattle.std.specs.Prelude.{◌≡◌, Option, None, Result};
ghost use Rattle.grammar.specs.Grammar.{Grammar};
ghost use Rattle.script.specs.declared.answer.Answer.TheVariants.{NoSheet};
ghost use Rattle.script.specs.declared.call.LanguageName.{LanguageName as NameOf};
ghost use Rattle.script.specs.declared.call.Reason.{Reason as ReasonOf};
ghost use Rattle.script.specs.Session.{TestedIn, Answered};
ghost use Rattle.script.specs.Testing.{Tested};

use crate::answer::Answer;
use crate::call::{Call, LanguageName, Reason};
use crate::conversation::Conversation;

// A program: which languages its sessions work in, and which they go to.
pub trait Program {
    type Language: Copy;

    // the language that a session works in once a name is asked for, or why it stays where it is
    ghost choice: { Option Self.Language → NameOf → Result Self.Language ReasonOf };

    // the table of each of its languages
    ghost grammar: { Self.Language → Grammar };

    fn choose(chosen: Option<Self::Language>, name: LanguageName) -> Result<Self::Language, Reason>
        ensures { result ≡ choice chosen name };

    fn test(language: Self::Language) -> Answer
        ensures { Tested (grammar language) result };
}

// A session of a program: the language that it works in, where one is chosen.
#[derive(Drop)]
pub struct Session<P: Program> {
    language: Option<P::Language>,
}

impl<P: Program> Session<P> {
    pub fn new() -> Session<P>
        ensures { result.language ≡ None }
    {
        Session { language: None }
    }

    fn test(&self) -> Answer
        ensures { TestedIn P.grammar self.now.language result }
    {
        match self.language {
            None => Answer::NotAccepted(Reason::NoLanguage),
            Some(language) => P::test(language),
        }
    }
}

impl<P: Program> Conversation for Session<P> {
    ghost answers = { λ before call answer after. Answered P.choice P.grammar before.language call answer after.language };

    ghost closing = { λ _. NoSheet };

    fn answer(&mut self, call: Call) -> Answer {
        match call {
            Call::Language(name) => match P::choose(self.language, name) {
                Ok(language) => {
                    self.language = Some(language);
                    Answer::Done
                }
                Err(reason) => Answer::NotAccepted(reason),
            },
            Call::Test => self.test(),
        }
    }

    fn close(&self) -> Answer {
        Answer::NoSheet
    }
}
