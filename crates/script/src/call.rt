// The calls that a line of a script may make, and why a line makes none.
ghost use Rattle.std.specs.Prelude.{Some};
ghost use Rattle.script.specs.Answers.{reason_text};

use std::fmt;

// The languages that a script may choose.
#[derive(Clone, Copy, PartialEq, Eq)]
pub enum LanguageName {
    Formula,
    Plan,
    Altered,
}

#[derive(Clone, Copy, PartialEq, Eq)]
pub enum Call {
    Language(LanguageName),
    Test,
}

// Why a line is not accepted.
#[derive(Clone, Copy, PartialEq, Eq)]
pub enum Reason {
    UnknownCall,
    WrongNumberOfWords,
    UnknownLanguage,
    NoLanguage,
    LanguageChosen,
}

impl fmt::Display for Reason {
    ghost output = { λ reason. Some (reason_text reason) };

    fn fmt<W: fmt::Write>(&self, f: &mut fmt::Formatter<W>) -> fmt::Result {
        f.write_str(match self {
            Reason::UnknownCall => "unknown call",
            Reason::WrongNumberOfWords => "wrong number of words",
            Reason::UnknownLanguage => "unknown language",
            Reason::NoLanguage => "no language chosen",
            Reason::LanguageChosen => "language already chosen",
        })
    }
}
