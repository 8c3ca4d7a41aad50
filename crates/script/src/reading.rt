// Reading: which call a line makes.
ghost use Rattle.std.specs.Prelude.{◌≡◌};
ghost use Rattle.script.specs.Reading.{language_named, language_call, test_call, call_of, line_of};
ghost use Rattle.script.specs.Words.{words_left};

use crate::call::{Call, LanguageName, Reason};
use crate::words::Words;

impl TryFrom<&[u8]> for LanguageName {
    type Error = Reason;

    ghost try_from_gives = { λ name language. language ≡ language_named name.now };

    fn try_from(name: &[u8]) -> Result<LanguageName, Reason> {
        match name {
            b"formula" => Ok(LanguageName::Formula),
            b"plan" => Ok(LanguageName::Plan),
            b"altered" => Ok(LanguageName::Altered),
            _ => Err(Reason::UnknownLanguage),
        }
    }
}

fn language_call(mut arguments: Words) -> Result<Call, Reason>
    ensures { result ≡ language_call (words_left arguments.entry) }
{
    // The second word is looked for only behind a first one: the search goes through all blanks that are left.
    let Some(name) = arguments.next() else {
        return Err(Reason::WrongNumberOfWords);
    };
    match arguments.next() {
        None => Ok(Call::Language(name.try_into()?)),
        Some(_) => Err(Reason::WrongNumberOfWords),
    }
}

fn test_call(mut arguments: Words) -> Result<Call, Reason>
    ensures { result ≡ test_call (words_left arguments.entry) }
{
    match arguments.next() {
        None => Ok(Call::Test),
        Some(_) => Err(Reason::WrongNumberOfWords),
    }
}

fn call_of(name: &[u8], arguments: Words) -> Result<Call, Reason>
    ensures { result ≡ call_of name.now (words_left arguments.entry) }
{
    match name {
        b"language" => language_call(arguments),
        b"test" => test_call(arguments),
        _ => Err(Reason::UnknownCall),
    }
}

// The call that a line makes, or why it makes none; a blank line and a comment are passed over.
pub fn read_line(line: &[u8]) -> Option<Result<Call, Reason>>
    ensures { result ≡ line_of line.now }
{
    let mut words = Words::of(line);
    match words.next() {
        None | Some([b'#', ..]) => None,
        Some(name) => Some(call_of(name, words)),
    }
}
