// The test of a language, answered.
ghost use Rattle.script.specs.Testing.{Tested};

use crate::answer::Answer;
use circularity::test;
use grammar::Language;

// The answer of the test of a language.
pub fn tested<L: Language>(language: &L) -> Answer
    ensures { Tested (L.Language.grammar language.now) result }
{
    test(language).into()
}
