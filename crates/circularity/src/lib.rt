// Knuth's test of circularity, for every language behind the interface.
#![tactic(auto)]

ghost use Rattle.std.specs.Prelude.{ℕ};
ghost use Rattle.circularity.specs.Verdict.{Verdict, VerdictLaws};

pub mod fault;
mod graph;
mod relations;

use fault::LanguageFault;
use grammar::Language;
use graph::Production;
use relations::Relations;

// The answer of a passed test: how many different relations each symbol's trees have, added over all symbols.
#[derive(Clone, Copy, PartialEq, Eq)]
pub struct Passes {
    pub relations: u16,
}

// The test. It passes exactly the languages that are not circular; of a circular one it names a production that roots a tree
// with a cycle through one of the root's own rules. All relations are found first, whether there is a cycle or not; then the
// productions are tried in turn.
pub fn test<L: Language>(language: &L) -> Result<Passes, LanguageFault>
    ensures { Verdict (L.grammar language.now) result }
{
    let found = Relations::saturated(language);
    // By `find` the closure would have to ask that the production exists, and the proof of that did not close.
    for number in 0..language.productions() {
        let production = Production { language, number };
        if found.try_production(&production).cyclic {
            return Err(LanguageFault::Circularity(number));
        }
    }
    Ok(Passes {
        relations: found.count(language),
    })
}

// Two verdicts on one table agree: a pass and a fault exclude each other, and there is one count. The function does nothing; its
// contract is the theorem.
pub fn verdicts_agree()
    ensures { VerdictLaws }
{}
