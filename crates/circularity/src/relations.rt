// The relations that each symbol's trees have, found by combining every production with every choice of the relations that its
// children's trees were found to have, until nothing new is found. A symbol's set of relations is a 16-bit mask.
ghost use Rattle.std.specs.Prelude.{◌≡◌, ℕ, ◌+◌, ◌<◌, ◌≤◌, length, sum_by, count_ones};
ghost use Rattle.circularity.specs.declared.graph.Outcome.{Outcome as OutcomeOf};
ghost use Rattle.circularity.specs.Working.{joined, choices_at, gathered, found_by, grown, Saturated, counted};

use crate::graph::{Outcome, Production, has};
use grammar::Language;

impl Outcome {
    // No relation and no cycle.
    const NOTHING: Outcome = Outcome {
        relations: 0,
        cyclic: false,
    };

    // What two outcomes give together.
    fn join(self, other: Outcome) -> Outcome
        ensures { result ≡ joined self other }
    {
        Outcome {
            relations: self.relations | other.relations,
            cyclic: self.cyclic || other.cyclic,
        }
    }
}

// What the relations in a set give, joined, where a closure says what each of them gives.
fn gather<F: Fn(u16) -> Outcome>(set: u16, outcome_of: F) -> Outcome
    requires { (relation : ℕ) → relation < 16 → F.pre outcome_of relation }
    ensures { (f : ℕ → OutcomeOf) → ((relation : ℕ) (outcome : OutcomeOf) → relation < 16 → F.post outcome_of relation outcome → outcome ≡ f relation) → result ≡ gathered f set }
{
    let mut found = Outcome::NOTHING;
    // The relations themselves; a set is a number here, and has no iterator.
    for relation in 0..16u16 {
        if has(set, usize::from(relation)) {
            found = found.join(outcome_of(relation));
        }
    }
    found
}

// The relations found so far, a set for each symbol.
#[derive(Clone, Copy, PartialEq, Eq)]
pub(crate) struct Relations {
    pub masks: [u16; 16],
}

impl Relations {
    // No relation found for any symbol.
    const NONE: Relations = Relations { masks: [0; 16] };

    // The relations to choose from for the child at an index of a production; the empty one alone where there is no child.
    fn choices<L: Language>(&self, production: &Production<'_, L>, index: u8) -> u16
        ensures { result ≡ choices_at (L.grammar production.now.language.now) production.now.number self.now.masks index }
    {
        match production.child(index) {
            Some(symbol) => self.masks[usize::from(symbol)],
            None => 1,
        }
    }

    // What a production gives with the relations found so far.
    pub(crate) fn try_production<L: Language>(&self, production: &Production<'_, L>) -> Outcome
        ensures { result ≡ found_by (L.grammar production.now.language.now) production.now.number self.now.masks }
    {
        let firsts = self.choices(production, 0);
        let seconds = self.choices(production, 1);
        let thirds = self.choices(production, 2);
        gather(firsts, |first| {
            gather(seconds, |second| {
                gather(thirds, |third| production.outcome([first, second, third]))
            })
        })
    }

    // One round: each production in turn adds what it gives to the set of its symbol.
    fn grow<L: Language>(&mut self, language: &L)
        ensures { self.new.masks ≡ grown (L.grammar language.now) (L.grammar language.now).productions self.old.masks }
    {
        // A language's productions are asked for by their numbers.
        for number in 0..language.productions() {
            let production = Production { language, number };
            let found = self.try_production(&production);
            self.masks[usize::from(production.symbol())] |= found.relations;
        }
    }

    // The relations of each symbol's trees.
    pub(crate) fn saturated<L: Language>(language: &L) -> Relations
        ensures { Saturated (L.grammar language.now) result.masks }
    {
        let mut found = Relations::NONE;
        loop {
            let before = found;
            found.grow(language);
            if found == before {
                return found;
            }
        }
    }

    // How many relations the sets of all symbols have.
    pub(crate) fn count<L: Language>(&self, language: &L) -> u16
        ensures { result ≡ counted self.now.masks (L.grammar language.now).symbols }
    {
        relations_in(&self.masks[..usize::from(language.symbols())])
    }
}

// How many relations some sets have.
fn relations_in(masks: &[u16]) -> u16
    requires { length masks.now ≤ 16 }
    ensures { result ≡ sum_by count_ones masks.now }
{
    masks.iter().map(|mask| mask.count_ones() as u16).sum()
}
