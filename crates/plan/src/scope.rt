// Scopes: a 64-bit word holds for each of the 32 names whether it is undeclared, declared with a type, or declared twice.
ghost use Rattle.std.specs.Prelude.{◌≡◌, ℕ, ◌<◌};
ghost use Rattle.plan.specs.Scope.{entry, scope_of, Small, Gives, declared, entry_declared, overlaid, entry_overlaid};

use std::marker::Model;

const NAMES: u32 = 32;

// The entries that stand for no type. Entries are numbers, as the word holds them in two bits: an enum would be converted on the way in and out.
const UNDECLARED: u8 = 0;

const DECLARED_TWICE: u8 = 3;

#[derive(Clone, Copy, PartialEq, Eq)]
pub struct Scope {
    pub word: u64,
}

// A clause sees a scope as its word.
impl Model for Scope {
    ghost Value = { ℕ };

    ghost view = { λ scope. scope.word };

    ghost inverse = { λ word. record { word = word } };
}

impl Scope {
    // The scope that has no names.
    pub const EMPTY: Scope = Scope { word: 0 };

    // The entry of a name. There is nothing to know of a name past the last.
    #[tactic(auto, using(crate::proofs::Words::no_name))]
    pub fn entry(self, name: u32) -> u8
        ensures { result ≡ entry self name }
    {
        if name < NAMES {
            ((self.word >> (2 * name)) % 4) as u8
        } else {
            UNDECLARED
        }
    }

    // The scope with these entries.
    fn of_entries<F: Fn(u32) -> u8>(entry_of: F) -> Scope
        requires { F.IsAlwaysCallable entry_of }
        ensures { (entries : ℕ → ℕ) → Small entries → Gives (F.post entry_of) entries → result ≡ scope_of entries }
    {
        let word = (0..NAMES).fold(0, |word, k| word | u64::from(entry_of(k)) << (2 * k));
        Scope { word }
    }

    // The scope after a name is declared with the type of that number.
    pub(crate) fn declare(self, name: u32, type_number: u8) -> Scope
        requires { type_number < 4 }
        ensures { result ≡ declared self name type_number }
    {
        Scope::of_entries(|k| match self.entry(k) {
            before if k != name => before,
            UNDECLARED => type_number,
            _ => DECLARED_TWICE,
        })
    }

    // This scope laid over an outer one.
    pub fn over(self, outer: Scope) -> Scope
        ensures { result ≡ overlaid self outer }
    {
        Scope::of_entries(|k| match self.entry(k) {
            UNDECLARED => outer.entry(k),
            own => own,
        })
    }
}
