// Languages: a fixed table, a fixed function for each rule, and a text for each production.
ghost use Rattle.std.specs.Prelude.{◌≡◌, ℕ, List, map, length, ℤ};
ghost use Rattle.grammar.specs.Grammar.{Grammar, arguments};
ghost use Rattle.grammar.specs.Text.{Segment, segment};
ghost use Rattle.grammar.specs.Limits.{Limits};
ghost use Rattle.grammar.specs.Values.{meanings};

use crate::figure::{Arguments, Figure};

// One attribute at one of a production's places: place 0 is the production's own symbol, place i its child i.
#[derive(Clone, Copy, PartialEq, Eq)]
pub struct Occurrence {
    pub place: u8,
    pub attribute: u8,
}

// A piece of a production's text; a child goes by its place.
#[derive(Clone, Copy)]
pub enum Piece {
    Fixed(&'static [u8]),
    Literal,
    Child(u8),
}

// A language. The ghost members say what it is; each question always gets the table's answer, also past the table's end, where it means
// nothing, and changes nothing. `limits` is the proof that the table keeps the limits: without it there is no language.
pub trait Language {
    type Meaning;

    type Row: Copy;

    type Value: Figure<Meaning = Self::Meaning, Row = Self::Row> + Drop;

    // the fixed table
    ghost grammar: { Self → Grammar };

    // the function of a rule, by production, place and attribute: of the literal and the arguments' meanings
    ghost rule: { Self → ℕ → ℕ → ℕ → ℤ → List Self.Meaning → Self.Meaning };

    // the text of a production
    ghost text: { Self → ℕ → List Segment };

    ghost limits: { (language : Self) → Limits (grammar language) (text language) };

    fn symbols(&self) -> u8
        ensures { result ≡ (grammar self.now).symbols };

    fn productions(&self) -> u8
        ensures { result ≡ (grammar self.now).productions };

    fn inherited(&self, symbol: u8) -> u8
        ensures { result ≡ (grammar self.now).inherited symbol };

    fn synthesized(&self, symbol: u8) -> u8
        ensures { result ≡ (grammar self.now).synthesized symbol };

    fn symbol(&self, production: u8) -> u8
        ensures { result ≡ (grammar self.now).symbol production };

    fn children(&self, production: u8) -> &[u8]
        ensures { result.now ≡ (grammar self.now).children production };

    fn accepts(&self, production: u8, literal: i32) -> bool
        ensures { result ≡ (grammar self.now).accepts production literal };

    fn arguments(&self, production: u8, target: Occurrence) -> &[Occurrence]
        ensures { result.now ≡ arguments (grammar self.now) production target.place target.attribute };

    fn evaluate(
        &self,
        production: u8,
        target: Occurrence,
        literal: i32,
        arguments: &Arguments<'_, Self::Row>,
    ) -> Self::Value
        ensures { Self.Value.Figure.means result ≡ rule self.now production target.place target.attribute literal (meanings Self.Value.Figure.means Self.Value.Figure.reads Self.Value.Figure.nothing arguments.now.rows.now arguments.now.at.now) };

    fn pieces(&self, production: u8) -> &[Piece]
        ensures { map segment result.now ≡ text self.now production };
}
