// Figures: the values of attributes, their meanings, and the rows in which they lie in lent memory.
ghost use Rattle.std.specs.Prelude.{◌≡◌, ℕ, true, List, slice_index_or};
ghost use Rattle.grammar.specs.Values.{meaning_at, meanings};

// A kind of figure. A figure is the value of one attribute at one node; each value has a meaning, and two values are the same
// exactly when their meanings are equal. A value lies in memory as a row, a plain type with no invariant: every row reads as some value.
pub trait Figure: Copy {
    type Meaning;

    type Row: Copy;

    // what a value means
    ghost means: { Self → Self.Meaning };

    // the value that a row reads as
    ghost reads: { Self.Row → Self };

    // the blank's meaning
    ghost nothing: { Self.Meaning };

    fn blank() -> Self
        ensures { means result ≡ nothing };

    fn same(self, other: Self) -> bool
        ensures { (result ≡ true → means self ≡ means other) × (means self ≡ means other → result ≡ true) };

    fn load(row: Self::Row) -> Self
        ensures { result ≡ reads row };

    fn store(self) -> Self::Row
        ensures { means (reads result) ≡ means self };
}

// The arguments of a rule: the rows lent to a call, and the numbers of the rows that the rule takes, in order. They are loaded one by one when they are
// asked for, since there is no heap here and an array of a language's own type has no size that is known.
#[derive(Clone, Copy)]
pub struct Arguments<'a, R> {
    pub rows: &'a [R],
    pub at: &'a [u16],
}

impl<'a, R: Copy> Arguments<'a, R> {
    // Argument k of a rule, the blank where there is none.
    pub fn value<F: Figure<Row = R>>(&self, k: usize) -> F
        ensures { F.Figure.means result ≡ slice_index_or (meanings F.Figure.means F.Figure.reads F.Figure.nothing self.now.rows.now self.now.at.now) k F.Figure.nothing }
    {
        let row = self.at.get(k).and_then(|f| self.rows.get(usize::from(*f)));
        match row {
            Some(row) => F::load(*row),
            None => F::blank(),
        }
    }
}
