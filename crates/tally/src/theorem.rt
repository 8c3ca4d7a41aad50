// What the language of tallies is: its members, and those of its figure, are the definitions of specs/. The function does nothing; its
// contract is the theorem.
ghost use Rattle.std.specs.Prelude.{◌≡◌, ℕ, ◌<◌, ◌≤◌};
ghost use Rattle.tally.specs.declared.sum.Sum.{Sum};
ghost use Rattle.tally.specs.contracts.figure.SumFigure.TheImpl.{ghosts as figure};
ghost use Rattle.tally.specs.contracts.language.TallyLanguage.TheImpl.{ghosts as members};
ghost use Rattle.tally.specs.Figures.{value_of, read};
ghost use Rattle.tally.specs.Table.{tally_grammar, tally_rule, tally_text};

use crate::language::Tally;

pub fn tally_is_as_specified(tally: &Tally)
    ensures table { members.grammar tally.now ≡ tally_grammar }
    ensures functions { members.rule tally.now ≡ tally_rule }
    ensures texts { members.text tally.now ≡ tally_text }
    ensures means { figure.means ≡ value_of }
    ensures reads { figure.reads ≡ read }
    ensures blank { figure.nothing ≡ 0 }
    ensures within { (s : Sum) → figure.means s ≤ 9999 }
    ensures lawful { (row : ℕ) → row ≤ 9999 → figure.means (figure.reads row) ≡ row }
    ensures unlawful { (row : ℕ) → 9999 < row → figure.means (figure.reads row) ≡ figure.nothing }
{}
