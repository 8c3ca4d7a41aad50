// What the language of price formulas is: the interface's ghost members are the definitions in specs/.
ghost use Rattle.std.specs.Prelude.{◌≡◌};
ghost use Rattle.formula.specs.contracts.language.FormulaLanguage.TheImpl.{ghosts as language};
ghost use Rattle.formula.specs.contracts.quantity.row.QuantityFigure.TheImpl.{ghosts as figure};
ghost use Rattle.formula.specs.declared.language.Formula.{Formula};
ghost use Rattle.formula.specs.Meaning.{Figures};
ghost use Rattle.formula.specs.Rows.{reading_of, read};
ghost use Rattle.formula.specs.Readings.{blank};
ghost use Rattle.formula.specs.Table.{formula_grammar, formula_rule, formula_text};

// The table, the rules and the text are those of specs/Table, and a figure's meaning is what it says.
pub fn formula_is_what_its_specs_say()
    ensures grammar { (f : Formula) → language.grammar f ≡ formula_grammar }
    ensures rule { (f : Formula) → language.rule f ≡ formula_rule }
    ensures text { (f : Formula) → language.text f ≡ formula_text }
    ensures means { figure.means ≡ reading_of }
    ensures reads { figure.reads ≡ read }
    ensures figures { Figures figure.means figure.reads figure.nothing }
    ensures nothing { figure.nothing ≡ blank }
{}
