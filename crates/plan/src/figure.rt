// The figures of a plan: scopes, types and counts, and the rows in which they lie in lent memory.
ghost use Rattle.std.specs.Prelude.{◌≡◌, ℕ, true};
ghost use Rattle.plan.specs.declared.figure.PlanType.{PlanType};
ghost use Rattle.plan.specs.Figures.{number_of_type, type_of_number, blank_figure, read_row, scope_in, type_in, count_in};

use crate::scope::Scope;
use grammar::Figure;

#[derive(Clone, Copy, PartialEq, Eq)]
pub enum PlanType {
    Unknown,
    Number,
    Truth,
}

// The value of one attribute at one node. Different cases are different values, also where they hold the same number.
#[derive(Clone, Copy, PartialEq, Eq)]
pub enum PlanFigure {
    Scope(Scope),
    Type(PlanType),
    Count(u16),
}

// A figure in lent memory: any number may stand in a row.
#[derive(Clone, Copy)]
pub enum PlanRow {
    Scope(u64),
    Type(u8),
    Count(u16),
}

impl From<PlanType> for u8 {
    ghost from_gives = { λ type_of number. number ≡ number_of_type type_of };

    fn from(type_of: PlanType) -> u8 {
        type_of as u8
    }
}

// A number that is no type's stands for the unknown type.
impl From<u8> for PlanType {
    ghost from_gives = { λ number type_of. type_of ≡ type_of_number number };

    fn from(number: u8) -> PlanType {
        match number {
            1 => PlanType::Number,
            2 => PlanType::Truth,
            _ => PlanType::Unknown,
        }
    }
}

impl PlanFigure {
    // The scope that a rule reads: a figure of another kind reads as the scope that has no names.
    pub fn scope(self) -> Scope
        ensures { result ≡ scope_in self }
    {
        match self {
            PlanFigure::Scope(scope) => scope,
            _ => Scope::EMPTY,
        }
    }

    // The type that a rule reads: a figure of another kind reads as the unknown type.
    pub fn type_of(self) -> PlanType
        ensures { result ≡ type_in self }
    {
        match self {
            PlanFigure::Type(type_of) => type_of,
            _ => PlanType::Unknown,
        }
    }

    // The count that a rule reads: a figure of another kind reads as the count 0.
    pub fn count(self) -> u16
        ensures { result ≡ count_in self }
    {
        match self {
            PlanFigure::Count(count) => count,
            _ => 0,
        }
    }
}

impl Figure for PlanFigure {
    type Meaning = PlanFigure;

    type Row = PlanRow;

    ghost means = { λ figure. figure };

    ghost reads = { read_row };

    ghost nothing = { blank_figure };

    fn blank() -> PlanFigure {
        PlanFigure::Type(PlanType::Unknown)
    }

    fn same(self, other: PlanFigure) -> bool {
        self == other
    }

    fn load(row: PlanRow) -> PlanFigure {
        match row {
            PlanRow::Scope(word) => PlanFigure::Scope(Scope { word }),
            PlanRow::Type(number) => PlanFigure::Type(PlanType::from(number)),
            PlanRow::Count(count) => PlanFigure::Count(count),
        }
    }

    fn store(self) -> PlanRow {
        match self {
            PlanFigure::Scope(scope) => PlanRow::Scope(scope.word),
            PlanFigure::Type(type_of) => PlanRow::Type(u8::from(type_of)),
            PlanFigure::Count(count) => PlanRow::Count(count),
        }
    }
}
