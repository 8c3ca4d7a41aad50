// The rules of a plan that do more than hand a figure on.
ghost use Rattle.std.specs.Prelude.{◌≡◌, ◌+◌, ◌<◌};
ghost use Rattle.plan.specs.Rules.{capped, literal_number, declared_name, declared_type, mismatch, type_of_name, unknowns, truths};
ghost use Rattle.plan.specs.Scope.{declared};

use crate::figure::PlanType;
use crate::scope::Scope;

// stands for every negative literal: no name has this number, or a quarter of it; a number and no Option, since the rules divide it as any other
const NO_NAME: u32 = 128;

// The number that a literal stands for.
fn number_of(literal: i32) -> u32
    ensures { result ≡ literal_number literal }
{
    u32::try_from(literal).unwrap_or(NO_NAME)
}

// The number of the type that a declaration's literal gives to its name.
fn type_number(literal: i32) -> u8
    ensures { (result ≡ declared_type literal) × (result < 4) }
{
    (number_of(literal) % 4) as u8
}

// The scope after a declaration.
pub(crate) fn scope_after(scope: Scope, literal: i32) -> Scope
    ensures { result ≡ declared scope (declared_name literal) (declared_type literal) }
{
    scope.declare(number_of(literal) / 4, type_number(literal))
}

// How bad a declaration is: as its term, and one more where the term's type is known and another than declared.
pub(crate) fn declaration_bad(found: PlanType, term_bad: u16, literal: i32) -> u16
    ensures { result ≡ capped (term_bad + mismatch found (declared_type literal)) }
{
    let declared = PlanType::from(type_number(literal));
    let mismatched = found != PlanType::Unknown && found != declared;
    term_bad.saturating_add(u16::from(mismatched))
}

// The type that a scope has for the name that a literal is.
pub(crate) fn type_of_name(scope: Scope, literal: i32) -> PlanType
    ensures { result ≡ type_of_name scope literal }
{
    PlanType::from(scope.entry(number_of(literal)))
}

// How bad a comparison is: as its two terms, and one more for each that is a truth.
pub(crate) fn comparison_bad(
    first: PlanType,
    second: PlanType,
    first_bad: u16,
    second_bad: u16,
) -> u16
    ensures { result ≡ capped (first_bad + second_bad + truths first + truths second) }
{
    first_bad
        .saturating_add(second_bad)
        .saturating_add(u16::from(first == PlanType::Truth))
        .saturating_add(u16::from(second == PlanType::Truth))
}
