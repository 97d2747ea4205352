//! Comparisons with their sides exchanged.

ghost use Rattle.std.specs.Prelude.{◌≡◌};
ghost use Rattle.relations.specs.Comparisons as spec;

use values::Comparison;

/// The comparison that says the same of its sides exchanged.
pub fn turned(comparison: Comparison) -> Comparison
    ensures { result ≡ spec.turned comparison }
{
    match comparison {
        Comparison::Equal => Comparison::Equal,
        Comparison::NotEqual => Comparison::NotEqual,
        Comparison::Less => Comparison::Greater,
        Comparison::LessOrEqual => Comparison::GreaterOrEqual,
        Comparison::Greater => Comparison::Less,
        Comparison::GreaterOrEqual => Comparison::LessOrEqual,
    }
}
