//! Conditions that find one row of a class at most.

ghost use Rattle.std.specs.Prelude.{◌≡◌};
ghost use Rattle.std.specs.List.{list_any};
ghost use Rattle.algebra.specs.GivenColumns.{given_columns};
ghost use Rattle.props.specs.Given as spec;
ghost use Rattle.props.specs.Knowledge.{known};

use crate::known::KnownClasses;
use algebra::{ClassColumns, ClassId, Condition, Term};
use query::ColumnId;
use values::Comparison;

/// Whether a term is a literal other than NULL, or a column that isn't one of the class.
fn is_other(term: &Term, classes: ClassColumns<'_>, class: ClassId) -> bool
    ensures { result ≡ spec.is_other (given_columns classes.entry class) term.now }
{
    match term {
        Term::Column(column) => !classes.has(class, *column),
        Term::Literal(literal) => !literal.as_cell().is_null(),
    }
}

fn is_column(term: &Term, column: ColumnId) -> bool
    ensures { result ≡ spec.is_column column term.now }
{
    match term {
        Term::Column(own) => *own == column,
        Term::Literal(_) => false,
    }
}

fn is_equality(comparison: Comparison) -> bool
    ensures { result ≡ spec.is_equality comparison }
{
    matches!(comparison, Comparison::Equal)
}

/// Whether a comparison of two terms is one of a column with such a term, either way round.
fn equates(
    comparison: Comparison,
    terms: (&Term, &Term),
    classes: ClassColumns<'_>,
    class: ClassId,
    column: ColumnId,
) -> bool
    ensures { result ≡ spec.equates (given_columns classes.entry class) column comparison terms.entry.0.now terms.entry.1.now }
{
    let (a, b) = terms;
    is_equality(comparison)
        && (is_column(a, column) && is_other(b, classes, class)
            || is_column(b, column) && is_other(a, classes, class))
}

/// Whether a condition sets a column of a class equal to a literal other than NULL or to a column that isn't one of the class.
fn pins(condition: &Condition, classes: ClassColumns<'_>, class: ClassId, column: ColumnId) -> bool
    ensures { result ≡ spec.pins condition.now (given_columns classes.entry class) column }
{
    match condition {
        Condition::Compare(comparison, a, b) => {
            equates(*comparison, (a, b), classes, class, column)
        }
        _ => false,
    }
}

/// Whether one of the conditions does.
fn is_pinned(
    conditions: &[Condition],
    classes: ClassColumns<'_>,
    class: ClassId,
    column: ColumnId,
) -> bool
    ensures { result ≡ list_any (λ c. spec.pins c (given_columns classes.entry class) column) conditions.now }
{
    conditions
        .iter()
        .any(|condition| pins(condition, classes, class, column))
}

fn are_pinned(
    conditions: &[Condition],
    classes: ClassColumns<'_>,
    class: ClassId,
    key: &[ColumnId],
) -> bool
    ensures { result ≡ spec.are_pinned (given_columns classes.entry class) conditions.now key.now }
{
    key.iter()
        .all(|column| is_pinned(conditions, classes, class, *column))
}

/// Whether one of the keys is pinned.
fn is_one_pinned(
    conditions: &[Condition],
    classes: ClassColumns<'_>,
    class: ClassId,
    keys: &[Vec<ColumnId>],
) -> bool
    ensures { result ≡ list_any (λ key. spec.are_pinned (given_columns classes.entry class) conditions.now key.items) keys.now }
{
    keys.iter().any(|key| are_pinned(conditions, classes, class, key.as_slice()))
}

/// Whether no row finds two rows of a class with which the conditions hold, by a key that is known.
pub fn is_single(classes: KnownClasses<'_>, class: ClassId, conditions: &[Condition]) -> bool
    ensures { result ≡ spec.is_single (known classes.entry) class conditions.now }
{
    is_one_pinned(conditions, classes.columns, class, classes.weak_keys(class))
        || is_one_pinned(
            conditions,
            classes.columns,
            class,
            classes.strong_keys(class),
        )
}
