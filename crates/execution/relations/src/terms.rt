//! Comparisons of terms.

ghost use Rattle.std.specs.Prelude.{◌≡◌};
ghost use Rattle.values.specs.Cells.{value_of};
ghost use Rattle.values.specs.Truth as logic;
ghost use Rattle.algebra.specs.Conditions.{term_value};
ghost use Rattle.relations.specs.Relations.{env_of};

use crate::environment::Env;
use algebra::Term;
use values::{Cell, Comparison, Truth, compare};

/// The comparison of a value with a term.
fn compare_with(comparison: Comparison, cell: Cell<'_>, term: &Term, env: &Env<'_, '_>) -> Truth
    ensures { result ≡ logic.compare comparison (value_of cell.entry) (term_value term.now (env_of env.now)) }
{
    match term {
        Term::Column(column) => compare(comparison, cell, env.column(*column)),
        Term::Literal(value) => compare(comparison, cell, value.as_cell()),
    }
}

/// The comparison of two terms.
pub fn compare_terms(comparison: Comparison, a: &Term, b: &Term, env: &Env<'_, '_>) -> Truth
    ensures { result ≡ logic.compare comparison (term_value a.now (env_of env.now)) (term_value b.now (env_of env.now)) }
{
    match a {
        Term::Column(column) => compare_with(comparison, env.column(*column), b, env),
        Term::Literal(value) => compare_with(comparison, value.as_cell(), b, env),
    }
}

/// Whether a term is Null.
pub fn is_null(term: &Term, env: &Env<'_, '_>) -> bool
    ensures { result ≡ logic.is_null (term_value term.now (env_of env.now)) }
{
    match term {
        Term::Column(column) => env.column(*column).is_null(),
        Term::Literal(value) => value.as_cell().is_null(),
    }
}
