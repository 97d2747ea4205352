//! Which columns conditions equate.

ghost use Rattle.std.specs.Prelude.{◌≡◌};
ghost use Rattle.algebra.specs.Columns.{has};
ghost use Rattle.algebra.specs.Equated as spec;

use crate::columns::Columns;
use crate::condition::{Condition, Term};
use query::ColumnId;
use values::Comparison;

/// The columns that two terms are, if both are columns.
fn both_columns(a: &Term, b: &Term) -> Option<(ColumnId, ColumnId)>
    ensures { result ≡ spec.both_columns a.now b.now }
{
    match (a, b) {
        (Term::Column(a), Term::Column(b)) => Some((*a, *b)),
        (Term::Column(_), Term::Literal(_)) => None,
        (Term::Literal(_), _) => None,
    }
}

impl Condition {
    /// The two columns of an equality of columns.
    pub fn equated(&self) -> Option<(ColumnId, ColumnId)>
        ensures { result ≡ spec.equated self.now }
    {
        match self {
            Condition::Compare(comparison, a, b) => if *comparison == Comparison::Equal {
                both_columns(a, b)
            } else {
                None
            },
            Condition::IsNull(_) => None,
            Condition::Not(_) => None,
            Condition::And(_, _, _) => None,
            Condition::Or(_, _, _) => None,
            Condition::Exists(_) => None,
            Condition::In(_, _, _) => None,
        }
    }

    /// Whether it equates a column of the one set with one of the other.
    pub fn equates(&self, left: &Columns, right: &Columns) -> bool
        ensures { result ≡ spec.equates (has left.now) (has right.now) self.now }
    {
        match self.equated() {
            Some((a, b)) => {
                (left.contains(a) && right.contains(b)) || (left.contains(b) && right.contains(a))
            }
            None => false,
        }
    }
}
