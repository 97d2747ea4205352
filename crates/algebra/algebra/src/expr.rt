//! Expressions over classes.

ghost use Rattle.std.specs.Prelude.{◌≡◌, ◌↔◌, ◌++◌, IsTrue, option_to_list, slice_get};
ghost use Rattle.algebra.specs.Equality as spec;
ghost use Rattle.algebra.specs.Expressions.{children, conditions};

use crate::aggregations::Aggregations;
use crate::columns::Columns;
use crate::condition::{ClassId, Condition, Conjuncts};
use query::{Aggregate, ColumnId, InstanceId};

/// An aggregate in a column of its own. Here the aggregate names the column that it reads by its number.
#[derive(Clone, Copy, PartialEq, Eq)]
pub struct Aggregation {
    /// The new column.
    pub column: ColumnId,
    pub aggregate: Aggregate,
}

/// An operator of the algebra over classes, which come last.
pub enum Expr {
    /// The rows of a table instance.
    Get(InstanceId),
    /// The rows that make all conjuncts true.
    Select(Conjuncts, ClassId),
    /// The pairs that make all conjuncts true.
    Join(Conjuncts, ClassId, ClassId),
    /// These pairs, and each left row that has none, with Null in the right columns.
    LeftJoin(Conjuncts, ClassId, ClassId),
    /// The left rows for which some right row makes all conjuncts true.
    Semi(Conjuncts, ClassId, ClassId),
    /// The left rows for which no right row makes all of the first true and none of the second false:
    /// `Anti(ordinary, null_aware, left, right)`.
    Anti(Conjuncts, Conjuncts, ClassId, ClassId),
    /// The rows projected to the columns, as many as they were.
    Keep(Columns, ClassId),
    /// One of each row.
    Distinct(ClassId),
    /// One row for each different key, or one row where there is no key column, and the aggregates of each group.
    Group(Columns, Aggregations, ClassId),
}

// By hand, so that crates above drop an expression by one call.
impl Drop for Expr {
    fn drop(self) {
        match self {
            Expr::Get(_) | Expr::Distinct(_) => {}
            Expr::Select(_, _)
            | Expr::Join(_, _, _)
            | Expr::LeftJoin(_, _, _)
            | Expr::Semi(_, _, _) => {}
            Expr::Anti(_, _, _, _) | Expr::Keep(_, _) | Expr::Group(_, _, _) => {}
        }
    }
}

impl Expr {
    /// The classes whose rows it takes, the left one first.
    pub fn children(&self) -> (Option<ClassId>, Option<ClassId>)
        ensures only { option_to_list result.0 ++ option_to_list result.1 ≡ children self.now }
        ensures first { result.0 ≡ slice_get (children self.now) 0 }
        ensures second { result.1 ≡ slice_get (children self.now) 1 }
    {
        match self {
            Expr::Get(_) => (None, None),
            Expr::Select(_, x) | Expr::Keep(_, x) | Expr::Distinct(x) | Expr::Group(_, _, x) => {
                (Some(*x), None)
            }
            Expr::Join(_, a, b)
            | Expr::LeftJoin(_, a, b)
            | Expr::Semi(_, a, b)
            | Expr::Anti(_, _, a, b) => (Some(*a), Some(*b)),
        }
    }

    /// Its conditions, in two parts.
    pub fn conditions(&self) -> (&[Condition], &[Condition])
        ensures { result.0.now ++ result.1.now ≡ conditions self.now }
    {
        match self {
            Expr::Select(c, _)
            | Expr::Join(c, _, _)
            | Expr::LeftJoin(c, _, _)
            | Expr::Semi(c, _, _) => (c.as_slice(), &[]),
            Expr::Anti(ordinary, null_aware, _, _) => (ordinary.as_slice(), null_aware.as_slice()),
            Expr::Get(_) | Expr::Keep(_, _) | Expr::Distinct(_) | Expr::Group(_, _, _) => (
                &[],
                &[],
            ),
        }
    }

    pub fn same(&self, other: &Expr) -> bool
        ensures equal { IsTrue result ↔ (self.now ≡ other.now) }
        ensures test { result ≡ spec.same_expr self.now other.now }
    {
        is_same(self, other)
    }
}

fn is_same(expr: &Expr, other: &Expr) -> bool
    ensures { IsTrue result ↔ (expr.now ≡ other.now) }
{
    match (expr, other) {
        (Expr::Get(o), Expr::Get(p)) => *o == *p,
        (Expr::Select(c, x), Expr::Select(d, y)) => *x == *y && c.same(d),
        (Expr::Join(c, a, b), Expr::Join(d, s, t)) => *a == *s && *b == *t && c.same(d),
        (Expr::LeftJoin(c, a, b), Expr::LeftJoin(d, s, t)) => *a == *s && *b == *t && c.same(d),
        (Expr::Semi(c, a, b), Expr::Semi(d, s, t)) => *a == *s && *b == *t && c.same(d),
        (Expr::Anti(c, m, a, b), Expr::Anti(d, n, s, t)) => *a == *s
            && *b == *t
            && c.same(d)
            && m.same(n),
        (Expr::Keep(k, x), Expr::Keep(l, y)) => *x == *y && k.same(l),
        (Expr::Distinct(x), Expr::Distinct(y)) => *x == *y,
        (Expr::Group(k, g, x), Expr::Group(l, h, y)) => *x == *y && k.same(l) && g.same(h),
        _ => false,
    }
}

impl Aggregation {
    pub fn same(self, other: Aggregation) -> bool
        ensures equal { IsTrue result ↔ (self ≡ other) }
        ensures test { result ≡ spec.same_aggregation self other }
    {
        self == other
    }
}
