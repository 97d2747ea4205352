//! The truths that conditions can have where columns are Null.

ghost use Rattle.std.specs.Prelude.{◌≡◌, ◌||◌, fold, map};
ghost use Rattle.props.specs.Outcomes as spec;

use algebra::{Columns, Condition, Term};
use query::ColumnId;

/// Columns that are Null.
#[derive(Clone, Copy)]
pub enum NullColumns<'a> {
    One(ColumnId),
    All(&'a Columns),
}

impl NullColumns<'_> {
    fn contains(self, column: ColumnId) -> bool
        ensures { result ≡ spec.null_set self.entry column }
    {
        match self {
            NullColumns::One(one) => one == column,
            NullColumns::All(columns) => columns.contains(column),
        }
    }
}

/// Truths that a condition can have.
#[derive(Clone, Copy, PartialEq, Eq)]
pub struct Truths {
    pub can_be_true: bool,
    pub can_be_false: bool,
    pub can_be_unknown: bool,
}

impl Truths {
    fn known(can_be_true: bool, can_be_false: bool) -> Truths
        ensures { result ≡ spec.known can_be_true can_be_false }
    {
        Truths {
            can_be_true,
            can_be_false,
            can_be_unknown: false,
        }
    }

    /// The outcomes of a comparison or an IN, of Null or not; `can_be_false` says whether it can be false of Null.
    fn compared(with_null: bool, can_be_false: bool) -> Truths
        ensures { result ≡ spec.compared with_null can_be_false }
    {
        Truths {
            can_be_true: !with_null,
            can_be_false: !with_null || can_be_false,
            can_be_unknown: true,
        }
    }

    fn is_some(self) -> bool
        ensures { result ≡ spec.is_some self }
    {
        self.can_be_true || self.can_be_false || self.can_be_unknown
    }

    pub fn not(self) -> Truths
        ensures { result ≡ spec.of_not self }
    {
        Truths {
            can_be_true: self.can_be_false,
            can_be_false: self.can_be_true,
            can_be_unknown: self.can_be_unknown,
        }
    }

    pub fn and(self, other: Truths) -> Truths
        ensures { result ≡ spec.of_and self other }
    {
        Truths {
            can_be_true: self.can_be_true && other.can_be_true,
            can_be_false: self.can_be_false && other.is_some()
                || self.is_some() && other.can_be_false,
            can_be_unknown: self.can_be_unknown && (other.can_be_true || other.can_be_unknown)
                || self.can_be_true && other.can_be_unknown,
        }
    }

    pub fn or(self, other: Truths) -> Truths
        ensures { result ≡ spec.of_or self other }
    {
        Truths {
            can_be_true: self.can_be_true && other.is_some() || self.is_some() && other.can_be_true,
            can_be_false: self.can_be_false && other.can_be_false,
            can_be_unknown: self.can_be_unknown && (other.can_be_false || other.can_be_unknown)
                || self.can_be_false && other.can_be_unknown,
        }
    }
}

/// Whether a term is NULL or a column that is Null.
fn is_nulled(term: &Term, nulls: NullColumns<'_>) -> bool
    ensures { result ≡ spec.is_nulled (spec.null_set nulls.entry) term.now }
{
    match term {
        Term::Column(column) => nulls.contains(*column),
        Term::Literal(literal) => literal.as_cell().is_null(),
    }
}

fn is_one_nulled(a: &Term, b: &Term, nulls: NullColumns<'_>) -> bool
    ensures { result ≡ (spec.is_nulled (spec.null_set nulls.entry) a.now || spec.is_nulled (spec.null_set nulls.entry) b.now) }
{
    is_nulled(a, nulls) || is_nulled(b, nulls)
}

/// The outcomes of IS NULL.
fn null_outcomes(term: &Term, nulls: NullColumns<'_>) -> Truths
    ensures { result ≡ spec.null_outcomes (spec.null_set nulls.entry) term.now }
{
    if is_nulled(term, nulls) {
        return Truths::known(true, false);
    }
    match term {
        Term::Column(_) => Truths::known(true, true),
        Term::Literal(_) => Truths::known(false, true),
    }
}

/// The truths that a condition can have where the columns are Null.
#[cycle(outcomes)]
pub fn outcomes(condition: &Condition, nulls: NullColumns<'_>) -> Truths
    ensures { result ≡ spec.outcomes condition.now (spec.null_set nulls.entry) }
{
    match condition {
        Condition::Compare(_, a, b) => Truths::compared(is_one_nulled(a, b, nulls), false),
        Condition::IsNull(a) => null_outcomes(a, nulls),
        Condition::Not(part) => outcomes(part.get(), nulls).not(),
        Condition::And(a, b, more) => {
            let first = outcomes(a.get(), nulls);
            let second = outcomes(b.get(), nulls);
            all_outcomes(first.and(second), more.as_slice(), nulls)
        }
        Condition::Or(a, b, more) => {
            let first = outcomes(a.get(), nulls);
            let second = outcomes(b.get(), nulls);
            any_outcomes(first.or(second), more.as_slice(), nulls)
        }
        Condition::Exists(_) => Truths::known(true, true),
        Condition::In(a, _, _) => Truths::compared(is_nulled(a, nulls), true),
    }
}

/// The outcomes of the AND with conditions.
#[cycle(outcomes)]
fn all_outcomes(first: Truths, conditions: &[Condition], nulls: NullColumns<'_>) -> Truths
    ensures { result ≡ fold spec.of_and first (map (λ c. spec.outcomes c (spec.null_set nulls.entry)) conditions.now) }
{
    let mut all = first;
    for condition in conditions {
        all = all.and(outcomes(condition, nulls));
    }
    all
}

/// The outcomes of the OR with conditions.
#[cycle(outcomes)]
fn any_outcomes(first: Truths, conditions: &[Condition], nulls: NullColumns<'_>) -> Truths
    ensures { result ≡ fold spec.of_or first (map (λ c. spec.outcomes c (spec.null_set nulls.entry)) conditions.now) }
{
    let mut any = first;
    for condition in conditions {
        any = any.or(outcomes(condition, nulls));
    }
    any
}

/// Whether some of the conditions can't be true where the columns are Null, so that they don't hold there.
pub fn never_true(conditions: &[Condition], nulls: NullColumns<'_>) -> bool
    ensures { result ≡ spec.never_true conditions.now (spec.null_set nulls.entry) }
{
    conditions
        .iter()
        .any(|condition| !outcomes(condition, nulls).can_be_true)
}

/// Each truth that a condition has where the columns are Null is among its outcomes, and a list that is never true doesn't hold.
pub fn outcomes_are_sound()
    ensures outcomes { spec.OutcomesAreSound }
    ensures lists { spec.NeverTrueIsSound }
{}
