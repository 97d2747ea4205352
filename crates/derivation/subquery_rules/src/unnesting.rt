//! What rules make of a conjunct that is a subquery: a semijoin or an antijoin with the subquery's rows.

ghost use Rattle.std.specs.Prelude.{◌≡◌, IfOk, option_map};
ghost use Rattle.values.specs.Faults.{Gives};
ghost use Rattle.algebra.specs.Columns.{are_disjoint};
ghost use Rattle.algebra.specs.ConditionEquality.{same_condition};
ghost use Rattle.algebra.specs.Conditions.{term_columns};
ghost use Rattle.algebra.specs.GivenColumns.{given_columns};
ghost use Rattle.props.specs.Knowledge.{known};
ghost use Rattle.rules.specs.Bindings.{subquery_in};
ghost use Rattle.subquery_rules.specs.Unnesting as spec;

use algebra::{ClassColumns, ClassId, Condition, Conjuncts, Term};
use props::KnownClasses;
use query::ColumnId;
use rules::shaping::{anti, selected, semi};
use rules::{Match, PickedSubquery, RuleFault, Shape, Unfit};
use std::alloc::{AllocError, Global};
use values::{Comparison, Fault};

fn is_exists(condition: &Condition) -> bool
    ensures { result ≡ spec.is_exists condition.now }
{
    match condition {
        Condition::Exists(_) => true,
        _ => false,
    }
}

fn is_not_exists(condition: &Condition) -> bool
    ensures { result ≡ spec.is_not_exists condition.now }
{
    match condition {
        Condition::Not(part) => is_exists(part.get()),
        _ => false,
    }
}

/// The term and the column of an IN.
fn member(condition: &Condition) -> Option<(&Term, ColumnId)>
    ensures { option_map (λ m. (m.0.now, m.1)) result ≡ spec.member condition.now }
{
    match condition {
        Condition::In(term, _, column) => Some((term, *column)),
        _ => None,
    }
}

/// The term and the column of an IN under NOT.
fn denied_member(condition: &Condition) -> Option<(&Term, ColumnId)>
    ensures { option_map (λ m. (m.0.now, m.1)) result ≡ spec.denied_member condition.now }
{
    match condition {
        Condition::Not(part) => member(part.get()),
        _ => None,
    }
}

fn is_same(condition: &Condition, other: &Condition) -> bool
    ensures { result ≡ same_condition condition.now other.now }
{
    condition.same(other)
}

/// Copies of the conditions that aren't the picked one.
fn copies_but(
    alloc: Global,
    conditions: &[Condition],
    picked: &Condition,
) -> Result<Vec<Condition>, AllocError>
    ensures { IfOk result (λ copies. copies.items ≡ spec.all_but picked.now conditions.now) }
{
    let mut copies = Vec::new(alloc);
    for condition in conditions {
        if !is_same(condition, picked) {
            copies.push(condition.copy(alloc)?)?;
        }
    }
    Ok(copies)
}

/// The conjuncts but for the picked one.
fn others(alloc: Global, pick: PickedSubquery<'_>) -> Result<Conjuncts, AllocError>
    ensures { IfOk result (λ c. c ≡ spec.others (subquery_in pick.entry)) }
{
    let others = copies_but(alloc, pick.conjuncts.as_slice(), pick.condition)?;
    Conjuncts::of(alloc, others.as_slice())
}

/// The equality of a term and a column, as conjuncts.
fn equated(alloc: Global, term: &Term, column: ColumnId) -> Result<Conjuncts, AllocError>
    ensures { IfOk result (λ c. c ≡ spec.equated (term.now, column)) }
{
    let equality = Condition::Compare(Comparison::Equal, term.copy(alloc)?, Term::Column(column));
    Conjuncts::of(alloc, &[equality])
}

/// Whether no column of the one class is one of the other.
fn share_none(classes: ClassColumns<'_>, left: ClassId, right: ClassId) -> bool
    ensures { result ≡ are_disjoint (given_columns classes.entry left) (given_columns classes.entry right) }
{
    classes
        .columns_of(left)
        .iter()
        .all(|column| !classes.has(right, *column))
}

/// Whether a class can be the right side of a join of the selection's input by these conditions, its rows being those that a subquery has.
fn can_join(
    alloc: Global,
    classes: KnownClasses<'_>,
    input: ClassId,
    inner: &Conjuncts,
    class: ClassId,
) -> Result<bool, AllocError>
    ensures { IfOk result (λ b. b ≡ spec.can_join (known classes.entry) input inner.now class) }
{
    if !inner.is_plain() || !share_none(classes.columns, input, class) {
        return Ok(false);
    }
    Condition::Exists(class).is_without(alloc, classes.columns, input)
}

/// Whether the term reads no column of the class.
fn is_outside(term: &Term, classes: ClassColumns<'_>, class: ClassId) -> bool
    ensures { result ≡ are_disjoint (term_columns term.now) (given_columns classes.entry class) }
{
    match term {
        Term::Column(column) => !classes.has(class, *column),
        Term::Literal(_) => true,
    }
}

/// Whether the column is the class's, and the term is not.
fn is_across(term: &Term, column: ColumnId, classes: ClassColumns<'_>, class: ClassId) -> bool
    ensures { result ≡ spec.is_across (given_columns classes.entry) (term.now, column) class }
{
    classes.has(class, column) && is_outside(term, classes, class)
}

/// The selection of the other conjuncts from a semijoin.
fn semi_of(
    alloc: Global,
    pick: PickedSubquery<'_>,
    conjuncts: Conjuncts,
    class: ClassId,
) -> Result<Shape, AllocError>
    ensures { IfOk result (λ s. s ≡ spec.semi_of (subquery_in pick.entry) conjuncts class) }
{
    let found = semi(
        alloc,
        conjuncts,
        Shape::Class(pick.input),
        Shape::Class(class),
    )?;
    selected(alloc, others(alloc, pick)?, found)
}

/// The selection of the other conjuncts from an antijoin, of ordinary and of null-aware conditions.
fn anti_of(
    alloc: Global,
    pick: PickedSubquery<'_>,
    lists: (Conjuncts, Conjuncts),
    class: ClassId,
) -> Result<Shape, AllocError>
    ensures { IfOk result (λ s. s ≡ spec.anti_of (subquery_in pick.entry) lists.0 lists.1 class) }
{
    let unfound = anti(alloc, lists, Shape::Class(pick.input), Shape::Class(class))?;
    selected(alloc, others(alloc, pick)?, unfound)
}

/// EXISTS of a class's rows with which conditions hold, as a semijoin.
pub(crate) fn exists_as_semi(
    alloc: Global,
    at: Match<'_>,
    pick: PickedSubquery<'_>,
    inner: &Conjuncts,
    class: ClassId,
) -> Result<Shape, RuleFault>
    ensures { Gives (λ s. s) result (spec.exists_as_semi (known at.entry.classes) (subquery_in pick.entry) inner.now class) }
{
    if !is_exists(pick.condition) {
        return Err(Fault::Refused(Unfit::Pattern));
    }
    if !can_join(alloc, at.classes, pick.input, inner, class)? {
        return Err(Fault::Refused(Unfit::Condition));
    }
    Ok(semi_of(alloc, pick, inner.copy(alloc)?, class)?)
}

/// NOT EXISTS of such rows, as an antijoin.
pub(crate) fn not_exists_as_anti(
    alloc: Global,
    at: Match<'_>,
    pick: PickedSubquery<'_>,
    inner: &Conjuncts,
    class: ClassId,
) -> Result<Shape, RuleFault>
    ensures { Gives (λ s. s) result (spec.not_exists_as_anti (known at.entry.classes) (subquery_in pick.entry) inner.now class) }
{
    if !is_not_exists(pick.condition) {
        return Err(Fault::Refused(Unfit::Pattern));
    }
    if !can_join(alloc, at.classes, pick.input, inner, class)? {
        return Err(Fault::Refused(Unfit::Condition));
    }
    let lists = (inner.copy(alloc)?, Conjuncts::none(alloc));
    Ok(anti_of(alloc, pick, lists, class)?)
}

/// IN of such rows, as a semijoin.
pub(crate) fn in_as_semi(
    alloc: Global,
    at: Match<'_>,
    pick: PickedSubquery<'_>,
    inner: &Conjuncts,
    class: ClassId,
) -> Result<Shape, RuleFault>
    ensures { Gives (λ s. s) result (spec.in_as_semi (known at.entry.classes) (subquery_in pick.entry) inner.now class) }
{
    let Some((term, column)) = member(pick.condition) else {
        return Err(Fault::Refused(Unfit::Pattern));
    };
    if !can_join(alloc, at.classes, pick.input, inner, class)?
        || !is_across(term, column, at.classes.columns, class)
    {
        return Err(Fault::Refused(Unfit::Condition));
    }
    let conjuncts = inner.union(alloc, &equated(alloc, term, column)?)?;
    Ok(semi_of(alloc, pick, conjuncts, class)?)
}

/// NOT IN of such rows, as a null-aware antijoin.
pub(crate) fn not_in_as_anti(
    alloc: Global,
    at: Match<'_>,
    pick: PickedSubquery<'_>,
    inner: &Conjuncts,
    class: ClassId,
) -> Result<Shape, RuleFault>
    ensures { Gives (λ s. s) result (spec.not_in_as_anti (known at.entry.classes) (subquery_in pick.entry) inner.now class) }
{
    let Some((term, column)) = denied_member(pick.condition) else {
        return Err(Fault::Refused(Unfit::Pattern));
    };
    if !can_join(alloc, at.classes, pick.input, inner, class)?
        || !is_across(term, column, at.classes.columns, class)
    {
        return Err(Fault::Refused(Unfit::Condition));
    }
    let lists = (inner.copy(alloc)?, equated(alloc, term, column)?);
    Ok(anti_of(alloc, pick, lists, class)?)
}
