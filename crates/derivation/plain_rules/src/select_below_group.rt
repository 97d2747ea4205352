//! Predicate pushdown: a selection goes below a group.

ghost use Rattle.std.specs.Prelude.{◌≡◌, IfOk};
ghost use Rattle.std.specs.List.{list_all};
ghost use Rattle.values.specs.Faults.{Gives};
ghost use Rattle.algebra.specs.Columns.{has};
ghost use Rattle.algebra.specs.Conditions as reads;
ghost use Rattle.plain_rules.specs.SelectBelowGroup as spec;

use algebra::{Aggregations, ClassId, Columns, Condition, Conjuncts, Expr, Term};
use rules::shaping::{group, select, selected, some};
use rules::{Below, Match, Operator, Operators, Pattern, Promise, Rule, RuleFault, Shape, Unfit};
use std::alloc::{AllocError, Global};
use values::Fault;

/// Whether the column of a term, if it has one, is one of the keys.
fn term_names_keys(term: &Term, keys: &Columns) -> bool
    ensures { result ≡ reads.term_passes (has keys.now) term.now }
{
    match term {
        Term::Column(k) => keys.contains(*k),
        Term::Literal(_) => true,
    }
}

/// Whether each column that a condition names is one of the keys.
#[cycle(keys)]
#[tactic(auto, using(algebra::proofs::Equations::all_columns_and, algebra::proofs::Equations::all_columns_or), unfolding(algebra::specs::Conditions::all_columns))]
fn names_keys(condition: &Condition, keys: &Columns) -> bool
    ensures { result ≡ reads.all_columns condition.now (has keys.now) }
{
    match condition {
        Condition::Compare(_, a, b) => term_names_keys(a, keys) && term_names_keys(b, keys),
        Condition::IsNull(a) => term_names_keys(a, keys),
        Condition::Not(c) => names_keys(c.get(), keys),
        Condition::And(a, b, cs) => {
            let first = names_keys(a.get(), keys);
            let second = names_keys(b.get(), keys);
            let more = all_name_keys(cs.as_slice(), keys);
            first && (second && more)
        }
        Condition::Or(a, b, cs) => {
            let first = names_keys(a.get(), keys);
            let second = names_keys(b.get(), keys);
            let more = all_name_keys(cs.as_slice(), keys);
            first && (second && more)
        }
        Condition::Exists(_) => true,
        Condition::In(a, _, k) => term_names_keys(a, keys) && keys.contains(*k),
    }
}

#[cycle(keys)]
fn all_name_keys(conditions: &[Condition], keys: &Columns) -> bool
    ensures { result ≡ list_all (λ c. reads.all_columns c (has keys.now)) conditions.now }
{
    for condition in conditions {
        if !names_keys(condition, keys) {
            return false;
        }
    }
    true
}

/// Whether a condition has no subquery and names columns of the keys alone.
fn is_of_keys(condition: &Condition, keys: &Columns) -> bool
    ensures { result ≡ spec.is_of_keys keys.now condition.now }
{
    condition.has_no_class() && names_keys(condition, keys)
}

/// The conjuncts that are about the keys alone, and the others.
fn split_of_keys(
    alloc: Global,
    conditions: &[Condition],
    keys: &Columns,
) -> Result<(Conjuncts, Conjuncts), AllocError>
    ensures { IfOk result (λ c. (c.0 ≡ spec.of_keys keys.now conditions.now) × (c.1 ≡ spec.of_others keys.now conditions.now)) }
{
    let mut part = Vec::new(alloc);
    let mut rest = Vec::new(alloc);
    for condition in conditions {
        if is_of_keys(condition, keys) {
            part.push(condition.copy(alloc)?)?;
        } else {
            rest.push(condition.copy(alloc)?)?;
        }
    }
    Ok((
        Conjuncts::of(alloc, part.as_slice())?,
        Conjuncts::of(alloc, rest.as_slice())?,
    ))
}

/// The selection from the groups of a class, with a part of its conjuncts below them.
fn pushed(
    alloc: Global,
    conjuncts: &Conjuncts,
    keys: &Columns,
    added: &Aggregations,
    class: ClassId,
) -> Result<Shape, RuleFault>
    ensures { Gives (λ s. s) result (spec.pushed conjuncts.now keys.now added.now class) }
{
    let (below, rest) = split_of_keys(alloc, conjuncts.as_slice(), keys)?;
    let below = some(below)?;
    if keys.as_slice().is_empty() {
        return Err(Fault::Refused(Unfit::Condition));
    }
    let keys = keys.copy(alloc)?;
    let added = added.copy(alloc)?;
    let input = select(alloc, below, Shape::Class(class))?;
    let grouped = group(alloc, keys, added, input)?;
    Ok(selected(alloc, rest, grouped)?)
}

/// Of a selection from groups, the conjuncts about keys alone are asked of the rows before they are grouped. Without keys
/// there is one group, also of no rows.
pub struct SelectBelowGroup;

impl Rule for SelectBelowGroup {
    const CODE: &'static str = "G2";

    ghost pattern = { spec.pattern };

    ghost gives = { spec.select_below_group };

    ghost promise = { spec.promise };

    fn pattern() -> Pattern {
        Pattern::Two(
            Operators::Only(Operator::Select),
            Below::first(Operators::Only(Operator::Group)),
        )
    }

    fn apply(alloc: Global, at: Match<'_>) -> Result<Shape, RuleFault> {
        match at.two_lines()? {
            (Expr::Select(c, _), Expr::Group(k, added, x)) => pushed(alloc, c, k, added, *x),
            _ => Err(Fault::Refused(Unfit::Pattern)),
        }
    }

    fn promise(_alloc: Global, _at: Match<'_>) -> Result<Promise, AllocError> {
        Ok(Promise::Simpler)
    }

    #[tactic(auto, using(crate::proofs::SelectBelowGroup::select_below_group_sound))]
    fn is_sound() {}

    #[tactic(auto, using(crate::proofs::SelectBelowGroup::select_below_group_keeps))]
    fn keeps_to_pattern() {}

    #[tactic(auto, using(crate::proofs::SelectBelowGroup::select_below_group_formed))]
    fn is_formed() {}

    #[tactic(auto, using(crate::proofs::SelectBelowGroup::select_below_group_stable))]
    fn is_stable() {}
}
