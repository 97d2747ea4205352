//! What a step picks: the next class that its rule takes, and the pick with new numbers.

ghost use Rattle.std.specs.Prelude.{◌≡◌, slice_get, IfOk};
ghost use Rattle.std.specs.List.{position_or_len};
ghost use Rattle.algebra.specs.ConditionEquality.{same_condition};
ghost use Rattle.book.specs.Book.{pattern_of};
ghost use Rattle.trimming.specs.Kept.{number_in};
ghost use Rattle.trimming.specs.Renumbered as spec;

use crate::kept::Kept;
use crate::renumbered::{renumbered_condition, renumbered_conjuncts};
use algebra::{ClassId, Condition, Conjuncts, Expr};
use derivation::Step;
use logs::Log;
use query::ids::id_of;
use rules::{Pattern, picked_subquery};
use std::alloc::{AllocError, Global};

/// The class of which a step's line behind the one of this place is, where that has this expression.
pub(crate) fn class_below(step: &Step, place: usize, above: &Expr) -> Option<ClassId> {
    match (step.rule.pattern(), place) {
        (Pattern::Two(_, below), _) => below.input.of(above),
        (Pattern::Three(_, below, _), 0) => below.input.of(above),
        (Pattern::Three(_, _, lowest), _) => lowest.input.of(above),
        (Pattern::SubqueryLine(_), _) => picked_subquery(above, step.pick),
        (Pattern::ClassLine(_), _) => Some(step.pick),
        (Pattern::One(_), _) | (Pattern::Subquery, _) => None,
    }
}

fn is_same(condition: &Condition, other: &Condition) -> bool
    ensures { result ≡ same_condition condition.now other.now }
{
    condition.same(other)
}

/// The place of a condition among others; how many these are, where it isn't there.
fn place_of(conditions: &[Condition], condition: &Condition) -> usize
    ensures { result ≡ position_or_len (λ other. same_condition other condition.now) conditions.now }
{
    let found = conditions
        .iter()
        .position(|other| is_same(other, condition));
    found.unwrap_or(conditions.len())
}

/// The place that a conjunct has among the others once all have the new numbers.
fn renumbered_place(
    alloc: Global,
    kept: &Kept,
    conjuncts: &Conjuncts,
    conjunct: &Condition,
) -> Result<u32, AllocError>
    ensures { IfOk result (λ p. p ≡ spec.renumbered_place (number_in kept.now.numbers.items) conjuncts.now conjunct.now) }
{
    let others = renumbered_conjuncts(alloc, kept, conjuncts)?;
    let condition = renumbered_condition(alloc, kept, conjunct)?;
    let place = place_of(others.as_slice(), &condition);
    id_of(place)
}

/// The same of the conjunct at a place, if there is one.
fn place_in(
    alloc: Global,
    kept: &Kept,
    conjuncts: &Conjuncts,
    place: u32,
) -> Result<u32, AllocError>
    ensures { IfOk result (λ p. p ≡ spec.place_of (number_in kept.now.numbers.items) conjuncts.now place (slice_get conjuncts.now place)) }
{
    match conjuncts.as_slice().get(place as usize) {
        Some(conjunct) => renumbered_place(alloc, kept, conjuncts, conjunct),
        None => Ok(place),
    }
}

/// What a step picks, with new numbers. A conjunct is named by its place among the others, whose order is that of their texts; a class by its number.
pub(crate) fn renumbered_pick(
    alloc: Global,
    kept: &Kept,
    log: &Log<'_>,
    step: &Step,
) -> Result<u32, AllocError>
    ensures { IfOk result (λ p. p ≡ spec.renumbered_pick (number_in kept.now.numbers.items) (pattern_of step.now.rule) (spec.first_member log.now.log step.now.uses) step.now.pick) }
{
    match step.rule.pattern() {
        Pattern::ClassLine(_) => Ok(kept.number(step.pick)),
        Pattern::Subquery | Pattern::SubqueryLine(_) => picked_place(alloc, kept, log, step),
        Pattern::One(_) | Pattern::Two(_, _) | Pattern::Three(_, _, _) => Ok(step.pick),
    }
}

/// The place of the conjunct that a step picks of its first line, once all have the new numbers.
fn picked_place(alloc: Global, kept: &Kept, log: &Log<'_>, step: &Step) -> Result<u32, AllocError>
    ensures { IfOk result (λ p. p ≡ spec.place_at (number_in kept.now.numbers.items) (spec.first_member log.now.log step.now.uses) step.now.pick) }
{
    let Some(first) = step.uses.as_slice().first() else {
        return Ok(step.pick);
    };
    let Some(top) = log.member(*first) else {
        return Ok(step.pick);
    };
    match top.expr {
        Expr::Select(conjuncts, _) => place_in(alloc, kept, conjuncts, step.pick),
        _ => Ok(step.pick),
    }
}
