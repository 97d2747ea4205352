//! Conditions with a class in place of another one, and which columns of that one they ask for.

ghost use Rattle.std.specs.Prelude.{◌≡◌, map, IfOk};
ghost use Rattle.algebra.specs.Alike.{rooted_condition};
ghost use Rattle.algebra.specs.Columns.{has};
ghost use Rattle.subquery_rules.specs.Replacing as spec;

use algebra::{ClassId, Columns, Condition, Conjuncts};
use std::alloc::{AllocError, Global};
use values::{Boxed, Items};

/// A class, and the one that comes in its place.
#[derive(Clone, Copy)]
pub(crate) struct Replacement {
    pub(crate) class: ClassId,
    pub(crate) input: ClassId,
}

impl Replacement {
    fn of(self, class: ClassId) -> ClassId
        ensures { result ≡ spec.in_place self.class self.input class }
    {
        if class == self.class {
            self.input
        } else {
            class
        }
    }
}

/// The condition with the replacement in each subquery.
#[cycle(replaced)]
#[tactic(auto, unfolding(algebra::specs::Alike::rooted_condition))]
fn replaced_condition(
    alloc: Global,
    condition: &Condition,
    new: Replacement,
) -> Result<Condition, AllocError>
    ensures { IfOk result (λ c. c ≡ rooted_condition (spec.in_place new.class new.input) condition.now) }
{
    match condition {
        Condition::Compare(by, a, b) => Ok(Condition::Compare(*by, a.copy(alloc)?, b.copy(alloc)?)),
        Condition::IsNull(a) => Ok(Condition::IsNull(a.copy(alloc)?)),
        Condition::Not(c) => Ok(Condition::Not(replaced_part(alloc, c, new)?)),
        Condition::And(a, b, more) => Ok(Condition::And(
            replaced_part(alloc, a, new)?,
            replaced_part(alloc, b, new)?,
            replaced_conditions(alloc, more.as_slice(), new)?,
        )),
        Condition::Or(a, b, more) => Ok(Condition::Or(
            replaced_part(alloc, a, new)?,
            replaced_part(alloc, b, new)?,
            replaced_conditions(alloc, more.as_slice(), new)?,
        )),
        Condition::Exists(class) => Ok(Condition::Exists(new.of(*class))),
        Condition::In(a, class, column) => Ok(Condition::In(
            a.copy(alloc)?,
            new.of(*class),
            *column,
        )),
    }
}

#[cycle(replaced)]
fn replaced_part(
    alloc: Global,
    part: &Boxed<Condition>,
    new: Replacement,
) -> Result<Boxed<Condition>, AllocError>
    ensures { IfOk result (λ c. c ≡ rooted_condition (spec.in_place new.class new.input) part.now) }
{
    Boxed::new(alloc, replaced_condition(alloc, part.get(), new)?)
}

#[cycle(replaced)]
fn replaced_conditions(
    alloc: Global,
    conditions: &[Condition],
    new: Replacement,
) -> Result<Items<Condition>, AllocError>
    ensures { IfOk result (λ cs. cs ≡ map (rooted_condition (spec.in_place new.class new.input)) conditions.now) }
{
    let mut replaced = Items::new(alloc);
    for condition in conditions {
        replaced.push(replaced_condition(alloc, condition, new)?)?;
    }
    Ok(replaced)
}

/// The conjuncts with the replacement, in order again, each once.
pub(crate) fn replaced(
    alloc: Global,
    conjuncts: &Conjuncts,
    new: Replacement,
) -> Result<Conjuncts, AllocError>
    ensures { IfOk result (λ c. c ≡ spec.replaced new.class new.input conjuncts.now) }
{
    let replaced = replaced_conditions(alloc, conjuncts.as_slice(), new)?;
    Conjuncts::of(alloc, replaced.as_slice())
}

/// Whether each column of the class that a condition asks for is among these.
#[cycle(asks)]
#[tactic(auto, using(crate::proofs::Equations::asks_and, crate::proofs::Equations::asks_or), unfolding(crate::specs::Replacing::asks))]
fn asks_for(condition: &Condition, class: ClassId, columns: &Columns) -> bool
    ensures { result ≡ spec.asks class condition.now (has columns.now) }
{
    match condition {
        Condition::Compare(_, _, _) => true,
        Condition::IsNull(_) => true,
        Condition::Not(c) => asks_for(c.get(), class, columns),
        Condition::And(a, b, more) => {
            let first = asks_for(a.get(), class, columns);
            let second = asks_for(b.get(), class, columns);
            let others = all_ask_for(more.as_slice(), class, columns);
            first && (second && others)
        }
        Condition::Or(a, b, more) => {
            let first = asks_for(a.get(), class, columns);
            let second = asks_for(b.get(), class, columns);
            let others = all_ask_for(more.as_slice(), class, columns);
            first && (second && others)
        }
        Condition::Exists(_) => true,
        Condition::In(_, other, column) => *other != class || columns.contains(*column),
    }
}

#[cycle(asks)]
pub(crate) fn all_ask_for(conditions: &[Condition], class: ClassId, columns: &Columns) -> bool
    ensures { result ≡ spec.all_ask class conditions.now (has columns.now) }
{
    for condition in conditions {
        if !asks_for(condition, class, columns) {
            return false;
        }
    }
    true
}
