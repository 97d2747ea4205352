//! Conjuncts in the order in which certificates spell them.

ghost use Rattle.std.specs.Prelude.{◌≡◌, ◌≤◌, ◌++◌, true, false, length, flat_map, IfOk, OnOk};
ghost use Rattle.std.specs.List.{position_or_len};
ghost use Rattle.std.specs.List.Sorted.{IsPartitionPoint};
ghost use Rattle.algebra.specs.ConditionEquality.{same_condition};
ghost use Rattle.algebra.specs.ConjunctOrder as spec;

use crate::condition::{Condition, Conjuncts};
use crate::condition_text::condition_text;
use std::alloc::{AllocError, Global};
use std::marker::Model;
use values::{Boxed, Items};

/// A condition and its text, by which conjuncts are ordered.
#[derive(Drop)]
struct Spelt {
    text: String,
    condition: Condition,
}

impl Model for Spelt {
    ghost use Rattle.algebra.specs.declared.condition.Condition.{Condition};

    ghost Value = { Condition };

    ghost use Rattle.algebra.specs.contracts.condition.Condition as e;
    ghost use Rattle.std.specs.Coded.{codes};

    ghost coded = { Prim.hlevel (codes, e.the_row.coded) };

    ghost view = { λ s. s.condition };

    ghost use Rattle.std.specs.Prelude.{◌≡◌, string_bytes};
    ghost use Rattle.algebra.specs.ConjunctOrder.{condition_text};

    ghost invariant = { λ s. string_bytes s.text ≡ condition_text s.condition };
}

impl Spelt {
    fn new(alloc: Global, condition: Condition) -> Result<Spelt, AllocError>
        ensures { IfOk result (λ s. s ≡ condition) }
    {
        let text = condition_text(alloc, &condition)?;
        Ok(Spelt { text, condition })
    }

    #[tactic(auto, using(crate::proofs::Same::tested_condition))]
    fn same(&self, other: &Spelt) -> bool
        ensures { result ≡ same_condition self.now other.now }
    {
        self.condition.same(&other.condition)
    }

    #[tactic(auto, unfolding(crate::specs::ConjunctOrder::goes_before))]
    fn goes_before(&self, other: &Spelt) -> bool
        ensures { result ≡ spec.goes_before self.now other.now }
    {
        self.text.as_str() < other.text.as_str()
    }

    /// Whether the search for this condition's place ends at another.
    fn ends_search(&self, other: &Spelt) -> bool
        ensures { result ≡ spec.ends_search self.now other.now }
    {
        self.same(other) || self.goes_before(other)
    }

    fn into_condition(self) -> Condition
        ensures { result ≡ self }
    {
        self.condition
    }
}

/// The place of the first condition that is the same or goes after it, or the place behind all.
fn end_of_search(order: &[Boxed<Spelt>], new: &Spelt) -> usize
    ensures within { result ≤ length order.now }
    ensures place { result ≡ position_or_len (spec.ends_search new.now) order.now }
{
    let place = order.iter().position(|other| new.ends_search(other.get()));
    place.unwrap_or(order.len())
}

/// How many conditions go before it, of some in order.
fn count_before(order: &[Boxed<Spelt>], new: &Spelt) -> usize
    requires { spec.IsInOrder order.now }
    ensures within { result ≤ length order.now }
    ensures before { IsPartitionPoint (λ c. spec.goes_before c new.now ≡ true) (λ c. spec.goes_before c new.now ≡ false) order.now result }
{
    order.partition_point(|other| other.get().goes_before(new))
}

/// The place of the first condition that is the same or goes after it, of some in order, or the place behind all.
fn place_of(order: &[Boxed<Spelt>], new: &Spelt) -> usize
    requires { spec.IsInOrder order.now }
    ensures { result ≡ position_or_len (spec.ends_search new.now) order.now }
{
    let before = count_before(order, new);
    before + end_of_search(&order[before..], new)
}

/// Puts a condition at its place, unless it is there.
fn put_in_order(
    alloc: Global,
    mut order: Vec<Boxed<Spelt>>,
    new: Spelt,
) -> Result<Vec<Boxed<Spelt>>, AllocError>
    requires { spec.IsInOrder order.items }
    ensures { IfOk result (λ o. o.items ≡ spec.put_in_order new order.items) }
{
    let place = place_of(order.as_slice(), &new);
    if let Some(other) = order.get(place) {
        if new.same(other.get()) {
            drop(new);
            return Ok(order);
        }
    }
    order.insert(place, Boxed::new(alloc, new)?)?;
    Ok(order)
}

fn conditions_of(alloc: Global, order: Vec<Boxed<Spelt>>) -> Result<Items<Condition>, AllocError>
    ensures { IfOk result (λ conditions. conditions ≡ order.items) }
{
    let mut conditions = Vec::with_capacity(alloc, order.len())?;
    for spelt in order {
        conditions.push(spelt.into_inner().into_condition())?;
    }
    Ok(Items::from_vec(conditions))
}

/// The conditions in rising order of their texts, each once.
fn in_order(alloc: Global, mut conditions: Vec<Condition>) -> Result<Items<Condition>, AllocError>
    ensures { IfOk result (λ ordered. ordered ≡ spec.in_order conditions.items) }
{
    let mut order = Vec::new(alloc);
    while let Some(condition) = conditions.pop() {
        order = put_in_order(alloc, order, Spelt::new(alloc, condition)?)?;
    }
    conditions_of(alloc, order)
}

/// Adds the parts of the ANDs at the top of a condition.
#[cycle(parts)]
fn add_parts(
    alloc: Global,
    condition: &Condition,
    parts: &mut Vec<Condition>,
) -> Result<(), AllocError>
    ensures { OnOk result (parts.new.items ≡ parts.old.items ++ spec.parts_of condition.now) }
{
    match condition {
        Condition::And(a, b, more) => {
            add_parts(alloc, a.get(), parts)?;
            add_parts(alloc, b.get(), parts)?;
            add_all_parts(alloc, more.as_slice(), parts)
        }
        _ => {
            parts.push(condition.copy(alloc)?)?;
            Ok(())
        }
    }
}

#[cycle(parts)]
fn add_all_parts(
    alloc: Global,
    conditions: &[Condition],
    parts: &mut Vec<Condition>,
) -> Result<(), AllocError>
    ensures { OnOk result (parts.new.items ≡ parts.old.items ++ flat_map spec.parts_of conditions.now) }
{
    for condition in conditions {
        add_parts(alloc, condition, parts)?;
    }
    Ok(())
}

impl Conjuncts {
    /// The conjuncts of conditions: the parts of the ANDs at their tops, in rising order of their texts, each once.
    pub fn of(alloc: Global, conditions: &[Condition]) -> Result<Conjuncts, AllocError>
        ensures { IfOk result (λ c. c ≡ spec.conjuncts conditions.now) }
    {
        let mut parts = Vec::new(alloc);
        add_all_parts(alloc, conditions, &mut parts)?;
        Ok(Conjuncts::from_items(in_order(alloc, parts)?))
    }
}
