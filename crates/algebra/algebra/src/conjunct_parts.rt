//! Lists of conjuncts put together and taken apart.

ghost use Rattle.std.specs.Prelude.{◌≡◌, ◌++◌, IfOk, OnOk};
ghost use Rattle.std.specs.List.{list_all};
ghost use Rattle.algebra.specs.ConjunctParts as spec;
ghost use Rattle.algebra.specs.GivenColumns.{given_columns, given_free};

use crate::condition::{ClassId, Condition, Conjuncts};
use crate::mentions::ClassColumns;
use std::alloc::{AllocError, Global};
use values::Items;

/// Adds copies of conditions.
pub fn add_copies(
    alloc: Global,
    conditions: &[Condition],
    copies: &mut Vec<Condition>,
) -> Result<(), AllocError>
    ensures { OnOk result (copies.new.items ≡ copies.old.items ++ conditions.now) }
{
    for condition in conditions {
        copies.push(condition.copy(alloc)?)?;
    }
    Ok(())
}

/// The conditions that mention no column of a class, and the others.
fn split_without(
    alloc: Global,
    conditions: &[Condition],
    classes: ClassColumns<'_>,
    class: ClassId,
) -> Result<(Items<Condition>, Items<Condition>), AllocError>
    ensures { IfOk result (λ c. (c.0 ≡ spec.part (spec.is_without (given_columns classes.entry) (given_free classes.entry) (given_columns classes.entry class)) conditions.now) × (c.1 ≡ spec.rest (spec.is_without (given_columns classes.entry) (given_free classes.entry) (given_columns classes.entry class)) conditions.now)) }
{
    let mut part = Items::new(alloc);
    let mut rest = Items::new(alloc);
    for condition in conditions {
        if condition.is_without(alloc, classes, class)? {
            part.push(condition.copy(alloc)?)?;
        } else {
            rest.push(condition.copy(alloc)?)?;
        }
    }
    Ok((part, rest))
}

/// Whether none of the conditions mentions a column of a class.
fn are_without(
    alloc: Global,
    conditions: &[Condition],
    classes: ClassColumns<'_>,
    class: ClassId,
) -> Result<bool, AllocError>
    ensures { IfOk result (λ b. b ≡ list_all (spec.is_without (given_columns classes.entry) (given_free classes.entry) (given_columns classes.entry class)) conditions.now) }
{
    for condition in conditions {
        if !condition.is_without(alloc, classes, class)? {
            return Ok(false);
        }
    }
    Ok(true)
}

/// The conditions that have no subquery, and the others.
fn split_plain(
    alloc: Global,
    conditions: &[Condition],
) -> Result<(Items<Condition>, Items<Condition>), AllocError>
    ensures { IfOk result (λ c. (c.0 ≡ spec.part spec.has_no_class conditions.now) × (c.1 ≡ spec.rest spec.has_no_class conditions.now)) }
{
    let mut part = Items::new(alloc);
    let mut rest = Items::new(alloc);
    for condition in conditions {
        if condition.has_no_class() {
            part.push(condition.copy(alloc)?)?;
        } else {
            rest.push(condition.copy(alloc)?)?;
        }
    }
    Ok((part, rest))
}

impl Conjuncts {
    /// The conjuncts of both lists.
    pub fn union(&self, alloc: Global, other: &Conjuncts) -> Result<Conjuncts, AllocError>
        ensures { IfOk result (λ c. c ≡ spec.union self.now other.now) }
    {
        let mut both = Vec::new(alloc);
        add_copies(alloc, self.as_slice(), &mut both)?;
        add_copies(alloc, other.as_slice(), &mut both)?;
        Conjuncts::of(alloc, both.as_slice())
    }

    /// Whether none of the conjuncts mentions a column of a class.
    pub fn are_without(
        &self,
        alloc: Global,
        classes: ClassColumns<'_>,
        class: ClassId,
    ) -> Result<bool, AllocError>
        ensures { IfOk result (λ b. b ≡ list_all (spec.is_without (given_columns classes.entry) (given_free classes.entry) (given_columns classes.entry class)) self.now) }
    {
        are_without(alloc, self.as_slice(), classes, class)
    }

    /// The conjuncts that mention no column of a class, and the others.
    pub fn split_without(
        &self,
        alloc: Global,
        classes: ClassColumns<'_>,
        class: ClassId,
    ) -> Result<(Conjuncts, Conjuncts), AllocError>
        ensures { IfOk result (λ c. (c.0 ≡ spec.part (spec.is_without (given_columns classes.entry) (given_free classes.entry) (given_columns classes.entry class)) self.now) × (c.1 ≡ spec.rest (spec.is_without (given_columns classes.entry) (given_free classes.entry) (given_columns classes.entry class)) self.now)) }
    {
        let (part, rest) = split_without(alloc, self.as_slice(), classes, class)?;
        Ok((Conjuncts::from_items(part), Conjuncts::from_items(rest)))
    }

    /// The conjuncts that have no subquery, and the others.
    pub fn split_plain(&self, alloc: Global) -> Result<(Conjuncts, Conjuncts), AllocError>
        ensures { IfOk result (λ c. (c.0 ≡ spec.part spec.has_no_class self.now) × (c.1 ≡ spec.rest spec.has_no_class self.now)) }
    {
        let (part, rest) = split_plain(alloc, self.as_slice())?;
        Ok((Conjuncts::from_items(part), Conjuncts::from_items(rest)))
    }
}
