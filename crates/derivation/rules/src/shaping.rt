//! Shapes as rules make them.

ghost use Rattle.std.specs.Prelude.{◌≡◌, IfOk};
ghost use Rattle.rules.specs.declared.shape.Shape.TheVariants as shape;
ghost use Rattle.values.specs.Faults.{Gives};
ghost use Rattle.rules.specs.Conjuncts.{wanted_some};
ghost use Rattle.rules.specs.Shapes as spec;

use crate::shape::Shape;
use crate::unfit::{RuleFault, Unfit};
use algebra::{Aggregations, Columns, Conjuncts};
use std::alloc::{AllocError, Global};
use values::{Boxed, Fault};

/// The conjuncts, which have to be some.
pub fn some(conjuncts: Conjuncts) -> Result<Conjuncts, RuleFault>
    ensures { Gives (λ c. c) result (wanted_some conjuncts) }
{
    if conjuncts.as_slice().is_empty() {
        Err(Fault::Refused(Unfit::Pattern))
    } else {
        Ok(conjuncts)
    }
}

pub fn select(alloc: Global, conjuncts: Conjuncts, input: Shape) -> Result<Shape, AllocError>
    ensures { IfOk result (λ s. s ≡ shape.Select conjuncts input) }
{
    Ok(Shape::Select(conjuncts, Boxed::new(alloc, input)?))
}

/// The selection, or its input where there are no conjuncts.
pub fn selected(alloc: Global, conjuncts: Conjuncts, input: Shape) -> Result<Shape, AllocError>
    ensures { IfOk result (λ s. s ≡ spec.selected conjuncts input) }
{
    if conjuncts.as_slice().is_empty() {
        Ok(input)
    } else {
        select(alloc, conjuncts, input)
    }
}

/// The sides of a join, in boxes.
fn boxed(
    alloc: Global,
    left: Shape,
    right: Shape,
) -> Result<(Boxed<Shape>, Boxed<Shape>), AllocError>
    ensures { IfOk result (λ sides. sides ≡ (left, right)) }
{
    let right = Boxed::new(alloc, right);
    let left = Boxed::new(alloc, left)?;
    Ok((left, right?))
}

pub fn join(
    alloc: Global,
    conjuncts: Conjuncts,
    left: Shape,
    right: Shape,
) -> Result<Shape, AllocError>
    ensures { IfOk result (λ s. s ≡ shape.Join conjuncts left right) }
{
    let (left, right) = boxed(alloc, left, right)?;
    Ok(Shape::Join(conjuncts, left, right))
}

pub fn left_join(
    alloc: Global,
    conjuncts: Conjuncts,
    left: Shape,
    right: Shape,
) -> Result<Shape, AllocError>
    ensures { IfOk result (λ s. s ≡ shape.LeftJoin conjuncts left right) }
{
    let (left, right) = boxed(alloc, left, right)?;
    Ok(Shape::LeftJoin(conjuncts, left, right))
}

pub fn keep(alloc: Global, columns: Columns, input: Shape) -> Result<Shape, AllocError>
    ensures { IfOk result (λ s. s ≡ shape.Keep columns input) }
{
    Ok(Shape::Keep(columns, Boxed::new(alloc, input)?))
}

pub fn semi(
    alloc: Global,
    conjuncts: Conjuncts,
    left: Shape,
    right: Shape,
) -> Result<Shape, AllocError>
    ensures { IfOk result (λ s. s ≡ shape.Semi conjuncts left right) }
{
    let (left, right) = boxed(alloc, left, right)?;
    Ok(Shape::Semi(conjuncts, left, right))
}

/// An antijoin, of ordinary and of null-aware conditions.
pub fn anti(
    alloc: Global,
    lists: (Conjuncts, Conjuncts),
    left: Shape,
    right: Shape,
) -> Result<Shape, AllocError>
    ensures { IfOk result (λ s. s ≡ shape.Anti lists.0 lists.1 left right) }
{
    let (left, right) = boxed(alloc, left, right)?;
    let (ordinary, null_aware) = lists;
    Ok(Shape::Anti(ordinary, null_aware, left, right))
}

pub fn group(
    alloc: Global,
    keys: Columns,
    added: Aggregations,
    input: Shape,
) -> Result<Shape, AllocError>
    ensures { IfOk result (λ s. s ≡ shape.Group keys added input) }
{
    Ok(Shape::Group(keys, added, Boxed::new(alloc, input)?))
}
