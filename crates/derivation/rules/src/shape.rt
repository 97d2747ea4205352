//! What rules give.

use algebra::{Aggregations, ClassId, Columns, Conjuncts};
use values::Boxed;

/// An expression whose inputs are classes, or are expressions made with it.
#[derive(Drop)]
pub enum Shape {
    Class(ClassId),
    Select(Conjuncts, Boxed<Shape>),
    Join(Conjuncts, Boxed<Shape>, Boxed<Shape>),
    LeftJoin(Conjuncts, Boxed<Shape>, Boxed<Shape>),
    Semi(Conjuncts, Boxed<Shape>, Boxed<Shape>),
    Anti(Conjuncts, Conjuncts, Boxed<Shape>, Boxed<Shape>),
    Keep(Columns, Boxed<Shape>),
    Distinct(Boxed<Shape>),
    Group(Columns, Aggregations, Boxed<Shape>),
}
