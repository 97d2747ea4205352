//! Operators whose inputs are still to be found.

ghost use Rattle.std.specs.Prelude.{◌≡◌, IfOk};
ghost use Rattle.bindings.specs.Operators as spec;

use algebra::{Aggregations, ClassId, Columns, Conjuncts, Expr};
use std::alloc::{AllocError, Global};

/// An operator over one input, which is still to be found.
#[derive(Clone, Copy)]
pub enum OverOne<'a> {
    Select(&'a Conjuncts),
    Keep(&'a Columns),
    Distinct,
    Group(&'a Columns, &'a Aggregations),
}

/// An operator over two.
#[derive(Clone, Copy)]
pub enum OverTwo<'a> {
    Join(&'a Conjuncts),
    LeftJoin(&'a Conjuncts),
    Semi(&'a Conjuncts),
    Anti(&'a Conjuncts, &'a Conjuncts),
}

impl OverOne<'_> {
    /// The operator over a class.
    pub fn over(self, alloc: Global, class: ClassId) -> Result<Expr, AllocError>
        ensures { IfOk result (λ expr. expr ≡ spec.over_one self.entry class) }
    {
        match self {
            OverOne::Select(c) => Ok(Expr::Select(c.copy(alloc)?, class)),
            OverOne::Keep(k) => Ok(Expr::Keep(k.copy(alloc)?, class)),
            OverOne::Distinct => Ok(Expr::Distinct(class)),
            OverOne::Group(k, added) => Ok(Expr::Group(k.copy(alloc)?, added.copy(alloc)?, class)),
        }
    }
}

impl OverTwo<'_> {
    /// The operator over two classes.
    pub fn over(self, alloc: Global, left: ClassId, right: ClassId) -> Result<Expr, AllocError>
        ensures { IfOk result (λ expr. expr ≡ spec.over_two self.entry left right) }
    {
        match self {
            OverTwo::Join(c) => Ok(Expr::Join(c.copy(alloc)?, left, right)),
            OverTwo::LeftJoin(c) => Ok(Expr::LeftJoin(c.copy(alloc)?, left, right)),
            OverTwo::Semi(c) => Ok(Expr::Semi(c.copy(alloc)?, left, right)),
            OverTwo::Anti(s, m) => Ok(Expr::Anti(s.copy(alloc)?, m.copy(alloc)?, left, right)),
        }
    }
}
