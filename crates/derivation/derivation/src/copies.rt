//! Copies of lines.

ghost use Rattle.std.specs.Prelude.{◌≡◌, IfOk};

use crate::line::{Line, Step};
use algebra::{Aggregations, Columns, Conjuncts, Expr};
use props::Fact;
use std::alloc::{AllocError, Global};
use values::Boxed;

fn copy_lists(
    alloc: Global,
    ordinary: &Conjuncts,
    null_aware: &Conjuncts,
) -> Result<(Conjuncts, Conjuncts), AllocError>
    ensures { IfOk result (λ lists. lists ≡ (ordinary.now, null_aware.now)) }
{
    let ordinary = ordinary.copy(alloc)?;
    Ok((ordinary, null_aware.copy(alloc)?))
}

fn copy_grouping(
    alloc: Global,
    keys: &Columns,
    added: &Aggregations,
) -> Result<(Columns, Aggregations), AllocError>
    ensures { IfOk result (λ grouping. grouping ≡ (keys.now, added.now)) }
{
    let keys = keys.copy(alloc)?;
    Ok((keys, added.copy(alloc)?))
}

/// An expression like this one.
pub fn copy_expr(alloc: Global, expr: &Expr) -> Result<Expr, AllocError>
    ensures { IfOk result (λ x. x ≡ expr.now) }
{
    match expr {
        Expr::Get(instance) => Ok(Expr::Get(*instance)),
        Expr::Select(on, x) => Ok(Expr::Select(on.copy(alloc)?, *x)),
        Expr::Join(on, a, b) => Ok(Expr::Join(on.copy(alloc)?, *a, *b)),
        Expr::LeftJoin(on, a, b) => Ok(Expr::LeftJoin(on.copy(alloc)?, *a, *b)),
        Expr::Semi(on, a, b) => Ok(Expr::Semi(on.copy(alloc)?, *a, *b)),
        Expr::Anti(ordinary, null_aware, a, b) => {
            let (ordinary, null_aware) = copy_lists(alloc, ordinary, null_aware)?;
            Ok(Expr::Anti(ordinary, null_aware, *a, *b))
        }
        Expr::Keep(columns, x) => Ok(Expr::Keep(columns.copy(alloc)?, *x)),
        Expr::Distinct(x) => Ok(Expr::Distinct(*x)),
        Expr::Group(keys, added, x) => {
            let (keys, added) = copy_grouping(alloc, keys, added)?;
            Ok(Expr::Group(keys, added, *x))
        }
    }
}

/// A fact like this one.
pub fn copy_fact(alloc: Global, fact: &Fact) -> Result<Fact, AllocError>
    ensures { IfOk result (λ f. f ≡ fact.now) }
{
    match fact {
        Fact::NotNull(column) => Ok(Fact::NotNull(*column)),
        Fact::WeakKey(key) => Ok(Fact::WeakKey(key.copy(alloc)?)),
        Fact::StrongKey(key) => Ok(Fact::StrongKey(key.copy(alloc)?)),
    }
}

fn copy_step(alloc: Global, step: &Step) -> Result<Boxed<Step>, AllocError>
    ensures { IfOk result (λ s. s ≡ step.now) }
{
    let uses = step.uses.copy(alloc)?;
    let makes = step.makes.copy(alloc)?;
    Boxed::new(
        alloc,
        Step {
            rule: step.rule,
            pick: step.pick,
            uses,
            makes,
        },
    )
}

impl Line {
    pub fn copy(&self, alloc: Global) -> Result<Line, AllocError>
        ensures { IfOk result (λ l. l ≡ self.now) }
    {
        match self {
            Line::Founds(expr) => Ok(Line::Founds(copy_expr(alloc, expr)?)),
            Line::Adds(class, step, expr) => {
                let step = copy_step(alloc, step.get())?;
                Ok(Line::Adds(*class, step, copy_expr(alloc, expr)?))
            }
            Line::Unites(first, second, step) => {
                Ok(Line::Unites(*first, *second, copy_step(alloc, step.get())?))
            }
            Line::Alike(first, second) => Ok(Line::Alike(*first, *second)),
            Line::Gives(class, member, fact) => {
                Ok(Line::Gives(*class, *member, copy_fact(alloc, fact)?))
            }
        }
    }
}
