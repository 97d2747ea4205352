//! The classes whose rows a node needs as inputs.

ghost use Rattle.std.specs.Prelude.{◌≡◌, ◌∷◌, [], IfOk, take};
ghost use Rattle.algebra.specs.Expressions.{children};
ghost use Rattle.certificate.specs.Replay as spec;

use algebra::{ClassId, Expr};
use physical::Operator;
use std::alloc::{AllocError, Global};

fn one_class(alloc: Global, class: ClassId) -> Result<Vec<ClassId>, AllocError>
    ensures { IfOk result (λ classes. classes.items ≡ class ∷ []) }
{
    let mut classes = Vec::new(alloc);
    classes.push(class)?;
    Ok(classes)
}

/// The first class whose rows the expression takes, alone.
fn first_class(alloc: Global, expr: &Expr) -> Result<Vec<ClassId>, AllocError>
    ensures { IfOk result (λ classes. classes.items ≡ take 1 (children expr.now)) }
{
    match expr {
        Expr::Get(_) => Ok(Vec::new(alloc)),
        Expr::Select(_, first)
        | Expr::Join(_, first, _)
        | Expr::LeftJoin(_, first, _)
        | Expr::Semi(_, first, _)
        | Expr::Anti(_, _, first, _)
        | Expr::Keep(_, first)
        | Expr::Distinct(first)
        | Expr::Group(_, _, first) => one_class(alloc, *first),
    }
}

/// The classes whose rows an operator needs as inputs.
pub fn needed_classes(
    alloc: Global,
    operator: &Operator,
    expr: &Expr,
) -> Result<Vec<ClassId>, AllocError>
    ensures { IfOk result (λ classes. classes.items ≡ spec.needed_classes operator.now expr.now) }
{
    match operator {
        Operator::IndexScan { .. } => Ok(Vec::new(alloc)),
        Operator::IndexJoin { .. } => first_class(alloc, expr),
        Operator::Scan { .. }
        | Operator::Filter { .. }
        | Operator::FilterSubqueries { .. }
        | Operator::Projection { .. }
        | Operator::JoinRows { .. }
        | Operator::GroupRows { .. }
        | Operator::DistinctRows { .. } => expr.inputs(alloc),
    }
}
