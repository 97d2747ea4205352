//! The lines that the nodes of a plan need.

use crate::needed::Needed;
use crate::sameness::class_at;
use algebra::{ClassId, Expr, LineId};
use physical::{Node, Operator, Plan};
use std::alloc::{AllocError, Global};

/// The classes whose rows the inputs of an operator produce that computes an expression.
fn input_classes(
    alloc: Global,
    operator: &Operator,
    expr: &Expr,
) -> Result<Vec<ClassId>, AllocError> {
    let (first, _) = expr.children();
    match operator {
        Operator::IndexScan { .. } => Ok(Vec::new(alloc)),
        Operator::IndexJoin { .. } => {
            let mut classes = Vec::new(alloc);
            if let Some(class) = first {
                classes.push(class)?;
            }
            Ok(classes)
        }
        Operator::Scan { .. }
        | Operator::Filter { .. }
        | Operator::FilterSubqueries { .. }
        | Operator::Projection { .. }
        | Operator::JoinRows { .. }
        | Operator::GroupRows { .. }
        | Operator::DistinctRows { .. } => expr.inputs(alloc),
    }
}

/// What an operator reads by an index is the table instance that its expression takes.
fn need_access(
    needed: &mut Needed<'_, '_>,
    operator: &Operator,
    expr: &Expr,
) -> Result<(), AllocError> {
    let (access, class) = match operator {
        Operator::IndexScan { access, .. } => (access, expr.children().0),
        Operator::IndexJoin { access, .. } => (access, expr.children().1),
        _ => return Ok(()),
    };
    needed.line(access.line)?;
    match class {
        Some(class) => needed.same(class_at(needed.log(), access.line), class),
        None => Ok(()),
    }
}

/// A node needs the line that it implements, which is of the class, and that its inputs are of the classes that this line names. What it names in
/// conditions, the line does too.
#[cycle(plan_lines)]
fn need_operator(
    alloc: Global,
    needed: &mut Needed<'_, '_>,
    line: LineId,
    operator: &Operator,
    inputs: &[Plan],
    class: ClassId,
) -> Result<(), AllocError> {
    needed.line(line)?;
    let Some(member) = needed.log().member(line) else {
        return Ok(());
    };
    needed.same(member.class, class)?;
    needed.count(member.class)?;
    need_access(needed, operator, member.expr)?;
    let classes = input_classes(alloc, operator, member.expr)?;
    for (place, input) in inputs.iter().enumerate() {
        if let Some(class) = classes.get(place) {
            need_plan(alloc, needed, input, *class)?;
        }
    }
    Ok(())
}

/// What a plan of a class needs. It calls itself as deep as the plan is.
#[cycle(plan_lines)]
pub(crate) fn need_plan(
    alloc: Global,
    needed: &mut Needed<'_, '_>,
    plan: &Plan,
    class: ClassId,
) -> Result<(), AllocError> {
    let inputs = plan.inputs.as_slice();
    match &plan.node {
        Node::Implements { line, operator } => {
            need_operator(alloc, needed, *line, operator, inputs, class)
        }
        Node::Sort { .. } => {
            for input in inputs {
                need_plan(alloc, needed, input, class)?;
            }
            Ok(())
        }
    }
}
