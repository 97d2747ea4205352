//! Plans with new numbers of lines.

ghost use Rattle.std.specs.Prelude.{◌≡◌, map, IfOk};
ghost use Rattle.trimming.specs.Kept.{number_in};
ghost use Rattle.trimming.specs.Renumbered as spec;

use crate::kept::Kept;
use crate::renumbered::renumbered_conjuncts;
use physical::{IndexAccess, Matching, Node, Operator, Plan};
use std::alloc::{AllocError, Global};
use values::Items;

fn renumbered_access(kept: &Kept, access: IndexAccess) -> IndexAccess
    ensures { result ≡ spec.renumbered_access (number_in kept.now.numbers.items) access }
{
    let IndexAccess {
        line,
        instance,
        index,
    } = access;
    IndexAccess {
        line: kept.number(line),
        instance,
        index,
    }
}

fn renumbered_matching(
    alloc: Global,
    kept: &Kept,
    matching: &Matching,
) -> Result<Matching, AllocError>
    ensures { IfOk result (λ m. m ≡ spec.renumbered_matching (number_in kept.now.numbers.items) matching.now) }
{
    match matching {
        Matching::Inner(on) => Ok(Matching::Inner(renumbered_conjuncts(alloc, kept, on)?)),
        Matching::Left(on) => Ok(Matching::Left(renumbered_conjuncts(alloc, kept, on)?)),
        Matching::Semi(on) => Ok(Matching::Semi(renumbered_conjuncts(alloc, kept, on)?)),
        Matching::Anti(ordinary, null_aware) => Ok(Matching::Anti(
            renumbered_conjuncts(alloc, kept, ordinary)?,
            renumbered_conjuncts(alloc, kept, null_aware)?,
        )),
    }
}

fn renumbered_operator(
    alloc: Global,
    kept: &Kept,
    operator: &Operator,
) -> Result<Operator, AllocError>
    ensures { IfOk result (λ o. o ≡ spec.renumbered_operator (number_in kept.now.numbers.items) operator.now) }
{
    match operator {
        Operator::IndexScan { access, conjuncts } => {
            let access = renumbered_access(kept, *access);
            let conjuncts = renumbered_conjuncts(alloc, kept, conjuncts)?;
            Ok(Operator::IndexScan { access, conjuncts })
        }
        Operator::Filter { conjuncts } => {
            let conjuncts = renumbered_conjuncts(alloc, kept, conjuncts)?;
            Ok(Operator::Filter { conjuncts })
        }
        Operator::FilterSubqueries { conjuncts } => {
            let conjuncts = renumbered_conjuncts(alloc, kept, conjuncts)?;
            Ok(Operator::FilterSubqueries { conjuncts })
        }
        Operator::JoinRows { method, matching } => {
            let method = *method;
            let matching = renumbered_matching(alloc, kept, matching)?;
            Ok(Operator::JoinRows { method, matching })
        }
        Operator::IndexJoin { access, matching } => {
            let access = renumbered_access(kept, *access);
            let matching = renumbered_matching(alloc, kept, matching)?;
            Ok(Operator::IndexJoin { access, matching })
        }
        Operator::Scan { .. }
        | Operator::Projection { .. }
        | Operator::GroupRows { .. }
        | Operator::DistinctRows { .. } => operator.copy(alloc),
    }
}

fn renumbered_node(alloc: Global, kept: &Kept, node: &Node) -> Result<Node, AllocError>
    ensures { IfOk result (λ n. n ≡ spec.renumbered_node (number_in kept.now.numbers.items) node.now) }
{
    match node {
        Node::Implements { line, operator } => {
            let line = kept.number(*line);
            let operator = renumbered_operator(alloc, kept, operator)?;
            Ok(Node::Implements { line, operator })
        }
        Node::Sort { .. } => node.copy(alloc),
    }
}

/// The plan with new numbers. It calls itself as deep as the plan is.
#[cycle(plans)]
pub(crate) fn renumbered_plan(alloc: Global, kept: &Kept, plan: &Plan) -> Result<Plan, AllocError>
    ensures { IfOk result (λ p. p ≡ spec.renumbered_plan (number_in kept.now.numbers.items) plan.now) }
{
    let node = renumbered_node(alloc, kept, &plan.node)?;
    let inputs = renumbered_plans(alloc, kept, plan.inputs.as_slice())?;
    Ok(Plan { node, inputs })
}

#[cycle(plans)]
fn renumbered_plans(alloc: Global, kept: &Kept, plans: &[Plan]) -> Result<Items<Plan>, AllocError>
    ensures { IfOk result (λ ps. ps ≡ map (spec.renumbered_plan (number_in kept.now.numbers.items)) plans.now) }
{
    let mut renumbered = Items::new(alloc);
    for plan in plans {
        renumbered.push(renumbered_plan(alloc, kept, plan)?)?;
    }
    Ok(renumbered)
}
