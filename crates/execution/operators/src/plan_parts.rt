//! Parts of plans.

ghost use Rattle.std.specs.Prelude.{◌≡◌, drop, MatchOption};
ghost use Rattle.operators.specs.Distinct.{IsProjection};
ghost use Rattle.operators.specs.FilteredJoins.{IsInnerJoin};

use algebra::{Columns, Conjuncts};
use physical::{Matching, Node, Operator, Plan};

/// The conditions of an inner join.
pub fn inner_conjuncts(node: &Node) -> Option<&Conjuncts>
    ensures { MatchOption result (Unit {0}) (λ conjuncts. IsInnerJoin node.now conjuncts.now) }
{
    let Node::Implements { operator, .. } = node else {
        return None;
    };
    let Operator::JoinRows { matching, .. } = operator else {
        return None;
    };
    let Matching::Inner(conjuncts) = matching else {
        return None;
    };
    Some(conjuncts)
}

/// Whether there is an input, and it is an inner join.
pub fn is_inner_join(input: Option<&Plan>) -> bool {
    match input {
        Some(plan) => inner_conjuncts(&plan.node).is_some(),
        None => false,
    }
}

/// The inputs behind the first.
pub fn behind_first(inputs: &[Plan]) -> &[Plan]
    ensures { result.now ≡ drop 1 inputs.entry.now }
{
    match inputs.split_first() {
        Some((_, rest)) => rest,
        None => inputs,
    }
}

/// The columns of a projection, if it has some.
pub fn projected_columns(node: &Node) -> Option<&Columns>
    ensures { MatchOption result (Unit {0}) (λ columns. IsProjection node.now columns.now) }
{
    let Node::Implements { operator, .. } = node else {
        return None;
    };
    let Operator::Projection { columns } = operator else {
        return None;
    };
    if columns.as_slice().is_empty() {
        return None;
    }
    Some(columns)
}
