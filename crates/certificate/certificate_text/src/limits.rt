//! The limits of a certificate's text.

ghost use Rattle.std.specs.Prelude.{◌≡◌, ◌+◌, ◌∷◌, ◌++◌, ◌&&◌, nat_lt, [], map, Ok};
ghost use Rattle.values.specs.Faults.{Gives};
ghost use Rattle.values.specs.declared.fault.Fault.TheVariants.{Refused};
ghost use Rattle.certificate_text.specs.Conditions.{nests_within};
ghost use Rattle.certificate_text.specs.declared.fault.TextRefusal.{TextRefusal};
ghost use Rattle.certificate_text.specs.CertificateText.{certificate_text};
ghost use Rattle.certificate_text.specs.Limits as spec;

use crate::fault::{TextFault, TextReason, TextRefusal};
use crate::node_text::count_nodes;
use algebra::Condition;
use certificate::Certificate;
use derivation::Line;
use physical::{Matching, Node, Operator, Plan};
use values::Fault;

/// The most lines that a derivation may have.
pub const MOST_LINES: usize = 200_000;

/// The most nodes that a plan may have.
pub const MOST_NODES: usize = 200_000;

/// The most conditions that may stand in one another, with the innermost.
pub const MOST_NESTED: usize = 256;

/// The most nodes that may stand from the root down.
pub const MOST_DEEP: usize = 1_024;

/// Whether no more conditions stand in one another than there is room for.
#[cycle(nested)]
#[tactic(auto, using(crate::proofs::LimitLists::nests_nowhere))]
fn nests_within(condition: &Condition, room: usize) -> bool
    ensures { result ≡ nests_within condition.now room }
{
    match room.checked_sub(1) {
        Some(inside) => parts_within(condition, inside),
        None => false,
    }
}

/// Whether in each part of a condition no more conditions stand in one another than there is room for.
#[cycle(nested)]
#[tactic(auto, using(crate::proofs::LimitLists::part_compare, crate::proofs::LimitLists::part_is_null, crate::proofs::LimitLists::part_not, crate::proofs::LimitLists::part_and, crate::proofs::LimitLists::part_or, crate::proofs::LimitLists::part_exists, crate::proofs::LimitLists::part_in))]
fn parts_within(condition: &Condition, room: usize) -> bool
    ensures { result ≡ nests_within condition.now (room + 1) }
{
    match condition {
        Condition::Compare(_, _, _) => true,
        Condition::IsNull(_) => true,
        Condition::Not(c) => nests_within(c.get(), room),
        Condition::And(a, b, cs) => {
            let first = nests_within(a.get(), room);
            let second = nests_within(b.get(), room);
            all_of(first, second, all_nest_within(cs.as_slice(), room))
        }
        Condition::Or(a, b, cs) => {
            let first = nests_within(a.get(), room);
            let second = nests_within(b.get(), room);
            all_of(first, second, all_nest_within(cs.as_slice(), room))
        }
        Condition::Exists(_) => true,
        Condition::In(_, _, _) => true,
    }
}

fn all_of(first: bool, second: bool, more: bool) -> bool
    ensures { result ≡ (first && (second && more)) }
{
    first && (second && more)
}

#[cycle(nested)]
fn all_nest_within(conditions: &[Condition], room: usize) -> bool
    ensures { result ≡ spec.all_nest_within conditions.now room }
{
    for condition in conditions {
        if !nests_within(condition, room) {
            return false;
        }
    }
    true
}

/// Whether the conditions of two lists are within the limit.
fn both_within(first: &[Condition], second: &[Condition]) -> bool
    ensures { result ≡ spec.all_nest_within (first.now ++ second.now) spec.most_nested }
{
    all_nest_within(first, MOST_NESTED) && all_nest_within(second, MOST_NESTED)
}

fn line_is_within(line: &Line) -> bool
    ensures { result ≡ spec.line_is_within line.now }
{
    match line {
        Line::Founds(expr) | Line::Adds(_, _, expr) => {
            let (first, second) = expr.conditions();
            both_within(first, second)
        }
        Line::Unites(_, _, _) | Line::Alike(_, _) | Line::Gives(_, _, _) => true,
    }
}

/// The conditions of a join, in two parts.
fn matching_conditions(matching: &Matching) -> (&[Condition], &[Condition])
    ensures { result.0.now ++ result.1.now ≡ spec.matching_conditions matching.now }
{
    match matching {
        Matching::Inner(on) | Matching::Left(on) | Matching::Semi(on) => (on.as_slice(), &[]),
        Matching::Anti(ordinary, null_aware) => (ordinary.as_slice(), null_aware.as_slice()),
    }
}

/// The conditions of an operator, in two parts.
fn operator_conditions(operator: &Operator) -> (&[Condition], &[Condition])
    ensures { result.0.now ++ result.1.now ≡ spec.operator_conditions operator.now }
{
    match operator {
        Operator::IndexScan { conjuncts, .. }
        | Operator::Filter { conjuncts }
        | Operator::FilterSubqueries { conjuncts } => (conjuncts.as_slice(), &[]),
        Operator::JoinRows { matching, .. } | Operator::IndexJoin { matching, .. } => {
            matching_conditions(matching)
        }
        Operator::Scan { .. }
        | Operator::Projection { .. }
        | Operator::GroupRows { .. }
        | Operator::DistinctRows { .. } => (&[], &[]),
    }
}

fn node_is_within(node: &Node) -> bool
    ensures { result ≡ spec.node_is_within node.now }
{
    match node {
        Node::Implements { operator, .. } => {
            let (first, second) = operator_conditions(operator);
            both_within(first, second)
        }
        Node::Sort { .. } => true,
    }
}

/// Checks that a line is within the limits, and gives the number of the next. A text with more lines than there are numbers has no
/// room in memory.
fn check(is_within: bool, line: usize) -> Result<usize, TextFault>
    ensures { Gives (λ n. n) result (spec.checked line (is_within ∷ [])) }
{
    if !is_within {
        let reason = TextReason::OverLimit;
        return Err(Fault::Refused(TextRefusal { line, reason }));
    }
    match line.checked_add(1) {
        Some(next) => Ok(next),
        None => Err(Fault::Memory),
    }
}

/// Checks the lines of a derivation, and gives the number of the line behind them.
fn check_lines(lines: &[Line], first: usize) -> Result<usize, TextFault>
    ensures { Gives (λ n. n) result (spec.checked first (map spec.line_is_within lines.now)) }
{
    let mut next = first;
    for line in lines {
        next = check(line_is_within(line), next)?;
    }
    Ok(next)
}

/// Whether a node is within the limits, where there is room for so many from it down.
fn node_has_room(node: &Node, room: usize) -> bool
    ensures { result ≡ (nat_lt 0 room && spec.node_is_within node.now) }
{
    room > 0 && node_is_within(node)
}

/// Checks the nodes of a plan, where there is room for so many from its root down, and gives the number of the line behind them.
#[tactic(auto, using(crate::proofs::LimitLists::nodes_in_turn))]
fn check_nodes(plan: &Plan, room: usize, first: usize) -> Result<usize, TextFault>
    ensures { Gives (λ n. n) result (spec.checked first (spec.nodes_within plan.now room)) }
{
    let inputs = plan.inputs.as_slice();
    let mut next = check(node_has_room(&plan.node, room), first)?;
    for input in inputs {
        next = check_nodes(input, room.saturating_sub(1), next)?;
    }
    Ok(next)
}

/// Checks that a certificate is within the limits; else the first line of its text is reported that isn't.
#[tactic(auto, using(crate::proofs::LimitLists::written_in_turn))]
pub(crate) fn check_limits(certificate: &Certificate) -> Result<(), TextFault>
    ensures { Gives (λ _. certificate_text certificate.now) result (spec.written certificate.now) }
{
    let lines = certificate.lines.as_slice();
    let first = check(lines.len() <= MOST_LINES, 2)?;
    let behind = check_lines(lines, first)?;
    let root = check(count_nodes(&certificate.plan)? <= MOST_NODES, behind)?;
    check_nodes(&certificate.plan, MOST_DEEP, root)?;
    Ok(())
}
