//! The nodes of a plan as text.

ghost use Rattle.std.specs.Prelude.{◌≡◌, ◌+◌, ◌++◌, codes, true, IfOk, OnOk};
ghost use Rattle.std.specs.List.{AllByRecursion};
ghost use Rattle.certificate.specs.NodeInputs.{JoinsBy, TakesInputs, nodes_of};
ghost use Rattle.certificate_text.specs.Parts.{IsShort};
ghost use Rattle.certificate_text.specs.CertificateText as spec;
ghost use Rattle.certificate_text.specs.Limits.{all_nest_within, matching_conditions, most_nested, operator_conditions};
ghost use Rattle.certificate_text.specs.Readable.{AreAggregations, AreColumns, AreConjuncts, CanBeRead, FitsMethod, IsReadableAccess, IsReadableMatching, IsReadableOperator};

use crate::parts::{
    push_aggregations, push_columns, push_conjuncts, push_count, push_keys, push_number, push_text,
};
use algebra::{Aggregations, Columns, Conjuncts, LineId};
use physical::{GroupMethod, IndexAccess, JoinMethod, Matching, Node, Operator, Plan};
use std::alloc::{AllocError, Global};

fn kind_text(matching: &Matching) -> &'static str
    ensures { result.now ≡ spec.kind_text matching.now }
{
    match matching {
        Matching::Inner(_) => "inner",
        Matching::Left(_) => "left",
        Matching::Semi(_) => "semi",
        Matching::Anti(_, _) => "anti",
    }
}

/// Adds the conditions of a join behind a space.
#[tactic(auto, using(crate::proofs::KeptTerms::both_nest))]
fn push_lists(alloc: Global, text: &mut Vec<u8>, matching: &Matching) -> Result<(), AllocError>
    ensures text { OnOk result (text.new.items ≡ text.old.items ++ (codes " " ++ spec.lists_text matching.now)) }
    ensures readable { OnOk result (all_nest_within (matching_conditions matching.now) most_nested ≡ true → IsReadableMatching matching.now) }
{
    match matching {
        Matching::Inner(on) => push_conjuncts(alloc, text, " ", on),
        Matching::Left(on) => push_conjuncts(alloc, text, " ", on),
        Matching::Semi(on) => push_conjuncts(alloc, text, " ", on),
        Matching::Anti(ordinary, null_aware) => {
            push_conjuncts(alloc, text, " ", ordinary)?;
            push_conjuncts(alloc, text, " ", null_aware)
        }
    }
}

/// Adds the kind of a join behind a space.
fn push_kind(text: &mut Vec<u8>, matching: &Matching) -> Result<(), AllocError>
    ensures { OnOk result (text.new.items ≡ text.old.items ++ (codes " " ++ spec.kind_text matching.now)) }
{
    push_text(text, " ")?;
    push_text(text, kind_text(matching))
}

fn push_join(
    alloc: Global,
    text: &mut Vec<u8>,
    line: LineId,
    method: JoinMethod,
    matching: &Matching,
) -> Result<(), AllocError>
    ensures text { OnOk result (text.new.items ≡ text.old.items ++ spec.join_text method matching.now line) }
    ensures readable { OnOk result (all_nest_within (matching_conditions matching.now) most_nested ≡ true → JoinsBy method matching.now → IsShort line × IsReadableMatching matching.now × FitsMethod method matching.now) }
{
    match method {
        JoinMethod::NestedLoop => {
            push_number(text, "loop ", line)?;
            push_kind(text, matching)?;
            push_lists(alloc, text, matching)
        }
        JoinMethod::Hash => {
            push_number(text, "hash ", line)?;
            push_kind(text, matching)?;
            push_lists(alloc, text, matching)
        }
        JoinMethod::Merge(left, right) => {
            push_number(text, "merge ", line)?;
            push_number(text, " ", left)?;
            push_number(text, " ", right)?;
            push_lists(alloc, text, matching)
        }
    }
}

fn push_index_join(
    alloc: Global,
    text: &mut Vec<u8>,
    line: LineId,
    access: IndexAccess,
    matching: &Matching,
) -> Result<(), AllocError>
    ensures text { OnOk result (text.new.items ≡ text.old.items ++ spec.index_join_text access matching.now line) }
    ensures readable { OnOk result (all_nest_within (matching_conditions matching.now) most_nested ≡ true → IsShort line × IsReadableAccess access × IsReadableMatching matching.now) }
{
    push_number(text, "iloop ", line)?;
    push_number(text, " ", access.line)?;
    push_kind(text, matching)?;
    push_number(text, " ", access.instance)?;
    push_number(text, " ", access.index)?;
    push_lists(alloc, text, matching)
}

fn push_index_scan(
    alloc: Global,
    text: &mut Vec<u8>,
    line: LineId,
    access: IndexAccess,
    conjuncts: &Conjuncts,
) -> Result<(), AllocError>
    ensures text { OnOk result (text.new.items ≡ text.old.items ++ spec.index_scan_text access conjuncts.now line) }
    ensures readable { OnOk result (all_nest_within conjuncts.now most_nested ≡ true → IsShort line × IsReadableAccess access × AreConjuncts conjuncts.now) }
{
    push_number(text, "iscan ", line)?;
    push_number(text, " ", access.line)?;
    push_number(text, " ", access.instance)?;
    push_number(text, " ", access.index)?;
    push_conjuncts(alloc, text, " ", conjuncts)
}

fn push_group(
    text: &mut Vec<u8>,
    line: LineId,
    method: GroupMethod,
    keys: &Columns,
    added: &Aggregations,
) -> Result<(), AllocError>
    ensures text { OnOk result (text.new.items ≡ text.old.items ++ spec.group_text method keys.now added.now line) }
    ensures readable { OnOk result (IsShort line × AreColumns keys.now × AreAggregations added.now) }
{
    let name = match method {
        GroupMethod::Hash => "hgroup ",
        GroupMethod::Sorted => "sgroup ",
    };
    push_number(text, name, line)?;
    push_columns(text, " ", keys)?;
    push_aggregations(text, " ", added)
}

fn push_operator(
    alloc: Global,
    text: &mut Vec<u8>,
    line: LineId,
    operator: &Operator,
    inputs: usize,
) -> Result<(), AllocError>
    ensures text { OnOk result (text.new.items ≡ text.old.items ++ spec.operator_text operator.now line inputs) }
    ensures readable { OnOk result (all_nest_within (operator_conditions operator.now) most_nested ≡ true → TakesInputs operator.now inputs → IsShort inputs → IsShort line × IsReadableOperator operator.now inputs) }
{
    match operator {
        Operator::Scan { instance } => {
            push_number(text, "scan ", line)?;
            push_number(text, " ", *instance)
        }
        Operator::IndexScan { access, conjuncts } => {
            push_index_scan(alloc, text, line, *access, conjuncts)
        }
        Operator::Filter { conjuncts } => {
            push_number(text, "filter ", line)?;
            push_conjuncts(alloc, text, " ", conjuncts)
        }
        Operator::FilterSubqueries { conjuncts } => {
            push_number(text, "filtersub ", line)?;
            push_conjuncts(alloc, text, " ", conjuncts)?;
            push_count(text, " ", inputs.saturating_sub(1))
        }
        Operator::Projection { columns } => {
            push_number(text, "cut ", line)?;
            push_columns(text, " ", columns)
        }
        Operator::JoinRows { method, matching } => push_join(alloc, text, line, *method, matching),
        Operator::IndexJoin { access, matching } => {
            push_index_join(alloc, text, line, *access, matching)
        }
        Operator::GroupRows {
            method,
            keys,
            added,
        } => push_group(text, line, *method, keys, added),
        Operator::DistinctRows { method } => match method {
            GroupMethod::Hash => push_number(text, "hdistinct ", line),
            GroupMethod::Sorted => push_number(text, "sdistinct ", line),
        },
    }
}

fn push_node(
    alloc: Global,
    text: &mut Vec<u8>,
    node: &Node,
    inputs: usize,
) -> Result<(), AllocError>
    ensures text { OnOk result (text.new.items ≡ text.old.items ++ spec.node_text node.now inputs) }
    ensures readable { OnOk result (CanBeRead node.now inputs) }
{
    match node {
        Node::Implements { line, operator } => push_operator(alloc, text, *line, operator, inputs)?,
        Node::Sort { keys } => push_keys(text, "sort ", keys.as_slice())?,
    }
    push_text(text, "\n")
}

/// Adds the nodes of a plan, each before its inputs.
pub(crate) fn push_plan(alloc: Global, text: &mut Vec<u8>, plan: &Plan) -> Result<(), AllocError>
    ensures text { OnOk result (text.new.items ≡ text.old.items ++ spec.plan_text plan.now) }
    ensures readable { OnOk result (AllByRecursion (λ n. CanBeRead n.0 n.1) (nodes_of plan.now)) }
{
    let inputs = plan.inputs.as_slice();
    push_node(alloc, text, &plan.node, inputs.len())?;
    for input in inputs {
        push_plan(alloc, text, input)?;
    }
    Ok(())
}

/// How many nodes a plan has. One with more nodes than there are numbers has no room in memory.
pub(crate) fn count_nodes(plan: &Plan) -> Result<usize, AllocError>
    ensures { IfOk result (λ count. count ≡ spec.node_count plan.now) }
{
    let mut count = 1;
    for input in plan.inputs.as_slice() {
        count = total(count, count_nodes(input)?)?;
    }
    Ok(count)
}

fn total(count: usize, more: usize) -> Result<usize, AllocError>
    ensures { IfOk result (λ all. all ≡ count + more) }
{
    match count.checked_add(more) {
        Some(all) => Ok(all),
        None => Err(AllocError),
    }
}
