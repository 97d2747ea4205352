//! The nodes of a plan as text.

ghost use Rattle.std.specs.Prelude.{◌≡◌, ◌++◌, codes, flat_map, OnOk};
ghost use Rattle.explain.specs.ConditionTexts.{conjuncts_text};
ghost use Rattle.explain.specs.Names.{list_text, columns_text, ◌␣◌};
ghost use Rattle.explain.specs.PlanTexts as spec;

use crate::condition_text::push_conjuncts;
use crate::names::{push_aggregate, push_column, push_columns, push_table};
use crate::naming::Naming;
use crate::parts::{push_amount, push_text};
use algebra::{Aggregation, Aggregations, Columns, Conjuncts};
use costs::Estimate;
use physical::indexes::index_columns;
use physical::{GroupMethod, IndexAccess, JoinMethod, Matching, Node, Operator, OrderKey};
use std::alloc::{AllocError, Global};

fn kind_text(matching: &Matching) -> &'static str
    ensures { result.now ≡ spec.kind_text matching.now }
{
    match matching {
        Matching::Inner(_) => "inner",
        Matching::Left(_) => "left",
        Matching::Semi(_) => "semi",
        Matching::Anti(_, _) => "anti",
    }
}

/// Adds the conditions of a join behind a space.
fn push_matching(
    text: &mut Vec<u8>,
    names: &Naming<'_>,
    matching: &Matching,
) -> Result<(), AllocError>
    ensures { OnOk result (text.new.items ≡ text.old.items ++ (codes " " ++ spec.matching_text names.now matching.now)) }
{
    match matching {
        Matching::Inner(on) => push_conjuncts(text, names, " ", on.as_slice()),
        Matching::Left(on) => push_conjuncts(text, names, " ", on.as_slice()),
        Matching::Semi(on) => push_conjuncts(text, names, " ", on.as_slice()),
        Matching::Anti(ordinary, null_aware) => {
            push_conjuncts(text, names, " sure ", ordinary.as_slice())?;
            push_conjuncts(text, names, " maybe ", null_aware.as_slice())
        }
    }
}

/// Adds the name of a join's operator, and the kind of the join.
fn push_kind(text: &mut Vec<u8>, name: &str, matching: &Matching) -> Result<(), AllocError>
    ensures { OnOk result (text.new.items ≡ text.old.items ++ (name.now ++ spec.kind_text matching.now)) }
{
    push_text(text, name)?;
    push_text(text, kind_text(matching))
}

fn push_join(
    text: &mut Vec<u8>,
    names: &Naming<'_>,
    method: JoinMethod,
    matching: &Matching,
) -> Result<(), AllocError>
    ensures { OnOk result (text.new.items ≡ text.old.items ++ spec.join_text names.now method matching.now) }
{
    match method {
        JoinMethod::NestedLoop => {
            push_kind(text, "loop ", matching)?;
            push_matching(text, names, matching)
        }
        JoinMethod::Hash => {
            push_kind(text, "hash ", matching)?;
            push_matching(text, names, matching)
        }
        JoinMethod::Merge(left, right) => {
            push_column(text, names, "merge ", left)?;
            push_column(text, names, " = ", right)?;
            push_matching(text, names, matching)
        }
    }
}

/// Adds a table instance that is read by an index, and the columns of the index, behind a word.
fn push_access(
    alloc: Global,
    text: &mut Vec<u8>,
    names: &Naming<'_>,
    before: &str,
    access: IndexAccess,
) -> Result<(), AllocError>
    ensures { OnOk result (text.new.items ≡ text.old.items ++ (before.now ++ spec.access_text names.now access)) }
{
    let columns = index_columns(alloc, names.tables(), access)?;
    push_table(text, names, before, access.instance)?;
    push_columns(text, names, " (", columns.as_slice())?;
    push_text(text, ")")
}

fn push_index_scan(
    alloc: Global,
    text: &mut Vec<u8>,
    names: &Naming<'_>,
    access: IndexAccess,
    conjuncts: &Conjuncts,
) -> Result<(), AllocError>
    ensures { OnOk result (text.new.items ≡ text.old.items ++ (codes "iscan" ␣ spec.access_text names.now access ␣ conjuncts_text names.now conjuncts.now)) }
{
    push_access(alloc, text, names, "iscan ", access)?;
    push_conjuncts(text, names, " ", conjuncts.as_slice())
}

fn push_index_join(
    alloc: Global,
    text: &mut Vec<u8>,
    names: &Naming<'_>,
    access: IndexAccess,
    matching: &Matching,
) -> Result<(), AllocError>
    ensures { OnOk result (text.new.items ≡ text.old.items ++ (codes "iloop" ␣ spec.kind_text matching.now ␣ spec.access_text names.now access ␣ spec.matching_text names.now matching.now)) }
{
    push_kind(text, "iloop ", matching)?;
    push_access(alloc, text, names, " ", access)?;
    push_matching(text, names, matching)
}

fn push_key(
    text: &mut Vec<u8>,
    names: &Naming<'_>,
    before: &str,
    key: OrderKey,
) -> Result<(), AllocError>
    ensures { OnOk result (text.new.items ≡ text.old.items ++ (before.now ++ spec.key_text names.now key)) }
{
    push_column(text, names, before, key.column)?;
    push_text(text, if key.descending { " DESC" } else { " ASC" })
}

fn push_more_keys(
    text: &mut Vec<u8>,
    names: &Naming<'_>,
    more: &[OrderKey],
) -> Result<(), AllocError>
    ensures { OnOk result (text.new.items ≡ text.old.items ++ flat_map (λ k. codes "," ++ spec.key_text names.now k) more.now) }
{
    for key in more {
        push_key(text, names, ",", *key)?;
    }
    Ok(())
}

fn push_sort(text: &mut Vec<u8>, names: &Naming<'_>, keys: &[OrderKey]) -> Result<(), AllocError>
    ensures { OnOk result (text.new.items ≡ text.old.items ++ (codes "sort" ␣ list_text (spec.key_text names.now) keys.now)) }
{
    match keys {
        [] => push_text(text, "sort -"),
        [first, more @ ..] => {
            push_key(text, names, "sort ", *first)?;
            push_more_keys(text, names, more)
        }
    }
}

fn push_more_aggregates(
    text: &mut Vec<u8>,
    names: &Naming<'_>,
    more: &[Aggregation],
) -> Result<(), AllocError>
    ensures { OnOk result (text.new.items ≡ text.old.items ++ flat_map (λ a. codes "," ++ spec.aggregation_text names.now a) more.now) }
{
    for added in more {
        push_aggregate(text, names.tables(), ",", added.aggregate)?;
    }
    Ok(())
}

fn push_aggregates(
    text: &mut Vec<u8>,
    names: &Naming<'_>,
    added: &[Aggregation],
) -> Result<(), AllocError>
    ensures { OnOk result (text.new.items ≡ text.old.items ++ (codes " " ++ list_text (spec.aggregation_text names.now) added.now)) }
{
    match added {
        [] => push_text(text, " -"),
        [first, more @ ..] => {
            push_aggregate(text, names.tables(), " ", first.aggregate)?;
            push_more_aggregates(text, names, more)
        }
    }
}

fn push_group(
    text: &mut Vec<u8>,
    names: &Naming<'_>,
    method: GroupMethod,
    keys: &Columns,
    added: &Aggregations,
) -> Result<(), AllocError>
    ensures { OnOk result (text.new.items ≡ text.old.items ++ (spec.group_name method ␣ columns_text names.now keys.now ␣ list_text (spec.aggregation_text names.now) added.now)) }
{
    let name = match method {
        GroupMethod::Hash => "hgroup ",
        GroupMethod::Sorted => "sgroup ",
    };
    push_columns(text, names, name, keys.as_slice())?;
    push_aggregates(text, names, added.as_slice())
}

fn push_operator(
    alloc: Global,
    text: &mut Vec<u8>,
    names: &Naming<'_>,
    operator: &Operator,
) -> Result<(), AllocError>
    ensures { OnOk result (text.new.items ≡ text.old.items ++ spec.operator_text names.now operator.now) }
{
    match operator {
        Operator::Scan { instance } => push_table(text, names, "scan ", *instance),
        Operator::IndexScan { access, conjuncts } => {
            push_index_scan(alloc, text, names, *access, conjuncts)
        }
        Operator::Filter { conjuncts } => {
            push_conjuncts(text, names, "filter ", conjuncts.as_slice())
        }
        Operator::FilterSubqueries { conjuncts } => {
            push_conjuncts(text, names, "filtersub ", conjuncts.as_slice())
        }
        Operator::Projection { columns } => push_columns(text, names, "cut ", columns.as_slice()),
        Operator::JoinRows { method, matching } => push_join(text, names, *method, matching),
        Operator::IndexJoin { access, matching } => {
            push_index_join(alloc, text, names, *access, matching)
        }
        Operator::GroupRows {
            method,
            keys,
            added,
        } => push_group(text, names, *method, keys, added),
        Operator::DistinctRows { method } => match method {
            GroupMethod::Hash => push_text(text, "hdistinct"),
            GroupMethod::Sorted => push_text(text, "sdistinct"),
        },
    }
}

/// Adds what a node does.
pub(crate) fn push_words(
    alloc: Global,
    text: &mut Vec<u8>,
    names: &Naming<'_>,
    node: &Node,
) -> Result<(), AllocError>
    ensures { OnOk result (text.new.items ≡ text.old.items ++ spec.node_words names.now node.now) }
{
    match node {
        Node::Implements { line: _, operator } => push_operator(alloc, text, names, operator),
        Node::Sort { keys } => push_sort(text, names, keys.as_slice()),
    }
}

/// Adds a node with its estimate, and no indentation.
pub(crate) fn push_node(
    alloc: Global,
    text: &mut Vec<u8>,
    names: &Naming<'_>,
    node: &Node,
    estimate: Estimate,
) -> Result<(), AllocError>
    ensures { OnOk result (text.new.items ≡ text.old.items ++ spec.node_text names.now node.now estimate) }
{
    push_words(alloc, text, names, node)?;
    push_amount(text, " rows=", estimate.rows)?;
    push_amount(text, " cost=", estimate.cost)
}
