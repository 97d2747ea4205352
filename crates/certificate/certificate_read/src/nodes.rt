//! The nodes of a plan.

ghost use Rattle.physical.specs.declared.plan.JoinMethod.TheVariants as method;
ghost use Rattle.physical.specs.declared.plan.Matching.TheVariants as matching;
ghost use Rattle.physical.specs.declared.plan.Operator.TheVariants as physical;
ghost use Rattle.certificate_read.specs.NodeReading as spec;
ghost use Rattle.certificate_read.specs.WordReading.{words_in};
ghost use Rattle.certificate_read.specs.Wordings.{ReadsLine, ReadsWords, deep};
ghost use Rattle.certificate_read.specs.declared.node_forms.KindForm.TheVariants as kinds;
ghost use Rattle.certificate_read.specs.declared.node_forms.NodeForm.TheVariants as node;
ghost use Rattle.certificate_read.specs.declared.node_forms.OperatorForm.TheVariants as operator;

use crate::line_fault::LineFault;
use crate::node_forms::{KindForm, NodeForm, OperatorForm, kind_form, node_form};
use crate::sort_keys::keys;
use crate::words::{Words, words_of};
use physical::{GroupMethod, IndexAccess, JoinMethod, Matching, Node, Operator};
use std::alloc::Global;

/// A node and how many inputs follow it.
#[derive(Drop)]
pub(crate) struct ReadNode {
    pub node: Node,
    pub inputs: u64,
}

/// The lists of an antijoin.
fn anti(alloc: Global, words: &mut Words<'_>) -> Result<Matching, LineFault>
    ensures { ReadsWords (spec.lists_behind kinds.Anti) (spec.matching_of kinds.Anti) words.old words.new result }
{
    let ordinary = words.conjuncts(alloc)?;
    Ok(Matching::Anti(ordinary, words.conjuncts(alloc)?))
}

/// The lists of a join of this kind.
fn matching(alloc: Global, kind: KindForm, words: &mut Words<'_>) -> Result<Matching, LineFault>
    ensures { ReadsWords (spec.lists_behind kind) (spec.matching_of kind) words.old words.new result }
{
    match kind {
        KindForm::Inner => Ok(Matching::Inner(words.conjuncts(alloc)?)),
        KindForm::Left => Ok(Matching::Left(words.conjuncts(alloc)?)),
        KindForm::Semi => Ok(Matching::Semi(words.conjuncts(alloc)?)),
        KindForm::Anti => anti(alloc, words),
    }
}

/// A join whose kind is named.
fn join(alloc: Global, words: &mut Words<'_>) -> Result<Matching, LineFault>
    ensures { ReadsWords spec.matching_wording (λ j. spec.matching_of j.0 j.1) words.old words.new result }
{
    let kind = kind_form(words)?;
    matching(alloc, kind, words)
}

/// A merge join, which is an inner one.
fn merge(alloc: Global, words: &mut Words<'_>) -> Result<Operator, LineFault>
    ensures { ReadsWords (spec.operator_behind operator.MergeJoin) (λ p. physical.JoinRows (method.Merge p.0 p.1.0) (matching.Inner p.1.1)) words.old words.new result }
{
    let left = words.number()?;
    let right = words.number()?;
    let method = JoinMethod::Merge(left, right);
    let matching = Matching::Inner(words.conjuncts(alloc)?);
    Ok(Operator::JoinRows { method, matching })
}

fn index_scan(alloc: Global, words: &mut Words<'_>) -> Result<Operator, LineFault>
    ensures { ReadsWords (spec.operator_behind operator.IndexScan) (λ p. (spec.operator_of operator.IndexScan p).0) words.old words.new result }
{
    let line = words.number()?;
    let instance = words.number()?;
    let index = words.number()?;
    let access = IndexAccess {
        line,
        instance,
        index,
    };
    let conjuncts = words.conjuncts(alloc)?;
    Ok(Operator::IndexScan { access, conjuncts })
}

fn index_join(alloc: Global, words: &mut Words<'_>) -> Result<Operator, LineFault>
    ensures { ReadsWords (spec.operator_behind operator.IndexJoin) (λ p. (spec.operator_of operator.IndexJoin p).0) words.old words.new result }
{
    let line = words.number()?;
    let kind = kind_form(words)?;
    let instance = words.number()?;
    let index = words.number()?;
    let access = IndexAccess {
        line,
        instance,
        index,
    };
    let matching = matching(alloc, kind, words)?;
    Ok(Operator::IndexJoin { access, matching })
}

/// A filter with subqueries, and how many inputs follow the first.
fn filter_subqueries(alloc: Global, words: &mut Words<'_>) -> Result<(Operator, u64), LineFault>
    ensures { ReadsWords (spec.operator_behind operator.FilterSubqueries) (spec.operator_of operator.FilterSubqueries) words.old words.new result }
{
    let conjuncts = words.conjuncts(alloc)?;
    let more = words.number()?;
    Ok((
        Operator::FilterSubqueries { conjuncts },
        u64::from(more) + 1,
    ))
}

fn group(alloc: Global, method: GroupMethod, words: &mut Words<'_>) -> Result<Operator, LineFault>
    ensures { ReadsWords (spec.operator_behind operator.HashGroup) (λ p. physical.GroupRows method p.0 p.1) words.old words.new result }
{
    let keys = words.columns(alloc)?;
    let added = words.aggregations(alloc)?;
    Ok(Operator::GroupRows {
        method,
        keys,
        added,
    })
}

/// The operator of this name, and how many inputs follow.
fn operator(
    alloc: Global,
    form: OperatorForm,
    words: &mut Words<'_>,
) -> Result<(Operator, u64), LineFault>
    ensures { ReadsWords (spec.operator_behind form) (spec.operator_of form) words.old words.new result }
{
    match form {
        OperatorForm::Scan => {
            let instance = words.number()?;
            Ok((Operator::Scan { instance }, 0))
        }
        OperatorForm::IndexScan => Ok((index_scan(alloc, words)?, 0)),
        OperatorForm::Filter => {
            let conjuncts = words.conjuncts(alloc)?;
            Ok((Operator::Filter { conjuncts }, 1))
        }
        OperatorForm::FilterSubqueries => filter_subqueries(alloc, words),
        OperatorForm::Projection => {
            let columns = words.columns(alloc)?;
            Ok((Operator::Projection { columns }, 1))
        }
        OperatorForm::NestedLoop => {
            let method = JoinMethod::NestedLoop;
            let matching = join(alloc, words)?;
            Ok((Operator::JoinRows { method, matching }, 2))
        }
        OperatorForm::HashJoin => {
            let method = JoinMethod::Hash;
            let matching = join(alloc, words)?;
            Ok((Operator::JoinRows { method, matching }, 2))
        }
        OperatorForm::MergeJoin => Ok((merge(alloc, words)?, 2)),
        OperatorForm::IndexJoin => Ok((index_join(alloc, words)?, 1)),
        OperatorForm::HashGroup => Ok((group(alloc, GroupMethod::Hash, words)?, 1)),
        OperatorForm::SortedGroup => Ok((group(alloc, GroupMethod::Sorted, words)?, 1)),
        OperatorForm::HashDistinct => {
            let method = GroupMethod::Hash;
            Ok((Operator::DistinctRows { method }, 1))
        }
        OperatorForm::SortedDistinct => {
            let method = GroupMethod::Sorted;
            Ok((Operator::DistinctRows { method }, 1))
        }
    }
}

fn sort(alloc: Global, words: &mut Words<'_>) -> Result<ReadNode, LineFault>
    ensures { ReadsWords (spec.node_behind node.Sort) (spec.node_of node.Sort) words.old words.new result }
{
    let keys = keys(alloc, words)?;
    Ok(ReadNode {
        node: Node::Sort { keys },
        inputs: 1,
    })
}

fn implementation(
    alloc: Global,
    form: OperatorForm,
    words: &mut Words<'_>,
) -> Result<ReadNode, LineFault>
    ensures { ReadsWords (spec.node_behind (node.Implements form)) (spec.node_of (node.Implements form)) words.old words.new result }
{
    let line = words.number()?;
    let (operator, inputs) = operator(alloc, form, words)?;
    Ok(ReadNode {
        node: Node::Implements { line, operator },
        inputs,
    })
}

fn node_of(alloc: Global, words: &mut Words<'_>) -> Result<ReadNode, LineFault>
    ensures { ReadsWords spec.node_wording (λ x. spec.node_of x.0 x.1) words.old words.new result }
{
    match node_form(words)? {
        NodeForm::Sort => sort(alloc, words),
        NodeForm::Implements(form) => implementation(alloc, form, words),
    }
}

/// The node that a line of the text is. It is refused where it stands too deep.
pub(crate) fn node(alloc: Global, text: &str, is_within: bool) -> Result<ReadNode, LineFault>
    ensures { ReadsLine (deep is_within spec.node_wording) (λ x. spec.node_of x.0 x.1) (words_in text.now) result }
{
    let parts = words_of(alloc, text)?;
    let mut words = Words::of(parts.as_slice());
    let read = node_of(alloc, &mut words)?;
    words.end(is_within)?;
    Ok(read)
}
