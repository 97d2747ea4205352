//! Plans read from words, each node after its inputs, with `|` between nodes: `scan LINE OCCURRENCE`, `filter LINE`,
//! `subqueries LINE COUNT`, `cut LINE: COLUMNS`, `sort: KEYS`; nested-loop joins `loop LINE`, `left LINE`, `semi LINE`,
//! `anti LINE`; by other methods joins of whatever matching the line has, `hash LINE`, `merge LINE: LEFT RIGHT`; `group LINE`,
//! `distinct LINE`, and over sorted rows `sgroup LINE`, `sdistinct LINE`; `iscan LINE: GET OCCURRENCE INDEX`, and a join of
//! whatever matching the line has, `iloop LINE: GET OCCURRENCE INDEX`. What else a node holds is that of a line with its number.

use algebra::{Aggregations, Columns, Conjuncts, Expr, LineId};
use physical::{GroupMethod, IndexAccess, JoinMethod, Matching, Node, Operator, OrderKey, Plan};
use std::alloc::{AllocError, Global};
use values::Items;

/// The words of a node.
#[derive(Clone, Copy)]
struct Words<'a> {
    name: &'a str,
    line: LineId,
    /// The number after the line.
    more: u32,
    /// What stands after `:`.
    columns: &'a str,
}

/// The number of a word; the greatest if it is none.
pub fn number(word: &str) -> usize {
    match word.parse() {
        Ok(number) => number,
        Err(_) => usize::MAX,
    }
}

/// The number of a column, a table instance or a line; the greatest if the word is none.
pub fn id(word: &str) -> u32 {
    match word.parse() {
        Ok(id) => id,
        Err(_) => u32::MAX,
    }
}

/// What stands before a text's first such sign, and after it.
pub fn cut<'a>(text: &'a str, sign: &str) -> (&'a str, &'a str) {
    match text.split_once(sign) {
        Some(parts) => parts,
        None => (text, ""),
    }
}

fn node_words(text: &str) -> Words<'_> {
    let (head, columns) = cut(text, ":");
    let (name, numbers) = cut(head, " ");
    let (line, more) = cut(numbers, " ");
    Words {
        name,
        line: id(line),
        more: id(more),
        columns,
    }
}

/// The set of the numbers of a text.
pub fn columns_of(alloc: Global, text: &str) -> Result<Columns, AllocError> {
    let mut columns = Vec::new(alloc);
    for word in text.split_whitespace() {
        columns.push(id(word))?;
    }
    Ok(Columns::from_vec(columns))
}

/// The keys of a text, a falling one with `d`.
fn keys_of(alloc: Global, text: &str) -> Result<Items<OrderKey>, AllocError> {
    let mut keys = Items::new(alloc);
    for word in text.split_whitespace() {
        let (column, _) = cut(word, "d");
        keys.push(OrderKey {
            column: id(column),
            descending: column.len() < word.len(),
        })?;
    }
    Ok(keys)
}

/// The conjuncts of a line; none if it has none.
fn conjuncts_of(alloc: Global, lines: &[Expr], line: LineId) -> Result<Conjuncts, AllocError> {
    match lines.get(line as usize) {
        Some(Expr::Select(own, _)) => own.copy(alloc),
        Some(Expr::Join(own, _, _)) => own.copy(alloc),
        Some(Expr::LeftJoin(own, _, _)) => own.copy(alloc),
        Some(Expr::Semi(own, _, _)) => own.copy(alloc),
        Some(Expr::Anti(own, _, _, _)) => own.copy(alloc),
        _ => Ok(Conjuncts::none(alloc)),
    }
}

/// The second conjuncts of an antijoin's line; none if it is no antijoin.
fn maybe_of(alloc: Global, lines: &[Expr], line: LineId) -> Result<Conjuncts, AllocError> {
    match lines.get(line as usize) {
        Some(Expr::Anti(_, own, _, _)) => own.copy(alloc),
        _ => Ok(Conjuncts::none(alloc)),
    }
}

/// What a join of the line is called; `loop` if the line is no join.
fn join_name(lines: &[Expr], line: LineId) -> &'static str {
    match lines.get(line as usize) {
        Some(Expr::LeftJoin(_, _, _)) => "left",
        Some(Expr::Semi(_, _, _)) => "semi",
        Some(Expr::Anti(_, _, _, _)) => "anti",
        _ => "loop",
    }
}

/// The matching of a join of this name.
fn matching_of(
    alloc: Global,
    lines: &[Expr],
    line: LineId,
    name: &str,
) -> Result<Matching, AllocError> {
    let conjuncts = conjuncts_of(alloc, lines, line)?;
    match name {
        "left" => Ok(Matching::Left(conjuncts)),
        "semi" => Ok(Matching::Semi(conjuncts)),
        "anti" => Ok(Matching::Anti(conjuncts, maybe_of(alloc, lines, line)?)),
        _ => Ok(Matching::Inner(conjuncts)),
    }
}

/// A join of this name.
fn join_of(
    alloc: Global,
    lines: &[Expr],
    line: LineId,
    method: JoinMethod,
    name: &str,
) -> Result<Operator, AllocError> {
    let matching = matching_of(alloc, lines, line, name)?;
    Ok(Operator::JoinRows { method, matching })
}

/// The line of a Get, its table instance and an index.
fn access_of(words: Words<'_>) -> IndexAccess {
    let (line, rest) = cut(words.columns.trim(), " ");
    let (instance, index) = cut(rest, " ");
    IndexAccess {
        line: id(line),
        instance: id(instance),
        index: id(index),
    }
}

/// The merge by two columns.
fn merge_of(words: Words<'_>) -> JoinMethod {
    let (left, right) = cut(words.columns.trim(), " ");
    JoinMethod::Merge(id(left), id(right))
}

/// The group of a line; by no key and without aggregates if the line is no group.
fn group_of(
    alloc: Global,
    lines: &[Expr],
    line: LineId,
    method: GroupMethod,
) -> Result<Operator, AllocError> {
    let Some(Expr::Group(own, added, _)) = lines.get(line as usize) else {
        return Ok(Operator::GroupRows {
            method,
            keys: Columns::from_vec(Vec::new(alloc)),
            added: Aggregations::of(alloc, &[])?,
        });
    };
    let keys = own.copy(alloc)?;
    let added = added.copy(alloc)?;
    Ok(Operator::GroupRows {
        method,
        keys,
        added,
    })
}

fn operator_of(alloc: Global, lines: &[Expr], words: Words<'_>) -> Result<Operator, AllocError> {
    let line = words.line;
    match words.name {
        "filter" => Ok(Operator::Filter {
            conjuncts: conjuncts_of(alloc, lines, line)?,
        }),
        "subqueries" => Ok(Operator::FilterSubqueries {
            conjuncts: conjuncts_of(alloc, lines, line)?,
        }),
        "cut" => Ok(Operator::Projection {
            columns: columns_of(alloc, words.columns)?,
        }),
        "loop" | "left" | "semi" | "anti" => {
            join_of(alloc, lines, line, JoinMethod::NestedLoop, words.name)
        }
        "hash" => { join_of(alloc, lines, line, JoinMethod::Hash, join_name(lines, line)) }
        "merge" => { join_of(alloc, lines, line, merge_of(words), join_name(lines, line)) }
        "iscan" => Ok(Operator::IndexScan {
            access: access_of(words),
            conjuncts: conjuncts_of(alloc, lines, line)?,
        }),
        "iloop" => Ok(Operator::IndexJoin {
            access: access_of(words),
            matching: matching_of(alloc, lines, line, join_name(lines, line))?,
        }),
        "group" => group_of(alloc, lines, line, GroupMethod::Hash),
        "sgroup" => group_of(alloc, lines, line, GroupMethod::Sorted),
        "distinct" => Ok(Operator::DistinctRows {
            method: GroupMethod::Hash,
        }),
        "sdistinct" => Ok(Operator::DistinctRows {
            method: GroupMethod::Sorted,
        }),
        _ => Ok(Operator::Scan {
            instance: words.more,
        }),
    }
}

fn node_of(alloc: Global, lines: &[Expr], words: Words<'_>) -> Result<Node, AllocError> {
    if words.name == "sort" {
        let keys = keys_of(alloc, words.columns)?;
        return Ok(Node::Sort { keys });
    }
    let operator = operator_of(alloc, lines, words)?;
    Ok(Node::Implements {
        line: words.line,
        operator,
    })
}

/// How many plans a node has as inputs.
fn inputs(words: Words<'_>) -> usize {
    match words.name {
        "scan" | "iscan" => 0,
        "loop" | "left" | "semi" | "anti" | "hash" | "merge" => 2,
        "subqueries" => (words.more as usize).saturating_add(1),
        _ => 1,
    }
}

/// Adds the plan of a node, whose inputs are the last plans.
fn push_plan(
    alloc: Global,
    plans: &mut Vec<Plan>,
    lines: &[Expr],
    words: Words<'_>,
) -> Result<(), AllocError> {
    let first = plans.len().saturating_sub(inputs(words));
    let inputs = Items::from_vec(plans.split_off(first)?);
    let node = node_of(alloc, lines, words)?;
    plans.push(Plan { node, inputs })?;
    Ok(())
}

/// The plan of a text, over lines.
pub fn plan_of(alloc: Global, lines: &[Expr], text: &str) -> Result<Option<Plan>, AllocError> {
    let mut plans = Vec::new(alloc);
    for node in text.split(" | ") {
        push_plan(alloc, &mut plans, lines, node_words(node))?;
    }
    Ok(plans.pop())
}
