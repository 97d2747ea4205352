//! The canonical certificates of three queries: their lines, and their plans as texts.

use algebra::{Conjuncts, Expr, LineId};
use certificate::Certificate;
use derivation::Line;
use fixtures::{COMPANY, DEPT, EMP, QueryReporting, Tables, push_number, query_differences};
use physical::{GroupMethod, IndexAccess, JoinMethod, Matching, Node, Operator, Plan};
use plan_words::texts::{push_aggregates, push_columns, push_keys, push_line};
use planner::canonical;
use prepared_query::PreparedQuery;
use query::BoundQuery;
use std::alloc::{AllocError, Global};
use store::Database;

/// The expression of a line, if it has one.
fn expr_of(line: &Line) -> Option<&Expr> {
    match line {
        Line::Founds(expr) | Line::Adds(_, _, expr) => Some(expr),
        Line::Unites(_, _, _) | Line::Alike(_, _) | Line::Gives(_, _, _) => None,
    }
}

fn conjuncts_of(line: &Line) -> Option<&Conjuncts> {
    match expr_of(line)? {
        Expr::Select(own, _) => Some(own),
        Expr::Join(own, _, _) => Some(own),
        Expr::LeftJoin(own, _, _) => Some(own),
        Expr::Semi(own, _, _) => Some(own),
        Expr::Anti(own, _, _, _) => Some(own),
        _ => None,
    }
}

/// Whether the conjuncts are those of the line.
fn are_of_line(lines: &[Line], line: LineId, conjuncts: &Conjuncts) -> bool {
    let Some(own) = lines.get(line as usize) else {
        return false;
    };
    match conjuncts_of(own) {
        Some(own) => conjuncts.same(own),
        None => false,
    }
}

/// An operator and its line, if its conjuncts are those of the line.
fn push_filter(
    reported: &mut String,
    lines: &[Line],
    name: &str,
    line: LineId,
    conjuncts: &Conjuncts,
) -> Result<(), AllocError> {
    if are_of_line(lines, line, conjuncts) {
        push_number(reported, name, line as usize)
    } else {
        reported.push_str("other conjuncts")
    }
}

/// Nothing for nested loops.
fn push_join_method(reported: &mut String, method: JoinMethod) -> Result<(), AllocError> {
    match method {
        JoinMethod::NestedLoop => Ok(()),
        JoinMethod::Hash => reported.push_str("hash "),
        JoinMethod::Merge(left, right) => {
            push_number(reported, "merge of ", left as usize)?;
            push_number(reported, " and ", right as usize)?;
            reported.push_str(" ")
        }
    }
}

/// An index of a table instance.
fn push_access(reported: &mut String, access: IndexAccess) -> Result<(), AllocError> {
    push_number(reported, "by index ", access.index as usize)?;
    push_number(reported, " of ", access.instance as usize)?;
    reported.push_str(" ")
}

/// Nothing for hashes.
fn push_group_method(reported: &mut String, method: GroupMethod) -> Result<(), AllocError> {
    match method {
        GroupMethod::Hash => Ok(()),
        GroupMethod::Sorted => reported.push_str("sorted "),
    }
}

/// A join and its line, if its conjuncts are those of the line.
fn push_join(
    reported: &mut String,
    lines: &[Line],
    line: LineId,
    matching: &Matching,
) -> Result<(), AllocError> {
    match matching {
        Matching::Inner(conjuncts) => push_filter(reported, lines, "inner join ", line, conjuncts),
        Matching::Left(conjuncts) => push_filter(reported, lines, "left join ", line, conjuncts),
        Matching::Semi(conjuncts) => push_filter(reported, lines, "semijoin ", line, conjuncts),
        Matching::Anti(ordinary, _) => push_filter(reported, lines, "antijoin ", line, ordinary),
    }
}

fn push_operator(
    reported: &mut String,
    lines: &[Line],
    line: LineId,
    operator: &Operator,
) -> Result<(), AllocError> {
    match operator {
        Operator::Scan { instance } => {
            push_number(reported, "scan ", line as usize)?;
            push_number(reported, " of ", *instance as usize)
        }
        Operator::IndexScan { access, conjuncts } => {
            push_access(reported, *access)?;
            push_filter(reported, lines, "scan ", line, conjuncts)
        }
        Operator::Filter { conjuncts } => push_filter(reported, lines, "filter ", line, conjuncts),
        Operator::FilterSubqueries { conjuncts } => {
            push_filter(reported, lines, "filter by subqueries ", line, conjuncts)
        }
        Operator::Projection { columns } => {
            push_number(reported, "cut ", line as usize)?;
            push_columns(reported, columns.as_slice())
        }
        Operator::JoinRows { method, matching } => {
            push_join_method(reported, *method)?;
            push_join(reported, lines, line, matching)
        }
        Operator::IndexJoin { access, matching } => {
            push_access(reported, *access)?;
            push_join(reported, lines, line, matching)
        }
        Operator::GroupRows {
            method,
            keys,
            added,
        } => {
            push_group_method(reported, *method)?;
            push_number(reported, "group ", line as usize)?;
            push_columns(reported, keys.as_slice())?;
            push_aggregates(reported, added.as_slice())
        }
        Operator::DistinctRows { method } => {
            push_group_method(reported, *method)?;
            push_number(reported, "distinct ", line as usize)
        }
    }
}

fn push_node(reported: &mut String, lines: &[Line], node: &Node) -> Result<(), AllocError> {
    match node {
        Node::Implements { line, operator } => push_operator(reported, lines, *line, operator),
        Node::Sort { keys } => {
            reported.push_str("sort")?;
            push_keys(reported, keys.as_slice())
        }
    }
}

/// A plan, its inputs in parentheses.
pub fn push_plan(reported: &mut String, lines: &[Line], plan: &Plan) -> Result<(), AllocError> {
    push_node(reported, lines, &plan.node)?;
    for input in plan.inputs.as_slice() {
        reported.push_str(" (")?;
        push_plan(reported, lines, input)?;
        reported.push_str(")")?;
    }
    Ok(())
}

/// The lines, each with `; ` behind it, and the plan.
fn push_certificate(
    alloc: Global,
    reported: &mut String,
    certificate: &Certificate,
) -> Result<(), AllocError> {
    let lines = certificate.lines.as_slice();
    for line in lines {
        match expr_of(line) {
            Some(expr) => push_line(alloc, reported, expr)?,
            None => reported.push_str("no expression")?,
        }
        reported.push_str("; ")?;
    }
    push_plan(reported, lines, &certificate.plan)
}

/// Reports a query's certificate.
struct Canonical;

impl QueryReporting for Canonical {
    fn report(
        &self,
        alloc: Global,
        _database: &Database<'_>,
        query: &BoundQuery,
        _more: &str,
        reported: &mut String,
    ) -> Result<(), AllocError> {
        let prepared = PreparedQuery::of(alloc, query)?;
        push_certificate(alloc, reported, &canonical(alloc, &prepared)?)
    }
}

/// A table with a filter; a left join and a subquery in order; distinct groups; groups with a filter.
#[test]
fn certificates_are_canonical(rt: HostRuntime) {
    const CASES: &str =
        "SELECT id FROM emp WHERE pay <> 500 => get 0; select 0 [<>(c2,i500)]; keep 1: 0; cut 2 0 (filter 1 (scan 0 of 0))
SELECT e.id, d.name FROM emp e LEFT JOIN dept d ON e.dept = d.id WHERE EXISTS (SELECT f.id FROM emp f WHERE f.badge = e.id) ORDER BY e.id DESC => get 0; get 1; left 0 1 [=(c1,c4)]; get 2; select 3 [=(c10,c0)]; keep 4: 7; select 2 [exists(5)]; keep 6: 0 5; sort 0d (cut 7 0 5 (filter by subqueries 6 (left join 2 (scan 0 of 0) (scan 1 of 1)) (cut 5 7 (filter 4 (scan 3 of 2)))))
SELECT DISTINCT dept, COUNT(*) FROM emp GROUP BY dept => get 0; group 0: 1; 4=count; keep 1: 1 4; distinct 2; distinct 3 (cut 2 1 4 (group 1 1; 4=count (scan 0 of 0)))
SELECT dept, COUNT(*) FROM emp GROUP BY dept HAVING COUNT(*) > 1 AND dept > 2 => get 0; group 0: 1; 4=count 5=count; select 1 [>(c1,i2),>(c5,i1)]; keep 2: 1 4; cut 3 1 4 (filter 2 (group 1 1; 4=count 5=count (scan 0 of 0)))";
    let company = Tables {
        schema: COMPANY,
        first: DEPT,
        second: EMP,
    };
    assert_eq!(rt;
        query_differences(rt.alloc(), company, &[CASES], &Canonical).as_deref(),
        Ok("")
    );
}
