//! What a node reads by an index, and which lines it names, against a log.

ghost use Rattle.std.specs.Prelude.{◌≡◌, ◌∷◌, ◌&&◌, List, [], Some, map, take, IfOk};
ghost use Rattle.algebra.specs.declared.condition.Condition.{Condition};
ghost use Rattle.algebra.specs.Expressions.{children};
ghost use Rattle.physical.specs.declared.plan.Operator.TheVariants.{IndexScan};
ghost use Rattle.physical.specs.Indexes.{finds_by_index};
ghost use Rattle.certificate.specs.Replay as spec;

use algebra::{ClassId, Conjuncts, Expr, LineId};
use logs::Log;
use physical::indexes::{finds_by_index, has_index};
use physical::{IndexAccess, Matching, Operator};
use query::InstanceId;
use std::alloc::{AllocError, Global};

/// Whether the expression is the Get of a table instance.
fn is_get_of(expr: &Expr, instance: InstanceId) -> bool
    ensures { result ≡ spec.is_get_of expr.now instance }
{
    match expr {
        Expr::Get(own) => instance == *own,
        _ => false,
    }
}

/// Whether an access is of the class.
pub fn accesses(log: &Log<'_>, access: IndexAccess, class: ClassId) -> bool
    ensures { result ≡ spec.accesses log.now.log access class }
{
    match log.member(access.line) {
        Some(member) => {
            log.are_same(member.class, class) && is_get_of(member.expr, access.instance)
        }
        None => false,
    }
}

/// Whether an access is of the right side of an expression that is a join.
fn accesses_right(log: &Log<'_>, access: IndexAccess, expr: &Expr) -> bool
    ensures { result ≡ spec.accesses_second log.now.log access (children expr.now) }
{
    match expr {
        Expr::Join(_, _, right)
        | Expr::LeftJoin(_, _, right)
        | Expr::Semi(_, _, right)
        | Expr::Anti(_, _, _, right) => accesses(log, access, *right),
        Expr::Get(_)
        | Expr::Select(_, _)
        | Expr::Keep(_, _)
        | Expr::Distinct(_)
        | Expr::Group(_, _, _) => false,
    }
}

/// Whether a scan by an index of a line with the expression reads what would be its input, or the line's own Get.
fn scan_fits(
    alloc: Global,
    log: &Log<'_>,
    line: LineId,
    access: IndexAccess,
    expr: &Expr,
) -> Result<bool, AllocError>
    ensures { (C : List Condition) → IfOk result (λ r. r ≡ spec.index_fits log.now.instances log.now.log line (IndexScan access C) expr.now) }
{
    let reads = match expr {
        Expr::Get(own) => access.line == line && access.instance == *own,
        Expr::Select(_, input) => accesses(log, access, *input),
        _ => return Ok(true),
    };
    if !reads {
        return Ok(false);
    }
    has_index(alloc, log.instances(), access)
}

/// Whether a join by an index reads what would be the right side of a line with the expression.
fn join_fits(
    alloc: Global,
    log: &Log<'_>,
    access: IndexAccess,
    matching: &Matching,
    expr: &Expr,
) -> Result<bool, AllocError>
    ensures { IfOk result (λ r. r ≡ (spec.accesses_second log.now.log access (children expr.now) && finds_by_index log.now.instances access matching.now)) }
{
    if !accesses_right(log, access, expr) {
        return Ok(false);
    }
    finds_by_index(alloc, log.instances(), access, matching)
}

/// Whether an operator of a line with the expression reads by an index what would be its input, and a Get itself.
pub fn index_fits(
    alloc: Global,
    log: &Log<'_>,
    line: LineId,
    operator: &Operator,
    expr: &Expr,
) -> Result<bool, AllocError>
    ensures { IfOk result (λ r. r ≡ spec.index_fits log.now.instances log.now.log line operator.now expr.now) }
{
    match operator {
        Operator::IndexScan { access, .. } => scan_fits(alloc, log, line, *access, expr),
        Operator::IndexJoin { access, matching } => {
            join_fits(alloc, log, *access, matching, expr)
        }
        Operator::Scan { .. }
        | Operator::Filter { .. }
        | Operator::FilterSubqueries { .. }
        | Operator::Projection { .. }
        | Operator::JoinRows { .. }
        | Operator::GroupRows { .. }
        | Operator::DistinctRows { .. } => Ok(true),
    }
}

/// Whether a line founds each class that conditions name.
fn are_founded(alloc: Global, log: &Log<'_>, conjuncts: &Conjuncts) -> Result<bool, AllocError>
    ensures { IfOk result (λ r. r ≡ spec.are_founded log.now.log conjuncts.now) }
{
    let classes = conjuncts.classes(alloc)?;
    Ok(classes.as_slice().iter().all(|class| log.founds(*class)))
}

fn matching_is_founded(
    alloc: Global,
    log: &Log<'_>,
    matching: &Matching,
) -> Result<bool, AllocError>
    ensures { IfOk result (λ r. r ≡ spec.matching_is_founded log.now.log matching.now) }
{
    match matching {
        Matching::Inner(conjuncts) | Matching::Left(conjuncts) | Matching::Semi(conjuncts) => {
            are_founded(alloc, log, conjuncts)
        }
        Matching::Anti(ordinary, null_aware) => {
            let first = are_founded(alloc, log, ordinary)?;
            Ok(first && are_founded(alloc, log, null_aware)?)
        }
    }
}

/// Whether the further lines that an operator names, that of its index and those of its conditions' classes, are there.
pub fn names_lines(alloc: Global, log: &Log<'_>, operator: &Operator) -> Result<bool, AllocError>
    ensures { IfOk result (λ r. r ≡ spec.names_lines log.now.log operator.now) }
{
    match operator {
        Operator::IndexScan { access, conjuncts } => {
            Ok((access.line as usize) < log.len() && are_founded(alloc, log, conjuncts)?)
        }
        Operator::IndexJoin { access, matching } => {
            Ok((access.line as usize) < log.len() && matching_is_founded(alloc, log, matching)?)
        }
        Operator::Filter { conjuncts } | Operator::FilterSubqueries { conjuncts } => {
            are_founded(alloc, log, conjuncts)
        }
        Operator::JoinRows { matching, .. } => matching_is_founded(alloc, log, matching),
        Operator::Scan { .. }
        | Operator::Projection { .. }
        | Operator::GroupRows { .. }
        | Operator::DistinctRows { .. } => Ok(true),
    }
}
