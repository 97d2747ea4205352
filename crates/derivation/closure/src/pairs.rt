//! Lines that are alike, and of classes that aren't the same.

ghost use Rattle.std.specs.Prelude.{◌≡◌, ◌+◌, ◌<◌, ◌↔◌, ℕ, true, length, map, option_map, IsTrue, IfOk, OnOk, Some};
ghost use Rattle.std.specs.List.{AllByRecursion};
ghost use Rattle.algebra.specs.Alike.{AreAlike};
ghost use Rattle.algebra.specs.Columns.{has, columns_at};
ghost use Rattle.rules.specs.Matches as matches;
ghost use Rattle.rules.specs.Matches.{line_in};
ghost use Rattle.derivation.specs.Logs as logs_;
ghost use Rattle.closure.specs.Closed as spec;
ghost use Rattle.closure.specs.Lacking as lacking_;
ghost use Rattle.closure.specs.Places as places;

use crate::numbers::expression_number;
use algebra::{ClassId, Expr, LineId};
use logs::{Log, are_alike};
use query::ids::id_of;
use rules::MatchedLine;
use std::alloc::{AllocError, Global};

/// Whether an expression is another up to which classes are the same.
pub(crate) fn alike(
    alloc: Global,
    log: &Log<'_>,
    expr: &Expr,
    other: &Expr,
) -> Result<bool, AllocError>
    ensures { IfOk result (λ same. same ≡ spec.alike (logs_.knowledge log.now.instances log.now.log) expr.now other.now) }
{
    are_alike(alloc, expr, other, log.classes())
}

/// Where the lines are that are alike.
fn place_of(alloc: Global, log: &Log<'_>, expr: &Expr) -> Result<usize, AllocError>
    ensures { IfOk result (λ place. place ≡ places.place log.now.log expr.now) }
{
    let count = id_of(log.len())? as usize;
    let number = expression_number(alloc, log, expr)? as usize;
    Ok(number % (count + 1))
}

/// Whether two inputs are of classes that are the same, or neither is there.
fn are_same_inputs(log: &Log<'_>, first: Option<ClassId>, second: Option<ClassId>) -> bool
    ensures { option_map (logs_.least log.now.log) first ≡ option_map (logs_.least log.now.log) second → IsTrue result }
{
    match (first, second) {
        (Some(first), Some(second)) => log.are_same(first, second),
        (None, None) => true,
        _ => false,
    }
}

/// Whether two expressions take classes that are the same: those that are alike do.
pub(crate) fn take_same(log: &Log<'_>, expr: &Expr, other: &Expr) -> bool
    ensures { AreAlike (logs_.least log.now.log) expr.now other.now → IsTrue result }
{
    let (first, second) = expr.children();
    let (other_first, other_second) = other.children();
    are_same_inputs(log, first, other_first) && are_same_inputs(log, second, other_second)
}

/// Whether two lines are alike, and of classes that aren't the same.
#[tactic(auto, using(crate::proofs::Lacking::same_agree, crate::proofs::Lacking::untaken_agree, crate::proofs::Lacking::alike_disagree))]
fn disagree(
    alloc: Global,
    log: &Log<'_>,
    one: MatchedLine<'_>,
    other: MatchedLine<'_>,
) -> Result<bool, AllocError>
    ensures { IfOk result (λ disagree. places.Disagree log.now.log (line_in one.entry) (line_in other.entry) disagree) }
{
    if log.are_same(one.class, other.class) {
        return Ok(false);
    }
    if !take_same(log, one.expr, other.expr) {
        return Ok(false);
    }
    let disagree = alike(alloc, log, one.expr, other.expr)?;
    Ok(disagree)
}

/// Adds a line to those of its place.
fn enter(
    alloc: Global,
    log: &Log<'_>,
    over: &mut Vec<Vec<LineId>>,
    line: LineId,
) -> Result<(), AllocError>
    requires { length over.old.items ≡ length log.now.log + 1 }
    ensures count { OnOk result (length over.new.items ≡ length log.now.log + 1) }
    ensures entered { OnOk result ((l : matches.Line) → logs_.member log.now.log line ≡ Some l → has (columns_at (map (λ v. v.items) over.new.items) (places.place log.now.log l.expr)) line ≡ true) }
    ensures stays { OnOk result ((n p : ℕ) → has (columns_at (map (λ v. v.items) over.old.items) p) n ≡ true → has (columns_at (map (λ v. v.items) over.new.items) p) n ≡ true) }
{
    if let Some(member) = log.member(line) {
        let place = place_of(alloc, log, member.expr)?;
        over[place].push(line)?;
    }
    Ok(())
}

/// The lines by their places: in each stand those whose expressions' numbers lead there, so few where it isn't that expressions are alike, or differ in what
/// they say of subqueries alone.
pub(crate) fn lines_by_place(alloc: Global, log: &Log<'_>) -> Result<Vec<Vec<LineId>>, AllocError>
    ensures { IfOk result (λ over. places.AreEntered log.now.log (length log.now.log) (map (λ v. v.items) over.items)) }
{
    let count = id_of(log.len())?;
    let mut over = Vec::new(alloc);
    over.push(Vec::new(alloc))?;
    for _made in 0..count {
        over.push(Vec::new(alloc))?;
    }
    for line in 0..count {
        enter(alloc, log, &mut over, line)?;
    }
    Ok(over)
}

/// The lines in the place of an expression.
pub(crate) fn lines_at<'a>(
    alloc: Global,
    log: &Log<'_>,
    over: &'a [Vec<LineId>],
    expr: &Expr,
) -> Result<&'a [LineId], AllocError>
    requires { places.AreEntered log.now.log (length log.now.log) (map (λ v. v.items) over.now) }
    ensures { IfOk result (λ lines. lines.now ≡ columns_at (map (λ v. v.items) over.now) (places.place log.now.log expr.now)) }
{
    let place = place_of(alloc, log, expr)?;
    Ok(over[place].as_slice())
}

/// The first of the lines that is alike and of another class than the one, if there is one.
fn disagreeing_among(
    alloc: Global,
    log: &Log<'_>,
    one: MatchedLine<'_>,
    mut lines: &[LineId],
) -> Result<Option<LineId>, AllocError>
    ensures { IfOk result (λ found. lacking_.DisagreeingAmong log.now.log (line_in one.entry) lines.entry.now found) }
{
    'lines: while let [line, rest @ ..] = lines {
        if let Some(other) = log.member(*line) {
            if disagree(alloc, log, one, other)? {
                return Ok(Some(*line));
            }
        }
        lines = rest;
    }
    Ok(None)
}

/// A line that is alike and of another class than this one, if there is one. It stands in the same place.
fn disagreeing_with(
    alloc: Global,
    log: &Log<'_>,
    over: &[Vec<LineId>],
    line: LineId,
) -> Result<Option<LineId>, AllocError>
    requires { places.AreEntered log.now.log (length log.now.log) (map (λ v. v.items) over.now) }
    ensures { IfOk result (λ found. lacking_.DisagreeingWith log.now.log line found) }
{
    match log.member(line) {
        Some(one) => {
            let others = lines_at(alloc, log, over, one.expr)?;
            let found = disagreeing_among(alloc, log, one, others)?;
            Ok(found)
        }
        None => Ok(None),
    }
}

/// Two lines that are alike, and of classes that aren't the same, if there are such.
pub(crate) fn disagreeing(
    alloc: Global,
    log: &Log<'_>,
    over: &[Vec<LineId>],
) -> Result<Option<(LineId, LineId)>, AllocError>
    requires { places.AreEntered log.now.log (length log.now.log) (map (λ v. v.items) over.now) }
    ensures { IfOk result (λ found. lacking_.Disagreeing log.now.log found) }
{
    for line in 0..id_of(log.len())? {
        if let Some(other) = disagreeing_with(alloc, log, over, line)? {
            return Ok(Some((line, other)));
        }
    }
    Ok(None)
}
