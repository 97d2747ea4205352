//! Whether what a rule gives stands in a class.

ghost use Rattle.std.specs.Prelude.{◌≡◌, ℕ, length, map, IfOk};
ghost use Rattle.derivation.specs.Logs.{knowledge};
ghost use Rattle.bindings.specs.Operators.{over_one, over_two};
ghost use Rattle.closure.specs.Closed as spec;
ghost use Rattle.closure.specs.Operators as operators;
ghost use Rattle.closure.specs.Places as places;

use crate::pairs::{alike, lines_at, take_same};
use algebra::{ClassId, Expr, LineId};
use bindings::{OverOne, OverTwo};
use logs::Log;
use rules::Shape;
use std::alloc::{AllocError, Global};

/// The class of a line whose expression is this one up to which classes are the same; none where it is another.
#[tactic(auto, using(crate::proofs::Agreeing::alike_found, crate::proofs::Agreeing::alike_not, crate::proofs::Agreeing::unlike_taken, crate::proofs::Agreeing::unlike_none))]
fn class_if_alike(
    alloc: Global,
    log: &Log<'_>,
    expr: &Expr,
    line: LineId,
) -> Result<Option<ClassId>, AllocError>
    ensures { IfOk result (λ found. operators.LineAnswers log.now.log expr.now line found) }
{
    let Some(member) = log.member(line) else {
        return Ok(None);
    };
    if !take_same(log, expr, member.expr) {
        return Ok(None);
    }
    if !alike(alloc, log, expr, member.expr)? {
        return Ok(None);
    }
    Ok(Some(member.class))
}

/// The class of the first of the lines whose expression is this one; none where each has another.
fn class_among(
    alloc: Global,
    log: &Log<'_>,
    expr: &Expr,
    mut lines: &[LineId],
) -> Result<Option<ClassId>, AllocError>
    ensures { IfOk result (λ found. operators.ListAnswers log.now.log expr.now lines.entry.now found) }
{
    'lines: while let [line, rest @ ..] = lines {
        if let Some(class) = class_if_alike(alloc, log, expr, *line)? {
            return Ok(Some(class));
        }
        lines = rest;
    }
    Ok(None)
}

/// The class of a line whose expression is this one up to which classes are the same, if there is one.
fn class_with(
    alloc: Global,
    log: &Log<'_>,
    over: &[Vec<LineId>],
    expr: &Expr,
) -> Result<Option<ClassId>, AllocError>
    requires { places.AreEntered log.now.log (length log.now.log) (map (λ v. v.items) over.now) }
    ensures { IfOk result (λ found. operators.Answers log.now.log expr.now found) }
{
    let lines = lines_at(alloc, log, over, expr)?;
    let found = class_among(alloc, log, expr, lines)?;
    Ok(found)
}

/// The class of a line with the operator over a class, if there are both.
fn with_one(
    alloc: Global,
    log: &Log<'_>,
    over: &[Vec<LineId>],
    operator: OverOne<'_>,
    input: Option<ClassId>,
) -> Result<Option<ClassId>, AllocError>
    requires { places.AreEntered log.now.log (length log.now.log) (map (λ v. v.items) over.now) }
    ensures { IfOk result (λ found. operators.OneAnswers log.now.log (over_one operator.entry) input found) }
{
    let Some(class) = input else {
        return Ok(None);
    };
    let expr = operator.over(alloc, class)?;
    let found = class_with(alloc, log, over, &expr)?;
    Ok(found)
}

/// The class of a line with the operator over two classes, if there are all.
fn with_two(
    alloc: Global,
    log: &Log<'_>,
    over: &[Vec<LineId>],
    operator: OverTwo<'_>,
    left: Option<ClassId>,
    right: Option<ClassId>,
) -> Result<Option<ClassId>, AllocError>
    requires { places.AreEntered log.now.log (length log.now.log) (map (λ v. v.items) over.now) }
    ensures { IfOk result (λ found. operators.TwoAnswers log.now.log (over_two operator.entry) left right found) }
{
    let Some(left) = left else {
        return Ok(None);
    };
    let Some(right) = right else {
        return Ok(None);
    };
    let expr = operator.over(alloc, left, right)?;
    let found = class_with(alloc, log, over, &expr)?;
    Ok(found)
}

/// A class in which a shape stands, if there is one. It stands in those that are the same, and in no other.
fn class_of(
    alloc: Global,
    log: &Log<'_>,
    over: &[Vec<LineId>],
    shape: &Shape,
) -> Result<Option<ClassId>, AllocError>
    requires entered { places.AreEntered log.now.log (length log.now.log) (map (λ v. v.items) over.now) }
    requires united { spec.AreUnited log.now.log }
    ensures { IfOk result (λ found. operators.StandsAs (knowledge log.now.instances log.now.log) log.now.log shape.now found) }
{
    match shape {
        Shape::Class(class) => Ok(Some(*class)),
        Shape::Select(c, x) => {
            let x = class_of(alloc, log, over, x.get())?;
            let found = with_one(alloc, log, over, OverOne::Select(c), x)?;
            Ok(found)
        }
        Shape::Join(c, a, b) => {
            let a = class_of(alloc, log, over, a.get())?;
            let b = class_of(alloc, log, over, b.get())?;
            let found = with_two(alloc, log, over, OverTwo::Join(c), a, b)?;
            Ok(found)
        }
        Shape::LeftJoin(c, a, b) => {
            let a = class_of(alloc, log, over, a.get())?;
            let b = class_of(alloc, log, over, b.get())?;
            let found = with_two(alloc, log, over, OverTwo::LeftJoin(c), a, b)?;
            Ok(found)
        }
        Shape::Semi(c, a, b) => {
            let a = class_of(alloc, log, over, a.get())?;
            let b = class_of(alloc, log, over, b.get())?;
            let found = with_two(alloc, log, over, OverTwo::Semi(c), a, b)?;
            Ok(found)
        }
        Shape::Anti(s, m, a, b) => {
            let a = class_of(alloc, log, over, a.get())?;
            let b = class_of(alloc, log, over, b.get())?;
            let found = with_two(alloc, log, over, OverTwo::Anti(s, m), a, b)?;
            Ok(found)
        }
        Shape::Keep(k, x) => {
            let x = class_of(alloc, log, over, x.get())?;
            let found = with_one(alloc, log, over, OverOne::Keep(k), x)?;
            Ok(found)
        }
        Shape::Distinct(x) => {
            let x = class_of(alloc, log, over, x.get())?;
            let found = with_one(alloc, log, over, OverOne::Distinct, x)?;
            Ok(found)
        }
        Shape::Group(k, added, x) => {
            let x = class_of(alloc, log, over, x.get())?;
            let found = with_one(alloc, log, over, OverOne::Group(k, added), x)?;
            Ok(found)
        }
    }
}

/// Whether a shape stands in a class.
pub(crate) fn is_there(
    alloc: Global,
    log: &Log<'_>,
    over: &[Vec<LineId>],
    shape: &Shape,
    class: ClassId,
) -> Result<bool, AllocError>
    requires entered { places.AreEntered log.now.log (length log.now.log) (map (λ v. v.items) over.now) }
    requires united { spec.AreUnited log.now.log }
    ensures { IfOk result (λ there. there ≡ spec.is_there (knowledge log.now.instances log.now.log) log.now.log shape.now class) }
{
    match class_of(alloc, log, over, shape)? {
        Some(found) => Ok(log.are_same(found, class)),
        None => Ok(false),
    }
}
