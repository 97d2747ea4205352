//! What is bound of lines over inputs that are named, and of what is picked of a selection.

use crate::classes::{Known, known_classes};
use crate::shapes::push_conjuncts;
use crate::words::{lines_of, matched_lines, number};
use algebra::condition_text::condition_text;
use algebra::{ClassId, Expr};
use fixtures::{Reporting, differences, push_number};
use rules::{Input, Match, PickedClass, PickedSubquery, RuleFault};
use std::alloc::{AllocError, Global};
use values::Fault;

/// Adds the inputs of an expression, in parentheses.
fn push_inputs(reported: &mut String, expr: &Expr) -> Result<(), AllocError> {
    let (first, second) = expr.children();
    reported.push_str("(")?;
    if let Some(class) = first {
        push_number(reported, "", class as usize)?;
    }
    if let Some(class) = second {
        push_number(reported, " ", class as usize)?;
    }
    reported.push_str(")")
}

/// Adds the number of the conjunct, the conjunct, its class, and the selection.
fn push_subquery(
    alloc: Global,
    reported: &mut String,
    pick: PickedSubquery<'_>,
) -> Result<(), AllocError> {
    push_number(reported, "", pick.place as usize)?;
    reported.push_str(" ")?;
    reported.push_str(condition_text(alloc, pick.condition)?.as_str())?;
    push_number(reported, " of ", pick.class as usize)?;
    push_conjuncts(alloc, reported, pick.conjuncts)?;
    push_number(reported, " ", pick.input as usize)
}

/// Adds the class, and the selection.
fn push_class(
    alloc: Global,
    reported: &mut String,
    pick: PickedClass<'_>,
) -> Result<(), AllocError> {
    push_number(reported, "", pick.class as usize)?;
    push_conjuncts(alloc, reported, pick.conjuncts)?;
    push_number(reported, " ", pick.input as usize)
}

fn push_two(reported: &mut String, at: Match<'_>, input: Input) -> Result<(), RuleFault> {
    let (top, below) = at.two_lines_over(input)?;
    push_inputs(reported, top)?;
    Ok(push_inputs(reported, below)?)
}

fn push_three(
    reported: &mut String,
    at: Match<'_>,
    input: Input,
    lower: Input,
) -> Result<(), RuleFault> {
    let (top, below, lowest) = at.three_lines_over(input, lower)?;
    push_inputs(reported, top)?;
    push_inputs(reported, below)?;
    Ok(push_inputs(reported, lowest)?)
}

fn push_picked(
    alloc: Global,
    reported: &mut String,
    at: Match<'_>,
    name: &str,
) -> Result<(), RuleFault> {
    match name {
        "subquery" => Ok(push_subquery(alloc, reported, at.subquery()?)?),
        "subquery line" => {
            let (pick, line) = at.subquery_line()?;
            push_subquery(alloc, reported, pick)?;
            Ok(push_inputs(reported, line)?)
        }
        _ => {
            let (pick, line) = at.class_line(alloc)?;
            push_class(alloc, reported, pick)?;
            Ok(push_inputs(reported, line)?)
        }
    }
}

fn push_bound(
    alloc: Global,
    reported: &mut String,
    at: Match<'_>,
    name: &str,
) -> Result<(), RuleFault> {
    match name {
        "first" => push_two(reported, at, Input::First),
        "second" => push_two(reported, at, Input::Second),
        "first, second" => push_three(reported, at, Input::First, Input::Second),
        "second, first" => push_three(reported, at, Input::Second, Input::First),
        _ => push_picked(alloc, reported, at, name),
    }
}

fn report_bound(
    alloc: Global,
    name: &str,
    pick: u32,
    lines: &[(ClassId, Expr)],
    known: &Known,
    reported: &mut String,
) -> Result<(), AllocError> {
    let matched = matched_lines(alloc, lines)?;
    let at = Match {
        lines: matched.as_slice(),
        pick,
        classes: known.lent(),
    };
    match push_bound(alloc, reported, at, name) {
        Ok(()) => Ok(()),
        Err(Fault::Refused(_)) => reported.push_str("another form"),
        Err(Fault::Memory) => Err(AllocError),
    }
}

/// Reports what is bound of lines: over the inputs of a name, or by the pick of a name.
struct Bound;

impl Reporting for Bound {
    fn report(&self, alloc: Global, text: &str, reported: &mut String) -> Result<(), AllocError> {
        let (name, lines) = text.split_once(": ").unwrap_or((text, ""));
        let (name, pick) = name.split_once(" pick ").unwrap_or((name, "0"));
        let lines = lines_of(alloc, lines)?;
        report_bound(
            alloc,
            name,
            number(pick),
            lines.as_slice(),
            &known_classes(alloc)?,
            reported,
        )
    }
}

/// The letters of conditions are those of src/words.rt, the classes those of src/classes.rt: 3 and 4 are the same.
#[test]
fn lines_are_bound(rt: HostRuntime) {
    const INPUTS: &str = "first: 7 join 4 2 u, 3 select 3 l => (4 2)(3)
first: 7 join 2 4 u, 3 select 3 l => another form
second: 7 join 2 4 u, 3 select 3 l => (2 4)(3)
second: 7 join 4 2 u, 3 select 3 l => another form
second: 7 select 3 l, 3 select 3 l => another form
second pick 1: 7 join 2 4 u, 3 select 3 l => another form
second: 7 join 2 4 u => another form
second, first: 7 join 2 4 u, 3 join 0 1 m, 0 select 0 l => (2 4)(0 1)(0)
second, first: 7 join 2 4 u, 3 join 0 1 m, 1 select 1 r => another form
second, first: 7 join 4 2 u, 3 join 0 1 m, 0 select 0 l => another form
second, first: 7 join 2 4 u, 3 join 0 1 m => another form
first, second: 7 join 4 2 u, 3 join 0 1 m, 1 select 1 r => (4 2)(0 1)(1)
first, second: 7 join 4 2 u, 3 join 0 1 m, 0 select 0 l => another form
first, second pick 1: 7 join 4 2 u, 3 join 0 1 m, 1 select 1 r => another form";
    const PICKS: &str = "subquery pick 1: 7 select 3 lx => 1 exists(6) of 6 [=(c0,i7);exists(6)] 3
subquery pick 1: 7 select 3 le => 1 in(c0,6,c4) of 6 [=(c0,i7);in(c0,6,c4)] 3
subquery pick 0: 7 select 3 lx => another form
subquery pick 2: 7 select 3 lx => another form
subquery pick 1: 7 select 3 lx, 6 keep 2 4 => another form
subquery: 7 distinct 3 => another form
subquery line pick 1: 7 select 3 lx, 6 keep 2 4 => 1 exists(6) of 6 [=(c0,i7);exists(6)] 3(2)
subquery line pick 1: 7 select 3 lx, 3 select 3 l => another form
subquery line pick 0: 7 select 3 lx, 6 keep 2 4 => another form
subquery line pick 1: 7 select 3 lx => another form
class line pick 6: 7 select 3 lx, 6 keep 2 4 => 6 [=(c0,i7);exists(6)] 3(2)
class line pick 3: 7 select 3 lx, 3 select 3 l => another form
class line pick 6: 7 select 3 lx, 3 select 3 l => another form
class line pick 6: 7 select 3 l, 6 keep 2 4 => another form
class line pick 6: 7 select 3 lx => another form
class line pick 6: 7 join 0 1 m, 6 keep 2 4 => another form";
    assert_eq!(rt;
        differences(rt.alloc(), &[INPUTS, PICKS], &Bound).as_deref(),
        Ok("")
    );
}
