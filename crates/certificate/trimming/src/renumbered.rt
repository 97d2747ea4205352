//! Lines with new numbers.

ghost use Rattle.std.specs.Prelude.{◌≡◌, map, IfOk};
ghost use Rattle.algebra.specs.Alike.{rooted, rooted_condition, rooted_conjuncts};
ghost use Rattle.trimming.specs.Kept.{number_in};
ghost use Rattle.trimming.specs.Renumbered as spec;

use crate::kept::Kept;
use crate::picks::renumbered_pick;
use algebra::{Condition, Conjuncts, Expr};
use derivation::{Line, Numbers, Step, copy_fact};
use logs::Log;
use std::alloc::{AllocError, Global};
use values::{Boxed, Items};

/// The condition with the new number of each class that it names.
#[cycle(renumbered)]
#[tactic(auto, using(crate::proofs::Equations::rooted_Compare, crate::proofs::Equations::rooted_IsNull, crate::proofs::Equations::rooted_Not, crate::proofs::Equations::rooted_And, crate::proofs::Equations::rooted_Or, crate::proofs::Equations::rooted_Exists, crate::proofs::Equations::rooted_In))]
pub(crate) fn renumbered_condition(
    alloc: Global,
    kept: &Kept,
    condition: &Condition,
) -> Result<Condition, AllocError>
    ensures { IfOk result (λ c. c ≡ rooted_condition (number_in kept.now.numbers.items) condition.now) }
{
    match condition {
        Condition::Compare(by, a, b) => Ok(Condition::Compare(*by, a.copy(alloc)?, b.copy(alloc)?)),
        Condition::IsNull(a) => Ok(Condition::IsNull(a.copy(alloc)?)),
        Condition::Not(c) => Ok(Condition::Not(renumbered_part(alloc, kept, c)?)),
        Condition::And(a, b, more) => Ok(Condition::And(
            renumbered_part(alloc, kept, a)?,
            renumbered_part(alloc, kept, b)?,
            renumbered_conditions(alloc, kept, more.as_slice())?,
        )),
        Condition::Or(a, b, more) => Ok(Condition::Or(
            renumbered_part(alloc, kept, a)?,
            renumbered_part(alloc, kept, b)?,
            renumbered_conditions(alloc, kept, more.as_slice())?,
        )),
        Condition::Exists(g) => Ok(Condition::Exists(kept.number(*g))),
        Condition::In(a, g, k) => Ok(Condition::In(a.copy(alloc)?, kept.number(*g), *k)),
    }
}

#[cycle(renumbered)]
fn renumbered_part(
    alloc: Global,
    kept: &Kept,
    part: &Boxed<Condition>,
) -> Result<Boxed<Condition>, AllocError>
    ensures { IfOk result (λ c. c ≡ rooted_condition (number_in kept.now.numbers.items) part.now) }
{
    Boxed::new(alloc, renumbered_condition(alloc, kept, part.get())?)
}

#[cycle(renumbered)]
fn renumbered_conditions(
    alloc: Global,
    kept: &Kept,
    conditions: &[Condition],
) -> Result<Items<Condition>, AllocError>
    ensures { IfOk result (λ cs. cs ≡ map (rooted_condition (number_in kept.now.numbers.items)) conditions.now) }
{
    let mut renumbered = Items::new(alloc);
    for condition in conditions {
        renumbered.push(renumbered_condition(alloc, kept, condition)?)?;
    }
    Ok(renumbered)
}

/// The conjuncts with new numbers, in the order of their new texts.
pub(crate) fn renumbered_conjuncts(
    alloc: Global,
    kept: &Kept,
    conjuncts: &Conjuncts,
) -> Result<Conjuncts, AllocError>
    ensures { IfOk result (λ c. c ≡ rooted_conjuncts (number_in kept.now.numbers.items) conjuncts.now) }
{
    Conjuncts::of(
        alloc,
        renumbered_conditions(alloc, kept, conjuncts.as_slice())?.as_slice(),
    )
}

fn renumbered_expr(alloc: Global, kept: &Kept, expr: &Expr) -> Result<Expr, AllocError>
    ensures { IfOk result (λ x. x ≡ rooted (number_in kept.now.numbers.items) expr.now) }
{
    match expr {
        Expr::Get(o) => Ok(Expr::Get(*o)),
        Expr::Select(c, x) => Ok(Expr::Select(
            renumbered_conjuncts(alloc, kept, c)?,
            kept.number(*x),
        )),
        Expr::Join(c, a, b) => Ok(Expr::Join(
            renumbered_conjuncts(alloc, kept, c)?,
            kept.number(*a),
            kept.number(*b),
        )),
        Expr::LeftJoin(c, a, b) => Ok(Expr::LeftJoin(
            renumbered_conjuncts(alloc, kept, c)?,
            kept.number(*a),
            kept.number(*b),
        )),
        Expr::Semi(c, a, b) => Ok(Expr::Semi(
            renumbered_conjuncts(alloc, kept, c)?,
            kept.number(*a),
            kept.number(*b),
        )),
        Expr::Anti(ordinary, null_aware, a, b) => Ok(Expr::Anti(
            renumbered_conjuncts(alloc, kept, ordinary)?,
            renumbered_conjuncts(alloc, kept, null_aware)?,
            kept.number(*a),
            kept.number(*b),
        )),
        Expr::Keep(k, x) => Ok(Expr::Keep(k.copy(alloc)?, kept.number(*x))),
        Expr::Distinct(x) => Ok(Expr::Distinct(kept.number(*x))),
        Expr::Group(k, added, x) => Ok(Expr::Group(
            k.copy(alloc)?,
            added.copy(alloc)?,
            kept.number(*x),
        )),
    }
}

fn renumbered_list(alloc: Global, kept: &Kept, lines: &[u32]) -> Result<Vec<u32>, AllocError>
    ensures { IfOk result (λ ns. ns.items ≡ map (number_in kept.now.numbers.items) lines.now) }
{
    let mut numbers = Vec::new(alloc);
    for line in lines {
        numbers.push(kept.number(*line))?;
    }
    Ok(numbers)
}

fn renumbered_numbers(alloc: Global, kept: &Kept, lines: &Numbers) -> Result<Numbers, AllocError>
    ensures { IfOk result (λ ns. ns ≡ map (number_in kept.now.numbers.items) lines.now) }
{
    let numbers = renumbered_list(alloc, kept, lines.as_slice())?;
    Numbers::from_slice(alloc, numbers.as_slice())
}

/// The step with new numbers.
fn renumbered_step(
    alloc: Global,
    kept: &Kept,
    log: &Log<'_>,
    step: &Step,
) -> Result<Boxed<Step>, AllocError>
    ensures { IfOk result (λ s. s ≡ spec.renumbered_step (number_in kept.now.numbers.items) log.now.log step.now) }
{
    let pick = renumbered_pick(alloc, kept, log, step)?;
    let uses = renumbered_numbers(alloc, kept, &step.uses)?;
    let makes = renumbered_numbers(alloc, kept, &step.makes)?;
    Boxed::new(
        alloc,
        Step {
            rule: step.rule,
            pick,
            uses,
            makes,
        },
    )
}

/// The line of a log with new numbers.
pub(crate) fn renumbered_line(
    alloc: Global,
    kept: &Kept,
    log: &Log<'_>,
    line: &Line,
) -> Result<Line, AllocError>
    ensures { IfOk result (λ l. l ≡ spec.renumbered_line (number_in kept.now.numbers.items) log.now.log line.now) }
{
    match line {
        Line::Founds(expr) => Ok(Line::Founds(renumbered_expr(alloc, kept, expr)?)),
        Line::Adds(class, step, expr) => {
            let step = renumbered_step(alloc, kept, log, step.get())?;
            let expr = renumbered_expr(alloc, kept, expr)?;
            Ok(Line::Adds(kept.number(*class), step, expr))
        }
        Line::Unites(first, second, step) => {
            let step = renumbered_step(alloc, kept, log, step.get())?;
            Ok(Line::Unites(kept.number(*first), kept.number(*second), step))
        }
        Line::Alike(first, second) => Ok(Line::Alike(kept.number(*first), kept.number(*second))),
        Line::Gives(class, member, fact) => {
            let fact = copy_fact(alloc, fact)?;
            Ok(Line::Gives(kept.number(*class), kept.number(*member), fact))
        }
    }
}
