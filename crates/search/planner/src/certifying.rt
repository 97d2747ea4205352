//! The certificate of a plan that was searched for.

ghost use Rattle.std.specs.Prelude.{◌≡◌, ◌≤◌, true, reverse, Ok, IfOk};
ghost use Rattle.costs.specs.Costs.{plan_cost};
ghost use Rattle.certificate.specs.Replay.{replayed};
ghost use Rattle.certificate.specs.declared.certificate.Certificate.{Certificate};
ghost use Rattle.planner.specs.NotDearer.{IsAsCheap, certificate_cost};
ghost use Rattle.planner.specs.Searched.{IsReady};

use crate::searching::Planning;
use certificate::Certificate;
use costs::{Cardinalities, cost};
use derivation::Line;
use logs::Log;
use physical::Plan;
use statistics::Statistics;
use std::alloc::{AllocError, Global};
use values::{Fault, Items};

/// Whether a plan over the log costs so much, and another no less.
fn costs_as_told(
    alloc: Global,
    statistics: &Statistics,
    log: &Log<'_>,
    plan: &Plan,
    told: u64,
    other: &Plan,
) -> Result<bool, AllocError>
    ensures cost { IfOk result (λ as_told. as_told ≡ true → plan_cost statistics.now log.now.instances log.now.log plan.now ≡ told) }
    ensures cheap { IfOk result (λ as_told. as_told ≡ true → plan_cost statistics.now log.now.instances log.now.log plan.now ≤ plan_cost statistics.now log.now.instances log.now.log other.now) }
{
    let cardinalities = Cardinalities::of(alloc, statistics, log)?;
    if cost(statistics, log, &cardinalities, plan) != told {
        return Ok(false);
    }
    Ok(told <= cost(statistics, log, &cardinalities, other))
}

/// Whether a certificate replays for the query, its plan costs so much by what is estimated over its own lines, and that of the known one no less.
pub(crate) fn serves(
    alloc: Global,
    planning: Planning<'_>,
    certificate: &Certificate,
    told: u64,
) -> Result<bool, AllocError>
    requires ready { IsReady planning }
    ensures replays { IfOk result (λ serves. serves ≡ true → replayed planning.entry.query.now certificate.now ≡ Ok certificate.now) }
    ensures cost { IfOk result (λ serves. serves ≡ true → certificate_cost planning.entry.statistics.now planning.entry.query.now certificate.now ≡ told) }
    ensures cheap { IfOk result (λ serves. serves ≡ true → IsAsCheap planning.entry.statistics.now planning.entry.query.now certificate.now planning.entry.known.now) }
{
    match planning.query.judged(alloc, certificate) {
        Ok(log) => {
            let statistics = planning.statistics;
            costs_as_told(
                alloc,
                statistics,
                &log,
                &certificate.plan,
                told,
                &planning.known.plan,
            )
        }
        Err(Fault::Memory) => Err(AllocError),
        Err(Fault::Refused(_)) => Ok(false),
    }
}

fn copied(alloc: Global, lines: &[Line]) -> Result<Items<Line>, AllocError>
    ensures { IfOk result (λ copy. copy ≡ lines.now) }
{
    let mut copy = Items::new(alloc);
    for line in lines {
        copy.push(line.copy(alloc)?)?;
    }
    Ok(copy)
}

/// It calls itself as deep as the plan is.
#[cycle(plans)]
fn copied_plan(alloc: Global, plan: &Plan) -> Result<Plan, AllocError>
    ensures { IfOk result (λ copy. copy ≡ plan.now) }
{
    let node = plan.node.copy(alloc)?;
    let inputs = copied_plans(alloc, plan.inputs.as_slice())?;
    Ok(Plan { node, inputs })
}

#[cycle(plans)]
fn copied_plans(alloc: Global, plans: &[Plan]) -> Result<Items<Plan>, AllocError>
    ensures { IfOk result (λ copies. copies ≡ plans.now) }
{
    let mut copies = Items::new(alloc);
    for plan in plans {
        copies.push(copied_plan(alloc, plan)?)?;
    }
    Ok(copies)
}

/// The certificate with all lines.
pub(crate) fn whole(alloc: Global, lines: &[Line], plan: &Plan) -> Result<Certificate, AllocError>
    ensures lines { IfOk result (λ certificate. certificate.lines ≡ lines.now) }
    ensures plan { IfOk result (λ certificate. certificate.plan ≡ plan.now) }
{
    let lines = copied(alloc, lines)?;
    let plan = copied_plan(alloc, plan)?;
    Ok(Certificate { lines, plan })
}
