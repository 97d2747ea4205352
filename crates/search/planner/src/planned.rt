//! The plan that is chosen for a query.

ghost use Rattle.std.specs.Prelude.{◌≡◌, ◌⊎◌, true, false, reverse, Ok, IfOk};
ghost use Rattle.certificate.specs.Replay.{replayed};
ghost use Rattle.trimming.specs.Part.{IsPart};
ghost use Rattle.planner.specs.NotDearer.{IsNotDearer, certificate_cost};
ghost use Rattle.planner.specs.Searched.{IsPlanned, IsReady, IsSearched, IsToldOf};

use crate::certificates::canonical;
use crate::certifying::{serves, whole};
use crate::searching::{Planning, Searched, search_plan};
use certificate::Certificate;
use derivation::Line;
use labels::Label;
use physical::Plan;
use prepared_query::PreparedQuery;
use statistics::Statistics;
use std::alloc::{AllocError, Global};
use trimming::trimmed;
use values::Items;
use winners::BestPlan;

/// The cheapest plan of a query that the lines of a search offer, and its certificate.
#[derive(Drop)]
pub struct Planned {
    /// All lines of the search, those of the query's frame first.
    pub log: Items<Line>,
    /// The plan, over these lines.
    pub plan: Plan,
    /// What its goals cost at least, by which `check_least` of `labels` sees that no plan of these lines costs less.
    pub labels: Items<Label>,
    /// That no rule adds anything to the lines. It is found out where they are explored to their limit.
    pub is_complete: bool,
    /// The plan with those of the lines that it needs, numbered anew.
    pub certificate: Certificate,
    /// What the plan is estimated to cost, in hundredths of a page.
    pub cost: u64,
}

/// How far the plans of a query are explored.
#[derive(Clone, Copy)]
pub enum Exploration {
    /// As long as that takes little beside what the plan is estimated to cost, and twice the lines make the plan cheaper.
    WhileWorthwhile,
    /// Until the log is full, or no rule adds anything to it.
    ToLimit,
}

/// The certificate of the plan with those of the lines that it needs; with all, where that doesn't serve.
fn certified(
    alloc: Global,
    planning: Planning<'_>,
    searched: &Searched<'_>,
) -> Result<Certificate, AllocError>
    requires ready { IsReady planning }
    requires searched { IsSearched planning.statistics.now planning.query.now planning.limit searched.now }
    ensures part { IfOk result (λ c. IsPart searched.now.log.log searched.now.best.plan c ⊎ c ≡ record { lines = reverse searched.now.log.log; plan = searched.now.best.plan }) }
    ensures replays { IfOk result (λ c. replayed planning.entry.query.now c ≡ Ok c) }
    ensures cost { IfOk result (λ c. searched.now.best.cost ≡ certificate_cost planning.entry.statistics.now planning.entry.query.now c) }
    ensures cheap { IfOk result (IsNotDearer planning.entry.statistics.now planning.entry.query.now) }
{
    let Searched { log, best, .. } = searched;
    let certificate = trimmed(alloc, log, planning.query.frame().len(), &best.plan)?;
    if serves(alloc, planning, &certificate, best.cost)? {
        return Ok(certificate);
    }
    whole(alloc, log.lines(), &best.plan)
}

/// What is planned by a search.
fn planned_by(
    alloc: Global,
    planning: Planning<'_>,
    searched: Searched<'_>,
) -> Result<Planned, AllocError>
    requires ready { IsReady planning }
    requires searched { IsSearched planning.statistics.now planning.query.now planning.limit searched }
    requires told { searched.is_complete ≡ false → IsToldOf planning.exploration planning.limit searched.log.log }
    ensures { IfOk result (IsPlanned planning.entry.statistics.now planning.entry.query.now planning.entry.limit planning.entry.exploration) }
{
    // their contract says that they replay
    let _lines = searched.log.lines();
    let certificate = certified(alloc, planning, &searched)?;
    let Searched {
        log,
        best,
        is_complete,
    } = searched;
    let BestPlan { plan, cost, labels } = best;
    Ok(Planned {
        log: Items::from_vec(log.into_lines()),
        plan,
        labels,
        is_complete,
        certificate,
        cost,
    })
}

/// Plans a query: the cheapest plan by the statistics that the lines of its search offer, which are at most `limit`, or those of the query's frame, explored so
/// far; and a certificate of it that replays.
pub fn plan(
    alloc: Global,
    query: &PreparedQuery<'_>,
    statistics: &Statistics,
    limit: usize,
    exploration: Exploration,
) -> Result<Planned, AllocError>
    ensures { IfOk result (IsPlanned statistics.now query.now limit exploration) }
{
    // its contract says that it is bound
    let _query = query.query();
    let known = canonical(alloc, query)?;
    let planning = Planning {
        query,
        known: &known,
        statistics,
        limit,
        exploration,
    };
    let searched = search_plan(alloc, planning)?;
    planned_by(alloc, planning, searched)
}
