//! Logs of a query: lines that stand, behind those of its frame.

ghost use Rattle.std.specs.Prelude.{◌≡◌, ◌≤◌, None, length, max, reverse, IfOk, IfSome};
ghost use Rattle.derivation.specs.Replay.{Replays};
ghost use Rattle.frame.specs.Frames.{query_frame};
ghost use Rattle.lean_logs.specs.Growth.{IsServed};
ghost use Rattle.planner.specs.Searched.{IsReady, framed};

use crate::searching::Planning;
use algebra::Aggregation;
use derivation::Line;
use lean_logs::LeanLog;
use logs::Log;
use query::TableInstance;
use std::alloc::{AllocError, Global};
use values::Fault;

/// A log of the lines; none where some line may not stand.
fn log_of<'q>(
    alloc: Global,
    instances: &'q [TableInstance],
    own: &'q [Aggregation],
    lines: &[Line],
) -> Result<Option<Log<'q>>, AllocError>
    ensures some { IfOk result (λ found. IfSome found (λ log. log ≡ record { instances = instances.now; own = own.now; log = reverse lines.now })) }
    ensures none { IfOk result (λ found. found ≡ None → Replays instances.now own.now (reverse lines.now) → ⊥) }
{
    let mut log = Log::new(alloc, instances, own);
    for line in lines {
        match log.push(alloc, line.copy(alloc)?) {
            Ok(()) => {}
            Err(Fault::Memory) => return Err(AllocError),
            Err(Fault::Refused(_)) => return Ok(None),
        }
    }
    Ok(Some(log))
}

/// A log of the frame's lines alone.
pub(crate) fn frame_log<'q>(alloc: Global, planning: Planning<'q>) -> Result<Log<'q>, AllocError>
    requires ready { IsReady planning }
    ensures { IfOk result (λ log. log ≡ framed planning.entry.query.now) }
{
    let query = planning.query;
    let tables = query.query().tables.as_slice();
    match log_of(alloc, tables, query.own(), planning.known.lines.as_slice())? {
        Some(log) => Ok(log),
        None => unreachable!(),
    }
}

/// A log of the frame's lines, and behind them of those of the seeds that come behind, each judged anew. Where these are more than the limit, or one may not
/// stand, says nothing new, or founds what no later one names, it is that of the frame's lines alone.
pub(crate) fn judged<'q>(
    alloc: Global,
    planning: Planning<'q>,
    seeds: &[Line],
) -> Result<LeanLog<'q>, AllocError>
    requires ready { IsReady planning }
    ensures served { IfOk result (IsServed (framed planning.entry.query.now)) }
    ensures within { IfOk result (λ log. length log.log ≤ max planning.entry.limit (length (query_frame planning.entry.query.now))) }
{
    let frame = frame_log(alloc, planning)?;
    let mut served = LeanLog::behind(alloc, frame)?;
    let behind = seeds.get(planning.query.frame().len()..).unwrap_or(&[]);
    if served.append_served(alloc, planning.limit, behind)? {
        return Ok(served);
    }
    let frame = frame_log(alloc, planning)?;
    let log = LeanLog::behind(alloc, frame)?;
    Ok(log)
}
