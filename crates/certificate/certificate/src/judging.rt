//! Certificates against their queries: their lines one behind the other, and then their plans.

ghost use Rattle.std.specs.Prelude.{◌≡◌, [], true, option_map, flat_map, reverse, slice_get, IfOk, OnOk, Result};
ghost use Rattle.values.specs.Faults.{Fails, Gives};
ghost use Rattle.query.specs.Bound.{is_bound};
ghost use Rattle.frame.specs.Frames.{query_frame};
ghost use Rattle.frame.specs.FormedFrames.{group_aggregates, own_aggregates};
ghost use Rattle.certificate.specs.Replay as spec;
ghost use Rattle.derivation.specs.declared.line.Line.{Line};
ghost use Rattle.derivation.specs.declared.line.LineReason.{LineReason};
ghost use Rattle.logs.specs.Logged.{with_line};

use crate::certificate::{Certificate, CheckFault, CheckReason};
use crate::plan_fit::{fit, refused};
use algebra::{Aggregation, Expr};
use derivation::Line;
use logs::{LineFault, Log};
use query::Query;
use query::ids::id_of;
use std::alloc::{AllocError, Global};
use values::Fault;

/// The fault of a line that may not stand.
fn fault_at(number: usize, fault: LineFault) -> CheckFault
    ensures { (read : Result Line LineReason) → Fails fault read → Fails result (spec.at_line number read) }
{
    match fault {
        Fault::Refused(reason) => refused(number, CheckReason::of_line(reason)),
        Fault::Memory => Fault::Memory,
    }
}

/// Whether the line founds the frame's class, where the frame has one.
fn is_frame_line(own: Option<&Expr>, line: &Line) -> bool
    ensures { result ≡ spec.is_frame_line (option_map (λ x. x.now) own.entry) line.now }
{
    match (own, line) {
        (None, _) => true,
        (Some(own), Line::Founds(expr)) => expr.same(own),
        (
            Some(_),
            Line::Adds(_, _, _) | Line::Unites(_, _, _) | Line::Alike(_, _) | Line::Gives(_, _, _),
        ) => false,
    }
}

/// Whether a line of this number is the frame's, where the frame has one.
fn is_of_frame(frame: &[Expr], number: usize, line: &Line) -> bool
    ensures { result ≡ spec.is_frame_line (slice_get frame.now number) line.now }
{
    is_frame_line(frame.get(number), line)
}

/// The aggregates that are the query's own: those of its frame.
pub fn own_aggregates(alloc: Global, frame: &[Expr]) -> Result<Vec<Aggregation>, AllocError>
    ensures { IfOk result (λ own. own.items ≡ flat_map group_aggregates frame.now) }
{
    let mut own = Vec::new(alloc);
    for expr in frame {
        if let Expr::Group(_, added, _) = expr {
            own.extend_from_slice(added.as_slice())?;
        }
    }
    Ok(own)
}

/// Adds a line to the log of those before it, if it may stand there.
fn push_line(
    alloc: Global,
    query: &Query,
    frame: &[Expr],
    log: &mut Log<'_>,
    line: &Line,
) -> Result<(), CheckFault>
    requires frame { frame.now ≡ query_frame query.now }
    requires instances { log.old.instances ≡ query.now.tables }
    requires own { log.old.own ≡ own_aggregates query.now }
    ensures verdict { Gives (λ _. line.now) result (spec.line_replays query.now log.old.log line.now) }
    ensures added { OnOk result (log.new ≡ with_line log.old line.now) }
{
    let number = log.len();
    let copy = line.copy(alloc)?;
    if let Err(fault) = log.push(alloc, copy) {
        return Err(fault_at(number, fault));
    }
    if !is_of_frame(frame, number, line) {
        return Err(refused(number, CheckReason::OtherLine));
    }
    Ok(())
}

/// The log of the lines, whose first ones are those of the query's frame.
pub fn replay<'q>(
    alloc: Global,
    query: &'q Query,
    frame: &[Expr],
    own: &'q [Aggregation],
    lines: &[Line],
) -> Result<Log<'q>, CheckFault>
    requires frame { frame.now ≡ query_frame query.now }
    requires own { own.now ≡ own_aggregates query.now }
    ensures verdict { Gives (λ log. log.log) result (spec.lines_replay query.now [] lines.now) }
    ensures instances { IfOk result (λ log. log.instances ≡ query.now.tables) }
{
    let mut log = Log::new(alloc, query.tables.as_slice(), own);
    for line in lines {
        push_line(alloc, query, frame, &mut log, line)?;
    }
    if lines.len() < frame.len() {
        return Err(refused(lines.len(), CheckReason::OtherLine));
    }
    Ok(log)
}

/// The log of a certificate's lines, where the certificate replays for the query; else its first fault: lines go before nodes.
#[tactic(auto, unfolding(crate::specs::Replay::replayed))]
pub fn judged_log<'q>(
    alloc: Global,
    query: &'q Query,
    frame: &[Expr],
    own: &'q [Aggregation],
    certificate: &Certificate,
) -> Result<Log<'q>, CheckFault>
    requires bound { is_bound query.now ≡ true }
    requires frame { frame.now ≡ query_frame query.now }
    requires own { own.now ≡ own_aggregates query.now }
    ensures verdict { Gives (λ _. certificate.now) result (spec.replayed query.now certificate.now) }
    ensures lines { IfOk result (λ log. log.log ≡ reverse certificate.now.lines) }
    ensures instances { IfOk result (λ log. log.instances ≡ query.now.tables) }
{
    let lines = certificate.lines.as_slice();
    let log = replay(alloc, query, frame, own, lines)?;
    let last = frame.len() - 1;
    let root = id_of(last)?;
    fit(alloc, query, root, &log, &certificate.plan)?;
    Ok(log)
}
