//! A log without what a plan doesn't need.

ghost use Rattle.std.specs.Prelude.{◌≡◌, ◌++◌, flat_map, IfOk, OnOk};
ghost use Rattle.trimming.specs.Kept.{number_in};
ghost use Rattle.trimming.specs.Part.{IsPart};
ghost use Rattle.trimming.specs.Renumbered.{renumbered_at};

use crate::kept::Kept;
use crate::needed::Needed;
use crate::plan_lines::need_plan;
use crate::renumbered::renumbered_line;
use crate::renumbered_plans::renumbered_plan;
use algebra::LineId;
use certificate::Certificate;
use derivation::Line;
use logs::Log;
use physical::Plan;
use query::ids::id_of;
use std::alloc::{AllocError, Global};
use values::Items;

/// For each line of a log whether it is needed for the frame, which is so many lines from the first on, or for a plan of the frame's class.
fn needed_lines(
    alloc: Global,
    log: &Log<'_>,
    frame_lines: usize,
    plan: &Plan,
) -> Result<Vec<bool>, AllocError> {
    let mut needed = Needed::none(alloc, log)?;
    let count = id_of(frame_lines)?;
    for line in 0..count {
        needed.line(line)?;
    }
    need_plan(alloc, &mut needed, plan, count.saturating_sub(1))?;
    needed.into_marks()
}

/// Adds the line of a number with new numbers, if there is one.
fn push_line(
    alloc: Global,
    kept: &Kept,
    log: &Log<'_>,
    number: LineId,
    renumbered: &mut Items<Line>,
) -> Result<(), AllocError>
    ensures { OnOk result (renumbered.new ≡ renumbered.old ++ renumbered_at (number_in kept.now.numbers.items) log.now.log number) }
{
    if let Some(line) = log.lines().get(number as usize) {
        renumbered.push(renumbered_line(alloc, kept, log, line)?)?;
    }
    Ok(())
}

/// The lines that are kept, with new numbers.
pub(crate) fn kept_lines(
    alloc: Global,
    kept: &Kept,
    log: &Log<'_>,
) -> Result<Items<Line>, AllocError>
    ensures { IfOk result (λ ls. ls ≡ flat_map (renumbered_at (number_in kept.now.numbers.items) log.now.log) kept.now.lines.items) }
{
    let mut renumbered = Items::new(alloc);
    for number in kept.lines.as_slice() {
        push_line(alloc, kept, log, *number, &mut renumbered)?;
    }
    Ok(renumbered)
}

/// The certificate of a plan of the class of a log's frame, which is so many lines from the first on: those lines of the log that are needed for
/// the frame, for the plan, and for as many rows as are estimated of it, in their order and numbered anew, and the plan with the new numbers. It
/// takes n log n steps for n lines, but for facts: for each that is needed, those that are known of the classes from which it follows are gone
/// through.
pub fn trimmed(
    alloc: Global,
    log: &Log<'_>,
    frame_lines: usize,
    plan: &Plan,
) -> Result<Certificate, AllocError>
    ensures { IfOk result (IsPart log.now.log plan.now) }
{
    let marks = needed_lines(alloc, log, frame_lines, plan)?;
    let kept = Kept::of(alloc, log.len(), marks.as_slice())?;
    let lines = kept_lines(alloc, &kept, log)?;
    let plan = renumbered_plan(alloc, &kept, plan)?;
    Ok(Certificate { lines, plan })
}
