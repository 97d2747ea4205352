//! The indexes by which the table instances of a log are read.

ghost use Rattle.std.specs.Prelude.{◌≡◌, ◌+◌, ℕ, nat_lt, slice_get, OnOk, IfOk};
ghost use Rattle.physical.specs.Indexes.{numbers_index};
ghost use Rattle.labels.specs.Candidates as spec;

use algebra::{Expr, LineId};
use logs::Log;
use physical::IndexAccess;
use query::ids::id_of;
use query::{InstanceId, TableInstance};
use std::alloc::{AllocError, Global};

/// How many indexes the instance's table has.
fn index_count(instances: &[TableInstance], instance: InstanceId) -> Result<u32, AllocError>
    ensures { IfOk result (λ count. (i : ℕ) → numbers_index (slice_get instances.now instance) i ≡ nat_lt i count) }
{
    match instances.get(instance as usize) {
        Some(instance) => id_of(instance.entry.indexes.len()),
        None => Ok(0),
    }
}

/// Adds the accesses of a line that gets the instance.
fn push_accesses(
    line: LineId,
    instance: InstanceId,
    count: u32,
    found: &mut Vec<IndexAccess>,
) -> Result<(), AllocError>
    ensures { OnOk result (spec.HasAccesses line instance count found.old.items found.new.items) }
{
    for index in 0..count {
        found.push(IndexAccess {
            line,
            instance,
            index,
        })?;
    }
    Ok(())
}

/// Adds the accesses of a line, if it gets a table instance.
fn push_line(log: &Log<'_>, line: LineId, found: &mut Vec<IndexAccess>) -> Result<(), AllocError>
    ensures { OnOk result (spec.HasAccessesBelow log.now.instances log.now.log line found.old.items → spec.HasAccessesBelow log.now.instances log.now.log (line + 1) found.new.items) }
{
    let Some(member) = log.member(line) else {
        return Ok(());
    };
    let Expr::Get(instance) = member.expr else {
        return Ok(());
    };
    let count = index_count(log.instances(), *instance)?;
    push_accesses(line, *instance, count, found)
}

/// The accesses of all lines that get a table instance.
pub fn accesses_of(alloc: Global, log: &Log<'_>) -> Result<Vec<IndexAccess>, AllocError>
    ensures { IfOk result (λ found. spec.AreAccesses log.now.instances log.now.log found.items) }
{
    let mut found = Vec::new(alloc);
    for line in 0..id_of(log.len())? {
        push_line(log, line, &mut found)?;
    }
    Ok(found)
}
