//! Inner joins go below the outer joins of their sides, so that those that hang together are one region.

use crate::nodes::{MOST_LINES, join_line, step};
use algebra::{ClassId, Expr, LineId};
use bindings::BoundLines;
use book::RuleName;
use memo::Memo;
use query::ids::id_of;
use std::alloc::{AllocError, Global};

/// The lines of a class that are outer joins.
pub(crate) fn left_joins_of(
    alloc: Global,
    memo: &Memo<'_>,
    class: ClassId,
) -> Result<Vec<LineId>, AllocError> {
    let mut lines = memo.log().members(alloc, class)?;
    lines.retain(|line| match memo.log().member(*line) {
        Some(member) => matches!(member.expr, Expr::LeftJoin(_, _, _)),
        None => false,
    });
    Ok(lines)
}

/// Puts a line that is an inner join below the outer joins of its left side. Where its right side is one, the join is commuted for that.
fn put_below(alloc: Global, memo: &mut Memo<'_>, line: LineId) -> Result<(), AllocError> {
    let Some(join) = join_line(memo, line) else {
        return Ok(());
    };
    if !left_joins_of(alloc, memo, join.right)?.is_empty() {
        let _ = step(alloc, memo, RuleName::JoinCommutes, BoundLines::One(line))?;
    }
    for below in left_joins_of(alloc, memo, join.left)? {
        let lines = BoundLines::Two(line, below);
        let _ = step(alloc, memo, RuleName::LeftJoinAboveJoin, lines)?;
    }
    Ok(())
}

/// Adds lines to a log by which each inner join is below the outer joins that its condition doesn't read. Whether there were such joins. Those of a region are
/// chosen by themselves then, and an outer join is placed over few rows where they leave few.
pub fn raise_left_joins(alloc: Global, memo: &mut Memo<'_>) -> Result<bool, AllocError> {
    let before = memo.log().len();
    for line in 0..MOST_LINES {
        if line < memo.log().len() {
            put_below(alloc, memo, id_of(line)?)?;
        }
    }
    Ok(memo.log().len() > before)
}
