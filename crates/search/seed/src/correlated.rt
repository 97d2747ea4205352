//! The correlated conditions of a subquery, which read rows of another block, are split off from those that read the block's own rows alone.
//!
//! As a semijoin or an antijoin a subquery gives its conditions to the join, and its input is joined. So that this is what the block's own conditions have left,
//! the selection is founded as one by the others from one by these; merging the two says that it is the same class.

use crate::nodes::step;
use crate::subquery_placement::selection;
use algebra::{ClassId, Condition, Conjuncts, Expr, LineId};
use bindings::BoundLines;
use book::RuleName;
use memo::Memo;
use query::ids::id_of;
use std::alloc::{AllocError, Global};

/// The conditions of a selection: those that read rows of its input alone, and the correlated ones.
#[derive(Drop)]
struct BlockConditions {
    uncorrelated: Conjuncts,
    correlated: Conjuncts,
    input: ClassId,
}

/// Whether a condition reads columns of the class alone.
fn is_uncorrelated(
    alloc: Global,
    memo: &Memo<'_>,
    class: ClassId,
    condition: &Condition,
) -> Result<bool, AllocError> {
    let columns = memo.log().classes().columns;
    let alone = Conjuncts::of(alloc, &[condition.copy(alloc)?])?;
    let mentioned = alone.mentioned(alloc, columns)?;
    Ok(columns.has_all(class, mentioned.as_slice()))
}

/// The conditions of a line, if it is a selection that has some of both kinds.
fn split_conditions(
    alloc: Global,
    memo: &Memo<'_>,
    line: LineId,
) -> Result<Option<BlockConditions>, AllocError> {
    let Some(member) = memo.log().member(line) else {
        return Ok(None);
    };
    let Expr::Select(conjuncts, input) = member.expr else {
        return Ok(None);
    };
    let mut uncorrelated = Vec::new(alloc);
    let mut correlated = Vec::new(alloc);
    for condition in conjuncts.as_slice() {
        let condition = condition.copy(alloc)?;
        if is_uncorrelated(alloc, memo, *input, &condition)? {
            uncorrelated.push(condition)?;
        } else {
            correlated.push(condition)?;
        }
    }
    if uncorrelated.is_empty() || correlated.is_empty() {
        return Ok(None);
    }
    Ok(Some(BlockConditions {
        uncorrelated: Conjuncts::of(alloc, uncorrelated.as_slice())?,
        correlated: Conjuncts::of(alloc, correlated.as_slice())?,
        input: *input,
    }))
}

/// Founds the selection by the uncorrelated conditions, and by the others from that; the line of the first.
fn split_selection(
    alloc: Global,
    memo: &mut Memo<'_>,
    line: LineId,
) -> Result<Option<LineId>, AllocError> {
    let Some(
        BlockConditions {
            uncorrelated,
            correlated,
            input,
        },
    ) = split_conditions(alloc, memo, line)?
    else {
        return Ok(None);
    };
    let Some(inner) = selection(alloc, memo, uncorrelated, input)? else {
        return Ok(None);
    };
    let Some(found) = memo.log().member(inner) else {
        return Ok(None);
    };
    let class = found.class;
    if let Some(outer) = selection(alloc, memo, correlated, class)? {
        let lines = BoundLines::Two(outer, inner);
        let _ = step(alloc, memo, RuleName::SelectsMerge, lines)?;
    }
    Ok(Some(inner))
}

/// Splits the conditions of the selections of a log. The lines by uncorrelated conditions, those of inner blocks first.
pub(crate) fn split_correlated(
    alloc: Global,
    memo: &mut Memo<'_>,
) -> Result<Vec<LineId>, AllocError> {
    let mut uncorrelated = Vec::new(alloc);
    for line in 0..id_of(memo.log().len())? {
        if let Some(line) = split_selection(alloc, memo, line)? {
            uncorrelated.push(line)?;
        }
    }
    Ok(uncorrelated)
}
