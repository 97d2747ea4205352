//! Facts of classes, learned where a rule may ask for them.

use crate::keys::{classes_below, learn_keys};
use algebra::{ClassId, Columns, Condition, Conjuncts, Expr, LineId, Term};
use memo::Memo;
use props::Fact;
use query::ColumnId;
use std::alloc::{AllocError, Global};

/// The right sides of the outer joins of a class.
fn padded_sides(
    alloc: Global,
    memo: &Memo<'_>,
    class: ClassId,
) -> Result<Vec<ClassId>, AllocError> {
    let mut sides = Vec::new(alloc);
    for line in memo.log().members(alloc, class)? {
        if let Some(member) = memo.log().member(line) {
            if let Expr::LeftJoin(_, _, right) = member.expr {
                sides.push(*right)?;
            }
        }
    }
    Ok(sides)
}

/// Learns keys of the outer joins' right sides of which none of the columns is kept.
fn learn_unread(
    alloc: Global,
    memo: &mut Memo<'_>,
    kept: &[ColumnId],
    class: ClassId,
) -> Result<(), AllocError> {
    for side in padded_sides(alloc, memo, class)? {
        let columns = memo.log().classes().columns;
        if !kept.iter().any(|column| columns.has(side, *column)) {
            learn_keys(alloc, memo, side)?;
        }
    }
    Ok(())
}

/// Learns that a column is nowhere Null in a class, and before that in those on which it stands, where it is so.
fn learn_filled(
    alloc: Global,
    memo: &mut Memo<'_>,
    class: ClassId,
    column: ColumnId,
) -> Result<(), AllocError> {
    for below in classes_below(alloc, memo, class)? {
        if memo.log().classes().columns.has(below, column) {
            let _ = memo.learn(alloc, below, Fact::NotNull(column))?;
        }
    }
    Ok(())
}

/// The columns that conjuncts ask to be Null.
fn null_columns(alloc: Global, conjuncts: &Conjuncts) -> Result<Vec<ColumnId>, AllocError> {
    let mut columns = Vec::new(alloc);
    for conjunct in conjuncts.as_slice() {
        if let Condition::IsNull(Term::Column(column)) = conjunct {
            columns.push(*column)?;
        }
    }
    Ok(columns)
}

/// Learns which of the columns that are asked to be Null aren't in the rows of the outer joins' right sides.
fn learn_unpadded(
    alloc: Global,
    memo: &mut Memo<'_>,
    columns: &[ColumnId],
    class: ClassId,
) -> Result<(), AllocError> {
    if columns.is_empty() {
        return Ok(());
    }
    for side in padded_sides(alloc, memo, class)? {
        for column in columns {
            learn_filled(alloc, memo, side, *column)?;
        }
    }
    Ok(())
}

/// The columns that conjuncts compare.
fn compared_columns(alloc: Global, conjuncts: &Conjuncts) -> Result<Vec<ColumnId>, AllocError> {
    let mut columns = Vec::new(alloc);
    for conjunct in conjuncts.as_slice() {
        if let Condition::Compare(_, left, right) = conjunct {
            for term in [left, right] {
                if let Term::Column(column) = term {
                    columns.push(*column)?;
                }
            }
        }
    }
    Ok(columns)
}

/// Learns which of the columns aren't Null in the classes.
fn learn_all_filled(
    alloc: Global,
    memo: &mut Memo<'_>,
    columns: &[ColumnId],
    classes: [ClassId; 2],
) -> Result<(), AllocError> {
    for class in classes {
        for column in columns {
            learn_filled(alloc, memo, class, *column)?;
        }
    }
    Ok(())
}

/// The facts of a class that rules need which take a line over it.
#[derive(Drop)]
enum NeededFacts {
    /// Whether it has keys.
    Keys(ClassId),
    /// Whether the outer joins' right sides have, where none of these columns is theirs.
    KeysOfUnread(Vec<ColumnId>, ClassId),
    /// Whether these columns of the outer joins' right sides are Null in some row.
    Unpadded(Vec<ColumnId>, ClassId),
    /// Whether these columns are in some row of one of the two classes.
    Filled(Vec<ColumnId>, [ClassId; 2]),
    Nothing,
}

fn copied(alloc: Global, columns: &Columns) -> Result<Vec<ColumnId>, AllocError> {
    Vec::from_slice(alloc, columns.as_slice())
}

fn facts_needed(alloc: Global, memo: &Memo<'_>, line: LineId) -> Result<NeededFacts, AllocError> {
    let Some(member) = memo.log().member(line) else {
        return Ok(NeededFacts::Nothing);
    };
    Ok(match member.expr {
        Expr::Distinct(x) => NeededFacts::Keys(*x),
        Expr::Keep(kept, x) => NeededFacts::KeysOfUnread(copied(alloc, kept)?, *x),
        Expr::Select(conjuncts, x) => NeededFacts::Unpadded(null_columns(alloc, conjuncts)?, *x),
        Expr::Anti(_, null_aware, a, b) => {
            NeededFacts::Filled(compared_columns(alloc, null_aware)?, [*a, *b])
        }
        _ => NeededFacts::Nothing,
    })
}

/// Learns what rules may need at a line: keys of what it has the distinct rows of, and of outer joins below a projection that doesn't read their right
/// sides; and that columns aren't Null which a selection asks to be so, or a null-aware condition of an antijoin compares.
pub(crate) fn learn_needed(
    alloc: Global,
    memo: &mut Memo<'_>,
    line: LineId,
) -> Result<(), AllocError> {
    match facts_needed(alloc, memo, line)? {
        NeededFacts::Keys(class) => learn_keys(alloc, memo, class),
        NeededFacts::KeysOfUnread(kept, class) => learn_unread(alloc, memo, kept.as_slice(), class),
        NeededFacts::Unpadded(columns, class) => learn_unpadded(
            alloc,
            memo,
            columns.as_slice(),
            class,
        ),
        NeededFacts::Filled(columns, classes) => {
            learn_all_filled(alloc, memo, columns.as_slice(), classes)
        }
        NeededFacts::Nothing => Ok(()),
    }
}
