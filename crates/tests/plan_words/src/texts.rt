//! Lines of frames, and keys, as texts.

use algebra::condition_text::condition_text;
use algebra::{Aggregation, Conjuncts, Expr};
use fixtures::push_number;
use physical::OrderKey;
use query::{Aggregate, ColumnId};
use std::alloc::{AllocError, Global};

fn push_conjuncts(
    alloc: Global,
    reported: &mut String,
    conjuncts: &Conjuncts,
) -> Result<(), AllocError> {
    reported.push_str(" [")?;
    for (place, condition) in conjuncts.as_slice().iter().enumerate() {
        reported.push_str(if place == 0 { "" } else { "," })?;
        reported.push_str(condition_text(alloc, condition)?.as_str())?;
    }
    reported.push_str("]")
}

pub fn push_columns(reported: &mut String, columns: &[ColumnId]) -> Result<(), AllocError> {
    for column in columns {
        push_number(reported, " ", *column as usize)?;
    }
    Ok(())
}

fn push_aggregate(reported: &mut String, aggregate: Aggregate) -> Result<(), AllocError> {
    match aggregate {
        Aggregate::CountRows => reported.push_str("count"),
        Aggregate::Count(read) => push_number(reported, "count:", read as usize),
        Aggregate::Sum(read) => push_number(reported, "sum:", read as usize),
        Aggregate::Min(read) => push_number(reported, "min:", read as usize),
        Aggregate::Max(read) => push_number(reported, "max:", read as usize),
    }
}

/// The aggregates after `;`, each after its column.
pub fn push_aggregates(reported: &mut String, added: &[Aggregation]) -> Result<(), AllocError> {
    reported.push_str(";")?;
    for own in added {
        push_number(reported, " ", own.column as usize)?;
        reported.push_str("=")?;
        push_aggregate(reported, own.aggregate)?;
    }
    Ok(())
}

/// The columns of an order, a falling one with `d`.
pub fn push_keys(reported: &mut String, keys: &[OrderKey]) -> Result<(), AllocError> {
    for key in keys {
        push_number(reported, " ", key.column as usize)?;
        reported.push_str(if key.descending { "d" } else { "" })?;
    }
    Ok(())
}

pub fn push_line(alloc: Global, reported: &mut String, line: &Expr) -> Result<(), AllocError> {
    match line {
        Expr::Get(instance) => push_number(reported, "get ", *instance as usize),
        Expr::Select(conjuncts, input) => {
            push_number(reported, "select ", *input as usize)?;
            push_conjuncts(alloc, reported, conjuncts)
        }
        Expr::Join(conjuncts, left, right) => {
            push_number(reported, "join ", *left as usize)?;
            push_number(reported, " ", *right as usize)?;
            push_conjuncts(alloc, reported, conjuncts)
        }
        Expr::LeftJoin(conjuncts, left, right) => {
            push_number(reported, "left ", *left as usize)?;
            push_number(reported, " ", *right as usize)?;
            push_conjuncts(alloc, reported, conjuncts)
        }
        Expr::Keep(columns, input) => {
            push_number(reported, "keep ", *input as usize)?;
            reported.push_str(":")?;
            push_columns(reported, columns.as_slice())
        }
        Expr::Distinct(input) => push_number(reported, "distinct ", *input as usize),
        Expr::Group(keys, added, input) => {
            push_number(reported, "group ", *input as usize)?;
            reported.push_str(":")?;
            push_columns(reported, keys.as_slice())?;
            push_aggregates(reported, added.as_slice())
        }
        _ => reported.push_str("not of a frame"),
    }
}
