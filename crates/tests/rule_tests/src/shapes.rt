//! Shapes as texts: an operator, its lists and columns, and its inputs in parentheses; a class by its number.

use algebra::condition_text::condition_text;
use algebra::{Aggregations, Columns, Conjuncts};
use fixtures::push_number;
use rules::Shape;
use std::alloc::{AllocError, Global};

pub fn push_conjuncts(
    alloc: Global,
    reported: &mut String,
    conjuncts: &Conjuncts,
) -> Result<(), AllocError> {
    reported.push_str(" [")?;
    for (place, condition) in conjuncts.as_slice().iter().enumerate() {
        reported.push_str(if place == 0 { "" } else { ";" })?;
        reported.push_str(condition_text(alloc, condition)?.as_str())?;
    }
    reported.push_str("]")
}

fn push_columns(reported: &mut String, columns: &Columns) -> Result<(), AllocError> {
    for column in columns.as_slice() {
        push_number(reported, " ", *column as usize)?;
    }
    Ok(())
}

/// Adds the columns of aggregates, each behind a `+`.
fn push_added(reported: &mut String, added: &Aggregations) -> Result<(), AllocError> {
    for aggregation in added.as_slice() {
        push_number(reported, " +", aggregation.column as usize)?;
    }
    Ok(())
}

/// Adds the name of an operator and its conjuncts.
fn push_named(
    alloc: Global,
    reported: &mut String,
    name: &str,
    conjuncts: &Conjuncts,
) -> Result<(), AllocError> {
    reported.push_str(name)?;
    push_conjuncts(alloc, reported, conjuncts)
}

/// Adds an input.
#[cycle(shapes)]
fn push_input(alloc: Global, reported: &mut String, shape: &Shape) -> Result<(), AllocError> {
    reported.push_str(" (")?;
    push_shape(alloc, reported, shape)?;
    reported.push_str(")")
}

#[cycle(shapes)]
pub fn push_shape(alloc: Global, reported: &mut String, shape: &Shape) -> Result<(), AllocError> {
    match shape {
        Shape::Class(class) => push_number(reported, "", *class as usize),
        Shape::Select(c, x) => {
            push_named(alloc, reported, "select", c)?;
            push_input(alloc, reported, x.get())
        }
        Shape::Join(c, a, b) => {
            push_named(alloc, reported, "join", c)?;
            push_input(alloc, reported, a.get())?;
            push_input(alloc, reported, b.get())
        }
        Shape::LeftJoin(c, a, b) => {
            push_named(alloc, reported, "left", c)?;
            push_input(alloc, reported, a.get())?;
            push_input(alloc, reported, b.get())
        }
        Shape::Semi(c, a, b) => {
            push_named(alloc, reported, "semi", c)?;
            push_input(alloc, reported, a.get())?;
            push_input(alloc, reported, b.get())
        }
        Shape::Anti(ordinary, null_aware, a, b) => {
            push_named(alloc, reported, "anti", ordinary)?;
            push_conjuncts(alloc, reported, null_aware)?;
            push_input(alloc, reported, a.get())?;
            push_input(alloc, reported, b.get())
        }
        Shape::Keep(k, x) => {
            reported.push_str("keep")?;
            push_columns(reported, k)?;
            push_input(alloc, reported, x.get())
        }
        Shape::Distinct(x) => {
            reported.push_str("distinct")?;
            push_input(alloc, reported, x.get())
        }
        Shape::Group(k, added, x) => {
            reported.push_str("group")?;
            push_columns(reported, k)?;
            push_added(reported, added)?;
            push_input(alloc, reported, x.get())
        }
    }
}
