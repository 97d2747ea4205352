//! Conditions by numbers.

use crate::groups::Groups;
use algebra::{ClassId, Condition, Term};
use query::ids::id_of;
use std::alloc::{AllocError, Global};
use values::{Comparison, Value};

/// Which comparison it is.
fn comparison_number(comparison: Comparison) -> u32 {
    match comparison {
        Comparison::Equal => 0,
        Comparison::NotEqual => 1,
        Comparison::Less => 2,
        Comparison::LessOrEqual => 3,
        Comparison::Greater => 4,
        Comparison::GreaterOrEqual => 5,
    }
}

/// Adds the number of a class's group.
pub(crate) fn push_class(
    numbers: &mut Vec<u32>,
    class: ClassId,
    groups: &Groups,
) -> Result<(), AllocError> {
    numbers.push(groups.of(class))?;
    Ok(())
}

/// Adds a number, its lowest 32 bits first.
fn push_int(numbers: &mut Vec<u32>, int: i128) -> Result<(), AllocError> {
    let [a, b, c, d, e, f, g, h, i, j, k, l, m, n, o, p] = int.to_le_bytes();
    numbers.extend_from_slice(&[
        u32::from_le_bytes([a, b, c, d]),
        u32::from_le_bytes([e, f, g, h]),
        u32::from_le_bytes([i, j, k, l]),
        u32::from_le_bytes([m, n, o, p]),
    ])?;
    Ok(())
}

fn push_bytes(numbers: &mut Vec<u32>, bytes: &[u8]) -> Result<(), AllocError> {
    for byte in bytes {
        numbers.push(u32::from(*byte))?;
    }
    Ok(())
}

fn push_value(numbers: &mut Vec<u32>, value: &Value) -> Result<(), AllocError> {
    match value {
        Value::Null => {
            numbers.push(1)?;
            Ok(())
        }
        Value::Int(number) => {
            numbers.push(2)?;
            push_int(numbers, *number)
        }
        Value::Text(text) => {
            let bytes = text.as_str().as_bytes();
            numbers.push(3)?;
            numbers.push(id_of(bytes.len())?)?;
            push_bytes(numbers, bytes)
        }
    }
}

fn push_term(numbers: &mut Vec<u32>, term: &Term) -> Result<(), AllocError> {
    match term {
        Term::Column(column) => {
            numbers.push(0)?;
            numbers.push(*column)?;
            Ok(())
        }
        Term::Literal(literal) => push_value(numbers, literal.value()),
    }
}

/// Adds what a condition is, with the groups of its classes. No condition begins another one, so that lists of conditions are equal
/// where their numbers are.
#[cycle(spelling)]
pub(crate) fn push_condition(
    numbers: &mut Vec<u32>,
    condition: &Condition,
    groups: &Groups,
) -> Result<(), AllocError> {
    match condition {
        Condition::Compare(by, Term::Column(a), Term::Column(b)) => {
            // As below, at once.
            numbers.extend_from_slice(&[comparison_number(*by), 0, *a, 0, *b])?;
            Ok(())
        }
        Condition::Compare(by, a, b) => {
            numbers.push(comparison_number(*by))?;
            push_term(numbers, a)?;
            push_term(numbers, b)
        }
        Condition::IsNull(a) => {
            numbers.push(6)?;
            push_term(numbers, a)
        }
        Condition::Not(part) => {
            numbers.push(7)?;
            push_condition(numbers, part.get(), groups)
        }
        Condition::And(a, b, more) => {
            numbers.push(8)?;
            push_condition(numbers, a.get(), groups)?;
            push_condition(numbers, b.get(), groups)?;
            push_more(numbers, more.as_slice(), groups)
        }
        Condition::Or(a, b, more) => {
            numbers.push(9)?;
            push_condition(numbers, a.get(), groups)?;
            push_condition(numbers, b.get(), groups)?;
            push_more(numbers, more.as_slice(), groups)
        }
        Condition::Exists(class) => {
            numbers.push(10)?;
            push_class(numbers, *class, groups)
        }
        Condition::In(a, class, column) => {
            numbers.push(11)?;
            push_term(numbers, a)?;
            push_class(numbers, *class, groups)?;
            numbers.push(*column)?;
            Ok(())
        }
    }
}

/// Adds conditions behind their count.
#[cycle(spelling)]
fn push_more(
    numbers: &mut Vec<u32>,
    more: &[Condition],
    groups: &Groups,
) -> Result<(), AllocError> {
    numbers.push(id_of(more.len())?)?;
    for condition in more {
        push_condition(numbers, condition, groups)?;
    }
    Ok(())
}
