//! Conditions as certificates spell them, by whose texts conjuncts are ordered.

ghost use Rattle.std.specs.Prelude.{◌≡◌, ◌++◌, codes, decimal, flat_map, string_bytes, IfOk, OnOk};
ghost use Rattle.algebra.specs.ConjunctOrder as spec;

use crate::condition::{Condition, Term};
use itoa::Buffer;
use std::alloc::{AllocError, Global};
use values::{Comparison, Value};

fn comparison_text(comparison: Comparison) -> &'static str
    ensures { result.now ≡ spec.comparison_text comparison }
{
    match comparison {
        Comparison::Equal => "=",
        Comparison::NotEqual => "<>",
        Comparison::Less => "<",
        Comparison::LessOrEqual => "<=",
        Comparison::Greater => ">",
        Comparison::GreaterOrEqual => ">=",
    }
}

/// Adds `n`, `i` and the number, or `t` and the text's bytes in hex.
fn push_value(alloc: Global, text: &mut String, value: &Value) -> Result<(), AllocError>
    ensures { OnOk result (string_bytes text.new ≡ string_bytes text.old ++ spec.value_text value.now) }
{
    match value {
        Value::Null => text.push_str("n"),
        Value::Int(number) => {
            text.push_str("i")?;
            text.push_str(Buffer::new().format(*number))
        }
        Value::Text(own) => {
            text.push_str("t")?;
            text.push_str(hex::encode(alloc, own.as_str())?.as_str())
        }
    }
}

/// Adds a number behind what goes before it.
fn push_number(text: &mut String, before: &str, number: u32) -> Result<(), AllocError>
    ensures { OnOk result (string_bytes text.new ≡ string_bytes text.old ++ (before.now ++ decimal number)) }
{
    text.push_str(before)?;
    text.push_str(Buffer::new().format(number))
}

/// Adds a term behind what goes before it.
fn push_term(alloc: Global, text: &mut String, before: &str, term: &Term) -> Result<(), AllocError>
    ensures { OnOk result (string_bytes text.new ≡ string_bytes text.old ++ (before.now ++ spec.term_text term.now)) }
{
    text.push_str(before)?;
    match term {
        Term::Column(number) => push_number(text, "c", *number),
        Term::Literal(literal) => push_value(alloc, text, literal.value()),
    }
}

/// Adds the text of a condition behind what goes before it.
#[cycle(texts)]
fn push_condition(
    alloc: Global,
    text: &mut String,
    before: &str,
    condition: &Condition,
) -> Result<(), AllocError>
    ensures { OnOk result (string_bytes text.new ≡ string_bytes text.old ++ (before.now ++ spec.condition_text condition.now)) }
{
    text.push_str(before)?;
    push_open(alloc, text, condition)?;
    text.push_str(")")
}

/// Adds the text of a condition up to its last parenthesis.
#[cycle(texts)]
fn push_open(alloc: Global, text: &mut String, condition: &Condition) -> Result<(), AllocError>
    ensures { OnOk result (string_bytes text.new ++ codes ")" ≡ string_bytes text.old ++ spec.condition_text condition.now) }
{
    match condition {
        Condition::Compare(comparison, a, b) => {
            text.push_str(comparison_text(*comparison))?;
            push_term(alloc, text, "(", a)?;
            push_term(alloc, text, ",", b)
        }
        Condition::IsNull(a) => push_term(alloc, text, "null(", a),
        Condition::Not(part) => push_condition(alloc, text, "not(", part.get()),
        Condition::And(a, b, more) => {
            push_condition(alloc, text, "and(", a.get())?;
            push_condition(alloc, text, ",", b.get())?;
            push_more(alloc, text, more.as_slice())
        }
        Condition::Or(a, b, more) => {
            push_condition(alloc, text, "or(", a.get())?;
            push_condition(alloc, text, ",", b.get())?;
            push_more(alloc, text, more.as_slice())
        }
        Condition::Exists(class) => push_number(text, "exists(", *class),
        Condition::In(a, class, column) => {
            push_term(alloc, text, "in(", a)?;
            push_number(text, ",", *class)?;
            push_number(text, ",c", *column)
        }
    }
}

/// Adds conditions, each behind a comma.
#[cycle(texts)]
fn push_more(alloc: Global, text: &mut String, more: &[Condition]) -> Result<(), AllocError>
    ensures { OnOk result (string_bytes text.new ≡ string_bytes text.old ++ flat_map (λ c. codes "," ++ spec.condition_text c) more.now) }
{
    for condition in more {
        push_condition(alloc, text, ",", condition)?;
    }
    Ok(())
}

/// The text of a condition.
pub fn condition_text(alloc: Global, condition: &Condition) -> Result<String, AllocError>
    ensures { IfOk result (λ text. string_bytes text ≡ spec.condition_text condition.now) }
{
    // Most conditions compare two terms.
    let mut text = String::with_capacity(alloc, 32)?;
    push_condition(alloc, &mut text, "", condition)?;
    Ok(text)
}
