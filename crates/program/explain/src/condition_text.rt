//! Conditions as SQL writes them.

ghost use Rattle.std.specs.Prelude.{◌≡◌, ◌++◌, flat_map, OnOk};
ghost use Rattle.algebra.specs.ConjunctOrder.{comparison_text};
ghost use Rattle.explain.specs.ConditionTexts as spec;
ghost use Rattle.explain.specs.Names.{◌␣◌};

use crate::names::push_column;
use crate::naming::Naming;
use crate::parts::{push_number, push_text};
use algebra::{Condition, Term};
use itoa::Buffer;
use std::alloc::AllocError;
use values::{Comparison, Value};

fn push_escaped(text: &mut Vec<u8>, byte: u8) -> Result<(), AllocError>
    ensures { OnOk result (text.new.items ≡ text.old.items ++ spec.escaped byte) }
{
    if byte == b'\'' {
        return push_text(text, "''");
    }
    text.push(byte)?;
    Ok(())
}

fn push_quoted(text: &mut Vec<u8>, own: &str) -> Result<(), AllocError>
    ensures { OnOk result (text.new.items ≡ text.old.items ++ spec.quoted own.now) }
{
    push_text(text, "'")?;
    for byte in own.as_bytes() {
        push_escaped(text, *byte)?;
    }
    push_text(text, "'")
}

fn push_term(text: &mut Vec<u8>, names: &Naming<'_>, term: &Term) -> Result<(), AllocError>
    ensures { OnOk result (text.new.items ≡ text.old.items ++ spec.term_text names.now term.now) }
{
    match term {
        Term::Column(column) => push_column(text, names, "", *column),
        Term::Literal(literal) => push_value(text, literal.value()),
    }
}

fn push_value(text: &mut Vec<u8>, value: &Value) -> Result<(), AllocError>
    ensures { OnOk result (text.new.items ≡ text.old.items ++ spec.value_text value.now) }
{
    match value {
        Value::Null => push_text(text, "NULL"),
        Value::Int(number) => push_text(text, Buffer::new().format(*number)),
        Value::Text(own) => push_quoted(text, own.as_str()),
    }
}

fn comparison_text(comparison: Comparison) -> &'static str
    ensures { result.now ≡ comparison_text comparison }
{
    match comparison {
        Comparison::Equal => "=",
        Comparison::NotEqual => "<>",
        Comparison::Less => "<",
        Comparison::LessOrEqual => "<=",
        Comparison::Greater => ">",
        Comparison::GreaterOrEqual => ">=",
    }
}

fn push_comparison(
    text: &mut Vec<u8>,
    names: &Naming<'_>,
    comparison: Comparison,
    a: &Term,
    b: &Term,
) -> Result<(), AllocError>
    ensures { OnOk result (text.new.items ≡ text.old.items ++ (spec.term_text names.now a.now ␣ comparison_text comparison ␣ spec.term_text names.now b.now)) }
{
    push_term(text, names, a)?;
    push_text(text, " ")?;
    push_text(text, comparison_text(comparison))?;
    push_text(text, " ")?;
    push_term(text, names, b)
}

/// Adds a condition behind what goes before it.
#[cycle(conditions)]
fn push_condition(
    text: &mut Vec<u8>,
    names: &Naming<'_>,
    before: &str,
    condition: &Condition,
) -> Result<(), AllocError>
    ensures { OnOk result (text.new.items ≡ text.old.items ++ (before.now ++ spec.condition_text names.now condition.now)) }
{
    push_text(text, before)?;
    push_form(text, names, condition)
}

/// Adds a condition by its form.
#[cycle(conditions)]
fn push_form(
    text: &mut Vec<u8>,
    names: &Naming<'_>,
    condition: &Condition,
) -> Result<(), AllocError>
    ensures { OnOk result (text.new.items ≡ text.old.items ++ spec.condition_text names.now condition.now) }
{
    match condition {
        Condition::Compare(comparison, a, b) => push_comparison(text, names, *comparison, a, b),
        Condition::IsNull(a) => {
            push_term(text, names, a)?;
            push_text(text, " IS NULL")
        }
        Condition::Not(part) => {
            push_condition(text, names, "NOT (", part.get())?;
            push_text(text, ")")
        }
        Condition::And(a, b, more) => {
            push_condition(text, names, "(", a.get())?;
            push_condition(text, names, " AND ", b.get())?;
            push_more(text, names, " AND ", more.as_slice())?;
            push_text(text, ")")
        }
        Condition::Or(a, b, more) => {
            push_condition(text, names, "(", a.get())?;
            push_condition(text, names, " OR ", b.get())?;
            push_more(text, names, " OR ", more.as_slice())?;
            push_text(text, ")")
        }
        Condition::Exists(class) => push_number(text, "EXISTS #", *class),
        Condition::In(a, class, _) => {
            push_term(text, names, a)?;
            push_number(text, " IN #", *class)
        }
    }
}

/// Adds conditions, each behind a word.
#[cycle(conditions)]
fn push_more(
    text: &mut Vec<u8>,
    names: &Naming<'_>,
    word: &str,
    more: &[Condition],
) -> Result<(), AllocError>
    ensures { OnOk result (text.new.items ≡ text.old.items ++ flat_map (λ c. word.now ++ spec.condition_text names.now c) more.now) }
{
    for condition in more {
        push_condition(text, names, word, condition)?;
    }
    Ok(())
}

/// Adds conditions that must all be true.
pub(crate) fn push_conjuncts(
    text: &mut Vec<u8>,
    names: &Naming<'_>,
    before: &str,
    conjuncts: &[Condition],
) -> Result<(), AllocError>
    ensures { OnOk result (text.new.items ≡ text.old.items ++ (before.now ++ spec.conjuncts_text names.now conjuncts.now)) }
{
    push_text(text, before)?;
    match conjuncts {
        [] => push_text(text, "true"),
        [first, more @ ..] => {
            push_condition(text, names, "", first)?;
            push_more(text, names, " AND ", more)
        }
    }
}
