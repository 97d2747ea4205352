//! Expressions by texts, so that equal ones are found.

ghost use Rattle.std.specs.Prelude.{◌≡◌, ◌++◌, ℕ, flat_map, option_to_list, string_bytes, IfOk, OnOk};
ghost use Rattle.algebra.specs.declared.expr.Expr.{Expr};
ghost use Rattle.algebra.specs.ConjunctOrder as conjuncts;
ghost use Rattle.algebra.specs.Expressions as expressions;
ghost use Rattle.lean_logs.specs.Texts as spec;

use algebra::condition_text::condition_text;
use algebra::{ClassId, Condition, Expr, LineId};
use itoa::Buffer;
use query::ColumnId;
use std::alloc::{AllocError, Global};
use std::collections::HashMap;

/// Lines by the texts of their expressions.
pub(crate) type Lines = HashMap<String, Vec<LineId>>;

fn push_number(text: &mut String, number: u32) -> Result<(), AllocError>
    ensures { OnOk result (string_bytes text.new ≡ string_bytes text.old ++ spec.number_text number) }
{
    text.push_str(" ")?;
    text.push_str(Buffer::new().format(number))
}

fn push_class(text: &mut String, class: Option<ClassId>) -> Result<(), AllocError>
    ensures { OnOk result (string_bytes text.new ≡ string_bytes text.old ++ flat_map spec.number_text (option_to_list class)) }
{
    match class {
        Some(class) => push_number(text, class),
        None => Ok(()),
    }
}

fn push_columns(text: &mut String, columns: &[ColumnId]) -> Result<(), AllocError>
    ensures { OnOk result (string_bytes text.new ≡ string_bytes text.old ++ flat_map spec.number_text columns.now) }
{
    for column in columns {
        push_number(text, *column)?;
    }
    Ok(())
}

fn push_conditions(
    alloc: Global,
    text: &mut String,
    conditions: &[Condition],
) -> Result<(), AllocError>
    ensures { OnOk result (string_bytes text.new ≡ string_bytes text.old ++ flat_map conjuncts.condition_text conditions.now) }
{
    for condition in conditions {
        text.push_str(condition_text(alloc, condition)?.as_str())?;
    }
    Ok(())
}

/// The columns that a projection or a group has.
fn own_columns(expr: &Expr) -> &[ColumnId]
    ensures { result.now ≡ spec.own_columns expr.now }
{
    match expr {
        Expr::Keep(columns, _) | Expr::Group(columns, _, _) => columns.as_slice(),
        Expr::Get(_) | Expr::Distinct(_) => &[],
        Expr::Select(_, _)
        | Expr::Join(_, _, _)
        | Expr::LeftJoin(_, _, _)
        | Expr::Semi(_, _, _)
        | Expr::Anti(_, _, _, _) => &[],
    }
}

/// What most expressions that differ differ in: their classes, columns and conditions.
pub(crate) fn expr_text(alloc: Global, expr: &Expr) -> Result<String, AllocError>
    ensures { IfOk result (λ text. string_bytes text ≡ spec.expr_text expr.now) }
{
    let (first, second) = expr.children();
    let (conditions, others) = expr.conditions();
    let mut text = String::with_capacity(alloc, 64)?;
    push_class(&mut text, first)?;
    push_class(&mut text, second)?;
    push_columns(&mut text, own_columns(expr))?;
    push_conditions(alloc, &mut text, conditions)?;
    push_conditions(alloc, &mut text, others)?;
    Ok(text)
}

/// The lines that are entered by a text.
pub(crate) fn lines_by<'l>(lines: &'l Lines, text: &str) -> &'l [LineId]
    ensures { result.now ≡ spec.lines_by lines.now text.now }
{
    match lines.get(text) {
        Some(lines) => lines.as_slice(),
        None => &[],
    }
}

/// Enters a line by a text.
pub(crate) fn enter(
    alloc: Global,
    lines: &mut Lines,
    text: String,
    line: LineId,
) -> Result<(), AllocError>
    ensures stays { (x : Expr) (n : ℕ) → spec.IsEntered lines.old x n → spec.IsEntered lines.new x n }
    ensures entered { OnOk result ((x : Expr) → string_bytes text ≡ spec.expr_text x → spec.IsEntered lines.new x line) }
{
    let mut with_text = Vec::from_slice(alloc, lines_by(lines, text.as_str()))?;
    with_text.push(line)?;
    lines.insert(text, with_text)?;
    Ok(())
}
