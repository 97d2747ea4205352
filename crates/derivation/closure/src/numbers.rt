//! Numbers of expressions, by which those are found that are alike.

ghost use Rattle.std.specs.Prelude.{◌≡◌, ◌+◌, ℕ, map, option_to_list, IfOk};
ghost use Rattle.algebra.specs.Alike.{rooted, rooted_conjuncts};
ghost use Rattle.algebra.specs.Expressions.{conditions};
ghost use Rattle.derivation.specs.Logs.{least};
ghost use Rattle.closure.specs.Numbers as spec;

use algebra::condition_text::condition_text;
use algebra::{ClassId, Condition, Conjuncts, Expr};
use logs::Log;
use query::ColumnId;
use std::alloc::{AllocError, Global};

/// The last prime of 32 bits.
const PRIME: u64 = 4_294_967_291;

#[tactic(auto, unfolding(crate::specs::Numbers::reduced))]
fn reduced(number: u64) -> u32
    ensures { result ≡ spec.reduced number }
{
    (number % PRIME) as u32
}

/// A number with one more.
fn mixed(sum: u32, number: u32) -> u32
    ensures { result ≡ spec.mixed sum number }
{
    reduced(u64::from(sum) * 1_000_003 + u64::from(number))
}

fn squared(number: u32) -> u32
    ensures { result ≡ spec.squared number }
{
    reduced(u64::from(number) * u64::from(number))
}

/// The number with all of a text's bytes.
fn text_number(text: &str) -> u32
    ensures { result ≡ spec.mixed_all 0 text.now }
{
    let mut sum = 0;
    for byte in text.as_bytes() {
        sum = mixed(sum, u32::from(*byte));
    }
    sum
}

/// The number with all of a list.
fn mixed_all(first: u32, numbers: &[u32]) -> u32
    ensures { result ≡ spec.mixed_all first numbers.now }
{
    let mut sum = first;
    for number in numbers {
        sum = mixed(sum, *number);
    }
    sum
}

/// The number of two lists of conditions, by those of each.
fn added(first: u32, second: u32) -> u32
    ensures { result ≡ spec.reduced (first + second) }
{
    reduced(u64::from(first) + u64::from(second))
}

/// The number of a condition: that of its text, but for one that names classes.
fn condition_number(alloc: Global, condition: &Condition) -> Result<u32, AllocError>
    ensures { IfOk result (λ n. n ≡ spec.condition_number condition.now) }
{
    if condition.has_no_class() {
        let text = condition_text(alloc, condition)?;
        return Ok(squared(text_number(text.as_str())));
    }
    Ok(0)
}

#[tactic(auto, using(crate::proofs::ExpressionNumbers::no_conditions, crate::proofs::ExpressionNumbers::one_more))]
fn list_number(alloc: Global, conditions: &[Condition]) -> Result<u32, AllocError>
    ensures { IfOk result (λ n. n ≡ spec.conditions_number conditions.now) }
{
    let mut sum = 0;
    for condition in conditions {
        let number = condition_number(alloc, condition)?;
        sum = added(sum, number);
    }
    Ok(sum)
}

/// The number of conjuncts, which they have with roots too.
#[tactic(auto, using(crate::proofs::ExpressionNumbers::rooted_number))]
fn conjuncts_number(alloc: Global, conjuncts: &Conjuncts) -> Result<u32, AllocError>
    ensures { IfOk result (λ n. (root : ℕ → ℕ) → n ≡ spec.conditions_number (rooted_conjuncts root conjuncts.now)) }
{
    let number = list_number(alloc, conjuncts.as_slice())?;
    Ok(number)
}

/// The number of an expression's conditions.
#[tactic(auto, using(crate::proofs::ExpressionNumbers::no_conditions, crate::proofs::ExpressionNumbers::both_numbers))]
fn conditions_number(alloc: Global, expr: &Expr) -> Result<u32, AllocError>
    ensures { IfOk result (λ n. (root : ℕ → ℕ) → n ≡ spec.conditions_number (conditions (rooted root expr.now))) }
{
    match expr {
        Expr::Select(c, _) | Expr::Join(c, _, _) | Expr::LeftJoin(c, _, _) | Expr::Semi(c, _, _) =>
            {
                let number = conjuncts_number(alloc, c)?;
                Ok(number)
            }
        Expr::Anti(ordinary, null_aware, _, _) => {
            let first = conjuncts_number(alloc, ordinary)?;
            let second = conjuncts_number(alloc, null_aware)?;
            Ok(added(first, second))
        }
        Expr::Get(_) | Expr::Keep(_, _) | Expr::Distinct(_) | Expr::Group(_, _, _) => Ok(0),
    }
}

/// The columns that an expression keeps, or groups by.
fn kept_columns(expr: &Expr) -> &[ColumnId]
    ensures { result.now ≡ spec.kept_columns expr.now }
{
    match expr {
        Expr::Keep(columns, _) | Expr::Group(columns, _, _) => columns.as_slice(),
        _ => &[],
    }
}

/// The number with the root of a class, if there is one.
fn with_root(log: &Log<'_>, sum: u32, class: Option<ClassId>) -> u32
    ensures { result ≡ spec.mixed_all sum (map (least log.now.log) (option_to_list class)) }
{
    match class {
        Some(class) => mixed(sum, log.classes().root(class)),
        None => sum,
    }
}

/// The number of the expression with roots.
#[tactic(auto, using(crate::proofs::ExpressionNumbers::number_is))]
pub(crate) fn expression_number(
    alloc: Global,
    log: &Log<'_>,
    expr: &Expr,
) -> Result<u32, AllocError>
    ensures { IfOk result (λ n. n ≡ spec.expression_number (rooted (least log.now.log) expr.now)) }
{
    let (first, second) = expr.children();
    let conditions = conditions_number(alloc, expr)?;
    let one = with_root(log, conditions, first);
    let both = with_root(log, one, second);
    Ok(mixed_all(both, kept_columns(expr)))
}
