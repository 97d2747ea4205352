//! The lines of a derivation as text.

ghost use Rattle.std.specs.Prelude.{◌≡◌, ◌++◌, flat_map, true, OnOk};
ghost use Rattle.std.specs.List.{AllByRecursion};
ghost use Rattle.algebra.specs.Expressions.{conditions};
ghost use Rattle.certificate_text.specs.Parts.{IsShort};
ghost use Rattle.certificate_text.specs.CertificateText as spec;
ghost use Rattle.certificate_text.specs.Limits.{all_nest_within, line_is_within, most_nested};
ghost use Rattle.certificate_text.specs.Readable.{AreConjuncts, IsReadableExpr, IsReadableFact, IsReadableLine, IsReadableStep};

use crate::parts::{
    push_aggregations, push_columns, push_conjuncts, push_number, push_numbers, push_text,
};
use algebra::{ClassId, Conjuncts, Expr};
use derivation::{Line, Step};
use props::Fact;
use std::alloc::{AllocError, Global};

/// Adds conditions and the two classes that they are about.
fn push_sides(
    alloc: Global,
    text: &mut Vec<u8>,
    before: &str,
    conjuncts: &Conjuncts,
    left: ClassId,
    right: ClassId,
) -> Result<(), AllocError>
    ensures text { OnOk result (text.new.items ≡ text.old.items ++ (before.now ++ spec.sides_text conjuncts.now left right)) }
    ensures readable { OnOk result (all_nest_within conjuncts.now most_nested ≡ true → AreConjuncts conjuncts.now × IsShort left × IsShort right) }
{
    push_conjuncts(alloc, text, before, conjuncts)?;
    push_number(text, " ", left)?;
    push_number(text, " ", right)
}

#[tactic(auto, using(crate::proofs::KeptTerms::both_nest))]
fn push_expr(alloc: Global, text: &mut Vec<u8>, before: &str, expr: &Expr) -> Result<(), AllocError>
    ensures text { OnOk result (text.new.items ≡ text.old.items ++ (before.now ++ spec.expr_text expr.now)) }
    ensures readable { OnOk result (all_nest_within (conditions expr.now) most_nested ≡ true → IsReadableExpr expr.now) }
{
    push_text(text, before)?;
    match expr {
        Expr::Get(instance) => push_number(text, "get ", *instance),
        Expr::Select(conjuncts, x) => {
            push_conjuncts(alloc, text, "select ", conjuncts)?;
            push_number(text, " ", *x)
        }
        Expr::Join(conjuncts, a, b) => push_sides(alloc, text, "join ", conjuncts, *a, *b),
        Expr::LeftJoin(conjuncts, a, b) => push_sides(alloc, text, "left ", conjuncts, *a, *b),
        Expr::Semi(conjuncts, a, b) => push_sides(alloc, text, "semi ", conjuncts, *a, *b),
        Expr::Anti(ordinary, null_aware, a, b) => {
            push_conjuncts(alloc, text, "anti ", ordinary)?;
            push_sides(alloc, text, " ", null_aware, *a, *b)
        }
        Expr::Keep(columns, x) => {
            push_columns(text, "keep ", columns)?;
            push_number(text, " ", *x)
        }
        Expr::Distinct(x) => push_number(text, "distinct ", *x),
        Expr::Group(keys, added, x) => {
            push_columns(text, "group ", keys)?;
            push_aggregations(text, " ", added)?;
            push_number(text, " ", *x)
        }
    }
}

fn push_step(text: &mut Vec<u8>, before: &str, step: &Step) -> Result<(), AllocError>
    ensures text { OnOk result (text.new.items ≡ text.old.items ++ (before.now ++ spec.step_text step.now)) }
    ensures readable { OnOk result (IsReadableStep step.now) }
{
    push_text(text, before)?;
    push_text(text, step.rule.code())?;
    push_number(text, " ", step.pick)?;
    push_numbers(text, " ", step.uses.as_slice())?;
    push_numbers(text, " ", step.makes.as_slice())
}

fn push_fact(text: &mut Vec<u8>, before: &str, fact: &Fact) -> Result<(), AllocError>
    ensures text { OnOk result (text.new.items ≡ text.old.items ++ (before.now ++ spec.fact_text fact.now)) }
    ensures readable { OnOk result (IsReadableFact fact.now) }
{
    push_text(text, before)?;
    match fact {
        Fact::NotNull(column) => push_number(text, "notnull ", *column),
        Fact::WeakKey(key) => push_columns(text, "weak ", key),
        Fact::StrongKey(key) => push_columns(text, "strong ", key),
    }
}

/// Adds a line without its end.
fn push_words(alloc: Global, text: &mut Vec<u8>, line: &Line) -> Result<(), AllocError>
    ensures text { OnOk result (text.new.items ≡ text.old.items ++ spec.line_words line.now) }
    ensures readable { OnOk result (line_is_within line.now ≡ true → IsReadableLine line.now) }
{
    match line {
        Line::Founds(expr) => push_expr(alloc, text, "F ", expr),
        Line::Adds(class, step, expr) => {
            push_number(text, "A ", *class)?;
            push_step(text, " ", step.get())?;
            push_expr(alloc, text, " ", expr)
        }
        Line::Unites(first, second, step) => {
            push_number(text, "S ", *first)?;
            push_number(text, " ", *second)?;
            push_step(text, " ", step.get())
        }
        Line::Alike(first, second) => {
            push_number(text, "G ", *first)?;
            push_number(text, " ", *second)
        }
        Line::Gives(class, member, fact) => {
            push_number(text, "L ", *class)?;
            push_number(text, " ", *member)?;
            push_fact(text, " ", fact)
        }
    }
}

/// Adds the lines of a derivation, in their order.
pub(crate) fn push_lines(
    alloc: Global,
    text: &mut Vec<u8>,
    lines: &[Line],
) -> Result<(), AllocError>
    ensures text { OnOk result (text.new.items ≡ text.old.items ++ flat_map spec.line_text lines.now) }
    ensures readable { OnOk result (AllByRecursion (λ l. line_is_within l ≡ true → IsReadableLine l) lines.now) }
{
    for line in lines {
        push_words(alloc, text, line)?;
        push_text(text, "\n")?;
    }
    Ok(())
}
