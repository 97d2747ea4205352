//! The lines of a derivation.

ghost use Rattle.algebra.specs.declared.expr.Expr.TheVariants as algebra;
ghost use Rattle.book.specs.Book.{code_of};
ghost use Rattle.derivation.specs.declared.line.Line.TheVariants as derivation;
ghost use Rattle.certificate_read.specs.LineReading as spec;
ghost use Rattle.certificate_read.specs.WordReading.{words_in};
ghost use Rattle.certificate_read.specs.Wordings.{PassesName, ReadsLine, ReadsWords};
ghost use Rattle.certificate_read.specs.declared.forms.ExprForm.TheVariants as form;
ghost use Rattle.certificate_read.specs.declared.forms.LineForm.TheVariants as line;

use crate::forms::{ExprForm, FactForm, LineForm, expr_form, fact_form, line_form};
use crate::line_fault::LineFault;
use crate::words::{Words, words_of};
use algebra::Expr;
use book::RuleName;
use derivation::{Line, Step};
use props::Fact;
use std::alloc::Global;
use values::Boxed;

fn select(alloc: Global, words: &mut Words<'_>) -> Result<Expr, LineFault>
    ensures { ReadsWords (spec.expr_behind form.Select) (λ p. algebra.Select p.0 p.1) words.old words.new result }
{
    let conjuncts = words.conjuncts(alloc)?;
    Ok(Expr::Select(conjuncts, words.number()?))
}

fn anti(alloc: Global, words: &mut Words<'_>) -> Result<Expr, LineFault>
    ensures { ReadsWords (spec.expr_behind form.Anti) (λ p. algebra.Anti p.0 p.1.0 p.1.1.0 p.1.1.1) words.old words.new result }
{
    let ordinary = words.conjuncts(alloc)?;
    let (null_aware, a, b) = words.sides(alloc)?;
    Ok(Expr::Anti(ordinary, null_aware, a, b))
}

fn keep(alloc: Global, words: &mut Words<'_>) -> Result<Expr, LineFault>
    ensures { ReadsWords (spec.expr_behind form.Keep) (λ p. algebra.Keep p.0 p.1) words.old words.new result }
{
    let columns = words.columns(alloc)?;
    Ok(Expr::Keep(columns, words.number()?))
}

fn group(alloc: Global, words: &mut Words<'_>) -> Result<Expr, LineFault>
    ensures { ReadsWords (spec.expr_behind form.Group) (λ p. algebra.Group p.0 p.1.0 p.1.1) words.old words.new result }
{
    let keys = words.columns(alloc)?;
    let added = words.aggregations(alloc)?;
    Ok(Expr::Group(keys, added, words.number()?))
}

fn expr(alloc: Global, words: &mut Words<'_>) -> Result<Expr, LineFault>
    ensures { ReadsWords spec.expr_wording (λ x. x) words.old words.new result }
{
    match expr_form(words)? {
        ExprForm::Get => Ok(Expr::Get(words.number()?)),
        ExprForm::Select => select(alloc, words),
        ExprForm::Join => {
            let (conjuncts, a, b) = words.sides(alloc)?;
            Ok(Expr::Join(conjuncts, a, b))
        }
        ExprForm::LeftJoin => {
            let (conjuncts, a, b) = words.sides(alloc)?;
            Ok(Expr::LeftJoin(conjuncts, a, b))
        }
        ExprForm::Semi => {
            let (conjuncts, a, b) = words.sides(alloc)?;
            Ok(Expr::Semi(conjuncts, a, b))
        }
        ExprForm::Anti => anti(alloc, words),
        ExprForm::Keep => keep(alloc, words),
        ExprForm::Distinct => Ok(Expr::Distinct(words.number()?)),
        ExprForm::Group => group(alloc, words),
    }
}

fn rule(words: &mut Words<'_>) -> Result<RuleName, LineFault>
    ensures { PassesName code_of words.old words.new result }
{
    match RuleName::of_code(words.word()?) {
        Some(rule) => Ok(rule),
        None => Err(LineFault::OtherForm),
    }
}

fn step(alloc: Global, words: &mut Words<'_>) -> Result<Boxed<Step>, LineFault>
    ensures { ReadsWords spec.step_wording (λ s. s) words.old words.new result }
{
    let rule = rule(words)?;
    let pick = words.number()?;
    let uses = words.numbers(alloc)?;
    let makes = words.numbers(alloc)?;
    let step = Step {
        rule,
        pick,
        uses,
        makes,
    };
    Ok(Boxed::new(alloc, step)?)
}

fn fact(alloc: Global, words: &mut Words<'_>) -> Result<Fact, LineFault>
    ensures { ReadsWords spec.fact_wording (λ f. f) words.old words.new result }
{
    match fact_form(words)? {
        FactForm::NotNull => Ok(Fact::NotNull(words.number()?)),
        FactForm::WeakKey => Ok(Fact::WeakKey(words.columns(alloc)?)),
        FactForm::StrongKey => Ok(Fact::StrongKey(words.columns(alloc)?)),
    }
}

fn adds(alloc: Global, words: &mut Words<'_>) -> Result<Line, LineFault>
    ensures { ReadsWords (spec.line_behind line.Adds) (λ p. derivation.Adds p.0 p.1.0 p.1.1) words.old words.new result }
{
    let class = words.number()?;
    let step = step(alloc, words)?;
    Ok(Line::Adds(class, step, expr(alloc, words)?))
}

fn unites(alloc: Global, words: &mut Words<'_>) -> Result<Line, LineFault>
    ensures { ReadsWords (spec.line_behind line.Unites) (λ p. derivation.Unites p.0 p.1.0 p.1.1) words.old words.new result }
{
    let first = words.number()?;
    let second = words.number()?;
    Ok(Line::Unites(first, second, step(alloc, words)?))
}

fn alike(words: &mut Words<'_>) -> Result<Line, LineFault>
    ensures { ReadsWords (spec.line_behind line.Alike) (λ p. derivation.Alike p.0 p.1) words.old words.new result }
{
    let first = words.number()?;
    Ok(Line::Alike(first, words.number()?))
}

fn gives(alloc: Global, words: &mut Words<'_>) -> Result<Line, LineFault>
    ensures { ReadsWords (spec.line_behind line.Gives) (λ p. derivation.Gives p.0 p.1.0 p.1.1) words.old words.new result }
{
    let class = words.number()?;
    let member = words.number()?;
    Ok(Line::Gives(class, member, fact(alloc, words)?))
}

fn line_of(alloc: Global, words: &mut Words<'_>) -> Result<Line, LineFault>
    ensures { ReadsWords spec.line_wording (λ l. l) words.old words.new result }
{
    match line_form(words)? {
        LineForm::Founds => Ok(Line::Founds(expr(alloc, words)?)),
        LineForm::Adds => adds(alloc, words),
        LineForm::Unites => unites(alloc, words),
        LineForm::Alike => alike(words),
        LineForm::Gives => gives(alloc, words),
    }
}

/// The line of a derivation that a line of the text is.
pub(crate) fn derivation_line(alloc: Global, text: &str) -> Result<Line, LineFault>
    ensures { ReadsLine spec.line_wording (λ l. l) (words_in text.now) result }
{
    let parts = words_of(alloc, text)?;
    let mut words = Words::of(parts.as_slice());
    let line = line_of(alloc, &mut words)?;
    words.end(true)?;
    Ok(line)
}
