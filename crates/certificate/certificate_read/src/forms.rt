//! What the lines of a derivation and their parts are, by their first words.

ghost use Rattle.std.specs.Prelude.{◌≡◌, MatchOption};
ghost use Rattle.certificate_read.specs.LineReading as spec;
ghost use Rattle.certificate_read.specs.Wordings.{PassesName};
ghost use Rattle.certificate_read.specs.declared.forms.ExprForm.{ExprForm};
ghost use Rattle.certificate_read.specs.declared.forms.FactForm.{FactForm};
ghost use Rattle.certificate_read.specs.declared.forms.LineForm.{LineForm};

use crate::line_fault::LineFault;
use crate::words::Words;

#[derive(Drop)]
pub(crate) enum ExprForm {
    Get,
    Select,
    Join,
    LeftJoin,
    Semi,
    Anti,
    Keep,
    Distinct,
    Group,
}

#[derive(Drop)]
pub(crate) enum FactForm {
    NotNull,
    WeakKey,
    StrongKey,
}

#[derive(Drop)]
pub(crate) enum LineForm {
    Founds,
    Adds,
    Unites,
    Alike,
    Gives,
}

fn named_expr(name: &str) -> Option<ExprForm>
    ensures { MatchOption result ((form : ExprForm) → name.now ≡ spec.expr_name form → ⊥) (λ form. name.now ≡ spec.expr_name form) }
{
    match name {
        "get" => Some(ExprForm::Get),
        "select" => Some(ExprForm::Select),
        "join" => Some(ExprForm::Join),
        "left" => Some(ExprForm::LeftJoin),
        "semi" => Some(ExprForm::Semi),
        "anti" => Some(ExprForm::Anti),
        "keep" => Some(ExprForm::Keep),
        "distinct" => Some(ExprForm::Distinct),
        "group" => Some(ExprForm::Group),
        _ => None,
    }
}

fn named_fact(name: &str) -> Option<FactForm>
    ensures { MatchOption result ((form : FactForm) → name.now ≡ spec.fact_name form → ⊥) (λ form. name.now ≡ spec.fact_name form) }
{
    match name {
        "notnull" => Some(FactForm::NotNull),
        "weak" => Some(FactForm::WeakKey),
        "strong" => Some(FactForm::StrongKey),
        _ => None,
    }
}

fn named_line(name: &str) -> Option<LineForm>
    ensures { MatchOption result ((form : LineForm) → name.now ≡ spec.line_name form → ⊥) (λ form. name.now ≡ spec.line_name form) }
{
    match name {
        "F" => Some(LineForm::Founds),
        "A" => Some(LineForm::Adds),
        "S" => Some(LineForm::Unites),
        "G" => Some(LineForm::Alike),
        "L" => Some(LineForm::Gives),
        _ => None,
    }
}

pub(crate) fn expr_form(words: &mut Words<'_>) -> Result<ExprForm, LineFault>
    ensures { PassesName spec.expr_name words.old words.new result }
{
    match named_expr(words.word()?) {
        Some(form) => Ok(form),
        None => Err(LineFault::OtherForm),
    }
}

pub(crate) fn fact_form(words: &mut Words<'_>) -> Result<FactForm, LineFault>
    ensures { PassesName spec.fact_name words.old words.new result }
{
    match named_fact(words.word()?) {
        Some(form) => Ok(form),
        None => Err(LineFault::OtherForm),
    }
}

pub(crate) fn line_form(words: &mut Words<'_>) -> Result<LineForm, LineFault>
    ensures { PassesName spec.line_name words.old words.new result }
{
    match named_line(words.word()?) {
        Some(form) => Ok(form),
        None => Err(LineFault::OtherForm),
    }
}
