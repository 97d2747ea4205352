//! What nodes and joins are, by their names.

ghost use Rattle.std.specs.Prelude.{◌≡◌, MatchOption};
ghost use Rattle.certificate_read.specs.NodeReading as spec;
ghost use Rattle.certificate_read.specs.Wordings.{PassesName};
ghost use Rattle.certificate_read.specs.declared.node_forms.KindForm.{KindForm};
ghost use Rattle.certificate_read.specs.declared.node_forms.OperatorForm.{OperatorForm};
ghost use Rattle.certificate_read.specs.declared.node_forms.NodeForm.{NodeForm};

use crate::line_fault::LineFault;
use crate::words::Words;

/// The kinds of joins.
#[derive(Drop)]
pub(crate) enum KindForm {
    Inner,
    Left,
    Semi,
    Anti,
}

#[derive(Drop)]
pub(crate) enum OperatorForm {
    Scan,
    IndexScan,
    Filter,
    FilterSubqueries,
    Projection,
    NestedLoop,
    HashJoin,
    MergeJoin,
    IndexJoin,
    HashGroup,
    SortedGroup,
    HashDistinct,
    SortedDistinct,
}

#[derive(Drop)]
pub(crate) enum NodeForm {
    Sort,
    Implements(OperatorForm),
}

fn named_kind(name: &str) -> Option<KindForm>
    ensures { MatchOption result ((form : KindForm) → name.now ≡ spec.kind_name form → ⊥) (λ form. name.now ≡ spec.kind_name form) }
{
    match name {
        "inner" => Some(KindForm::Inner),
        "left" => Some(KindForm::Left),
        "semi" => Some(KindForm::Semi),
        "anti" => Some(KindForm::Anti),
        _ => None,
    }
}

fn named_operator(name: &str) -> Option<OperatorForm>
    ensures { MatchOption result ((form : OperatorForm) → name.now ≡ spec.operator_name form → ⊥) (λ form. name.now ≡ spec.operator_name form) }
{
    match name {
        "scan" => Some(OperatorForm::Scan),
        "iscan" => Some(OperatorForm::IndexScan),
        "filter" => Some(OperatorForm::Filter),
        "filtersub" => Some(OperatorForm::FilterSubqueries),
        "cut" => Some(OperatorForm::Projection),
        "loop" => Some(OperatorForm::NestedLoop),
        "hash" => Some(OperatorForm::HashJoin),
        "merge" => Some(OperatorForm::MergeJoin),
        "iloop" => Some(OperatorForm::IndexJoin),
        "hgroup" => Some(OperatorForm::HashGroup),
        "sgroup" => Some(OperatorForm::SortedGroup),
        "hdistinct" => Some(OperatorForm::HashDistinct),
        "sdistinct" => Some(OperatorForm::SortedDistinct),
        _ => None,
    }
}

fn named_node(name: &str) -> Option<NodeForm>
    ensures { MatchOption result ((form : NodeForm) → name.now ≡ spec.node_name form → ⊥) (λ form. name.now ≡ spec.node_name form) }
{
    match name {
        "sort" => Some(NodeForm::Sort),
        _ => match named_operator(name) {
            Some(form) => Some(NodeForm::Implements(form)),
            None => None,
        },
    }
}

pub(crate) fn kind_form(words: &mut Words<'_>) -> Result<KindForm, LineFault>
    ensures { PassesName spec.kind_name words.old words.new result }
{
    match named_kind(words.word()?) {
        Some(form) => Ok(form),
        None => Err(LineFault::OtherForm),
    }
}

pub(crate) fn node_form(words: &mut Words<'_>) -> Result<NodeForm, LineFault>
    ensures { PassesName spec.node_name words.old words.new result }
{
    match named_node(words.word()?) {
        Some(form) => Ok(form),
        None => Err(LineFault::OtherForm),
    }
}
