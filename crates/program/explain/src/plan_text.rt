//! The text by which a plan is explained.

ghost use Rattle.std.specs.Prelude.{◌≡◌, ◌+◌, ◌++◌, length, IfOk, OnOk};
ghost use Rattle.explain.specs.PlanTexts as spec;

use crate::json_text::push_object;
use crate::naming::Naming;
use crate::node_text::push_node;
use crate::parts::{push_amount, push_text};
use costs::Estimate;
use measures::Measure;
use physical::{Node, Plan};
use std::alloc::{AllocError, Global};

/// How a node is written.
#[derive(Clone, Copy)]
pub enum NodeForm {
    /// A line, which stands as deep as the node.
    Line,
    /// An object of an array in JSON.
    Object,
}

/// What is known of a plan's nodes besides what they do, each node before its inputs.
#[derive(Clone, Copy)]
pub(crate) struct Figures<'a> {
    pub estimates: &'a [Estimate],
    /// What was measured, if anything was.
    pub measures: &'a [Option<Measure>],
}

/// The estimate of the node with a number; 0 rows at no cost, if there is none.
pub(crate) fn estimate_at(estimates: &[Estimate], number: usize) -> Estimate
    ensures { result ≡ spec.estimate_at estimates.now number }
{
    match estimates.get(number) {
        Some(estimate) => *estimate,
        None => Estimate { rows: 0, cost: 0 },
    }
}

/// What was measured of the node with a number; nothing, if there is no such number.
fn measure_at(measures: &[Option<Measure>], number: usize) -> Option<Measure>
    ensures { result ≡ spec.measure_at measures.now number }
{
    match measures.get(number) {
        Some(measure) => *measure,
        None => None,
    }
}

/// The number behind a number, if there is one. A plan with more nodes than that has no room in memory.
pub(crate) fn one_more(number: usize) -> Result<usize, AllocError>
    ensures { IfOk result (λ next. next ≡ number + 1) }
{
    number.checked_add(1).ok_or(AllocError)
}

fn push_indentation(text: &mut Vec<u8>, depth: usize) -> Result<(), AllocError>
    ensures { OnOk result (text.new.items ≡ text.old.items ++ spec.indentation depth) }
{
    for level in 0..depth {
        push_text(text, "  ")?;
    }
    Ok(())
}

/// Adds what was measured of a node, behind its estimate.
fn push_measure(text: &mut Vec<u8>, measure: Option<Measure>) -> Result<(), AllocError>
    ensures { OnOk result (text.new.items ≡ text.old.items ++ spec.measure_text measure) }
{
    let Some(measure) = measure else {
        return Ok(());
    };
    push_amount(text, " actual=", measure.rows)?;
    push_amount(text, " time=", measure.microseconds)?;
    push_text(text, "us")
}

/// Adds the line of a node that stands so deep.
fn push_line(
    alloc: Global,
    text: &mut Vec<u8>,
    names: &Naming<'_>,
    node: &Node,
    depth: usize,
    estimate: Estimate,
    measure: Option<Measure>,
) -> Result<(), AllocError>
    ensures { OnOk result (text.new.items ≡ text.old.items ++ spec.line_text names.now (record { depth = depth; node = node.now }) estimate measure) }
{
    push_indentation(text, depth)?;
    push_node(alloc, text, names, node, estimate)?;
    push_measure(text, measure)?;
    push_text(text, "\n")
}

/// Adds a node that stands so deep and has this number.
fn push_formed(
    alloc: Global,
    text: &mut Vec<u8>,
    form: NodeForm,
    names: &Naming<'_>,
    figures: Figures<'_>,
    node: &Node,
    depth: usize,
    number: usize,
) -> Result<(), AllocError>
    ensures { OnOk result (text.new.items ≡ text.old.items ++ spec.form_text form names.now number (record { depth = depth; node = node.now }) (spec.estimate_at figures.entry.estimates.now number) (spec.measure_at figures.entry.measures.now number)) }
{
    let estimate = estimate_at(figures.estimates, number);
    let measure = measure_at(figures.measures, number);
    match form {
        NodeForm::Line => push_line(alloc, text, names, node, depth, estimate, measure),
        NodeForm::Object => push_object(alloc, text, names, number, node, depth, estimate, measure),
    }
}

/// Adds the nodes of a plan whose root stands so deep and has this number. It answers the number behind those of its nodes.
fn push_plan(
    alloc: Global,
    text: &mut Vec<u8>,
    form: NodeForm,
    names: &Naming<'_>,
    figures: Figures<'_>,
    plan: &Plan,
    depth: usize,
    number: usize,
) -> Result<usize, AllocError>
    ensures text { OnOk result (text.new.items ≡ text.old.items ++ spec.nodes_text form names.now figures.entry.estimates.now figures.entry.measures.now number (spec.nodes_from plan.now depth)) }
    ensures next { IfOk result (λ next. next ≡ number + length (spec.nodes_from plan.now depth)) }
{
    push_formed(alloc, text, form, names, figures, &plan.node, depth, number)?;
    let deeper = one_more(depth)?;
    let mut next = one_more(number)?;
    for input in plan.inputs.as_slice() {
        next = push_plan(alloc, text, form, names, figures, input, deeper, next)?;
    }
    Ok(next)
}

/// The text of a plan: a line for each node. The estimates and the measures are those of the nodes in the order of the lines, each node before its
/// inputs; a line without a measure has its estimate alone. It takes time in proportion to the text, and calls itself as deep as the plan is.
pub fn explain(
    alloc: Global,
    names: &Naming<'_>,
    estimates: &[Estimate],
    measures: &[Option<Measure>],
    plan: &Plan,
) -> Result<Vec<u8>, AllocError>
    ensures { IfOk result (λ text. text.items ≡ spec.plan_text names.now estimates.now measures.now plan.now) }
{
    let figures = Figures {
        estimates,
        measures,
    };
    let mut text = Vec::new(alloc);
    push_plan(alloc, &mut text, NodeForm::Line, names, figures, plan, 0, 0)?;
    Ok(text)
}

/// The same as JSON (RFC 8259): an array with an object for each node. Each has `depth`, below the root; `node`, the words of its line;
/// `estimated_rows` and `cost`; `rows` and `microseconds`, which are null where nothing was measured.
pub fn json(
    alloc: Global,
    names: &Naming<'_>,
    estimates: &[Estimate],
    measures: &[Option<Measure>],
    plan: &Plan,
) -> Result<Vec<u8>, AllocError>
    ensures { IfOk result (λ text. text.items ≡ spec.json_text names.now estimates.now measures.now plan.now) }
{
    let figures = Figures {
        estimates,
        measures,
    };
    let mut text = Vec::new(alloc);
    push_plan(
        alloc,
        &mut text,
        NodeForm::Object,
        names,
        figures,
        plan,
        0,
        0,
    )?;
    push_text(&mut text, "\n]\n")?;
    Ok(text)
}
