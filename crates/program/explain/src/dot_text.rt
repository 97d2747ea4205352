//! A plan as a graph that Graphviz draws.

ghost use Rattle.std.specs.Prelude.{◌≡◌, ◌++◌, flat_map, IfOk, OnOk};
ghost use Rattle.explain.specs.DotTexts as spec;

use crate::naming::Naming;
use crate::node_text::push_node;
use crate::parts::{push_amount, push_text};
use crate::plan_text::{estimate_at, one_more};
use costs::Estimate;
use physical::{Node, Plan};
use std::alloc::{AllocError, Global};

fn push_label_byte(text: &mut Vec<u8>, byte: u8) -> Result<(), AllocError>
    ensures { OnOk result (text.new.items ≡ text.old.items ++ spec.label_escaped byte) }
{
    if byte == b'"' {
        return push_text(text, "\\\"");
    }
    if byte == b'\\' {
        return push_text(text, "\\\\");
    }
    text.push(byte)?;
    Ok(())
}

fn push_label(text: &mut Vec<u8>, label: &[u8]) -> Result<(), AllocError>
    ensures { OnOk result (text.new.items ≡ text.old.items ++ flat_map spec.label_escaped label.now) }
{
    for byte in label {
        push_label_byte(text, *byte)?;
    }
    Ok(())
}

fn push_box(
    alloc: Global,
    text: &mut Vec<u8>,
    names: &Naming<'_>,
    number: usize,
    node: &Node,
    estimate: Estimate,
) -> Result<(), AllocError>
    ensures { OnOk result (text.new.items ≡ text.old.items ++ spec.box_text names.now number node.now estimate) }
{
    let mut label = Vec::new(alloc);
    push_node(alloc, &mut label, names, node, estimate)?;
    push_amount(text, "  n", number as u64)?;
    push_text(text, " [label=\"")?;
    push_label(text, label.as_slice())?;
    push_text(text, "\"];\n")
}

fn push_edge(text: &mut Vec<u8>, number: usize, input: usize) -> Result<(), AllocError>
    ensures { OnOk result (text.new.items ≡ text.old.items ++ spec.edge_text number input) }
{
    push_amount(text, "  n", number as u64)?;
    push_amount(text, " -> n", input as u64)?;
    push_text(text, ";\n")
}

/// Draws a plan whose root has this number. It answers the number behind those of its nodes.
fn push_drawn(
    alloc: Global,
    text: &mut Vec<u8>,
    names: &Naming<'_>,
    estimates: &[Estimate],
    plan: &Plan,
    number: usize,
) -> Result<usize, AllocError>
    ensures text { OnOk result (text.new.items ≡ text.old.items ++ (spec.drawn names.now estimates.now plan.now number).text) }
    ensures next { IfOk result (λ next. next ≡ (spec.drawn names.now estimates.now plan.now number).next) }
{
    push_box(
        alloc,
        text,
        names,
        number,
        &plan.node,
        estimate_at(estimates, number),
    )?;
    let mut next = one_more(number)?;
    for input in plan.inputs.as_slice() {
        push_edge(text, number, next)?;
        next = push_drawn(alloc, text, names, estimates, input, next)?;
    }
    Ok(next)
}

/// A plan as a graph for Graphviz, with the nodes and estimates as `explain` has them. It takes time in proportion to the text, and
/// calls itself as deep as the plan is.
pub fn dot(
    alloc: Global,
    names: &Naming<'_>,
    estimates: &[Estimate],
    plan: &Plan,
) -> Result<Vec<u8>, AllocError>
    ensures { IfOk result (λ text. text.items ≡ spec.dot_text names.now estimates.now plan.now) }
{
    let mut text = Vec::new(alloc);
    push_text(
        &mut text,
        "digraph plan {\n  node [shape=box fontname=\"sans-serif\"];\n",
    )?;
    push_drawn(alloc, &mut text, names, estimates, plan, 0)?;
    push_text(&mut text, "}\n")?;
    Ok(text)
}
