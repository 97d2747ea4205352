//! The nodes of a plan as JSON.

ghost use Rattle.std.specs.Prelude.{◌≡◌, ◌++◌, flat_map, OnOk};
ghost use Rattle.explain.specs.PlanTexts as spec;

use crate::naming::Naming;
use crate::node_text::push_words;
use crate::parts::{push_amount, push_text};
use costs::Estimate;
use hex;
use measures::Measure;
use physical::Node;
use std::alloc::{AllocError, Global};

/// The first byte that may stand in a string as it is, but for quotes and backslashes.
const PRINTABLE: u8 = 32;

fn push_json_byte(alloc: Global, text: &mut Vec<u8>, byte: u8) -> Result<(), AllocError>
    ensures { OnOk result (text.new.items ≡ text.old.items ++ spec.json_escaped byte) }
{
    if byte == b'"' {
        return push_text(text, "\\\"");
    }
    if byte == b'\\' {
        return push_text(text, "\\\\");
    }
    if byte < PRINTABLE {
        push_text(text, "\\u00")?;
        return push_text(text, hex::encode(alloc, &[byte])?.as_str());
    }
    text.push(byte)?;
    Ok(())
}

fn push_json_bytes(alloc: Global, text: &mut Vec<u8>, bytes: &[u8]) -> Result<(), AllocError>
    ensures { OnOk result (text.new.items ≡ text.old.items ++ flat_map spec.json_escaped bytes.now) }
{
    for byte in bytes {
        push_json_byte(alloc, text, *byte)?;
    }
    Ok(())
}

fn push_json_measure(text: &mut Vec<u8>, measure: Option<Measure>) -> Result<(), AllocError>
    ensures { OnOk result (text.new.items ≡ text.old.items ++ spec.json_measure measure) }
{
    let Some(measure) = measure else {
        return push_text(text, ",\"rows\":null,\"microseconds\":null");
    };
    push_amount(text, ",\"rows\":", measure.rows)?;
    push_amount(text, ",\"microseconds\":", measure.microseconds)
}

/// Adds what parts a node with this number from the one before it.
fn push_before(text: &mut Vec<u8>, number: usize) -> Result<(), AllocError>
    ensures { OnOk result (text.new.items ≡ text.old.items ++ spec.json_before number) }
{
    push_text(text, if number == 0 { "[\n" } else { ",\n" })
}

/// Adds what is known of a node besides what it does, and ends its object.
fn push_json_figures(
    text: &mut Vec<u8>,
    estimate: Estimate,
    measure: Option<Measure>,
) -> Result<(), AllocError>
    ensures { OnOk result (text.new.items ≡ text.old.items ++ spec.json_figures estimate measure) }
{
    push_amount(text, "\",\"estimated_rows\":", estimate.rows)?;
    push_amount(text, ",\"cost\":", estimate.cost)?;
    push_json_measure(text, measure)?;
    push_text(text, "}")
}

/// Adds the object of a node that stands so deep and has this number.
pub(crate) fn push_object(
    alloc: Global,
    text: &mut Vec<u8>,
    names: &Naming<'_>,
    number: usize,
    node: &Node,
    depth: usize,
    estimate: Estimate,
    measure: Option<Measure>,
) -> Result<(), AllocError>
    ensures { OnOk result (text.new.items ≡ text.old.items ++ spec.object_text names.now number (record { depth = depth; node = node.now }) estimate measure) }
{
    let mut words = Vec::new(alloc);
    push_words(alloc, &mut words, names, node)?;
    push_before(text, number)?;
    push_amount(text, "{\"depth\":", depth as u64)?;
    push_text(text, ",\"node\":\"")?;
    push_json_bytes(alloc, text, words.as_slice())?;
    push_json_figures(text, estimate, measure)
}
