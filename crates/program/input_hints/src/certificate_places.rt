//! Where in its text a certificate is refused.

ghost use Rattle.std.specs.Prelude.{IfOk, string_bytes};
ghost use Rattle.input_hints.specs.Lines.{AreLines};

use crate::json::line_of;
use std::alloc::{AllocError, Global};
use words::quoted_front;

/// What a refusal of a certificate numbers.
#[derive(Clone, Copy)]
pub enum Numbered {
    /// A line of the text, from 1.
    Text(usize),
    /// A line of the derivation, from 0; the number behind the last is that of one that is missing.
    Derivation(usize),
    /// A line of the derivation, from 0, or a node: these are numbered on from the lines.
    LineOrNode(usize),
}

/// How many lines of a certificate's text stand before its derivation: its version and its count.
const FIRST_LINES: usize = 2;

/// The line of a text at this place, from 0.
fn line_at(text: &[u8], place: usize) -> Option<&[u8]> {
    text.split(|byte| *byte == b'\n').nth(place)
}

/// The place of the line that tells how many nodes the plan has, from 0.
fn place_of_plan(text: &[u8]) -> Option<usize> {
    text.split(|byte| *byte == b'\n')
        .position(|line| line.starts_with(b"plan "))
}

/// The place of the line that ends a certificate, from 0.
fn place_of_end(text: &[u8]) -> Option<usize> {
    text.split(|byte| *byte == b'\n')
        .position(|line| line == b"end".as_slice())
}

/// The line of a text at this place as it stands there, behind what it is called.
fn said_line(alloc: Global, text: &[u8], called: &str, place: usize) -> Result<String, AllocError> {
    match line_at(text, place) {
        Some(line) => {
            let line = quoted_front(alloc, line)?;
            format!(in alloc; "{called} is {line}")
        }
        None => format!(in alloc; "{called} is missing"),
    }
}

/// That a count that the text has at a place is another than that of what stands behind it; nothing if it is that.
fn said_count(
    alloc: Global,
    text: &[u8],
    what: &str,
    place: usize,
    end: Option<usize>,
) -> Result<Option<String>, AllocError> {
    let (Some(line), Some(end)) = (line_at(text, place), end) else {
        return Ok(None);
    };
    let count = end.saturating_sub(place).saturating_sub(1);
    let right = format!(in alloc; "{what} {count}")?;
    if line == right.as_bytes() {
        return Ok(None);
    }
    let line = quoted_front(alloc, line)?;
    let number = place.saturating_add(1);
    let said = format!(in alloc; "line {number} of the text is {line}, and \"{right}\" is wanted")?;
    Ok(Some(said))
}

/// A count of the text that is another than that of what stands behind it, if one before the line of this number is.
fn wrong_count(alloc: Global, text: &[u8], number: usize) -> Result<Option<String>, AllocError> {
    let plan = place_of_plan(text);
    if number > FIRST_LINES {
        if let Some(said) = said_count(alloc, text, "lines", FIRST_LINES - 1, plan)? {
            return Ok(Some(said));
        }
    }
    match plan {
        Some(plan) if number > plan.saturating_add(1) => {
            said_count(alloc, text, "plan", plan, place_of_end(text))
        }
        _ => Ok(None),
    }
}

/// The line of a text of this number, and a wrong count before it.
fn said_text(alloc: Global, text: &[u8], number: usize) -> Result<String, AllocError> {
    let called = format!(in alloc; "line {number} of the text")?;
    let mut said = said_line(alloc, text, called.as_str(), number.saturating_sub(1))?;
    if let Some(count) = wrong_count(alloc, text, number)? {
        said.push('\n')?;
        said.push_str(count.as_str())?;
    }
    Ok(said)
}

/// The line of the derivation or the node of this number, where the derivation has so many lines.
fn said_number(
    alloc: Global,
    text: &[u8],
    number: usize,
    count: usize,
) -> Result<String, AllocError> {
    let is_node = number >= count;
    let what = if is_node { "node" } else { "line" };
    let of = if is_node { "" } else { " of the derivation" };
    let place = number
        .saturating_add(FIRST_LINES)
        .saturating_add(if is_node { 1 } else { 0 });
    let in_text = place.saturating_add(1);
    let called = format!(in alloc; "{what} {number}{of}, line {in_text} of the text,")?;
    said_line(alloc, text, called.as_str(), place)
}

/// What a number of a refusal names, as it stands in a certificate's text, in lines of their own: a line of the text with a wrong count before
/// it, a line of the derivation, or a node.
#[tactic(auto, unfolding(crate::specs::Lines::AreLines))]
pub fn certificate_there(
    alloc: Global,
    text: &[u8],
    refused: Numbered,
) -> Result<String, AllocError>
    ensures { IfOk result (λ said. AreLines (string_bytes said)) }
{
    let count = match place_of_plan(text) {
        Some(plan) => plan.saturating_sub(FIRST_LINES),
        None => usize::MAX,
    };
    let said = match refused {
        Numbered::Text(number) => said_text(alloc, text, number)?,
        Numbered::Derivation(number) if number >= count => {
            format!(in alloc; "line {number} of the derivation is missing")?
        }
        Numbered::Derivation(number) | Numbered::LineOrNode(number) => {
            said_number(alloc, text, number, count)?
        }
    };
    line_of(said)
}
