//! What is said behind the line of a refusal, for people.

use crate::meanings::Meaning;
use crate::places::{Place, place_of};
use std::alloc::{AllocError, Global};

/// How many characters of a line are shown at most.
const SHOWN: usize = 100;
/// How many of them stand before the place.
const SHOWN_BEFORE: usize = 60;

/// A text up to the end of its first line.
fn first_line(text: &[u8]) -> &[u8] {
    for end in 0..text.len() {
        if text[end] == b'\n' {
            return &text[..end];
        }
    }
    text
}

/// Adds a part of a line, with a space for what would steer a terminal.
fn push_part(shown: &mut String, line: &str, skipped: usize) -> Result<(), AllocError> {
    for character in line.chars().skip(skipped).take(SHOWN) {
        shown.push(if character.is_control() {
            ' '
        } else {
            character
        })?;
    }
    Ok(())
}

/// Adds the line of the text that has the place, and below it a caret under the place.
fn push_excerpt(
    alloc: Global,
    shown: &mut String,
    text: &[u8],
    place: Place,
) -> Result<(), AllocError> {
    let rest = text.get(place.start..).unwrap_or(&[]);
    let line = String::from_utf8_lossy(alloc, first_line(rest))?;
    let before = place.column.saturating_sub(1);
    let skipped = before.saturating_sub(SHOWN_BEFORE);
    shown.push_str("  ")?;
    push_part(shown, line.as_str(), skipped)?;
    shown.push_str("\n  ")?;
    for _ in skipped..before {
        shown.push(' ')?;
    }
    shown.push_str("^\n")
}

/// What a refusal means and an example of one, without a place, and what more there is to say of it, in lines of its own.
pub fn explanation(alloc: Global, meaning: Meaning, more: &str) -> Result<String, AllocError> {
    let what = meaning.text;
    let example = meaning.example;
    format!(in alloc; "{what}\n{more}for example {example}\n")
}

/// The same of a refusal at a byte of a text: its line and column, the line with a caret under it, and what more there is to say of it,
/// in lines of its own.
pub fn explanation_at(
    alloc: Global,
    meaning: Meaning,
    text: &[u8],
    at: usize,
    more: &str,
) -> Result<String, AllocError> {
    let place = place_of(text, at);
    let row = place.line;
    let column = place.column;
    let what = meaning.text;
    let example = meaning.example;
    let mut shown = format!(in alloc; "line {row}, column {column} (byte {at}): {what}\n")?;
    push_excerpt(alloc, &mut shown, text, place)?;
    write!(&mut shown, "{more}for example {example}\n")?;
    Ok(shown)
}
