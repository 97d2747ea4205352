//! Where in a JSON text something else stands than is wanted.

ghost use Rattle.std.specs.Prelude.{◌≤◌, IfOk, IfSome, length, string_bytes};
ghost use Rattle.input_hints.specs.Lines.{AreLines};

use serde_json::{Map, Value};
use std::alloc::{AllocError, AllocFailed, Global};
use words::quoted_front;

/// Why a walk through JSON values stops.
#[derive(Debug)]
pub(crate) enum Halt {
    Memory,
    /// At a place where something else stands than is wanted, with what is said of it.
    Fault(String),
}

impl Drop for Halt {
    fn drop(self) {
        match self {
            Halt::Memory | Halt::Fault(_) => {}
        }
    }
}

impl Halt {
    /// What is said of the place.
    fn into_said(self) -> Result<String, AllocError> {
        match self {
            Halt::Memory => Err(AllocError),
            Halt::Fault(said) => Ok(said),
        }
    }
}

impl From<AllocError> for Halt {
    fn from(_error: AllocError) -> Halt {
        Halt::Memory
    }
}

impl<T: Drop> From<AllocFailed<T>> for Halt {
    fn from(_error: AllocFailed<T>) -> Halt {
        Halt::Memory
    }
}

/// A text as a line.
pub(crate) fn line_of(text: String) -> Result<String, AllocError>
    ensures { IfOk result (λ line. AreLines (string_bytes line)) }
{
    let mut line = text;
    line.push_str("\n")?;
    Ok(line)
}

/// What is said where a walk stopped, a line: nothing where it came to its end.
#[tactic(auto, unfolding(crate::specs::Lines::AreLines))]
pub(crate) fn said_of(alloc: Global, walk: Result<(), Halt>) -> Result<String, AllocError>
    ensures { IfOk result (λ said. AreLines (string_bytes said)) }
{
    match walk {
        Ok(()) => Ok(String::new(alloc)),
        Err(halt) => line_of(halt.into_said()?),
    }
}

/// The value of a text, if it is JSON.
pub(crate) fn value_of(alloc: Global, text: &[u8]) -> Result<Option<Value>, AllocError> {
    match Value::from_slice(alloc, text) {
        Ok(value) => Ok(Some(value)),
        Err(error) => {
            if error.is_memory() {
                Err(AllocError)
            } else {
                Ok(None)
            }
        }
    }
}

/// The byte at which a text is found to be no JSON, if it is none: its end, where it only breaks off.
pub fn json_fault(alloc: Global, text: &[u8]) -> Option<usize>
    ensures { IfSome result (λ at. at ≤ length text.now) }
{
    let Err(error) = Value::from_slice(alloc, text) else {
        return None;
    };
    if error.is_memory() {
        return None;
    }
    if error.is_eof() {
        return Some(text.len());
    }
    let mut line = 1usize;
    let mut at = 0usize;
    for byte in text {
        if line == error.line() {
            break;
        }
        if *byte == b'\n' {
            line = line.saturating_add(1);
        }
        at = at.saturating_add(1);
    }
    Some(
        at.saturating_add(error.column().saturating_sub(1))
            .min(text.len()),
    )
}

/// The place of a member.
pub(crate) fn member_place(alloc: Global, place: &str, key: &str) -> Result<String, AllocError> {
    if place.is_empty() {
        String::from_str(alloc, key)
    } else {
        format!(in alloc; "{place}.{key}")
    }
}

/// The place of an element.
pub(crate) fn element_place(
    alloc: Global,
    place: &str,
    number: usize,
) -> Result<String, AllocError> {
    format!(in alloc; "{place}[{number}]")
}

/// Halts at a place, of which this is said.
pub(crate) fn fault_at(alloc: Global, place: &str, what: &str) -> Halt {
    let place = if place.is_empty() {
        "the whole text"
    } else {
        place
    };
    match format!(in alloc; "{place}: {what}") {
        Ok(said) => Halt::Fault(said),
        Err(_) => Halt::Memory,
    }
}

/// A value in few words.
fn shown(alloc: Global, value: &Value) -> Result<String, AllocError> {
    match value {
        Value::Null => String::from_str(alloc, "null"),
        Value::Bool(true) => String::from_str(alloc, "true"),
        Value::Bool(false) => String::from_str(alloc, "false"),
        Value::Number(_) => value.to_string(alloc),
        Value::String(text) => quoted_front(alloc, text.as_bytes()),
        Value::Array(_) => String::from_str(alloc, "an array"),
        Value::Object(_) => String::from_str(alloc, "an object"),
    }
}

/// Halts at a value in place of which something else is wanted.
pub(crate) fn unwanted(alloc: Global, place: &str, value: &Value, wanted: &str) -> Halt {
    match shown(alloc, value) {
        Ok(found) => match format!(in alloc; "{found} stands there, and {wanted} is wanted") {
            Ok(what) => fault_at(alloc, place, what.as_str()),
            Err(_) => Halt::Memory,
        },
        Err(_) => Halt::Memory,
    }
}

/// Names with commas between them.
fn listed(alloc: Global, names: &[&str]) -> Result<String, AllocError> {
    let mut said = String::new(alloc);
    for (number, name) in names.iter().enumerate() {
        said.push_str(if number > 0 { ", " } else { "" })?;
        said.push_str(name)?;
    }
    Ok(said)
}

/// The members of an object that is to have these keys.
fn members_of<'v>(
    alloc: Global,
    place: &str,
    value: &'v Value,
    keys: &[&str],
) -> Result<&'v Map<String, Value>, Halt> {
    match value.as_object() {
        Some(members) => Ok(members),
        None => {
            let keys = listed(alloc, keys)?;
            let wanted = format!(in alloc; "an object with the keys {keys}")?;
            Err(unwanted(alloc, place, value, wanted.as_str()))
        }
    }
}

/// That an object has these keys and no others.
pub(crate) fn expect_keys(
    alloc: Global,
    place: &str,
    value: &Value,
    keys: &[&str],
) -> Result<(), Halt> {
    expect_first_keys(alloc, place, value, keys, keys.len())
}

/// That an object has the first so many of these keys, and none that isn't among all of them.
pub(crate) fn expect_first_keys(
    alloc: Global,
    place: &str,
    value: &Value,
    keys: &[&str],
    needed: usize,
) -> Result<(), Halt> {
    let members = members_of(alloc, place, value, keys)?;
    let unknown = members.keys().find(|key| !keys.contains(&key.as_str()));
    let missing = keys
        .iter()
        .take(needed)
        .find(|key| value.get(**key).is_none());
    let what = match (unknown, missing) {
        (None, None) => return Ok(()),
        (None, Some(missing)) => format!(in alloc; "the key {missing} is missing")?,
        (Some(unknown), missing) => {
            let unknown = quoted_front(alloc, unknown.as_bytes())?;
            let keys = listed(alloc, keys)?;
            let mut what = format!(in alloc; "there is no key {unknown}; the keys are {keys}")?;
            if let Some(missing) = missing {
                write!(&mut what, ", of which {missing} is missing")?;
            }
            what
        }
    };
    Err(fault_at(alloc, place, what.as_str()))
}

/// A member that is to be there.
pub(crate) fn expect_member<'v>(
    alloc: Global,
    place: &str,
    value: &'v Value,
    key: &str,
) -> Result<&'v Value, Halt> {
    match value.get(key) {
        Some(member) => Ok(member),
        None => {
            let what = format!(in alloc; "the key {key} is missing")?;
            Err(fault_at(alloc, place, what.as_str()))
        }
    }
}

/// The elements of a value that is to be an array.
pub(crate) fn expect_array<'v>(
    alloc: Global,
    place: &str,
    value: &'v Value,
) -> Result<&'v [Value], Halt> {
    match value.as_array() {
        Some(elements) => Ok(elements.as_slice()),
        None => Err(unwanted(alloc, place, value, "an array")),
    }
}

/// The elements of a member, where it is an array.
pub(crate) fn elements<'v>(value: &'v Value, key: &str) -> &'v [Value] {
    match value.get(key).and_then(Value::as_array) {
        Some(elements) => elements.as_slice(),
        None => &[],
    }
}
