//! Copies of values and texts, values as keys, and faults.

use crate::cells::cell;
use std::alloc::{AllocError, Global};
use std::collections::HashMap;
use values::{Boxed, Fault, Items, Text, Value};

fn is_copied(alloc: Global, word: &str) -> Result<bool, AllocError> {
    let value = cell(word).to_value(alloc)?;
    Ok(value.copy(alloc)? == value)
}

fn is_named(alloc: Global, name: &str) -> Result<bool, AllocError> {
    let text = Text::new(String::from_str(alloc, name)?);
    Ok(text.copy(alloc)?.as_str() == name)
}

/// How many items stand in a list of one box.
fn boxes(alloc: Global) -> Result<usize, AllocError> {
    let mut items = Items::new(alloc);
    items.push(Boxed::new(alloc, 7u8)?)?;
    Ok(items.len())
}

#[test]
fn values_are_copied(rt: HostRuntime) -> Result<(), AllocError> {
    assert!(rt; is_copied(rt.alloc(), "'ops")?);
    assert!(rt; is_named(rt.alloc(), "lab")?);
    assert!(rt; boxes(rt.alloc())? == 1);
    Ok(())
}

/// The words' values as keys of their places.
fn places(alloc: Global, words: &str) -> Result<HashMap<Value, usize>, AllocError> {
    let mut places = HashMap::new(alloc);
    for (place, word) in words.split(" ").enumerate() {
        let value = cell(word).to_value(alloc)?;
        places.insert(value, place)?;
    }
    Ok(places)
}

/// Whether a word's value is a key of that place, or none.
fn has_place(
    alloc: Global,
    places: &HashMap<Value, usize>,
    word: &str,
    place: Option<usize>,
) -> Result<bool, AllocError> {
    let value = cell(word).to_value(alloc)?;
    Ok(places.get(&value).copied() == place)
}

/// Whether the keys `'ops`, Null and 3 are found, and 4 is not.
fn keys_are_found(alloc: Global) -> Result<bool, AllocError> {
    let places = places(alloc, "'ops - 3")?;
    Ok(
        has_place(alloc, &places, "'ops", Some(0))?
            && has_place(alloc, &places, "-", Some(1))?
            && has_place(alloc, &places, "4", None)?,
    )
}

#[test]
fn equal_values_hash_alike(rt: HostRuntime) -> Result<(), AllocError> {
    assert!(rt; keys_are_found(rt.alloc())?);
    Ok(())
}

/// A refusal after two growths, each of which could be refused itself.
fn refused(alloc: Global) -> Result<(), Fault<u8>> {
    let mut bytes = Vec::new(alloc);
    bytes.push(1)?;
    bytes.extend_from_slice(b"more")?;
    Err(Fault::Refused(2))
}

#[test]
fn a_refusal_is_reported(rt: HostRuntime) {
    assert!(rt; matches!(refused(rt.alloc()), Err(Fault::Refused(2))));
}
