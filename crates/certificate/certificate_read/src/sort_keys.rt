//! The keys of a sort.

ghost use Rattle.std.specs.Prelude.{map};
ghost use Rattle.certificate_text.specs.Parts.{IsRead, Reads};
ghost use Rattle.certificate_text.specs.Readable.{AreShortKeys, IsShortKey};
ghost use Rattle.certificate_read.specs.NodeReading as spec;
ghost use Rattle.certificate_read.specs.Wordings.{ReadsWords};

use crate::line_fault::LineFault;
use crate::words::Words;
use certificate_text::numbers::{number, parts_of};
use certificate_text::part_fault::{PartFault, PartReason};
use physical::OrderKey;
use std::alloc::{AllocError, Global};
use values::Items;

fn key_of(column: &str, descending: bool) -> Result<Option<OrderKey>, PartReason>
    ensures { IsRead (spec.SpellsColumn descending) IsShortKey column.now result }
{
    match number(column)? {
        Some(column) => Ok(Some(OrderKey { column, descending })),
        None => Ok(None),
    }
}

/// The key that a part of a list is: a column with `a` for ascending or `d` for descending; `None` where the column is past 32 bits.
fn key(part: &str) -> Result<Option<OrderKey>, PartReason>
    ensures { IsRead spec.SpellsKey IsShortKey part.now result }
{
    if let Some(column) = part.strip_suffix('a') {
        return key_of(column, false);
    }
    match part.strip_suffix('d') {
        Some(column) => key_of(column, true),
        None => Err(PartReason::OtherForm),
    }
}

/// The keys of the parts of a list; `None` where a column is past 32 bits.
fn each_key(alloc: Global, parts: &[&str]) -> Result<Option<Items<OrderKey>>, PartFault>
    ensures { Reads spec.SpellEachKey AreShortKeys (map (λ part. part.now) parts.now) (λ keys. keys) result }
{
    let mut keys = Items::new(alloc);
    let mut in_range = true;
    for part in parts {
        match key(part)? {
            Some(key) => keys.push(key)?,
            None => in_range = false,
        }
    }
    Ok(if in_range { Some(keys) } else { None })
}

/// The keys of a list; `None` where a column is past 32 bits.
fn keys_of(alloc: Global, list: &str) -> Result<Option<Items<OrderKey>>, PartFault>
    ensures { Reads spec.SpellsKeys AreShortKeys list.now (λ keys. keys) result }
{
    if list == "-" {
        return Ok(Some(Items::new(alloc)));
    }
    let parts = parts_of(alloc, list)?;
    each_key(alloc, parts.as_slice())
}

/// The keys of a list; one whose column is past 32 bits is noted.
pub fn keys(alloc: Global, words: &mut Words<'_>) -> Result<Items<OrderKey>, LineFault>
    ensures { ReadsWords spec.keys_wording (λ keys. keys) words.old words.new result }
{
    match keys_of(alloc, words.word()?)? {
        Some(keys) => Ok(keys),
        None => {
            words.passes_range();
            Ok(Items::new(alloc))
        }
    }
}
