//! Lists of columns, which rise strictly.

ghost use Rattle.std.specs.Prelude.{◌≡◌, ℕ, List, ◌↔◌, IsTrue, map};
ghost use Rattle.std.specs.List.Sorted.{IsStrictlyIncreasing};
ghost use Rattle.certificate_text.specs.Numerals.{is_numeral_below};
ghost use Rattle.certificate_text.specs.Parts.{Reads, SpellEach, SpellsColumns, AreShort};

use crate::numbers::{each_number, parts_of};
use crate::part_fault::{PartFault, PartReason};
use algebra::Columns;
use std::alloc::Global;

/// Whether the first of two numbers of any size is below the second: it is shorter, or of the same length and before it in the order of bytes.
fn is_below(first: &str, second: &str) -> bool
    ensures { result ≡ is_numeral_below first.now second.now }
{
    if first.len() == second.len() {
        first < second
    } else {
        first.len() < second.len()
    }
}

/// Whether each number is below the next.
pub(crate) fn are_rising(words: &[&str]) -> bool
    ensures { (ns : List ℕ) → SpellEach (map (λ word. word.now) words.now) ns → IsTrue result ↔ IsStrictlyIncreasing ns }
{
    for place in 1..words.len() {
        if !is_below(words[place - 1], words[place]) {
            return false;
        }
    }
    true
}

/// The columns of a list whose numbers rise strictly; `None` where one is past 32 bits.
pub fn columns(alloc: Global, list: &str) -> Result<Option<Columns>, PartFault>
    ensures { Reads SpellsColumns AreShort list.now (λ columns. columns) result }
{
    if list == "-" {
        return Ok(Some(Columns::from_vec(Vec::new(alloc))));
    }
    let parts = parts_of(alloc, list)?;
    let words = parts.as_slice();
    let numbers = each_number(alloc, words)?;
    if !are_rising(words) {
        return Err(PartReason::OtherForm.into());
    }
    match numbers {
        Some(read) => Ok(Some(Columns::from_vec(read))),
        None => Ok(None),
    }
}
