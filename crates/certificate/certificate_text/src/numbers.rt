//! Numbers, and lists of them.

ghost use Rattle.std.specs.Prelude.{◌≡◌, ◌==◌, map, IfOk};
ghost use Rattle.std.specs.Char.{is_ascii_digit};
ghost use Rattle.std.specs.List.{list_all, slice_split};
ghost use Rattle.certificate_text.specs.Numerals.{has_numeral_form};
ghost use Rattle.certificate_text.specs.Parts.{IsRead, Reads, SpellsNumber, IsShort, SpellEach, SpellsNumbers, AreShort};

use crate::part_fault::{PartFault, PartReason};
use std::alloc::{AllocError, Global};

fn are_digits(bytes: &[u8]) -> bool
    ensures { result ≡ list_all is_ascii_digit bytes.now }
{
    bytes.iter().all(|byte| byte.is_ascii_digit())
}

/// Whether a word is a number of any size.
pub fn is_numeral(word: &str) -> bool
    ensures { result ≡ has_numeral_form word.now }
{
    let bytes = word.as_bytes();
    are_digits(bytes) && !bytes.is_empty() && (bytes[0] != b'0' || bytes.len() == 1)
}

/// The number that a word is; `None` where it is past 32 bits.
pub fn number(word: &str) -> Result<Option<u32>, PartReason>
    ensures { IsRead SpellsNumber IsShort word.now result }
{
    if !is_numeral(word) {
        return Err(PartReason::OtherForm);
    }
    Ok(word.parse::<u32>().ok())
}

/// The parts of a list.
pub fn parts_of(alloc: Global, list: &str) -> Result<Vec<&str>, AllocError>
    ensures { IfOk result (λ parts. map (λ part. part.now) parts.items ≡ slice_split (λ b. b == 44) list.now) }
{
    list.split(',').collect(alloc)
}

/// The number that each word is.
pub(crate) fn each_number(alloc: Global, words: &[&str]) -> Result<Option<Vec<u32>>, PartFault>
    ensures { Reads SpellEach AreShort (map (λ word. word.now) words.now) (λ v. v.items) result }
{
    let mut numbers = Vec::with_capacity(alloc, words.len())?;
    let mut in_range = true;
    for word in words {
        match number(word)? {
            Some(read) => numbers.push(read)?,
            None => in_range = false,
        }
    }
    Ok(if in_range { Some(numbers) } else { None })
}

/// The numbers of a list; `None` where one is past 32 bits.
pub fn numbers(alloc: Global, list: &str) -> Result<Option<Vec<u32>>, PartFault>
    ensures { Reads SpellsNumbers AreShort list.now (λ v. v.items) result }
{
    if list == "-" {
        return Ok(Some(Vec::new(alloc)));
    }
    let parts = parts_of(alloc, list)?;
    each_number(alloc, parts.as_slice())
}
