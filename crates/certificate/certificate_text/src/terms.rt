//! Terms: columns and literals.

ghost use Rattle.std.specs.Prelude.{◌≡◌, ℤ, MatchBool, FitsSigned};
ghost use Rattle.std.specs.Int.{w64};
ghost use Rattle.std.specs.List.{list_all};
ghost use Rattle.certificate_text.specs.Parts.{IsRead, Reads, ReadsAny};
ghost use Rattle.certificate_text.specs.Spelled.{SpellsInteger, SpellsBytes, SpellsText, SpellsTerm, IsShortTerm, is_lower_hex};

use crate::numbers::{is_numeral, number};
use crate::part_fault::{PartFault, PartReason};
use algebra::Term;
use std::alloc::Global;
use values::{Literal, Text};

/// Whether a word is a number with or without a minus, of any size. There is no `-0`.
fn is_integer(word: &str) -> bool
    ensures { MatchBool result ((z : ℤ) × SpellsInteger word.now z) ((z : ℤ) → SpellsInteger word.now z → ⊥) }
{
    match word.strip_prefix('-') {
        Some(digits) => is_numeral(digits) && digits != "0",
        None => is_numeral(word),
    }
}

/// The number of 64 bits that a word is; `None` where it is past them.
fn integer(word: &str) -> Result<Option<i64>, PartReason>
    ensures { IsRead SpellsInteger (FitsSigned w64) word.now result }
{
    if !is_integer(word) {
        return Err(PartReason::OtherForm);
    }
    Ok(word.parse::<i64>().ok())
}

fn is_lower_hex(byte: u8) -> bool
    ensures { result ≡ is_lower_hex byte }
{
    byte.is_ascii_digit() || (b'a' <= byte && byte <= b'f')
}

fn are_lower_hex(bytes: &[u8]) -> bool
    ensures { result ≡ list_all is_lower_hex bytes.now }
{
    bytes.iter().all(|byte| is_lower_hex(*byte))
}

/// The bytes that are spelled in lower-case hexadecimal digits.
fn bytes(alloc: Global, digits: &str) -> Result<Vec<u8>, PartFault>
    ensures { ReadsAny SpellsBytes digits.now (λ v. v.items) result }
{
    if !are_lower_hex(digits.as_bytes()) {
        return Err(PartReason::OtherForm.into());
    }
    match hex::decode(alloc, digits) {
        Ok(bytes) => Ok(bytes),
        Err(error) => match error {
            hex::FromHexError::OutOfMemory => Err(PartFault::Memory),
            _ => Err(PartReason::OtherForm.into()),
        },
    }
}

/// The text whose bytes in UTF-8 are spelled in lower-case hexadecimal digits.
fn text(alloc: Global, digits: &str) -> Result<Text, PartFault>
    ensures { ReadsAny SpellsText digits.now (λ t. t) result }
{
    match String::from_utf8(bytes(alloc, digits)?) {
        Ok(text) => Ok(Text::new(text)),
        Err(_) => Err(PartReason::OtherForm.into()),
    }
}

/// The term that a word is; `None` where its number is past its range: 32 bits of a column, 64 bits of a literal.
pub(crate) fn term(alloc: Global, word: &str) -> Result<Option<Term>, PartFault>
    ensures { Reads SpellsTerm IsShortTerm word.now (λ t. t) result }
{
    if word == "n" {
        return Ok(Some(Term::Literal(Literal::null())));
    }
    if let Some(column) = word.strip_prefix('c') {
        return match number(column)? {
            Some(column) => Ok(Some(Term::Column(column))),
            None => Ok(None),
        };
    }
    if let Some(literal) = word.strip_prefix('i') {
        return match integer(literal)? {
            Some(literal) => Ok(Some(Term::Literal(Literal::number(literal)))),
            None => Ok(None),
        };
    }
    match word.strip_prefix('t') {
        Some(digits) => Ok(Some(Term::Literal(Literal::text(text(alloc, digits)?)))),
        None => Err(PartReason::OtherForm.into()),
    }
}
