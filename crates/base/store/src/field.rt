//! What a field of a table's file stands for: Null, or the bytes of a number or a text.

ghost use Rattle.std.specs.Prelude.{◌≡◌, ◌∷◌, IfSome, MatchOption, MatchResult, FitsSigned};
ghost use Rattle.std.specs.Int.{w64};
ghost use Rattle.std.specs.Fmt.{signed_decimal};
ghost use Rattle.values.specs.declared.value.Value.TheVariants as value;
ghost use Rattle.store.specs.Numbers as numbers;
ghost use Rattle.store.specs.Numbers.{IsCount};
ghost use Rattle.store.specs.Tables.{IsNumber, Stands, FieldFails};
ghost use Rattle.store.specs.Parsing.{IsUnescaped};

use crate::fault::FieldFault;
use schema::Column;
use std::str;

/// Whether the bytes begin with a digit that isn't `0`.
fn begins_count(bytes: &[u8]) -> bool
    ensures { result ≡ numbers.begins_count bytes.now }
{
    match bytes {
        [] => false,
        [first, ..] => 49 <= *first && *first <= 57,
    }
}

/// Whether the bytes begin as the decimal of a number does: no `+`, and no `0` before another digit.
fn begins_number(bytes: &[u8]) -> bool
    ensures { result ≡ numbers.begins_number bytes.now }
{
    match bytes {
        [] => false,
        [only] => *only == b'0' || begins_count(bytes),
        [first, rest @ ..] => {
            if *first == b'-' {
                begins_count(rest)
            } else {
                begins_count(bytes)
            }
        }
    }
}

/// The number that the bytes are the digits of; none where one is no digit, or they are more than 18. So many fit, and are
/// read without a test of each sum.
fn short_count_of(bytes: &[u8]) -> Option<u64>
    ensures { IfSome result (λ n. IsCount bytes.now n) }
{
    if bytes.len() > 18 {
        return None;
    }
    let mut count: u64 = 0;
    for place in 0..bytes.len() {
        let byte = bytes[place];
        if byte < b'0' || byte > b'9' {
            return None;
        }
        count = count * 10 + u64::from(byte - b'0');
    }
    Some(count)
}

/// The whole number of 64 bits that the bytes are in decimal.
pub fn number_of(bytes: &[u8]) -> Option<i64>
    ensures { MatchOption result (¬ (IsNumber bytes.now)) (λ n. (bytes.now ≡ signed_decimal n) × FitsSigned w64 n) }
{
    if !begins_number(bytes) {
        return None;
    }
    if let Some(count) = short_count_of(bytes) {
        return Some(count as i64);
    }
    let Ok(text) = str::from_utf8(bytes) else {
        return None;
    };
    match text.parse::<i64>() {
        Ok(number) => Some(number),
        Err(_) => None,
    }
}

/// What stands in a field that begins with a backslash, after which `rest` stands.
fn escaped_of<'f>(column: &Column, rest: &'f [u8]) -> Result<Option<&'f [u8]>, FieldFault>
    ensures { MatchResult result (λ o. MatchOption o (Stands column.now (92 ∷ rest.now) value.Null) (λ bytes. IsUnescaped column.now (92 ∷ rest.now) bytes.now)) (FieldFails column.now (92 ∷ rest.now)) }
{
    match rest {
        [] => Err(FieldFault::BadEscape),
        [first, more @ ..] => {
            if *first == b'\\' {
                return Ok(Some(rest));
            }
            if *first != b'N' || more.len() > 0 {
                return Err(FieldFault::BadEscape);
            }
            if column.not_null {
                return Err(FieldFault::NullValue);
            }
            Ok(None)
        }
    }
}

/// What stands in a field of the column: the bytes of its number or text, with no escape before them; none in that of a Null.
pub fn unescaped<'f>(column: &Column, field: &'f [u8]) -> Result<Option<&'f [u8]>, FieldFault>
    ensures { MatchResult result (λ o. MatchOption o (Stands column.now field.now value.Null) (λ bytes. IsUnescaped column.now field.now bytes.now)) (FieldFails column.now field.now) }
{
    match field {
        [] => Ok(Some(field)),
        [first, rest @ ..] => {
            if *first == b'\\' {
                escaped_of(column, rest)
            } else {
                Ok(Some(field))
            }
        }
    }
}
