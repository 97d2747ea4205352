//! Paths and arguments on one line, without a character that steers a terminal.

ghost use Rattle.std.specs.Prelude.{◌≡◌, ◌++◌, string_bytes, take, OnOk, IfOk};
ghost use Rattle.std.specs.Char.{encode_utf8};
ghost use Rattle.words.specs.Spelling as spec;
ghost use Rattle.words.specs.Spelling.{flat_map};

use std::alloc::{AllocError, Global};

/// Whether a character steers a terminal, or ends the line.
fn has_control(path: &str) -> bool
    ensures { result ≡ spec.has_control path.now }
{
    path.chars().any(|character| character.is_control())
}

/// Whether a path is said as it is.
fn is_plain(path: &str) -> bool
    ensures { result ≡ spec.is_plain path.now }
{
    !path.is_empty() && !path.starts_with('"') && !has_control(path)
}

fn push_hexadecimal(line: &mut String, byte: u8) -> Result<(), AllocError>
    ensures { OnOk result (string_bytes line.new ≡ string_bytes line.old ++ spec.hex_text byte) }
{
    write!(line, "\\x{byte:02x}")
}

fn push_byte(line: &mut String, byte: u8) -> Result<(), AllocError>
    ensures { OnOk result (string_bytes line.new ≡ string_bytes line.old ++ spec.spelled_byte byte) }
{
    match byte {
        b'\n' => line.push_str("\\n"),
        b'\r' => line.push_str("\\r"),
        b'\t' => line.push_str("\\t"),
        b'"' => line.push_str("\\\""),
        b'\\' => line.push_str("\\\\"),
        b' '..=b'~' => line.push(char::from(byte)),
        _ => push_hexadecimal(line, byte),
    }
}

/// Bytes between quotes, in visible ASCII alone. They need not be text.
pub fn quoted(alloc: Global, bytes: &[u8]) -> Result<String, AllocError>
    ensures { IfOk result (λ line. string_bytes line ≡ spec.quoted bytes.now) }
{
    let mut line = String::from_str(alloc, "\"")?;
    for byte in bytes {
        push_byte(&mut line, *byte)?;
    }
    line.push_str("\"")?;
    Ok(line)
}

/// So many bytes are shown of what may be long.
const MOST_SHOWN: usize = 60;

/// The first bytes.
fn front(bytes: &[u8]) -> &[u8]
    ensures { result.now ≡ take 60 bytes.now }
{
    if bytes.len() <= MOST_SHOWN {
        bytes
    } else {
        &bytes[..MOST_SHOWN]
    }
}

/// Adds how many more bytes there are, if any.
#[tactic(auto, unfolding(crate::specs::Spelling::more_text))]
fn push_more(line: &mut String, more: usize) -> Result<(), AllocError>
    ensures { OnOk result (string_bytes line.new ≡ string_bytes line.old ++ spec.more_text more) }
{
    if more == 0 {
        return Ok(());
    }
    write!(line, " and {more} more bytes")
}

/// The first bytes between quotes, and how many more there are.
pub fn quoted_front(alloc: Global, bytes: &[u8]) -> Result<String, AllocError>
    ensures { IfOk result (λ line. string_bytes line ≡ spec.quoted_front bytes.now) }
{
    let mut line = quoted(alloc, front(bytes))?;
    push_more(&mut line, bytes.len().saturating_sub(MOST_SHOWN))?;
    Ok(line)
}

/// A path as the program says it: as it is, or between quotes where it would break the line, steer a terminal, be nothing or look
/// as if it were between quotes.
#[tactic(auto, unfolding(crate::specs::Spelling::spelled))]
pub fn spelled(alloc: Global, path: &str) -> Result<String, AllocError>
    ensures { IfOk result (λ line. string_bytes line ≡ spec.spelled path.now) }
{
    if is_plain(path) {
        String::from_str(alloc, path)
    } else {
        quoted(alloc, path.as_bytes())
    }
}

fn push_control(text: &mut String, character: char) -> Result<(), AllocError>
    ensures { OnOk result (string_bytes text.new ≡ string_bytes text.old ++ flat_map spec.spelled_byte (encode_utf8 character)) }
{
    let mut buffer = [0u8; 4];
    let bytes = character.encode_utf8(&mut buffer).as_bytes();
    for byte in bytes {
        push_byte(text, *byte)?;
    }
    Ok(())
}

/// A text of several lines, with what would steer a terminal spelled as in a path between quotes.
pub fn readable(alloc: Global, text: &str) -> Result<String, AllocError>
    ensures { IfOk result (λ said. string_bytes said ≡ spec.readable text.now) }
{
    let mut said = String::new(alloc);
    for character in text.chars() {
        if character.is_control() && character != '\n' {
            push_control(&mut said, character)?;
        } else {
            said.push(character)?;
        }
    }
    Ok(said)
}
