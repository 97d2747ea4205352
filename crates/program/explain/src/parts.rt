//! Words and numbers, each added behind what goes before it.

ghost use Rattle.std.specs.Prelude.{◌≡◌, ◌++◌, decimal, OnOk};

use itoa::Buffer;
use std::alloc::AllocError;

pub(crate) fn push_text(text: &mut Vec<u8>, part: &str) -> Result<(), AllocError>
    ensures { OnOk result (text.new.items ≡ text.old.items ++ part.now) }
{
    text.extend_from_slice(part.as_bytes())
}

pub(crate) fn push_number(text: &mut Vec<u8>, before: &str, number: u32) -> Result<(), AllocError>
    ensures { OnOk result (text.new.items ≡ text.old.items ++ (before.now ++ decimal number)) }
{
    push_text(text, before)?;
    push_text(text, Buffer::new().format(number))
}

pub(crate) fn push_amount(text: &mut Vec<u8>, before: &str, amount: u64) -> Result<(), AllocError>
    ensures { OnOk result (text.new.items ≡ text.old.items ++ (before.now ++ decimal amount)) }
{
    push_text(text, before)?;
    push_text(text, Buffer::new().format(amount))
}
