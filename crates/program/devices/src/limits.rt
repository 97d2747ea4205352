//! What Linux says in /proc of the limit on the size of files, and of where an open file stands.

ghost use Rattle.std.specs.Prelude.{◌≡◌, ◌≤◌, length, MatchOption, codes};
ghost use Rattle.std.specs.Str.Lines.{lines};
ghost use Rattle.devices.specs.Limits.{NoneBefore, IsBehind, IsFirstNumber, IsNumberBehind, IsNextByte, first_word};

/// What stands behind some words on the first line that begins with them.
fn rest_behind<'a>(text: &'a str, words: &str) -> Option<&'a str>
    ensures { MatchOption result (NoneBefore words.now (lines text.now) (length (lines text.now))) (λ rest. IsBehind words.now (lines text.now) rest.now) }
{
    for line in text.lines() {
        if let Some(rest) = line.strip_prefix(words) {
            return Some(rest);
        }
    }
    None
}

/// A text up to its first space, without the white space in front of it.
fn first_word(text: &str) -> &str
    ensures { result.now ≡ first_word text.now }
{
    let text = text.trim_start();
    match text.split_once(' ') {
        Some((word, _)) => word,
        None => text,
    }
}

/// The number that the first word of a text is.
fn first_number(text: &str, radix: u32) -> Option<u64>
    requires low { 2 ≤ radix }
    requires high { radix ≤ 36 }
    ensures { IsFirstNumber radix text.now result }
{
    u64::from_str_radix(first_word(text), radix).ok()
}

/// The number behind some words at the beginning of a line.
fn number_behind(text: &str, words: &str, radix: u32) -> Option<u64>
    requires low { 2 ≤ radix }
    requires high { radix ≤ 36 }
    ensures { IsNumberBehind words.now radix text.now result }
{
    first_number(rest_behind(text, words)?, radix)
}

/// How many bytes a file that is written may have, by a process's limits: nothing where that is unlimited.
pub fn size_limit(limits: &str) -> Option<u64>
    ensures { IsNumberBehind (codes "Max file size") 10 limits.now result }
{
    number_behind(limits, "Max file size", 10)
}

/// The flag of a file that is written at its end alone.
const APPENDS: u64 = 0o2000;

/// At which byte an open file of so many bytes is written next, by what is said of its descriptor.
pub fn next_byte(descriptor: &str, length: u64) -> Option<u64>
    ensures { IsNextByte descriptor.now length result }
{
    let flags = number_behind(descriptor, "flags:", 8)?;
    if flags & APPENDS != 0 {
        Some(length)
    } else {
        number_behind(descriptor, "pos:", 10)
    }
}
