//! Where a byte of a text stands, for people.

ghost use Rattle.std.specs.Prelude.{◌≡◌, ◌≤◌, ◌+◌, take, drop, length};
ghost use Rattle.std.specs.List.{count_by};
ghost use Rattle.words.specs.Places.{is_break, is_front, IsLineStart};

/// A place in a text. Lines and columns are counted from 1.
#[derive(Clone, Copy, Debug)]
pub struct Place {
    pub line: usize,
    /// The characters before it on its line, and one.
    pub column: usize,
    /// The byte at which its line begins.
    pub start: usize,
}

/// How many lines end in a text.
fn breaks(text: &[u8]) -> usize
    ensures value { result ≡ count_by is_break text.now }
    ensures bound { result ≤ length text.now }
{
    let mut count = 0;
    for byte in text {
        if *byte == b'\n' {
            count += 1;
        }
    }
    count
}

/// How many characters a text has: its bytes, but for those that go on with a character.
fn characters(text: &[u8]) -> usize
    ensures value { result ≡ count_by is_front text.now }
    ensures bound { result ≤ length text.now }
{
    let mut count = 0;
    for byte in text {
        if *byte < 128 || *byte >= 192 {
            count += 1;
        }
    }
    count
}

/// Where the last line of a text begins.
#[tactic(auto, unfolding(crate::specs::Places::IsLineStart))]
fn line_start(text: &[u8]) -> usize
    ensures start { IsLineStart text.now result }
    ensures bound { result ≤ length text.now }
{
    let mut start = text.len();
    while start > 0 && text[start - 1] != b'\n' {
        start -= 1;
    }
    start
}

/// The place of a byte, or of the text's end where it has no such byte.
pub fn place_of(text: &[u8], at: usize) -> Place
    ensures line { result.line ≡ count_by is_break (take at text.now) + 1 }
    ensures column { result.column ≡ count_by is_front (drop result.start (take at text.now)) + 1 }
    ensures start { IsLineStart (take at text.now) result.start }
{
    let before = &text[..at.min(text.len())];
    let start = line_start(before);
    Place {
        line: breaks(before) + 1,
        column: characters(&before[start..]) + 1,
        start,
    }
}
