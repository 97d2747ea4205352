//! Names, and what bears them.

ghost use Rattle.std.specs.Prelude.{◌≡◌, ℕ, List, bytes_eq};
ghost use Rattle.std.specs.List.{list_all, list_any};
ghost use Rattle.schema.specs.Names as spec;

use crate::entries::TableEntry;
use crate::schema::Column;
use values::Text;

/// What bears a name.
pub trait Named {
    ghost name_of: { Self → List ℕ };

    fn name(&self) -> &str
        ensures { result.now ≡ name_of self.now };
}

impl Named for Text {
    ghost name_of = { λ text. text };

    fn name(&self) -> &str {
        self.as_str()
    }
}

impl Named for Column {
    ghost name_of = { λ column. column.name };

    fn name(&self) -> &str {
        self.name.as_str()
    }
}

impl Named for TableEntry {
    ghost name_of = { λ entry. entry.name };

    fn name(&self) -> &str {
        self.name.as_str()
    }
}

/// The words that SQL keeps for itself, in lower case.
const RESERVED: [&str; 31] = [
    "and", "as", "asc", "by", "count", "cross", "desc", "distinct", "exists", "from", "full",
    "group", "having", "in", "inner", "is", "join", "left", "max", "min", "natural", "not", "null",
    "on", "or", "order", "outer", "right", "select", "sum", "where",
];

fn is_among(words: &[&str], name: &str) -> bool
    ensures { result ≡ list_any (λ word. bytes_eq word.now name.now) words.now }
{
    words.iter().any(|word| *word == name)
}

#[tactic(auto, unfolding(crate::specs::Names::is_reserved))]
fn is_reserved(name: &str) -> bool
    ensures { result ≡ spec.is_reserved name.now }
{
    is_among(&RESERVED, name)
}

fn is_small_letter(byte: u8) -> bool
    ensures { result ≡ spec.is_small_letter byte }
{
    byte.is_ascii_lowercase() || byte == b'_'
}

fn is_name_byte(byte: u8) -> bool
    ensures { result ≡ spec.is_name_byte byte }
{
    is_small_letter(byte) || byte.is_ascii_digit()
}

fn are_name_bytes(bytes: &[u8]) -> bool
    ensures { result ≡ list_all spec.is_name_byte bytes.now }
{
    bytes.iter().all(|byte| is_name_byte(*byte))
}

#[tactic(auto, unfolding(crate::specs::Names::is_name))]
pub fn is_name(text: &str) -> bool
    ensures { result ≡ spec.is_name text.now }
{
    match text.as_bytes() {
        [] => false,
        [first, rest @ ..] => {
            is_small_letter(*first) && are_name_bytes(rest) && !is_reserved(text) && rest.len() < 63
        }
    }
}

/// The place of the first that bears the name.
pub fn place_of<T: Named>(items: &[T], name: &str) -> Option<usize>
    ensures { result ≡ spec.place_of T.name_of items.now name.now }
{
    items.iter().position(|item| item.name() == name)
}

/// Whether no two bear one name.
#[tactic(auto, unfolding(crate::specs::Names::are_different))]
pub fn are_different<T: Named>(items: &[T]) -> bool
    ensures { result ≡ spec.are_different T.name_of items.now }
{
    match items {
        [] => true,
        [first, rest @ ..] => place_of(rest, first.name()).is_none() && are_different(rest),
    }
}
