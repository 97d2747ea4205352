//! A value whose text is lent.

ghost use Rattle.std.specs.Prelude.{◌≡◌, IfOk};
ghost use Rattle.values.specs.Cells.{value_of};
ghost use Rattle.values.specs.Order as spec;
ghost use Rattle.values.specs.Truth as logic;

use crate::text::Text;
use crate::truth::{Comparison, Truth};
use crate::value::Value;
use std::alloc::{AllocError, Global};
use std::cmp::Ordering;

/// A value whose text is lent, so that a table hands out its values without a copy. Its derived comparisons and hash
/// are those of `Value`.
#[derive(Clone, Copy, PartialEq, Eq, PartialOrd, Ord, Hash)]
pub enum Cell<'a> {
    Null,
    Int(i128),
    Text(&'a str),
}

impl Cell<'_> {
    /// The value with a text of its own. A number or Null takes no memory.
    pub fn to_value(self, alloc: Global) -> Result<Value, AllocError>
        ensures { IfOk result (λ v. v ≡ value_of self.entry) }
    {
        match self {
            Cell::Null => Ok(Value::Null),
            Cell::Int(number) => Ok(Value::Int(number)),
            Cell::Text(text) => Ok(Value::Text(Text::from_str(alloc, text)?)),
        }
    }

    pub fn is_null(self) -> bool
        ensures { result ≡ logic.is_null (value_of self.entry) }
    {
        matches!(self, Cell::Null)
    }
}

/// The total order: Null, then numbers, then texts by their bytes.
pub fn order(a: Cell<'_>, b: Cell<'_>) -> Ordering
    ensures { result ≡ spec.order (value_of a.entry) (value_of b.entry) }
{
    match (a, b) {
        (Cell::Null, Cell::Null) => Ordering::Equal,
        (Cell::Null, _) => Ordering::Less,
        (_, Cell::Null) => Ordering::Greater,
        (Cell::Int(m), Cell::Int(n)) => m.cmp(&n),
        (Cell::Int(_), Cell::Text(_)) => Ordering::Less,
        (Cell::Text(_), Cell::Int(_)) => Ordering::Greater,
        (Cell::Text(s), Cell::Text(t)) => s.cmp(t),
    }
}

/// The total order under a key, turned round under DESC.
pub fn directed_order(descending: bool, a: Cell<'_>, b: Cell<'_>) -> Ordering
    ensures { result ≡ spec.directed descending (value_of a.entry) (value_of b.entry) }
{
    if descending { order(b, a) } else { order(a, b) }
}

/// Whether two values are equal in the total order, in which Null equals Null.
pub fn same(a: Cell<'_>, b: Cell<'_>) -> bool
    ensures { result ≡ spec.same (value_of a.entry) (value_of b.entry) }
{
    order(a, b) == Ordering::Equal
}

/// The truth of a comparison: unknown where a side is Null.
pub fn compare(comparison: Comparison, a: Cell<'_>, b: Cell<'_>) -> Truth
    ensures { result ≡ logic.compare comparison (value_of a.entry) (value_of b.entry) }
{
    match (a, b) {
        (Cell::Null, _) | (_, Cell::Null) => Truth::Unknown,
        _ => Truth::from(comparison.admits(order(a, b))),
    }
}
