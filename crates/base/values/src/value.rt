//! A value of a table or of a query's answer.

ghost use Rattle.std.specs.Prelude.{◌≡◌, IfOk};
ghost use Rattle.values.specs.Cells.{value_of};

use crate::cell::Cell;
use crate::text::Text;
use std::alloc::{AllocError, Global};

/// A value. The derived comparisons and hash are those of the total order: the variants stand in its order.
///
/// A table holds `Int`s of 64 bits; a sum of them goes past that, and is exact.
#[derive(Drop, PartialEq, Eq, PartialOrd, Ord, Hash)]
pub enum Value {
    Null,
    Int(i128),
    Text(Text),
}

impl Value {
    /// The same value, with its text lent.
    pub fn as_cell(&self) -> Cell<'_>
        ensures { value_of result ≡ self.now }
    {
        match self {
            Value::Null => Cell::Null,
            Value::Int(number) => Cell::Int(*number),
            Value::Text(text) => Cell::Text(text.as_str()),
        }
    }

    pub fn copy(&self, alloc: Global) -> Result<Value, AllocError>
        ensures { IfOk result (λ v. v ≡ self.now) }
    {
        self.as_cell().to_value(alloc)
    }
}
