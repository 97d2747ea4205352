//! A value that a text can spell.

ghost use Rattle.std.specs.Prelude.{◌≡◌, IfOk};
ghost use Rattle.values.specs.declared.value.Value.TheVariants as value;
ghost use Rattle.values.specs.Cells.{value_of};
ghost use Rattle.values.specs.Short.{IsShort};

use crate::cell::Cell;
use crate::text::Text;
use crate::value::Value;
use std::alloc::{AllocError, Global};
use std::marker::Model;

/// A literal of a query: NULL, a number of 64 bits, or a text. Contracts see it as its value.
#[derive(Drop)]
pub struct Literal {
    value: Value,
}

impl Model for Literal {
    ghost use Rattle.values.specs.declared.value.Value as values;
    ghost use Rattle.values.specs.contracts.value.Value as v;
    ghost use Rattle.values.specs.Short.{IsShort};

    ghost Value = { values.Value };

    ghost coded = { v.the_row.coded };

    ghost view = { λ l. l.value };

    ghost invariant = { λ l. IsShort l.value };
}

impl Literal {
    pub fn null() -> Literal
        ensures { result ≡ value.Null }
    {
        let value = Value::Null;
        Literal { value }
    }

    pub fn number(number: i64) -> Literal
        ensures { result ≡ value.Int number }
    {
        let value = Value::Int(i128::from(number));
        Literal { value }
    }

    pub fn text(text: Text) -> Literal
        ensures { result ≡ value.Text text }
    {
        let value = Value::Text(text);
        Literal { value }
    }

    /// Its value, with its text lent.
    pub fn as_cell(&self) -> Cell<'_>
        ensures { value_of result ≡ self.now }
    {
        self.value.as_cell()
    }

    pub fn value(&self) -> &Value
        ensures value { result.now ≡ self.now }
        ensures short { IsShort self.now }
    {
        &self.value
    }

    pub fn copy(&self, alloc: Global) -> Result<Literal, AllocError>
        ensures { IfOk result (λ l. l ≡ self.now) }
    {
        Ok(Literal {
            value: self.value.copy(alloc)?,
        })
    }
}
