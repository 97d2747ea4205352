//! The values of one column.

ghost use Rattle.std.specs.Prelude.{◌≡◌, ◌<◌, length, not, IfSome, OnErr, OnOk};
ghost use Rattle.values.specs.Cells.{value_of};
ghost use Rattle.values.specs.Truth as logic;
ghost use Rattle.values.specs.declared.value.Value.{Value};
ghost use Rattle.values.specs.declared.value.Value.TheVariants as value;
ghost use Rattle.store.specs.Tables.{Stands, FieldFails};
ghost use Rattle.store.specs.Parsing.{IsPlain, PlainFails};
ghost use Rattle.store.specs.Reports.{Reports};
ghost use Rattle.store.specs.StoredColumns.{HasCells, kind_of, size_of, cell_at, with_entry, with_value};
ghost use Rattle.store.specs.declared.cells.Entries.{Entries};
ghost use Rattle.store.specs.declared.cells.Entries.TheVariants as entries;
ghost use Rattle.store.specs.declared.cells.ColumnCells.{ColumnCells};

use crate::fault::FieldFault;
use crate::field::{number_of, unescaped};
use crate::numbers::Numbers;
use crate::text_column::TextColumn;
use crate::texts::Texts;
use schema::{Column, Kind};
use std::alloc::{AllocError, Global};
use std::str;
use values::{Cell, Fault, Items};

/// Numbers or texts, one for each row.
#[derive(Drop)]
pub enum Entries {
    Numbers(Items<i64>),
    Texts(Texts),
}

impl Entries {
    /// The number or text that the bytes are.
    fn push_plain(&mut self, bytes: &[u8]) -> Result<(), Fault<FieldFault>>
        ensures read { Reports (λ _. (v : Value) × IsPlain (kind_of self.old) bytes.now v × (self.new ≡ with_entry self.old v)) (PlainFails (kind_of self.old) bytes.now) result }
        ensures err { OnErr result (self.new ≡ self.old) }
    {
        match self {
            Entries::Numbers(numbers) => {
                let Some(number) = number_of(bytes) else {
                    return Err(Fault::Refused(FieldFault::NotNumber));
                };
                numbers.push(number)?;
            }
            Entries::Texts(texts) => {
                let Ok(text) = str::from_utf8(bytes) else {
                    return Err(Fault::Refused(FieldFault::NotText));
                };
                texts.push(text)?;
            }
        }
        Ok(())
    }

    /// Something in the place of a Null.
    fn push_null(&mut self) -> Result<(), AllocError>
        ensures ok { OnOk result (self.new ≡ with_entry self.old value.Null) }
        ensures err { OnErr result (self.new ≡ self.old) }
    {
        match self {
            Entries::Numbers(numbers) => numbers.push(0),
            Entries::Texts(texts) => texts.push(""),
        }
    }

    /// What the field stands for, if it is no Null; whether it is none.
    fn push(&mut self, column: &Column, field: &[u8]) -> Result<bool, Fault<FieldFault>>
        requires { kind_of self.old ≡ column.now.kind }
        ensures read { Reports (λ known. (v : Value) × Stands column.now field.now v × (known ≡ not (logic.is_null v)) × (self.new ≡ with_entry self.old v)) (FieldFails column.now field.now) result }
        ensures err { OnErr result (self.new ≡ self.old) }
    {
        match unescaped(column, field) {
            Ok(Some(bytes)) => {
                self.push_plain(bytes)?;
                Ok(true)
            }
            Ok(None) => {
                self.push_null()?;
                Ok(false)
            }
            Err(fault) => Err(Fault::Refused(fault)),
        }
    }

    /// Takes the last one off.
    fn pop(&mut self)
        ensures { (e : Entries) (v : Value) → self.old ≡ with_entry e v → self.new ≡ e }
    {
        match self {
            Entries::Numbers(numbers) => {
                numbers.pop();
            }
            Entries::Texts(texts) => texts.pop(),
        }
    }
}

/// The values of a column: which are known, and these with something in the place of each Null.
#[derive(Drop)]
pub struct ColumnCells {
    pub known: Items<bool>,
    pub entries: Entries,
}

impl ColumnCells {
    pub fn new(alloc: Global, kind: Kind) -> ColumnCells
        ensures kind { kind_of result.entries ≡ kind }
        ensures empty { HasCells 0 result }
    {
        ColumnCells {
            known: Items::new(alloc),
            entries: match kind {
                Kind::Int => Entries::Numbers(Items::new(alloc)),
                Kind::Text => Entries::Texts(Texts::new(alloc)),
            },
        }
    }

    /// The value that a field of the column stands for.
    pub fn push(&mut self, column: &Column, field: &[u8]) -> Result<(), Fault<FieldFault>>
        requires { kind_of self.old.entries ≡ column.now.kind }
        ensures read { Reports (λ _. (v : Value) × Stands column.now field.now v × (self.new ≡ with_value self.old v)) (FieldFails column.now field.now) result }
        ensures err { OnErr result (self.new ≡ self.old) }
    {
        let known = self.entries.push(column, field)?;
        if self.known.push(known).is_err() {
            self.entries.pop();
            return Err(Fault::Memory);
        }
        Ok(())
    }

    /// Takes the last value off.
    pub fn pop(&mut self)
        ensures { (c : ColumnCells) (v : Value) → self.old ≡ with_value c v → self.new ≡ c }
    {
        self.known.pop();
        self.entries.pop();
    }

    pub fn cell(&self, row: usize) -> Cell<'_>
        requires known { row < length self.now.known }
        requires entry { row < size_of self.now.entries }
        ensures { value_of result ≡ cell_at self.now row }
    {
        if !self.known.as_slice()[row] {
            return Cell::Null;
        }
        match &self.entries {
            Entries::Numbers(numbers) => Cell::Int(i128::from(numbers.as_slice()[row])),
            Entries::Texts(texts) => Cell::Text(texts.text(row)),
        }
    }

    /// The column's numbers; None where it has texts.
    pub fn numbers(&self) -> Option<Numbers<'_>>
        ensures known { IfSome result (λ c. c.known.now ≡ self.now.known) }
        ensures entries { IfSome result (λ c. self.now.entries ≡ entries.Numbers c.numbers.now) }
    {
        match &self.entries {
            Entries::Numbers(numbers) => Some(Numbers {
                known: self.known.as_slice(),
                numbers: numbers.as_slice(),
            }),
            Entries::Texts(_) => None,
        }
    }

    /// The column's texts; None where it has numbers.
    pub fn texts(&self) -> Option<TextColumn<'_>>
        ensures known { IfSome result (λ c. c.known.now ≡ self.now.known) }
        ensures entries { IfSome result (λ c. self.now.entries ≡ entries.Texts c.texts.now) }
    {
        match &self.entries {
            Entries::Texts(texts) => Some(TextColumn {
                known: self.known.as_slice(),
                texts,
            }),
            Entries::Numbers(_) => None,
        }
    }
}
