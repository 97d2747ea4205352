//! Copies of a table's entry.

ghost use Rattle.std.specs.Prelude.{◌≡◌, IfOk};

use crate::schema::{Column, Table};
use std::alloc::{AllocError, Global};
use values::Items;

impl Column {
    pub fn copy(&self, alloc: Global) -> Result<Column, AllocError>
        ensures { IfOk result (λ c. c ≡ self.now) }
    {
        Ok(Column {
            name: self.name.copy(alloc)?,
            kind: self.kind,
            not_null: self.not_null,
        })
    }
}

impl Table {
    pub fn copy(&self, alloc: Global) -> Result<Table, AllocError>
        ensures { IfOk result (λ t. t ≡ self.now) }
    {
        Ok(Table {
            name: self.name.copy(alloc)?,
            columns: copy_columns(alloc, self.columns.as_slice())?,
            unique: copy_lists(alloc, self.unique.as_slice())?,
            indexes: copy_lists(alloc, self.indexes.as_slice())?,
        })
    }
}

pub fn copy_columns(alloc: Global, columns: &[Column]) -> Result<Items<Column>, AllocError>
    ensures { IfOk result (λ copied. copied ≡ columns.now) }
{
    let mut copied = Items::new(alloc);
    for column in columns {
        copied.push(column.copy(alloc)?)?;
    }
    Ok(copied)
}

fn copy_lists(alloc: Global, lists: &[Items<usize>]) -> Result<Items<Items<usize>>, AllocError>
    ensures { IfOk result (λ copied. copied ≡ lists.now) }
{
    let mut copied = Items::new(alloc);
    for list in lists {
        copied.push(Items::from_slice(alloc, list.as_slice())?)?;
    }
    Ok(copied)
}
