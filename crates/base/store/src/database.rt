//! The tables of a schema.

ghost use Rattle.std.specs.Prelude.{◌≡◌, ◌≢◌, ◌<◌, ◌≤◌, List, [], length, map, slice_get, slice_index_or, Some, IfOk, IfErr, OnOk, OnErr, IfSome};
ghost use Rattle.store.specs.Tables.{Record, records_of};
ghost use Rattle.schema.specs.Databases.{Satisfies, most_rows};
ghost use Rattle.store.specs.declared.fault.TableFault.TheVariants as faults;
ghost use Rattle.store.specs.Devices.{Rose};
ghost use Rattle.store.specs.Parsing.{ParsesFile, ReadsTable};
ghost use Rattle.store.specs.Databases.{Loads, ReplacesTable};

use crate::columns::ColumnStore;
use crate::fault::{TableCause, TableFault, TableRefusal};
use crate::input::{InputFault, TableInput};
use crate::reading::parse_input;
use crate::records::Parsed;
use crate::table::Table;
use crate::unique::earliest_repeat;
use schema::Schema;
use std::alloc::{AllocError, Global};
use std::marker::Model;

/// A schema's tables, in its order. They satisfy it.
#[derive(Drop)]
pub struct Database<'s> {
    schema: &'s Schema,
    tables: Vec<Table>,
}

impl<'s> Model for Database<'s> {
    ghost use Rattle.schema.specs.Databases.{Satisfies};
    ghost use Rattle.schema.specs.Databases.{Stored};

    ghost Value = { Stored };

    ghost view = { λ d. record { schema = d.schema.now; tables = d.tables.items } };

    ghost invariant = { λ d. Satisfies d.schema.now d.tables.items };
}

/// The table whose file was parsed so.
fn table_of(alloc: Global, entry: &schema::Table, parsed: Parsed) -> Result<Table, TableFault>
    requires { length parsed.rows ≤ most_rows }
    ensures { (records : List Record) → ParsesFile entry.now.columns records parsed → ReadsTable entry.now records result }
{
    let Ok(found) = earliest_repeat(alloc, &parsed.rows, entry.unique.as_slice()) else {
        return Err(TableFault::Memory);
    };
    if let Some(repeat) = found {
        return Err(TableFault::Refused(TableRefusal {
            row: repeat.row + 1,
            cause: TableCause::Repeated(repeat.earlier + 1),
        }));
    }
    match parsed.fault {
        Some(refusal) => Err(TableFault::Refused(refusal)),
        None => Ok(parsed.rows),
    }
}

/// The entry of the table with this number.
fn entry_of(schema: &Schema, number: usize) -> &schema::Table
    requires { number < length schema.now.tables }
    ensures { slice_get schema.now.tables number ≡ Some result.now }
{
    &schema.tables.as_slice()[number]
}

impl<'s> Database<'s> {
    /// The schema's tables, all of them empty.
    pub fn new(alloc: Global, schema: &'s Schema) -> Result<Database<'s>, AllocError>
        ensures { IfOk result (λ d. d ≡ record { schema = schema.now; tables = map (λ t. []) schema.now.tables }) }
    {
        let mut tables = Vec::new(alloc);
        for entry in schema.tables.as_slice() {
            let columns = ColumnStore::new(alloc, entry.columns.as_slice())?;
            let table = Table::new(columns);
            tables.push(table)?;
        }
        Ok(Database { schema, tables })
    }

    pub fn schema(&self) -> &'s Schema
        ensures { result.now ≡ self.now.schema }
    {
        self.schema
    }

    /// The tables, in the order of the schema.
    pub fn tables(&self) -> &[Table]
        ensures tables { result.now ≡ self.now.tables }
        ensures satisfies { Satisfies self.now.schema self.now.tables }
    {
        self.tables.as_slice()
    }

    /// The table with this number in the schema.
    pub fn table(&self, number: usize) -> &Table
        requires { number < length self.now.tables }
        ensures table { result.now ≡ slice_index_or self.now.tables number [] }
        ensures few { length result.now ≤ most_rows }
        ensures satisfies { Satisfies self.now.schema self.now.tables }
    {
        &self.tables[number]
    }

    /// Replaces a table by the one whose file the input is.
    pub fn load<R: TableInput>(
        &mut self,
        alloc: Global,
        table: usize,
        input: &mut R,
    ) -> Result<(), TableFault>
        requires { table < length self.old.tables }
        ensures exact { IfSome (R.remaining input.old) (λ bytes. Loads self.old self.new table (records_of bytes) result) }
        ensures replaced { OnOk result (ReplacesTable self.old self.new table) }
        ensures schema { self.new.schema ≡ self.old.schema }
        ensures size { length self.new.tables ≡ length self.old.tables }
        ensures err { OnErr result (self.new ≡ self.old) }
        ensures quiet { OnOk result (R.failures input.new ≡ R.failures input.old) }
        // The device is reported exactly where a call of it failed.
        ensures refused { IfErr result (λ e. e ≢ faults.Device → R.failures input.new ≡ R.failures input.old) }
        ensures device { IfErr result (λ e. e ≡ faults.Device → Rose (R.failures input.old) (R.failures input.new)) }
    {
        let entry = entry_of(self.schema, table);
        let parsed = match parse_input(alloc, entry.columns.as_slice(), input) {
            Ok(parsed) => parsed,
            Err(InputFault::Memory) => return Err(TableFault::Memory),
            Err(InputFault::Device) => return Err(TableFault::Device),
        };
        let loaded = table_of(alloc, entry, parsed)?;
        self.tables[table] = loaded;
        Ok(())
    }
}
