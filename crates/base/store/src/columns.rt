//! Rows that are kept by columns.

ghost use Rattle.std.specs.Prelude.{◌≡◌, ◌≤◌, ◌∷◌, ◌++◌, ◌<◌, List, [], length, map, slice_index_or, IfOk, IfSome, OnErr};
ghost use Rattle.csv.specs.Records.{fields_of};
ghost use Rattle.values.specs.Cells.{value_of};
ghost use Rattle.values.specs.declared.value.Value.TheVariants as value;
ghost use Rattle.schema.specs.Databases.{Row, HaveWidth, most_rows};
ghost use Rattle.store.specs.NumberColumns.{AreNumbersOf};
ghost use Rattle.store.specs.TextColumns.{AreTextsOf};
ghost use Rattle.store.specs.Tables.{StandFor};
ghost use Rattle.store.specs.Parsing.{RowFails, fault_at};
ghost use Rattle.store.specs.Reports.{Reports};
ghost use Rattle.store.specs.StoredColumns.{kind_of, with_row};
ghost use Rattle.store.specs.declared.cells.ColumnCells.{ColumnCells};

use crate::cells::ColumnCells;
use crate::fault::{FieldFault, TableCause};
use crate::numbers::Numbers;
use crate::text_column::TextColumn;
use csv::ByteRecord;
use schema::Column;
use std::alloc::{AllocError, Global};
use std::marker::Model;
use values::{Cell, Fault};

/// Takes the last values off the first columns, as many as `places`.
fn take_back(columns: &mut [ColumnCells], places: usize)
    requires { places ≤ length columns.old }
    ensures { (before : List ColumnCells) (row : Row) → columns.old ≡ with_row before row → length row ≡ places → columns.new ≡ before }
{
    for taken in 0..places {
        columns[places - 1 - taken].pop();
    }
}

/// What is wrong with a record whose field at this place is at fault.
fn cause_at(place: usize, fault: Fault<FieldFault>) -> Fault<TableCause>
    ensures { result ≡ fault_at place fault }
{
    match fault {
        Fault::Memory => Fault::Memory,
        Fault::Refused(wrong) => Fault::Refused(TableCause::Field(place, wrong)),
    }
}

/// The values that a record's fields stand for, each in its column. The columns stay as they were where one is at fault.
fn push_fields(
    columns: &mut [ColumnCells],
    entry: &[Column],
    fields: &ByteRecord,
) -> Result<(), Fault<TableCause>>
    requires { map (λ c. kind_of c.entries) columns.old ≡ map (λ c. c.kind) entry.now }
    ensures read { Reports (λ _. (row : Row) × StandFor entry.now (fields_of fields.now) row × (columns.new ≡ with_row columns.old row)) (RowFails entry.now (fields_of fields.now)) result }
    ensures err { OnErr result (columns.new ≡ columns.old) }
{
    if fields.len() != entry.len() {
        return Err(Fault::Refused(TableCause::OtherLength));
    }
    for place in 0..entry.len() {
        let pushed = match fields.get(place) {
            Some(field) => columns[place].push(&entry[place], field),
            None => return Err(Fault::Refused(TableCause::OtherLength)),
        };
        if let Err(fault) = pushed {
            take_back(columns, place);
            return Err(cause_at(place, fault));
        }
    }
    Ok(())
}

/// Rows and the kinds of their columns.
#[derive(Drop)]
pub struct ColumnStore {
    count: usize,
    columns: Vec<ColumnCells>,
}

impl Model for ColumnStore {
    ghost use Rattle.std.specs.Prelude.{map};
    ghost use Rattle.std.specs.List.{AllByRecursion};
    ghost use Rattle.store.specs.StoredColumns.{Kept, HasCells, kind_of, rows_of};

    ghost Value = { Kept };

    ghost view = { λ t. record { kinds = map (λ c. kind_of c.entries) t.columns.items; rows = rows_of t.columns.items t.count } };

    ghost invariant = { λ t. AllByRecursion (HasCells t.count) t.columns.items };
}

impl ColumnStore {
    /// No row, of columns of the same kinds as these.
    pub fn new(alloc: Global, columns: &[Column]) -> Result<ColumnStore, AllocError>
        ensures { IfOk result (λ t. t ≡ record { kinds = map (λ c. c.kind) columns.now; rows = [] }) }
    {
        let mut kept = Vec::with_capacity(alloc, columns.len())?;
        for column in columns {
            kept.push(ColumnCells::new(alloc, column.kind))?;
        }
        Ok(ColumnStore {
            count: 0,
            columns: kept,
        })
    }

    pub fn len(&self) -> usize
        ensures { result ≡ length self.now.rows }
    {
        self.count
    }

    pub fn width(&self) -> usize
        ensures { HaveWidth result self.now.rows }
    {
        self.columns.as_slice().len()
    }

    /// The rows and the one that a record stands for. They stay as they were where it stands for none.
    pub fn push(&mut self, entry: &[Column], fields: &ByteRecord) -> Result<(), Fault<TableCause>>
        requires kinds { self.old.kinds ≡ map (λ c. c.kind) entry.now }
        requires few { length self.old.rows < most_rows }
        ensures read { Reports (λ _. (row : Row) × StandFor entry.now (fields_of fields.now) row × (self.new ≡ record { kinds = self.old.kinds; rows = self.old.rows ++ row ∷ [] })) (RowFails entry.now (fields_of fields.now)) result }
        ensures err { OnErr result (self.new ≡ self.old) }
    {
        push_fields(self.columns.as_mut_slice(), entry, fields)?;
        self.count += 1;
        Ok(())
    }

    pub fn cell(&self, row: usize, column: usize) -> Cell<'_>
        requires row { row < length self.now.rows }
        requires column { column < length (slice_index_or self.now.rows row []) }
        ensures { value_of result ≡ slice_index_or (slice_index_or self.now.rows row []) column value.Null }
    {
        self.columns.as_slice()[column].cell(row)
    }

    /// The numbers of a column; None where it has texts, or there is none.
    pub fn numbers(&self, column: usize) -> Option<Numbers<'_>>
        ensures { IfSome result (AreNumbersOf self.now.rows column) }
    {
        match self.columns.as_slice().get(column) {
            Some(cells) => cells.numbers(),
            None => None,
        }
    }

    /// The texts of a column; None where it has numbers, or there is none.
    pub fn texts(&self, column: usize) -> Option<TextColumn<'_>>
        ensures { IfSome result (AreTextsOf self.now.rows column) }
    {
        match self.columns.as_slice().get(column) {
            Some(cells) => cells.texts(),
            None => None,
        }
    }
}
