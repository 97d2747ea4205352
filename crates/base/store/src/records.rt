//! Rows read from the records of a table's file.

ghost use Rattle.std.specs.Prelude.{◌≡◌, ◌≤◌, ◌+◌, ◌++◌, ◌↔◌, List, [], None, false, length, is_some, IfOk, OnOk, IsTrue};
ghost use Rattle.schema.specs.Databases.{Row, most_rows};
ghost use Rattle.store.specs.Tables.{records_of};
ghost use Rattle.csv.specs.Records.{fields_of};
ghost use Rattle.store.specs.Reading.{Remains, NextOf};
ghost use Rattle.store.specs.Tables.{Record, names_of};
ghost use Rattle.store.specs.Parsing.{Written, Parses, ParsesFile};
ghost use Rattle.store.specs.Fronts.{FitsEntry, Begins, ParsesFront, ParsesAll};

use crate::columns::ColumnStore;
use crate::fault::{TableCause, TableRefusal};
use crate::source::RowSource;
use crate::table::Table;
use csv::{ByteRecord, Reader, ReaderBuilder};
use schema::Column;
use std::alloc::{AllocError, Global};
use std::io::Read;
use values::Fault;

/// The most rows that a table may have.
pub const MOST_ROWS: usize = 1_000_000;

/// The rows before the first record that is none, and what is wrong with that one.
#[derive(Drop)]
pub struct Parsed {
    pub rows: Table,
    pub fault: Option<TableRefusal>,
}

/// The same of the records so far.
#[derive(Drop)]
pub struct Parsing {
    rows: ColumnStore,
    /// Whether the names of the columns were read.
    named: bool,
    fault: Option<TableRefusal>,
}

/// Whether there is a next record, which is then in `fields`. Over bytes in memory only running out of memory fails.
fn next_of<R: Read>(reader: &mut Reader<R>, fields: &mut ByteRecord) -> Result<bool, AllocError>
    ensures { (rest : List Record) → Remains R.remaining reader.old rest
        → IfOk result (λ found. NextOf rest found (fields_of fields.new) (λ more. Remains R.remaining reader.new more)) }
{
    if let Ok(found) = reader.read_byte_record(fields) {
        return Ok(found);
    }
    Err(AllocError)
}

/// Whether the record's fields are the names of the columns, in order.
fn is_header(columns: &[Column], fields: &ByteRecord) -> bool
    ensures { IsTrue result ↔ (fields_of fields.now ≡ names_of columns.now) }
{
    if fields.len() != columns.len() {
        return false;
    }
    for place in 0..columns.len() {
        let Some(field) = fields.get(place) else {
            return false;
        };
        let name = columns[place].name.as_str();
        if field != name.as_bytes() {
            return false;
        }
    }
    true
}

/// What is wrong with the record after so many rows.
fn refusal(rows: usize, cause: TableCause) -> TableRefusal
    requires { rows ≤ most_rows }
    ensures { result ≡ record { row = rows + 1; cause = cause } }
{
    TableRefusal {
        row: rows + 1,
        cause,
    }
}

/// Adds the rows of the records that are left, each read into `fields`, and tells what is wrong with the one after them.
fn rows_of<R: Read>(
    columns: &[Column],
    reader: &mut Reader<R>,
    fields: &mut ByteRecord,
    rows: &mut ColumnStore,
) -> Result<Option<TableRefusal>, AllocError>
    requires { FitsEntry columns.now rows.old }
    ensures fits { OnOk result (FitsEntry columns.now rows.new) }
    ensures read { (records rest : List Record) → Written columns.now records rows.old.rows rest → Remains R.remaining reader.old rest
        → IfOk result (λ fault. Parses columns.now records (record { rows = rows.new.rows; fault = fault })) }
{
    while rows.len() < MOST_ROWS {
        if !next_of(reader, fields)? {
            return Ok(None);
        }
        match rows.push(columns, fields) {
            Ok(()) => {}
            Err(Fault::Memory) => return Err(AllocError),
            Err(Fault::Refused(cause)) => return Ok(Some(refusal(rows.len(), cause))),
        }
    }
    if !next_of(reader, fields)? {
        return Ok(None);
    }
    Ok(Some(refusal(rows.len(), TableCause::TooMany)))
}

/// What is wrong with a file that doesn't begin with the names of the columns.
fn other_header() -> TableRefusal
    ensures { result ≡ record { row = 0; cause = TableCause.OtherHeader } }
{
    TableRefusal {
        row: 0,
        cause: TableCause::OtherHeader,
    }
}

/// What is wrong with a file whose records end here.
fn fault_at_end(named: bool, fault: Option<TableRefusal>) -> Option<TableRefusal>
    ensures { (cs : List Column) (records : List Record) (rows : List Row) → length rows ≤ most_rows
        → ParsesAll cs records named rows fault → ParsesFile cs records (record { rows = rows; fault = result }) }
{
    match fault {
        Some(refusal) => Some(refusal),
        None => { if named { None } else { Some(other_header()) } }
    }
}

impl Parsing {
    /// Nothing of a file for these columns.
    pub fn new(alloc: Global, columns: &[Column]) -> Result<Parsing, AllocError>
        ensures fits { IfOk result (λ p. FitsEntry columns.now p.rows) }
        ensures none { IfOk result (λ p. (p.fault ≡ None) × (p.named ≡ false) × (p.rows.rows ≡ [])) }
    {
        let rows = ColumnStore::new(alloc, columns)?;
        Ok(Parsing {
            rows,
            named: false,
            fault: None,
        })
    }

    /// Whether a record was at fault, so that no later one matters.
    pub fn has_fault(&self) -> bool
        ensures { result ≡ is_some self.now.fault }
    {
        self.fault.is_some()
    }

    /// Adds the rows of the records that are left, each read into `fields`.
    fn take_rows<R: Read>(
        &mut self,
        columns: &[Column],
        reader: &mut Reader<R>,
        fields: &mut ByteRecord,
    ) -> Result<(), AllocError>
        requires { FitsEntry columns.now self.old.rows }
        ensures fits { OnOk result (FitsEntry columns.now self.new.rows) }
        ensures named { OnOk result (self.new.named ≡ self.old.named) }
        ensures read { (records rest : List Record) → Written columns.now records self.old.rows.rows rest → Remains R.remaining reader.old rest
            → OnOk result (Parses columns.now records (record { rows = self.new.rows.rows; fault = self.new.fault })) }
    {
        self.fault = rows_of(columns, reader, fields, &mut self.rows)?;
        Ok(())
    }

    /// The same of a file's first records, of which the first must be the names of the columns.
    fn take_first<R: Read>(
        &mut self,
        columns: &[Column],
        reader: &mut Reader<R>,
        fields: &mut ByteRecord,
    ) -> Result<(), AllocError>
        requires fits { FitsEntry columns.now self.old.rows }
        requires open { self.old.fault ≡ None }
        requires none { self.old.named ≡ false }
        ensures fits { OnOk result (FitsEntry columns.now self.new.rows) }
        ensures read { (rest : List Record) → self.old.rows.rows ≡ [] → Remains R.remaining reader.old rest
            → OnOk result (ParsesFront columns.now rest self.new.named self.new.rows.rows self.new.fault) }
    {
        if !next_of(reader, fields)? {
            return Ok(());
        }
        if !is_header(columns, fields) {
            self.fault = Some(other_header());
            return Ok(());
        }
        self.named = true;
        self.take_rows(columns, reader, fields)
    }

    /// Parses the records that are left, which are the next of a file, each read into `fields`.
    fn take_records<R: Read>(
        &mut self,
        columns: &[Column],
        reader: &mut Reader<R>,
        fields: &mut ByteRecord,
    ) -> Result<(), AllocError>
        requires fits { FitsEntry columns.now self.old.rows }
        requires open { self.old.fault ≡ None }
        ensures fits { OnOk result (FitsEntry columns.now self.new.rows) }
        ensures read { (records rest : List Record) → Begins columns.now records self.old.named self.old.rows.rows → Remains R.remaining reader.old rest
            → OnOk result (ParsesFront columns.now (records ++ rest) self.new.named self.new.rows.rows self.new.fault) }
    {
        if self.named {
            self.take_rows(columns, reader, fields)
        } else {
            self.take_first(columns, reader, fields)
        }
    }

    /// Parses the next records of a file, which are those of these bytes.
    pub fn take(
        &mut self,
        alloc: Global,
        columns: &[Column],
        bytes: &[u8],
    ) -> Result<(), AllocError>
        requires fits { FitsEntry columns.now self.old.rows }
        requires open { self.old.fault ≡ None }
        ensures fits { OnOk result (FitsEntry columns.now self.new.rows) }
        ensures read { (records : List Record) → Begins columns.now records self.old.named self.old.rows.rows
            → OnOk result (ParsesFront columns.now (records ++ records_of bytes.now) self.new.named self.new.rows.rows self.new.fault) }
    {
        let mut reader = ReaderBuilder::new()
            .has_headers(false)
            .flexible(true)
            .from_reader(alloc, bytes);
        let mut fields = ByteRecord::new(alloc);
        self.take_records(columns, &mut reader, &mut fields)
    }

    /// What was parsed, where no record is left.
    pub fn end(self) -> Parsed
        ensures { (cs : List Column) (records : List Record) → length self.rows.rows ≤ most_rows
            → ParsesAll cs records self.named self.rows.rows self.fault → ParsesFile cs records result }
    {
        let Parsing { rows, named, fault } = self;
        Parsed {
            rows: Table::new(rows),
            fault: fault_at_end(named, fault),
        }
    }
}
