//! Where in their text statistics are refused.

ghost use Rattle.std.specs.Prelude.{IfOk, string_bytes};
ghost use Rattle.input_hints.specs.Lines.{AreLines};

use crate::foreign::mark_there;
use crate::json::{
    Halt, element_place, expect_array, expect_first_keys, expect_keys, expect_member, fault_at,
    member_place, said_of, unwanted, value_of,
};
use schema::{Schema, Table};
use serde_json::Value;
use statistics::StatisticsRefusal;
use std::alloc::{AllocError, Global};

/// The keys of a table, the last of which may be missing, those of an index, and that of a column.
const TABLE_KEYS: &[&str] = &["rows", "pages", "indexes", "columns"];

const NEEDED_TABLE_KEYS: usize = 3;

const INDEX_KEYS: &[&str] = &["keys", "pages"];

const COLUMN_KEYS: &[&str] = &["keys"];

/// A member that is to be a whole number.
fn expect_number(alloc: Global, place: &str, value: &Value, key: &str) -> Result<(), Halt> {
    let number = expect_member(alloc, place, value, key)?;
    if number.as_u64().is_some() {
        return Ok(());
    }
    let place = member_place(alloc, place, key)?;
    Err(unwanted(
        alloc,
        place.as_str(),
        number,
        "a whole number from 0 to 18446744073709551615",
    ))
}

/// The entries of as many indexes as the schema declares.
fn expect_indexes(alloc: Global, place: &str, table: &Table, entry: &Value) -> Result<(), Halt> {
    let indexes = expect_member(alloc, place, entry, "indexes")?;
    let place = member_place(alloc, place, "indexes")?;
    let indexes = expect_array(alloc, place.as_str(), indexes)?;
    let count = indexes.len();
    let wanted = table.indexes.len();
    if count != wanted {
        let what = format!(in alloc;
            "{count} stand there, and the schema has {wanted} of that table"
        )?;
        return Err(fault_at(alloc, place.as_str(), what.as_str()));
    }
    for (number, index) in indexes.iter().enumerate() {
        let place = element_place(alloc, place.as_str(), number)?;
        expect_keys(alloc, place.as_str(), index, INDEX_KEYS)?;
        for key in INDEX_KEYS {
            expect_number(alloc, place.as_str(), index, key)?;
        }
    }
    Ok(())
}

/// The entries of columns, each at the name of one of the table's.
fn expect_columns(alloc: Global, place: &str, table: &Table, columns: &Value) -> Result<(), Halt> {
    let mut names = Vec::new(alloc);
    for column in table.columns.as_slice() {
        names.push(column.name.as_str())?;
    }
    let place = member_place(alloc, place, "columns")?;
    expect_first_keys(alloc, place.as_str(), columns, names.as_slice(), 0)?;
    for name in names.as_slice() {
        if let Some(column) = columns.get(*name) {
            let place = member_place(alloc, place.as_str(), name)?;
            expect_keys(alloc, place.as_str(), column, COLUMN_KEYS)?;
            expect_number(alloc, place.as_str(), column, "keys")?;
        }
    }
    Ok(())
}

/// The entry of a table.
fn expect_table(alloc: Global, table: &Table, entries: &Value) -> Result<(), Halt> {
    let name = table.name.as_str();
    let entry = expect_member(alloc, "tables", entries, name)?;
    let place = member_place(alloc, "tables", name)?;
    expect_first_keys(alloc, place.as_str(), entry, TABLE_KEYS, NEEDED_TABLE_KEYS)?;
    expect_number(alloc, place.as_str(), entry, "rows")?;
    expect_number(alloc, place.as_str(), entry, "pages")?;
    expect_indexes(alloc, place.as_str(), table, entry)?;
    match entry.get("columns") {
        Some(columns) => expect_columns(alloc, place.as_str(), table, columns),
        None => Ok(()),
    }
}

/// That the statistics are of the shape that is wanted.
fn expect_statistics(alloc: Global, schema: &Schema, statistics: &Value) -> Result<(), Halt> {
    expect_keys(alloc, "", statistics, &["tables"])?;
    let entries = expect_member(alloc, "", statistics, "tables")?;
    let tables = schema.tables.as_slice();
    let mut names = Vec::new(alloc);
    for table in tables {
        names.push(table.name.as_str())?;
    }
    expect_keys(alloc, "tables", entries, names.as_slice())?;
    for table in tables {
        expect_table(alloc, table, entries)?;
    }
    Ok(())
}

/// Where in their text statistics are refused for this reason: the first place, with what stands there and what is wanted, in a line of its
/// own. Nothing of a text that is no JSON, or where no place is found.
#[tactic(auto, unfolding(crate::specs::Lines::AreLines))]
pub fn statistics_there(
    alloc: Global,
    schema: &Schema,
    text: &[u8],
    refusal: StatisticsRefusal,
) -> Result<String, AllocError>
    ensures { IfOk result (λ said. AreLines (string_bytes said)) }
{
    match refusal {
        StatisticsRefusal::NotJson => mark_there(alloc, text),
        StatisticsRefusal::Shape => match value_of(alloc, text)? {
            Some(statistics) => said_of(alloc, expect_statistics(alloc, schema, &statistics)),
            None => Ok(String::new(alloc)),
        },
    }
}
