//! Where in its text a schema is refused.

ghost use Rattle.std.specs.Prelude.{IfOk, string_bytes};
ghost use Rattle.input_hints.specs.Lines.{AreLines};

use crate::foreign::mark_there;
use crate::json::{
    Halt, element_place, elements, expect_array, expect_keys, expect_member, fault_at,
    member_place, said_of, unwanted, value_of,
};
use schema::{Schema, SchemaRefusal};
use serde_json::Value;
use std::alloc::{AllocError, Global};
use words::quoted_front;

/// The keys of a table, and those of a column.
const TABLE_KEYS: &[&str] = &["name", "columns", "unique", "indexes"];

const COLUMN_KEYS: &[&str] = &["name", "kind", "not_null"];

/// The members of a table that are lists of names.
const LISTS: [&str; 2] = ["unique", "indexes"];

/// How many of each a schema may have at most.
const MOST_TABLES: usize = 64;

const MOST_COLUMNS: usize = 64;

const MOST_LISTS: usize = 16;

const MOST_NAMES: usize = 8;

/// Whether a schema may have this name, which is asked of a schema of one table.
fn is_name(alloc: Global, name: &Value) -> Result<bool, AllocError> {
    let name = name.to_string(alloc)?;
    let text = format!(in alloc;
        "{{\"tables\":[{{\"name\":{name},\"columns\":[{{\"name\":\"c\",\"kind\":\"INT\",\"not_null\":true}}],\"unique\":[],\"indexes\":[]}}]}}"
    )?;
    Ok(Schema::read(alloc, text.as_bytes()).is_ok())
}

fn expect_name(alloc: Global, place: &str, value: &Value) -> Result<(), Halt> {
    if value.is_string() && is_name(alloc, value)? {
        return Ok(());
    }
    Err(unwanted(
        alloc,
        place,
        value,
        "a name (a small letter or _, then such letters and digits, at most 63 bytes and no reserved word of SQL)",
    ))
}

/// The name of a table or a column.
fn expect_own_name(alloc: Global, place: &str, value: &Value) -> Result<(), Halt> {
    let name = expect_member(alloc, place, value, "name")?;
    expect_name(alloc, member_place(alloc, place, "name")?.as_str(), name)
}

fn expect_column(alloc: Global, place: &str, column: &Value) -> Result<(), Halt> {
    expect_keys(alloc, place, column, COLUMN_KEYS)?;
    expect_own_name(alloc, place, column)?;
    let kind = expect_member(alloc, place, column, "kind")?;
    if !matches!(kind.as_str(), Some("INT" | "TEXT")) {
        let place = member_place(alloc, place, "kind")?;
        return Err(unwanted(alloc, place.as_str(), kind, "\"INT\" or \"TEXT\""));
    }
    let flag = expect_member(alloc, place, column, "not_null")?;
    if !flag.is_boolean() {
        let place = member_place(alloc, place, "not_null")?;
        return Err(unwanted(alloc, place.as_str(), flag, "true or false"));
    }
    Ok(())
}

/// The elements of an array that is to have one at least.
fn expect_some<'v>(alloc: Global, place: &str, value: &'v Value) -> Result<&'v [Value], Halt> {
    let elements = expect_array(alloc, place, value)?;
    if elements.is_empty() {
        return Err(fault_at(
            alloc,
            place,
            "it is empty, and one element at least is wanted",
        ));
    }
    Ok(elements)
}

/// The lists of names that a member of a table is.
fn expect_lists(alloc: Global, place: &str, table: &Value, key: &str) -> Result<(), Halt> {
    let lists = expect_member(alloc, place, table, key)?;
    let place = member_place(alloc, place, key)?;
    for (number, list) in expect_array(alloc, place.as_str(), lists)?
        .iter()
        .enumerate()
    {
        let place = element_place(alloc, place.as_str(), number)?;
        for (number, name) in expect_some(alloc, place.as_str(), list)?.iter().enumerate() {
            let place = element_place(alloc, place.as_str(), number)?;
            expect_name(alloc, place.as_str(), name)?;
        }
    }
    Ok(())
}

fn expect_table(alloc: Global, place: &str, table: &Value) -> Result<(), Halt> {
    expect_keys(alloc, place, table, TABLE_KEYS)?;
    expect_own_name(alloc, place, table)?;
    let columns = expect_member(alloc, place, table, "columns")?;
    let columns_place = member_place(alloc, place, "columns")?;
    let columns = expect_some(alloc, columns_place.as_str(), columns)?;
    for (number, column) in columns.iter().enumerate() {
        let place = element_place(alloc, columns_place.as_str(), number)?;
        expect_column(alloc, place.as_str(), column)?;
    }
    for key in LISTS {
        expect_lists(alloc, place, table, key)?;
    }
    Ok(())
}

/// That the schema is of the shape that is wanted.
fn expect_schema(alloc: Global, schema: &Value) -> Result<(), Halt> {
    expect_keys(alloc, "", schema, &["tables"])?;
    let tables = expect_member(alloc, "", schema, "tables")?;
    for (number, table) in expect_array(alloc, "tables", tables)?.iter().enumerate() {
        let place = element_place(alloc, "tables", number)?;
        expect_table(alloc, place.as_str(), table)?;
    }
    Ok(())
}

/// That an array isn't too long.
fn expect_few(alloc: Global, place: &str, elements: &[Value], most: usize) -> Result<(), Halt> {
    let count = elements.len();
    if count <= most {
        return Ok(());
    }
    let what = format!(in alloc; "{count} stand there, and {most} at most are wanted")?;
    Err(fault_at(alloc, place, what.as_str()))
}

/// That a table's parts are not too many.
fn expect_few_parts(alloc: Global, place: &str, table: &Value) -> Result<(), Halt> {
    let columns = member_place(alloc, place, "columns")?;
    expect_few(
        alloc,
        columns.as_str(),
        elements(table, "columns"),
        MOST_COLUMNS,
    )?;
    for key in LISTS {
        let place = member_place(alloc, place, key)?;
        let lists = elements(table, key);
        expect_few(alloc, place.as_str(), lists, MOST_LISTS)?;
        for (number, list) in lists.iter().enumerate() {
            if let Some(names) = list.as_array() {
                let place = element_place(alloc, place.as_str(), number)?;
                expect_few(alloc, place.as_str(), names.as_slice(), MOST_NAMES)?;
            }
        }
    }
    Ok(())
}

/// The name that an element bears, or is.
fn name_of(element: &Value) -> Option<&str> {
    match element.get("name") {
        Some(name) => name.as_str(),
        None => element.as_str(),
    }
}

/// That no two elements have one name.
fn expect_different(alloc: Global, place: &str, elements: &[Value]) -> Result<(), Halt> {
    for (number, element) in elements.iter().enumerate() {
        let Some(name) = name_of(element) else {
            continue;
        };
        let earlier = elements
            .iter()
            .take(number)
            .position(|other| name_of(other) == Some(name));
        if let Some(earlier) = earlier {
            let name = quoted_front(alloc, name.as_bytes())?;
            let what = format!(in alloc; "the name {name} stands at {place}[{earlier}] already")?;
            let place = element_place(alloc, place, number)?;
            return Err(fault_at(alloc, place.as_str(), what.as_str()));
        }
    }
    Ok(())
}

/// That no name stands twice in a table.
fn expect_different_parts(alloc: Global, place: &str, table: &Value) -> Result<(), Halt> {
    let columns = member_place(alloc, place, "columns")?;
    expect_different(alloc, columns.as_str(), elements(table, "columns"))?;
    for key in LISTS {
        let place = member_place(alloc, place, key)?;
        for (number, list) in elements(table, key).iter().enumerate() {
            if let Some(names) = list.as_array() {
                let place = element_place(alloc, place.as_str(), number)?;
                expect_different(alloc, place.as_str(), names.as_slice())?;
            }
        }
    }
    Ok(())
}

/// That a name is that of a column.
fn expect_known(alloc: Global, place: &str, table: &Value, name: &Value) -> Result<(), Halt> {
    let columns = elements(table, "columns");
    let Some(name) = name.as_str() else {
        return Ok(());
    };
    if columns.iter().any(|column| name_of(column) == Some(name)) {
        return Ok(());
    }
    let name = quoted_front(alloc, name.as_bytes())?;
    let mut what = format!(in alloc; "the table has no column {name}; it has ")?;
    for (number, column) in columns.iter().enumerate() {
        what.push_str(if number > 0 { ", " } else { "" })?;
        what.push_str(name_of(column).unwrap_or(""))?;
    }
    Err(fault_at(alloc, place, what.as_str()))
}

/// That the lists of a table name its columns.
fn expect_known_names(alloc: Global, place: &str, table: &Value) -> Result<(), Halt> {
    for key in LISTS {
        let place = member_place(alloc, place, key)?;
        for (number, list) in elements(table, key).iter().enumerate() {
            let place = element_place(alloc, place.as_str(), number)?;
            if let Some(names) = list.as_array() {
                for (number, name) in names.as_slice().iter().enumerate() {
                    let place = element_place(alloc, place.as_str(), number)?;
                    expect_known(alloc, place.as_str(), table, name)?;
                }
            }
        }
    }
    Ok(())
}

/// The first place that is refused for this reason.
fn walk(alloc: Global, schema: &Value, refusal: SchemaRefusal) -> Result<(), Halt> {
    let tables = elements(schema, "tables");
    match refusal {
        SchemaRefusal::NotJson => return Ok(()),
        SchemaRefusal::Shape => return expect_schema(alloc, schema),
        SchemaRefusal::TooMany => expect_few(alloc, "tables", tables, MOST_TABLES)?,
        SchemaRefusal::Repeated => expect_different(alloc, "tables", tables)?,
        SchemaRefusal::UnknownColumn => {}
    }
    for (number, table) in tables.iter().enumerate() {
        let place = element_place(alloc, "tables", number)?;
        match refusal {
            SchemaRefusal::NotJson | SchemaRefusal::Shape => {}
            SchemaRefusal::TooMany => expect_few_parts(alloc, place.as_str(), table)?,
            SchemaRefusal::Repeated => expect_different_parts(alloc, place.as_str(), table)?,
            SchemaRefusal::UnknownColumn => expect_known_names(alloc, place.as_str(), table)?,
        }
    }
    Ok(())
}

/// Where in its text a schema is refused for this reason: the first place, with what stands there and what is wanted, in a line of its own.
/// Nothing of a text that is no JSON, or where no place is found.
#[tactic(auto, unfolding(crate::specs::Lines::AreLines))]
pub fn schema_there(
    alloc: Global,
    text: &[u8],
    refusal: SchemaRefusal,
) -> Result<String, AllocError>
    ensures { IfOk result (λ said. AreLines (string_bytes said)) }
{
    match value_of(alloc, text)? {
        Some(schema) => said_of(alloc, walk(alloc, &schema, refusal)),
        None => mark_there(alloc, text),
    }
}
