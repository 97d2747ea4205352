//! Schemas read from JSON, and the codes of other bytes.

use fixtures::{COMPANY, Reporting, differences, push_number, schema_of, spelt};
use schema::{Column, Kind, Schema, Table};
use std::alloc::{AllocError, Global};
use std::process::Abort;
use values::{Fault, Items};

// ---- schemas as texts

fn push_column(reported: &mut String, column: &Column) -> Result<(), AllocError> {
    reported.push_str(" ")?;
    reported.push_str(column.name.as_str())?;
    reported.push_str(match column.kind {
        Kind::Int => " INT",
        Kind::Text => " TEXT",
    })?;
    reported.push_str(if column.not_null { " NOT NULL," } else { "," })
}

/// The lists, each after ` (`.
fn push_lists(reported: &mut String, lists: &[Items<usize>]) -> Result<(), AllocError> {
    for list in lists {
        reported.push_str(" (")?;
        for place in list.as_slice() {
            push_number(reported, " ", *place)?;
        }
        reported.push_str(" )")?;
    }
    Ok(())
}

fn push_table(reported: &mut String, table: &Table) -> Result<(), AllocError> {
    reported.push_str(table.name.as_str())?;
    reported.push_str(":")?;
    for column in table.columns.as_slice() {
        push_column(reported, column)?;
    }
    reported.push_str(" unique")?;
    push_lists(reported, table.unique.as_slice())?;
    reported.push_str(", indexed")?;
    push_lists(reported, table.indexes.as_slice())?;
    reported.push_str("; ")
}

/// Reports copies of a schema's tables.
fn push_schema(alloc: Global, reported: &mut String, schema: &Schema) -> Result<(), AllocError> {
    for table in schema.tables.as_slice() {
        let copy = table.copy(alloc)?;
        push_table(reported, &copy)?;
    }
    Ok(())
}

fn company_reported(alloc: Global) -> Result<String, AllocError> {
    let mut reported = String::new(alloc);
    let schema = schema_of(alloc, COMPANY)?;
    push_schema(alloc, &mut reported, &schema)?;
    Ok(reported)
}

#[test]
fn a_schema_is_read(rt: HostRuntime) {
    assert_eq!(rt;
        company_reported(rt.alloc()).as_deref(),
        Ok(
            "dept: id INT NOT NULL, name TEXT NOT NULL, boss INT, unique ( 0 ), indexed; emp: id INT NOT NULL, dept INT, pay INT, badge INT, unique ( 0 ) ( 3 ), indexed ( 1 0 ); "
        )
    );
}

// ---- codes

/// How a text reads: the code of its refusal, or `schema`.
fn code_of(alloc: Global, bytes: &[u8]) -> &'static str {
    match Schema::read(alloc, bytes) {
        Ok(_) => "schema",
        Err(Fault::Memory) => "memory",
        Err(Fault::Refused(refusal)) => refusal.code(),
    }
}

/// Reports how what a text spells reads between two other texts.
#[derive(Drop)]
struct Codes<'a> {
    front: &'a str,
    back: &'a str,
}

impl Reporting for Codes<'_> {
    fn report(&self, alloc: Global, text: &str, reported: &mut String) -> Result<(), AllocError> {
        let mut bytes = spelt(alloc, self.front)?;
        bytes.extend_from_slice(spelt(alloc, text)?.as_slice())?;
        bytes.extend_from_slice(self.back.as_bytes())?;
        reported.push_str(code_of(alloc, bytes.as_slice()))
    }
}

fn are_read(rt: &impl Abort, alloc: Global, front: &str, cases: &str, back: &str) {
    assert_eq!(rt;
        differences(alloc, &[cases], &Codes { front, back }).as_deref(),
        Ok("")
    );
}

/// The last of two members with one key is the one that counts.
#[test]
fn other_bytes_are_refused(rt: HostRuntime) {
    const CASES: &str = r#" => S01
{"tables":[] => S01
{"tables":["^"]} => S01
{"tables":[]} 1 => S01
{"tables":[]} => schema
[] => S02
{} => S02
{"tables":{}} => S02
{"tables":[],"views":[]} => S02
{"tables":[1]} => S02
{"tables":1,"tables":[]} => schema
{"tables":[],"tables":1} => S02"#;
    const MARKED: &str = "\u{FEFF}{\"tables\":[]} => S01";
    are_read(&rt, rt.alloc(), "", CASES, "");
    are_read(&rt, rt.alloc(), "", MARKED, "");
}

#[test]
fn other_names_are_refused(rt: HostRuntime) {
    const FRONT: &str = r#"{"tables":[{"name":"#;
    const CASES: &str = r#""t" => schema
"_t1" => schema
"T" => S02
"1t" => S02
"" => S02
"t-" => S02
"select" => S02
"max" => S02
"selects" => schema
"a23456789012345678901234567890123456789012345678901234567890123" => schema
"a234567890123456789012345678901234567890123456789012345678901234" => S02
7 => S02"#;
    const BACK: &str =
        r#","columns":[{"name":"a","kind":"INT","not_null":true}],"unique":[],"indexes":[]}]}"#;
    are_read(&rt, rt.alloc(), FRONT, CASES, BACK);
}

#[test]
fn other_columns_are_refused(rt: HostRuntime) {
    const FRONT: &str = r#"{"tables":[{"name":"t","columns":["#;
    const CASES: &str = r#" => S02
{"name":"order","kind":"INT","not_null":true} => S02
{"name":"a","kind":"int","not_null":true} => S02
{"name":"a","kind":"INT","not_null":1} => S02
{"name":"a","kind":"INT"} => S02
{"name":"a","kind":"INT","not_null":true,"x":1} => S02
{"name":"a","kind":"INT","not_null":true},{"name":"a","kind":"TEXT","not_null":true} => S03"#;
    const BACK: &str = r#"],"unique":[],"indexes":[]}]}"#;
    are_read(&rt, rt.alloc(), FRONT, CASES, BACK);
}

/// A name that repeats is reported before one that is unknown, and too many before either.
#[test]
fn other_lists_are_refused(rt: HostRuntime) {
    const FRONT: &str =
        r#"{"tables":[{"name":"t","columns":[{"name":"a","kind":"INT","not_null":true},{"name":"b","kind":"INT","not_null":true}],"#;
    const CASES: &str = r#""unique":[["a"],["a"],["b","a"]],"indexes":[] => schema
"unique":[],"indexes":[["b"]] => schema
"unique":{},"indexes":[] => S02
"unique":[[]],"indexes":[] => S02
"unique":[],"indexes":[[]] => S02
"unique":["a"],"indexes":[] => S02
"unique":[["A"]],"indexes":[] => S02
"unique":[["a","a"]],"indexes":[] => S03
"unique":[],"indexes":[["b","a","b"]] => S03
"unique":[["c"]],"indexes":[] => S04
"unique":[],"indexes":[["a"],["b","c"]] => S04
"unique":[["c"]],"indexes":[["a","a"]] => S03
"unique":[["c"]],"indexes":[["a","b","a","b","a","b","a","b","a"]] => S05
"unique":[["a","b","a","b","a","b","a","b","a"]],"indexes":[[]] => S02"#;
    const BACK: &str = r#"}]}"#;
    are_read(&rt, rt.alloc(), FRONT, CASES, BACK);
}

/// Each text has two faults, of which the first code in the order S01, S02, S05, S03, S04 is reported.
#[test]
fn the_first_code_is_reported(rt: HostRuntime) {
    const FRONT: &str =
        r#"{"tables":[{"name":"t","columns":[{"name":"a","kind":"INT","not_null":true},{"name":"b","kind":"INT","not_null":true}],"#;
    const CASES: &str = r#""unique":[["A"]],"indexes":[} => S01
"unique":[["A"]],"indexes":["a","b","a","b","a","b","a","b","a"] => S02
"unique":[["a","a"]],"indexes":[["A"]] => S02
"unique":[["c"]],"indexes":[["A"]] => S02
"unique":[["a","a"]],"indexes":[["b","a","b","a","b","a","b","a","b"]] => S05
"unique":[["c","b","c","b","c","b","c","b","c"]],"indexes":[] => S05
"unique":[["c"]],"indexes":[["a","a"]] => S03
"unique":[["c","c"]],"indexes":[] => S03
"unique":[["c"]],"indexes":[["a"]] => S04"#;
    const BACK: &str = r#"}]}"#;
    are_read(&rt, rt.alloc(), FRONT, CASES, BACK);
}

#[test]
fn sizes_are_bounded(rt: HostRuntime) {
    const FRONT: &str = r#"{"tables":["#;
    const CASES: &str =
        r#"{"name":"t","columns":[{"name":"x","kind":"TEXT","not_null":false}],"unique":[],"indexes":[]}|63*,{"name":"t#","columns":[{"name":"x","kind":"TEXT","not_null":false}],"unique":[],"indexes":[]}| => schema
{"name":"t","columns":[{"name":"x","kind":"TEXT","not_null":false}],"unique":[],"indexes":[]}|64*,{"name":"t#","columns":[{"name":"x","kind":"TEXT","not_null":false}],"unique":[],"indexes":[]}| => S05
{"name":"t","columns":[{"name":"x","kind":"TEXT","not_null":false}|63*,{"name":"c#","kind":"TEXT","not_null":false}|],"unique":[],"indexes":[]} => schema
{"name":"t","columns":[{"name":"x","kind":"TEXT","not_null":false}|64*,{"name":"c#","kind":"TEXT","not_null":false}|],"unique":[],"indexes":[]} => S05
{"name":"t","columns":[{"name":"x","kind":"TEXT","not_null":false}],"unique":[["x"]|15*,["x"]|],"indexes":[["x"]|15*,["x"]|]} => schema
{"name":"t","columns":[{"name":"x","kind":"TEXT","not_null":false}],"unique":[["x"]|16*,["x"]|],"indexes":[["x"]|16*,["x"]|]} => S05
{"name":"t","columns":[{"name":"x","kind":"TEXT","not_null":false}|8*,{"name":"c#","kind":"TEXT","not_null":false}|],"unique":[["x"|7*,"c#"|]],"indexes":[["x"|7*,"c#"|]]} => schema
{"name":"t","columns":[{"name":"x","kind":"TEXT","not_null":false}|8*,{"name":"c#","kind":"TEXT","not_null":false}|],"unique":[["x"|8*,"c#"|]],"indexes":[["x"|8*,"c#"|]]} => S05
{"name":"t","columns":[{"name":"a","kind":"INT","not_null":true}],"unique":[["x"]],"indexes":[]},{"name":"t","columns":[{"name":"a","kind":"INT","not_null":true}],"unique":[],"indexes":[]} => S03"#;
    const BACK: &str = r#"]}"#;
    are_read(&rt, rt.alloc(), FRONT, CASES, BACK);
}
