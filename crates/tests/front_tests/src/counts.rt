//! Statistics read from JSON, the codes of other bytes, and statistics of loaded tables.

use crate::files::{outcome, push_outcome};
use fixtures::{
    COMPANY, DEPT, EMP, Reporting, StepReporting, differences, report_steps, schema_of, spelt,
};
use schema::Schema;
use statistics::{Statistics, TableColumn, TableStatistics};
use std::alloc::{AllocError, Global};
use std::fmt::Write;
use std::process::Abort;
use store::Database;
use values::Fault;

// ---- statistics as texts

/// Reports a table's rows and pages, behind each ` /` an index's keys and pages, and behind each ` c` a column that is known, by its place,
/// and its keys.
fn push_table(reported: &mut String, table: &TableStatistics) -> Result<(), AllocError> {
    write!(reported, "{} {}", table.rows, table.pages)?;
    for index in table.indexes.as_slice() {
        write!(reported, " / {} {}", index.keys, index.pages)?;
    }
    for (place, keys) in table.column_keys.as_slice().iter().enumerate() {
        if let Some(keys) = keys {
            write!(reported, " c{place} {keys}")?;
        }
    }
    Ok(())
}

/// Reports the tables with ` ; ` between them.
fn push_statistics(reported: &mut String, statistics: &Statistics) -> Result<(), AllocError> {
    for (number, table) in statistics.tables.as_slice().iter().enumerate() {
        reported.push_str(if number == 0 { "" } else { " ; " })?;
        push_table(reported, table)?;
    }
    Ok(())
}

// ---- read

/// Adds the statistics that bytes are of a schema, or the code of their refusal.
fn push_read(
    alloc: Global,
    reported: &mut String,
    schema: &Schema,
    bytes: &[u8],
) -> Result<(), AllocError> {
    match &Statistics::read(alloc, schema, bytes) {
        Ok(statistics) => push_statistics(reported, statistics),
        Err(Fault::Refused(refusal)) => reported.push_str(refusal.code()),
        Err(Fault::Memory) => Err(AllocError),
    }
}

/// Reports how what a text spells reads between two other texts.
#[derive(Drop)]
struct Readings<'a> {
    schema: &'a str,
    front: &'a str,
    back: &'a str,
}

impl Reporting for Readings<'_> {
    fn report(&self, alloc: Global, text: &str, reported: &mut String) -> Result<(), AllocError> {
        let mut bytes = spelt(alloc, self.front)?;
        bytes.extend_from_slice(spelt(alloc, text)?.as_slice())?;
        bytes.extend_from_slice(self.back.as_bytes())?;
        let schema = schema_of(alloc, self.schema)?;
        push_read(alloc, reported, &schema, bytes.as_slice())
    }
}

fn are_read(rt: &impl Abort, alloc: Global, cases: &str, readings: &Readings<'_>) {
    assert_eq!(rt; differences(alloc, &[cases], readings).as_deref(), Ok(""));
}

/// The order of the bytes' members is free; statistics stand in that of the schema.
#[test]
fn statistics_are_read(rt: HostRuntime) {
    const CASES: &str =
        r#"{"tables":{"emp":{"rows":4,"pages":1,"indexes":[{"keys":4,"pages":2}]},"dept":{"rows":3,"pages":5,"indexes":[]}}} => 3 5 ; 4 1 / 4 2
{"tables":{"dept":{"indexes":[],"pages":0,"rows":0},"emp":{"pages":7,"rows":0,"indexes":[{"pages":9,"keys":8}]}}} => 0 0 ; 0 7 / 8 9
{"tables":{"dept":1,"dept":{"rows":3,"pages":5,"indexes":[]},"emp":{"rows":4,"pages":1,"indexes":[{"keys":4,"pages":2}]}}} => 3 5 ; 4 1 / 4 2"#;
    are_read(
        &rt,
        rt.alloc(),
        CASES,
        &Readings {
            schema: COMPANY,
            front: "",
            back: "",
        },
    );
}

#[test]
fn bytes_that_are_no_json(rt: HostRuntime) {
    const CASES: &str = r#" => N01
{"tables":{} => N01
{"tables":{}} 1 => N01
{"tables":{"^":{}}} => N01
{"tables":{"dept":{"rows":01,"pages":5,"indexes":[]}}} => N01
{"tables":{"dept":{"rows":+1,"pages":5,"indexes":[]}}} => N01"#;
    are_read(
        &rt,
        rt.alloc(),
        CASES,
        &Readings {
            schema: COMPANY,
            front: "",
            back: "",
        },
    );
}

#[test]
fn other_tables_are_refused(rt: HostRuntime) {
    const CASES: &str = r#"{} => N02
[] => N02
{"tables":[]} => N02
{"views":{"dept":{"rows":3,"pages":5,"indexes":[]},"emp":{"rows":4,"pages":1,"indexes":[{"keys":4,"pages":2}]}}} => N02
{"tables":{"dept":{"rows":3,"pages":5,"indexes":[]},"emp":{"rows":4,"pages":1,"indexes":[{"keys":4,"pages":2}]}},"views":[]} => N02
{"tables":{}} => N02
{"tables":{"dept":{"rows":3,"pages":5,"indexes":[]}}} => N02
{"tables":{"dept":{"rows":3,"pages":5,"indexes":[]},"EMP":{"rows":4,"pages":1,"indexes":[{"keys":4,"pages":2}]}}} => N02
{"tables":{"dept":{"rows":3,"pages":5,"indexes":[]},"emp":{"rows":4,"pages":1,"indexes":[{"keys":4,"pages":2}]},"site":{"rows":3,"pages":5,"indexes":[]}}} => N02
{"tables":{"dept":{"rows":3,"pages":5,"indexes":[]},"emp":[]}} => N02"#;
    are_read(
        &rt,
        rt.alloc(),
        CASES,
        &Readings {
            schema: COMPANY,
            front: "",
            back: "",
        },
    );
}

#[test]
fn other_entries_are_refused(rt: HostRuntime) {
    const FRONT: &str = r#"{"tables":{"dept":{"rows":3,"pages":5,"indexes":[]},"emp":{"#;
    const CASES: &str = r#""rows":4,"pages":1,"indexes":[{"keys":4,"pages":2}] => 3 5 ; 4 1 / 4 2
"pages":1,"indexes":[{"keys":4,"pages":2}] => N02
"rows":4,"indexes":[{"keys":4,"pages":2}] => N02
"rows":4,"pages":1 => N02
"rows":4,"pages":1,"indexes":[{"keys":4,"pages":2}],"width":9 => N02
"rows":4,"page":1,"indexes":[{"keys":4,"pages":2}] => N02
"rows":4,"pages":1,"indexes":{"keys":4,"pages":2} => N02
"rows":4,"pages":1,"indexes":[] => N02
"rows":4,"pages":1,"indexes":[{"keys":4,"pages":2},{"keys":4,"pages":2}] => N02
"rows":4,"pages":1,"indexes":[[4,2]] => N02
"rows":4,"pages":1,"indexes":[{"keys":4}] => N02
"rows":4,"pages":1,"indexes":[{"pages":2}] => N02
"rows":4,"pages":1,"indexes":[{"keys":4,"rows":2}] => N02
"rows":4,"pages":1,"indexes":[{"keys":4,"pages":2,"rows":1}] => N02
"rows":4,"pages":1,"indexes":[{"keys":-4,"pages":2}] => N02
"rows":4,"pages":1,"indexes":[{"keys":4,"pages":2.0}] => N02"#;
    const BACK: &str = r#"}}}"#;
    are_read(
        &rt,
        rt.alloc(),
        CASES,
        &Readings {
            schema: COMPANY,
            front: FRONT,
            back: BACK,
        },
    );
}

/// A fourth member names columns of the table, each with its keys and nothing else; the last of two at one name counts.
#[test]
fn columns_are_read(rt: HostRuntime) {
    const FRONT: &str =
        r#"{"tables":{"dept":{"rows":3,"pages":5,"indexes":[]},"emp":{"rows":4,"pages":1,"indexes":[{"keys":4,"pages":2}]"#;
    const CASES: &str = r#","columns":{} => 3 5 ; 4 1 / 4 2
,"columns":{"pay":{"keys":2}} => 3 5 ; 4 1 / 4 2 c2 2
,"columns":{"badge":{"keys":18446744073709551615},"id":{"keys":0},"pay":{"keys":2},"dept":{"keys":3}} => 3 5 ; 4 1 / 4 2 c0 0 c1 3 c2 2 c3 18446744073709551615
,"columns":{"pay":{"keys":2},"pay":{"keys":3}} => 3 5 ; 4 1 / 4 2 c2 3
,"columns":{"pay":0,"pay":{"keys":1,"keys":3}} => 3 5 ; 4 1 / 4 2 c2 3
,"columns":[],"columns":{"id":{"keys":4}} => 3 5 ; 4 1 / 4 2 c0 4
,"columns":[] => N02
,"columns":null => N02
,"columns":4 => N02
,"column":{} => N02
,"columns":{},"columns_too":{} => N02
,"columns":{"boss":{"keys":2}} => N02
,"columns":{"pay":{"keys":2},"PAY":{"keys":2}} => N02
,"columns":{"":{"keys":2}} => N02
,"columns":{"pay":2} => N02
,"columns":{"pay":null} => N02
,"columns":{"pay":{}} => N02
,"columns":{"pay":[2]} => N02
,"columns":{"pay":{"pages":2}} => N02
,"columns":{"pay":{"keys":2,"pages":1}} => N02
,"columns":{"pay":{"keys":null}} => N02
,"columns":{"pay":{"keys":"2"}} => N02
,"columns":{"pay":{"keys":2.0}} => N02
,"columns":{"pay":{"keys":-1}} => N02
,"columns":{"pay":{"keys":18446744073709551616}} => N02
,"columns":{"pay":{"keys":2} => N01"#;
    const BACK: &str = r#"}}}"#;
    are_read(
        &rt,
        rt.alloc(),
        CASES,
        &Readings {
            schema: COMPANY,
            front: FRONT,
            back: BACK,
        },
    );
}

#[test]
fn other_numbers_are_refused(rt: HostRuntime) {
    const SCHEMA: &str =
        r#"{"tables":[{"name":"t","columns":[{"name":"a","kind":"INT","not_null":true}],"unique":[],"indexes":[]}]}"#;
    const FRONT: &str = r#"{"tables":{"t":{"pages":1,"indexes":[],"rows":"#;
    const CASES: &str = r#"0 => 0 1
18446744073709551615 => 18446744073709551615 1
18446744073709551616 => N02
-1 => N02
-0 => N02
1.0 => N02
1.5 => N02
1e0 => N02
"1" => N02
null => N02
true => N02
[1] => N02"#;
    const BACK: &str = r#"}}}"#;
    are_read(
        &rt,
        rt.alloc(),
        CASES,
        &Readings {
            schema: SCHEMA,
            front: FRONT,
            back: BACK,
        },
    );
}

// ---- of loaded tables

fn push_counted(
    alloc: Global,
    reported: &mut String,
    database: &Database<'_>,
    columns: &[TableColumn],
) -> Result<(), AllocError> {
    let statistics = Statistics::of(alloc, database, columns)?;
    push_statistics(reported, &statistics)
}

fn company_counted(alloc: Global) -> Result<String, AllocError> {
    let mut reported = String::new(alloc);
    let schema = schema_of(alloc, COMPANY)?;
    let mut database = Database::new(alloc, &schema)?;
    for (table, file) in [DEPT, EMP].iter().enumerate() {
        let loaded = outcome(alloc, &mut database, table, file.as_bytes(), None);
        push_outcome(&mut reported, loaded)?;
        reported.push_str(" ")?;
    }
    push_counted(alloc, &mut reported, &database, &[])?;
    Ok(reported)
}

#[test]
fn statistics_of_the_company(rt: HostRuntime) {
    assert_eq!(rt;
        company_counted(rt.alloc()).as_deref(),
        Ok("loaded loaded 3 1 ; 4 1 / 4 1")
    );
}

/// Reports on files, with ` ; ` between them, how each is loaded in the place of the one before, and the statistics then.
#[derive(Drop)]
struct Counted<'a> {
    schema: &'a str,
    columns: &'a [TableColumn],
}

impl StepReporting for Counted<'_> {
    fn report(
        &self,
        alloc: Global,
        database: &mut Database<'_>,
        file: &str,
        reported: &mut String,
    ) -> Result<(), AllocError> {
        let bytes = spelt(alloc, file)?;
        let loaded = outcome(alloc, database, 0, bytes.as_slice(), None);
        push_outcome(reported, loaded)?;
        reported.push_str(" ")?;
        push_counted(alloc, reported, database, self.columns)
    }
}

impl Reporting for Counted<'_> {
    fn report(&self, alloc: Global, text: &str, reported: &mut String) -> Result<(), AllocError> {
        report_steps(alloc, reported, self.schema, text, self)
    }
}

/// Rows whose keys have a Null at the same places, and else the same values, have one key. An empty text is no Null.
#[test]
fn statistics_of_loaded_tables(rt: HostRuntime) {
    const SCHEMA: &str =
        r#"{"tables":[{"name":"t","columns":[{"name":"a","kind":"INT","not_null":false},{"name":"b","kind":"TEXT","not_null":false}],"unique":[],"indexes":[["a"],["b","a"]]}]}"#;
    const CASES: &str = r#"a,b~ => loaded 0 0 / 0 0 / 0 0
a,b~1,x~1,y~\N,x~\N,x~2,\N~ => loaded 5 1 / 3 1 / 4 1
a,b~1,""~1,\N~1,\N~ => loaded 3 1 / 1 1 / 2 1
a,b~|50*#,x~| => loaded 50 1 / 50 1 / 50 1
a,b~|51*#,x~| => loaded 51 2 / 51 1 / 51 1
a,b~|100*1,x~| => loaded 100 2 / 1 1 / 1 1
a,b~|101*1,x~| => loaded 101 3 / 1 2 / 1 2
a,b~1,x~ ; a,b~1,x~2,x~ ; a,b~x,x~ => loaded 1 1 / 1 1 / 1 1 ; loaded 2 1 / 2 1 / 2 1 ; T03 1 in 0 2 1 / 2 1 / 2 1"#;
    let by = Counted {
        schema: SCHEMA,
        columns: &[],
    };
    assert_eq!(rt; differences(rt.alloc(), &[CASES], &by).as_deref(), Ok(""));
}

/// Rows with a Null may agree on a unique list; on one whose columns are NOT NULL no two do, nor on an index that holds it.
#[test]
fn statistics_of_unique_lists(rt: HostRuntime) {
    const SCHEMA: &str =
        r#"{"tables":[{"name":"t","columns":[{"name":"a","kind":"INT","not_null":true},{"name":"b","kind":"INT","not_null":false}],"unique":[["b"],["a"]],"indexes":[["b"],["a"],["b","a"]]}]}"#;
    const CASES: &str = r"a,b~ => loaded 0 0 / 0 0 / 0 0 / 0 0
a,b~1,\N~2,\N~3,7~ => loaded 3 1 / 2 1 / 3 1 / 3 1
a,b~1,7~2,-9223372036854775808~ => loaded 2 1 / 2 1 / 2 1 / 2 1
a,b~1,\N~2,\N~ => loaded 2 1 / 1 1 / 2 1 / 2 1";
    let by = Counted {
        schema: SCHEMA,
        columns: &[],
    };
    assert_eq!(rt; differences(rt.alloc(), &[CASES], &by).as_deref(), Ok(""));
}

/// Numbers close together, of either sign, beside Null and the least and greatest of 64 bits, some just too far apart for their rows, and so many that lie
/// far apart that some want a slot which another one has.
#[test]
fn statistics_of_numbers(rt: HostRuntime) {
    const SCHEMA: &str =
        r#"{"tables":[{"name":"t","columns":[{"name":"a","kind":"INT","not_null":false},{"name":"b","kind":"INT","not_null":false}],"unique":[],"indexes":[["a"],["a","b"],["b","a"]]}]}"#;
    const CASES: &str = r"a,b~ => loaded 0 0 / 0 0 / 0 0 / 0 0
a,b~\N,\N~ => loaded 1 1 / 1 1 / 1 1 / 1 1
a,b~-5,\N~ => loaded 1 1 / 1 1 / 1 1 / 1 1
a,b~\N,\N~\N,\N~ => loaded 2 1 / 1 1 / 1 1 / 1 1
a,b~-3,5~-3,\N~\N,5~\N,\N~-1,5~-3,5~ => loaded 6 1 / 3 1 / 5 1 / 5 1
a,b~0,0~0,1~1,0~1,1~1,1~ => loaded 5 1 / 2 1 / 4 1 / 4 1
a,b~0,0~6,0~ => loaded 2 1 / 2 1 / 2 1 / 2 1
a,b~0,0~7,0~ => loaded 2 1 / 2 1 / 2 1 / 2 1
a,b~-9223372036854775808,1~-9223372036854775807,1~\N,1~ => loaded 3 1 / 3 1 / 3 1 / 3 1
a,b~9223372036854775807,1~9223372036854775806,\N~\N,1~ => loaded 3 1 / 3 1 / 3 1 / 3 1
a,b~-9223372036854775808,0~9223372036854775807,0~\N,0~0,0~9223372036854775807,0~ => loaded 5 1 / 4 1 / 4 1 / 4 1
a,b~|200*1#000,0~|\N,0~|100*1#000,0~|\N,0~ => loaded 302 7 / 201 4 / 201 4 / 201 4
a,b~|2000*1#000,0~|10000,0~ => loaded 2001 41 / 2000 21 / 2000 21 / 2000 21";
    let by = Counted {
        schema: SCHEMA,
        columns: &[],
    };
    assert_eq!(rt; differences(rt.alloc(), &[CASES], &by).as_deref(), Ok(""));
}

/// What is known of columns by counting. `|` repeats a row, as `spelt` says. The numbers are those that `column_keys` of
/// tests/differential/column_keys.py gives for the values of a column: exact ones for the unique columns k and u, else estimates.
#[test]
fn keys_of_columns(rt: HostRuntime) {
    const SCHEMA: &str =
        r#"{"tables":[{"name":"t","columns":[{"name":"a","kind":"INT","not_null":false},{"name":"b","kind":"TEXT","not_null":false},{"name":"k","kind":"INT","not_null":true},{"name":"u","kind":"INT","not_null":false}],"unique":[["k"],["a","k"],["u"]],"indexes":[]}]}"#;
    const CASES: &str = r#"a,b,k,u~ => loaded 0 0 c0 0 c1 0 c2 0 c3 0
a,b,k,u~\N,\N,1,\N~ => loaded 1 1 c0 0 c1 0 c2 1 c3 0
a,b,k,u~5,"",1,5~ => loaded 1 1 c0 1 c1 1 c2 1 c3 1
a,b,k,u~5,x,1,\N~5,x,2,\N~ => loaded 2 1 c0 1 c1 1 c2 2 c3 0
a,b,k,u~\N,x,1,7~5,\N,2,\N~5,y,3,\N~ => loaded 3 1 c0 1 c1 2 c2 3 c3 1
a,b,k,u~-9223372036854775808,ab,1,1~9223372036854775807,ba,2,2~-1,ü,3,3~0,"",4,4~-1,ü,5,5~ => loaded 5 1 c0 4 c1 4 c2 5 c3 5
a,b,k,u~|200*#,x,#,\N~| => loaded 200 4 c0 187 c1 1 c2 200 c3 0
a,b,k,u~|1000*7,x_#,#,#~| => loaded 1000 20 c0 1 c1 985 c2 1000 c3 1000"#;
    const COLUMNS: &[TableColumn] = &[
        TableColumn { table: 0, place: 1 },
        TableColumn { table: 0, place: 0 },
        TableColumn { table: 0, place: 3 },
        TableColumn { table: 0, place: 1 },
        TableColumn { table: 0, place: 2 },
        TableColumn { table: 0, place: 4 },
        TableColumn { table: 1, place: 0 },
    ];
    let by = Counted {
        schema: SCHEMA,
        columns: COLUMNS,
    };
    assert_eq!(rt; differences(rt.alloc(), &[CASES], &by).as_deref(), Ok(""));
}

/// The columns that are named are counted, and no others, of this table and no other.
#[test]
fn named_columns_alone(rt: HostRuntime) {
    const SCHEMA: &str =
        r#"{"tables":[{"name":"t","columns":[{"name":"a","kind":"INT","not_null":true},{"name":"b","kind":"INT","not_null":true}],"unique":[],"indexes":[["a"]]},{"name":"s","columns":[{"name":"a","kind":"INT","not_null":true}],"unique":[],"indexes":[]}]}"#;
    const CASES: &str = r"a,b~1,1~2,1~ => loaded 2 1 / 2 1 c1 1 ; 0 0 c0 0";
    const COLUMNS: &[TableColumn] = &[
        TableColumn { table: 1, place: 0 },
        TableColumn { table: 0, place: 1 },
    ];
    let by = Counted {
        schema: SCHEMA,
        columns: COLUMNS,
    };
    assert_eq!(rt; differences(rt.alloc(), &[CASES], &by).as_deref(), Ok(""));
}
