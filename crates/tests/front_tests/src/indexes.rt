//! Loaded tables by their indexes.

use crate::files::{outcome, push_outcome};
use fixtures::{Reporting, StepReporting, differences, push_number, report_steps, spelt};
use std::alloc::{AllocError, Global};
use store::{Database, index_of};

const SCHEMA: &str =
    r#"{"tables":[{"name":"t","columns":[{"name":"a","kind":"INT","not_null":false},{"name":"b","kind":"TEXT","not_null":false}],"unique":[],"indexes":[["a"],["b","a"]]}]}"#;

/// Behind each ` /` the first table's rows by one of its indexes, as their numbers.
fn push_indexes(
    alloc: Global,
    reported: &mut String,
    database: &Database<'_>,
) -> Result<(), AllocError> {
    let Some(entry) = database.schema().tables.get(0) else {
        return reported.push_str("no table");
    };
    if database.tables().is_empty() {
        return reported.push_str("no rows");
    }
    let table = database.table(0);
    for places in entry.indexes.as_slice() {
        reported.push_str(" /")?;
        for row in index_of(alloc, table, places.as_slice())?.as_slice() {
            push_number(reported, " ", *row as usize)?;
        }
    }
    Ok(())
}

/// Reports on files, with ` ; ` between them, how each is loaded in the place of the one before, and the indexes then.
struct Indexes;

impl StepReporting for Indexes {
    fn report(
        &self,
        alloc: Global,
        database: &mut Database<'_>,
        file: &str,
        reported: &mut String,
    ) -> Result<(), AllocError> {
        let bytes = spelt(alloc, file)?;
        let loaded = outcome(alloc, database, 0, bytes.as_slice(), None);
        push_outcome(reported, loaded)?;
        push_indexes(alloc, reported, database)
    }
}

impl Reporting for Indexes {
    fn report(&self, alloc: Global, text: &str, reported: &mut String) -> Result<(), AllocError> {
        report_steps(alloc, reported, SCHEMA, text, self)
    }
}

/// Null comes first, and rows that tie stand as in the table. A refused file leaves the indexes as they were.
#[test]
fn rows_by_indexes(rt: HostRuntime) {
    const CASES: &str = "a,b~ => loaded / /
a,b~1,a~1,b~2,b~ => loaded / 0 1 2 / 0 1 2
a,b~2,x~\\N,y~1,x~2,w~ => loaded / 1 2 0 3 / 3 2 0 1
a,b~1,x~0,\\N~1,x~0,\\N~1,x~ => loaded / 1 3 0 2 4 / 1 3 0 2 4
a,b~2,x~1,x~ ; a,b~0,x~x,x~ ; a,b~3,x~ => loaded / 1 0 / 1 0 ; T03 2 in 0 / 1 0 / 1 0 ; loaded / 0 / 0";
    assert_eq!(rt;
        differences(rt.alloc(), &[CASES], &Indexes).as_deref(),
        Ok("")
    );
}
