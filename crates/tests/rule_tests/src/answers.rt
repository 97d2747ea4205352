//! Why the rules have conditions: pairs of queries, of which the second is what a rule without its condition would make of the
//! first, with their rows.

use fixtures::{QueryReporting, Tables, push_rows, query_differences};
use oracle::meaning;
use query::BoundQuery;
use std::alloc::{AllocError, Global};
use store::Database;

/// Badges are unique where they aren't Null.
const SCHEMA: &str = r#"{"tables":[
    {"name":"emp","columns":[{"name":"id","kind":"INT","not_null":true},{"name":"dept","kind":"INT","not_null":false},{"name":"badge","kind":"INT","not_null":false}],"unique":[["id"],["badge"]],"indexes":[]},
    {"name":"dept","columns":[{"name":"id","kind":"INT","not_null":true},{"name":"boss","kind":"INT","not_null":false}],"unique":[["id"]],"indexes":[]}]}"#;

const EMP: &str = "id,dept,badge\n10,1,7\n11,1,\\N\n12,2,\\N\n";

const DEPT: &str = "id,boss\n1,10\n2,12\n3,\\N\n";

pub const TABLES: Tables<'static> = Tables {
    schema: SCHEMA,
    first: EMP,
    second: DEPT,
};

/// Reports the rows of a query.
struct Rows;

impl QueryReporting for Rows {
    fn report(
        &self,
        alloc: Global,
        database: &Database<'_>,
        query: &BoundQuery,
        _more: &str,
        reported: &mut String,
    ) -> Result<(), AllocError> {
        push_rows(
            reported,
            meaning(alloc, query.query(), database)?.as_slice(),
        )
    }
}

/// The cases of docs/RULES.md.
#[test]
fn conditions_are_needed(rt: HostRuntime) {
    const DISTINCT: &str = "SELECT DISTINCT badge FROM emp ORDER BY badge => ;-,;7,
SELECT badge FROM emp ORDER BY badge => ;-,;-,;7,";
    const GROUP: &str = "SELECT COUNT(*) FROM emp WHERE id = 0 => ;0,
SELECT DISTINCT id FROM emp WHERE id = 0 =>";
    const PUSHDOWN: &str =
        "SELECT e.id, d.id FROM emp e, dept d WHERE d.boss = 10 ORDER BY e.id => ;10,1,;11,1,;12,1,
SELECT e.id, d.id FROM emp e, dept d WHERE e.badge = 10 ORDER BY e.id =>";
    const ASKED_ONCE: &str =
        "SELECT d.id FROM dept d WHERE EXISTS (SELECT * FROM emp e WHERE e.dept = d.id) => ;1,;2,
SELECT d.id FROM dept d WHERE EXISTS (SELECT * FROM emp e WHERE e.dept = NULL) =>
SELECT d.id FROM dept d WHERE NOT EXISTS (SELECT * FROM emp e WHERE e.dept = d.id) => ;3,
SELECT d.id FROM dept d WHERE NOT EXISTS (SELECT * FROM emp e WHERE e.dept = NULL) => ;1,;2,;3,
SELECT d.id FROM dept d WHERE d.boss IN (SELECT e.id FROM emp e WHERE e.dept = d.id) => ;1,;2,
SELECT d.id FROM dept d WHERE d.boss IN (SELECT e.id FROM emp e WHERE e.dept = NULL) =>";
    const NULL_AWARE: &str =
        "SELECT d.id FROM dept d WHERE d.id NOT IN (SELECT e.badge FROM emp e) =>
SELECT d.id FROM dept d WHERE NOT EXISTS (SELECT * FROM emp e WHERE d.id = e.badge) => ;1,;2,;3,
SELECT d.id FROM dept d WHERE d.id NOT IN (SELECT e.badge FROM emp e WHERE e.dept = d.id) => ;3,
SELECT d.id FROM dept d WHERE NOT EXISTS (SELECT * FROM emp e WHERE e.dept = d.id AND d.id = e.badge) => ;1,;2,;3,
SELECT e.id FROM emp e WHERE e.id NOT IN (SELECT d.boss FROM dept d) =>
SELECT e.id FROM emp e WHERE NOT EXISTS (SELECT * FROM dept d WHERE e.id = d.boss) => ;11,";
    const LOWERED: &str =
        "SELECT e.id FROM emp e JOIN dept d ON d.id = e.dept WHERE EXISTS (SELECT * FROM emp x WHERE x.id = d.boss) => ;10,;11,;12,
SELECT e.id FROM emp e JOIN dept d ON d.id = e.dept WHERE EXISTS (SELECT * FROM emp x WHERE x.id = NULL) =>";
    const JOINED: &str =
        "SELECT d.id FROM dept d WHERE EXISTS (SELECT * FROM emp e WHERE e.dept = d.id) => ;1,;2,
SELECT d.id FROM dept d JOIN emp e ON e.dept = d.id => ;1,;1,;2,";
    const ALL: [&str; 7] = [
        DISTINCT, GROUP, PUSHDOWN, ASKED_ONCE, NULL_AWARE, LOWERED, JOINED,
    ];
    assert_eq!(rt;
        query_differences(rt.alloc(), TABLES, &ALL, &Rows).as_deref(),
        Ok("")
    );
}
