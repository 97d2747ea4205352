//! Which facts lines give.

use crate::answers::TABLES;
use crate::classes::{fact_of, known_classes};
use crate::words::line_of;
use fixtures::{QueryReporting, Reporting, differences, query_differences};
use props::given::gives;
use query::{BoundQuery, TableInstance};
use std::alloc::{AllocError, Global};
use store::Database;

/// Whether the line of a text gives the fact behind `: `.
fn push_given(
    alloc: Global,
    reported: &mut String,
    instances: &[TableInstance],
    text: &str,
) -> Result<(), AllocError> {
    let (line, fact) = text.split_once(": ").unwrap_or((text, ""));
    let (class, expr) = line_of(alloc, line)?;
    let fact = fact_of(alloc, fact)?;
    let known = known_classes(alloc)?;
    let given = gives(instances, known.lent(), class, &expr, &fact);
    reported.push_str(if given { "given" } else { "not given" })
}

/// Reports whether a line gives a fact, in no query.
struct Given;

impl Reporting for Given {
    fn report(&self, alloc: Global, text: &str, reported: &mut String) -> Result<(), AllocError> {
        push_given(alloc, reported, &[], text)
    }
}

/// Reports whether a line gives a fact, in a query.
struct GivenInQuery;

impl QueryReporting for GivenInQuery {
    fn report(
        &self,
        alloc: Global,
        _database: &Database<'_>,
        query: &BoundQuery,
        more: &str,
        reported: &mut String,
    ) -> Result<(), AllocError> {
        push_given(alloc, reported, query.query().tables.as_slice(), more)
    }
}

/// Classes and conditions are those of src/classes.rt and src/words.rt.
#[test]
fn lines_give_facts(rt: HostRuntime) {
    const JOINS: &str = "3 join 0 1 m: strong 0 => given
3 join 0 1 l: strong 0 => not given
3 join 0 1 m: weak 2 => given
3 join 0 1 l: weak 0 2 => given
3 join 0 1 l: strong 0 2 => not given
3 join 0 1 m: notnull 2 => given
3 join 0 1 m: notnull 3 => not given
3 join 0 1 l: notnull 0 => given
3 left 0 1 m: strong 0 => given
3 left 0 1 l: weak 0 2 => given
3 left 0 1 m: notnull 2 => not given
0 semi 0 1 m: strong 0 => given
0 anti 0 1 m: notnull 0 => given";
    const OTHERS: &str = "7 select 1 r: notnull 2 => given
7 select 1 l: notnull 2 => not given
7 select 1 l: weak 2 => given
7 keep 0 0: strong 0 => given
7 keep 0 1: strong 0 => not given
7 distinct 2: strong 4 5 => given
7 distinct 2: strong 4 => not given
7 group 2 4: strong 4 => given
7 group 2 4: strong 4 5 => not given
7 count 2: strong => given
7 count 2 4: notnull 9 => given
7 group 0 0: notnull 0 => given
7 group 2 4: notnull 4 => not given
0 select 2 l: weak 0 => given
1 select 2 l: strong 2 => not given";
    assert_eq!(rt;
        differences(rt.alloc(), &[JOINS, OTHERS], &Given).as_deref(),
        Ok("")
    );
}

/// What the schema tells of a table instance.
#[test]
fn tables_give_facts(rt: HostRuntime) {
    const CASES: &str = "SELECT badge FROM dept d, emp e => 7 get 1: weak 4 => given
SELECT badge FROM dept d, emp e => 7 get 1: strong 2 => not given
SELECT badge FROM dept d, emp e => 7 get 1: notnull 2 => given
SELECT badge FROM dept d, emp e => 7 get 1: notnull 4 => not given
SELECT badge FROM dept d, emp e => 7 get 0: weak 1 => not given
SELECT badge FROM dept d, emp e => 7 get 2: weak 0 => not given";
    assert_eq!(rt;
        query_differences(rt.alloc(), TABLES, &[CASES], &GivenInQuery).as_deref(),
        Ok("")
    );
}
