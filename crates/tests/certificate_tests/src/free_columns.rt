//! The columns of plans, and those of their environment that they read.

use fixtures::{QueryReporting, query_differences};
use frame::frame_of;
use physical::Plan;
use plan_reads::{free_columns, plan_columns};
use plan_words::plans::plan_of;
use plan_words::tables::TABLES;
use plan_words::texts::push_columns;
use query::{BoundQuery, TableInstance};
use std::alloc::{AllocError, Global};
use store::Database;

/// Adds the columns of a plan, and those of its environment that it reads.
fn push_plan(
    alloc: Global,
    reported: &mut String,
    instances: &[TableInstance],
    plan: &Plan,
) -> Result<(), AllocError> {
    reported.push_str("columns")?;
    push_columns(reported, plan_columns(alloc, instances, plan)?.as_slice())?;
    reported.push_str(" free")?;
    push_columns(reported, free_columns(alloc, instances, plan)?.as_slice())
}

/// Reports them of a plan over the query's frame.
struct PlanColumns;

impl QueryReporting for PlanColumns {
    fn report(
        &self,
        alloc: Global,
        _database: &Database<'_>,
        query: &BoundQuery,
        plan: &str,
        reported: &mut String,
    ) -> Result<(), AllocError> {
        let query = query.query();
        let frame = frame_of(alloc, query)?;
        match &plan_of(alloc, frame.as_slice(), plan)? {
            Some(plan) => push_plan(alloc, reported, query.tables.as_slice(), plan),
            None => reported.push_str("no plan"),
        }
    }
}

#[test]
fn plans_have_columns_and_read_their_environment(rt: HostRuntime) {
    // A subquery alone reads the columns of the row around it; the whole plan reads nothing. The last ones are no plans of a query.
    const CASES: &str =
        "SELECT a FROM t WHERE EXISTS (SELECT * FROM u WHERE c = a) => scan 1 1 | filter 2 | cut 3: 2 3 => columns 2 3 free 0
SELECT a FROM t WHERE EXISTS (SELECT * FROM u WHERE c = a) => scan 0 0 | scan 1 1 | filter 2 | cut 3: 2 3 | subqueries 4 1 | cut 5: 0 => columns 0 free
SELECT a FROM t WHERE EXISTS (SELECT * FROM u WHERE c = 1) => scan 1 1 | filter 2 | cut 3: 2 3 => columns 2 3 free
SELECT a FROM t WHERE a IN (SELECT c FROM u) => scan 1 1 | cut 2: 2 => columns 2 free
SELECT a FROM t WHERE 'y' IN (SELECT d FROM u WHERE c = a) => scan 1 1 | filter 2 | cut 3: 3 => columns 3 free 0
SELECT x.a FROM t x WHERE x.a IN (SELECT c FROM u WHERE c IN (SELECT y.a FROM t y)) => scan 1 1 | scan 2 2 | cut 3: 4 | subqueries 4 1 | cut 5: 2 => columns 2 free
SELECT x.a FROM t x WHERE x.a IN (SELECT c FROM u WHERE c IN (SELECT y.a FROM t y WHERE y.b = x.b)) => scan 1 1 | scan 2 2 | filter 3 | cut 4: 4 | subqueries 5 1 | cut 6: 2 => columns 2 free 1
SELECT a, d FROM t JOIN u ON a = c => scan 0 0 | scan 1 1 | loop 2 => columns 0 1 2 3 free
SELECT b, SUM(a) FROM t GROUP BY b => scan 0 0 | group 1 => columns 1 2 free
SELECT a FROM t => iscan 0: 0 0 0 => columns 0 1 free
SELECT a, d FROM t JOIN u ON a = c => scan 0 0 | scan 0 0 | hash 2 => columns 0 1 free 2
SELECT b, SUM(a) FROM t GROUP BY b => scan 0 0 | cut 0: 1 | group 1 => columns 1 2 free 0
SELECT a FROM t => scan 0 0 | cut 1: 0 7 => columns 0 7 free 7
SELECT a FROM t => scan 0 0 | sort: 5d 0 => columns 0 1 free 5";
    assert_eq!(rt;
        query_differences(rt.alloc(), TABLES, &[CASES], &PlanColumns).as_deref(),
        Ok("")
    );
}
