//! The orders that plans deliver, and that queries ask for.

use certificate::query_order;
use fixtures::{QueryReporting, query_differences};
use frame::frame_of;
use physical::{Plan, delivers};
use plan_words::plans::plan_of;
use plan_words::tables::TABLES;
use plan_words::texts::push_keys;
use query::{BoundQuery, Query};
use std::alloc::{AllocError, Global};
use store::Database;

/// A plan in words, over the query's frame.
fn plan_over(alloc: Global, query: &Query, plan: &str) -> Result<Option<Plan>, AllocError> {
    let frame = frame_of(alloc, query)?;
    plan_of(alloc, frame.as_slice(), plan)
}

/// The order that a plan of the query delivers.
fn push_delivered(
    alloc: Global,
    reported: &mut String,
    query: &Query,
    plan: &str,
) -> Result<(), AllocError> {
    match &plan_over(alloc, query, plan)? {
        Some(plan) => push_keys(
            reported,
            delivers(alloc, query.tables.as_slice(), plan)?.as_slice(),
        ),
        None => reported.push_str(" no plan"),
    }
}

/// Reports the order that a plan of the query delivers; without a plan, that it asks for.
struct Orders;

impl QueryReporting for Orders {
    fn report(
        &self,
        alloc: Global,
        _database: &Database<'_>,
        query: &BoundQuery,
        plan: &str,
        reported: &mut String,
    ) -> Result<(), AllocError> {
        let query = query.query();
        reported.push_str("order")?;
        if plan.is_empty() {
            push_keys(reported, query_order(alloc, query)?.as_slice())
        } else {
            push_delivered(alloc, reported, query, plan)
        }
    }
}

#[test]
fn plans_deliver_orders(rt: HostRuntime) {
    // The third line joins the two instances, whose columns are 0 and 1, and 2 and 3; the first one has no conjuncts.
    const CASES: &str = "SELECT x.boss, x.id FROM dept x, dept y => scan 0 0 => order
SELECT x.boss, x.id FROM dept x, dept y => scan 0 0 | sort: 1d 0 | filter 0 => order 1d 0
SELECT x.boss, x.id FROM dept x, dept y => scan 0 0 | sort: 1d 0 | cut 0: 1 => order 1d
SELECT x.boss, x.id FROM dept x, dept y => scan 0 0 | sort: 1d 0 | cut 0: 0 => order
SELECT x.boss, x.id FROM dept x, dept y => scan 0 0 | sort: 1d 0 | scan 0 1 | left 2 => order 1d 0
SELECT x.boss, x.id FROM dept x, dept y => scan 0 0 | sort: 1d 2 | scan 0 1 | loop 2 => order 1d 2
SELECT x.boss, x.id FROM dept x, dept y => scan 0 0 | sort: 1d 0 | cut 0: 1 | distinct 0 => order 1d
SELECT x.boss, x.id FROM dept x, dept y => scan 0 0 | sort: 1d 0 | group 0 => order
SELECT a FROM t => iscan 0: 0 0 0 => order 1
SELECT a FROM t => iscan 0: 0 0 1 => order 1 0
SELECT a FROM t => iscan 0: 0 0 2 => order
SELECT a, d FROM u, t => scan 0 0 | sort: 1d 0 | iloop 2: 1 1 0 => order 1d 0
SELECT boss, id FROM dept ORDER BY id DESC, boss => order 0d 1";
    assert_eq!(rt;
        query_differences(rt.alloc(), TABLES, &[CASES], &Orders).as_deref(),
        Ok("")
    );
}
