//! Labels for the plan of a small query, and whether they show it to be the cheapest.

use algebra::ClassId;
use fixtures::{COMPANY, query_of, schema_of};
use labels::{Goal, Label, check_least};
use logs::Log;
use physical::OrderKey;
use planner::canonical;
use prepared_query::PreparedQuery;
use query::BoundQuery;
use statistics::Statistics;
use std::alloc::{AllocError, Global};
use values::Items;

/// Both tables are of one page.
const STATISTICS: &str =
    r#"{"tables":{"dept":{"rows":3,"pages":1,"indexes":[]},"emp":{"rows":4,"pages":1,"indexes":[{"keys":4,"pages":1}]}}}"#;

/// Its lines are 0, the rows of emp; 1, those of them that it selects; 2, their column. Its plan implements one by one.
const QUERY: &str = "SELECT id FROM emp WHERE pay <> 500";

/// A class in no order, with a cost.
fn label(alloc: Global, class: ClassId, cost: u64) -> Label {
    let order = Items::new(alloc);
    let goal = Goal { class, order };
    Label { goal, cost }
}

/// The rows of a class by a column of emp: its columns are 0 to 3.
fn ordered_label(
    alloc: Global,
    class: ClassId,
    columns: &[u32],
    cost: u64,
) -> Result<Label, AllocError> {
    let mut order = Items::new(alloc);
    for column in columns {
        order.push(OrderKey {
            column: *column,
            descending: false,
        })?;
    }
    let goal = Goal { class, order };
    Ok(Label { goal, cost })
}

/// Labels of the classes from one down, with these costs.
fn labels_down(alloc: Global, class: ClassId, costs: &[u64]) -> Result<Vec<Label>, AllocError> {
    let mut labels = Vec::new(alloc);
    let mut class = class;
    for cost in costs {
        labels.push(label(alloc, class, *cost))?;
        class = class.saturating_sub(1);
    }
    Ok(labels)
}

/// Whether the labels show the canonical plan to be the cheapest of the lines of the query's frame.
fn shows_least(
    alloc: Global,
    query: &BoundQuery,
    statistics: &Statistics,
    labels: &[Label],
) -> Result<bool, AllocError> {
    let certificate = canonical(alloc, &PreparedQuery::of(alloc, query)?)?;
    let mut log = Log::new(alloc, query.query().tables.as_slice(), &[]);
    for line in certificate.lines.as_slice() {
        let _ = log.push(alloc, line.copy(alloc)?);
    }
    let root = label(alloc, 2, 0).goal;
    check_least(alloc, &log, statistics, &root, &certificate.plan, labels)
}

/// The same; none where the query can't be asked.
fn verdict(alloc: Global, labels: &[Label]) -> Result<Option<bool>, AllocError> {
    let Ok(schema) = &schema_of(alloc, COMPANY) else {
        return Ok(None);
    };
    let Ok(statistics) = &Statistics::read(alloc, schema, STATISTICS.as_bytes()) else {
        return Ok(None);
    };
    match &query_of(alloc, schema, QUERY) {
        Some(query) => Ok(Some(shows_least(alloc, query, statistics, labels)?)),
        None => Ok(None),
    }
}

fn verdict_of(alloc: Global, costs: &[u64]) -> Result<Option<bool>, AllocError> {
    verdict(alloc, labels_down(alloc, 2, costs)?.as_slice())
}

/// The scan costs 140, the filter over it 144, the projection over that 145. Labels of less or more show nothing, nor do some that lack a goal.
#[test]
fn labels_show_the_least(rt: HostRuntime) {
    let alloc = rt.alloc();
    assert_eq!(rt; verdict_of(alloc, &[145, 144, 140]), Ok(Some(true)));
    // The root's label isn't the plan's cost.
    assert_eq!(rt; verdict_of(alloc, &[144, 144, 140]), Ok(Some(false)));
    // A scan costs 140.
    assert_eq!(rt; verdict_of(alloc, &[145, 144, 141]), Ok(Some(false)));
    // A filter over 100 costs 104.
    assert_eq!(rt; verdict_of(alloc, &[145, 144, 100]), Ok(Some(false)));
    // A goal that is needed has no label.
    assert_eq!(rt; verdict_of(alloc, &[145, 144]), Ok(Some(false)));
    assert_eq!(rt; verdict_of(alloc, &[0, 0, 0]), Ok(Some(false)));
    assert_eq!(rt; verdict_of(alloc, &[]), Ok(Some(false)));
}

/// What the labels of the plan are with one more.
fn with_one_more(alloc: Global, more: Label) -> Result<Option<bool>, AllocError> {
    let mut labels = labels_down(alloc, 2, &[145, 144, 140])?;
    labels.push(more)?;
    verdict(alloc, labels.as_slice())
}

fn with_order(alloc: Global, columns: &[u32], cost: u64) -> Result<Option<bool>, AllocError> {
    with_one_more(alloc, ordered_label(alloc, 0, columns, cost)?)
}

/// Goals stand once, are of classes that are founded, and in orders by different columns of them. A goal with an order costs no more than a sort (4 rows, 3
/// steps each, over 140), and no less than what is offered for it.
#[test]
fn labels_are_of_goals(rt: HostRuntime) {
    let alloc = rt.alloc();
    assert_eq!(rt; with_one_more(alloc, label(alloc, 0, 140)), Ok(Some(false)));
    assert_eq!(rt; with_one_more(alloc, label(alloc, 3, 140)), Ok(Some(false)));
    assert_eq!(rt; with_order(alloc, &[9], 0), Ok(Some(false)));
    assert_eq!(rt; with_order(alloc, &[0, 0], 0), Ok(Some(false)));
    assert_eq!(rt; with_order(alloc, &[2], 152), Ok(Some(true)));
    assert_eq!(rt; with_order(alloc, &[2], 153), Ok(Some(false)));
    assert_eq!(rt; with_order(alloc, &[2], 0), Ok(Some(true)));
}
