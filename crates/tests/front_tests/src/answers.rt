//! Worked queries over two small tables, with the answers that SQL gives.

ghost use Rattle.query.specs.Bound.{TablesAreOver};

use fixtures::{COMPANY, DEPT, EMP, QueryReporting, Tables, push_rows, query_differences};
use oracle::meaning;
use query::BoundQuery;
use std::alloc::{AllocError, Global};
use store::Database;

/// Reports the rows that a query means, in the order of the tables' rows where the text has none.
struct Meaning;

impl QueryReporting for Meaning {
    fn report(
        &self,
        alloc: Global,
        database: &Database<'_>,
        query: &BoundQuery,
        _more: &str,
        reported: &mut String,
    ) -> Result<(), AllocError> {
        push_rows(
            reported,
            meaning(alloc, query.query(), database)?.as_slice(),
        )
    }
}

/// Comparisons have three truths.
const COMPARISONS: &str = "SELECT id FROM emp WHERE pay <> 500 => ;12,
SELECT name, id FROM dept WHERE id >= 2 => ;lab,2,;dev,3,
SELECT id FROM emp WHERE pay = NULL =>
SELECT id FROM dept => ;1,;2,;3,
SELECT id FROM emp WHERE (badge IS NULL OR pay = 500) AND NOT pay = 400 => ;10,;13,";

/// One Null spoils a NOT IN, and none is in an empty subquery. The innermost block names the outermost one's row.
const SUBQUERIES: &str = "SELECT id FROM dept WHERE id NOT IN (SELECT dept FROM emp) =>
SELECT id FROM dept WHERE id NOT IN (SELECT dept FROM emp WHERE dept IS NOT NULL) => ;2,
SELECT id FROM dept WHERE id IN (SELECT dept FROM emp) => ;1,;3,
SELECT boss FROM dept WHERE boss NOT IN (SELECT id FROM emp WHERE pay > 1000) => ;10,;-,;12,
SELECT id FROM dept d WHERE NOT EXISTS (SELECT id FROM emp e WHERE e.dept = d.id) => ;2,
SELECT id FROM dept d WHERE EXISTS (SELECT id FROM dept x WHERE EXISTS (SELECT id FROM emp e WHERE d.boss = e.id)) => ;1,;3,";

/// Left joins pad what has no match.
const JOINS: &str =
    "SELECT d.id, e.id FROM dept d LEFT JOIN emp e ON e.dept = d.id => ;1,10,;1,11,;2,-,;3,12,
SELECT d.id, e.id FROM dept d LEFT JOIN emp e ON e.dept = d.id WHERE e.pay > 0 => ;1,10,;3,12,
SELECT d.id, e.id FROM dept d LEFT JOIN emp e ON e.dept = d.id WHERE e.pay IS NULL => ;1,11,;2,-,
SELECT d.id, e.id, f.id FROM dept d, emp e JOIN dept f ON f.id = e.dept WHERE d.id = 2 => ;2,10,1,;2,11,1,;2,12,3,";

/// With GROUP BY no rows give no groups.
const AGGREGATES: &str =
    "SELECT COUNT(*), COUNT(pay), SUM(pay), MIN(pay), MAX(pay) FROM emp => ;4,3,1400,400,500,
SELECT COUNT(*), COUNT(pay), SUM(pay), MIN(pay), MAX(pay) FROM emp WHERE id < 0 => ;0,0,-,-,-,
SELECT COUNT(*), COUNT(pay), SUM(pay), MIN(pay), MAX(pay) FROM emp WHERE id < 0 GROUP BY dept =>
SELECT MIN(name), MAX(name) FROM dept => ;dev,ops,
SELECT dept, SUM(pay) FROM emp GROUP BY dept ORDER BY dept DESC => ;3,400,;1,500,;-,500,
SELECT dept, SUM(pay) FROM emp GROUP BY dept ORDER BY dept => ;-,500,;1,500,;3,400,
SELECT DISTINCT SUM(pay) s FROM emp GROUP BY dept ORDER BY s => ;400,;500,";

/// A group stays where its HAVING is true, without GROUP BY too.
const HAVING: &str = "SELECT dept, COUNT(*) FROM emp GROUP BY dept HAVING COUNT(*) > 1 => ;1,2,
SELECT dept FROM emp GROUP BY dept HAVING SUM(pay) >= 500 => ;1,;-,
SELECT dept FROM emp GROUP BY dept HAVING dept > 1 => ;3,
SELECT COUNT(*) FROM emp HAVING MIN(pay) > 400 =>
SELECT COUNT(*) FROM emp HAVING 1 = 2 =>
SELECT COUNT(*) FROM emp WHERE id < 0 HAVING COUNT(*) = 0 => ;0,
SELECT COUNT(*) FROM emp WHERE id < 0 HAVING SUM(pay) <> 0 =>
SELECT dept FROM emp GROUP BY dept HAVING MIN(badge) IS NULL => ;3,
SELECT dept FROM emp GROUP BY dept HAVING NOT MIN(badge) = 7 => ;-,
SELECT dept FROM emp GROUP BY dept HAVING dept IS NULL OR COUNT(pay) < COUNT(*) => ;1,;-,
SELECT DISTINCT COUNT(*) c FROM emp GROUP BY dept HAVING MIN(pay) IS NOT NULL ORDER BY c => ;1,;2,
SELECT id FROM emp WHERE dept IN (SELECT dept FROM emp GROUP BY dept HAVING COUNT(*) > 1) => ;10,;11,
SELECT name FROM dept d WHERE EXISTS (SELECT COUNT(*) FROM emp e WHERE e.dept = d.id HAVING COUNT(*) > 1) => ;ops,
SELECT dept, SUM(pay) s FROM emp GROUP BY dept HAVING COUNT(pay) > 0 ORDER BY s, dept => ;3,400,;-,500,;1,500,";

/// Nulls come first, and DISTINCT leaves one of each.
const DISTINCT_AND_ORDER: &str = "SELECT DISTINCT badge FROM emp ORDER BY badge => ;-,;7,;9,
SELECT pay, id FROM emp ORDER BY pay, id DESC => ;-,11,;400,12,;500,13,;500,10,
SELECT pay, id FROM emp ORDER BY pay DESC, id => ;500,10,;500,13,;400,12,;-,11,";

/// Two pays whose sum is past 64 bits.
const RICH: &str = "id,dept,pay,badge\n1,1,9223372036854775807,\\N\n2,1,9223372036854775807,\\N\n";

const SUM: &str =
    "SELECT MAX(pay), SUM(pay) FROM emp => ;9223372036854775807,18446744073709551614,";

#[test]
fn worked_queries(rt: HostRuntime) {
    let lists = [
        COMPARISONS,
        SUBQUERIES,
        JOINS,
        AGGREGATES,
        HAVING,
        DISTINCT_AND_ORDER,
    ];
    let company = Tables {
        schema: COMPANY,
        first: DEPT,
        second: EMP,
    };
    let rich = Tables {
        schema: COMPANY,
        first: DEPT,
        second: RICH,
    };
    assert_eq!(rt;
        query_differences(rt.alloc(), company, &lists, &Meaning).as_deref(),
        Ok("")
    );
    assert_eq!(rt;
        query_differences(rt.alloc(), rich, &[SUM], &Meaning).as_deref(),
        Ok("")
    );
}
