//! Texts over a small schema, and the first fault of their names.

ghost use Rattle.query.specs.Bound.{TablesAreOver};

use fixtures::{
    COMPANY, DEPT, EMP, QueryReporting, Reporting, Tables, differences, push_names, push_number,
    query_differences, spelt,
};
use query::{Aggregate, Block, BoundQuery, Column, Cond, Item, Query, Term};
use std::alloc::{AllocError, Global};
use std::fmt::Write;
use store::Database;

/// Reports `bound`, or the fault of a text over a schema. Both are spelt.
#[derive(Drop)]
struct Names<'a> {
    schema: &'a str,
}

impl Reporting for Names<'_> {
    fn report(&self, alloc: Global, text: &str, reported: &mut String) -> Result<(), AllocError> {
        let schema = spelt(alloc, self.schema)?;
        let bytes = spelt(alloc, text)?;
        push_names(alloc, reported, schema.as_slice(), bytes.as_slice())
    }
}

/// B01 and B04, in FROM.
const TABLES: &str = "SELECT id FROM nope => B01 at 15
SELECT id FROM dept d JOIN nope n ON n.id = d.id => B01 at 27
SELECT id FROM dept, emp e, nope => B01 at 28
SELECT d.id FROM dept d WHERE EXISTS (SELECT * FROM nope) => B01 at 52
SELECT d.id FROM dept d WHERE d.id IN (SELECT e.id FROM emp e WHERE NOT EXISTS (SELECT * FROM emp f, nope)) => B01 at 101
SELECT id FROM emp, emp => B04 at 20
SELECT e.id FROM emp e, dept e => B04 at 29
SELECT e.id FROM dept, emp AS e JOIN dept e ON e.id = 1 => B04 at 42
SELECT e.id FROM dept emp, dept e LEFT JOIN emp ON e.id = 1 => B04 at 44
SELECT d.id FROM dept d WHERE EXISTS (SELECT * FROM emp d, dept d) => B04 at 64
SELECT id FROM emp nope, nope => B01 at 25";

/// B02 and B03.
const COLUMNS: &str = "SELECT nope FROM emp => B02 at 7
SELECT id, nope, pay FROM emp => B02 at 11
SELECT id, pay, nope.id FROM emp => B02 at 16
SELECT id, emp.name FROM emp => B02 at 11
SELECT emp.id FROM emp e => B02 at 7
SELECT COUNT(*), SUM(nope) FROM emp => B02 at 21
SELECT id FROM emp WHERE nope = 1 AND gone = 2 => B02 at 25
SELECT id FROM emp WHERE id = 1 AND (pay = nope OR id = 2) => B02 at 43
SELECT id FROM emp WHERE NOT id = 1 OR nope IS NOT NULL => B02 at 39
SELECT id FROM emp WHERE nope IN (SELECT gone FROM emp) => B02 at 25
SELECT id FROM emp WHERE id IN (SELECT gone FROM emp) AND nope = 1 => B02 at 39
SELECT d.id FROM dept d JOIN emp e ON f.id = d.id JOIN emp f ON f.id = e.id => B02 at 38
SELECT d.id FROM dept d, emp e JOIN emp f ON f.id = d.id => B02 at 52
SELECT id FROM emp GROUP BY id, nope => B02 at 32
SELECT d.id FROM dept d WHERE EXISTS (SELECT e.id FROM emp e GROUP BY e.id, e.name) => B02 at 76
SELECT d.id FROM dept d WHERE EXISTS (SELECT * FROM emp d WHERE d.name = 'ops') => B02 at 64
SELECT id FROM dept, emp => B03 at 7
SELECT boss, name, id FROM dept, emp => B03 at 19
SELECT pay FROM dept JOIN emp ON id = 1 => B03 at 33
SELECT pay FROM dept, emp WHERE pay = 1 AND boss = id => B03 at 51
SELECT pay FROM dept, emp GROUP BY pay, id => B03 at 40
SELECT MAX(id) FROM dept, emp => B03 at 11
SELECT d.id FROM dept d WHERE EXISTS (SELECT * FROM emp a, emp b WHERE pay = 1) => B03 at 71
SELECT d.id FROM dept d WHERE d.id IN (SELECT badge FROM emp a, emp b) => B03 at 46
SELECT d.id FROM dept d, dept e WHERE EXISTS (SELECT * FROM emp f WHERE boss = 1) => B03 at 72
SELECT id, pay AS id FROM emp ORDER BY id => B03 at 39
SELECT COUNT(id) n, COUNT(pay) n FROM emp ORDER BY n => B03 at 51
SELECT pay, dept, badge pay FROM emp ORDER BY dept, pay DESC => B03 at 52";

/// B05 and B08.
const KINDS: &str = "SELECT id FROM emp WHERE id = 'x' => B05 at 28
SELECT id FROM emp WHERE 'x' <> 1 => B05 at 29
SELECT id FROM emp WHERE id = 1 AND pay = 2 AND 'x' >= dept => B05 at 52
SELECT d.id FROM dept d JOIN emp e ON e.id = d.id AND e.id < d.name => B05 at 59
SELECT d.id FROM dept d WHERE EXISTS (SELECT * FROM emp e WHERE e.id = d.name) => B05 at 69
SELECT id FROM dept WHERE name IN (SELECT id FROM emp) => B05 at 31
SELECT id FROM emp WHERE id NOT IN (SELECT name FROM dept) => B05 at 32
SELECT id FROM dept WHERE name IN (SELECT COUNT(*) FROM emp) => B05 at 31
SELECT id FROM emp WHERE id IN (SELECT MIN(name) FROM dept) => B05 at 28
SELECT id FROM emp WHERE id IN (SELECT * FROM dept) => B08 at 28
SELECT id FROM emp WHERE 1 = 1 OR id NOT IN (SELECT id, name FROM dept) => B08 at 41
SELECT id FROM dept WHERE EXISTS (SELECT * FROM emp WHERE pay IN (SELECT name, id FROM dept)) => B08 at 62";

/// B06, B07 and B11.
const GROUPS: &str = "SELECT name, COUNT(*) FROM dept => B06 at 7
SELECT COUNT(*), name FROM dept => B06 at 17
SELECT dept, pay, id FROM emp GROUP BY pay, dept => B06 at 18
SELECT dept, COUNT(*), emp.pay p FROM emp GROUP BY dept => B06 at 23
SELECT * FROM emp GROUP BY id, dept, pay => B06 at 7
SELECT id FROM dept d WHERE id IN (SELECT e.id FROM emp e GROUP BY e.pay) => B06 at 42
SELECT d.id FROM dept d WHERE EXISTS (SELECT e.pay FROM emp e GROUP BY e.pay, d.id) => B06 at 78
SELECT d.id FROM dept d WHERE EXISTS (SELECT pay FROM emp GROUP BY boss) => B06 at 67
SELECT SUM(name) FROM dept => B07 at 7
SELECT COUNT(*), MAX(name), SUM(name) FROM dept => B07 at 28
SELECT id FROM emp WHERE id IN (SELECT SUM(name) FROM dept) => B07 at 39
SELECT d.id FROM dept d WHERE d.id IN (SELECT MAX(d.id) FROM emp e) => B11 at 46
SELECT d.id FROM dept d WHERE EXISTS (SELECT COUNT(*), SUM(d.name) FROM emp e) => B11 at 55
SELECT d.id FROM dept d WHERE EXISTS (SELECT COUNT(boss), name FROM emp) => B11 at 45";

/// All of these, in HAVING.
const HAVING: &str = "SELECT dept FROM emp GROUP BY dept HAVING nope = 1 => B02 at 42
SELECT dept FROM emp GROUP BY dept HAVING SUM(nope) > 1 => B02 at 46
SELECT dept FROM emp e GROUP BY dept HAVING emp.dept = 1 => B02 at 44
SELECT dept AS key FROM emp GROUP BY dept HAVING key > 1 => B02 at 49
SELECT COUNT(*) n FROM emp HAVING n > 1 => B02 at 34
SELECT boss FROM dept, emp GROUP BY boss HAVING 1 = MIN(id) => B03 at 56
SELECT dept.id FROM dept, emp GROUP BY dept.id HAVING id > 1 => B03 at 54
SELECT dept FROM emp GROUP BY dept HAVING COUNT(*) = 'x' => B05 at 51
SELECT name FROM dept GROUP BY name HAVING name > MAX(id) => B05 at 48
SELECT MAX(name) FROM dept HAVING COUNT(*) > 1 OR NOT (1 <> MIN(name)) => B05 at 57
SELECT COUNT(*) FROM dept HAVING COUNT(name) < MAX(name) => B05 at 45
SELECT COUNT(*) FROM dept HAVING 1 = 'x' => B05 at 35
SELECT dept FROM emp GROUP BY dept HAVING pay > 1 => B06 at 42
SELECT dept FROM emp GROUP BY dept HAVING dept > 1 AND (COUNT(*) > 1 OR emp.pay IS NULL) => B06 at 72
SELECT COUNT(*) FROM emp HAVING id = 1 => B06 at 32
SELECT id FROM emp HAVING COUNT(*) > 1 => B06 at 7
SELECT * FROM emp HAVING 1 = 1 => B06 at 7
SELECT d.id FROM dept d WHERE EXISTS (SELECT COUNT(*) FROM emp HAVING COUNT(*) > d.id) => B06 at 81
SELECT d.id FROM dept d WHERE EXISTS (SELECT pay FROM emp GROUP BY pay HAVING pay > boss) => B06 at 84
SELECT COUNT(*) FROM dept HAVING SUM(name) > 1 => B07 at 33
SELECT name FROM dept GROUP BY name HAVING MAX(name) = name AND SUM(name) IS NULL => B07 at 64
SELECT d.id FROM dept d WHERE EXISTS (SELECT COUNT(*) FROM emp HAVING MAX(d.id) > 1) => B11 at 70
SELECT d.id FROM dept d WHERE EXISTS (SELECT pay FROM emp GROUP BY pay HAVING pay IS NULL OR SUM(d.name) = 'x') => B11 at 93";

/// B09.
const ORDERS: &str = "SELECT id FROM emp ORDER BY pay => B09 at 28
SELECT id, pay FROM emp ORDER BY pay, dept DESC, id => B09 at 38
SELECT id, pay FROM emp ORDER BY id, pay, emp.dept => B09 at 42
SELECT id FROM emp ORDER BY nope.id => B09 at 28
SELECT id FROM emp ORDER BY emp.nope => B09 at 28
SELECT id AS key FROM emp ORDER BY id => B09 at 35
SELECT COUNT(id) FROM emp ORDER BY emp.id => B09 at 35";

/// Which of several faults is reported.
const FIRST: &str =
    "SELECT nope FROM emp, gone WHERE id = 'x' GROUP BY none ORDER BY never => B01 at 22
SELECT nope FROM emp WHERE id = 'x' GROUP BY none ORDER BY never => B05 at 30
SELECT nope FROM emp GROUP BY none ORDER BY never => B02 at 30
SELECT nope FROM emp ORDER BY never => B02 at 7
SELECT id FROM emp e JOIN dept d ON nope = 1 JOIN gone ON id = 1 => B02 at 36
SELECT id FROM emp e JOIN dept d ON e.id = d.name, emp e => B05 at 41
SELECT id FROM emp WHERE id = 'x' AND nope = 1 => B05 at 28
SELECT id FROM emp WHERE id IN (SELECT id, nope FROM dept) => B02 at 43
SELECT id FROM emp WHERE id IN (SELECT name, id FROM dept) AND nope = 1 => B08 at 28
SELECT nope FROM emp WHERE EXISTS (SELECT gone FROM dept) => B02 at 42
SELECT d.id FROM dept d WHERE EXISTS (SELECT SUM(d.name), nope FROM emp) => B11 at 45
SELECT SUM(name), nope FROM dept => B07 at 7
SELECT id, SUM(name) FROM dept => B06 at 7
SELECT id FROM emp ORDER BY pay, nope => B09 at 28
SELECT id FROM emp GROUP BY none HAVING gone = 1 ORDER BY never => B02 at 28
SELECT id FROM emp WHERE id = 'x' GROUP BY dept HAVING gone = 1 => B05 at 28
SELECT id FROM emp GROUP BY dept HAVING gone = 1 ORDER BY never => B02 at 40
SELECT SUM(name) FROM dept HAVING boss = 1 => B06 at 34
SELECT id FROM emp GROUP BY dept HAVING COUNT(*) > 1 ORDER BY never => B06 at 7
SELECT dept FROM emp GROUP BY dept HAVING pay = SUM(nope) => B06 at 42
SELECT dept FROM emp GROUP BY dept HAVING SUM(nope) = pay => B02 at 46
SELECT dept FROM emp GROUP BY dept HAVING pay = 'x' => B06 at 42
SELECT name FROM dept GROUP BY name HAVING SUM(name) = 'x' => B07 at 43
SELECT name FROM dept GROUP BY name HAVING MAX(id) = name AND nope = 1 => B05 at 51
SELECT dept FROM emp GROUP BY dept HAVING pay = 1 AND COUNT(*) = 'x' => B06 at 42
SELECT nope FROM dept WHERE id IN (SELECT dept FROM emp GROUP BY dept HAVING pay > 1) => B06 at 77
SELECT id FROM dept WHERE id IN (SELECT dept, COUNT(*) FROM emp GROUP BY dept HAVING pay > 1) => B06 at 85
SELECT id FROM dept WHERE id IN (SELECT dept, COUNT(*) FROM emp GROUP BY dept HAVING dept > 1) GROUP BY id HAVING boss = 1 => B08 at 29";

/// Texts that bind.
const BOUND: &str = "SELECT id FROM emp => bound
SELECT * FROM dept, emp e => bound
SELECT e.id FROM emp e WHERE NULL = 'x' AND NULL = 1 AND NULL IS NULL => bound
SELECT d.id FROM dept d, emp e WHERE EXISTS (SELECT * FROM emp d WHERE d.pay = boss) => bound
SELECT d.id FROM dept d WHERE d.name IN (SELECT MIN(name) FROM dept) => bound
SELECT id FROM emp WHERE NULL IN (SELECT name FROM dept) => bound
SELECT d.id FROM dept d WHERE EXISTS (SELECT d.name, e.pay FROM emp e GROUP BY e.pay) => bound
SELECT * FROM emp GROUP BY badge, pay, dept, id => bound
SELECT id, id FROM emp ORDER BY id, emp.id DESC => bound
SELECT id i, pay FROM emp ORDER BY emp.id, i DESC, pay => bound
SELECT MAX(name), COUNT(name) FROM dept => bound
SELECT emp.id FROM dept emp, emp dept => bound
SELECT dept, COUNT(*) FROM emp GROUP BY dept HAVING COUNT(*) > 1 AND dept > 1 => bound
SELECT MIN(pay) FROM emp e GROUP BY dept, badge HAVING e.dept IS NOT NULL OR MAX(badge) = badge => bound
SELECT COUNT(*) FROM emp HAVING 1 = 2 => bound
SELECT name FROM dept GROUP BY name HAVING MIN(id) = NULL OR NULL = 'x' OR MAX(name) >= name => bound
SELECT d.id FROM dept d WHERE EXISTS (SELECT d.name FROM emp HAVING COUNT(pay) > 1) => bound
SELECT d.id FROM dept d WHERE d.id IN (SELECT dept FROM emp GROUP BY dept HAVING SUM(pay) > 1) GROUP BY d.id HAVING d.id = 1 => bound";

/// At most 24 table instances, 8 queries in one another and 1,024 tests; more are reported before an unknown table.
const SIZES: &str = "SELECT t.id FROM dept t|23*, dept t# => bound
SELECT t.id FROM dept t|24*, dept t# => B10 at 0
SELECT t.id FROM dept t|24*, nope t# => B10 at 0
SELECT id FROM dept|7* WHERE EXISTS (SELECT * FROM dept|7*) => bound
SELECT id FROM dept|8* WHERE EXISTS (SELECT * FROM dept|8*) => B10 at 0
SELECT id FROM dept WHERE id IN (SELECT boss FROM dept WHERE id IS NULL)|1022* OR 1 = 2 => bound
SELECT id FROM dept WHERE id IN (SELECT boss FROM dept WHERE id IS NULL)|1023* OR 1 = 2 => B10 at 0
SELECT COUNT(*) FROM dept WHERE id = 1 HAVING MIN(id) IS NULL|1022* OR 1 = 2 => bound
SELECT COUNT(*) FROM dept WHERE id = 1 HAVING MIN(id) IS NULL|1023* OR 1 = 2 => B10 at 0
SELECT a FROM t WHERE a = b|7278* OR a = b|7*  => B10 at 0";

/// At most 512 columns with numbers; more are reported after all other faults.
const WIDTHS: &str = "SELECT w.a FROM w|7*, w w# => bound
SELECT COUNT(*) FROM w|7*, w w# => B10 at 0
SELECT COUNT(nope) FROM w|7*, w w# => B02 at 13
SELECT w.a FROM w|7*, w w#| GROUP BY w.a HAVING w.a = 1 => bound
SELECT w.a FROM w|7*, w w#| GROUP BY w.a HAVING COUNT(*) = 1 => B10 at 0
SELECT COUNT(*) n FROM w|7*, w w#| ORDER BY nope => B09 at 76";

/// The schema of these.
const WIDE: &str =
    r#"{"tables":[{"name":"w","columns":[{"name":"a","kind":"INT","not_null":false}|63*,{"name":"a#","kind":"INT","not_null":false}|],"unique":[],"indexes":[]}]}"#;

#[test]
fn names_are_bound(rt: HostRuntime) {
    let lists = [
        TABLES, COLUMNS, KINDS, GROUPS, HAVING, ORDERS, FIRST, BOUND, SIZES,
    ];
    assert_eq!(rt;
        differences(rt.alloc(), &lists, &Names { schema: COMPANY }).as_deref(),
        Ok("")
    );
    assert_eq!(rt;
        differences(rt.alloc(), &[WIDTHS], &Names { schema: WIDE }).as_deref(),
        Ok("")
    );
}

// ---- the numbers of a query's parts

fn push_item(reported: &mut String, item: Item) -> Result<(), AllocError> {
    match item {
        Item::Column(Column { level, place }) => write!(reported, " {level}.{place}"),
        Item::Aggregate(number, Aggregate::CountRows) => write!(reported, " {number}=count"),
        Item::Aggregate(number, Aggregate::Max(place)) => write!(reported, " {number}=max:{place}"),
        Item::Aggregate(_, _) => reported.push_str(" another aggregate"),
    }
}

fn push_block(reported: &mut String, block: &Block) -> Result<(), AllocError> {
    reported.push_str("items")?;
    for item in block.items.as_slice() {
        push_item(reported, *item)?;
    }
    reported.push_str("; keys")?;
    for key in block.keys.as_slice() {
        push_number(reported, " ", *key)?;
    }
    push_having(reported, block)
}

/// The columns that a comparison compares.
fn push_comparison(reported: &mut String, condition: &Cond) -> Result<(), AllocError> {
    match condition {
        Cond::Compare(_, Term::Column(left), Term::Column(right)) => {
            push_item(reported, Item::Column(*left))?;
            push_item(reported, Item::Column(*right))
        }
        _ => reported.push_str(" no comparison"),
    }
}

/// What a HAVING names, and the columns of its row that it compares.
fn push_having(reported: &mut String, block: &Block) -> Result<(), AllocError> {
    let Some(having) = &block.having else {
        return Ok(());
    };
    reported.push_str("; having")?;
    for item in block.having_items.as_slice() {
        push_item(reported, *item)?;
    }
    reported.push_str(" by")?;
    push_comparison(reported, having.get())
}

/// The subquery of an IN, and the comparison that it is filtered by.
fn push_filter(reported: &mut String, block: &Block) -> Result<(), AllocError> {
    let Some(filter) = &block.filter else {
        return reported.push_str("; no filter");
    };
    let Cond::In(_, inner) = filter.get() else {
        return reported.push_str("; no IN");
    };
    reported.push_str("; in ")?;
    push_block(reported, inner.get())?;
    match &inner.get().filter {
        Some(filter) => push_comparison(reported, filter.get()),
        None => reported.push_str("; no filter"),
    }
}

fn push_tables(reported: &mut String, query: &Query) -> Result<(), AllocError> {
    for table in query.tables.as_slice() {
        reported.push_str(table.name.as_str())?;
        push_number(reported, "@", table.first_column as usize)?;
        reported.push_str(" ")?;
    }
    Ok(())
}

fn push_order(reported: &mut String, query: &Query) -> Result<(), AllocError> {
    reported.push_str("; order")?;
    for key in query.order.as_slice() {
        push_number(reported, " ", key.item)?;
        reported.push_str(if key.descending { "d" } else { "" })?;
    }
    push_number(reported, "; names ", query.names.len())
}

/// Reports the numbers of a query's parts.
struct Numbers;

impl QueryReporting for Numbers {
    fn report(
        &self,
        _alloc: Global,
        _database: &Database<'_>,
        query: &BoundQuery,
        _more: &str,
        reported: &mut String,
    ) -> Result<(), AllocError> {
        let query = query.query();
        push_tables(reported, query)?;
        push_block(reported, &query.block)?;
        push_filter(reported, &query.block)?;
        push_order(reported, query)
    }
}

/// Instances, columns and aggregates are numbered in the order of the text, the aggregates of a HAVING behind those of subqueries.
#[test]
fn parts_are_numbered(rt: HostRuntime) {
    const CASES: &str =
        "SELECT COUNT(*), d.id k FROM dept d, dept x JOIN emp e ON e.id = x.boss WHERE d.id IN (SELECT MAX(f.pay) FROM emp f WHERE d.boss = f.id) GROUP BY d.id ORDER BY d.id, k DESC => d@0 x@3 e@6 f@10 items 14=count 0.0; keys 0; in items 15=max:2; keys 1.2 0.0; order 1; names 2
SELECT MAX(pay), dept FROM emp WHERE dept IN (SELECT MAX(f.id) FROM dept f WHERE emp.id = f.boss HAVING MAX(f.boss) > COUNT(*)) GROUP BY dept HAVING dept < COUNT(*) => emp@0 f@4 items 7=max:2 0.1; keys 1; having 0.1 11=count by 0.0 0.1; in items 8=max:0; keys; having 9=max:2 10=count by 0.0 0.1 1.0 0.2; order; names 2";
    let company = Tables {
        schema: COMPANY,
        first: DEPT,
        second: EMP,
    };
    assert_eq!(rt;
        query_differences(rt.alloc(), company, &[CASES], &Numbers).as_deref(),
        Ok("")
    );
}
