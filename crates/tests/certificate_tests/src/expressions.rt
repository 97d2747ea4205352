//! Sets of columns, and expressions that are no lines of a frame.

ghost use Rattle.std.specs.Prelude.{◌≡◌, IfOk, length};

use algebra::{Aggregation, Aggregations, Columns, Condition, Conjuncts, Expr, Term};
use fixtures::{QueryReporting, Reporting, differences, push_number, query_differences};
use plan_words::plans::{columns_of, cut, id};
use plan_words::tables::TABLES;
use plan_words::texts::{push_aggregates, push_columns};
use query::{Aggregate, BoundQuery, ColumnId, InstanceId, TableInstance};
use std::alloc::{AllocError, Global};
use store::Database;
use values::{Comparison, Literal};

/// The union with the numbers 4 and 5.
fn push_union(alloc: Global, reported: &mut String, set: &Columns) -> Result<(), AllocError> {
    let union = Columns::run(alloc, 4, 2)?.union(alloc, set)?;
    push_columns(reported, union.as_slice())
}

/// Reports the set of the numbers of a text, whether 9 is in it, and its union.
struct Sets;

impl Reporting for Sets {
    fn report(&self, alloc: Global, text: &str, reported: &mut String) -> Result<(), AllocError> {
        let set = columns_of(alloc, text)?;
        reported.push_str(if set.contains(9) { "with" } else { "without" })?;
        push_columns(reported, set.as_slice())?;
        reported.push_str(";")?;
        push_union(alloc, reported, &set)
    }
}

#[test]
fn sets_rise(rt: HostRuntime) {
    const CASES: &str = "5 4 5 => without 4 5; 4 5
9 5 => with 5 9; 4 5 9";
    assert_eq!(rt; differences(rt.alloc(), &[CASES], &Sets).as_deref(), Ok(""));
}

/// `2=sum:1`
const SUM_OF_BOSSES: Aggregation = Aggregation {
    column: 2,
    aggregate: Aggregate::Sum(1),
};

/// The columns of groups by the first column with the sum.
fn push_groups(alloc: Global, reported: &mut String) -> Result<(), AllocError> {
    let keys = columns_of(alloc, "0")?;
    let groups = Columns::of_groups(alloc, &keys, &[SUM_OF_BOSSES])?;
    push_columns(reported, groups.as_slice())
}

/// A count of the rows.
fn count_in(column: ColumnId) -> Aggregation {
    Aggregation {
        column,
        aggregate: Aggregate::CountRows,
    }
}

/// The sum between a count in column 3 and one in the sum's own, in order.
fn push_ordered(alloc: Global, reported: &mut String) -> Result<(), AllocError> {
    let added = Aggregations::of(alloc, &[count_in(3), SUM_OF_BOSSES, count_in(2)])?;
    push_aggregates(reported, added.as_slice())
}

/// The columns of an instance.
fn push_instance(
    alloc: Global,
    reported: &mut String,
    instances: &[TableInstance],
    instance: InstanceId,
) -> Result<(), AllocError> {
    let own = Columns::of_instance(alloc, instances, instance)?;
    push_columns(reported, own.as_slice())
}

/// The columns of the classes of `get 0` and of a `keep 2`.
fn classes(alloc: Global, instances: &[TableInstance]) -> Result<Vec<Columns>, AllocError>
    ensures { IfOk result (λ v. length v.items ≡ 2) }
{
    let mut classes = Vec::new(alloc);
    let first = Expr::Get(0).columns(alloc, instances, &[])?;
    classes.push(first)?;
    let second = columns_of(alloc, "2 2")?;
    classes.push(second)?;
    Ok(classes)
}

/// Whether it is well formed over these classes, in a query with the sum.
fn is_formed(alloc: Global, instances: &[TableInstance], expr: &Expr) -> Result<bool, AllocError> {
    let classes = classes(alloc, instances)?;
    Ok(expr.names_below(2) && expr.is_formed(instances, &[SUM_OF_BOSSES], classes.as_slice()))
}

/// `keep CLASS: COLUMNS`, or `join CLASS`: a join of the first class with that one, whose condition reads the sum.
fn expr_of(alloc: Global, text: &str) -> Result<Expr, AllocError> {
    let (name, rest) = cut(text, " ");
    let (class, columns) = cut(rest, ": ");
    let class = id(class);
    if name == "keep" {
        return Ok(Expr::Keep(columns_of(alloc, columns)?, class));
    }
    let (sum, number) = (Term::Column(2), Term::Literal(Literal::number(7)));
    let conjuncts = Conjuncts::of(alloc, &[Condition::Compare(Comparison::Less, sum, number)])?;
    Ok(Expr::Join(conjuncts, 0, class))
}

/// The classes whose rows it takes, how many conditions stand in each of their lists, and the classes of its inputs.
fn push_parts(alloc: Global, reported: &mut String, expr: &Expr) -> Result<(), AllocError> {
    let (left, right) = expr.children();
    if let Some(class) = left {
        push_number(reported, "left ", class as usize)?;
    }
    if let Some(class) = right {
        push_number(reported, " right ", class as usize)?;
    }
    let (first, second) = expr.conditions();
    push_number(reported, "; ", first.len())?;
    push_number(reported, " and ", second.len())?;
    reported.push_str(";")?;
    push_columns(reported, expr.inputs(alloc)?.as_slice())
}

/// Reports the columns of an instance or of groups, the parts of an expression, or whether it is well formed.
struct Expressions;

impl QueryReporting for Expressions {
    fn report(
        &self,
        alloc: Global,
        _database: &Database<'_>,
        query: &BoundQuery,
        more: &str,
        reported: &mut String,
    ) -> Result<(), AllocError> {
        let query = query.query();
        let instances = query.tables.as_slice();
        if let Some(instance) = more.strip_prefix("columns ") {
            return push_instance(alloc, reported, instances, id(instance));
        }
        if more == "aggregates" {
            return push_ordered(alloc, reported);
        }
        if more == "groups" {
            return push_groups(alloc, reported);
        }
        if let Some(text) = more.strip_prefix("parts ") {
            return push_parts(alloc, reported, &expr_of(alloc, text)?);
        }
        let expr = expr_of(alloc, more)?;
        reported.push_str(if is_formed(alloc, instances, &expr)? {
            "formed"
        } else {
            "not formed"
        })
    }
}

/// A keep is of columns that are there, and the sides of a join share no column.
#[test]
fn expressions_are_well_formed(rt: HostRuntime) {
    const CASES: &str = "SELECT SUM(boss) FROM dept => columns 0 =>  0 1
SELECT SUM(boss) FROM dept => columns 1 =>
SELECT SUM(boss) FROM dept => groups =>  0 2
SELECT SUM(boss) FROM dept => aggregates => ; 2=sum:1 3=count
SELECT SUM(boss) FROM dept => parts keep 1: 0 => left 1; 0 and 0; 1
SELECT SUM(boss) FROM dept => parts join 1 => left 0 right 1; 1 and 0; 0 1
SELECT SUM(boss) FROM dept => keep 0: 0 1 => formed
SELECT SUM(boss) FROM dept => keep 0: 0 2 => not formed
SELECT SUM(boss) FROM dept => keep 1: 0 1 => not formed
SELECT SUM(boss) FROM dept => join 1 => formed
SELECT SUM(boss) FROM dept => join 0 => not formed
SELECT SUM(boss) FROM dept => join 2 => not formed";
    assert_eq!(rt;
        query_differences(rt.alloc(), TABLES, &[CASES], &Expressions).as_deref(),
        Ok("")
    );
}
