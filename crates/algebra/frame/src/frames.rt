//! The frame of a query of any form.

ghost use Rattle.std.specs.Prelude.{◌≡◌, ◌++◌, true, length, map, option_map, IfOk, OnOk};
ghost use Rattle.query.specs.declared.query.Block.{out-Block};
ghost use Rattle.query.specs.Bound as bound;
ghost use Rattle.query.specs.Bound.{is_bound, instance_numbers};
ghost use Rattle.frame.specs.Frames as spec;
ghost use Rattle.frame.specs.Lent.{scope_of};

use crate::lines::Lines;
use crate::numbers::item_numbers;
use crate::scope::{Scope, instance_numbers, number_at};
use algebra::{Aggregation, Aggregations, ClassId, Columns, Condition, Conjuncts, Expr, Term};
use query::{Aggregate, Block, ColumnId, Cond, From, Item, Query, TableInstance, TableReference};
use std::alloc::{AllocError, Global};
use values::{Boxed, Items};

/// A term with its column's number.
fn numbered(alloc: Global, term: &query::Term, scope: &Scope<'_>) -> Result<Term, AllocError>
    ensures { IfOk result (λ t. t ≡ spec.numbered (scope_of scope.now) term.now) }
{
    match term {
        query::Term::Column(column) => Ok(Term::Column(scope.number(*column))),
        query::Term::Literal(value) => Ok(Term::Literal(value.copy(alloc)?)),
    }
}

/// An aggregate that names its column by its number.
fn numbered_aggregate(numbers: &[ColumnId], aggregate: Aggregate) -> Aggregate
    ensures { result ≡ spec.numbered_aggregate numbers.now aggregate }
{
    match aggregate {
        Aggregate::CountRows => Aggregate::CountRows,
        Aggregate::Count(place) => Aggregate::Count(number_at(numbers, place as usize)),
        Aggregate::Sum(place) => Aggregate::Sum(number_at(numbers, place as usize)),
        Aggregate::Min(place) => Aggregate::Min(number_at(numbers, place as usize)),
        Aggregate::Max(place) => Aggregate::Max(number_at(numbers, place as usize)),
    }
}

/// Adds the aggregates of items to others.
fn add_aggregations(
    numbers: &[ColumnId],
    items: &[Item],
    added: &mut Vec<Aggregation>,
) -> Result<(), AllocError>
    ensures { OnOk result (added.new.items ≡ added.old.items ++ spec.aggregations numbers.now items.now) }
{
    for item in items {
        if let Item::Aggregate(column, aggregate) = item {
            added.push(Aggregation {
                column: *column,
                aggregate: numbered_aggregate(numbers, *aggregate),
            })?;
        }
    }
    Ok(())
}

/// The number of what an item shows.
pub(crate) fn item_number(scope: &Scope<'_>, item: Item) -> ColumnId
    ensures { result ≡ bound.item_number (scope_of scope.now) item }
{
    match item {
        Item::Column(column) => scope.number(column),
        Item::Aggregate(number, _) => number,
    }
}

/// Whether an item is of the block itself, and no column of a row around.
fn is_block_item(item: Item) -> bool
    ensures { result ≡ spec.is_block_item item }
{
    match item {
        Item::Column(column) => column.level == 0,
        Item::Aggregate(_, _) => true,
    }
}

/// The columns that a block keeps: its own among those that it shows.
fn kept(alloc: Global, scope: &Scope<'_>, items: &[Item]) -> Result<Columns, AllocError>
    ensures { IfOk result (λ columns. columns ≡ spec.kept (scope_of scope.now) items.now) }
{
    let mut numbers = Vec::new(alloc);
    for item in items {
        if is_block_item(*item) {
            numbers.push(item_number(scope, *item))?;
        }
    }
    Ok(Columns::from_vec(numbers))
}

/// The key columns of a group.
fn key_columns(alloc: Global, numbers: &[ColumnId], keys: &[usize]) -> Result<Columns, AllocError>
    ensures { IfOk result (λ columns. columns ≡ spec.key_columns numbers.now keys.now) }
{
    let mut columns = Vec::new(alloc);
    for key in keys {
        columns.push(number_at(numbers, *key))?;
    }
    Ok(Columns::from_vec(columns))
}

/// The number of what the first item shows.
fn first_number(scope: &Scope<'_>, items: &[Item]) -> ColumnId
    ensures { result ≡ spec.first_shown (map (bound.item_number (scope_of scope.now)) items.now) }
{
    match items {
        [] => 0,
        [first, ..] => item_number(scope, *first),
    }
}

/// A condition over classes; the lines of its subqueries are added.
#[cycle(frames)]
fn condition(
    alloc: Global,
    instances: &[TableInstance],
    cond: &Cond,
    scope: &Scope<'_>,
    lines: &mut Lines,
) -> Result<Condition, AllocError>
    ensures condition { IfOk result (λ c. c ≡ (spec.cond_frame instances.now cond.now (scope_of scope.now) lines.old).condition) }
    ensures lines { OnOk result (lines.new ≡ (spec.cond_frame instances.now cond.now (scope_of scope.now) lines.old).lines) }
{
    match cond {
        Cond::Compare(comparison, a, b) => {
            let left = numbered(alloc, a, scope)?;
            let right = numbered(alloc, b, scope)?;
            Ok(Condition::Compare(*comparison, left, right))
        }
        Cond::IsNull(a) => Ok(Condition::IsNull(numbered(alloc, a, scope)?)),
        Cond::Not(part) => {
            let part = condition(alloc, instances, part.get(), scope, lines)?;
            Ok(Condition::Not(Boxed::new(alloc, part)?))
        }
        Cond::And(parts) => {
            let parts = conditions(alloc, instances, parts.as_slice(), scope, lines)?;
            Condition::and(alloc, parts)
        }
        Cond::Or(parts) => {
            let parts = conditions(alloc, instances, parts.as_slice(), scope, lines)?;
            Condition::or(alloc, parts)
        }
        Cond::Exists(block) => {
            add_block(alloc, instances, block.get(), scope, lines)?;
            Ok(Condition::Exists(lines.last()))
        }
        Cond::In(a, block) => {
            let term = numbered(alloc, a, scope)?;
            let shown = add_block(alloc, instances, block.get(), scope, lines)?;
            Ok(Condition::In(term, lines.last(), shown))
        }
    }
}

/// The conditions of a list, one after another.
#[cycle(frames)]
fn conditions(
    alloc: Global,
    instances: &[TableInstance],
    conds: &[Cond],
    scope: &Scope<'_>,
    lines: &mut Lines,
) -> Result<Items<Condition>, AllocError>
    ensures conditions { IfOk result (λ cs. cs ≡ (spec.all_frames (map (spec.cond_frame instances.now) conds.now) (scope_of scope.now) lines.old).conditions) }
    ensures lines { OnOk result (lines.new ≡ (spec.all_frames (map (spec.cond_frame instances.now) conds.now) (scope_of scope.now) lines.old).lines) }
{
    let mut framed = Items::new(alloc);
    for cond in conds {
        framed.push(condition(alloc, instances, cond, scope, lines)?)?;
    }
    Ok(framed)
}

/// The conjuncts of a condition; the lines of its subqueries are added.
#[cycle(frames)]
fn conjuncts(
    alloc: Global,
    instances: &[TableInstance],
    cond: &Cond,
    scope: &Scope<'_>,
    lines: &mut Lines,
) -> Result<Conjuncts, AllocError>
    ensures conjuncts { IfOk result (λ c. c ≡ spec.conjuncts_of (spec.cond_frame instances.now cond.now (scope_of scope.now) lines.old)) }
    ensures lines { OnOk result (lines.new ≡ (spec.cond_frame instances.now cond.now (scope_of scope.now) lines.old).lines) }
{
    let framed = condition(alloc, instances, cond, scope, lines)?;
    Conjuncts::of(alloc, &[framed])
}

/// The two sides of a join and its ON.
#[derive(Drop)]
struct JoinSides {
    /// The column numbers of both.
    numbers: Vec<ColumnId>,
    on: Conjuncts,
    left: ClassId,
    right: ClassId,
}

/// Adds the table to the right of a join, behind its left side, and reads the ON.
#[cycle(frames)]
fn join_sides(
    alloc: Global,
    instances: &[TableInstance],
    left_numbers: Vec<ColumnId>,
    reference: TableReference,
    on: &Cond,
    outer: &Scope<'_>,
    lines: &mut Lines,
) -> Result<JoinSides, AllocError>
    ensures numbers { IfOk result (λ s. s.numbers.items ≡ left_numbers.items ++ instance_numbers instances.now reference) }
    ensures on { IfOk result (λ s. s.on ≡ spec.conjuncts_of (spec.on_lines instances.now left_numbers.items reference on.now (scope_of outer.now) lines.old)) }
    ensures classes { IfOk result (λ s. (s.left ≡ spec.last lines.old) × (s.right ≡ length lines.old)) }
    ensures lines { OnOk result (lines.new ≡ (spec.on_lines instances.now left_numbers.items reference on.now (scope_of outer.now) lines.old).lines) }
{
    let mut numbers = left_numbers;
    let more = instance_numbers(alloc, instances, reference)?;
    numbers.extend_from_slice(more.as_slice())?;
    let left = lines.last();
    lines.push(Expr::Get(reference.number))?;
    let right = lines.last();
    let scope = Scope::Inner(numbers.as_slice(), &*outer);
    let on = conjuncts(alloc, instances, on, &scope, lines)?;
    Ok(JoinSides {
        numbers,
        on,
        left,
        right,
    })
}

/// Adds the lines of a FROM, and gives the column numbers of its rows.
#[cycle(frames)]
fn add_from(
    alloc: Global,
    instances: &[TableInstance],
    from: &From,
    outer: &Scope<'_>,
    lines: &mut Lines,
) -> Result<Vec<ColumnId>, AllocError>
    ensures numbers { IfOk result (λ numbers. numbers.items ≡ (spec.from_frame instances.now from.now).numbers) }
    ensures lines { OnOk result (lines.new ≡ (spec.from_frame instances.now from.now).lines (scope_of outer.now) lines.old) }
{
    match from {
        From::Table(reference) => {
            let numbers = instance_numbers(alloc, instances, *reference)?;
            lines.push(Expr::Get(reference.number))?;
            Ok(numbers)
        }
        From::Join(left, reference, on) => {
            let numbers = add_from(alloc, instances, left.get(), outer, lines)?;
            let sides = join_sides(
                alloc,
                instances,
                numbers,
                *reference,
                on.get(),
                outer,
                lines,
            )?;
            lines.push(Expr::Join(sides.on, sides.left, sides.right))?;
            Ok(sides.numbers)
        }
        From::LeftJoin(left, reference, on) => {
            let numbers = add_from(alloc, instances, left.get(), outer, lines)?;
            let sides = join_sides(
                alloc,
                instances,
                numbers,
                *reference,
                on.get(),
                outer,
                lines,
            )?;
            lines.push(Expr::LeftJoin(sides.on, sides.left, sides.right))?;
            Ok(sides.numbers)
        }
        From::Comma(left, right) => {
            let mut numbers = add_from(alloc, instances, left.get(), outer, lines)?;
            let left_class = lines.last();
            let more = add_from(alloc, instances, right.get(), outer, lines)?;
            numbers.extend_from_slice(more.as_slice())?;
            let right_class = lines.last();
            lines.push(Expr::Join(Conjuncts::none(alloc), left_class, right_class))?;
            Ok(numbers)
        }
    }
}

/// Adds the lines of the subqueries of a WHERE or a HAVING, and its Select.
#[cycle(frames)]
fn add_filter(
    alloc: Global,
    instances: &[TableInstance],
    filter: &Option<Boxed<Cond>>,
    scope: &Scope<'_>,
    lines: &mut Lines,
) -> Result<(), AllocError>
    ensures { OnOk result (lines.new ≡ spec.select_lines (option_map (spec.cond_frame instances.now) filter.now) (scope_of scope.now) lines.old) }
{
    let Some(cond) = filter else {
        return Ok(());
    };
    let input = lines.last();
    let conjuncts = conjuncts(alloc, instances, cond.get(), scope, lines)?;
    lines.push(Expr::Select(conjuncts, input))
}

/// Adds the Group of a grouped block.
fn add_group(
    alloc: Global,
    numbers: &[ColumnId],
    block: &Block,
    lines: &mut Lines,
) -> Result<(), AllocError>
    ensures { OnOk result (lines.new ≡ spec.group_lines (out-Block block.now).grouped numbers.now (out-Block block.now).keys ((out-Block block.now).items ++ (out-Block block.now).having_items) lines.old) }
{
    if !block.grouped {
        return Ok(());
    }
    let keys = key_columns(alloc, numbers, block.keys.as_slice())?;
    let mut added = Vec::new(alloc);
    add_aggregations(numbers, block.items.as_slice(), &mut added)?;
    add_aggregations(numbers, block.having_items.as_slice(), &mut added)?;
    let added = Aggregations::of(alloc, added.as_slice())?;
    let input = lines.last();
    lines.push(Expr::Group(keys, added, input))
}

/// Adds what every block ends with: its Keep, and its Distinct if it has one.
fn add_end(
    alloc: Global,
    scope: &Scope<'_>,
    block: &Block,
    lines: &mut Lines,
) -> Result<(), AllocError>
    ensures { OnOk result (lines.new ≡ spec.distinct_lines (out-Block block.now).distinct (spec.keep_lines (scope_of scope.now) (out-Block block.now).items lines.old)) }
{
    let columns = kept(alloc, scope, block.items.as_slice())?;
    let input = lines.last();
    lines.push(Expr::Keep(columns, input))?;
    if block.distinct {
        let input = lines.last();
        lines.push(Expr::Distinct(input))?;
    }
    Ok(())
}

/// Adds a block's lines, and gives the number of its first item.
#[cycle(frames)]
fn add_block(
    alloc: Global,
    instances: &[TableInstance],
    block: &Block,
    outer: &Scope<'_>,
    lines: &mut Lines,
) -> Result<ColumnId, AllocError>
    ensures shown { IfOk result (λ number. number ≡ spec.first_shown ((spec.block_frame instances.now block.now).shown (scope_of outer.now))) }
    ensures lines { OnOk result (lines.new ≡ (spec.block_frame instances.now block.now).lines (scope_of outer.now) lines.old) }
{
    let numbers = add_from(alloc, instances, &block.from, outer, lines)?;
    let scope = Scope::Inner(numbers.as_slice(), &*outer);
    add_filter(alloc, instances, &block.filter, &scope, lines)?;
    add_group(alloc, numbers.as_slice(), block, lines)?;
    let asked = item_numbers(alloc, &scope, block.having_items.as_slice())?;
    let row = Scope::Inner(asked.as_slice(), &Scope::Outermost);
    add_filter(alloc, instances, &block.having, &row, lines)?;
    add_end(alloc, &scope, block, lines)?;
    Ok(first_number(&scope, block.items.as_slice()))
}

/// The expressions that found a query's classes, each naming earlier ones. The last is the query's own.
pub fn frame_of(alloc: Global, query: &Query) -> Result<Items<Expr>, AllocError>
    ensures lines { IfOk result (λ lines. lines ≡ spec.query_frame query.now) }
    ensures meaning { IfOk result (λ lines. is_bound query.now ≡ true → spec.FrameMeans query.now lines) }
{
    let mut lines = Lines::new(alloc);
    add_block(
        alloc,
        query.tables.as_slice(),
        &query.block,
        &Scope::Outermost,
        &mut lines,
    )?;
    Ok(lines.into_items())
}
