//! The values of subqueries, listed where many rows ask for them.

ghost use Rattle.std.specs.Prelude.{◌≡◌, ◌<◌, ◌&&◌, is_none, not, length, map, slice_set, IfOk, IfSome};
ghost use Rattle.operators.specs.Existence.{ask_existence, asks_existence};
ghost use Rattle.relations.specs.Relations.{rows_of};
ghost use Rattle.relations.specs.ValueLists.{AreListed, IsListed};

use algebra::{ClassId, Columns, Condition};
use query::ColumnId;
use relations::{Relation, ValueList};
use std::alloc::{AllocError, Global};

/// So few rows are gone along as fast as their values are listed.
const FEW_ROWS: usize = 8;

/// The column of a class in which a condition looks a value up by IN.
#[cycle(asked)]
fn asked_column(condition: &Condition, class: ClassId) -> Option<ColumnId>
    ensures { is_none result ≡ asks_existence class condition.now }
{
    match condition {
        Condition::Compare(_, _, _) => None,
        Condition::IsNull(_) => None,
        Condition::Not(part) => asked_column(part.get(), class),
        Condition::And(a, b, more) => first_of(
            asked_column(a.get(), class),
            asked_column(b.get(), class),
            column_asked_by_some(more.as_slice(), class),
        ),
        Condition::Or(a, b, more) => first_of(
            asked_column(a.get(), class),
            asked_column(b.get(), class),
            column_asked_by_some(more.as_slice(), class),
        ),
        Condition::Exists(_) => None,
        Condition::In(_, of, column) => column_if(*of == class, *column),
    }
}

fn column_if(is_asked: bool, column: ColumnId) -> Option<ColumnId>
    ensures { is_none result ≡ not is_asked }
{
    if is_asked { Some(column) } else { None }
}

/// The first column that is there.
fn first_of(a: Option<ColumnId>, b: Option<ColumnId>, more: Option<ColumnId>) -> Option<ColumnId>
    ensures { is_none result ≡ (is_none a && (is_none b && is_none more)) }
{
    match (a, b) {
        (Some(column), _) => Some(column),
        (None, Some(column)) => Some(column),
        (None, None) => more,
    }
}

/// The first such column of some conditions.
#[cycle(asked)]
fn column_asked_by_some(conditions: &[Condition], class: ClassId) -> Option<ColumnId>
    ensures { is_none result ≡ ask_existence conditions.now class }
{
    for condition in conditions {
        if let Some(column) = asked_column(condition, class) {
            return Some(column);
        }
    }
    None
}

/// Of each class whether conditions ask no more of it than whether it has a row.
pub(crate) fn only_existence(
    alloc: Global,
    conditions: &[Condition],
    classes: &[ClassId],
) -> Result<Vec<bool>, AllocError>
    ensures { IfOk result (λ only. only.items ≡ map (ask_existence conditions.now) classes.now) }
{
    let mut only = Vec::with_capacity(alloc, classes.len())?;
    for class in classes {
        only.push(column_asked_by_some(conditions, *class).is_none())?;
    }
    Ok(only)
}

/// Whether the rows have one of some columns.
fn have_some(input: &Relation<'_>, columns: &Columns) -> bool {
    for column in columns.as_slice() {
        if input.heading.columns.contains(*column) {
            return true;
        }
    }
    false
}

/// The values of a class's column by which rows are tested, if the class is the same at all of the rows and its list pays.
fn value_list<'t>(
    alloc: Global,
    conditions: &[Condition],
    class: ClassId,
    reads: &Columns,
    input: &Relation<'_>,
    relation: &Relation<'t>,
) -> Result<Option<ValueList<'t>>, AllocError>
    ensures { IfOk result (λ found. IfSome found (IsListed (rows_of relation.now))) }
{
    if input.rows.count <= FEW_ROWS || relation.rows.count <= FEW_ROWS || have_some(input, reads) {
        return Ok(None);
    }
    match column_asked_by_some(conditions, class) {
        Some(column) => ValueList::of_column(alloc, relation, column),
        None => Ok(None),
    }
}

/// Those of the classes, of which each has a relation, and reads some columns of the rows or none.
pub(crate) fn value_lists<'t>(
    alloc: Global,
    conditions: &[Condition],
    classes: &[ClassId],
    reads: &[Columns],
    input: &Relation<'_>,
    relations: &[Relation<'t>],
) -> Result<Vec<Option<ValueList<'t>>>, AllocError>
    ensures { IfOk result (λ lists. AreListed relations.now lists.items) }
{
    let mut lists = Vec::with_capacity(alloc, relations.len())?;
    for (number, relation) in relations.iter().enumerate() {
        let list = match (classes.get(number), reads.get(number)) {
            (Some(class), Some(reads)) => {
                value_list(alloc, conditions, *class, reads, input, relation)?
            }
            _ => None,
        };
        lists.push(list)?;
    }
    Ok(lists)
}

/// Puts another relation in a place, whose list goes.
pub(crate) fn put_relation<'t>(
    relations: &mut Vec<Relation<'t>>,
    lists: &mut Vec<Option<ValueList<'t>>>,
    number: usize,
    relation: Relation<'t>,
)
    requires within { number < length relations.old.items }
    requires listed { AreListed relations.old.items lists.old.items }
    ensures relations { relations.new.items ≡ slice_set relations.old.items number relation.entry }
    ensures listed { AreListed relations.new.items lists.new.items }
{
    relations[number] = relation;
    if number < lists.len() {
        lists[number] = None;
    }
}
