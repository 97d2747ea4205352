//! Table instances that are read by an index of their table.

ghost use Rattle.std.specs.Prelude.{◌≡◌, option_map, slice_get, IfOk};
ghost use Rattle.algebra.specs.Columns.{has, is_subset};
ghost use Rattle.physical.specs.Indexes as spec;

use crate::plan::{IndexAccess, Matching, OrderKey};
use algebra::{Columns, Condition, Term};
use query::ids::id_behind;
use query::{ColumnId, TableInstance};
use std::alloc::{AllocError, Global};
use values::Comparison;

/// The columns at places of a table instance with this first column.
fn numbered_from(
    alloc: Global,
    first: ColumnId,
    places: &[usize],
) -> Result<Vec<ColumnId>, AllocError>
    ensures { IfOk result (λ columns. columns.items ≡ spec.numbered_from first places.now) }
{
    let mut columns = Vec::new(alloc);
    for place in places {
        columns.push(id_behind(first, *place)?)?;
    }
    Ok(columns)
}

/// The columns of the index, by which it is sorted; none where its table has no such index.
pub fn index_columns(
    alloc: Global,
    instances: &[TableInstance],
    access: IndexAccess,
) -> Result<Vec<ColumnId>, AllocError>
    ensures { IfOk result (λ columns. columns.items ≡ spec.index_columns instances.now access) }
{
    let Some(instance) = instances.get(access.instance as usize) else {
        return Ok(Vec::new(alloc));
    };
    let Some(places) = instance.entry.indexes.as_slice().get(access.index as usize) else {
        return Ok(Vec::new(alloc));
    };
    numbered_from(alloc, instance.first_column, places.as_slice())
}

/// The order of the index.
pub fn index_order(
    alloc: Global,
    instances: &[TableInstance],
    access: IndexAccess,
) -> Result<Vec<OrderKey>, AllocError>
    ensures { IfOk result (λ order. order.items ≡ spec.index_order instances.now access) }
{
    let columns = index_columns(alloc, instances, access)?;
    let mut order = Vec::with_capacity(alloc, columns.len())?;
    for column in columns.as_slice() {
        order.push(OrderKey {
            column: *column,
            descending: false,
        })?;
    }
    Ok(order)
}

/// Whether the instance's table has an index with the number.
fn numbers_index(instance: Option<&TableInstance>, index: usize) -> bool
    ensures { result ≡ spec.numbers_index (option_map (λ t. t.now) instance.entry) index }
{
    match instance {
        Some(instance) => index < instance.entry.indexes.len(),
        None => false,
    }
}

fn are_among(columns: &[ColumnId], own: &Columns) -> bool
    ensures { result ≡ is_subset columns.now own.now }
{
    columns.iter().all(|column| own.contains(*column))
}

/// Whether the instance's table has the index, by columns of its own.
pub fn has_index(
    alloc: Global,
    instances: &[TableInstance],
    access: IndexAccess,
) -> Result<bool, AllocError>
    ensures { IfOk result (λ r. r ≡ spec.has_index instances.now access) }
{
    if !numbers_index(
        instances.get(access.instance as usize),
        access.index as usize,
    ) {
        return Ok(false);
    }
    let own = Columns::of_instance(alloc, instances, access.instance)?;
    let columns = index_columns(alloc, instances, access)?;
    Ok(are_among(columns.as_slice(), &own))
}

fn is_column(term: &Term, column: ColumnId) -> bool
    ensures { result ≡ spec.is_column column term.now }
{
    match term {
        Term::Column(number) => *number == column,
        Term::Literal(_) => false,
    }
}

/// Whether the term is none of the columns.
fn is_outside(term: &Term, own: &Columns) -> bool
    ensures { result ≡ spec.is_outside (has own.now) term.now }
{
    match term {
        Term::Column(number) => !own.contains(*number),
        Term::Literal(_) => true,
    }
}

/// What an equality of two terms equates the column with, if that is none of the table instance's columns.
fn probe_of_terms<'c>(a: &'c Term, b: &'c Term, column: ColumnId, own: &Columns) -> Option<&'c Term>
    ensures { option_map (λ t. t.now) result ≡ spec.probe_of_terms (has own.now) column a.now b.now }
{
    if is_column(a, column) && is_outside(b, own) {
        Some(b)
    } else if is_column(b, column) && is_outside(a, own) {
        Some(a)
    } else {
        None
    }
}

/// What the condition equates the column with, if that is none of the table instance's columns.
fn probe_of<'c>(condition: &'c Condition, column: ColumnId, own: &Columns) -> Option<&'c Term>
    ensures { option_map (λ t. t.now) result ≡ spec.probe_of (has own.now) column condition.now }
{
    match condition {
        Condition::Compare(comparison, a, b) => if *comparison == Comparison::Equal {
            probe_of_terms(a, b, column, own)
        } else {
            None
        },
        Condition::IsNull(_) => None,
        Condition::Not(_) => None,
        Condition::And(_, _, _) => None,
        Condition::Or(_, _, _) => None,
        Condition::Exists(_) => None,
        Condition::In(_, _, _) => None,
    }
}

/// What the first of some conditions that does so equates the column with, it being none of the table instance's columns.
pub fn probe_in<'c>(
    conditions: &'c [Condition],
    column: ColumnId,
    own: &Columns,
) -> Option<&'c Term>
    ensures { option_map (λ t. t.now) result ≡ spec.probe_in (has own.now) conditions.now column }
{
    for condition in conditions {
        if let Some(term) = probe_of(condition, column, own) {
            return Some(term);
        }
    }
    None
}

/// Whether some condition equates the column with what is none of the table instance's columns.
fn is_probed(own: &Columns, conditions: &[Condition], column: ColumnId) -> bool
    ensures { result ≡ spec.is_probe (spec.probe_in (has own.now) conditions.now column) }
{
    probe_in(conditions, column, own).is_some()
}

fn are_probed(own: &Columns, conditions: &[Condition], columns: &[ColumnId]) -> bool
    ensures { result ≡ spec.are_probed (has own.now) conditions.now columns.now }
{
    columns
        .iter()
        .all(|column| is_probed(own, conditions, *column))
}

/// Whether a join is able to find the matches of a left row by the index.
pub fn finds_by_index(
    alloc: Global,
    instances: &[TableInstance],
    access: IndexAccess,
    matching: &Matching,
) -> Result<bool, AllocError>
    ensures { IfOk result (λ r. r ≡ spec.finds_by_index instances.now access matching.now) }
{
    if !has_index(alloc, instances, access)? {
        return Ok(false);
    }
    let own = Columns::of_instance(alloc, instances, access.instance)?;
    let columns = index_columns(alloc, instances, access)?;
    let conditions = matching.sure_conditions();
    Ok(are_probed(&own, conditions, columns.as_slice()))
}

impl Matching {
    /// The conditions that each match makes true.
    pub fn sure_conditions(&self) -> &[Condition]
        ensures { result.now ≡ spec.sure_conditions self.now }
    {
        match self {
            Matching::Inner(conjuncts) | Matching::Left(conjuncts) | Matching::Semi(conjuncts) => {
                conjuncts.as_slice()
            }
            Matching::Anti(ordinary, _) => ordinary.as_slice(),
        }
    }
}
