//! The order that a query's ORDER BY asks for.

ghost use Rattle.std.specs.Prelude.{◌≡◌, ◌==◌, IfOk};
ghost use Rattle.std.specs.List.{list_any};
ghost use Rattle.certificate.specs.QueryOrders as spec;

use frame::query_numbers;
use physical::OrderKey;
use query::{ColumnId, Query, SortKey};
use std::alloc::{AllocError, Global};

/// The order by the items' columns that ORDER BY asks for.
fn ordered_columns(
    alloc: Global,
    numbers: &[ColumnId],
    keys: &[SortKey],
) -> Result<Vec<OrderKey>, AllocError>
    ensures { IfOk result (λ order. order.items ≡ spec.ordered_columns numbers.now keys.now) }
{
    let mut order = Vec::new(alloc);
    for key in keys {
        if let Some(column) = numbers.get(key.item) {
            order.push(OrderKey {
                column: *column,
                descending: key.descending,
            })?;
        }
    }
    Ok(order)
}

fn has_key_by(keys: &[OrderKey], column: ColumnId) -> bool
    ensures { result ≡ list_any (λ k. k.column == column) keys.now }
{
    keys.iter().any(|key| key.column == column)
}

/// The first key of each column.
fn first_keys(alloc: Global, keys: &[OrderKey]) -> Result<Vec<OrderKey>, AllocError>
    ensures { IfOk result (λ first. first.items ≡ spec.first_keys keys.now) }
{
    let mut first = Vec::new(alloc);
    for key in keys {
        if !has_key_by(first.as_slice(), key.column) {
            first.push(*key)?;
        }
    }
    Ok(first)
}

/// The order by columns that the query's ORDER BY asks for, each column once.
pub fn query_order(alloc: Global, query: &Query) -> Result<Vec<OrderKey>, AllocError>
    ensures { IfOk result (λ order. order.items ≡ spec.query_order query.now) }
{
    let numbers = query_numbers(alloc, query)?;
    let keys = ordered_columns(alloc, numbers.as_slice(), query.order.as_slice())?;
    first_keys(alloc, keys.as_slice())
}
