//! The column numbers of a query's items.

ghost use Rattle.std.specs.Prelude.{◌≡◌, ◌++◌, map, IfOk};
ghost use Rattle.query.specs.Bound as bound;
ghost use Rattle.frame.specs.Frames as spec;
ghost use Rattle.frame.specs.Lent.{scope_of};

use crate::frames::item_number;
use crate::scope::{Scope, instance_numbers};
use query::{ColumnId, From, Item, Query, TableInstance};
use std::alloc::{AllocError, Global};

fn append(mut left: Vec<ColumnId>, right: Vec<ColumnId>) -> Result<Vec<ColumnId>, AllocError>
    ensures { IfOk result (λ numbers. numbers.items ≡ left.items ++ right.items) }
{
    left.extend_from_slice(right.as_slice())?;
    Ok(left)
}

/// The column numbers of a FROM's rows.
fn from_numbers(
    alloc: Global,
    instances: &[TableInstance],
    from: &From,
) -> Result<Vec<ColumnId>, AllocError>
    ensures { IfOk result (λ numbers. numbers.items ≡ (spec.from_frame instances.now from.now).numbers) }
{
    match from {
        From::Table(reference) => instance_numbers(alloc, instances, *reference),
        From::Join(left, reference, _) => {
            let numbers = from_numbers(alloc, instances, left.get())?;
            append(numbers, instance_numbers(alloc, instances, *reference)?)
        }
        From::LeftJoin(left, reference, _) => {
            let numbers = from_numbers(alloc, instances, left.get())?;
            append(numbers, instance_numbers(alloc, instances, *reference)?)
        }
        From::Comma(left, right) => {
            let numbers = from_numbers(alloc, instances, left.get())?;
            append(numbers, from_numbers(alloc, instances, right.get())?)
        }
    }
}

/// The numbers of what items show.
pub(crate) fn item_numbers(
    alloc: Global,
    scope: &Scope<'_>,
    items: &[Item],
) -> Result<Vec<ColumnId>, AllocError>
    ensures { IfOk result (λ numbers. numbers.items ≡ map (bound.item_number (scope_of scope.now)) items.now) }
{
    let mut numbers = Vec::new(alloc);
    for item in items {
        numbers.push(item_number(scope, *item))?;
    }
    Ok(numbers)
}

/// The column numbers of a query's items, in their order.
pub fn query_numbers(alloc: Global, query: &Query) -> Result<Vec<ColumnId>, AllocError>
    ensures { IfOk result (λ numbers. numbers.items ≡ spec.query_numbers query.now) }
{
    let numbers = from_numbers(alloc, query.tables.as_slice(), &query.block.from)?;
    let scope = Scope::Inner(numbers.as_slice(), &Scope::Outermost);
    item_numbers(alloc, &scope, query.block.items.as_slice())
}
