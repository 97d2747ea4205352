//! The keys of ORDER BY, which are output columns.

ghost use Rattle.std.specs.Prelude.{◌≡◌, map};
ghost use Rattle.values.specs.Faults.{Gives};
ghost use Rattle.binder.specs.Named.{items_named, items_showing};
ghost use Rattle.binder.specs.Ordering as spec;
ghost use Rattle.binder.specs.Scopes.{place_in_text};

use crate::fault::{BindFault, BindReason, refused};
use crate::named::{Named, Sense};
use crate::output::Output;
use crate::places::Places;
use crate::scope::{Scope, qualified_in};
use query::{Column, Item, SortKey};
use sql_parse::Name;
use sql_parse::statement::{ColumnName, OrderKey};
use std::alloc::Global;
use values::{Fault, Items};

/// The column that an output name means.
fn item_named(name: &Name, outputs: &Named<'_>) -> Result<Item, BindFault>
    ensures { Gives (λ item. item) result (spec.one_column name.now.at (items_named name.now.text outputs.now)) }
{
    match outputs.sense(name.text.as_str()) {
        None => Err(refused(BindReason::NoOutputColumn, name.at)),
        Some(Sense::One(item)) => Ok(item),
        Some(Sense::Several) => Err(refused(BindReason::AmbiguousName, name.at)),
    }
}

/// A column of the FROM, if an output is that column.
fn item_shown(column: Column, at: usize, outputs: &Named<'_>) -> Result<Item, BindFault>
    ensures { Gives (λ item. item) result (spec.one_column at (items_showing column outputs.now)) }
{
    let item = Item::Column(column);
    match outputs.first_place(item) {
        None => Err(refused(BindReason::NoOutputColumn, at)),
        Some(_) => Ok(item),
    }
}

/// The column that a key means.
fn item_meant(name: &ColumnName, scope: &Scope<'_>, outputs: &Named<'_>) -> Result<Item, BindFault>
    ensures { Gives (λ item. item) result (spec.one_column (place_in_text name.now) (map (λ o. o.item) (spec.outputs_meant scope.now name.now.table name.now.name outputs.now))) }
{
    let Some(table) = &name.table else {
        return item_named(&name.name, outputs);
    };
    match qualified_in(table, &name.name, scope) {
        Ok(found) => item_shown(found.column, table.at, outputs),
        Err(Fault::Memory) => Err(Fault::Memory),
        Err(Fault::Refused(_)) => Err(refused(BindReason::NoOutputColumn, table.at)),
    }
}

fn sort_key(key: &OrderKey, scope: &Scope<'_>, outputs: &Named<'_>) -> Result<SortKey, BindFault>
    ensures { Gives (λ key. key) result (spec.sort_key_in scope.now outputs.now key.now) }
{
    let item = item_meant(&key.column, scope, outputs)?;
    Ok(SortKey {
        item: outputs.first_place(item).unwrap_or(0),
        descending: key.descending,
    })
}

/// The keys over outputs that are found by hash.
#[tactic(auto, unfolding(crate::specs::Ordering::order_in))]
fn order_over(
    alloc: Global,
    keys: &[OrderKey],
    scope: &Scope<'_>,
    outputs: &Named<'_>,
) -> Result<Items<SortKey>, BindFault>
    ensures { Gives (λ order. order) result (spec.order_in scope.now outputs.now keys.now) }
{
    let mut order = Items::new(alloc);
    let mut known = Places::new(alloc);
    for key in keys {
        let next = sort_key(key, scope, outputs)?;
        if !known.has(next.item) {
            known = known.with(next.item)?;
            order.push(next)?;
        }
    }
    Ok(order)
}

/// The keys. A later one over a column that is a key already is dropped.
pub fn order_by(
    alloc: Global,
    keys: &[OrderKey],
    scope: &Scope<'_>,
    outputs: &[Output],
) -> Result<Items<SortKey>, BindFault>
    ensures { Gives (λ order. order) result (spec.order_in scope.now outputs.now keys.now) }
{
    let outputs = Named::new(alloc, outputs)?;
    let order = order_over(alloc, keys, scope, &outputs)?;
    Ok(order)
}
