//! What a SELECT shows: its items, their names, and what a grouped one may show.

ghost use Rattle.std.specs.Prelude.{◌≡◌, ◌+◌, ◌++◌, ◌==◌, ◌||◌, nat_lt, filter, length, IfOk, OnOk};
ghost use Rattle.std.specs.List.{list_any, list_all};
ghost use Rattle.schema.specs.Each.{each};
ghost use Rattle.values.specs.Faults.{Gives};
ghost use Rattle.binder.specs.Outputs as spec;
ghost use Rattle.binder.specs.Chained.{scopes_of};

use crate::fault::{BindFault, BindReason, refused};
use crate::places::Places;
use crate::scope::{Scope, Scopes, TypedColumn, meant, place_in_text};
use query::ids::id_of;
use query::{Aggregate, Column, Item};
use schema::Kind;
use sql_parse::statement::{
    AggregateCall, AggregateFunction, ColumnName, ItemValue, SelectItem, SelectList,
};
use std::alloc::{AllocError, Global};
use values::{Items, Text};

/// An output column.
#[derive(Drop)]
pub struct Output {
    pub name: Text,
    pub item: Item,
    pub kind: Kind,
}

/// Whether a SELECT is grouped, and by which columns of its FROM.
#[derive(Clone, Copy)]
pub struct Grouping<'a> {
    pub grouped: bool,
    pub keys: &'a Places,
}

impl Grouping<'_> {
    /// Whether a column may be shown: in a grouped SELECT one of its own FROM is a key.
    fn shows(&self, column: Column) -> bool
        ensures { result ≡ spec.shows self.now.grouped self.now.keys.now column }
    {
        !self.grouped || column.level != 0 || self.keys.has(column.place)
    }
}

fn is_aggregate(item: &SelectItem) -> bool
    ensures { result ≡ spec.is_aggregate item.now }
{
    matches!(&item.value, ItemValue::Aggregate(_))
}

/// How many aggregates a SELECT shows.
pub fn aggregates(list: &SelectList) -> usize
    ensures { result ≡ spec.aggregates list.now }
{
    match list {
        SelectList::Star(_) => 0,
        SelectList::Items(items) => items
            .as_slice()
            .iter()
            .filter(|item| is_aggregate(item))
            .count(),
    }
}

/// Whether a SELECT with so many GROUP BY columns and aggregates is grouped.
pub fn is_grouped(keys: usize, aggregates: usize, has_having: bool) -> bool
    ensures { result ≡ (nat_lt 0 keys || nat_lt 0 aggregates || has_having) }
{
    keys > 0 || aggregates > 0 || has_having
}

/// The GROUP BY columns, by their places in the own FROM.
pub fn keys(
    alloc: Global,
    group: &[ColumnName],
    scopes: &Scopes<'_, '_>,
) -> Result<Places, BindFault>
    ensures { Gives (λ keys. keys) result (each (spec.key_in (scopes_of scopes.now)) group.now) }
{
    let mut keys = Places::new(alloc);
    for name in group {
        keys = keys.with(key(name, scopes)?)?;
    }
    Ok(keys)
}

fn key(name: &ColumnName, scopes: &Scopes<'_, '_>) -> Result<usize, BindFault>
    ensures { Gives (λ place. place) result (spec.key_in (scopes_of scopes.now) name.now) }
{
    let found = meant(name, scopes)?;
    if found.column.level != 0 {
        return Err(refused(BindReason::UngroupedColumn, place_in_text(name)));
    }
    Ok(found.column.place)
}

/// The output name of an item: its alias, or else its column's name or its function's.
fn output_name(alloc: Global, item: &SelectItem) -> Result<Text, AllocError>
    ensures { IfOk result (λ name. name ≡ spec.output_name item.now.alias item.now.value) }
{
    if let Some(alias) = &item.alias {
        return alias.text.copy(alloc);
    }
    match &item.value {
        ItemValue::Column(column) => column.name.text.copy(alloc),
        ItemValue::Aggregate(call) => Text::from_str(alloc, function_name(call.function)),
    }
}

fn function_name(function: AggregateFunction) -> &'static str
    ensures { result.now ≡ spec.function_name function }
{
    match function {
        AggregateFunction::Count => "count",
        AggregateFunction::Sum => "sum",
        AggregateFunction::Min => "min",
        AggregateFunction::Max => "max",
    }
}

/// An aggregate of a column of the own FROM, and its kind.
fn aggregate_of(call: &AggregateCall, own: TypedColumn) -> Result<(Aggregate, Kind), BindFault>
    ensures { Gives (λ found. found) result (spec.aggregate_of call.now.function call.now.at own) }
{
    let place = id_of(own.column.place)?;
    match call.function {
        AggregateFunction::Count => Ok((Aggregate::Count(place), Kind::Int)),
        AggregateFunction::Sum => match own.kind {
            Kind::Int => Ok((Aggregate::Sum(place), Kind::Int)),
            Kind::Text => Err(refused(BindReason::SumOfText, call.at)),
        },
        AggregateFunction::Min => Ok((Aggregate::Min(place), own.kind)),
        AggregateFunction::Max => Ok((Aggregate::Max(place), own.kind)),
    }
}

/// An aggregate that a text calls, and its kind.
pub fn aggregate_in(
    call: &AggregateCall,
    scopes: &Scopes<'_, '_>,
) -> Result<(Aggregate, Kind), BindFault>
    ensures { Gives (λ found. found) result (spec.aggregate_in (scopes_of scopes.now) call.now.function call.now.at call.now.column) }
{
    let Some(column) = &call.column else {
        return Ok((Aggregate::CountRows, Kind::Int));
    };
    let found = meant(column, scopes)?;
    if found.column.level != 0 {
        return Err(refused(BindReason::OuterAggregate, call.at));
    }
    aggregate_of(call, found)
}

/// What an item shows; `number` is its own if it is an aggregate.
fn item_and_kind(
    value: &ItemValue,
    number: usize,
    grouping: Grouping<'_>,
    scopes: &Scopes<'_, '_>,
) -> Result<(Item, Kind), BindFault>
    ensures { Gives (λ found. found) result (spec.item_in (scopes_of scopes.now) grouping.entry.grouped grouping.entry.keys.now number value.now) }
{
    match value {
        ItemValue::Column(name) => {
            let found = meant(name, scopes)?;
            if !grouping.shows(found.column) {
                return Err(refused(BindReason::UngroupedColumn, place_in_text(name)));
            }
            Ok((Item::Column(found.column), found.kind))
        }
        ItemValue::Aggregate(call) => {
            let (aggregate, kind) = aggregate_in(call, scopes)?;
            Ok((Item::Aggregate(id_of(number)?, aggregate), kind))
        }
    }
}

fn output_of(
    alloc: Global,
    item: &SelectItem,
    number: usize,
    grouping: Grouping<'_>,
    scopes: &Scopes<'_, '_>,
) -> Result<Output, BindFault>
    ensures { Gives (λ output. output) result (spec.output_in (scopes_of scopes.now) grouping.entry.grouped grouping.entry.keys.now number item.now) }
{
    let (shown, kind) = item_and_kind(&item.value, number, grouping, scopes)?;
    Ok(Output {
        name: output_name(alloc, item)?,
        item: shown,
        kind,
    })
}

/// The outputs of items, whose aggregates are numbered on.
fn outputs_of_items(
    alloc: Global,
    items: &[SelectItem],
    first_number: usize,
    grouping: Grouping<'_>,
    scopes: &Scopes<'_, '_>,
) -> Result<Items<Output>, BindFault>
    ensures { Gives (λ outputs. outputs) result (spec.items_in (scopes_of scopes.now) grouping.entry.grouped grouping.entry.keys.now first_number items.now) }
{
    let mut outputs = Items::new(alloc);
    let mut number = first_number;
    for item in items {
        outputs.push(output_of(alloc, item, number, grouping, scopes)?)?;
        if is_aggregate(item) {
            number = number.checked_add(1).ok_or(AllocError)?;
        }
    }
    Ok(outputs)
}

/// Adds all columns of a table, and gives the place behind them.
fn push_columns(
    alloc: Global,
    columns: &[schema::Column],
    first_place: usize,
    outputs: &mut Items<Output>,
) -> Result<usize, AllocError>
    ensures place { IfOk result (λ place. place ≡ first_place + length columns.now) }
    ensures pushed { OnOk result (outputs.new ≡ outputs.old ++ spec.columns_from first_place columns.now) }
{
    let mut place = first_place;
    for column in columns {
        outputs.push(Output {
            name: column.name.copy(alloc)?,
            item: Item::Column(Column { level: 0, place }),
            kind: column.kind,
        })?;
        place = place.checked_add(1).ok_or(AllocError)?;
    }
    Ok(place)
}

/// All columns of a FROM, in order.
fn all_columns(alloc: Global, scope: &Scope<'_>) -> Result<Items<Output>, AllocError>
    ensures { IfOk result (λ outputs. outputs ≡ spec.all_columns 0 scope.now) }
{
    let mut outputs = Items::new(alloc);
    let mut place = 0;
    for table in scope.tables() {
        place = push_columns(alloc, table.entry.columns.as_slice(), place, &mut outputs)?;
    }
    Ok(outputs)
}

fn is_shown(grouping: Grouping<'_>, item: Item) -> bool
    ensures { result ≡ spec.is_shown grouping.entry.grouped grouping.entry.keys.now item }
{
    match item {
        Item::Column(column) => grouping.shows(column),
        Item::Aggregate(_, _) => true,
    }
}

fn are_shown(grouping: Grouping<'_>, outputs: &[Output]) -> bool
    ensures { result ≡ list_all (λ o. spec.is_shown grouping.entry.grouped grouping.entry.keys.now o.item) outputs.now }
{
    outputs.iter().all(|output| is_shown(grouping, output.item))
}

/// What a SELECT shows. Its own scope is the innermost.
pub fn outputs(
    alloc: Global,
    list: &SelectList,
    first_number: usize,
    grouping: Grouping<'_>,
    own: &Scope<'_>,
    scopes: &Scopes<'_, '_>,
) -> Result<Items<Output>, BindFault>
    ensures { Gives (λ outputs. outputs) result (spec.outputs_in own.now (scopes_of scopes.now) grouping.entry.grouped grouping.entry.keys.now first_number list.now) }
{
    match list {
        SelectList::Items(items) => {
            outputs_of_items(alloc, items.as_slice(), first_number, grouping, scopes)
        }
        SelectList::Star(at) => {
            let outputs = all_columns(alloc, own)?;
            if !are_shown(grouping, outputs.as_slice()) {
                return Err(refused(BindReason::UngroupedColumn, *at));
            }
            Ok(outputs)
        }
    }
}
