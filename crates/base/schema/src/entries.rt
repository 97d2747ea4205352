//! A schema's tables as JSON spells them, with columns by their names.

ghost use Rattle.std.specs.Prelude.{◌≡◌, map};
ghost use Rattle.serde_json.specs.View.{view};
ghost use Rattle.values.specs.Faults.{Gives};
ghost use Rattle.values.specs.declared.fault.Fault.TheVariants as fault;
ghost use Rattle.schema.specs.Entries as spec;

use crate::each::{ReadsItem, each};
use crate::fault::{SchemaFault, SchemaRefusal};
use crate::names::is_name;
use crate::schema::{Column, Kind};
use json_parts::{has_keys, items_of, json_of, member_of};
use serde_json::Value;
use std::alloc::Global;
use values::{Items, Text};

/// A table's entry whose lists name columns.
#[derive(Drop)]
pub struct TableEntry {
    pub name: Text,
    pub columns: Items<Column>,
    pub unique: Items<Items<Text>>,
    pub indexes: Items<Items<Text>>,
}

fn shape() -> SchemaFault
    ensures { result ≡ fault.Refused SchemaRefusal.Shape }
{
    SchemaFault::Refused(SchemaRefusal::Shape)
}

fn field<'v>(value: &'v Value, name: &str) -> Result<&'v Value, SchemaFault>
    ensures { Gives (λ v. view v.now) result (spec.field_in name.now (view value.now)) }
{
    member_of(value, name, SchemaRefusal::Shape)
}

fn array_items(value: &Value) -> Result<&[Value], SchemaFault>
    ensures { Gives (λ v. map view v.now) result (spec.items_in (view value.now)) }
{
    items_of(value, SchemaRefusal::Shape)
}

/// The items of the array that a member is.
#[tactic(auto, unfolding(crate::specs::Entries::member_items))]
fn member_items<'v>(value: &'v Value, name: &str) -> Result<&'v [Value], SchemaFault>
    ensures { Gives (λ v. map view v.now) result (spec.member_items name.now (view value.now)) }
{
    array_items(field(value, name)?)
}

fn some_of<T: Drop>(items: Items<T>) -> Result<Items<T>, SchemaFault>
    ensures { Gives (λ x. x) result (spec.some_of items) }
{
    if items.len() == 0 {
        return Err(shape());
    }
    Ok(items)
}

#[tactic(auto, unfolding(crate::specs::Entries::name_in))]
fn name_of(alloc: Global, value: &Value) -> Result<Text, SchemaFault>
    ensures { Gives (λ x. x) result (spec.name_in (view value.now)) }
{
    let Some(text) = value.as_str() else {
        return Err(shape());
    };
    if !is_name(text) {
        return Err(shape());
    }
    Ok(Text::from_str(alloc, text)?)
}

/// The name that the member `name` is.
#[tactic(auto, unfolding(crate::specs::Entries::member_name))]
fn member_name(alloc: Global, value: &Value) -> Result<Text, SchemaFault>
    ensures { Gives (λ x. x) result (spec.member_name (view value.now)) }
{
    name_of(alloc, field(value, "name")?)
}

#[tactic(auto, unfolding(crate::specs::Entries::kind_in))]
fn kind_of(value: &Value) -> Result<Kind, SchemaFault>
    ensures { Gives (λ k. k) result (spec.kind_in (view value.now)) }
{
    let Some(text) = value.as_str() else {
        return Err(shape());
    };
    if text == "INT" {
        return Ok(Kind::Int);
    }
    if text == "TEXT" {
        return Ok(Kind::Text);
    }
    Err(shape())
}

/// The kind that the member `kind` is.
#[tactic(auto, unfolding(crate::specs::Entries::member_kind))]
fn member_kind(value: &Value) -> Result<Kind, SchemaFault>
    ensures { Gives (λ k. k) result (spec.member_kind (view value.now)) }
{
    kind_of(field(value, "kind")?)
}

/// The flag that a member is.
#[tactic(auto, unfolding(crate::specs::Entries::member_flag))]
fn member_flag(value: &Value, name: &str) -> Result<bool, SchemaFault>
    ensures { Gives (λ b. b) result (spec.member_flag name.now (view value.now)) }
{
    match field(value, name)?.as_bool() {
        Some(flag) => Ok(flag),
        None => Err(shape()),
    }
}

/// Reads a name.
#[derive(Drop)]
struct NameReader;

impl ReadsItem<Value> for NameReader {
    type Output = Text;

    ghost item_in = { λ _ value. spec.name_in (view value) };

    fn read_item(&self, alloc: Global, item: &Value) -> Result<Text, SchemaFault> {
        name_of(alloc, item)
    }
}

/// Reads a list of names.
#[derive(Drop)]
struct ListReader;

impl ReadsItem<Value> for ListReader {
    type Output = Items<Text>;

    ghost item_in = { λ _ value. spec.names_in (view value) };

    fn read_item(&self, alloc: Global, item: &Value) -> Result<Items<Text>, SchemaFault> {
        names_of(alloc, item)
    }
}

/// Reads a column.
#[derive(Drop)]
struct ColumnReader;

impl ReadsItem<Value> for ColumnReader {
    type Output = Column;

    ghost item_in = { λ _ value. spec.column_in (view value) };

    fn read_item(&self, alloc: Global, item: &Value) -> Result<Column, SchemaFault> {
        column_of(alloc, item)
    }
}

/// Reads a table's entry.
#[derive(Drop)]
struct TableReader;

impl ReadsItem<Value> for TableReader {
    type Output = TableEntry;

    ghost item_in = { λ _ value. spec.table_in (view value) };

    fn read_item(&self, alloc: Global, item: &Value) -> Result<TableEntry, SchemaFault> {
        table_of(alloc, item)
    }
}

#[tactic(auto, unfolding(crate::specs::Entries::names_in), using(crate::proofs::Loops::each_seen))]
fn names_of(alloc: Global, value: &Value) -> Result<Items<Text>, SchemaFault>
    ensures { Gives (λ x. x) result (spec.names_in (view value.now)) }
{
    let names = each(alloc, &NameReader, array_items(value)?)?;
    some_of(names)
}

#[tactic(auto, unfolding(crate::specs::Entries::column_in))]
fn column_of(alloc: Global, value: &Value) -> Result<Column, SchemaFault>
    ensures { Gives (λ x. x) result (spec.column_in (view value.now)) }
{
    has_keys(value, 3, SchemaRefusal::Shape)?;
    let name = member_name(alloc, value)?;
    let kind = member_kind(value)?;
    let not_null = member_flag(value, "not_null")?;
    Ok(Column {
        name,
        kind,
        not_null,
    })
}

/// The columns of a table.
#[tactic(auto, unfolding(crate::specs::Entries::columns_in), using(crate::proofs::Loops::each_seen))]
fn columns_of(alloc: Global, table: &Value) -> Result<Items<Column>, SchemaFault>
    ensures { Gives (λ x. x) result (spec.columns_in (view table.now)) }
{
    let columns = each(alloc, &ColumnReader, member_items(table, "columns")?)?;
    some_of(columns)
}

/// The lists of names that a member of a table is.
#[tactic(auto, unfolding(crate::specs::Entries::lists_in), using(crate::proofs::Loops::each_seen))]
fn lists_of(alloc: Global, table: &Value, name: &str) -> Result<Items<Items<Text>>, SchemaFault>
    ensures { Gives (λ x. x) result (spec.lists_in name.now (view table.now)) }
{
    each(alloc, &ListReader, member_items(table, name)?)
}

#[tactic(auto, unfolding(crate::specs::Entries::table_in))]
fn table_of(alloc: Global, value: &Value) -> Result<TableEntry, SchemaFault>
    ensures { Gives (λ x. x) result (spec.table_in (view value.now)) }
{
    has_keys(value, 4, SchemaRefusal::Shape)?;
    let name = member_name(alloc, value)?;
    let columns = columns_of(alloc, value)?;
    let unique = lists_of(alloc, value, "unique")?;
    let indexes = lists_of(alloc, value, "indexes")?;
    Ok(TableEntry {
        name,
        columns,
        unique,
        indexes,
    })
}

/// The entries of the tables of a schema.
#[tactic(auto, unfolding(crate::specs::Entries::tables_in), using(crate::proofs::Loops::each_seen))]
fn tables_of(alloc: Global, schema: &Value) -> Result<Items<TableEntry>, SchemaFault>
    ensures { Gives (λ x. x) result (spec.tables_in (view schema.now)) }
{
    has_keys(schema, 1, SchemaRefusal::Shape)?;
    each(alloc, &TableReader, member_items(schema, "tables")?)
}

#[tactic(auto, unfolding(crate::specs::Entries::entries_in))]
pub fn entries_of(alloc: Global, bytes: &[u8]) -> Result<Items<TableEntry>, SchemaFault>
    ensures { Gives (λ x. x) result (spec.entries_in bytes.now) }
{
    let value = json_of(alloc, bytes, SchemaRefusal::NotJson)?;
    tables_of(alloc, &value)
}
