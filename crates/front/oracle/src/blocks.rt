//! What a block shows of the rows of its FROM at which its WHERE holds.

ghost use Rattle.std.specs.Prelude.{◌≡◌, ◌∷◌, [], map, filter, IfOk};
ghost use Rattle.values.specs.Cells.{value_of};
ghost use Rattle.schema.specs.Databases as databases;
ghost use Rattle.query.specs.Aggregates as groups;
ghost use Rattle.query.specs.Aggregates.{AreShort};
ghost use Rattle.query.specs.Meaning as spec;
ghost use Rattle.query.specs.Rows as rows;
ghost use Rattle.oracle.specs.Given.{env_of, rows_at};
ghost use Rattle.oracle.specs.Views.{view_of_row, view_of_group, views};

use crate::aggregates::aggregate;
use crate::environment::{Env, value_at};
use crate::rows::{Row, distinct, same_rows};
use query::{Block, Item};
use std::alloc::{AllocError, Global};
use values::{Cell, Items, Value};

/// What a block shows of a row of its FROM, or of a group.
#[derive(Drop)]
pub struct View {
    /// The row that its HAVING sees.
    pub asked: Row,
    /// The row of its items.
    pub shown: Row,
}

/// An item of a row; an aggregate stands in grouped blocks alone.
fn item_of_row(alloc: Global, env: &Env<'_>, row: &[Value], item: Item) -> Result<Value, AllocError>
    ensures { IfOk result (λ v. v ≡ spec.item_of_row (env_of env.now) row.now item) }
{
    match item {
        Item::Column(column) => {
            let inner = Env::Inner(row, env);
            inner.column(column).to_value(alloc)
        }
        Item::Aggregate(_, _) => Ok(Value::Null),
    }
}

fn items_of_row(
    alloc: Global,
    items: &[Item],
    env: &Env<'_>,
    row: &[Value],
) -> Result<Row, AllocError>
    ensures { IfOk result (λ values. values ≡ spec.row_of_row (env_of env.now) items.now row.now) }
{
    let mut values = Items::new(alloc);
    for item in items {
        values.push(item_of_row(alloc, env, row, *item)?)?;
    }
    Ok(values)
}

/// What a block shows of each row of its FROM.
fn views_of_rows(
    alloc: Global,
    block: &Block,
    env: &Env<'_>,
    source: &[Row],
) -> Result<Vec<View>, AllocError>
    ensures { IfOk result (λ all. all.items ≡ map (view_of_row block.now (env_of env.now)) source.now) }
{
    let mut all = Vec::new(alloc);
    for row in source {
        let asked = items_of_row(alloc, block.having_items.as_slice(), env, row.as_slice())?;
        let shown = items_of_row(alloc, block.items.as_slice(), env, row.as_slice())?;
        all.push(View { asked, shown })?;
    }
    Ok(all)
}

/// A row's values at the places.
fn values_at(alloc: Global, places: &[usize], row: &[Value]) -> Result<Row, AllocError>
    ensures { IfOk result (λ values. values ≡ databases.values_at places.now row.now) }
{
    let mut values = Items::new(alloc);
    for place in places {
        values.push(value_at(row, *place).to_value(alloc)?)?;
    }
    Ok(values)
}

/// The key of each row.
fn row_keys(alloc: Global, keys: &[usize], source: &[Row]) -> Result<Vec<Row>, AllocError>
    ensures { IfOk result (λ all. all.items ≡ map (databases.values_at keys.now) source.now) }
{
    let mut all = Vec::new(alloc);
    for row in source {
        all.push(values_at(alloc, keys, row.as_slice())?)?;
    }
    Ok(all)
}

/// The keys of the groups; without GROUP BY all rows are one group, also where there are none.
fn group_keys(alloc: Global, keys: &[usize], source: &[Row]) -> Result<Vec<Row>, AllocError>
    ensures { IfOk result (λ found. map (groups.group_of keys.now source.now) found.items ≡ groups.groups keys.now source.now) }
{
    if keys.is_empty() {
        let mut one = Vec::new(alloc);
        one.push(Items::new(alloc))?;
        return Ok(one);
    }
    distinct(alloc, row_keys(alloc, keys, source)?)
}

/// Whether a row has this key.
fn has_key(alloc: Global, keys: &[usize], row: &[Value], key: &[Value]) -> Result<bool, AllocError>
    ensures { IfOk result (λ b. b ≡ rows.same_rows key.now (databases.values_at keys.now row.now)) }
{
    let own = values_at(alloc, keys, row)?;
    Ok(same_rows(key, own.as_slice()))
}

/// The rows with this key.
fn members<'s>(
    alloc: Global,
    keys: &[usize],
    source: &'s [Row],
    key: &[Value],
) -> Result<Vec<&'s Row>, AllocError>
    ensures { IfOk result (λ found. rows_at found.items ≡ filter (λ r. rows.same_rows key.now (databases.values_at keys.now r)) source.entry.now) }
{
    let mut found = Vec::new(alloc);
    for row in source {
        let shared = has_key(alloc, keys, row.as_slice(), key)?;
        if shared {
            found.push(row)?;
        }
    }
    Ok(found)
}

/// A key's value, by the place of its column.
fn key_value<'k>(keys: &[usize], key: &'k [Value], place: usize) -> Cell<'k>
    ensures { value_of result ≡ spec.key_value keys.now key.entry.now place }
{
    let [own, keys @ ..] = keys else {
        return Cell::Null;
    };
    let [value, key @ ..] = key else {
        return Cell::Null;
    };
    if *own == place {
        value.as_cell()
    } else {
        key_value(keys, key, place)
    }
}

/// An item of a group: a column of the own FROM is a key.
fn item_of_group(
    alloc: Global,
    keys: &[usize],
    env: &Env<'_>,
    key: &[Value],
    members: &[&Row],
    item: Item,
) -> Result<Value, AllocError>
    requires { AreShort (rows_at members.now) }
    ensures { IfOk result (λ v. v ≡ spec.item_of_group keys.now (env_of env.now) (record { key = key.now; rows = rows_at members.now }) item) }
{
    match item {
        Item::Column(column) => if column.level == 0 {
            key_value(keys, key, column.place).to_value(alloc)
        } else {
            let inner = Env::Inner(&[], env);
            inner.column(column).to_value(alloc)
        },
        Item::Aggregate(_, of) => aggregate(alloc, of, members),
    }
}

fn items_of_group(
    alloc: Global,
    keys: &[usize],
    items: &[Item],
    env: &Env<'_>,
    key: &[Value],
    members: &[&Row],
) -> Result<Row, AllocError>
    requires { AreShort (rows_at members.now) }
    ensures { IfOk result (λ values. values ≡ spec.row_of_group keys.now (env_of env.now) items.now (record { key = key.now; rows = rows_at members.now })) }
{
    let mut values = Items::new(alloc);
    for item in items {
        values.push(item_of_group(alloc, keys, env, key, members, *item)?)?;
    }
    Ok(values)
}

/// What a block shows of a group.
fn view_of_group(
    alloc: Global,
    block: &Block,
    env: &Env<'_>,
    key: &[Value],
    members: &[&Row],
) -> Result<View, AllocError>
    requires { AreShort (rows_at members.now) }
    ensures { IfOk result (λ view. view ≡ view_of_group block.now (env_of env.now) (record { key = key.now; rows = rows_at members.now })) }
{
    let keys = block.keys.as_slice();
    let asked = items_of_group(
        alloc,
        keys,
        block.having_items.as_slice(),
        env,
        key,
        members,
    )?;
    let shown = items_of_group(alloc, keys, block.items.as_slice(), env, key, members)?;
    Ok(View { asked, shown })
}

/// What a block shows of each group.
fn views_of_groups(
    alloc: Global,
    block: &Block,
    env: &Env<'_>,
    source: &[Row],
) -> Result<Vec<View>, AllocError>
    requires { AreShort source.now }
    ensures { IfOk result (λ all. all.items ≡ map (view_of_group block.now (env_of env.now)) (groups.groups block.now.keys source.now)) }
{
    let keys = block.keys.as_slice();
    let group_keys = group_keys(alloc, keys, source)?;
    let mut all = Vec::new(alloc);
    for key in group_keys.as_slice() {
        let members = members(alloc, keys, source, key.as_slice())?;
        let view = view_of_group(alloc, block, env, key.as_slice(), members.as_slice())?;
        all.push(view)?;
    }
    Ok(all)
}

/// What a block shows of these rows, or of their groups, before its HAVING.
pub fn views(
    alloc: Global,
    block: &Block,
    env: &Env<'_>,
    source: &[Row],
) -> Result<Vec<View>, AllocError>
    requires { AreShort source.now }
    ensures { IfOk result (λ all. all.items ≡ views block.now (env_of env.now) source.now) }
{
    if block.grouped {
        views_of_groups(alloc, block, env, source)
    } else {
        views_of_rows(alloc, block, env, source)
    }
}
