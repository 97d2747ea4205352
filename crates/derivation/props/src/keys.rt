//! Sets of keys.

ghost use Rattle.std.specs.Prelude.{◌≡◌, ◌==◌, ◌∷◌, Bool, [], length, IfOk, IsOk, OnErr, OnOk};
ghost use Rattle.std.specs.List.{list_any};
ghost use Rattle.props.specs.Keys as spec;
ghost use Rattle.props.specs.Keys.{HasRoomFor, came, in_order, with_key, with_keys};

use indexmap::IndexSet;
use query::ColumnId;
use std::alloc::{AllocError, Global};
use std::marker::Model;
use std::mem;

/// Keys by their hash. No table stands for none of them, so that a class of which no key is known takes little room.
type KeyTable = Option<Box<IndexSet<Vec<ColumnId>>>>;

/// A set of keys, each found by its hash. Contracts see them in rising order.
pub struct Keys {
    table: KeyTable,
}

// By hand, so that where it is dropped is one call.
impl Drop for Keys {
    fn drop(self) {
        let Keys { table: _ } = self;
    }
}

impl Model for Keys {
    ghost use Rattle.std.specs.Prelude.{ℕ, List};
    ghost use Rattle.props.specs.Keys.{came, in_order};

    ghost Value = { List (List ℕ) };

    ghost view = { λ k. in_order (came k.table) };
}

impl Keys {
    pub fn none() -> Keys
        ensures { result ≡ [] }
    {
        Keys { table: None }
    }

    /// The keys, in the order in which they came.
    pub fn as_slice(&self) -> &[Vec<ColumnId>]
        ensures { (p : spec.Key → Bool) → list_any (λ key. p key.items) result.now ≡ list_any p self.now }
    {
        match &self.table {
            Some(keys) => keys.as_slice(),
            None => &[],
        }
    }

    pub fn len(&self) -> usize {
        match &self.table {
            Some(keys) => keys.len(),
            None => 0,
        }
    }

    pub fn is_empty(&self) -> bool
        ensures { result ≡ (length self.now == 0) }
    {
        match &self.table {
            Some(keys) => keys.len() == 0,
            None => true,
        }
    }

    /// They stand in rising order: a law.
    pub(crate) fn are_in_order(&self)
        ensures { with_keys [] self.now ≡ self.now }
    {
        let _ = &self.table;
    }

    pub fn contains(&self, key: &[ColumnId]) -> bool
        ensures { result ≡ spec.has_key self.now key.now }
    {
        match &self.table {
            Some(keys) => keys.contains(key),
            None => false,
        }
    }

    /// Adds a key, unless it is there.
    pub fn insert(&mut self, alloc: Global, key: &[ColumnId]) -> Result<(), AllocError>
        ensures added { OnOk result (self.new ≡ spec.with_key self.old key.now) }
        ensures refused { OnErr result (self.new ≡ self.old) }
    {
        if self.contains(key) {
            return Ok(());
        }
        insert(alloc, &mut self.table, Vec::from_slice(alloc, key)?)
    }
}

/// A table of one key.
fn table_of(alloc: Global, key: Vec<ColumnId>) -> Result<KeyTable, AllocError>
    ensures { IfOk result (λ table. came table ≡ key.items ∷ []) }
{
    let mut keys = IndexSet::new(alloc);
    keys.insert(key)?;
    Ok(Some(Box::new(alloc, keys)?))
}

/// Adds a key to a table.
fn insert(alloc: Global, table: &mut KeyTable, key: Vec<ColumnId>) -> Result<(), AllocError>
    ensures added { OnOk result (in_order (came table.new) ≡ with_key (in_order (came table.old)) key.items) }
    ensures refused { OnErr result (came table.new ≡ came table.old) }
{
    match table {
        Some(keys) => {
            keys.insert(key)?;
        }
        None => *table = table_of(alloc, key)?,
    }
    Ok(())
}

/// Makes room in a table for the keys of another.
fn make_room(table: &mut KeyTable, more: &KeyTable) -> Result<(), AllocError>
    ensures same { came table.new ≡ came table.old }
    ensures room { OnOk result (HasRoomFor table.new more.now) }
{
    match (table, more) {
        (Some(keys), Some(more)) => keys.reserve(more.len()),
        _ => Ok(()),
    }
}

/// Moves the keys of a table to another. Where there is no memory, both stay as they are.
fn append(table: &mut KeyTable, more: &mut KeyTable) -> Result<(), AllocError>
    ensures moved { OnOk result (in_order (came table.new) ≡ with_keys (in_order (came table.old)) (in_order (came more.old))) }
    ensures refused { OnErr result ((came table.new ≡ came table.old) × (came more.new ≡ came more.old)) }
    ensures succeeds { HasRoomFor table.old more.old → IsOk result }
{
    let Some(others) = more else {
        return Ok(());
    };
    match table {
        Some(keys) => keys.append(&mut **others),
        None => {
            mem::swap(table, more);
            Ok(())
        }
    }
}

/// Moves the keys of two sets into two others, `more` into `first` and `others` into `second`. Where there is no memory, all four
/// stay as they are.
pub(crate) fn append_both(
    first: &mut Keys,
    more: &mut Keys,
    second: &mut Keys,
    others: &mut Keys,
) -> Result<(), AllocError>
    ensures first { OnOk result (first.new ≡ spec.with_keys first.old more.old) }
    ensures second { OnOk result (second.new ≡ spec.with_keys second.old others.old) }
    ensures refused { OnErr result ((first.new ≡ first.old) × (more.new ≡ more.old) × (second.new ≡ second.old) × (others.new ≡ others.old)) }
{
    make_room(&mut first.table, &more.table)?;
    append(&mut second.table, &mut others.table)?;
    let Ok(()) = append(&mut first.table, &mut more.table) else {
        unreachable!()
    };
    Ok(())
}
