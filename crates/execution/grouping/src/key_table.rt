//! The keys of groups. They have values of their own, so that they stay when the rows go that they were seen in.

ghost use Rattle.std.specs.Prelude.{◌≡◌, ◌<◌, ◌++◌, ◌∷◌, ℕ, List, [], length, map, replicate, slice_index_or, IfOk, OnOk};
ghost use Rattle.schema.specs.Databases.{Row};
ghost use Rattle.values.specs.declared.value.Value.TheVariants as value;
ghost use Rattle.store.specs.Keys.{key_eq};
ghost use Rattle.relations.specs.MadeColumns.{made_values};
ghost use Rattle.grouping.specs.Groups.{with_founder};
ghost use Rattle.grouping.specs.KeyBuckets.{IsGroup, column_key, key_hash};
ghost use Rattle.grouping.specs.KeyTables.{HasKeys, placed_value};

use crate::group_hashes::GroupHashes;
use crate::keys::row_hash;
use relations::{MadeColumn, RowColumn};
use std::alloc::{AllocError, Global};
use values::Cell;

/// Keys by columns, in the order in which they were first seen, and what they hash to.
#[derive(Drop)]
pub struct KeyTable<'t> {
    columns: Vec<MadeColumn<'t>>,
    hashes: GroupHashes,
}

/// So many Nulls.
fn nulls<'t>(alloc: Global, count: usize) -> Result<MadeColumn<'t>, AllocError>
    ensures { IfOk result (λ column. made_values column ≡ replicate count value.Null) }
{
    let mut column = MadeColumn::with_capacity(alloc, count)?;
    for _ in 0..count {
        column.push(alloc, Cell::Null)?;
    }
    Ok(column)
}

impl<'t> KeyTable<'t> {
    /// No keys, of so many values each.
    pub fn new(alloc: Global, width: usize) -> Result<KeyTable<'t>, AllocError>
        ensures { IfOk result (HasKeys width []) }
    {
        let mut columns = Vec::with_capacity(alloc, width)?;
        for _ in 0..width {
            columns.push(MadeColumn::new(alloc))?;
        }
        Ok(KeyTable {
            columns,
            hashes: GroupHashes::new(alloc)?,
        })
    }

    /// How many keys there are.
    pub fn len(&self) -> usize
        ensures { (width : ℕ) (keys : List Row) → HasKeys width keys self.now → result ≡ length keys }
    {
        self.hashes.len()
    }

    /// Whether a key is that of a row.
    fn has_key(&self, group: usize, columns: &[RowColumn<'_, 't>], row: usize) -> bool
        ghost keys: { List Row }
        requires keys { HasKeys (length columns.now) keys self.now }
        requires within { group < length keys }
        ensures { result ≡ key_eq (column_key columns.now row) (slice_index_or keys group []) }
    {
        for (place, column) in columns.iter().enumerate() {
            if column.cell(row) != self.columns[place].cell(group) {
                return false;
            }
        }
        true
    }

    /// The number of a row's key, or the next one where it isn't there. Its hash is given.
    fn found(&self, columns: &[RowColumn<'_, 't>], row: usize, hash: u32) -> usize
        ghost keys: { List Row }
        requires keys { HasKeys (length columns.now) keys self.now }
        requires hash { hash ≡ key_hash (column_key columns.now row) }
        ensures { IsGroup keys (column_key columns.now row) result }
    {
        let mut from = self.hashes.last(hash);
        while from > 0 {
            let group = from - 1;
            if self.has_key(group, columns, row) {
                return group;
            }
            from = self.hashes.before(group);
        }
        self.hashes.len()
    }

    /// Puts a row's key behind the others. Its hash is given.
    fn push(
        &mut self,
        alloc: Global,
        columns: &[RowColumn<'_, 't>],
        row: usize,
        hash: u32,
    ) -> Result<(), AllocError>
        ghost keys: { List Row }
        requires keys { HasKeys (length columns.now) keys self.old }
        requires hash { hash ≡ key_hash (column_key columns.now row) }
        ensures { OnOk result (HasKeys (length columns.now) (keys ++ column_key columns.now row ∷ []) self.new) }
    {
        for (place, column) in columns.iter().enumerate() {
            self.columns[place].push(alloc, column.cell(row))?;
        }
        self.hashes.push(alloc, hash)?;
        Ok(())
    }

    /// The number of a row's key. One that is new goes last.
    pub fn number_of(
        &mut self,
        alloc: Global,
        columns: &[RowColumn<'_, 't>],
        row: usize,
    ) -> Result<usize, AllocError>
        ghost keys: { List Row }
        requires { HasKeys (length columns.now) keys self.old }
        ensures group { IfOk result (IsGroup keys (column_key columns.now row)) }
        ensures keys { IfOk result (λ group. HasKeys (length columns.now) (with_founder keys group (column_key columns.now row)) self.new) }
    {
        let hash = row_hash(columns, row);
        let group = self.found(columns, row, hash);
        if group == self.hashes.len() {
            self.push(alloc, columns, row, hash)?;
        }
        Ok(group)
    }

    /// The values at a place of the keys; Nulls where there is none.
    pub fn column(&self, alloc: Global, place: Option<usize>) -> Result<MadeColumn<'t>, AllocError>
        ensures { (width : ℕ) (keys : List Row) → HasKeys width keys self.now → IfOk result (λ made. made_values made ≡ map (placed_value place) keys) }
    {
        let Some(place) = place else {
            return nulls(alloc, self.hashes.len());
        };
        if place >= self.columns.len() {
            return nulls(alloc, self.hashes.len());
        }
        self.columns[place].copy(alloc)
    }
}
