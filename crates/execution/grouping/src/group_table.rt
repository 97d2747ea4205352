//! The groups of rows that come a chunk at a time. What is kept are the groups' keys and aggregates, and none of the rows.

ghost use Rattle.std.specs.Prelude.{◌≡◌, ◌+◌, ◌^◌, ◌<◌, ℕ, false, List, [], ◌∷◌, length, map, slice_index_or, IfOk, MatchOption, OnOk};
ghost use Rattle.std.specs.List.{AllByRecursion};
ghost use Rattle.schema.specs.Databases.{Row};
ghost use Rattle.query.specs.Aggregates as spec;
ghost use Rattle.algebra.specs.Bags as bags;
ghost use Rattle.algebra.specs.Bags.{nulls};
ghost use Rattle.algebra.specs.Columns.{has};
ghost use Rattle.physical.specs.Origins.{AreReadable};
ghost use Rattle.relations.specs.Relations.{IsOutput, numbered_env, rows_of};
ghost use Rattle.relations.specs.MadeColumns.{made_values};
ghost use Rattle.relations.specs.RowColumns.{column_value};
ghost use Rattle.grouping.specs.Groups.{AreAfter, row_group_envs};
ghost use Rattle.grouping.specs.GroupTables.{AreNumberedFrom, HasGroups, HasRowsFrom, groups_seen, keys_seen, row_key};
ghost use Rattle.grouping.specs.KeyTables.{HasKeys};

use crate::aggregates::{add_to_group, values_of};
use crate::groups::Grouping;
use crate::key_table::KeyTable;
use algebra::{Aggregation, Columns};
use query::aggregates::{Running, column_of};
use query::{Aggregate, ColumnId};
use relations::{Env, MadeColumn, Part, Relation, RowColumn, row_column};
use std::alloc::{AllocError, Global};

/// Keys of groups in the order in which they were first seen, and aggregates of these groups.
#[derive(Drop)]
pub struct GroupTable<'t> {
    /// How many rows came.
    count: usize,
    keys: KeyTable<'t>,
    /// For each aggregate those of the groups.
    running: Vec<Vec<Running<'t>>>,
}

/// The columns of the keys in a chunk.
fn key_columns<'p, 't>(
    alloc: Global,
    chunk: &'p Relation<'t>,
    keys: &[ColumnId],
) -> Result<Vec<RowColumn<'p, 't>>, AllocError>
    ensures { (n : ℕ) → IfOk result (λ columns. map (λ column. column_value column n) columns.items ≡ map (numbered_env chunk.now nulls n) keys.now) }
{
    let mut columns = Vec::with_capacity(alloc, keys.len())?;
    for key in keys {
        columns.push(row_column(chunk, &Env::Empty, *key))?;
    }
    Ok(columns)
}

/// The number of each row's group, by its values in columns. The keys of groups that are new go last.
fn group_numbers<'p, 't>(
    alloc: Global,
    keys: &mut KeyTable<'t>,
    columns: &[RowColumn<'p, 't>],
    first: usize,
    count: usize,
) -> Result<Vec<usize>, AllocError>
    ghost of: { (ℕ → Row) × ℕ }
    requires first { first ≡ of.1 }
    requires shown { (i : ℕ) → i < count → map (λ column. column_value column i) columns.now ≡ of.0 (of.1 + i) }
    requires seen { HasKeys (length columns.now) (keys_seen of.0 of.1) keys.old }
    ensures seen { OnOk result (HasKeys (length columns.now) (keys_seen of.0 (of.1 + count)) keys.new) }
    ensures numbered { IfOk result (λ numbers. AreNumberedFrom of.0 of.1 numbers.items) }
    ensures each { IfOk result (λ numbers. length numbers.items ≡ count) }
{
    let mut numbers = Vec::with_capacity(alloc, count)?;
    for row in 0..count {
        let group = keys.number_of(alloc, columns, row)?;
        numbers.push(group)?;
    }
    Ok(numbers)
}

/// Takes the rows of a chunk into an aggregate of each group.
fn add_rows<'t>(
    running: &mut Vec<Running<'t>>,
    of: Aggregate,
    chunk: &Relation<'t>,
    numbers: &[usize],
    first: usize,
) -> Result<(), AllocError>
    ghost rows: { (ℕ → Row) × (ℕ → bags.Env) }
    requires few { first + chunk.now.rows.count < 2 ^ 64 }
    requires rows { HasRowsFrom rows.1 first chunk.now }
    requires read { AllByRecursion (spec.MayRead of) (rows_of chunk.now nulls) }
    requires numbered { AreNumberedFrom rows.0 first numbers.now }
    requires each { length numbers.now ≡ chunk.now.rows.count }
    requires after { AreAfter of (λ n. rows.1 n (spec.column_of of)) (groups_seen rows.0 first) running.old.items }
    ensures { OnOk result (AreAfter of (λ n. rows.1 n (spec.column_of of)) (groups_seen rows.0 (first + chunk.now.rows.count)) running.new.items) }
{
    let column = row_column(chunk, &Env::Empty, column_of(of));
    for row in 0..chunk.rows.count {
        add_to_group(running, numbers[row], of, column.cell(row))?;
    }
    Ok(())
}

impl<'t> GroupTable<'t> {
    /// Of no rows.
    pub fn new(
        alloc: Global,
        keys: &Columns,
        added: &[Aggregation],
    ) -> Result<GroupTable<'t>, AllocError>
        ensures empty { IfOk result (λ table. table.count ≡ 0) }
        ensures groups { (row : ℕ → bags.Env) → IfOk result (HasGroups keys.now added.now row) }
    {
        let mut running = Vec::with_capacity(alloc, added.len())?;
        for _ in added {
            running.push(Vec::new(alloc))?;
        }
        Ok(GroupTable {
            count: 0,
            keys: KeyTable::new(alloc, keys.as_slice().len())?,
            running,
        })
    }

    /// How many rows came.
    pub fn count(&self) -> usize
        ensures { result ≡ self.now.count }
    {
        self.count
    }

    /// Takes in the rows of a chunk.
    pub fn add(
        &mut self,
        alloc: Global,
        keys: &Columns,
        added: &[Aggregation],
        chunk: &Relation<'t>,
    ) -> Result<(), AllocError>
        ghost of: { List ℕ × (ℕ → bags.Env) }
        requires keys { keys.now ≡ of.0 }
        requires few { self.old.count + chunk.now.rows.count < 2 ^ 64 }
        requires rows { HasRowsFrom of.1 self.old.count chunk.now }
        requires read { AreReadable added.now (rows_of chunk.now nulls) }
        requires groups { HasGroups of.0 added.now of.1 self.old }
        ensures count { OnOk result (self.new.count ≡ self.old.count + chunk.now.rows.count) }
        ensures groups { OnOk result (HasGroups of.0 added.now of.1 self.new) }
    {
        let columns = key_columns(alloc, chunk, keys.as_slice())?;
        let count = chunk.rows.count;
        let numbers = group_numbers(alloc, &mut self.keys, columns.as_slice(), self.count, count)?;
        for (place, one) in added.iter().enumerate() {
            let running = &mut self.running[place];
            add_rows(
                running,
                one.aggregate,
                chunk,
                numbers.as_slice(),
                self.count,
            )?;
        }
        self.count += count;
        Ok(())
    }
}

/// The place of a column among those of the keys.
fn key_place(keys: &[ColumnId], column: ColumnId) -> Option<usize>
    ensures { MatchOption result (has keys.now column ≡ false) (λ place. (place < length keys.now) × (slice_index_or keys.now place 0 ≡ column)) }
{
    for (place, key) in keys.iter().enumerate() {
        if *key == column {
            return Some(place);
        }
    }
    None
}

impl<'t> GroupTable<'t> {
    /// A column of the groups as their keys have it; Null where these lack it.
    fn key_column(
        &self,
        alloc: Global,
        keys: &Columns,
        column: ColumnId,
    ) -> Result<MadeColumn<'t>, AllocError>
        ensures { (A : List Aggregation) (row : ℕ → bags.Env) → HasGroups keys.now A row self.now → IfOk result (λ made. made_values made ≡ map (λ group. bags.lay (has keys.now) (row group.first) nulls column) (groups_seen (row_key row keys.now) self.now.count)) }
    {
        self.keys.column(alloc, key_place(keys.as_slice(), column))
    }

    /// A column of the groups: an aggregate, or else as the keys have it.
    fn column(
        &self,
        alloc: Global,
        grouping: Grouping<'_>,
        column: ColumnId,
    ) -> Result<MadeColumn<'t>, AllocError>
        requires { length self.now.running.items ≡ length grouping.added.now }
        ensures { (row : ℕ → bags.Env) → HasGroups grouping.entry.keys.now grouping.entry.added.now row self.now → IfOk result (λ made. made_values made ≡ map (λ f. f column) (row_group_envs grouping.entry row nulls (groups_seen (row_key row grouping.entry.keys.now) self.now.count))) }
    {
        for (place, one) in grouping.added.iter().enumerate() {
            if one.column == column {
                let cells = values_of(alloc, self.running[place].as_slice())?;
                return Ok(MadeColumn::Cells(cells));
            }
        }
        self.key_column(alloc, grouping.keys, column)
    }

    /// The columns of the groups.
    fn parts(
        &self,
        alloc: Global,
        grouping: Grouping<'_>,
        columns: &[ColumnId],
    ) -> Result<Vec<Part<'t>>, AllocError>
        requires { length self.now.running.items ≡ length grouping.added.now }
        ensures { (row : ℕ → bags.Env) → HasGroups grouping.entry.keys.now grouping.entry.added.now row self.now → IfOk result (λ parts. parts.items ≡ map (λ c. map (λ f. f c ∷ []) (row_group_envs grouping.entry row nulls (groups_seen (row_key row grouping.entry.keys.now) self.now.count))) columns.now) }
    {
        let mut parts = Vec::with_capacity(alloc, columns.len())?;
        for column in columns {
            let made = self.column(alloc, grouping, *column)?;
            parts.push(Part::of_column(made))?;
        }
        Ok(parts)
    }

    /// The rows of the groups, as their keys were first seen.
    pub fn rows(
        &self,
        alloc: Global,
        grouping: Grouping<'_>,
        columns: Columns,
    ) -> Result<Relation<'t>, AllocError>
        requires { (row : ℕ → bags.Env) × HasGroups grouping.keys.now grouping.added.now row self.now }
        ensures { (row : ℕ → bags.Env) → HasGroups grouping.entry.keys.now grouping.entry.added.now row self.now → IfOk result (IsOutput columns (map (λ f. bags.lay (has columns) f nulls) (row_group_envs grouping.entry row nulls (groups_seen (row_key row grouping.entry.keys.now) self.now.count))) nulls) }
    {
        let parts = self.parts(alloc, grouping, columns.as_slice())?;
        Relation::made(alloc, columns, self.keys.len(), parts)
    }
}
