//! Groups and distinct rows of rows that come a chunk at a time. None of the others is kept.

ghost use Rattle.std.specs.Prelude.{◌≡◌, ◌^◌, ◌<◌, ◌++◌, List, length, slice_index_or, IfOk, MatchOption};
ghost use Rattle.algebra.specs.Bags as bags;
ghost use Rattle.algebra.specs.Bags.{nulls};
ghost use Rattle.algebra.specs.Columns.{rising};
ghost use Rattle.algebra.specs.Expressions as expressions;
ghost use Rattle.physical.specs.Origins.{AreReadable};
ghost use Rattle.relations.specs.Relations.{IsOutput};
ghost use Rattle.selections.specs.RowChunks.{chunks_to_come};
ghost use Rattle.grouping.specs.GroupTables.{HasGroups};
ghost use Rattle.grouping.specs.Totals.{AreTotals};

use crate::group_table::GroupTable;
use crate::groups::Grouping;
use crate::totals::Totals;
use algebra::{Aggregation, Columns};
use relations::{Env, Relation};
use selections::RowChunks;
use std::alloc::{AllocError, Global};

/// No more rows are taken in: past 2^64 an aggregate's count would not hold them.
const MOST_ROWS: usize = 4_611_686_018_427_387_904;

/// The aggregates of all rows; none where these are more than may be taken in.
fn totals_of<'t>(
    alloc: Global,
    added: &[Aggregation],
    chunks: RowChunks<'_, 't>,
) -> Result<Option<Totals<'t>>, AllocError>
    ghost all: { List bags.Env }
    requires all { chunks_to_come chunks ≡ all }
    requires read { AreReadable added.now all }
    ensures { IfOk result (λ found. MatchOption found (2 ^ 62 < length all) (AreTotals added.now all)) }
{
    let mut chunks = chunks;
    let mut totals = Totals::new(alloc, added)?;
    while let Some(chunk) = chunks.next_chunk(alloc)? {
        if chunk.rows.count > MOST_ROWS - totals.count() {
            return Ok(None);
        }
        totals.add(added, &chunk, &Env::Empty);
    }
    Ok(Some(totals))
}

/// The groups of all rows; none where these are more than may be taken in.
fn table_of<'t>(
    alloc: Global,
    keys: &Columns,
    added: &[Aggregation],
    chunks: RowChunks<'_, 't>,
) -> Result<Option<GroupTable<'t>>, AllocError>
    ghost all: { List bags.Env }
    requires all { chunks_to_come chunks ≡ all }
    requires read { AreReadable added.now all }
    ensures { IfOk result (λ found. MatchOption found (2 ^ 62 < length all) (λ table. HasGroups keys.now added.now (λ n. slice_index_or all n nulls) table × (table.count ≡ length all))) }
{
    let mut chunks = chunks;
    let mut table = GroupTable::new(alloc, keys, added)?;
    while let Some(chunk) = chunks.next_chunk(alloc)? {
        if chunk.rows.count > MOST_ROWS - table.count() {
            return Ok(None);
        }
        table.add(alloc, keys, added, &chunk)?;
    }
    Ok(Some(table))
}

/// One row for each different key, as first seen, with its aggregates; without keys one row. None where more than 2^62 rows come.
pub fn grouped_in_chunks<'g, 't>(
    alloc: Global,
    keys: &'g Columns,
    added: &'g [Aggregation],
    chunks: RowChunks<'_, 't>,
) -> Result<Option<Relation<'t>>, AllocError>
    requires { AreReadable added.now (chunks_to_come chunks) }
    ensures { IfOk result (λ found. MatchOption found (2 ^ 62 < length (chunks_to_come chunks.entry)) (IsOutput (rising (keys.entry.now ++ expressions.aggregate_columns added.entry.now)) (bags.group keys.entry.now (expressions.with_aggregates added.entry.now) (λ e. chunks_to_come chunks.entry) nulls) nulls)) }
{
    let columns = Columns::of_groups(alloc, keys, added)?;
    if keys.as_slice().len() == 0 {
        let Some(totals) = totals_of(alloc, added, chunks)? else {
            return Ok(None);
        };
        let row = totals.row(alloc, added, columns, &Env::Empty)?;
        return Ok(Some(row));
    }
    let Some(table) = table_of(alloc, keys, added, chunks)? else {
        return Ok(None);
    };
    let rows = table.rows(alloc, Grouping { keys, added }, columns)?;
    Ok(Some(rows))
}

/// One of each row, as first seen. None where more than 2^62 rows come.
pub fn distinct_in_chunks<'t>(
    alloc: Global,
    columns: &Columns,
    chunks: RowChunks<'_, 't>,
) -> Result<Option<Relation<'t>>, AllocError>
    requires { 0 < length columns.now }
    ensures { IfOk result (λ found. MatchOption found (2 ^ 62 < length (chunks_to_come chunks.entry)) (IsOutput (rising columns.entry.now) (bags.distinct columns.entry.now (λ e. chunks_to_come chunks.entry) nulls) nulls)) }
{
    grouped_in_chunks(alloc, columns, &[], chunks)
}
