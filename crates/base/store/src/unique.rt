//! Rows that repeat a unique list of an earlier row.

ghost use Rattle.std.specs.Prelude.{◌≡◌, ◌∷◌, ◌≤◌, ◌<◌, ◌^◌, [], length, slice_index_or, IfOk, IsTrue, MatchOption};
ghost use Rattle.std.specs.List.{AllByRecursion};
ghost use Rattle.schema.specs.Databases.{values_at, IsUnique, most_rows};
ghost use Rattle.store.specs.Chains as chains;
ghost use Rattle.store.specs.Chains.{AreChained, IsNowhere, bucket_at};
ghost use Rattle.store.specs.Tables.{UniqueTo, RepeatsAt};
ghost use Rattle.store.specs.Parsing.{EarliestRepeat};

use crate::chains::Chains;
use crate::key::{RowKey, key_of};
use crate::row::RowCells;
use crate::source::RowSource;
use crate::table::Table;
use std::alloc::{AllocError, Global};
use std::cmp::Ordering;
use std::hash::{FoldHasher, Hash, Hasher};
use values::{Cell, Items, order};

/// A row and the earlier one that it repeats, both from 0.
#[derive(Clone, Copy)]
pub struct Repeat {
    pub row: usize,
    pub earlier: usize,
}

/// The same of one place as `rises` of several: each value is read once.
fn value_rises(rows: &Table, limit: usize, place: usize) -> bool
    requires { limit ≤ length rows.now }
    ensures { IsTrue result → UniqueTo limit rows.now (place ∷ []) }
{
    let mut last: Option<Cell<'_>> = None;
    for row in 0..limit {
        let cell = RowCells::Stored(&*rows, row).cell(place);
        if cell.is_null() {
            continue;
        }
        if let Some(before) = last {
            if order(before, cell) != Ordering::Less {
                return false;
            }
        }
        last = Some(cell);
    }
    true
}

/// Whether the keys of the first rows, as many as `limit`, rise from each to the next, those with a Null apart. Then none
/// repeats another, and they need no chains.
fn rises(rows: &Table, limit: usize, places: &Items<usize>) -> bool
    requires { limit ≤ length rows.now }
    ensures { IsTrue result → UniqueTo limit rows.now places.now }
{
    if let [place] = places.as_slice() {
        return value_rises(rows, limit, *place);
    }
    let mut last: Option<RowKey<'_, '_>> = None;
    for row in 0..limit {
        let Some(key) = key_of(rows, row, places) else {
            continue;
        };
        if let Some(before) = &last {
            if !before.is_below(&key) {
                return false;
            }
        }
        last = Some(key);
    }
    true
}

/// The bucket, of so many, in which a key belongs.
fn bucket_of(key: &RowKey<'_, '_>, buckets: usize) -> usize
    requires some { 0 < buckets }
    requires few { buckets < 2 ^ 32 }
    ensures is { result ≡ chains.bucket_of buckets key.now }
    ensures within { result < buckets }
{
    let mut state = FoldHasher::default();
    key.hash(&mut state);
    let high = state.finish() / 4_294_967_296;
    (high * buckets as u64 / 4_294_967_296) as usize
}

/// The earlier row with this key, of those that are chained by their keys at the places.
fn earlier_of<'t>(
    rows: &'t Table,
    places: &'t Items<usize>,
    seen: &Chains,
    bucket: usize,
    key: &RowKey<'_, '_>,
) -> Option<usize>
    requires bucket { bucket < length seen.now.heads }
    requires few { length seen.now.olders ≤ length rows.now }
    requires chained { AreChained (bucket_at rows.now places.now (length seen.now.heads)) (length seen.now.olders) seen.now }
    ensures { MatchOption result (IsNowhere rows.now places.now (length seen.now.heads) (length seen.now.olders) bucket key.now)
        (λ earlier. (earlier < length seen.now.olders) × (bucket_at rows.now places.now (length seen.now.heads) earlier ≡ bucket) × (values_at places.now (slice_index_or rows.now earlier []) ≡ key.now)) }
{
    let mut at = seen.newest(bucket);
    while at > 0 {
        let earlier = at - 1;
        if RowKey::new(RowCells::Stored(rows, earlier), places.as_slice()) == *key {
            return Some(earlier);
        }
        at = seen.older(earlier);
    }
    None
}

/// Of the first rows, as many as `limit`, the first that repeats an earlier one at the places.
fn first_repeat(
    alloc: Global,
    rows: &Table,
    limit: usize,
    places: &Items<usize>,
) -> Result<Option<Repeat>, AllocError>
    requires limit { limit ≤ length rows.now }
    requires few { length rows.now ≤ most_rows }
    ensures { IfOk result (λ o. MatchOption o (UniqueTo limit rows.now places.now)
        (λ r. (r.row < limit) × UniqueTo r.row rows.now places.now × RepeatsAt rows.now r.row r.earlier places.now)) }
{
    if rises(rows, limit, places) {
        return Ok(None);
    }
    let buckets = limit + 1;
    let mut seen = Chains::new(alloc, buckets, limit)?;
    for row in 0..limit {
        let Some(key) = key_of(rows, row, places) else {
            seen.push_apart()?;
            continue;
        };
        let bucket = bucket_of(&key, buckets);
        if let Some(earlier) = earlier_of(rows, places, &seen, bucket, &key) {
            return Ok(Some(Repeat { row, earlier }));
        }
        seen.push(bucket)?;
    }
    Ok(None)
}

/// The first row that repeats an earlier one on a unique list; of several lists that of the first.
pub fn earliest_repeat(
    alloc: Global,
    rows: &Table,
    unique: &[Items<usize>],
) -> Result<Option<Repeat>, AllocError>
    requires { length rows.now ≤ most_rows }
    ensures { IfOk result (λ o. MatchOption o (AllByRecursion (IsUnique rows.now) unique.now) (EarliestRepeat rows.now unique.now)) }
{
    let mut found = None;
    let mut limit = rows.len();
    for places in unique {
        let Some(repeat) = first_repeat(alloc, rows, limit, places)? else {
            continue;
        };
        limit = repeat.row;
        found = Some(repeat);
    }
    Ok(found)
}
