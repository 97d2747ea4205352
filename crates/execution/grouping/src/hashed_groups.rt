//! Groups of rows with the same key, found by hash.

ghost use Rattle.std.specs.Prelude.{◌≡◌, length, map, IfOk};
ghost use Rattle.std.specs.List.{range_with_len};
ghost use Rattle.grouping.specs.Groups as spec;
ghost use Rattle.grouping.specs.RowNumbers.{numbers_in};
ghost use Rattle.grouping.specs.KeyBuckets.{AreHashed, IsGroup, column_key, key_hash};

use crate::group_hashes::GroupHashes;
use crate::keys::{GroupNumbers, are_same, placed_columns, row_hash};
use crate::row_numbers::RowNumbers;
use relations::{Place, RowColumn, Rows};
use std::alloc::{AllocError, Global};

/// The group of a row's key, or the next one where there is none. The key's hash is given.
fn found(
    hashes: &GroupHashes,
    columns: &[RowColumn<'_, '_>],
    firsts: &RowNumbers,
    row: usize,
    hash: u32,
) -> usize
    requires hashed { AreHashed (map (column_key columns.now) (numbers_in firsts.now)) hashes.now }
    requires hash { hash ≡ key_hash (column_key columns.now row) }
    ensures { IsGroup (map (column_key columns.now) (numbers_in firsts.now)) (column_key columns.now row) result }
{
    let mut from = hashes.last(hash);
    while from > 0 {
        let group = from - 1;
        if are_same(columns, row, firsts.number(group)) {
            return group;
        }
        from = hashes.before(group);
    }
    firsts.len()
}

/// The group of a row's key, which the row founds where there is none.
fn group_of(
    alloc: Global,
    hashes: &mut GroupHashes,
    columns: &[RowColumn<'_, '_>],
    firsts: &RowNumbers,
    row: usize,
) -> Result<usize, AllocError>
    requires { AreHashed (map (column_key columns.now) (numbers_in firsts.now)) hashes.old }
    ensures group { IfOk result (IsGroup (map (column_key columns.now) (numbers_in firsts.now)) (column_key columns.now row)) }
    ensures hashed { IfOk result (λ group. AreHashed (map (column_key columns.now) (spec.with_founder (numbers_in firsts.now) group row)) hashes.new) }
{
    let hash = row_hash(columns, row);
    let group = found(hashes, columns, firsts, row, hash);
    if group == firsts.len() {
        hashes.push(alloc, hash)?;
    }
    Ok(group)
}

/// The groups of the rows that are the same at the places, in the order in which they were first seen.
pub fn group_numbers(
    alloc: Global,
    rows: &Rows<'_>,
    places: &[Place],
) -> Result<GroupNumbers, AllocError>
    ensures firsts { IfOk result (λ groups. numbers_in groups.firsts ≡ spec.first_seen (spec.same_at places.now rows.now) (range_with_len 0 rows.now.count)) }
    ensures numbers { IfOk result (λ groups. spec.AreNumbered (spec.same_at places.now rows.now) (numbers_in groups.numbers)) }
    ensures each { IfOk result (λ groups. length (numbers_in groups.numbers) ≡ rows.now.count) }
{
    let columns = placed_columns(alloc, rows, places)?;
    let mut groups = GroupNumbers {
        firsts: RowNumbers::new(alloc),
        numbers: RowNumbers::with_capacity(alloc, rows.count)?,
    };
    let mut hashes = GroupHashes::new(alloc)?;
    for number in 0..rows.count {
        let group = group_of(
            alloc,
            &mut hashes,
            columns.as_slice(),
            &groups.firsts,
            number,
        )?;
        groups.add(alloc, number, group)?;
    }
    Ok(groups)
}
