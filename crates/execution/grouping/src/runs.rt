//! Groups of rows that stand together: each row is compared with the one before it.

ghost use Rattle.std.specs.Prelude.{◌≡◌, if◌then◌else◌, length, IfOk};
ghost use Rattle.std.specs.List.{range_with_len};
ghost use Rattle.grouping.specs.Groups as spec;
ghost use Rattle.grouping.specs.RowNumbers.{numbers_in};
ghost use Rattle.grouping.specs.KeyBuckets.{same_in};

use crate::keys::{GroupNumbers, are_same, placed_columns};
use crate::row_numbers::RowNumbers;
use relations::{Place, RowColumn, Rows};
use std::alloc::{AllocError, Global};

/// Whether a row is the same in the columns as the one before it.
fn continues(columns: &[RowColumn<'_, '_>], number: usize) -> bool
    ensures { result ≡ spec.continues (same_in columns.now) number }
{
    if number == 0 {
        return false;
    }
    are_same(columns, number, number - 1)
}

/// The number of a row's group: that of the row before it, or the next one.
fn run_at(columns: &[RowColumn<'_, '_>], number: usize, before: usize, next: usize) -> usize
    ensures { result ≡ (if spec.continues (same_in columns.now) number then before else next) }
{
    if continues(columns, number) {
        before
    } else {
        next
    }
}

/// The groups of the rows that are the same at the places, in the order in which they were first seen.
pub fn run_numbers(
    alloc: Global,
    rows: &Rows<'_>,
    places: &[Place],
) -> Result<GroupNumbers, AllocError>
    requires { spec.StandTogether (spec.same_at places.now rows.now) rows.now.count }
    ensures firsts { IfOk result (λ groups. numbers_in groups.firsts ≡ spec.first_seen (spec.same_at places.now rows.now) (range_with_len 0 rows.now.count)) }
    ensures numbers { IfOk result (λ groups. spec.AreNumbered (spec.same_at places.now rows.now) (numbers_in groups.numbers)) }
    ensures each { IfOk result (λ groups. length (numbers_in groups.numbers) ≡ rows.now.count) }
{
    let mut groups = GroupNumbers {
        firsts: RowNumbers::new(alloc),
        numbers: RowNumbers::with_capacity(alloc, rows.count)?,
    };
    let columns = placed_columns(alloc, rows, places)?;
    let mut group = 0;
    for number in 0..rows.count {
        group = run_at(columns.as_slice(), number, group, groups.firsts.len());
        groups.add(alloc, number, group)?;
    }
    Ok(groups)
}
