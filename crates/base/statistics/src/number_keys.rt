//! The different keys of an index over one column of numbers that lie far apart: nearly all are told apart by a slot that no other one has.

ghost use Rattle.std.specs.Prelude.{◌≡◌, ◌≤◌, ◌<◌, ◌+◌, ◌*◌, ◌++◌, ℕ, List, [], ◌∷◌, true, length, nat_eq, IfOk, IfSome, OnOk};
ghost use Rattle.std.specs.Set.{distinct_count, is_member};
ghost use Rattle.values.specs.Short.{IsShort};
ghost use Rattle.schema.specs.Databases.{most_rows};
ghost use Rattle.store.specs.NumberColumns.{number_at};
ghost use Rattle.statistics.specs.ColumnKeys.{AreShort};
ghost use Rattle.statistics.specs.Counting.{different_keys};
ghost use Rattle.statistics.specs.NumberKeys as spec;

use crate::column_keys::slot_of;
use std::alloc::{AllocError, Global};
use std::collections::HashSet;
use store::{Numbers, RowSource, Table};
use values::Items;

/// So many slots for each number: of numbers that all differ a fifth find theirs taken.
const SLOTS_A_NUMBER: usize = 2;

/// So often numbers whose slot was taken are given other slots, before a set tells the rest apart: less than a hundredth is left then.
const SIFTS: u64 = 3;

/// What tells one sift's slots from those of the one before, odd and with its ones spread.
const STRIDE: u64 = 0x9E37_79B9_7F4A_7C15;

/// Numbers that were told apart by slots so far, and those that found theirs taken by another one.
#[derive(Drop)]
struct Sift {
    /// The first number is told without a slot, and stands in each that is free.
    first: u64,
    salt: u64,
    kept: Items<u64>,
    told: usize,
    others: Vec<u64>,
}

impl Sift {
    /// Over so many numbers, of which the first is seen.
    fn new(alloc: Global, first: u64, count: usize, salt: u64) -> Result<Sift, AllocError>
        requires some { 0 < count }
        requires few { count ≤ most_rows }
        ensures slots { IfOk result (λ s. length s.kept ≡ 2 * count) }
        ensures first { IfOk result (λ s. s.first ≡ first) }
        ensures seen { IfOk result (λ s. spec.HasSeen s (first ∷ [])) }
    {
        let kept = vec![in alloc; first; count * SLOTS_A_NUMBER]?;
        Ok(Sift {
            first,
            salt,
            kept: Items::from_vec(kept),
            told: 1,
            others: Vec::new(alloc),
        })
    }

    /// Takes a number more: it is told where its slot is free, dropped where it is there already, and left where another one has its slot.
    fn add(&mut self, number: u64) -> Result<(), AllocError>
        requires some { 0 < length self.old.kept }
        requires few { length self.old.kept ≤ 2 * most_rows }
        requires told { self.old.told ≤ most_rows }
        ensures slots { OnOk result (length self.new.kept ≡ length self.old.kept) }
        ensures seen { OnOk result ((seen : List ℕ) → spec.HasSeen self.old seen → is_member nat_eq seen self.old.first ≡ true → spec.HasSeen self.new (seen ++ number ∷ [])) }
        ensures first { OnOk result (self.new.first ≡ self.old.first) }
    {
        let slots = self.kept.len();
        let slot = slot_of(number.wrapping_add(self.salt), slots);
        let there = self.kept.as_slice()[slot];
        if number == self.first || there == number {
            return Ok(());
        }
        if there != self.first {
            self.others.push(number)?;
            return Ok(());
        }
        self.kept.set(slot, number);
        self.told += 1;
        Ok(())
    }
}

/// The numbers of the rows that have one, as 64 bits.
fn known_numbers(alloc: Global, column: Numbers<'_>) -> Result<Vec<u64>, AllocError>
    requires numbers { length column.numbers.now ≡ length column.known.now }
    requires short { (row : ℕ) → row < length column.known.now → IsShort (number_at column row) }
    ensures { IfOk result (λ known. known.items ≡ spec.known_numbers column.entry (length column.entry.known.now)) }
{
    let mut known = Vec::with_capacity(alloc, column.known.len())?;
    for row in 0..column.known.len() {
        if column.known[row] {
            known.push(column.numbers[row].cast_unsigned())?;
        }
    }
    Ok(known)
}

/// The numbers told apart by slots, as far as that goes.
fn sifted(alloc: Global, numbers: &[u64], salt: u64) -> Result<Sift, AllocError>
    requires some { 0 < length numbers.now }
    requires few { length numbers.now ≤ most_rows }
    ensures count { IfOk result (λ s. distinct_count nat_eq numbers.now ≡ s.told + distinct_count nat_eq s.others.items) }
    ensures told { IfOk result (λ s. s.told ≤ length numbers.now + 1) }
    ensures others { IfOk result (λ s. length s.others.items ≤ length numbers.now) }
{
    let mut sift = Sift::new(alloc, numbers[0], numbers.len(), salt)?;
    for number in numbers {
        sift.add(*number)?;
    }
    Ok(sift)
}

/// How many different numbers there are, by a set of them.
fn told_by_set(alloc: Global, numbers: &[u64]) -> Result<usize, AllocError>
    ensures { IfOk result (λ count. count ≡ distinct_count nat_eq numbers.now) }
{
    let mut set = HashSet::new(alloc);
    for number in numbers {
        set.insert(*number)?;
    }
    Ok(set.len())
}

/// How many different numbers there are.
fn different_numbers(alloc: Global, numbers: Vec<u64>) -> Result<usize, AllocError>
    requires few { length numbers.items ≤ most_rows }
    ensures { IfOk result (λ count. count ≡ distinct_count nat_eq numbers.items) }
{
    let mut left = numbers;
    let mut told: usize = 0;
    for sift_number in 0..SIFTS {
        if left.is_empty() {
            return Ok(told);
        }
        let sift = sifted(alloc, left.as_slice(), sift_number.wrapping_mul(STRIDE))?;
        told += sift.told;
        left = sift.others;
    }
    Ok(told + told_by_set(alloc, left.as_slice())?)
}

/// How many different keys the rows have at the place, if a column of numbers is there.
pub fn keys_by_numbers(alloc: Global, rows: &Table, place: usize) -> Result<Option<u64>, AllocError>
    requires few { length rows.now ≤ most_rows }
    requires short { AreShort place rows.now }
    ensures { IfOk result (λ found. IfSome found (λ keys. keys ≡ different_keys rows.now (place ∷ []))) }
{
    let Some(column) = rows.numbers(place) else {
        return Ok(None);
    };
    let known = known_numbers(alloc, column)?;
    let numbers = known.len();
    let keys = different_numbers(alloc, known)? as u64;
    if numbers < rows.len() {
        return Ok(Some(keys + 1));
    }
    Ok(Some(keys))
}
