//! The rows of a relation in groups.

ghost use Rattle.std.specs.Prelude.{◌≡◌, length, IfOk};
ghost use Rattle.std.specs.List.{range_with_len};
ghost use Rattle.physical.specs.declared.plan.GroupMethod.TheVariants as by;
ghost use Rattle.grouping.specs.Groups as spec;
ghost use Rattle.grouping.specs.RowNumbers.{numbers_in};
ghost use Rattle.relations.specs.Relations.{numbers_of};

use crate::hashed_groups::group_numbers;
use crate::keys::GroupNumbers;
use crate::row_numbers::RowNumbers;
use crate::runs::run_numbers;
use physical::GroupMethod;
use relations::{Place, Relation, Rows};
use std::alloc::{AllocError, Global};

/// The groups of the rows that are the same at the places, in the order in which they were first seen. They are found by hash, or
/// stand together.
fn numbered(
    alloc: Global,
    method: GroupMethod,
    rows: &Rows<'_>,
    places: &[Place],
) -> Result<GroupNumbers, AllocError>
    requires { method ≡ by.Sorted → spec.StandTogether (spec.same_at places.now rows.now) rows.now.count }
    ensures firsts { IfOk result (λ groups. numbers_in groups.firsts ≡ spec.first_seen (spec.same_at places.now rows.now) (range_with_len 0 rows.now.count)) }
    ensures numbers { IfOk result (λ groups. spec.AreNumbered (spec.same_at places.now rows.now) (numbers_in groups.numbers)) }
    ensures each { IfOk result (λ groups. length (numbers_in groups.numbers) ≡ rows.now.count) }
{
    match method {
        GroupMethod::Hash => group_numbers(alloc, rows, places),
        GroupMethod::Sorted => run_numbers(alloc, rows, places),
    }
}

/// The rows of a relation in groups of those that are the same at some places, as they were first seen.
#[derive(Drop)]
pub struct Groups<'a, 't> {
    pub input: &'a Relation<'t>,
    places: Vec<Place>,
    /// The row that was seen first in each group.
    pub firsts: RowNumbers,
    /// The number of each row's group.
    pub numbers: RowNumbers,
    ghost seen: { numbers_in firsts ≡ spec.first_seen (spec.same_at places.items input.now.rows) (numbers_of input.now) },
    ghost numbered: { spec.AreNumbered (spec.same_at places.items input.now.rows) (numbers_in numbers) },
    ghost each: { length (numbers_in numbers) ≡ input.now.rows.count },
}

impl<'a, 't> Groups<'a, 't> {
    /// The rows that are the same at the places.
    pub fn new(
        alloc: Global,
        method: GroupMethod,
        input: &'a Relation<'t>,
        places: Vec<Place>,
    ) -> Result<Groups<'a, 't>, AllocError>
        requires { method ≡ by.Sorted → spec.StandTogether (spec.same_at places.items input.now.rows) input.now.rows.count }
        ensures input { IfOk result (λ groups. groups.input.now ≡ input.entry.now) }
        ensures places { IfOk result (λ groups. groups.places.items ≡ places.items) }
    {
        let GroupNumbers { firsts, numbers } = numbered(
            alloc,
            method,
            &input.rows,
            places.as_slice(),
        )?;
        Ok(Groups {
            input,
            places,
            firsts,
            numbers,
        })
    }

    /// The row that was seen first in each group.
    pub fn into_firsts(self, alloc: Global) -> Result<Vec<usize>, AllocError>
        ensures { IfOk result (λ firsts. firsts.items ≡ numbers_in self.entry.firsts) }
    {
        let Groups {
            input: _,
            places: _,
            firsts,
            numbers: _,
        } = self;
        firsts.into_vec(alloc)
    }
}
