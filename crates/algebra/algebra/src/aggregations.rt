//! The aggregates of a group, in rising order of their columns.

ghost use Rattle.std.specs.Prelude.{◌≡◌, ◌↔◌, IsTrue, IfOk};
ghost use Rattle.std.specs.List.{position_or_len};
ghost use Rattle.algebra.specs.AggregateOrder as spec;
ghost use Rattle.algebra.specs.Equality.{same_aggregations};

use crate::expr::Aggregation;
use std::alloc::{AllocError, Global};
use std::marker::Model;
use values::Items;

/// Aggregates in strictly rising order of their columns.
#[derive(Drop)]
pub struct Aggregations {
    added: Items<Aggregation>,
}

impl Model for Aggregations {
    ghost use Rattle.std.specs.Prelude.{List};
    ghost use Rattle.algebra.specs.declared.expr.Aggregation.{Aggregation};

    ghost Value = { List Aggregation };

    ghost use Rattle.algebra.specs.contracts.expr.Aggregation as e;
    ghost use Rattle.std.specs.Coded.{codes};

    ghost coded = { Prim.hlevel (codes, e.the_row.coded) };

    ghost view = { λ a. a.added };

    ghost use Rattle.algebra.specs.AggregateOrder.{AreByColumn};

    ghost invariant = { λ a. AreByColumn a.added };
}

/// The place of the first aggregate whose column isn't below, or the place behind all.
fn place_of(order: &[Aggregation], new: Aggregation) -> usize
    ensures { result ≡ position_or_len (spec.ends_search new) order.now }
{
    let place = order.iter().position(|other| new.column <= other.column);
    place.unwrap_or(order.len())
}

/// Puts an aggregate at its place, in the place of one of its column.
fn put_in_order(
    mut order: Vec<Aggregation>,
    new: Aggregation,
) -> Result<Vec<Aggregation>, AllocError>
    ensures { IfOk result (λ o. o.items ≡ spec.put_aggregate new order.items) }
{
    let place = place_of(order.as_slice(), new);
    if place < order.len() && order[place].column == new.column {
        order[place] = new;
        return Ok(order);
    }
    order.insert(place, new)?;
    Ok(order)
}

/// The aggregates in rising order of their columns, the first of each.
fn in_order(alloc: Global, added: &[Aggregation]) -> Result<Vec<Aggregation>, AllocError>
    ensures { IfOk result (λ order. order.items ≡ spec.by_column added.now) }
{
    let mut left = Vec::new(alloc);
    left.extend_from_slice(added)?;
    let mut order = Vec::new(alloc);
    while let Some(new) = left.pop() {
        order = put_in_order(order, new)?;
    }
    Ok(order)
}

impl Aggregations {
    pub(crate) fn from_items(added: Items<Aggregation>) -> Aggregations
        requires { spec.AreByColumn added }
        ensures { result ≡ added }
    {
        Aggregations { added }
    }

    /// The aggregates of a list in rising order of their columns, the first of each column.
    pub fn of(alloc: Global, added: &[Aggregation]) -> Result<Aggregations, AllocError>
        ensures { IfOk result (λ a. a ≡ spec.by_column added.now) }
    {
        Ok(Aggregations {
            added: Items::from_vec(in_order(alloc, added)?),
        })
    }

    pub fn as_slice(&self) -> &[Aggregation]
        ensures aggregates { result.now ≡ self.now }
        ensures rising { spec.AreByColumn self.now }
    {
        self.added.as_slice()
    }

    pub fn same(&self, other: &Aggregations) -> bool
        ensures equal { IsTrue result ↔ (self.now ≡ other.now) }
        ensures test { result ≡ same_aggregations self.now other.now }
    {
        are_same(self.as_slice(), other.as_slice())
    }

    pub fn copy(&self, alloc: Global) -> Result<Aggregations, AllocError>
        ensures { IfOk result (λ a. a ≡ self.now) }
    {
        Ok(Aggregations {
            added: Items::from_slice(alloc, self.as_slice())?,
        })
    }
}

fn are_same(added: &[Aggregation], others: &[Aggregation]) -> bool
    ensures { IsTrue result ↔ (added.now ≡ others.now) }
{
    if added.len() != others.len() {
        return false;
    }
    for i in 0..added.len() {
        if !added[i].same(others[i]) {
            return false;
        }
    }
    true
}
