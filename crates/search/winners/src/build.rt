//! Plans as trees.

ghost use Rattle.std.specs.Prelude.{◌≡◌, ◌<◌, length, slice_get, IfOk, Some};
ghost use Rattle.winners.specs.Found.{ArePlans};
ghost use Rattle.winners.specs.Offered.{IsBuilt};

use crate::found::FoundPlan;
use crate::space::{Offer, Space};
use physical::{Node, Plan};
use std::alloc::{AllocError, Global};
use values::Items;

fn offer_of<'a>(space: Space<'a>, number: usize) -> &'a Offer
    requires { number < length space.offers.now }
    ensures { slice_get space.entry.offers.now number ≡ Some result.now }
{
    &space.offers[number]
}

fn node_of<'a>(space: Space<'a>, number: usize) -> &'a Node
    requires { number < length space.nodes.now }
    ensures { slice_get space.entry.nodes.now number ≡ Some result.now }
{
    &space.nodes[number]
}

/// The plan of a number. Those of its inputs have lesser ones.
pub(crate) fn plan_of(
    alloc: Global,
    space: Space<'_>,
    found: &[FoundPlan],
    number: usize,
) -> Result<Plan, AllocError>
    requires plans { ArePlans space found.now }
    requires number { number < length found.now }
    ensures { IfOk result (λ plan. IsBuilt space.entry found.now number plan) }
{
    let own = &found[number];
    let offer = offer_of(space, own.offer);
    let node = node_of(space, offer.node).copy(alloc)?;
    let mut inputs = Items::new(alloc);
    for input in own.inputs.as_slice() {
        inputs.push(plan_of(alloc, space, found, *input)?)?;
    }
    Ok(Plan { node, inputs })
}
