//! The cheapest plans of all goals, found offer by offer.

ghost use Rattle.std.specs.Prelude.{◌≡◌, ◌≤◌, ◌<◌, ◌-◌, length, slice_get, IfNone, IfOk, IfSome, OnOk, Some};
ghost use Rattle.physical.specs.declared.plan.Node.{Node};
ghost use Rattle.costs.specs.Costs as costs;
ghost use Rattle.winners.specs.Found as spec;

use crate::space::{Offer, Space};
use costs::{Estimate, Inputs, node_cost, sum};
use std::alloc::{AllocError, Global};
use values::Items;

/// A plan: an offer over plans for the goals of its inputs, which were found before it. Offers and plans go by their numbers.
#[derive(Drop)]
pub struct FoundPlan {
    pub offer: usize,
    pub inputs: Items<usize>,
    pub estimate: Estimate,
}

/// The cheapest plan of a goal so far.
#[derive(Clone, Copy)]
pub struct Cheapest {
    pub plan: usize,
    pub estimate: Estimate,
}

/// All plans in the order in which they were found, and the cheapest of each goal.
#[derive(Drop)]
pub struct FoundPlans {
    pub plans: Vec<FoundPlan>,
    pub cheapest: Vec<Option<Cheapest>>,
}

/// Of an input that is missing.
const NOTHING: Estimate = Estimate { rows: 0, cost: 0 };

/// The cheapest plan of a goal so far, if there is one.
pub fn cheapest_of(cheapest: &[Option<Cheapest>], goal: usize) -> Option<Cheapest>
    ensures { result ≡ spec.cheapest_of cheapest.now goal }
{
    match cheapest.get(goal) {
        Some(found) => *found,
        None => None,
    }
}

/// The inputs with one more, behind so many.
fn with_input(inputs: Inputs, place: usize, input: Estimate) -> Inputs
    ensures { result ≡ costs.with_input inputs place input }
{
    let Inputs {
        first,
        second,
        later,
    } = inputs;
    if place == 0 {
        Inputs {
            first: input,
            second,
            later,
        }
    } else if place == 1 {
        Inputs {
            first,
            second: input,
            later: sum(later, input.cost),
        }
    } else {
        Inputs {
            first,
            second,
            later: sum(later, input.cost),
        }
    }
}

/// What is estimated of the cheapest plans of the goals as inputs; none where one has no plan yet.
fn estimated(cheapest: &[Option<Cheapest>], goals: &[usize]) -> Option<Inputs>
    ensures some { IfSome result (λ inputs. spec.AreEstimated cheapest.now goals.now inputs) }
    ensures none { IfNone result (spec.SomeLacks cheapest.now goals.now) }
{
    let mut inputs = Inputs {
        first: NOTHING,
        second: NOTHING,
        later: 0,
    };
    for (place, goal) in goals.iter().enumerate() {
        match cheapest_of(cheapest, *goal) {
            Some(found) => inputs = with_input(inputs, place, found.estimate),
            None => return None,
        }
    }
    Some(inputs)
}

/// The plans that are the cheapest of the goals; none where one has no plan yet.
fn chosen(
    alloc: Global,
    cheapest: &[Option<Cheapest>],
    goals: &[usize],
) -> Result<Option<Items<usize>>, AllocError>
    ensures some { IfOk result (λ found. IfSome found (λ plans. spec.AreChosen cheapest.now goals.now plans)) }
    ensures none { IfOk result (λ found. IfNone found (spec.SomeLacks cheapest.now goals.now)) }
{
    let mut plans = Items::new(alloc);
    for goal in goals {
        match cheapest_of(cheapest, *goal) {
            Some(found) => plans.push(found.plan)?,
            None => return Ok(None),
        }
    }
    Ok(Some(plans))
}

/// What is estimated of an offer over inputs.
fn offer_estimate(space: Space<'_>, offer: &Offer, inputs: Inputs) -> Estimate
    requires rows { offer.now.goal < length space.rows.now }
    requires node { offer.now.node < length space.nodes.now }
    ensures { (node : Node) → slice_get space.entry.nodes.now offer.now.node ≡ Some node → result ≡ spec.estimate_over space.entry offer.now node inputs }
{
    let rows = space.rows[offer.goal];
    let node = &space.nodes[offer.node];
    let cost = node_cost(space.statistics, space.instances, node, rows, inputs);
    Estimate { rows, cost }
}

/// Takes the offer of a number where it is cheaper than all plans of its goal so far. It allocates nothing but for a plan that is taken.
#[tactic(auto, using(crate::proofs::Finding::settled_by, crate::proofs::Finding::settled_without, crate::proofs::Finding::found_more))]
fn try_offer(
    alloc: Global,
    space: Space<'_>,
    number: usize,
    offer: &Offer,
    plans: &mut Vec<FoundPlan>,
    cheapest: &mut [Option<Cheapest>],
) -> Result<(), AllocError>
    requires found { spec.AreFound space plans.old.items cheapest.old }
    requires within { spec.IsWithin space (length cheapest.old) offer.now }
    requires offer { slice_get space.offers.now number ≡ Some offer.now }
    ensures found { OnOk result (spec.AreFound space.entry plans.new.items cheapest.new) }
    ensures tried { OnOk result (spec.IsTried space.entry offer.now plans.old.items plans.new.items cheapest.old cheapest.new) }
{
    let Some(inputs) = estimated(cheapest, offer.inputs.as_slice()) else {
        return Ok(());
    };
    let estimate = offer_estimate(space, offer, inputs);
    if let Some(found) = cheapest_of(cheapest, offer.goal) {
        if found.estimate.cost <= estimate.cost {
            return Ok(());
        }
    }
    let Some(inputs) = chosen(alloc, cheapest, offer.inputs.as_slice())? else {
        return Ok(());
    };
    let plan = plans.len();
    plans.push(FoundPlan {
        offer: number,
        inputs,
        estimate,
    })?;
    cheapest[offer.goal] = Some(Cheapest { plan, estimate });
    Ok(())
}

/// Tries all offers. Those of later goals come first, since these mostly lie below the goals that met them.
fn try_all(
    alloc: Global,
    space: Space<'_>,
    plans: &mut Vec<FoundPlan>,
    cheapest: &mut [Option<Cheapest>],
) -> Result<(), AllocError>
    requires found { spec.AreFound space plans.old.items cheapest.old }
    requires within { spec.AreWithin space (length cheapest.old) }
    ensures found { OnOk result (spec.AreFound space.entry plans.new.items cheapest.new) }
    ensures as_many { length cheapest.new ≡ length cheapest.old }
    ensures more { OnOk result (length plans.old.items ≤ length plans.new.items) }
    ensures settled { OnOk result (length plans.new.items ≡ length plans.old.items → spec.AreSettled space.entry cheapest.new 0) }
{
    let mut left = space.offers.len();
    while left > 0 {
        left -= 1;
        try_offer(alloc, space, left, &space.offers[left], plans, cheapest)?;
    }
    Ok(())
}

/// The cheapest plans of so many goals: all offers are tried until none of them gives a cheaper plan.
pub fn cheapest_plans(
    alloc: Global,
    space: Space<'_>,
    goals: usize,
) -> Result<FoundPlans, AllocError>
    requires { spec.AreWithin space goals }
    ensures found { IfOk result (λ r. spec.AreFound space.entry r.plans.items r.cheapest.items) }
    ensures settled { IfOk result (λ r. spec.AreSettled space.entry r.cheapest.items 0) }
{
    let mut cheapest = vec![in alloc; None; goals]?;
    let mut plans = Vec::new(alloc);
    loop {
        let before = plans.len();
        try_all(alloc, space, &mut plans, &mut cheapest)?;
        if plans.len() == before {
            return Ok(FoundPlans { plans, cheapest });
        }
    }
}
