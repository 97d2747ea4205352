//! The goals that are met from a root down, and all that is offered for them.

ghost use Rattle.std.specs.Prelude.{◌≡◌, ◌<◌, ◌≤◌, ◌+◌, true, length, slice_get, IfOk, OnOk, Some};
ghost use Rattle.std.specs.List.{list_all};
ghost use Rattle.algebra.specs.Columns.{columns_at};
ghost use Rattle.labels.specs.Candidates.{AreAccesses};
ghost use Rattle.winners.specs.Collected as spec;
ghost use Rattle.winners.specs.Spans.{AllFit};
ghost use Rattle.labels.specs.Offers.{is_goal};
ghost use Rattle.winners.specs.Numbers.{AreClosed, AreNumbers, IsIndexed, Keeps};

use crate::goals::{Goals, copied};
use crate::nodes::{Nodes, Span};
use crate::space::Offer;
use labels::{Derived, Goal, accesses_of, fitting_goals};
use physical::{IndexAccess, Node};
use std::alloc::{AllocError, Global};
use values::Items;

/// Goals, nodes and offers by their numbers.
#[derive(Drop)]
pub struct Met {
    pub goals: Goals,
    pub nodes: Nodes,
    pub offers: Vec<Offer>,
    /// Of the goal from which the others were met.
    pub root: usize,
}

/// A goal for which nodes are offered, by its number.
#[derive(Clone, Copy)]
pub struct Wanted<'a, 'q> {
    pub derived: Derived<'a, 'q>,
    pub nodes: &'a [Node],
    pub number: usize,
    pub goal: &'a Goal,
}

/// The numbers of goals.
fn numbers(
    alloc: Global,
    derived: Derived<'_, '_>,
    goals: &mut Goals,
    wanted: &[Goal],
) -> Result<Items<usize>, AllocError>
    requires indexed { IsIndexed derived.log.now.log (columns_at derived.columns.now) goals.old }
    requires goals { list_all (is_goal derived.log.now.log (columns_at derived.columns.now)) wanted.now ≡ true }
    ensures indexed { OnOk result (IsIndexed derived.entry.log.now.log (columns_at derived.entry.columns.now) goals.new) }
    ensures kept { OnOk result (Keeps goals.old.list.items goals.new.list.items) }
    ensures are { IfOk result (λ numbers. AreNumbers goals.new.list.items numbers wanted.now) }
{
    let mut numbers = Items::new(alloc);
    for goal in wanted {
        numbers.push(goals.number(alloc, derived, goal)?)?;
    }
    Ok(numbers)
}

/// Offers the node of a number, where it is offered at the goal.
fn offer_node(
    alloc: Global,
    wanted: Wanted<'_, '_>,
    node: usize,
    goals: &mut Goals,
    offers: &mut Vec<Offer>,
) -> Result<(), AllocError>
    requires closed { AreClosed wanted.derived.log.now.instances wanted.derived.log.now.log (columns_at wanted.derived.columns.now) }
    requires indexed { IsIndexed wanted.derived.log.now.log (columns_at wanted.derived.columns.now) goals.old }
    requires goal { slice_get goals.old.list.items wanted.number ≡ Some wanted.goal.now }
    requires fit { AllFit wanted.derived.log.now.instances wanted.derived.log.now.log (columns_at wanted.derived.columns.now) wanted.nodes.now }
    requires node { node < length wanted.nodes.now }
    requires sound { spec.AreSoundFor wanted goals.old.list.items offers.old.items }
    ensures indexed { OnOk result (IsIndexed wanted.entry.derived.log.now.log (columns_at wanted.entry.derived.columns.now) goals.new) }
    ensures kept { OnOk result (Keeps goals.old.list.items goals.new.list.items) }
    ensures sound { OnOk result (spec.AreSoundFor wanted.entry goals.new.list.items offers.new.items) }
    ensures more { OnOk result (spec.IsBegun offers.old.items offers.new.items) }
    ensures offered { OnOk result (spec.HasOffer wanted.entry node offers.new.items) }
{
    let Some(inputs) = fitting_goals(alloc, wanted.derived, wanted.goal, &wanted.nodes[node])?
    else {
        return Ok(());
    };
    let inputs = numbers(alloc, wanted.derived, goals, inputs.as_slice())?;
    let goal = wanted.number;
    offers.push(Offer { goal, node, inputs })?;
    Ok(())
}

/// Offers the nodes of a span.
fn offer_span(
    alloc: Global,
    wanted: Wanted<'_, '_>,
    span: Span,
    goals: &mut Goals,
    offers: &mut Vec<Offer>,
) -> Result<(), AllocError>
    requires closed { AreClosed wanted.derived.log.now.instances wanted.derived.log.now.log (columns_at wanted.derived.columns.now) }
    requires indexed { IsIndexed wanted.derived.log.now.log (columns_at wanted.derived.columns.now) goals.old }
    requires goal { slice_get goals.old.list.items wanted.number ≡ Some wanted.goal.now }
    requires fit { AllFit wanted.derived.log.now.instances wanted.derived.log.now.log (columns_at wanted.derived.columns.now) wanted.nodes.now }
    requires span { span.end ≤ length wanted.nodes.now }
    requires sound { spec.AreSoundFor wanted goals.old.list.items offers.old.items }
    ensures indexed { OnOk result (IsIndexed wanted.entry.derived.log.now.log (columns_at wanted.entry.derived.columns.now) goals.new) }
    ensures kept { OnOk result (Keeps goals.old.list.items goals.new.list.items) }
    ensures sound { OnOk result (spec.AreSoundFor wanted.entry goals.new.list.items offers.new.items) }
    ensures more { OnOk result (spec.IsBegun offers.old.items offers.new.items) }
    ensures offered { OnOk result (spec.HaveOffers wanted.entry span.start span.end offers.new.items) }
{
    for node in span.start..span.end {
        offer_node(alloc, wanted, node, goals, offers)?;
    }
    Ok(())
}

/// Offers all that there is for the goal of a number: the nodes of its class's lines, and the enforcer of its order.
fn offer_goal(
    alloc: Global,
    derived: Derived<'_, '_>,
    accesses: &[IndexAccess],
    number: usize,
    goals: &mut Goals,
    nodes: &mut Nodes,
    offers: &mut Vec<Offer>,
) -> Result<(), AllocError>
    requires closed { AreClosed derived.log.now.instances derived.log.now.log (columns_at derived.columns.now) }
    requires accesses { AreAccesses derived.log.now.instances derived.log.now.log accesses.now }
    requires met { spec.AreMet derived.log.now.instances derived.log.now.log (columns_at derived.columns.now) goals.old nodes.old offers.old.items number }
    requires number { number < length goals.old.list.items }
    ensures kept { OnOk result (Keeps goals.old.list.items goals.new.list.items) }
    ensures met { OnOk result (spec.AreMet derived.entry.log.now.instances derived.entry.log.now.log (columns_at derived.entry.columns.now) goals.new nodes.new offers.new.items (number + 1)) }
{
    let goal = copied(alloc, &goals.list[number])?;
    let span = nodes.of_class(alloc, derived, accesses, goal.class)?;
    let keys = Items::from_slice(alloc, goal.order.as_slice())?;
    let sort = nodes.push(Node::Sort { keys })?;
    let wanted = Wanted {
        derived,
        nodes: nodes.list.as_slice(),
        number,
        goal: &goal,
    };
    offer_span(alloc, wanted, span, goals, offers)?;
    offer_node(alloc, wanted, sort, goals, offers)?;
    Ok(())
}

/// The goals that are met from this one down, and all that is offered for them.
pub fn met_from(alloc: Global, derived: Derived<'_, '_>, root: &Goal) -> Result<Met, AllocError>
    requires closed { AreClosed derived.log.now.instances derived.log.now.log (columns_at derived.columns.now) }
    requires root { is_goal derived.log.now.log (columns_at derived.columns.now) root.now ≡ true }
    ensures { IfOk result (λ met. spec.IsMet derived.entry.log.now.instances derived.entry.log.now.log (columns_at derived.entry.columns.now) root.now met) }
{
    let classes = derived.log.len();
    let accesses = accesses_of(alloc, derived.log)?;
    let mut goals = Goals::new(alloc, classes)?;
    let mut nodes = Nodes::new(alloc, classes)?;
    let mut offers = Vec::new(alloc);
    let root = goals.number(alloc, derived, root)?;
    let mut next = 0;
    while next < goals.list.len() {
        offer_goal(
            alloc,
            derived,
            accesses.as_slice(),
            next,
            &mut goals,
            &mut nodes,
            &mut offers,
        )?;
        next += 1;
    }
    Ok(Met {
        goals,
        nodes,
        offers,
        root,
    })
}
