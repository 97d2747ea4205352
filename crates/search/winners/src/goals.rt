//! Goals by number.

ghost use Rattle.std.specs.Prelude.{◌≡◌, [], true, length, slice_get, IfNone, IfOk, IfSome, OnOk, Some};
ghost use Rattle.algebra.specs.Columns.{columns_at};
ghost use Rattle.labels.specs.Offers as offers;
ghost use Rattle.winners.specs.Numbers as spec;

use labels::{Derived, Goal, same_goal};
use std::alloc::{AllocError, Global};
use values::Items;

/// Goals in the order in which they were met, each once, and for each class the numbers of its goals.
#[derive(Drop)]
pub struct Goals {
    pub list: Vec<Goal>,
    pub by_class: Vec<Items<usize>>,
}

/// The goal again.
pub fn copied(alloc: Global, goal: &Goal) -> Result<Goal, AllocError>
    ensures { IfOk result (λ copy. copy ≡ goal.now) }
{
    let order = Items::from_slice(alloc, goal.order.as_slice())?;
    let class = goal.class;
    Ok(Goal { class, order })
}

/// Whether the goal has the number.
fn is_at(list: &[Goal], number: usize, goal: &Goal) -> bool
    ensures { result ≡ spec.is_at (slice_get list.now number) goal.now }
{
    match list.get(number) {
        Some(other) => same_goal(other, goal),
        None => false,
    }
}

/// The number of a goal, where it is among these.
fn find(list: &[Goal], numbers: &[usize], goal: &Goal) -> Option<usize>
    ensures found { IfSome result (λ i. slice_get list.now i ≡ Some goal.now) }
    ensures none { IfNone result (spec.IsNotAmong list.now numbers.now goal.now) }
{
    for number in numbers {
        if is_at(list, *number, goal) {
            return Some(*number);
        }
    }
    None
}

impl Goals {
    /// No goal, of so many classes.
    pub fn new(alloc: Global, classes: usize) -> Result<Goals, AllocError>
        ensures { IfOk result (λ goals. (goals.list.items ≡ []) × (length goals.by_class.items ≡ classes)) }
    {
        let mut by_class = Vec::new(alloc);
        for _made in 0..classes {
            by_class.push(Items::new(alloc))?;
        }
        let list = Vec::new(alloc);
        Ok(Goals { list, by_class })
    }

    /// The number of a goal, a new one where it had none.
    pub fn number(
        &mut self,
        alloc: Global,
        derived: Derived<'_, '_>,
        goal: &Goal,
    ) -> Result<usize, AllocError>
        requires indexed { spec.IsIndexed derived.log.now.log (columns_at derived.columns.now) self.old }
        requires goal { offers.is_goal derived.log.now.log (columns_at derived.columns.now) goal.now ≡ true }
        ensures indexed { OnOk result (spec.IsIndexed derived.entry.log.now.log (columns_at derived.entry.columns.now) self.new) }
        ensures kept { OnOk result (spec.Keeps self.old.list.items self.new.list.items) }
        ensures number { IfOk result (λ i. slice_get self.new.list.items i ≡ Some goal.now) }
    {
        let class = goal.class as usize;
        if let Some(number) = find(&self.list, self.by_class[class].as_slice(), goal) {
            return Ok(number);
        }
        let number = self.list.len();
        self.by_class[class].push(number)?;
        self.list.push(copied(alloc, goal)?)?;
        Ok(number)
    }
}
