//! Goals, and labels of them.

use algebra::ClassId;
use physical::OrderKey;
use values::Items;

/// The rows of a class, wanted in an order. The class stands for all that are the same.
#[derive(Drop)]
pub struct Goal {
    pub class: ClassId,
    pub order: Items<OrderKey>,
}

/// A goal, and the least that a plan for it costs, in hundredths of a page.
#[derive(Drop)]
pub struct Label {
    pub goal: Goal,
    pub cost: u64,
}
