//! The law of orders. The function does nothing: its contract is the law.

ghost use Rattle.physical.specs.Orders.{PlansDeliver};

/// The rows that a plan produces stand in the order that it delivers, in every database and environment, if no join hides a
/// column of its left side and each sort is by columns of its input.
pub fn plans_deliver()
    ensures { PlansDeliver }
{}
