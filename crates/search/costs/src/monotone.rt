//! Laws of costs, and estimates that are worked out. The functions do nothing: their contracts are the laws.

ghost use Rattle.costs.specs.Examples.{WorkedIndexes, WorkedPlan};
ghost use Rattle.costs.specs.Laws.{NodesAreMonotone, SubplansByInputs};

/// A node over inputs with the same rows, at no greater cost, costs no more.
pub fn nodes_are_monotone()
    ensures { NodesAreMonotone }
{}

/// The plans of a plan's nodes are the plan itself and then those of its inputs, one input behind the other.
pub fn subplans_by_inputs()
    ensures { SubplansByInputs }
{}

/// What specs/Examples works out.
pub fn worked_costs()
    ensures plan { WorkedPlan }
    ensures indexes { WorkedIndexes }
{}
