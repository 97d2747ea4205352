//! What is searched.

use physical::Node;
use query::TableInstance;
use statistics::Statistics;
use values::Items;

/// A node for a goal, over inputs for others. Goals and nodes go by their numbers.
#[derive(Drop)]
pub struct Offer {
    pub goal: usize,
    pub node: usize,
    pub inputs: Items<usize>,
}

/// All nodes that are offered, and by what their costs are estimated.
#[derive(Clone, Copy)]
pub struct Space<'a> {
    pub statistics: &'a Statistics,
    pub instances: &'a [TableInstance],
    pub nodes: &'a [Node],
    pub offers: &'a [Offer],
    /// How many rows each goal's class has.
    pub rows: &'a [u64],
}
