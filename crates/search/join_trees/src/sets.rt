//! Sets of leaves, as bits.

/// Most leaves of a region.
pub const MOST_LEAVES: usize = 48;

/// A set of the leaves 0 to 47.
#[derive(Clone, Copy, PartialEq, Eq, Drop)]
pub struct LeafSet(pub u64);

impl LeafSet {
    pub const EMPTY: LeafSet = LeafSet(0);

    /// The set of one leaf; empty where there is no such leaf.
    pub fn single(place: usize) -> LeafSet {
        if place < 48 {
            LeafSet(1u64 << place as u32)
        } else {
            LeafSet(0)
        }
    }

    /// The set of so many leaves from the first on.
    pub fn first(count: usize) -> LeafSet {
        let mut set = LeafSet::EMPTY;
        for place in 0..count {
            set = set.union(LeafSet::single(place));
        }
        set
    }

    pub fn is_empty(self) -> bool {
        self.0 == 0
    }

    pub fn union(self, other: LeafSet) -> LeafSet {
        LeafSet(self.0 | other.0)
    }

    pub fn intersection(self, other: LeafSet) -> LeafSet {
        LeafSet(self.0 & other.0)
    }

    pub fn minus(self, other: LeafSet) -> LeafSet {
        LeafSet(self.0 & !other.0)
    }

    pub fn is_within(self, other: LeafSet) -> bool {
        self.0 & !other.0 == 0
    }

    pub fn meets(self, other: LeafSet) -> bool {
        self.0 & other.0 != 0
    }

    pub fn has(self, place: usize) -> bool {
        self.meets(LeafSet::single(place))
    }

    pub fn count(self) -> u32 {
        self.0.count_ones()
    }

    /// The one leaf, or the first of several.
    pub fn lowest(self) -> usize {
        self.0.trailing_zeros() as usize
    }

    /// Its number, which indexes tables over all subsets of a few leaves.
    pub fn number(self) -> usize {
        (self.0 & 0xffff) as usize
    }

    /// The subset below this one in a run through the subsets of a set, the least being empty.
    pub fn before(self, whole: LeafSet) -> LeafSet {
        LeafSet(self.0.saturating_sub(1) & whole.0)
    }
}
