//! What is tried first, and what isn't.

use rules::Promise;

/// Whether products of what no condition connects are made.
#[derive(Clone, Copy)]
pub enum Products {
    Made,
    LeftOut,
}

impl Products {
    /// Whether rules with this promise are tried.
    pub(crate) fn allow(self, promise: Promise) -> bool {
        match (self, promise) {
            (Products::LeftOut, Promise::Products) => false,
            _ => true,
        }
    }
}

/// Promises as numbers, that of what is tried first least.
pub(crate) fn rank_of(promise: Promise) -> usize {
    match promise {
        Promise::Simpler => 0,
        Promise::Connected => 1,
        Promise::Products => 2,
        Promise::Projections => 3,
    }
}
