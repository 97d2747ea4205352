//! Groups in buckets, while groups are founded: hashing by chaining.

ghost use Rattle.std.specs.Prelude.{◌≡◌, ◌+◌, ◌<◌, ◌^◌, ℕ, [], ◌∷◌, ◌++◌, length, IfOk, OnOk};
ghost use Rattle.grouping.specs.GroupChains.{AreChained, IsLast};
ghost use Rattle.grouping.specs.RowNumbers.{numbers_in};

use crate::row_numbers::RowNumbers;
use std::alloc::{AllocError, Global};

/// The last group of each bucket, and for each group the one before it in its bucket. They are told by their numbers plus one; 0 where there
/// is none.
#[derive(Drop)]
pub struct GroupChains {
    lasts: RowNumbers,
    befores: RowNumbers,
}

impl GroupChains {
    /// So many buckets without groups, and room for so many of these.
    pub fn new(alloc: Global, buckets: usize, groups: usize) -> Result<GroupChains, AllocError>
        ensures buckets { IfOk result (λ chains. length (numbers_in chains.lasts) ≡ buckets) }
        ensures groups { IfOk result (λ chains. length (numbers_in chains.befores) ≡ 0) }
        ensures empty { (f : ℕ → ℕ) → IfOk result (λ chains. AreChained f (numbers_in chains.lasts) (numbers_in chains.befores)) }
    {
        Ok(GroupChains {
            lasts: RowNumbers::zeros(alloc, buckets)?,
            befores: RowNumbers::with_capacity(alloc, groups)?,
        })
    }

    pub fn buckets(&self) -> usize
        ensures { result ≡ length (numbers_in self.now.lasts) }
    {
        self.lasts.len()
    }

    /// Puts the next group into a bucket.
    #[tactic(auto, using(crate::proofs::GroupChains::pushed))]
    pub fn push(&mut self, alloc: Global, bucket: usize) -> Result<(), AllocError>
        requires bucket { bucket < length (numbers_in self.old.lasts) }
        requires few { length (numbers_in self.old.befores) + 1 < 2 ^ 64 }
        ensures buckets { OnOk result (length (numbers_in self.new.lasts) ≡ length (numbers_in self.old.lasts)) }
        ensures groups { OnOk result (length (numbers_in self.new.befores) ≡ length (numbers_in self.old.befores) + 1) }
        ensures chained { (f : ℕ → ℕ) → AreChained f (numbers_in self.old.lasts) (numbers_in self.old.befores) → f (length (numbers_in self.old.befores)) ≡ bucket → OnOk result (AreChained f (numbers_in self.new.lasts) (numbers_in self.new.befores)) }
    {
        self.befores.push(alloc, self.lasts.number(bucket))?;
        self.lasts.set(alloc, bucket, self.befores.len())
    }

    /// The bucket's last group.
    pub fn last(&self, bucket: usize) -> usize
        requires { bucket < length (numbers_in self.now.lasts) }
        ensures { (f : ℕ → ℕ) → AreChained f (numbers_in self.now.lasts) (numbers_in self.now.befores) → IsLast f bucket (length (numbers_in self.now.befores)) result }
    {
        self.lasts.number(bucket)
    }

    /// The group before another in its bucket.
    pub fn before(&self, group: usize) -> usize
        requires { group < length (numbers_in self.now.befores) }
        ensures { (f : ℕ → ℕ) → AreChained f (numbers_in self.now.lasts) (numbers_in self.now.befores) → IsLast f (f group) group result }
    {
        self.befores.number(group)
    }
}
