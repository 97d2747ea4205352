//! Rows in buckets, by row numbers of 32 bits: 4 bytes a bucket and 4 a row.

ghost use Rattle.std.specs.Prelude.{◌≡◌, ◌+◌, ◌<◌, ◌≤◌, ◌^◌, ℕ, length, OnOk, IfOk};
ghost use Rattle.store.specs.Chains.{IsNewest, AreChained};

use std::alloc::{AllocError, Global};
use values::Items;

/// The newest row of each bucket, and for each row the one before it in its bucket. A row stands as its number from 1, and
/// 0 for none.
#[derive(Drop)]
pub struct Chains {
    heads: Items<u32>,
    olders: Items<u32>,
}

impl Chains {
    /// So many buckets, with no row, and room for so many rows.
    pub fn new(alloc: Global, buckets: usize, rows: usize) -> Result<Chains, AllocError>
        ensures size { IfOk result (λ c. length c.heads ≡ buckets) }
        ensures empty { IfOk result (λ c. (f : ℕ → ℕ) → AreChained f 0 c) }
    {
        let heads = vec![in alloc; 0; buckets]?;
        let olders = Vec::with_capacity(alloc, rows)?;
        Ok(Chains {
            heads: Items::from_vec(heads),
            olders: Items::from_vec(olders),
        })
    }

    /// One more row, in this bucket.
    pub fn push(&mut self, bucket: usize) -> Result<(), AllocError>
        requires bucket { bucket < length self.old.heads }
        requires few { length self.old.olders + 1 < 2 ^ 32 }
        ensures size { length self.new.heads ≡ length self.old.heads }
        ensures chained { OnOk result ((f : ℕ → ℕ) (n : ℕ) → AreChained f n self.old → f n ≡ bucket → AreChained f (n + 1) self.new) }
    {
        let older = self.heads.as_slice()[bucket];
        self.olders.push(older)?;
        self.heads.set(bucket, self.olders.len() as u32);
        Ok(())
    }

    /// One more row, in no bucket.
    pub fn push_apart(&mut self) -> Result<(), AllocError>
        ensures size { length self.new.heads ≡ length self.old.heads }
        ensures chained { OnOk result ((f : ℕ → ℕ) (n : ℕ) → AreChained f n self.old → length self.old.heads ≤ f n → AreChained f (n + 1) self.new) }
    {
        self.olders.push(0)
    }

    /// The number from 1 of the bucket's newest row; 0 where it has none.
    pub fn newest(&self, bucket: usize) -> usize
        requires { bucket < length self.now.heads }
        ensures { (f : ℕ → ℕ) (n : ℕ) → AreChained f n self.now → IsNewest f bucket n result }
    {
        self.heads.as_slice()[bucket] as usize
    }

    /// The number from 1 of the row before this one in its bucket; 0 where it is the first.
    pub fn older(&self, row: usize) -> usize
        requires { row < length self.now.olders }
        ensures { (f : ℕ → ℕ) (n : ℕ) → AreChained f n self.now → f row < length self.now.heads → IsNewest f (f row) row result }
    {
        self.olders.as_slice()[row] as usize
    }
}
