//! Groups that are found by what their keys hash to.

ghost use Rattle.std.specs.Prelude.{◌≡◌, ◌≤◌, ◌<◌, ◌^◌, ◌∷◌, ◌++◌, ℕ, [], length, IfOk, OnOk};
ghost use Rattle.grouping.specs.GroupChains.{IsLast};
ghost use Rattle.grouping.specs.GroupHashes as spec;
ghost use Rattle.grouping.specs.GroupHashes.{HasChains, hash_at};
ghost use Rattle.grouping.specs.RowNumbers.{numbers_in};

use crate::chains::GroupChains;
use std::alloc::{AllocError, Global};

/// How many buckets there are at first. They double where there are as many groups.
const FIRST_BUCKETS: usize = 1024;

/// Past half as many there are no more.
const MOST_BUCKETS: usize = 4_294_967_295;

/// What the keys of groups hash to, by 4 bytes each, and the groups in the buckets of these hashes: a key is looked at only where its hash is
/// the one that is looked for, and none is hashed again where there are more buckets.
#[derive(Drop)]
pub struct GroupHashes {
    hashes: Vec<u32>,
    chains: GroupChains,
}

/// The bucket, of so many, of a hash.
#[inline(always)]
fn bucket_of(hash: u32, buckets: usize) -> usize
    requires some { 0 < buckets }
    requires few { buckets < 2 ^ 32 }
    ensures is { result ≡ spec.bucket_of buckets hash }
    ensures within { result < buckets }
{
    (hash as u64 * buckets as u64 / 4294967296) as usize
}

/// The groups with these hashes, in so many buckets.
fn chained(alloc: Global, hashes: &[u32], buckets: usize) -> Result<GroupChains, AllocError>
    requires some { 0 < buckets }
    requires few { buckets < 2 ^ 32 }
    ensures { IfOk result (HasChains hashes.now) }
{
    let mut chains = GroupChains::new(alloc, buckets, hashes.len())?;
    for hash in hashes {
        chains.push(alloc, bucket_of(*hash, buckets))?;
    }
    Ok(chains)
}

impl GroupHashes {
    /// Of no groups.
    pub fn new(alloc: Global) -> Result<GroupHashes, AllocError>
        ensures hashes { IfOk result (λ h. h.hashes.items ≡ []) }
        ensures chained { IfOk result (λ h. HasChains h.hashes.items h.chains) }
    {
        Ok(GroupHashes {
            hashes: Vec::new(alloc),
            chains: chained(alloc, &[], FIRST_BUCKETS)?,
        })
    }

    /// How many groups there are.
    pub fn len(&self) -> usize
        ensures { result ≡ length self.now.hashes.items }
    {
        self.hashes.len()
    }

    /// Back along a chain, from a group or from none: the first one that has the hash, told by its number plus one, or 0.
    fn seek(&self, from: usize, hash: u32) -> usize
        requires chained { HasChains self.now.hashes.items self.now.chains }
        requires from { from ≤ length self.now.hashes.items }
        ensures { (end : ℕ) → IsLast (λ g. spec.bucket_of (length (numbers_in self.now.chains.lasts)) (hash_at self.now.hashes.items g)) (spec.bucket_of (length (numbers_in self.now.chains.lasts)) hash) end from → IsLast (hash_at self.now.hashes.items) hash end result }
    {
        let mut from = from;
        while from > 0 {
            let group = from - 1;
            if self.hashes[group] == hash {
                return from;
            }
            from = self.chains.before(group);
        }
        0
    }

    /// The last group that has a hash, told by its number plus one; 0 where none has.
    pub fn last(&self, hash: u32) -> usize
        requires { HasChains self.now.hashes.items self.now.chains }
        ensures { IsLast (hash_at self.now.hashes.items) hash (length self.now.hashes.items) result }
    {
        let bucket = bucket_of(hash, self.chains.buckets());
        self.seek(self.chains.last(bucket), hash)
    }

    /// The group before another one that has the same hash, told in the same way.
    pub fn before(&self, group: usize) -> usize
        requires chained { HasChains self.now.hashes.items self.now.chains }
        requires within { group < length self.now.hashes.items }
        ensures { IsLast (hash_at self.now.hashes.items) (hash_at self.now.hashes.items group) group result }
    {
        self.seek(self.chains.before(group), self.hashes[group])
    }

    /// Takes in the next group, whose key has this hash.
    pub fn push(&mut self, alloc: Global, hash: u32) -> Result<(), AllocError>
        requires { HasChains self.old.hashes.items self.old.chains }
        ensures hashes { OnOk result (self.new.hashes.items ≡ self.old.hashes.items ++ hash ∷ []) }
        ensures chained { OnOk result (HasChains self.new.hashes.items self.new.chains) }
    {
        let buckets = self.chains.buckets();
        if buckets <= self.hashes.len() && buckets <= MOST_BUCKETS / 2 {
            self.chains = chained(alloc, self.hashes.as_slice(), buckets * 2)?;
        }
        let bucket = bucket_of(hash, self.chains.buckets());
        self.chains.push(alloc, bucket)?;
        self.hashes.push(hash)?;
        Ok(())
    }
}
