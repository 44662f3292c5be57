//! The worlds whose reports have answers, filed by the digests of these reports.

ghost use Rattle.std.specs.Prelude.{◌≡◌, ◌≢◌, ℕ, ◌<◌, ◌%◌, length, true, false, IfOk, OnOk, Some};
ghost use Rattle.std.specs.List.{slice_get};
ghost use Rattle.world_search.specs.Private.Told.{Files, IsFiled};

use crate::store::Worlds;
use std::alloc::{AllocError, Global};

/// The numbers of worlds, in buckets. A world is in the bucket that the digest of its report names.
#[derive(Drop)]
pub struct Told {
    /// The buckets.
    pub buckets: Vec<Vec<usize>>,
}

impl Told {
    /// Returns this many empty buckets.
    pub fn new(alloc: Global, many: usize) -> Result<Told, AllocError>
        ensures many { IfOk result (λ it. length it.buckets.items ≡ many) }
        ensures none { IfOk result (λ it. (b n : ℕ) → IsFiled it.buckets.items b n → ⊥) }
    {
        let mut buckets = Vec::with_capacity(alloc, many)?;
        while buckets.len() < many {
            buckets.push(Vec::new(alloc))?;
        }
        Ok(Told { buckets })
    }

    /// The bucket of a world.
    pub fn bucket_of<W: Worlds>(&self, worlds: &W, world: usize) -> usize
        requires some { 0 < length self.now.buckets.items }
        requires low { world < length (W.worlds worlds.now) }
        ensures bucket { (w : W.World) → slice_get (W.worlds worlds.now) world ≡ Some w →
            result ≡ W.report_digest (W.report w) % length self.now.buckets.items }
        ensures low { result < length self.now.buckets.items }
    {
        let many = self.buckets.len() as u64;
        (worlds.report_digest(world) % many) as usize
    }

    /// Adds a world to a bucket.
    pub fn file(&mut self, bucket: usize, world: usize) -> Result<(), AllocError>
        requires { bucket < length self.old.buckets.items }
        ensures { OnOk result (Files self.old.buckets.items self.new.buckets.items bucket world) }
    {
        self.buckets[bucket].push(world)?;
        Ok(())
    }
}

/// Whether one of the worlds `told` has the report of the world `index`.
pub fn have_report<W: Worlds>(worlds: &W, told: &[usize], index: usize) -> bool
    requires low { index < length (W.worlds worlds.now) }
    requires within { (k j : ℕ) → slice_get told.now k ≡ Some j → j < length (W.worlds worlds.now) }
    ensures yes { result ≡ true → (j : ℕ) × (k : ℕ) × (slice_get told.now k ≡ Some j) × ((v w : W.World) →
        slice_get (W.worlds worlds.now) j ≡ Some v → slice_get (W.worlds worlds.now) index ≡ Some w →
        W.report v ≡ W.report w) }
    ensures no { result ≡ false → (k j : ℕ) (v w : W.World) → slice_get told.now k ≡ Some j →
        slice_get (W.worlds worlds.now) j ≡ Some v → slice_get (W.worlds worlds.now) index ≡ Some w →
        W.report v ≢ W.report w }
{
    for i in 0..told.len() {
        if worlds.same_report(told[i], index) {
            return true;
        }
    }
    false
}
