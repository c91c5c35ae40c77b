//! The guard of refcount blocks, which changes refcounts.

ghost use Rattle.std.specs.Prelude.{◌≡◌, ◌<◌, ◌==◌, length, slice_index};
ghost use Rattle.qcow2_metadata.specs.Refblock.Guard.{IsSameBlock, guarded_block, Changes, Steps, Increment, Decrement, as_counter};

use super::RefBlock;
use qcow2_base::Fault;

/// A guard for changes of a block's refcounts. Nobody else can access the block while it exists.
#[derive(Debug, Drop)]
pub struct RefBlockWriteGuard<'a> {
    pub(super) block: &'a mut RefBlock,
}

impl RefBlockWriteGuard<'_> {
    /// Whether the refcount at an index is 0.
    #[inline]
    pub fn is_zero(&self, index: usize) -> bool
        requires { index < length (guarded_block self.now).numbers }
        ensures { result ≡ (slice_index (guarded_block self.now).numbers index == 0) }
    {
        self.block.is_zero(index)
    }

    /// Sets the refcount at an index, and returns the old one. The block then counts as modified. Refuses a
    /// refcount past the greatest number of its width (fault 30), and then changes nothing.
    pub fn set(&mut self, index: usize, counter: u64) -> Result<u64, Fault>
        requires { index < length (guarded_block self.old).numbers }
        ensures same_block { IsSameBlock self.old self.new }
        ensures change { let old = guarded_block self.old in
            Changes index (as_counter old.geometry.refcount_order counter) result old
            (guarded_block self.new) }
    {
        if counter > self.block.greatest() {
            return Err(Fault::CounterRange);
        }
        let before = self.block.get(index);
        self.block.set(index, counter);
        Ok(before)
    }

    /// Adds 1 to the refcount at an index, and returns the old one. The block then counts as modified.
    /// Refuses a refcount at the greatest number of its width (fault 30), and then changes nothing.
    pub fn increment(&mut self, index: usize) -> Result<u64, Fault>
        requires { index < length (guarded_block self.old).numbers }
        ensures same_block { IsSameBlock self.old self.new }
        ensures step { Steps Increment index result (guarded_block self.old) (guarded_block self.new) }
    {
        let before = self.block.get(index);
        if before == self.block.greatest() {
            return Err(Fault::CounterRange);
        }
        self.block.set(index, before + 1);
        Ok(before)
    }

    /// Subtracts 1 from the refcount at an index, and returns the old one. The block then counts as modified.
    /// Refuses a refcount of 0 (fault 30), and then changes nothing.
    pub fn decrement(&mut self, index: usize) -> Result<u64, Fault>
        requires { index < length (guarded_block self.old).numbers }
        ensures same_block { IsSameBlock self.old self.new }
        ensures step { Steps Decrement index result (guarded_block self.old) (guarded_block self.new) }
    {
        let before = self.block.get(index);
        if before == 0 {
            return Err(Fault::CounterRange);
        }
        self.block.set(index, before - 1);
        Ok(before)
    }
}
