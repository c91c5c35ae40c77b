//! A storage that fails at a planned call, to test its callers.

ghost use Rattle.std.specs.Prelude.{◌≡◌, ◌+◌, ◌^◌, ◌%◌, ◌≤◌, [], ◌∷◌, ◌++◌, false, length, None, Some, IsTrue, IsErr};
ghost use Rattle.qcow2_base.specs.Storage.{ChangesNoByte, ReadsBytes, TellsEnd, WritesBytes};
ghost use Rattle.qcow2_testing.specs.Failing.{seen_as, plan_after, FollowsPlan};

use qcow2_base::{Device, Storage, StorageFault};
use std::alloc::Global;

/// A call of a device. Reads and writes have their offset and their length in bytes.
#[derive(Clone, Copy, Debug, PartialEq, Eq)]
pub enum StorageCall {
    Read { offset: u64, len: usize },
    Write { offset: u64, len: usize },
    Sync,
    Len,
}

/// A storage that passes its calls on to another and records them. If a test plans it, one call fails and
/// changes no byte; later calls are passed on again.
///
/// It counts each failed call, planned or of the other storage.
#[derive(Debug, Drop)]
pub struct FailingStorage<S> {
    /// The storage that the calls go to.
    pub inner: S,
    /// The number of calls before the one that fails, or `None` for no failure.
    pub plan: Option<u64>,
    /// The number of failed calls, modulo 2^64.
    pub failures: u64,
    /// All calls so far in order, failed ones included.
    pub calls: Vec<StorageCall>,
}

impl<S> FailingStorage<S> {
    /// Wraps a storage, without a planned failure.
    pub fn new(alloc: Global, inner: S) -> FailingStorage<S>
        ensures inner { result.inner ≡ inner }
        ensures plan { result.plan ≡ None }
        ensures calls { result.calls.items ≡ [] }
        ensures failures { result.failures ≡ 0 }
    {
        FailingStorage {
            inner,
            plan: None,
            failures: 0,
            calls: Vec::new(alloc),
        }
    }

    /// The number of calls so far that read the byte at an offset.
    pub fn reads_of(&self, offset: u64) -> usize {
        let mut reads = 0usize;
        for call in &self.calls {
            if let StorageCall::Read { offset: first, len } = *call
                && first <= offset
                && offset - first < len as u64
            {
                reads = reads.wrapping_add(1);
            }
        }
        reads
    }

    // Records the call, and returns whether to pass it on: not if it is planned to fail, nor if memory for
    // the record runs out.
    fn admits(&mut self, call: StorageCall) -> bool
        ensures recorded { IsTrue result → self.new.calls.items ≡ self.old.calls.items ++ call ∷ [] }
        ensures planned { self.old.plan ≡ Some 0 → result ≡ false }
        ensures plan { self.new.plan ≡ plan_after self.old.plan }
        ensures inner { self.new.inner ≡ self.old.inner }
        ensures failures { self.new.failures ≡ self.old.failures }
    {
        let passes = take_turn(&mut self.plan);
        self.calls.push(call).is_ok() && passes
    }

    // Counts a failed call.
    fn fail<T>(&mut self) -> Result<T, StorageFault>
        ensures err { IsErr result }
        ensures counted { self.new ≡ record self.old { failures = (self.old.failures + 1) % 2 ^ 64 } }
    {
        self.failures = self.failures.wrapping_add(1);
        Err(StorageFault)
    }
}

/// Counts down to a planned failure, and returns whether this call may succeed.
pub fn take_turn(plan: &mut Option<u64>) -> bool
    ensures planned { plan.old ≡ Some 0 → result ≡ false }
    ensures passes { result ≡ false → plan.old ≡ Some 0 }
    ensures plan { plan.new ≡ plan_after plan.old }
{
    match *plan {
        None => true,
        Some(0) => {
            *plan = None;
            false
        }
        Some(passes) => {
            *plan = Some(passes - 1);
            true
        }
    }
}

impl<S: Storage> Storage for FailingStorage<S> {
    ghost state = { λ f. record (S.state f.inner) { failures = f.failures } };

    fn mem_align(&self) -> usize {
        self.inner.mem_align()
    }

    fn req_align(&self) -> usize {
        self.inner.req_align()
    }

    fn read(&mut self, buf: &mut [u8], offset: u64) -> Result<(), StorageFault>
        requires { offset + length buf.old ≤ 2 ^ 56 }
        ensures bytes { ReadsBytes result offset buf.new
            (seen_as S.state self.old) (seen_as S.state self.new) }
        ensures plan { FollowsPlan result (StorageCall.Read offset (length buf.old)) self.old self.new }
    {
        let len = buf.len();
        if self.admits(StorageCall::Read { offset, len })
            && let Ok(()) = self.inner.read(buf, offset)
        {
            return Ok(());
        }
        self.fail()
    }

    fn write(&mut self, buf: &[u8], offset: u64) -> Result<(), StorageFault>
        requires { offset + length buf.now ≤ 2 ^ 56 }
        ensures bytes { WritesBytes result offset buf.now
            (seen_as S.state self.old) (seen_as S.state self.new) }
        ensures plan { FollowsPlan result (StorageCall.Write offset (length buf.now)) self.old self.new }
    {
        let len = buf.len();
        if self.admits(StorageCall::Write { offset, len })
            && let Ok(()) = self.inner.write(buf, offset)
        {
            return Ok(());
        }
        self.fail()
    }

    ghost mem_align_is_power = { λ f. S.mem_align_is_power f.inner };

    ghost req_align_is_power = { λ f. S.req_align_is_power f.inner };

    ghost byte_fits = { λ f offset. S.byte_fits f.inner offset };

    ghost ends = { λ f. S.ends f.inner };
}

impl<S: Device> Device for FailingStorage<S> {
    fn sync(&mut self) -> Result<(), StorageFault>
        ensures bytes { ChangesNoByte result (seen_as S.state self.old) (seen_as S.state self.new) }
        ensures plan { FollowsPlan result StorageCall.Sync self.old self.new }
    {
        if self.admits(StorageCall::Sync)
            && let Ok(()) = self.inner.sync()
        {
            return Ok(());
        }
        self.fail()
    }

    fn len(&mut self) -> Result<Option<u64>, StorageFault>
        ensures end { TellsEnd result (seen_as S.state self.old) (seen_as S.state self.new) }
        ensures plan { FollowsPlan result StorageCall.Len self.old self.new }
    {
        if self.admits(StorageCall::Len)
            && let Ok(len) = self.inner.len()
        {
            return Ok(len);
        }
        self.fail()
    }
}
