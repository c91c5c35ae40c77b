//! A storage in memory of bounded length, so that an image whose tables lie far away can't take all memory.

ghost use Rattle.std.specs.Prelude.{◌≡◌, ◌+◌, ◌^◌, ◌%◌, IsErr};

use qcow2_base::{Device, Storage, StorageFault};

/// The greatest length of an image, in bytes.
pub(crate) const MOST_BYTES: u64 = 1 << 20;

/// A storage that passes its calls on to another, except writes that end past a length.
#[derive(Drop)]
pub(crate) struct BoundedStorage<S> {
    /// The storage that the calls go to.
    pub(crate) inner: S,
    failures: u64,
    is_written: bool,
}

impl<S> BoundedStorage<S> {
    /// Wraps a storage.
    pub(crate) fn new(inner: S) -> BoundedStorage<S> {
        BoundedStorage {
            inner,
            failures: 0,
            is_written: false,
        }
    }

    /// Whether a call has failed.
    pub(crate) fn has_failed(&self) -> bool {
        self.failures != 0
    }

    /// Whether a write was requested.
    pub(crate) fn is_written(&self) -> bool {
        self.is_written
    }

    // Counts a failed call.
    fn fail<T>(&mut self) -> Result<T, StorageFault>
        ensures err { IsErr result }
        ensures counted { self.new ≡ record self.old { failures = (self.old.failures + 1) % 2 ^ 64 } }
    {
        self.failures = self.failures.wrapping_add(1);
        Err(StorageFault)
    }
}

impl<S: Storage> Storage for BoundedStorage<S> {
    ghost state = { λ b. record (S.state b.inner) { failures = b.failures } };

    fn mem_align(&self) -> usize {
        self.inner.mem_align()
    }

    fn req_align(&self) -> usize {
        self.inner.req_align()
    }

    fn read(&mut self, buf: &mut [u8], offset: u64) -> Result<(), StorageFault> {
        if let Ok(()) = self.inner.read(buf, offset) {
            return Ok(());
        }
        self.fail()
    }

    fn write(&mut self, buf: &[u8], offset: u64) -> Result<(), StorageFault> {
        self.is_written = true;
        if offset.saturating_add(buf.len() as u64) <= MOST_BYTES
            && let Ok(()) = self.inner.write(buf, offset)
        {
            return Ok(());
        }
        self.fail()
    }

    ghost mem_align_is_power = { λ b. S.mem_align_is_power b.inner };

    ghost req_align_is_power = { λ b. S.req_align_is_power b.inner };

    ghost byte_fits = { λ b offset. S.byte_fits b.inner offset };

    ghost ends = { λ b. S.ends b.inner };
}

impl<S: Device> Device for BoundedStorage<S> {
    fn sync(&mut self) -> Result<(), StorageFault> {
        if let Ok(()) = self.inner.sync() {
            return Ok(());
        }
        self.fail()
    }

    fn len(&mut self) -> Result<Option<u64>, StorageFault> {
        if let Ok(len) = self.inner.len() {
            return Ok(len);
        }
        self.fail()
    }
}
