//! Storages of an image's bytes: the traits that every layer reads and writes through, and storages in
//! memory, over a caller's bytes and over a file.

ghost use Rattle.std.specs.Prelude.{◌≡◌, ℕ, ◌+◌, ◌^◌, ◌<◌, ◌≤◌, length};
ghost use Rattle.qcow2_base.specs.Format.{max_file_length};
ghost use Rattle.qcow2_base.specs.Storage.{ChangesNoByte, EndsBy, IsPowerOfTwo, ReadsBytes, StorageState, TellsEnd, WritesBytes};
ghost use Rattle.qcow2_base.specs.declared.fault.Fault.TheVariants.{Storage as storage_fault};

mod file;
mod image_file;
mod image_files;
mod memory;
mod slice;

use crate::Fault;
pub use file::FileStorage;
pub use image_file::ImageFile;
pub use image_files::ImageFiles;
pub use memory::MemStorage;
pub use slice::SliceStorage;
use thiserror::Error;

/// A failed call of a storage, whatever the cause.
#[derive(Clone, Copy, Debug, PartialEq, Eq, Error)]
#[error("the storage failed")]
pub struct StorageFault;

/// Converts a failed call of a storage, for `?`.
impl From<StorageFault> for Fault {
    ghost from_gives = { λ _ fault. fault ≡ storage_fault };

    fn from(_fault: StorageFault) -> Fault {
        Fault::Storage
    }
}

/// The bytes of an image. Bytes past its end read as zero. A write past the end lengthens the image, with
/// zeros between.
///
/// Callers may read and write at any offset and length that end at or below 2^56. Each failed call adds 1 to
/// the number of failures, modulo 2^64; a successful call adds none.
///
/// The implementor keeps that number. If proofs can't know the bytes, `state` has `tells = false`, `byte_at =
/// λ _. 0` and `len = 0`, and each of the four laws is one line. If they can, `state` gives the bytes and
/// their number, as in `MemStorage`. A storage over an aligned device copies through buffers of its own.
pub trait Storage {
    /// The storage's state, as proofs see it.
    ghost state: { Self → StorageState };

    /// Returns the best alignment of buffers in memory, in bytes: a power of two. Only `Table::write_entry`
    /// uses it.
    fn mem_align(&self) -> usize
        ensures { result ≡ (state self.now).mem_align };

    /// Returns the best alignment of offsets and lengths, in bytes: a power of two. Only `Table::write_entry`
    /// uses it.
    fn req_align(&self) -> usize
        ensures { result ≡ (state self.now).req_align };

    /// Fills the buffer with the bytes from `offset` on. A failure leaves the buffer undefined.
    fn read(&mut self, buf: &mut [u8], offset: u64) -> Result<(), StorageFault>
        requires { offset + length buf.old ≤ max_file_length }
        ensures { ReadsBytes result offset buf.new (state self.old) (state self.new) };

    /// Replaces the bytes from `offset` on by the buffer's. A failure may leave any bytes in that range; no
    /// other byte changes.
    fn write(&mut self, buf: &[u8], offset: u64) -> Result<(), StorageFault>
        requires { offset + length buf.now ≤ max_file_length }
        ensures { WritesBytes result offset buf.now (state self.old) (state self.new) };

    ghost mem_align_is_power: { (s : Self) → IsPowerOfTwo (state s).mem_align };

    ghost req_align_is_power: { (s : Self) → IsPowerOfTwo (state s).req_align };

    ghost byte_fits: { (s : Self) (offset : ℕ) → (state s).byte_at offset < 2 ^ 8 };

    ghost ends: { (s : Self) → EndsBy (state s).len (state s).byte_at };
}

/// A storage on a device, which may cache writes in memory, and which may know where the image ends. Code
/// that only reads and writes takes a `Storage`.
pub trait Device: Storage {
    /// Waits until all earlier writes are on the device, so that they survive a crash of the machine. Changes
    /// no byte. After a failure nothing is known of the device's content. Crash safety of edits and repairs
    /// rests on this call: a storage over another must pass it on, and only one without a device may do
    /// nothing.
    fn sync(&mut self) -> Result<(), StorageFault>
        ensures { ChangesNoByte result (Self.state self.old) (Self.state self.new) };

    /// Returns the length of the image in bytes, or `None` if it has no known end, as a pipe. Changes no
    /// byte.
    fn len(&mut self) -> Result<Option<u64>, StorageFault>
        ensures { TellsEnd result (Self.state self.old) (Self.state self.new) };
}
