//! Bytes of an image in the caller's memory.

ghost use Rattle.std.specs.Prelude.{◌≡◌, ℕ, ◌+◌, ◌-◌, ◌^◌, ◌<◌, ◌≤◌, length, slice_index, IsErr, IsOk, refl};
ghost use Rattle.qcow2_base.specs.Format.{max_file_length};
ghost use Rattle.qcow2_base.specs.Storage.{Holds, ReadsBytes, WritesBytes, image_from};
ghost use Rattle.std.proofs.Common.{arith};
ghost use Rattle.std.proofs.lemmas.Bool.Decides.{nat_tests};
ghost use Rattle.std.proofs.lemmas.List.{get_or_past};

use super::memory::copy_bytes;
use super::{Storage, StorageFault};

/// The bytes of an image from an offset on, in the caller's memory. Bytes before and after them read as zero.
/// Every write fails and changes nothing. Both alignments are 1.
#[derive(Debug, Drop)]
pub struct SliceStorage<'a> {
    bytes: &'a [u8],
    start: u64,
    failures: u64,
    ghost bytes_fit: { (offset : ℕ) → slice_index bytes.now offset < 2 ^ 8 },
}

impl<'a> SliceStorage<'a> {
    ghost use Rattle.qcow2_base.specs.Storage.Slice.{slice_state};

    /// Returns an image that has these bytes from offset `start` on.
    pub fn new(bytes: &'a [u8], start: u64) -> SliceStorage<'a>
        ensures bytes { (slice_state result).byte_at ≡ image_from start bytes.now }
        ensures failures { (slice_state result).failures ≡ 0 }
    {
        SliceStorage {
            bytes,
            start,
            failures: 0,
        }
    }
}

impl<'a> Storage for SliceStorage<'a> {
    ghost use Rattle.qcow2_base.specs.Storage.Slice.{slice_state};

    ghost state = { slice_state };

    fn mem_align(&self) -> usize {
        1
    }

    fn req_align(&self) -> usize {
        1
    }

    /// Never fails.
    fn read(&mut self, buf: &mut [u8], offset: u64) -> Result<(), StorageFault>
        requires { offset + length buf.old ≤ max_file_length }
        ensures ok { IsOk result }
        ensures read { ReadsBytes result offset buf.new (slice_state self.old) (slice_state self.new) }
    {
        copy_from(self.bytes, self.start, buf, offset);
        Ok(())
    }

    /// Always fails, and changes no byte.
    fn write(&mut self, buf: &[u8], offset: u64) -> Result<(), StorageFault>
        requires { offset + length buf.now ≤ max_file_length }
        ensures failed { IsErr result }
        ensures same { (slice_state self.new).byte_at ≡ (slice_state self.old).byte_at }
        ensures written { WritesBytes result offset buf.now (slice_state self.old) (slice_state self.new) }
    {
        let _ = buf;
        let _ = offset;
        self.failures = self.failures.wrapping_add(1);
        Err(StorageFault)
    }

    ghost mem_align_is_power = { λ _. (0, refl) };

    ghost req_align_is_power = { λ _. (0, refl) };

    ghost byte_fits = { λ s offset.
        let fits = s.bytes_fit (offset - s.start) in Prim.grind (arith, nat_tests, fits) };

    ghost ends = { λ s o past.
        let none = get_or_past s.bytes.now (o - s.start) 0 (Prim.omega (arith, past)) in
        Prim.grind (arith, nat_tests, past, none) };
}

// Fills the buffer with the bytes from `offset` on of an image that has `bytes` from `start` on and zeros
// elsewhere.
fn copy_from(bytes: &[u8], start: u64, buf: &mut [u8], offset: u64)
    requires { offset + length buf.old ≤ max_file_length }
    ensures { Holds (image_from start bytes.now) offset buf.new }
{
    let before = start.saturating_sub(offset).min(buf.len() as u64) as usize;
    let (outside, inside) = buf.split_at_mut(before);
    outside.fill(0);
    copy_bytes(bytes, inside, offset.saturating_sub(start) as usize);
}
