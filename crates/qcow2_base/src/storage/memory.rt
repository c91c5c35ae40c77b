//! An image in memory.

ghost use Rattle.std.specs.Prelude.{◌≡◌, ℕ, ◌+◌, ◌^◌, ◌<◌, ◌≤◌, max, length, slice_index, Ok, Some, IsOk, OnOk, OnErr};
ghost use Rattle.qcow2_base.specs.Format.{max_file_length};
ghost use Rattle.qcow2_base.specs.Storage.Growth.{GrowsToFit};
ghost use Rattle.qcow2_base.specs.Storage.{IsPowerOfTwo, Holds, SameOutside, WritesBytes, image_of};
ghost use Rattle.qcow2_base.specs.Storage.Alignment.{power_of_two_once};
ghost use Rattle.std.proofs.lemmas.List.{get_or_past};

use super::{Device, Storage, StorageFault};
use std::alloc::AllocError;

/// An image in memory. Proofs know its bytes. Only a write that can't lengthen it fails.
#[derive(Debug, Drop)]
pub struct MemStorage {
    bytes: Vec<u8>,
    align: usize,
    failures: u64,
    ghost bytes_fit: { (offset : ℕ) → slice_index bytes.items offset < 2 ^ 8 },
    ghost aligned: { IsPowerOfTwo align } by { power_of_two_once align },
}

impl MemStorage {
    ghost use Rattle.qcow2_base.specs.Storage.Memory.{memory_bytes, memory_state, alignment};

    /// Returns an image of these bytes, with both alignments 1. It keeps the vector's allocator.
    pub fn new(bytes: Vec<u8>) -> MemStorage
        ensures bytes { memory_bytes result ≡ bytes.items }
        ensures align { alignment result ≡ 1 }
        ensures failures { (memory_state result).failures ≡ 0 }
    {
        MemStorage {
            bytes,
            align: 1,
            failures: 0,
        }
    }

    /// Returns the same image with both alignments set to `align` bytes.
    pub fn with_align(self, align: usize) -> MemStorage
        requires { IsPowerOfTwo align }
        ensures bytes { memory_bytes result ≡ memory_bytes self }
        ensures align { alignment result ≡ align }
        ensures failures { (memory_state result).failures ≡ (memory_state self).failures }
    {
        MemStorage {
            bytes: self.bytes,
            align,
            failures: self.failures,
        }
    }

    /// Returns the image's bytes, up to its end.
    pub fn bytes(&self) -> &[u8]
        ensures { result.now ≡ memory_bytes self.now }
    {
        &self.bytes
    }
}

impl Storage for MemStorage {
    ghost use Rattle.qcow2_base.specs.Storage.Memory.{memory_bytes, memory_state};

    ghost state = { memory_state };

    fn mem_align(&self) -> usize {
        self.align
    }

    fn req_align(&self) -> usize {
        self.align
    }

    /// Never fails.
    fn read(&mut self, buf: &mut [u8], offset: u64) -> Result<(), StorageFault>
        requires { offset + length buf.old ≤ max_file_length }
        ensures ok { IsOk result }
        ensures read { Holds (image_of (memory_bytes self.old)) offset buf.new }
        ensures unchanged { self.new ≡ self.old }
    {
        copy_bytes(&self.bytes, buf, offset as usize);
        Ok(())
    }

    /// Fails only if there is no memory for a longer image, and then changes nothing.
    fn write(&mut self, buf: &[u8], offset: u64) -> Result<(), StorageFault>
        requires { offset + length buf.now ≤ max_file_length }
        ensures bytes { WritesBytes result offset buf.now (memory_state self.old) (memory_state self.new) }
        ensures growth { GrowsToFit result offset (length buf.now)
            (memory_bytes self.old) (memory_bytes self.new) }
    {
        match overwrite(&mut self.bytes, buf, offset as usize) {
            Ok(()) => Ok(()),
            Err(AllocError) => {
                self.failures = self.failures.wrapping_add(1);
                Err(StorageFault)
            }
        }
    }

    ghost mem_align_is_power = { λ m. m.aligned };

    ghost req_align_is_power = { λ m. m.aligned };

    ghost byte_fits = { λ m offset. m.bytes_fit offset };

    ghost ends = { λ m o past. get_or_past m.bytes.items o 0 past };
}

/// Has no device below, and never fails.
impl Device for MemStorage {
    ghost use Rattle.qcow2_base.specs.Storage.Memory.{memory_bytes};

    fn sync(&mut self) -> Result<(), StorageFault>
        ensures ok { IsOk result }
        ensures same { self.new ≡ self.old }
    {
        Ok(())
    }

    fn len(&mut self) -> Result<Option<u64>, StorageFault>
        ensures end { result ≡ Ok (Some (length (memory_bytes self.old))) }
        ensures same { self.new ≡ self.old }
    {
        Ok(Some(self.bytes.len() as u64))
    }
}

/// Fills the buffer with the bytes from `offset` on, and with zeros past the last one.
pub(super) fn copy_bytes(bytes: &[u8], buf: &mut [u8], offset: usize)
    ensures { Holds (image_of bytes.now) offset buf.new }
{
    let start = offset.min(bytes.len());
    let count = buf.len().min(bytes.len() - start);
    let (stored, past) = buf.split_at_mut(count);
    stored.copy_from_slice(&bytes[start..start + count]);
    past.fill(0);
}

// Replaces the bytes from `offset` on by the buffer's. First appends zeros if the vector is too short.
fn overwrite(bytes: &mut Vec<u8>, buf: &[u8], offset: usize) -> Result<(), AllocError>
    requires { offset + length buf.now ≤ max_file_length }
    ensures written { OnOk result (Holds (image_of bytes.new.items) offset buf.now) }
    ensures others { SameOutside offset (length buf.now)
        (image_of bytes.old.items) (image_of bytes.new.items) }
    ensures growth { GrowsToFit result offset (length buf.now) bytes.old.items bytes.new.items }
    ensures fit { (o : ℕ) → slice_index bytes.new.items o < 2 ^ 8 }
{
    if buf.is_empty() {
        return Ok(());
    }
    lengthen(bytes, offset + buf.len())?;
    put(bytes.as_mut_slice(), buf, offset);
    Ok(())
}

// Appends zeros until there are at least `len` bytes.
fn lengthen(bytes: &mut Vec<u8>, len: usize) -> Result<(), AllocError>
    ensures same { image_of bytes.new.items ≡ image_of bytes.old.items }
    ensures len { OnOk result (length bytes.new.items ≡ max (length bytes.old.items) len) }
    ensures in_place { len ≤ length bytes.old.items → IsOk result }
    ensures err { OnErr result (bytes.new.items ≡ bytes.old.items) }
{
    if bytes.len() < len {
        bytes.resize(len, 0)?;
    }
    Ok(())
}

// Replaces the bytes from `offset` on by the buffer's.
fn put(bytes: &mut [u8], buf: &[u8], offset: usize)
    requires { offset + length buf.now ≤ length bytes.old }
    ensures written { Holds (image_of bytes.new) offset buf.now }
    ensures others { SameOutside offset (length buf.now) (image_of bytes.old) (image_of bytes.new) }
{
    bytes[offset..offset + buf.len()].copy_from_slice(buf);
}
