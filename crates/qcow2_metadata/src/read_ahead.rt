//! Read-ahead: many small reads of adjacent bytes in few calls of the storage.

ghost use Rattle.std.specs.Prelude.{◌≡◌, ◌+◌, ◌-◌, ◌^◌, min, ◌≤◌, ◌<◌, IsOkUnless, IsTrue, OnOk, length, take};
ghost use Rattle.qcow2_metadata.specs.Pieces.{piece_size};
ghost use Rattle.qcow2_base.specs.Format.{max_file_length};
ghost use Rattle.qcow2_base.specs.Storage.{Holds, OnImage, OnlyReads, ReadsBytes};

use crate::pieces::PIECE_BYTES;
use crate::range::read_range;
use qcow2_base::{Fault, HostOffset, Storage, StorageFault};

/// The greatest number of bytes that one call reads ahead.
const AHEAD: usize = PIECE_BYTES;

/// A storage that reads more than its caller asks for, up to an end, and keeps that for the next reads.
#[derive(Drop)]
pub(crate) struct ReadAhead<'a, S: Storage> {
    image: &'a mut S,
    end: u64,
    start: u64,
    len: usize,
    bytes: [u8; AHEAD],
    ghost kept: { OnImage (S.state image.now) (λ stored. Holds stored start (take len bytes)) },
    ghost room: { len ≤ piece_size },
    ghost limit: { end ≤ 2 ^ 21 },
}

impl<'a, S: Storage> ReadAhead<'a, S> {
    // Returns a reader with no bytes in memory, which reads ahead at most up to `end`.
    pub(crate) fn new(image: &'a mut S, end: u64) -> ReadAhead<'a, S>
        requires { end ≤ 2 ^ 21 }
        ensures image { result.image.now ≡ image.entry.now }
        ensures same { result.image.ghost_name ≡ image.entry.ghost_name }
    {
        ReadAhead {
            image,
            end,
            start: 0,
            len: 0,
            bytes: [0; AHEAD],
        }
    }

    // Whether `len` bytes from an offset on are in memory.
    fn keeps(&self, offset: u64, len: usize) -> bool
        ensures { IsTrue result → (self.now.start ≤ offset) × (offset + len ≤ self.now.start + self.now.len) }
    {
        offset >= self.start && len <= self.len && offset - self.start <= (self.len - len) as u64
    }

    // Fills the buffer with the image's bytes from an offset on.
    pub(crate) fn read_range(&mut self, offset: HostOffset, buffer: &mut [u8]) -> Result<(), Fault>
        requires { offset.0 + length buffer.old ≤ max_file_length }
        ensures fault { IsOkUnless result Fault.Storage }
        ensures held { OnOk result (OnImage (S.state self.old.image.now) (λ bytes.
            Holds bytes offset.0 buffer.new)) }
        ensures storage { OnlyReads result (S.state self.old.image.now) (S.state self.new.image.now) }
        ensures same { self.new.image.ghost_name ≡ self.old.image.ghost_name }
    {
        let len = buffer.len();
        if !self.keeps(offset.0, len) {
            if len > AHEAD || offset.0 >= self.end || self.end - offset.0 < len as u64 {
                return read_range(self.image, offset, buffer);
            }
            self.fill(offset.0)?;
        }
        let first = (offset.0 - self.start) as usize;
        buffer.copy_from_slice(&self.bytes[first..first + len]);
        Ok(())
    }

    // Reads ahead from an offset on, as many bytes as allowed.
    fn fill(&mut self, offset: u64) -> Result<(), StorageFault>
        requires { offset < self.old.end }
        ensures read { ReadsBytes result offset (take self.new.len self.new.bytes)
            (S.state self.old.image.now) (S.state self.new.image.now) }
        ensures start { OnOk result (self.new.start ≡ offset) }
        ensures len { OnOk result (self.new.len ≡ min (self.old.end - offset) piece_size) }
        ensures same { self.new.image.ghost_name ≡ self.old.image.ghost_name }
    {
        let len = ((self.end - offset) as usize).min(AHEAD);
        self.len = 0;
        self.start = offset;
        read_front(self.image, offset, len, &mut self.bytes)?;
        self.len = len;
        Ok(())
    }
}

// Fills the first `len` bytes of the buffer.
fn read_front<S: Storage>(
    image: &mut S,
    offset: u64,
    len: usize,
    buffer: &mut [u8; AHEAD],
) -> Result<(), StorageFault>
    requires room { len ≤ piece_size }
    requires end { offset + len ≤ max_file_length }
    ensures { ReadsBytes result offset (take len buffer.new) (S.state image.old) (S.state image.new) }
{
    image.read(&mut buffer[..len], offset)
}
