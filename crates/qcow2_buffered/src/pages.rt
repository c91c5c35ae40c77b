//! Pages: consecutive bytes of a storage, kept for later reads.

ghost use Rattle.std.specs.Prelude.{◌≡◌, ℕ, ◌+◌, ◌<◌, ◌≤◌, None, Some, IfOk, IsTrue, OnOk, length, slice_index};
ghost use Rattle.qcow2_base.specs.Format.{max_file_length};
ghost use Rattle.qcow2_base.specs.Storage.{ChangesNoByte, ReadsBytes};
ghost use Rattle.qcow2_buffered.specs.Pages.{IsPage};

use qcow2_base::{Storage, StorageFault};
use std::alloc::{AllocError, Global};

/// The bytes of a storage from an offset on, or none, and the turn of their last use.
#[derive(Drop)]
pub(crate) struct Page {
    pub(crate) start: Option<u64>,
    pub(crate) bytes: Vec<u8>,
    pub(crate) used: u64,
}

impl Page {
    /// Returns an empty page of that many bytes.
    pub(crate) fn new(alloc: Global, size: usize) -> Result<Page, AllocError>
        ensures start { IfOk result (λ page. page.start ≡ None) }
        ensures len { IfOk result (λ page. length page.bytes.items ≡ size) }
    {
        Ok(Page {
            start: None,
            bytes: vec![in alloc; 0; size]?,
            used: 0,
        })
    }

    /// Whether the page has the bytes from this offset on.
    pub(crate) fn begins_at(&self, start: u64) -> bool
        ensures { IsTrue result → self.now.start ≡ Some start }
    {
        self.start == Some(start)
    }

    /// Reads the storage's bytes from `start` on, as many as the page has, and fills the buffer with those
    /// from index `first` on. A failure empties the page.
    pub(crate) fn read<S: Storage>(
        &mut self,
        storage: &mut S,
        start: u64,
        first: usize,
        buffer: &mut [u8],
        turn: u64,
    ) -> Result<(), StorageFault>
        requires room { first + length buffer.old ≤ length self.old.bytes.items }
        requires end { start + length self.old.bytes.items ≤ max_file_length }
        ensures page { IsPage (length self.old.bytes.items) (S.state storage.old) self.new }
        ensures read { ReadsBytes result (start + first) buffer.new
            (S.state storage.old) (S.state storage.new) }
        ensures len { length buffer.new ≡ length buffer.old }
    {
        self.fill(storage, start)?;
        self.copy_to(first, buffer, turn);
        Ok(())
    }

    // Reads the storage's bytes from `start` on. A failure empties the page.
    fn fill<S: Storage>(&mut self, storage: &mut S, start: u64) -> Result<(), StorageFault>
        requires { start + length self.old.bytes.items ≤ max_file_length }
        ensures page { IsPage (length self.old.bytes.items) (S.state storage.old) self.new }
        ensures start { OnOk result (self.new.start ≡ Some start) }
        ensures storage { ChangesNoByte result (S.state storage.old) (S.state storage.new) }
    {
        self.start = None;
        storage.read(&mut self.bytes, start)?;
        self.start = Some(start);
        Ok(())
    }

    /// Fills the buffer with the page's bytes from index `first` on, and notes the turn.
    pub(crate) fn copy_to(&mut self, first: usize, buffer: &mut [u8], turn: u64)
        requires { first + length buffer.old ≤ length self.old.bytes.items }
        ensures bytes { (i : ℕ) → i < length buffer.new →
            slice_index buffer.new i ≡ slice_index self.old.bytes.items (first + i) }
        ensures len { length buffer.new ≡ length buffer.old }
        ensures page { self.new ≡ record self.old { used = turn } }
    {
        self.used = turn;
        buffer.copy_from_slice(&self.bytes[first..first + buffer.len()]);
    }
}
