//! A storage over another that reads whole pages and keeps them for later reads.
#![tactic(auto)]

ghost use Rattle.std.specs.Prelude.{◌≡◌, ◌+◌, ◌^◌, ◌<◌, ◌≤◌, IfOk, IsTrue, OnOk, length};
ghost use Rattle.qcow2_base.specs.Format.{max_file_length};
ghost use Rattle.qcow2_base.specs.Storage.{ChangesNoByte, Holds, OnImage, ReadsBytes, StorageState, TellsEnd, WritesBytes};
ghost use Rattle.qcow2_buffered.specs.Pages.{ArePages};

mod pages;

use pages::Page;
use qcow2_base::{Device, MAX_FILE_LENGTH, Storage, StorageFault};
use std::alloc::{AllocError, Global};

// The number of pages. Four are enough for three interleaved sequential reads.
const PAGES: usize = 4;

// The least size of a page, in bytes: an operating system reads no less at once.
const FEWEST_BYTES: usize = 4096;

// The greatest size of a page, in bytes. Longer reads are no cheaper per byte.
const MOST_BYTES: usize = 65536;

/// A storage that reads another one in pages. A read within one page reads the whole page, and keeps it for
/// later reads. A page begins at a multiple of its length. A read fails if the read of its page fails. Nobody
/// else may write to the storage below in the meantime.
#[derive(Drop)]
pub struct BufferedStorage<S: Storage> {
    inner: S,
    size: usize,
    pages: Vec<Page>,
    turn: u64,
    ghost some: { 0 < size },
    ghost bounded: { size ≤ 2 ^ 16 },
    ghost kept: { ArePages size (S.state inner) pages.items },
}

// Returns the pages of a storage, all empty.
fn new_pages(alloc: Global, size: usize) -> Result<Vec<Page>, AllocError>
    ensures { IfOk result (λ pages. (state : StorageState) → ArePages size state pages.items) }
{
    let mut pages = Vec::with_capacity(alloc, PAGES)?;
    for _ in 0..PAGES {
        pages.push(Page::new(alloc, size)?)?;
    }
    Ok(pages)
}

impl<S: Storage> BufferedStorage<S> {
    ghost use Rattle.std.specs.Prelude.{◌≡◌, MatchResult};
    ghost use Rattle.qcow2_buffered.specs.Buffered.{inner_of};

    /// Returns a storage over this one. Its pages are as long as the image's clusters, but at least 4096 and
    /// at most 65536 bytes. Returns `inner` if memory runs out.
    pub fn new(alloc: Global, inner: S, cluster_size: usize) -> Result<BufferedStorage<S>, S>
        ensures { MatchResult result (λ storage. inner_of storage ≡ inner) (λ back. back ≡ inner) }
    {
        let size = cluster_size.clamp(FEWEST_BYTES, MOST_BYTES);
        match new_pages(alloc, size) {
            Ok(pages) => Ok(BufferedStorage {
                inner,
                size,
                pages,
                turn: 0,
            }),
            Err(_) => Err(inner),
        }
    }

    /// Drops the pages, and returns the storage below.
    pub fn into_inner(self) -> S
        ensures { result ≡ inner_of self }
    {
        self.inner
    }
}

impl<S: Storage> BufferedStorage<S> {
    ghost use Rattle.std.specs.Prelude.{◌≡◌, ◌+◌, ◌<◌, ◌≤◌, IsTrue, length};
    ghost use Rattle.qcow2_base.specs.Format.{max_file_length};
    ghost use Rattle.qcow2_base.specs.Storage.{Holds, OnImage, ReadsBytes};
    ghost use Rattle.qcow2_buffered.specs.Buffered.{buffered_state, inner_of};

    /// Returns the storage below.
    pub fn inner(&self) -> &S
        ensures { result.now ≡ inner_of self.now }
    {
        &self.inner
    }

    // If the page that begins at `start` is in memory, fills the buffer with its bytes from index `first` on.
    // Returns whether it is.
    fn copy_kept(&mut self, start: u64, first: usize, buffer: &mut [u8]) -> bool
        requires { first + length buffer.old ≤ self.old.size }
        ensures bytes { IsTrue result →
            OnImage (S.state self.old.inner) (λ image. Holds image (start + first) buffer.new) }
        ensures inner { self.new.inner ≡ self.old.inner }
        ensures pages { length self.new.pages.items ≡ length self.old.pages.items }
        ensures size { self.new.size ≡ self.old.size }
        ensures len { length buffer.new ≡ length buffer.old }
    {
        for index in 0..self.pages.len() {
            if self.pages[index].begins_at(start) {
                self.pages[index].copy_to(first, buffer, self.turn);
                return true;
            }
        }
        false
    }

    // Returns the index of the least recently used page.
    fn oldest(&self) -> usize
        requires { 0 < length self.now.pages.items }
        ensures { result < length self.now.pages.items }
    {
        let mut oldest = 0;
        for index in 1..self.pages.len() {
            if self.pages[index].used < self.pages[oldest].used {
                oldest = index;
            }
        }
        oldest
    }

    // Reads the page that begins at `start` over the least recently used one, and fills the buffer with its
    // bytes from index `first` on.
    fn read_page(&mut self, start: u64, first: usize, buffer: &mut [u8]) -> Result<(), StorageFault>
        requires some { 0 < length self.old.pages.items }
        requires first { first + length buffer.old ≤ self.old.size }
        requires end { start + self.old.size ≤ max_file_length }
        ensures { ReadsBytes result (start + first) buffer.new
            (buffered_state S.state self.old) (buffered_state S.state self.new) }
    {
        let oldest = self.oldest();
        self.pages[oldest].read(&mut self.inner, start, first, buffer, self.turn)
    }
}

impl<S: Storage> Storage for BufferedStorage<S> {
    ghost use Rattle.qcow2_buffered.specs.Buffered.{buffered_state};

    ghost state = { buffered_state S.state };

    fn mem_align(&self) -> usize {
        self.inner.mem_align()
    }

    fn req_align(&self) -> usize {
        self.inner.req_align()
    }

    fn read(&mut self, buf: &mut [u8], offset: u64) -> Result<(), StorageFault>
        requires { offset + length buf.old ≤ max_file_length }
        ensures { ReadsBytes result offset buf.new
            (buffered_state S.state self.old) (buffered_state S.state self.new) }
    {
        let first = (offset % self.size as u64) as usize;
        let start = offset - first as u64;
        let is_within = buf.len() <= self.size - first;
        if self.pages.is_empty() || !is_within || start > MAX_FILE_LENGTH - self.size as u64 {
            return self.inner.read(buf, offset);
        }
        self.turn = self.turn.wrapping_add(1);
        if self.copy_kept(start, first, buf) {
            return Ok(());
        }
        self.read_page(start, first, buf)
    }

    /// Drops all pages for good: later reads go to the storage below.
    fn write(&mut self, buf: &[u8], offset: u64) -> Result<(), StorageFault>
        requires { offset + length buf.now ≤ max_file_length }
        ensures { WritesBytes result offset buf.now
            (buffered_state S.state self.old) (buffered_state S.state self.new) }
    {
        self.pages.clear();
        self.inner.write(buf, offset)
    }

    ghost mem_align_is_power = { λ storage. S.mem_align_is_power storage.inner };

    ghost req_align_is_power = { λ storage. S.req_align_is_power storage.inner };

    ghost byte_fits = { λ storage offset. S.byte_fits storage.inner offset };

    ghost ends = { λ storage. S.ends storage.inner };
}

impl<S: Device> Device for BufferedStorage<S> {
    ghost use Rattle.qcow2_buffered.specs.Buffered.{buffered_state};

    fn sync(&mut self) -> Result<(), StorageFault>
        ensures { ChangesNoByte result (buffered_state S.state self.old) (buffered_state S.state self.new) }
    {
        self.inner.sync()
    }

    fn len(&mut self) -> Result<Option<u64>, StorageFault>
        ensures { TellsEnd result (buffered_state S.state self.old) (buffered_state S.state self.new) }
    {
        self.inner.len()
    }
}
