//! Files in memory with known bytes, read and written a few bytes at a time and with interruptions.

ghost use Rattle.std.specs.Prelude.{◌≡◌, ◌<◌, ◌≤◌, ◌+◌, IfOk, length};
ghost use Rattle.qcow2_base.specs.Format.{max_file_length};
ghost use Rattle.qcow2_base.specs.Storage.Memory.{memory_bytes};
ghost use Rattle.std.proofs.lemmas.List.{get_or_past};

use qcow2_base::{Fault, FileStorage, ImageFile, ImageFiles, MAX_FILE_LENGTH, MemStorage, Storage};
use std::alloc::Global;
use std::io;
use std::io::ErrorKind;

/// A file in memory with known bytes. A call reads or writes a few bytes, and every other one is
/// interrupted.
#[derive(Debug, Drop)]
pub struct KnownFile {
    image: MemStorage,
    step: usize,
    is_interrupted: bool,
    ghost goes_on: { 0 < step },
}

impl KnownFile {
    ghost use Rattle.qcow2_testing.specs.KnownFiles.{content_of, known_content};

    /// Makes a file of these bytes. Each call reads or writes at most `step` of them; 0 counts as 1.
    pub fn new(bytes: Vec<u8>, step: usize) -> KnownFile
        ensures { known_content result ≡ content_of bytes.items }
    {
        KnownFile {
            image: MemStorage::new(bytes),
            step: step.max(1),
            is_interrupted: false,
        }
    }

    /// The file's bytes.
    pub fn bytes(&self) -> &[u8]
        ensures { result.now ≡ memory_bytes self.now.image }
    {
        self.image.bytes()
    }

    // Fails every other time.
    fn interrupt(&mut self) -> io::Result<()>
        ensures image { self.new.image ≡ self.old.image }
        ensures step { self.new.step ≡ self.old.step }
    {
        self.is_interrupted = !self.is_interrupted;
        if self.is_interrupted {
            return Err(ErrorKind::Interrupted.into());
        }
        Ok(())
    }
}

// Refuses ranges past the greatest length of a file.
fn refuse_far(offset: u64, len: usize) -> io::Result<()>
    ensures { IfOk result (λ _. offset + len ≤ max_file_length) }
{
    if offset > MAX_FILE_LENGTH || len as u64 > MAX_FILE_LENGTH - offset {
        return Err(ErrorKind::InvalidInput.into());
    }
    Ok(())
}

impl ImageFile for KnownFile {
    ghost use Rattle.qcow2_testing.specs.KnownFiles.{known_content};

    ghost content = { known_content };

    fn read_at(&mut self, buf: &mut [u8], offset: u64) -> io::Result<usize> {
        self.interrupt()?;
        let left = (self.image.bytes().len() as u64).saturating_sub(offset) as usize;
        let count = left.min(buf.len()).min(self.step);
        refuse_far(offset, count)?;
        match self.image.read(&mut buf[..count], offset) {
            Ok(()) => Ok(count),
            Err(_) => Err(ErrorKind::Other.into()),
        }
    }

    fn write_at(&mut self, buf: &[u8], offset: u64) -> io::Result<usize> {
        self.interrupt()?;
        let count = buf.len().min(self.step);
        refuse_far(offset, count)?;
        match self.image.write(&buf[..count], offset) {
            Ok(()) => Ok(count),
            Err(_) => Err(ErrorKind::OutOfMemory.into()),
        }
    }

    fn file_len(&mut self) -> io::Result<Option<u64>> {
        Ok(Some(self.image.bytes().len() as u64))
    }

    fn sync_bytes(&mut self) -> io::Result<()> {
        Ok(())
    }

    ghost byte_fits = { λ file offset. file.image.bytes_fit offset };

    ghost ends = { λ file offset past. get_or_past (memory_bytes file.image) offset 0 past };
}

/// Files in memory that are read and written a few bytes at a time. All paths name the same file. Unlike a
/// file of the system, an open file is a copy, which replaces the original when it is closed.
#[derive(Drop)]
pub struct KnownFiles {
    alloc: Global,
    image: MemStorage,
    step: usize,
    failures: u64,
}

impl KnownFiles {
    /// Makes the file of these bytes. Each call reads or writes at most `step` of them.
    pub fn new(alloc: Global, bytes: Vec<u8>, step: usize) -> KnownFiles
        ensures { memory_bytes result.image ≡ bytes.items }
    {
        KnownFiles {
            alloc,
            image: MemStorage::new(bytes),
            step,
            failures: 0,
        }
    }

    /// The file's bytes: the original ones, or those when it was closed last.
    pub fn bytes(&self) -> &[u8]
        ensures { result.now ≡ memory_bytes self.now.image }
    {
        self.image.bytes()
    }
}

impl ImageFiles for KnownFiles {
    ghost use Rattle.qcow2_base.specs.Storage.ImageFiles.{ClosesImage};
    ghost use Rattle.qcow2_testing.specs.KnownFiles.{known_content, known_file_at};

    type Image = KnownFile;

    ghost file_at = { known_file_at };

    fn open_image(&mut self, path: &str, writable: bool) -> Result<FileStorage<KnownFile>, Fault> {
        let _ = path;
        let _ = writable;
        match Vec::from_slice(self.alloc, self.image.bytes()) {
            Ok(bytes) => Ok(FileStorage::new(KnownFile::new(bytes, self.step))),
            Err(_) => {
                self.failures = 1;
                Err(Fault::Storage)
            }
        }
    }

    fn close_image(&mut self, path: &str, image: FileStorage<KnownFile>)
        ensures { ClosesImage known_content image path.now (known_file_at self.old) (known_file_at self.new) }
    {
        let _ = path;
        self.failures = image.failures();
        self.image = image.into_file().image;
    }
}
