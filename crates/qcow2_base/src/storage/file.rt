//! An image in a file.

ghost use Rattle.std.specs.Prelude.{◌≡◌, ◌+◌, ◌^◌, ◌%◌, ◌<◌, ◌≤◌, ◌↔◌, true, length, take, refl, Ok, IsOk, IsErr, IsOkUnless, IfOk, OnOk, MatchResult};
ghost use Rattle.std.specs.Fs.{new_options, with_read, with_write, IsDir, file_type};
ghost use Rattle.qcow2_base.specs.Format.{max_file_length};
ghost use Rattle.qcow2_base.specs.Storage.File.{failures_of, file_of, file_state};
ghost use Rattle.qcow2_base.specs.Storage.ImageFile.{OnFile};
ghost use Rattle.qcow2_base.specs.Storage.{ChangesNoByte, Holds, ReadsBytes, SameOutside, TellsEnd, WritesBytes};

use super::{Device, ImageFile, Storage, StorageFault};
use crate::Fault;
use std::fs::{File, Metadata, OpenFile, OpenOptions};
use std::io;
use std::io::{ErrorKind, Read, Seek, Write};
use std::rt::Files;

/// An image in a file. Proofs know its bytes if they know the file's, and those of a file of the system they
/// don't. Both alignments are 1.
#[derive(Debug, Drop)]
pub struct FileStorage<F = File> {
    file: F,
    failures: u64,
}

impl<F> FileStorage<F> {
    /// Returns a storage over an open file.
    pub fn new(file: F) -> FileStorage<F>
        ensures file { file_of result ≡ file }
        ensures failures { failures_of result ≡ 0 }
    {
        FileStorage { file, failures: 0 }
    }

    /// Returns the number of failed calls so far, modulo 2^64.
    pub fn failures(&self) -> u64
        ensures { result ≡ failures_of self.now }
    {
        self.failures
    }

    /// Returns the open file.
    pub fn into_file(self) -> F
        ensures { result ≡ file_of self }
    {
        self.file
    }
}

impl<F: Read + Write + Seek + OpenFile + Drop> FileStorage<F> {
    /// Opens an existing file for reading, or for reading and writing; creates none. Any failure is the
    /// storage fault (34), and so is a directory.
    pub fn open<R: Files<File = F>>(
        rt: &R,
        path: &str,
        writable: bool,
    ) -> Result<FileStorage<F>, Fault>
        ensures fault { IsOkUnless result Fault.Storage }
        ensures failures { IfOk result (λ storage. failures_of storage ≡ 0) }
    {
        match open_file(rt, path, writable) {
            Ok(file) => Ok(FileStorage::new(file)),
            Err(_) => Err(Fault::Storage),
        }
    }
}

fn open_file<R: Files>(rt: &R, path: &str, writable: bool) -> io::Result<R::File> {
    let file = access(writable).open(rt, path)?;
    refuse_directory(&file.metadata()?)?;
    Ok(file)
}

// Options to read, and to write if `writable`; they create and truncate nothing.
fn access(writable: bool) -> OpenOptions
    ensures { result ≡ with_write (with_read new_options true) writable }
{
    let mut options = OpenOptions::new();
    options.read(true).write(writable);
    options
}

fn refuse_directory(metadata: &Metadata) -> io::Result<()>
    ensures { IsErr result ↔ IsDir (file_type metadata.now) }
{
    if metadata.is_dir() {
        return Err(ErrorKind::IsADirectory.into());
    }
    Ok(())
}

impl<F: ImageFile> Storage for FileStorage<F> {
    ghost state = { file_state F.content };

    fn mem_align(&self) -> usize {
        1
    }

    fn req_align(&self) -> usize {
        1
    }

    fn read(&mut self, buf: &mut [u8], offset: u64) -> Result<(), StorageFault>
        requires { offset + length buf.old ≤ max_file_length }
        ensures { ReadsBytes result offset buf.new
            (file_state F.content self.old) (file_state F.content self.new) }
    {
        count(read_all(&mut self.file, buf, offset), &mut self.failures)
    }

    /// An empty write succeeds without a call of the file.
    fn write(&mut self, buf: &[u8], offset: u64) -> Result<(), StorageFault>
        requires { offset + length buf.now ≤ max_file_length }
        ensures bytes { WritesBytes result offset buf.now
            (file_state F.content self.old) (file_state F.content self.new) }
        ensures empty { length buf.now ≡ 0 → IsOk result × (self.new ≡ self.old) }
    {
        count(write_all(&mut self.file, buf, offset), &mut self.failures)
    }

    ghost mem_align_is_power = { λ _. (0, refl) };

    ghost req_align_is_power = { λ _. (0, refl) };

    ghost byte_fits = { λ s offset. F.byte_fits s.file offset };

    ghost ends = { λ s offset past. F.ends s.file offset past };
}

impl<F: ImageFile> Device for FileStorage<F> {
    /// Syncs the file.
    fn sync(&mut self) -> Result<(), StorageFault>
        ensures { ChangesNoByte result (file_state F.content self.old) (file_state F.content self.new) }
    {
        count(self.file.sync_bytes(), &mut self.failures)
    }

    fn len(&mut self) -> Result<Option<u64>, StorageFault>
        ensures { TellsEnd result (file_state F.content self.old) (file_state F.content self.new) }
    {
        count(self.file.file_len(), &mut self.failures)
    }
}

// Converts the result of a call of the file, and counts a failure.
fn count<T>(outcome: io::Result<T>, failures: &mut u64) -> Result<T, StorageFault>
    ensures failures { MatchResult result
        (λ _. failures.new ≡ failures.old)
        (λ _. failures.new ≡ (failures.old + 1) % 2 ^ 64) }
    ensures same { MatchResult result (λ value. outcome ≡ Ok value) (λ _. IsErr outcome) }
{
    match outcome {
        Ok(value) => Ok(value),
        Err(_) => {
            *failures = failures.wrapping_add(1);
            Err(StorageFault)
        }
    }
}

// Fills the buffer with the bytes from `offset` on, and with zeros past the end. Fails if the file returns no
// more bytes before its end.
fn read_all<F: ImageFile>(file: &mut F, buf: &mut [u8], offset: u64) -> io::Result<()>
    requires { offset + length buf.old ≤ max_file_length }
    ensures bytes { OnOk result (OnFile (F.content file.old)
        (Holds (F.content file.old).byte_at offset buf.new)) }
    ensures unchanged { F.content file.new ≡ F.content file.old }
{
    let count = read_up_to_end(file, buf, offset)?;
    let (_, past) = buf.split_at_mut(count);
    if !past.is_empty() {
        refuse_longer(file, offset + count as u64)?;
    }
    past.fill(0);
    Ok(())
}

// Fails if the file is longer than `len` bytes.
fn refuse_longer<F: ImageFile>(file: &mut F, len: u64) -> io::Result<()>
    ensures { F.content file.new ≡ F.content file.old }
{
    match file.file_len()? {
        Some(end) if end > len => Err(ErrorKind::UnexpectedEof.into()),
        _ => Ok(()),
    }
}

// Reads until the buffer is full or the file returns no more bytes, and returns how many it read.
fn read_up_to_end<F: ImageFile>(file: &mut F, buf: &mut [u8], offset: u64) -> io::Result<usize>
    requires { offset + length buf.old ≤ max_file_length }
    ensures count { IfOk result (λ count. count ≤ length buf.new) }
    ensures bytes { IfOk result (λ count. OnFile (F.content file.old)
        (Holds (F.content file.old).byte_at offset (take count buf.new))) }
    ensures end { IfOk result (λ count. count < length buf.new → OnFile (F.content file.old)
        ((F.content file.old).len ≤ offset + count)) }
    ensures unchanged { F.content file.new ≡ F.content file.old }
{
    let mut count = 0;
    for _ in 0..u64::MAX {
        if count >= buf.len() {
            return Ok(count);
        }
        match file.read_at(&mut buf[count..], offset + count as u64) {
            Ok(0) => return Ok(count),
            Ok(more) => count += more,
            Err(error) => {
                if error.kind() != ErrorKind::Interrupted {
                    return Err(error);
                }
            }
        }
    }
    Err(ErrorKind::Interrupted.into())
}

// Replaces the bytes from `offset` on by the buffer's. An empty buffer leaves the file unchanged.
fn write_all<F: ImageFile>(file: &mut F, buf: &[u8], offset: u64) -> io::Result<()>
    requires { offset + length buf.now ≤ max_file_length }
    ensures written { OnOk result (OnFile (F.content file.old)
        (Holds (F.content file.new).byte_at offset buf.now)) }
    ensures others { OnFile (F.content file.old) (SameOutside offset (length buf.now)
        (F.content file.old).byte_at (F.content file.new).byte_at) }
    ensures tells { (F.content file.new).tells ≡ (F.content file.old).tells }
    ensures empty { length buf.now ≡ 0 → IsOk result × (file.new ≡ file.old) }
{
    if buf.is_empty() {
        return Ok(());
    }
    let mut count = 0;
    for _ in 0..u64::MAX {
        if count >= buf.len() {
            return Ok(());
        }
        match file.write_at(&buf[count..], offset + count as u64) {
            Ok(0) => return Err(ErrorKind::WriteZero.into()),
            Ok(more) => count += more,
            Err(error) => {
                if error.kind() != ErrorKind::Interrupted {
                    return Err(error);
                }
            }
        }
    }
    Err(ErrorKind::Interrupted.into())
}
