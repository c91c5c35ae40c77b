//! Image files: reads and writes at an offset.

ghost use Rattle.std.specs.Prelude.{◌≡◌, ℕ, ◌^◌, ◌<◌, ◌≤◌, IsTrue, refl};
ghost use Rattle.std.proofs.Common.{rules};
ghost use Rattle.qcow2_base.specs.Storage.ImageFile.{FileContent, ReadsSome, TellsLength, WritesSome, unknown_content};

use std::fs::OpenFile;
use std::io;
use std::io::{ErrorKind, Read, Seek, SeekFrom, Write};

/// A file that holds an image, with reads and writes at an offset.
///
/// The implementor says what proofs know of the file. Of a file in memory they know the bytes; of a file of
/// the system they know nothing, since its content is outside any proof. A proof over files with known bytes
/// also holds for a file of the system that behaves as this trait says: it is a list of bytes, which reads
/// return and writes replace, and nobody else writes to it.
pub trait ImageFile {
    /// The file's content, as far as proofs know it.
    ghost content: { Self → FileContent };

    /// Fills the front of the buffer with the bytes from `offset` on, and returns how many it filled: 0 only
    /// past the file's end or for an empty buffer. It may fill fewer than the file has. A failure leaves the
    /// buffer undefined.
    fn read_at(&mut self, buf: &mut [u8], offset: u64) -> io::Result<usize>
        ensures { ReadsSome result offset buf.new (content self.old) (content self.new) };

    /// Replaces the bytes from `offset` on by the first bytes of the buffer, and returns how many it wrote.
    /// No other byte changes. A write past the end lengthens the file, with zeros between. A failure may
    /// leave any bytes in the range of the whole buffer, and any length.
    fn write_at(&mut self, buf: &[u8], offset: u64) -> io::Result<usize>
        ensures { WritesSome result offset buf.now (content self.old) (content self.new) };

    /// Returns the length of the file in bytes, or `None` if it has no known end, as a pipe. Changes no byte,
    /// even if it fails.
    fn file_len(&mut self) -> io::Result<Option<u64>>
        ensures { TellsLength result (content self.old) (content self.new) };

    /// Waits until all earlier writes are on the device. Changes no byte, even if it fails.
    fn sync_bytes(&mut self) -> io::Result<()>
        ensures { content self.new ≡ content self.old };

    ghost byte_fits: { (file : Self) (offset : ℕ) → (content file).byte_at offset < 2 ^ 8 };

    ghost ends: { (file : Self) (offset : ℕ) → (content file).len ≤ offset →
        (content file).byte_at offset ≡ 0 };
}

/// Any file that reads and writes at its position. Proofs know nothing of it.
impl<F: Read + Write + Seek + OpenFile> ImageFile for F {
    ghost content = { λ _. unknown_content };

    /// A file system may refuse to seek to an offset past the end; the call then returns 0.
    fn read_at(&mut self, buf: &mut [u8], offset: u64) -> io::Result<usize> {
        match self.seek(SeekFrom::Start(offset)) {
            Ok(_) => self.read(buf),
            Err(error) => {
                if self.seek(SeekFrom::End(0))? > offset {
                    return Err(error);
                }
                Ok(0)
            }
        }
    }

    fn write_at(&mut self, buf: &[u8], offset: u64) -> io::Result<usize> {
        self.seek(SeekFrom::Start(offset))?;
        let count = self.write(buf)?;
        self.flush()?;
        Ok(count)
    }

    /// Seeks to the end, so that a block device has a length too. A file that can't seek, as a pipe, has
    /// none.
    fn file_len(&mut self) -> io::Result<Option<u64>> {
        match self.seek(SeekFrom::End(0)) {
            Ok(len) => Ok(Some(len)),
            Err(error) if error.kind() == ErrorKind::NotSeekable => Ok(None),
            Err(error) => Err(error),
        }
    }

    /// Syncs the file's data. A file system may hold back its metadata, such as times.
    fn sync_bytes(&mut self) -> io::Result<()> {
        self.sync_data()
    }

    ghost byte_fits = { λ _ _. Prim.search rules };

    ghost ends = { λ _ _ _. refl };
}
