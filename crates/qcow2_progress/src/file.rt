//! A file whose reads move the progress line.

use super::progress::Progress;
use std::fs::{Metadata, OpenFile};
use std::io;
use std::io::{Read, Seek, SeekFrom, Write};
use std::time::Clock;

/// A file whose reads move the progress line. It passes all other calls on.
#[derive(Drop)]
pub struct WatchedFile<'a, F, C, E> {
    file: F,
    progress: &'a Progress<'a, C, E>,
    position: u64,
}

impl<'a, F, C, E> WatchedFile<'a, F, C, E> {
    /// Wraps an open file. Its first call must be a seek.
    pub fn new(file: F, progress: &'a Progress<'a, C, E>) -> WatchedFile<'a, F, C, E> {
        WatchedFile {
            file,
            progress,
            position: 0,
        }
    }
}

impl<F: Read, C: Clock, E: Write + Copy> Read for WatchedFile<'_, F, C, E> {
    fn read(&mut self, buf: &mut [u8]) -> io::Result<usize> {
        let count = self.file.read(buf)?;
        let end = self.position.saturating_add(count as u64);
        self.progress.has_read(self.position, end);
        self.position = end;
        Ok(count)
    }
}

impl<F: Write, C, E> Write for WatchedFile<'_, F, C, E> {
    fn write(&mut self, buf: &[u8]) -> io::Result<usize> {
        let count = self.file.write(buf)?;
        self.position = self.position.saturating_add(count as u64);
        Ok(count)
    }

    fn flush(&mut self) -> io::Result<()> {
        self.file.flush()
    }
}

impl<F: Seek, C, E> Seek for WatchedFile<'_, F, C, E> {
    fn seek(&mut self, to: SeekFrom) -> io::Result<u64> {
        let position = self.file.seek(to)?;
        self.position = position;
        Ok(position)
    }
}

impl<F: OpenFile, C, E> OpenFile for WatchedFile<'_, F, C, E> {
    fn metadata(&self) -> io::Result<Metadata> {
        self.file.metadata()
    }

    fn set_len(&self, size: u64) -> io::Result<()> {
        self.file.set_len(size)
    }

    fn sync_all(&self) -> io::Result<()> {
        self.file.sync_all()
    }

    fn sync_data(&self) -> io::Result<()> {
        self.file.sync_data()
    }
}
