//! Files that pass their calls on to real ones. They record how they are opened, read and write a few bytes
//! at a time, and fail at a planned call.

ghost use Rattle.qcow2_base.specs.Storage.ImageFile.{unknown_content};
ghost use Rattle.qcow2_base.specs.Storage.ImageFiles.{ClosesImage, unknown_file};

use crate::failing::take_turn;
use qcow2_base::{Fault, FileStorage, ImageFiles};
use std::alloc::{Alloc, Allocator};
use std::cell::Cell;
use std::fs::{Metadata, OpenFile, OpenOptions};
use std::io;
use std::io::{Error, ErrorKind, Read, Seek, SeekFrom, Write};
use std::rt::Files;

/// The number of attempts to open a file: for reading only, and in any other way.
#[derive(Clone, Copy, Debug, PartialEq, Eq)]
pub struct Opens {
    pub reading: u64,
    pub other: u64,
}

/// Opens such files. A plan doesn't count opening a file; the call for its metadata is the first.
#[derive(Drop)]
pub struct FaultyFiles<'a, R> {
    files: &'a R,
    /// The number of calls before the one that fails, or `None` for no failure.
    pub plan: Option<u64>,
    /// The most bytes that one call reads or writes.
    pub step: usize,
    /// The offset where reads end, whatever the file's length.
    pub end: u64,
    /// Whether to refuse opening a file except for reading.
    pub read_only: bool,
    /// A name, and the path to open for it; other names aren't found. Without an alias each name is a path.
    pub alias: Option<(&'a str, &'a str)>,
    opens: Cell<Opens>,
    has_refused: Cell<bool>,
}

impl<'a, R> FaultyFiles<'a, R> {
    /// Passes each call on unchanged.
    pub fn new(files: &'a R) -> FaultyFiles<'a, R> {
        let opens = Opens {
            reading: 0,
            other: 0,
        };
        FaultyFiles {
            files,
            plan: None,
            step: usize::MAX,
            end: u64::MAX,
            read_only: false,
            alias: None,
            opens: Cell::new(opens),
            has_refused: Cell::new(false),
        }
    }

    /// Whether the last attempt to open a file failed.
    pub fn has_refused(&self) -> bool {
        self.has_refused.get()
    }

    /// The number of attempts to open a file so far.
    pub fn opens(&self) -> Opens {
        self.opens.get()
    }

    // The path to open for a name, if there is one.
    fn path_of<'p>(&'p self, name: &'p str) -> Option<&'p str> {
        match self.alias {
            None => Some(name),
            Some((known, path)) => (known == name).then_some(path),
        }
    }

    // Records an attempt to open a file, and returns whether to pass it on.
    fn admits(&self, how: &OpenOptions) -> bool {
        let changes = how.asks_write() || how.asks_append() || how.asks_truncate();
        let creates = how.asks_create() || how.asks_create_new();
        let mut opens = self.opens.get();
        if changes || creates {
            opens.other = opens.other.saturating_add(1);
        } else {
            opens.reading = opens.reading.saturating_add(1);
        }
        self.opens.set(opens);
        !self.read_only || !(changes || creates)
    }
}

/// A file that fails by the plan at the time when it was opened.
#[derive(Debug, Drop)]
pub struct FaultyFile<F> {
    file: F,
    plan: Cell<Option<u64>>,
    step: usize,
    end: u64,
}

impl<F> FaultyFile<F> {
    fn turn(&self) -> io::Result<()> {
        let mut plan = self.plan.get();
        let passes = take_turn(&mut plan);
        self.plan.set(plan);
        if !passes {
            return Err(Error::other("the call was planned to fail"));
        }
        Ok(())
    }
}

impl<F: Read + Seek> Read for FaultyFile<F> {
    fn read(&mut self, buf: &mut [u8]) -> io::Result<usize> {
        self.turn()?;
        let left = self.end.saturating_sub(self.file.stream_position()?);
        let count = (buf.len() as u64).min(left).min(self.step as u64) as usize;
        self.file.read(&mut buf[..count])
    }
}

impl<F: Write> Write for FaultyFile<F> {
    fn write(&mut self, buf: &[u8]) -> io::Result<usize> {
        self.turn()?;
        let count = buf.len().min(self.step);
        self.file.write(&buf[..count])
    }

    fn flush(&mut self) -> io::Result<()> {
        self.turn()?;
        self.file.flush()
    }
}

impl<F: Seek> Seek for FaultyFile<F> {
    fn seek(&mut self, to: SeekFrom) -> io::Result<u64> {
        self.turn()?;
        self.file.seek(to)
    }
}

impl<F: OpenFile> OpenFile for FaultyFile<F> {
    fn metadata(&self) -> io::Result<Metadata> {
        self.turn()?;
        self.file.metadata()
    }

    fn set_len(&self, size: u64) -> io::Result<()> {
        self.file.set_len(size)
    }

    fn sync_all(&self) -> io::Result<()> {
        self.file.sync_all()
    }

    fn sync_data(&self) -> io::Result<()> {
        self.turn()?;
        self.file.sync_data()
    }
}

impl<R: Alloc> Alloc for FaultyFiles<'_, R> {
    type A = R::A;

    fn alloc(&self) -> R::A {
        self.files.alloc()
    }
}

impl<R: Files> Files for FaultyFiles<'_, R> {
    type File = FaultyFile<R::File>;

    type Dir = R::Dir;

    fn open_file(&self, how: &OpenOptions, path: &str) -> io::Result<FaultyFile<R::File>> {
        self.has_refused.set(true);
        if !self.admits(how) {
            return Err(ErrorKind::PermissionDenied.into());
        }
        let Some(path) = self.path_of(path) else {
            return Err(ErrorKind::NotFound.into());
        };
        let file = self.files.open_file(how, path)?;
        self.has_refused.set(false);
        Ok(FaultyFile {
            file,
            plan: Cell::new(self.plan),
            step: self.step,
            end: self.end,
        })
    }

    fn open_dir(&self, path: &str) -> io::Result<R::Dir> {
        self.files.open_dir(path)
    }

    fn metadata(&self, path: &str) -> io::Result<Metadata> {
        self.files.metadata(path)
    }

    fn symlink_metadata(&self, path: &str) -> io::Result<Metadata> {
        self.files.symlink_metadata(path)
    }

    fn copy(&self, _from: &str, _to: &str) -> io::Result<u64> {
        Err(ErrorKind::Unsupported.into())
    }

    fn rename(&self, _from: &str, _to: &str) -> io::Result<()> {
        Err(ErrorKind::Unsupported.into())
    }

    fn remove_file(&self, _path: &str) -> io::Result<()> {
        Err(ErrorKind::Unsupported.into())
    }

    fn create_dir(&self, _path: &str) -> io::Result<()> {
        Err(ErrorKind::Unsupported.into())
    }

    fn remove_dir(&self, _path: &str) -> io::Result<()> {
        Err(ErrorKind::Unsupported.into())
    }

    fn remove_dir_all<B: Allocator>(&self, _alloc: B, _path: &str) -> io::Result<()> {
        Err(ErrorKind::Unsupported.into())
    }
}

impl<R: Files> ImageFiles for FaultyFiles<'_, R> {
    type Image = FaultyFile<R::File>;

    ghost file_at = { λ _ _. unknown_file };

    fn open_image(
        &mut self,
        path: &str,
        writable: bool,
    ) -> Result<FileStorage<Self::Image>, Fault> {
        FileStorage::open(self, path, writable)
    }

    fn close_image(&mut self, path: &str, image: FileStorage<Self::Image>)
        ensures { ClosesImage (λ _. unknown_content) image path.now (λ _. unknown_file) (λ _. unknown_file) }
    {
        let _ = path;
        drop(image);
    }
}
