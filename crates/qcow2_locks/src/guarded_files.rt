//! Files that refuse writes once another program has opened the image.

ghost use Rattle.qcow2_base.specs.Storage.ImageFile.{unknown_content};
ghost use Rattle.qcow2_base.specs.Storage.ImageFiles.{ClosesImage, unknown_file};

use crate::HeldImage;
use qcow2_base::{Fault, FileStorage, ImageFiles};
use std::alloc::{Alloc, Allocator};
use std::cell::Cell;
use std::fs::{Metadata, OpenFile, OpenOptions};
use std::io;
use std::io::{ErrorKind, Read, Seek, SeekFrom, Write};
use std::rt::Files;

/// The files of a run, whose image is open already and may be held. Reads the system's list of locks before
/// the first write to a held image, before the first write after each sync, and after each sync. A write or
/// sync fails if another program has the image open by then.
#[derive(Drop)]
pub struct GuardedFiles<'a, R, F> {
    rt: &'a R,
    image: Option<F>,
    held: Option<&'a HeldImage>,
}

impl<'a, R, F> GuardedFiles<'a, R, F> {
    /// Returns the files of a run. The first `open_image` takes this file; later ones fail. The runtime opens
    /// all other files, and reads the list of locks.
    pub fn new(rt: &'a R, image: Option<F>, held: Option<&'a HeldImage>) -> GuardedFiles<'a, R, F> {
        GuardedFiles { rt, image, held }
    }
}

/// A file that accepts writes only as long as no other program has opened the image.
#[derive(Drop)]
pub struct GuardedFile<'a, R, F> {
    file: F,
    rt: &'a R,
    held: Option<&'a HeldImage>,
    // whether the list was read since the last sync
    may_write: Cell<bool>,
}

impl<R: Files, F> GuardedFile<'_, R, F> {
    // Fails if another program has opened the image.
    fn refuse_others(&self) -> io::Result<()> {
        let Some(held) = self.held else {
            return Ok(());
        };
        match held.refuse_others(self.rt) {
            Ok(()) => Ok(()),
            Err(Fault::InUse) => Err(ErrorKind::ResourceBusy.into()),
            Err(_) => Err(ErrorKind::Other.into()),
        }
    }

    // Calls `refuse_others` before a write, unless it was called since the last sync.
    fn begin_change(&self) -> io::Result<()> {
        if !self.may_write.get() {
            self.refuse_others()?;
            self.may_write.set(true);
        }
        Ok(())
    }

    // Calls `refuse_others` after a sync, and lets the next write call it again.
    fn end_changes(&self) -> io::Result<()> {
        self.may_write.set(false);
        self.refuse_others()
    }
}

impl<R, F: Read> Read for GuardedFile<'_, R, F> {
    fn read(&mut self, buf: &mut [u8]) -> io::Result<usize> {
        self.file.read(buf)
    }
}

impl<R: Files, F: Write> Write for GuardedFile<'_, R, F> {
    fn write(&mut self, buf: &[u8]) -> io::Result<usize> {
        self.begin_change()?;
        self.file.write(buf)
    }

    fn flush(&mut self) -> io::Result<()> {
        self.file.flush()
    }
}

impl<R, F: Seek> Seek for GuardedFile<'_, R, F> {
    fn seek(&mut self, to: SeekFrom) -> io::Result<u64> {
        self.file.seek(to)
    }
}

impl<R: Files, F: OpenFile> OpenFile for GuardedFile<'_, R, F> {
    fn metadata(&self) -> io::Result<Metadata> {
        self.file.metadata()
    }

    fn set_len(&self, size: u64) -> io::Result<()> {
        self.begin_change()?;
        self.file.set_len(size)
    }

    fn sync_all(&self) -> io::Result<()> {
        self.file.sync_all()?;
        self.end_changes()
    }

    fn sync_data(&self) -> io::Result<()> {
        self.file.sync_data()?;
        self.end_changes()
    }
}

impl<R: Alloc, F> Alloc for GuardedFiles<'_, R, F> {
    type A = R::A;

    fn alloc(&self) -> R::A {
        self.rt.alloc()
    }
}

impl<R: Files, F> Files for GuardedFiles<'_, R, F> {
    type File = R::File;

    type Dir = R::Dir;

    fn open_file(&self, how: &OpenOptions, path: &str) -> io::Result<R::File> {
        self.rt.open_file(how, path)
    }

    fn open_dir(&self, path: &str) -> io::Result<R::Dir> {
        self.rt.open_dir(path)
    }

    fn metadata(&self, path: &str) -> io::Result<Metadata> {
        self.rt.metadata(path)
    }

    fn symlink_metadata(&self, path: &str) -> io::Result<Metadata> {
        self.rt.symlink_metadata(path)
    }

    fn copy(&self, from: &str, to: &str) -> io::Result<u64> {
        self.rt.copy(from, to)
    }

    fn rename(&self, from: &str, to: &str) -> io::Result<()> {
        self.rt.rename(from, to)
    }

    fn remove_file(&self, path: &str) -> io::Result<()> {
        self.rt.remove_file(path)
    }

    fn create_dir(&self, path: &str) -> io::Result<()> {
        self.rt.create_dir(path)
    }

    fn remove_dir(&self, path: &str) -> io::Result<()> {
        self.rt.remove_dir(path)
    }

    fn remove_dir_all<B: Allocator>(&self, alloc: B, path: &str) -> io::Result<()> {
        self.rt.remove_dir_all(alloc, path)
    }
}

impl<'a, R: Files, F: Read + Write + Seek + OpenFile + Drop> ImageFiles for GuardedFiles<'a, R, F> {
    type Image = GuardedFile<'a, R, F>;

    ghost file_at = { λ _ _. unknown_file };

    fn open_image(
        &mut self,
        path: &str,
        writable: bool,
    ) -> Result<FileStorage<Self::Image>, Fault> {
        let _ = path;
        let _ = writable;
        let Some(file) = self.image.take() else {
            return Err(Fault::Storage);
        };
        Ok(FileStorage::new(GuardedFile {
            file,
            rt: self.rt,
            held: self.held,
            may_write: Cell::new(false),
        }))
    }

    fn close_image(&mut self, path: &str, image: FileStorage<Self::Image>)
        ensures { ClosesImage (λ _. unknown_content) image.entry path.now
            (λ _. unknown_file) (λ _. unknown_file) }
    {
        let _ = path;
        drop(image);
    }

    fn is_in_use(&self, path: &str) -> bool {
        let _ = path;
        self.held.is_some_and(|held| held.has_come())
    }
}
