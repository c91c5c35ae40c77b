//! A system whose only files are images in memory, with known bytes.

ghost use Rattle.qcow2_base.specs.Storage.ImageFiles.{ClosesImage};
ghost use Rattle.qcow2_testing.specs.KnownFiles.{known_content, known_file_at};

use qcow2_base::{Fault, FileStorage, ImageFiles};
use qcow2_testing::{KnownFile, KnownFiles};
use std::alloc::{Alloc, Allocator, Global};
use std::fs::{File, Metadata, OpenOptions};
use std::io;
use std::io::{Empty, ErrorKind};
use std::rt::Files;

/// Opens images by their paths, and refuses all other operations on files.
#[derive(Drop)]
pub(crate) struct KnownHost {
    alloc: Global,
    pub(crate) images: KnownFiles,
}

impl KnownHost {
    /// Returns a system whose images have these bytes, read and written `step` at a time.
    pub(crate) fn new(alloc: Global, bytes: Vec<u8>, step: usize) -> KnownHost {
        KnownHost {
            alloc,
            images: KnownFiles::new(alloc, bytes, step),
        }
    }
}

impl Alloc for KnownHost {
    type A = Global;

    fn alloc(&self) -> Global {
        self.alloc
    }
}

impl ImageFiles for KnownHost {
    type Image = KnownFile;

    ghost file_at = { λ host path. known_file_at host.images path };

    fn open_image(&mut self, path: &str, writable: bool) -> Result<FileStorage<KnownFile>, Fault> {
        self.images.open_image(path, writable)
    }

    fn close_image(&mut self, path: &str, image: FileStorage<KnownFile>)
        ensures { ClosesImage known_content image path.now
            (known_file_at self.old.images) (known_file_at self.new.images) }
    {
        self.images.close_image(path, image)
    }
}

// Fails an operation that needs another file.
fn no_other<T>() -> io::Result<T> {
    Err(ErrorKind::Unsupported.into())
}

impl Files for KnownHost {
    type File = File;

    type Dir = Empty;

    fn open_file(&self, _how: &OpenOptions, _path: &str) -> io::Result<File> {
        no_other()
    }

    fn open_dir(&self, _path: &str) -> io::Result<Empty> {
        no_other()
    }

    fn metadata(&self, _path: &str) -> io::Result<Metadata> {
        no_other()
    }

    fn symlink_metadata(&self, _path: &str) -> io::Result<Metadata> {
        no_other()
    }

    fn copy(&self, _from: &str, _to: &str) -> io::Result<u64> {
        no_other()
    }

    fn rename(&self, _from: &str, _to: &str) -> io::Result<()> {
        no_other()
    }

    fn remove_file(&self, _path: &str) -> io::Result<()> {
        no_other()
    }

    fn create_dir(&self, _path: &str) -> io::Result<()> {
        no_other()
    }

    fn remove_dir(&self, _path: &str) -> io::Result<()> {
        no_other()
    }

    fn remove_dir_all<B: Allocator>(&self, _alloc: B, _path: &str) -> io::Result<()> {
        no_other()
    }
}
