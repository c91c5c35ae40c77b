//! A file system whose lists of locks a test chooses.

use qcow2_testing::{TemporaryFile, temporary_file};
use std::alloc::{Alloc, Allocator, Global};
use std::cell::Cell;
use std::fs::{File, Metadata, OpenOptions};
use std::io::ErrorKind;
use std::rt::Files;
use std::test::Fail;
use std::{fs, io};

/// Opens files as the system does, except the lists of locks: each has a text of its own, or is missing.
#[derive(Drop)]
pub(super) struct Listing<'a> {
    rt: &'a HostRuntime,
    // the place of a list while it is read
    place: TemporaryFile<'a, HostRuntime>,
    own: Option<&'a str>,
    all: Cell<Option<&'a str>>,
}

impl<'a> Listing<'a> {
    /// Makes a system with the list `own` for each descriptor, and the list `all` of all locks.
    pub(super) fn new(
        rt: &'a HostRuntime,
        own: Option<&'a str>,
        all: Option<&'a str>,
    ) -> Result<Listing<'a>, Fail> {
        let place = temporary_file(rt, "list", &[])?;
        let all = Cell::new(all);
        Ok(Listing {
            rt,
            place,
            own,
            all,
        })
    }

    /// Replaces the list of all locks.
    pub(super) fn list(&self, all: Option<&'a str>) {
        self.all.set(all);
    }

    // Opens a list with this text.
    fn open_list(&self, how: &OpenOptions, text: Option<&str>) -> io::Result<File> {
        let Some(text) = text else {
            return Err(ErrorKind::NotFound.into());
        };
        fs::write(self.rt, self.place.path.as_str(), text)?;
        self.rt.open_file(how, self.place.path.as_str())
    }
}

impl Alloc for Listing<'_> {
    type A = Global;

    fn alloc(&self) -> Global {
        self.rt.alloc()
    }
}

impl Files for Listing<'_> {
    type File = File;

    type Dir = <HostRuntime as Files>::Dir;

    fn open_file(&self, how: &OpenOptions, path: &str) -> io::Result<File> {
        if path == "/proc/locks" {
            return self.open_list(how, self.all.get());
        }
        if path.starts_with("/proc/self/fdinfo/") {
            return self.open_list(how, self.own);
        }
        self.rt.open_file(how, path)
    }

    fn open_dir(&self, path: &str) -> io::Result<Self::Dir> {
        self.rt.open_dir(path)
    }

    fn metadata(&self, path: &str) -> io::Result<Metadata> {
        self.rt.metadata(path)
    }

    fn symlink_metadata(&self, path: &str) -> io::Result<Metadata> {
        self.rt.symlink_metadata(path)
    }

    fn copy(&self, from: &str, to: &str) -> io::Result<u64> {
        self.rt.copy(from, to)
    }

    fn rename(&self, from: &str, to: &str) -> io::Result<()> {
        self.rt.rename(from, to)
    }

    fn remove_file(&self, path: &str) -> io::Result<()> {
        self.rt.remove_file(path)
    }

    fn create_dir(&self, path: &str) -> io::Result<()> {
        self.rt.create_dir(path)
    }

    fn remove_dir(&self, path: &str) -> io::Result<()> {
        self.rt.remove_dir(path)
    }

    fn remove_dir_all<B: Allocator>(&self, alloc: B, path: &str) -> io::Result<()> {
        self.rt.remove_dir_all(alloc, path)
    }
}
