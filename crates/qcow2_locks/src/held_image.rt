//! An image that this program holds while it changes it.

ghost use Rattle.std.specs.Prelude.{◌≡◌, IfErr};
ghost use Rattle.qcow2_locks.specs.HeldImage.{IsHoldFault};

use crate::lock_list::{is_barred, own_locks};
use crate::{FileId, FileLock};
use qcow2_base::Fault;
use std::cell::Cell;
use std::fs::{File, OpenOptions, TryLockError};
use std::io;
use std::os::fd::AsRawFd;
use std::rt::Files;

/// Whether to change an image if the system's list of locks can't show who has it open.
#[derive(Clone, Copy, Debug, PartialEq, Eq)]
pub enum Unlisted {
    /// Refuse with fault 39: another program may have it open.
    Refuse,
    /// Change it, whoever else has it open.
    Allow,
}

/// An image that this program holds until this value is dropped or the program ends.
#[derive(Debug, Drop)]
pub struct HeldImage {
    file: File,
    // The file as the system's list of locks names it, or `None` if the list doesn't show it.
    id: Option<FileId>,
    unlisted: Unlisted,
    has_come: Cell<bool>,
}

impl HeldImage {
    /// Refuses with fault 39 if another program has the image open as QEMU's programs do, or had it at an
    /// earlier call. Reads the system's list of locks, and allocates nothing. Refuses with fault 34 if a
    /// system call fails.
    pub fn refuse_others<R: Files>(&self, rt: &R) -> Result<(), Fault>
        ensures faults { IfErr result IsHoldFault }
    {
        if !self.has_come.get() {
            self.has_come.set(self.is_barred(rt)?);
        }
        if self.has_come.get() {
            return Err(Fault::InUse);
        }
        Ok(())
    }

    /// Returns another handle of the open image file. All handles share one position.
    pub fn share_file(&self) -> Result<File, Fault>
        ensures faults { IfErr result IsHoldFault }
    {
        self.file.try_clone().map_err(|_| Fault::Storage)
    }

    /// Whether `refuse_others` has seen another program with the image open.
    pub fn has_come(&self) -> bool {
        self.has_come.get()
    }

    // Whether the system's list forbids a change of the image.
    fn is_barred<R: Files>(&self, rt: &R) -> Result<bool, Fault>
        ensures faults { IfErr result IsHoldFault }
    {
        let Some(id) = &self.id else {
            return Ok(false);
        };
        let found = is_barred(rt, id)?;
        Ok(found.unwrap_or(self.unlisted == Unlisted::Refuse))
    }
}

/// Opens the image of a path for changes, and holds it alone. Reads and writes none of its bytes.
///
/// Refuses with fault 39 if another process holds it, or has it open as QEMU's programs do: to write, or to
/// read and let nobody write. Unless `unlisted` allows it, also refuses if the system's list of locks can't
/// be read, or doesn't have this program's own lock. Refuses with fault 34 if the file can't be opened for
/// reading and writing, or a system call fails. Continues if the file system has no such locks.
///
/// This keeps away only programs that make this call too. `HeldImage::refuse_others` sees the others that
/// open the image later.
pub fn hold_alone<R: Files<File = File> + AllocGlobal>(
    rt: &R,
    path: &str,
    unlisted: Unlisted,
) -> Result<HeldImage, Fault>
    ensures faults { IfErr result IsHoldFault }
{
    let Ok(file) = OpenOptions::new().read(true).write(true).open(rt, path) else {
        return Err(Fault::Storage);
    };
    let id = match file.try_lock() {
        Ok(()) => listed_file(rt, &file, unlisted)?,
        Err(TryLockError::WouldBlock) => return Err(Fault::InUse),
        Err(TryLockError::Error(error)) => {
            refuse_failed(&error)?;
            None
        }
    };
    let has_come = Cell::new(false);
    let held = HeldImage {
        file,
        id,
        unlisted,
        has_come,
    };
    held.refuse_others(rt)?;
    Ok(held)
}

// Continues only if the system's error says that the file can't be locked: EINVAL, ENOLCK, ENOSYS or
// EOPNOTSUPP.
fn refuse_failed(error: &io::Error) -> Result<(), Fault>
    ensures faults { IfErr result IsHoldFault }
{
    match error.raw_os_error() {
        Some(22 | 37 | 38 | 95) => Ok(()),
        _ => Err(Fault::Storage),
    }
}

// Returns a file that this program has locked, as the system's list of locks names it. A list without this
// lock doesn't have other locks of the file either.
fn listed_file<R: Files + AllocGlobal>(
    rt: &R,
    file: &File,
    unlisted: Unlisted,
) -> Result<Option<FileId>, Fault>
    ensures faults { IfErr result IsHoldFault }
{
    let own_locks = own_locks(rt, file.as_raw_fd())?;
    let id = own_locks.and_then(|locks| locked_file(locks.as_str()));
    if id.is_none() && unlisted == Unlisted::Refuse {
        return Err(Fault::InUse);
    }
    Ok(id)
}

// Returns the file of the first lock that is listed for a descriptor.
fn locked_file(descriptor: &str) -> Option<FileId> {
    let line = descriptor
        .lines()
        .find_map(|line| line.strip_prefix("lock:"))?;
    Some(FileLock::parse(line)?.file)
}
