//! The programs that have an image open, by the system's list of locks.

use qcow2_base::Fault;
use qcow2_locks::{FileId, FileLock, LockKind, listed_locks};
use std::alloc::{AllocError, Global};
use std::fs;
use std::io::ErrorKind;
use std::rt::Files;

/// The lines on the locks that keep a file from being changed, as the system lists them, or on a list that
/// can't be read.
pub(super) fn lock_lines<R: Files + AllocGlobal>(rt: &R, path: &str) -> Result<String, Fault> {
    match fs::metadata(rt, path) {
        Ok(metadata) => listed_lines(rt, &FileId::of(&metadata), path),
        Err(error) if error.kind() == ErrorKind::OutOfMemory => Err(Fault::NoMemory),
        Err(error) => Ok(format!(in rt.alloc(); "in {path}: {error}\n")?),
    }
}

// The lines on the listed locks of a file.
fn listed_lines<R: Files + AllocGlobal>(
    rt: &R,
    file: &FileId,
    path: &str,
) -> Result<String, Fault> {
    let Some(list) = listed_locks(rt)? else {
        return Ok(unreadable_lines(rt.alloc(), path)?);
    };
    let mut lines = String::new(rt.alloc());
    for line in list.lines() {
        if bars_change(line, file) {
            writeln!(
                lines,
                "in {path}: in use by another program, by lock {line}"
            )?;
        }
    }
    if lines.is_empty() {
        writeln!(lines, "in {path}: no lock of another program is listed")?;
    }
    Ok(lines)
}

// The lines on a list of locks that can't be read.
fn unreadable_lines(alloc: Global, path: &str) -> Result<String, AllocError> {
    format!(in alloc;
        "in {path}: the system's list of locks can't be read: /proc/locks, /proc/self/fdinfo\n\
        in {path}: QMETA_NO_LOCK_LIST=allow changes the image without it\n"
    )
}

// Whether a line of the list is a lock that keeps a file from being changed.
fn bars_change(line: &str, file: &FileId) -> bool {
    match FileLock::parse(line) {
        Some(lock) => lock.bars_writing(file) || lock.kind == LockKind::Whole && lock.file == *file,
        None => false,
    }
}
