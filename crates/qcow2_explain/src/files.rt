//! Files that can't be opened as an image, with the system's error message.

use qcow2_base::Fault;
use std::fs::{OpenFile, OpenOptions};
use std::io::{Error, ErrorKind};
use std::os::unix::fs::FileTypeExt;
use std::rt::Files;
use std::{fs, io};

/// The line that says how a file can be opened, or the system's error message if it can't.
pub(super) fn file_line<R: Files + AllocGlobal>(rt: &R, path: &str) -> Result<String, Fault> {
    let alloc = rt.alloc();
    if let Err(error) = try_open(rt, path, false) {
        return Ok(format!(in alloc; "in {path}: {error}\n")?);
    }
    Ok(match try_open(rt, path, true) {
        Ok(()) => format!(in alloc; "in {path}: the file can be opened, and written to\n")?,
        Err(error) => format!(in alloc; "in {path}: the file can't be written to: {error}\n")?,
    })
}

/// The lines on a file that can't be opened for reading, or with `writable` for reading and writing: fault 34
/// comes first. `None` if it can be opened.
pub(super) fn unopened_lines<R: Files + AllocGlobal>(
    rt: &R,
    path: &str,
    writable: bool,
) -> Result<Option<String>, Fault> {
    Ok(match try_open(rt, path, writable) {
        Ok(()) => None,
        Err(error) => Some(format!(in rt.alloc();
            "in {path}: another fault comes first, 34\nin {path}: {error}\n"
        )?),
    })
}

// Opens a file for reading, or with `writable` for both, and closes it. Reads and writes nothing. Refuses a
// named pipe, since opening it would wait for a program at its other end, and also a socket and a directory.
fn try_open<R: Files>(rt: &R, path: &str, writable: bool) -> io::Result<()> {
    let file_type = fs::metadata(rt, path)?.file_type();
    if file_type.is_fifo() {
        return Err(Error::other("is a named pipe"));
    }
    if file_type.is_socket() {
        return Err(Error::other("is a socket"));
    }
    let mut options = OpenOptions::new();
    options.read(true).write(writable);
    let file = options.open(rt, path)?;
    if file.metadata()?.is_dir() {
        return Err(ErrorKind::IsADirectory.into());
    }
    Ok(())
}
