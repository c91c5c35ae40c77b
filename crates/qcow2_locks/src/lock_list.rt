//! The system's list of locks.

ghost use Rattle.std.specs.Prelude.{◌≤◌, IfErr, IfOk, length};
ghost use Rattle.qcow2_locks.specs.HeldImage.{IsHoldFault};

use crate::{FileId, FileLock, LockKind};
use qcow2_base::Fault;
use std::alloc::Global;
use std::fs::File;
use std::io;
use std::io::{BufReader, Error, ErrorKind, Read};
use std::rt::Files;
use std::str::from_utf8;

const LIST: &str = "/proc/locks";

// The size of the read buffer, in bytes; every line of the list is shorter.
const MOST_READ: usize = 4096;

// The finding of a list about a file that this program has locked. The greatest finding counts.
#[derive(Clone, Copy, Debug, PartialEq, Eq, PartialOrd, Ord)]
enum Found {
    /// The list doesn't have the file.
    Nothing,
    /// The list has this program's lock on the whole file.
    Whole,
    /// The list has a lock that forbids writes.
    Bar,
}

impl Found {
    // Returns the finding of one lock about a file.
    fn of(lock: &FileLock, file: &FileId) -> Found {
        if lock.bars_writing(file) {
            Found::Bar
        } else if lock.kind == LockKind::Whole && lock.file == *file {
            Found::Whole
        } else {
            Found::Nothing
        }
    }
}

/// Returns the system's list of locks, with lines that `FileLock::parse` reads. Returns `None` if the system
/// has no list or none that this program may read, or doesn't tell which locks this program has. Refuses with
/// fault 34 if a system call fails.
pub fn listed_locks<R: Files + AllocGlobal>(rt: &R) -> Result<Option<String>, Fault>
    ensures faults { IfErr result IsHoldFault }
{
    match own_locks(rt, 0)? {
        Some(_) => text_of(rt, LIST),
        None => Ok(None),
    }
}

/// Returns the locks of a descriptor of this program: lines of the list, each after `lock:`, among other
/// lines. Returns `None` if the system doesn't tell.
pub(crate) fn own_locks<R: Files + AllocGlobal>(
    rt: &R,
    descriptor: i32,
) -> Result<Option<String>, Fault>
    ensures faults { IfErr result IsHoldFault }
{
    let path = format!(in rt.alloc(); "/proc/self/fdinfo/{descriptor}")?;
    text_of(rt, path.as_str())
}

// Returns the text of a system file, or `None` if it doesn't exist or this program may not read it.
fn text_of<R: Files + AllocGlobal>(rt: &R, path: &str) -> Result<Option<String>, Fault>
    ensures faults { IfErr result IsHoldFault }
{
    let read = match File::open(rt, path) {
        Ok(file) => read_all(rt.alloc(), file),
        Err(error) => Err(error),
    };
    match read {
        Ok(text) => Ok(Some(text)),
        Err(error) if is_unreadable(&error) => Ok(None),
        Err(error) if error.kind() == ErrorKind::OutOfMemory => Err(Fault::NoMemory),
        Err(_) => Err(Fault::Storage),
    }
}

// Returns the text of a file. Reads more than a page at once, since a list can change between two reads.
fn read_all<F: Read + Drop>(alloc: Global, file: F) -> io::Result<String> {
    io::read_to_string(alloc, BufReader::new(alloc, file)?)
}

/// Whether a listed lock forbids writes to a file that this program has locked. Returns `None` if the list
/// can't be read, or doesn't have this program's lock. Allocates nothing, so that a change in progress can't
/// fail for lack of memory.
pub(crate) fn is_barred<R: Files>(rt: &R, file: &FileId) -> Result<Option<bool>, Fault>
    ensures faults { IfErr result IsHoldFault }
{
    let found = match File::open(rt, LIST) {
        Ok(mut list) => find_locks(&mut list, file),
        Err(error) => Err(error),
    };
    match found {
        Ok(Found::Nothing) => Ok(None),
        Ok(found) => Ok(Some(found == Found::Bar)),
        Err(error) if is_unreadable(&error) => Ok(None),
        Err(_) => Err(Fault::Storage),
    }
}

// Whether the error says that a system file doesn't exist, or that this program may not read it.
fn is_unreadable(error: &Error) -> bool {
    matches!(
        error.kind(),
        ErrorKind::NotFound | ErrorKind::PermissionDenied
    )
}

// Returns the finding of all listed locks about a file. A line that a read cuts waits for the next read.
fn find_locks<F: Read>(list: &mut F, file: &FileId) -> io::Result<Found> {
    let mut text = [0; MOST_READ];
    let mut kept = 0;
    let mut found = Found::Nothing;
    for _ in 0..u64::MAX {
        let end = kept + read_some(list, &mut text[kept..])?;
        if end == kept {
            return Ok(found.max(found_in(&text[..kept], file)?));
        }
        let lines = whole_lines(&text[..end]);
        found = found.max(found_in(&text[..lines], file)?);
        text.copy_within(lines..end, 0);
        kept = end - lines;
    }
    Err(ErrorKind::Interrupted.into())
}

// Reads some bytes, or none at the end. Fails if the buffer is empty.
fn read_some<F: Read>(list: &mut F, buf: &mut [u8]) -> io::Result<usize>
    ensures { IfOk result (λ count. count ≤ length buf.old) }
{
    if buf.is_empty() {
        return Err(ErrorKind::InvalidData.into());
    }
    match list.read(buf) {
        Ok(count) => Ok(count.min(buf.len())),
        Err(error) => Err(error),
    }
}

// Returns the length of the text's whole lines, in bytes.
fn whole_lines(text: &[u8]) -> usize
    ensures { result ≤ length text.now }
{
    match text.iter().rposition(|byte| *byte == b'\n') {
        Some(last) => last + 1,
        None => 0,
    }
}

// Returns the finding of these lines about a file.
fn found_in(lines: &[u8], file: &FileId) -> io::Result<Found> {
    let Ok(lines) = from_utf8(lines) else {
        return Err(ErrorKind::InvalidData.into());
    };
    let mut found = Found::Nothing;
    for lock in lines.lines().filter_map(FileLock::parse) {
        found = found.max(Found::of(&lock, file));
    }
    Ok(found)
}
