//! `qmeta`: prints and edits the metadata of a qcow2 image.
#![tactic(auto)]

use qcow2_base::{Fault, FileStorage};
use qcow2_locks::{GuardedFiles, HeldImage, Unlisted, hold_alone};
use qcow2_progress::{Progress, WatchedFile, WatchedOutput, WatchedTable, l2_tables};
use qcow2_session::{Request, report_fault, run_request};
use std::env::VarError;
use std::fs::File;
use std::io::{BufWriter, ErrorKind, IsTerminal};
use std::os::unix::fs::FileTypeExt;
use std::process::ExitCode;
use std::rt::Files;
use std::{env, fs, io};

// The size of the output buffer in bytes. A long list is printed in as few calls as a pipe allows.
const OUTPUT_BUFFER: usize = 65536;

// The environment variable that, set to `allow`, permits changing an image whose locks no list shows.
const NO_LOCK_LIST: &str = "QMETA_NO_LOCK_LIST";

fn main(rt: HostRuntime) -> ExitCode {
    ExitCode::from(match run(&rt) {
        Ok(status) => status,
        Err(fault) => report_fault(fault, &mut rt.stderr()),
    })
}

// Runs the command line, and returns the status. If the standard descriptors can't be taken, opens no image
// and returns the storage fault. Opens the image once, and holds one that the command changes until the
// end.
fn run(rt: &HostRuntime) -> Result<u8, Fault> {
    let Ok(_taken) = take_standard_descriptors(rt) else {
        return Err(Fault::Storage);
    };
    let words = words_of(rt)?;
    let request = Request::parse(rt.alloc(), words.as_slice())?;
    let held = hold_image(rt, &request)?;
    let mut image = open_image(rt, &request, held.as_ref())?;
    let tables = watched_tables(rt, &request, image.as_mut());
    run_watched(rt, &request, image, tables.as_slice(), held.as_ref())
}

// Runs a request over an open image, and reports progress with these tables of it at a terminal. Writes to
// a held image only while no other program has opened it.
fn run_watched(
    rt: &HostRuntime,
    request: &Request<'_>,
    image: Option<FileStorage>,
    tables: &[WatchedTable],
    held: Option<&HeldImage>,
) -> Result<u8, Fault> {
    let progress = Progress::new(rt.alloc(), rt, rt.stderr(), tables);
    let file = image.map(|image| WatchedFile::new(image.into_file(), &progress));
    let mut files = GuardedFiles::new(rt, file, held);
    let out = WatchedOutput::new(rt.stdout(), &progress, rt.stdout().is_terminal());
    let mut err = WatchedOutput::new(rt.stderr(), &progress, true);
    let Ok(mut out) = BufWriter::with_capacity(rt.alloc(), OUTPUT_BUFFER, out) else {
        return Err(Fault::NoMemory);
    };
    let status = run_request(&mut files, request, &mut out, &mut err);
    progress.wipe();
    Ok(status)
}

// Opens files that can't be written. While they are open, no file that is opened later gets descriptor 0, 1
// or 2. Otherwise the image could get one that was closed, and output would be written into it.
fn take_standard_descriptors<R: Files>(rt: &R) -> io::Result<[R::File; 3]> {
    Ok([null_file(rt)?, null_file(rt)?, null_file(rt)?])
}

// Opens an empty file for reading.
fn null_file<R: Files>(rt: &R) -> io::Result<R::File> {
    File::open(rt, "/dev/null")
}

// Returns the words after the program's name, or none if one of them isn't UTF-8.
fn words_of(rt: &HostRuntime) -> Result<Vec<String>, Fault> {
    match env::args(rt) {
        Ok(arguments) => Ok(arguments.skip(1).collect(rt.alloc())?),
        Err(error) if error.kind() == ErrorKind::OutOfMemory => Err(Fault::NoMemory),
        Err(_) => Ok(Vec::new(rt.alloc())),
    }
}

// Opens and holds the image of a command that changes it.
fn hold_image(rt: &HostRuntime, request: &Request<'_>) -> Result<Option<HeldImage>, Fault> {
    match request {
        Request::Command { command, path } if command.changes_image() => {
            Ok(Some(hold_alone(rt, path, unlisted(rt)?)?))
        }
        _ => Ok(None),
    }
}

// Returns the image of a command: the held one, or one opened for reading.
fn open_image(
    rt: &HostRuntime,
    request: &Request<'_>,
    held: Option<&HeldImage>,
) -> Result<Option<FileStorage>, Fault> {
    match (request, held) {
        (_, Some(held)) => Ok(Some(FileStorage::new(held.share_file()?))),
        (Request::Command { path, .. }, None) => Ok(Some(FileStorage::open(rt, path, false)?)),
        _ => Ok(None),
    }
}

// Returns what the environment allows for an image whose locks no list shows.
fn unlisted(rt: &HostRuntime) -> Result<Unlisted, Fault> {
    match env::var(rt, NO_LOCK_LIST) {
        Ok(word) if word.as_str() == "allow" => Ok(Unlisted::Allow),
        Err(VarError::OutOfMemory) => Err(Fault::NoMemory),
        _ => Ok(Unlisted::Refuse),
    }
}

// Returns the L2 tables whose reads count as progress: those of the image, if the command reads all tables
// and can report at a terminal. Returns none if they can't be read, as the command will report.
fn watched_tables(
    rt: &HostRuntime,
    request: &Request<'_>,
    image: Option<&mut FileStorage>,
) -> Vec<WatchedTable> {
    let none = Vec::new(rt.alloc());
    match (request, image) {
        (Request::Command { command, .. }, Some(image))
            if command.reads_all_tables() && has_terminal_alone(rt) => {
            l2_tables(rt.alloc(), image).unwrap_or(none)
        }
        _ => none,
    }
}

// Whether standard error is a terminal, and standard output goes to no other program, which might write to
// the terminal too.
fn has_terminal_alone(rt: &HostRuntime) -> bool {
    rt.stderr().is_terminal()
        && match fs::metadata(rt, "/proc/self/fd/1") {
            Ok(output) => !output.file_type().is_fifo() && !output.file_type().is_socket(),
            Err(_) => false,
        }
}
