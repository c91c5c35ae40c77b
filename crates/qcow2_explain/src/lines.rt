//! The lines that say where in a file or an image a fault is.

ghost use Rattle.std.specs.Prelude.{IsErrOf};
ghost use Rattle.qcow2_base.specs.Storage.{ReadsFor};
ghost use Rattle.qcow2_base.specs.declared.fault.Fault.TheVariants.{Storage as StorageFailed};

use super::files::{file_line, unopened_lines};
use super::locks::lock_lines;
use super::refusals::{Refusal, load_header, refusal_of};
use super::searches::Search;
use qcow2_base::{Device, Fault, FileStorage};
use qcow2_buffered::BufferedStorage;
use std::alloc::{AllocError, Global};
use std::rt::Files;

/// Returns lines that say where in a file's image a fault is. Each begins with `in`, the path and a colon. A
/// fault that isn't of an image has one line that says so. Fault 34 has a line on how the file can be opened,
/// and 39 a line for each lock that keeps the file from being changed. Ignores what the fault carries.
///
/// A file that can't be opened has a line with the system's error message. Fails if the storage fails or
/// memory runs out.
pub fn fault_lines<R: Files + AllocGlobal>(
    rt: &R,
    fault: Fault,
    path: &str,
) -> Result<String, Fault> {
    match Search::of(fault) {
        Search::Elsewhere(reason) => Ok(format!(in rt.alloc(); "in {path}: {reason}\n")?),
        Search::File => file_line(rt, path),
        Search::Locks => match unopened_lines(rt, path, true)? {
            Some(lines) => Ok(lines),
            None => lock_lines(rt, path),
        },
        _ => match unopened_lines(rt, path, false)? {
            Some(lines) => Ok(lines),
            None => locate_in_file(rt, fault, path),
        },
    }
}

// The lines on a fault in a file that can be opened.
fn locate_in_file<R: Files + AllocGlobal>(
    rt: &R,
    fault: Fault,
    path: &str,
) -> Result<String, Fault> {
    let mut file = FileStorage::open(rt, path, false)?;
    match load_header(rt.alloc(), &mut file, fault) {
        Ok(header) => {
            let Ok(mut image) = BufferedStorage::new(rt.alloc(), file, header.cluster_size()) else {
                return Err(Fault::NoMemory);
            };
            locate_fault(rt.alloc(), &mut image, fault, path)
        }
        Err(Fault::NoMemory) => Err(Fault::NoMemory),
        Err(Fault::Storage) => Err(Fault::Storage),
        Err(_) => locate_fault(rt.alloc(), &mut file, fault, path),
    }
}

/// Returns lines that say where in an image a fault is. Each begins with `in`, the image's name and a colon.
/// If the image doesn't have the fault, one line says so. If another fault comes first, a line names it.
/// Ignores what the fault carries.
///
/// Reads the header; for 18 to 21 all tables except those of snapshots; for 21 the image's length; for 30, 38
/// and 40 also refcounts. Changes no byte of the image. Returns fault 34 if a read of the image fails, and 35
/// if memory runs out.
pub fn locate_fault<S: Device>(
    alloc: Global,
    image: &mut S,
    fault: Fault,
    name: &str,
) -> Result<String, Fault>
    ensures storage { ReadsFor (IsErrOf result StorageFailed) (S.state image.old) (S.state image.new) }
{
    let length = match fault {
        Fault::TablePlace => image.len()?,
        _ => None,
    };
    let lines = match refusal_of(alloc, image, fault, length)? {
        Some(refusal) => lines_of(alloc, fault, name, &refusal)?,
        None => format!(in alloc; "in {name}: this image doesn't have this fault\n")?,
    };
    Ok(lines)
}

// The lines on a refusal, and before them a line with its fault if that isn't this one.
fn lines_of(
    alloc: Global,
    fault: Fault,
    name: &str,
    refusal: &Refusal,
) -> Result<String, AllocError> {
    let mut lines = String::new(alloc);
    if !refusal.is_by(fault) {
        let first = refusal.fault.number();
        writeln!(lines, "in {name}: another fault comes first, {first}")?;
    }
    for place in &refusal.places {
        writeln!(lines, "in {name}: {place}")?;
    }
    Ok(lines)
}
