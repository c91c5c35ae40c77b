//! Reads and writes that are longer than any buffer on their way.

use super::files::open;
use super::{MIB, check_bytes, write};
use qcow2_testing::{file_holds, part_of, temporary_file};
use std::alloc::{AllocError, Global};
use std::test::Fail;

// Returns the bytes of a file: a pattern, inverted from `start` to `end`, that repeats after 113 bytes, which
// divides no buffer's length.
fn image(alloc: Global, len: usize, start: usize, end: usize) -> Result<Vec<u8>, AllocError> {
    let mut bytes = Vec::new(alloc);
    for at in 0..len {
        let byte = (at % 113) as u8;
        let inside = start <= at && at < end;
        bytes.push(if inside { 255 - byte } else { byte })?;
    }
    Ok(bytes)
}

// The begin and the end of a read or a write.
type Range = (usize, usize);

const WRITES: &[Range] = &[
    (1000, 1512),
    (1000, 1513),
    (1024, 1535),
    (1000, 1000 + 2 * MIB),
    (65536, 65536 + 2 * MIB + 1),
];

// Writes a range of the file, and fails unless that range has the new bytes and all others stay.
fn check_written(rt: &HostRuntime, path: &str, row: Range) -> Result<(), Fail> {
    let (start, end) = row;
    let new = image(rt.alloc(), 3 * MIB, start, end)?;
    let bytes = part_of(&new, start, end)?;
    write(&mut open(rt, path, true)?, bytes, start as u64)?;
    file_holds(rt, path, &new, row)
}

#[test]
fn a_large_write_replaces_its_range_and_no_other_byte(rt: HostRuntime) -> Result<(), Fail> {
    let old = image(rt.alloc(), 3 * MIB, 0, 0)?;
    for row in WRITES {
        let file = temporary_file(&rt, "large-write", &old)?;
        check_written(&rt, file.path.as_str(), *row)?;
    }
    Ok(())
}

const READS: &[Range] = &[
    (1000, 1512),
    (1000, 66537),
    (1000, 4 * MIB + 1001),
    (500, 5 * MIB + 500),
];

fn check_range(rt: &HostRuntime, path: &str, bytes: &[u8], row: Range) -> Result<(), Fail> {
    let bytes = part_of(bytes, row.0, row.1)?;
    check_bytes(rt.alloc(), &mut open(rt, path, true)?, row.0 as u64, bytes)
}

// Checks that a file of 5 MiB reads as if zeros followed it.
fn check_ranges(rt: &HostRuntime, path: &str) -> Result<(), Fail> {
    let mut padded = image(rt.alloc(), 5 * MIB, 0, 0)?;
    padded.resize(6 * MIB, 0)?;
    for row in READS {
        check_range(rt, path, &padded, *row)?;
    }
    Ok(())
}

#[test]
fn a_large_read_gives_its_range_and_changes_no_byte(rt: HostRuntime) -> Result<(), Fail> {
    let bytes = image(rt.alloc(), 5 * MIB, 0, 0)?;
    let file = temporary_file(&rt, "large-read", &bytes)?;
    check_ranges(&rt, file.path.as_str())?;
    file_holds(&rt, file.path.as_str(), &bytes, "after all reads")
}
