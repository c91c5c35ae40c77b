//! Lookups in a whole image in memory.

use crate::calls::image_lookup;
use qcow2_base::{Fault, MemStorage};
use qcow2_testing::sample_image::{L2_TABLE, LAST_ENTRY, sample_image};
use qcow2_testing::{COMPRESSED, COPIED, each, part_of, put_all, rows, same};
use std::alloc::Global;
use std::test::Fail;

// Returns the sample image with three more entries: data, zeros, and compressed data in the last one.
fn image(alloc: Global) -> Result<MemStorage, Fault> {
    let entries = [
        (L2_TABLE, COPIED + 0x600),
        (L2_TABLE + 8, 1),
        (LAST_ENTRY, COMPRESSED + 0x601),
        (0x7f8, 0),
    ];
    sample_image(alloc, 9, &entries)
}

// The number of passed bytes of the image, a guest offset, and the mapping of its cluster: kind, copied flag,
// offset and length; or the fault.
#[derive(Clone, Copy, Debug)]
struct Lookup {
    len: usize,
    offset: u64,
    reads: Result<(u32, u32, u64, u64), Fault>,
}

const LOOKUPS: &[Lookup] = rows! { Lookup:
    { len: 0x800, offset: 0x1ff, reads: Ok((1, 1, 0x600, 512)) },
    { len: 0x800, offset: 0x200, reads: Ok((2, 0, 0, 0)) },
    { len: 0x800, offset: 0x401, reads: Ok((0, 0, 0x400, 512)) },
    { len: 0x800, offset: 0x7fff, reads: Ok((4, 0, 0x601, 511)) },
    { len: 0x800, offset: 0x8000, reads: Ok((0, 0, 0x8000, 512)) },
    { len: 0x800, offset: u64::MAX, reads: Ok((0, 0, u64::MAX - 511, 512)) },
    // the image reads as zeros past its last byte
    { len: 0x408, offset: 0x200, reads: Ok((0, 0, 0x200, 512)) },
    { len: 0x206, offset: 0, reads: Ok((0, 0, 0, 512)) },
    { len: 0, offset: 0, reads: Err(Fault::NotQcow2) },
};

fn check_lookup(alloc: Global, row: Lookup) -> Result<(), Fail> {
    let image = image(alloc)?;
    let found = image_lookup(alloc, part_of(image.bytes(), 0, row.len)?, row.offset);
    let found = found.map(|found| (found.kind, found.copied, found.offset, found.length));
    same(found, row.reads, row)
}

#[test]
fn a_lookup_reads_what_the_bytes_say(rt: HostRuntime) -> Result<(), Fail> {
    each(rt.alloc(), LOOKUPS, check_lookup)
}

#[test]
fn a_marked_image_is_looked_into(rt: HostRuntime) -> Result<(), Fail> {
    let mut image = image(rt.alloc())?;
    put_all(&mut image, &[(72, 3)])?;
    let found = image_lookup(rt.alloc(), image.bytes(), 0x200);
    same(found.map(|found| found.kind), Ok(2), "zeros")
}
