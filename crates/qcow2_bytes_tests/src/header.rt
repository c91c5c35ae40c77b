//! Headers in the bytes of a first cluster.

use crate::calls::{header_bytes, read_header};
use crate::entries::NONE;
use qcow2_base::{Fault, MemStorage};
use qcow2_bytes::{HeaderFields, NameRange};
use qcow2_testing::{Numbers, all_same, each, image_with, part_of, put_all, put_bytes, same};
use std::alloc::Global;
use std::test::Fail;

const MAGIC: u64 = 0x5146_49fb_0000_0000;

// The minimal header: version 3, clusters of 512 bytes, refcounts of 16 bits, no extensions.
const LEAST: Numbers<'static> = &[(0, MAGIC + 3), (16, 9), (96, 0x4_0000_0068)];

// Returns an image of 600 bytes: the minimal header with other numbers.
fn least_with(alloc: Global, numbers: Numbers<'static>) -> Result<MemStorage, Fault> {
    let mut image = image_with(alloc, 600, LEAST)?;
    put_all(&mut image, numbers)?;
    Ok(image)
}

// The number of passed bytes, changes of them, and the length of the first cluster in bytes, or the fault.
type Length = (usize, Numbers<'static>, Result<usize, Fault>);

const LENGTHS: [Length; 12] = [
    (104, &[], Ok(512)),
    (104, &[(16, 21)], Ok(1 << 21)),
    (600, &[(16, 10)], Ok(1024)),
    (103, &[], Err(Fault::WrongLength)),
    (0, &[], Err(Fault::WrongLength)),
    (104, &[(0, 3)], Err(Fault::NotQcow2)),
    (104, &[(0, MAGIC + 4)], Err(Fault::Version)),
    (104, &[(0, MAGIC + 1)], Err(Fault::Version)),
    (104, &[(16, 8)], Err(Fault::ClusterSize)),
    (104, &[(16, 22)], Err(Fault::ClusterSize)),
    (104, &[(16, 0xffff_ffff)], Err(Fault::ClusterSize)),
    // other fields aren't checked
    (104, &[(96, 0x7_0000_0000)], Ok(512)),
];

fn check_length(alloc: Global, row: Length) -> Result<(), Fail> {
    let (len, numbers, length) = row;
    let image = least_with(alloc, numbers)?;
    same(header_bytes(part_of(image.bytes(), 0, len)?), length, row)
}

#[test]
fn the_first_bytes_say_how_long_the_cluster_is(rt: HostRuntime) -> Result<(), Fail> {
    each(rt.alloc(), &LENGTHS, check_length)
}

// The number of passed bytes, changes of them, and the fault that refuses them.
type Refused = (usize, Numbers<'static>, Fault);

const REFUSED: [Refused; 9] = [
    (511, &[], Fault::WrongLength),
    (600, &[(16, 10)], Fault::WrongLength),
    // a cluster that isn't whole is refused first, unless its size is invalid
    (511, &[(96, 0x7_0000_0068)], Fault::WrongLength),
    (511, &[(16, 8)], Fault::ClusterSize),
    (512, &[(96, 0x7_0000_0068)], Fault::RefcountWidth),
    (512, &[(72, 0x17)], Fault::Incompatible(16)),
    // a compression type that isn't there
    (512, &[(72, 8)], Fault::Incompatible(8)),
    (
        512,
        &[(8, 509), (16, (4 << 32) + 9)],
        Fault::BackingNamePlace,
    ),
    // bytes after the cluster don't belong to the header
    (600, &[(96, (4 << 32) + 505)], Fault::ExtensionsExceed),
];

fn check_refused(alloc: Global, row: Refused) -> Result<(), Fail> {
    let (len, numbers, fault) = row;
    let image = least_with(alloc, numbers)?;
    same(
        read_header(alloc, part_of(image.bytes(), 0, len)?),
        Err(fault),
        row,
    )
}

#[test]
fn a_header_is_refused_by_its_first_fault(rt: HostRuntime) -> Result<(), Fail> {
    each(rt.alloc(), &REFUSED, check_refused)
}

// Changes of the minimal header, and its incompatible features.
type Features = (Numbers<'static>, u64);

const FEATURES: [Features; 4] = [
    (&[(72, 1)], 1),
    (&[(72, 2)], 2),
    (&[(72, 7)], 7),
    // clusters compressed by zstd: a header of 112 bytes, and the type
    (&[(72, 11), (96, 0x4_0000_0070), (104, 1 << 56)], 11),
];

fn check_features(alloc: Global, row: Features) -> Result<(), Fail> {
    let (numbers, features) = row;
    let image = least_with(alloc, numbers)?;
    let fields = read_header(alloc, image.bytes())?;
    same(fields.incompatible_features, features, row)
}

#[test]
fn marks_and_a_compression_type_are_read(rt: HostRuntime) -> Result<(), Fail> {
    each(rt.alloc(), &FEATURES, check_features)
}

// A header that sets each field.
const FILLED: Numbers<'static> = &[
    (8, 508),
    (16, (4 << 32) + 9),
    (24, 0x0102_0304_0506_0708),
    (32, (11 << 32) + 12),
    (40, 0x400),
    (48, 0x600),
    (56, (13 << 32) + 14),
    (64, 0x800),
    (72, 4),
    (80, 15),
    (88, 16),
    (96, (6 << 32) + 104),
];

const FIELDS: HeaderFields = HeaderFields {
    version: 3,
    cluster_bits: 9,
    refcount_order: 6,
    crypt_method: 11,
    size: 0x0102_0304_0506_0708,
    l1_offset: 0x400,
    reftable_offset: 0x600,
    l1_entries: 12,
    reftable_clusters: 13,
    incompatible_features: 4,
    compatible_features: 15,
    autoclear_features: 16,
    snapshots_offset: 0x800,
    snapshots: 14,
    backing_name: NameRange {
        offset: 508,
        length: 4,
    },
    backing_format: NONE,
    data_file: NONE,
};

#[test]
fn fields_are_where_the_format_has_them(rt: HostRuntime) -> Result<(), Fail> {
    let image = least_with(rt.alloc(), FILLED)?;
    same(
        read_header(rt.alloc(), image.bytes()),
        Ok(FIELDS),
        "version 3",
    )
}

#[test]
fn version_2_ends_after_72_bytes(rt: HostRuntime) -> Result<(), Fail> {
    let mut image = least_with(rt.alloc(), FILLED)?;
    put_all(&mut image, &[(0, MAGIC + 2)])?;
    let found = read_header(rt.alloc(), image.bytes())?;
    all_same! {
        "version 2",
        found.version => 2, found.refcount_order => 4, found.incompatible_features => 0,
        found.compatible_features => 0, found.autoclear_features => 0, found.snapshots_offset => 0x800,
    }
}

// Bytes at offset 104, and the offset and length of the backing format and of the data file's name.
type Names = (&'static [u8], (u32, u32), (u32, u32));

const NAMES: [Names; 7] = [
    (b"", (0, 0), (0, 0)),
    (b"\xe2\x79\x2a\xca\0\0\0\x05qcow2\0\0\0", (112, 5), (0, 0)),
    (
        b"DATA\0\0\0\x01a\0\0\0\0\0\0\0\xe2\x79\x2a\xca\0\0\0\x03raw",
        (128, 3),
        (112, 1),
    ),
    (
        b"\0\0\0\x01\0\0\0\x09123456789\0\0\0\0\0\0\0DATA\0\0\0\x02ab",
        (0, 0),
        (136, 2),
    ),
    // the first of two equal extensions, and an empty one
    (
        b"DATA\0\0\0\x01a\0\0\0\0\0\0\0DATA\0\0\0\x01a",
        (0, 0),
        (112, 1),
    ),
    (b"DATA\0\0\0\0", (0, 0), (112, 0)),
    // no extension follows the end
    (b"\0\0\0\0\0\0\0\0DATA\0\0\0\x01a", (0, 0), (0, 0)),
];

fn place(range: NameRange) -> (u32, u32) {
    (range.offset, range.length)
}

fn check_names(alloc: Global, row: Names) -> Result<(), Fail> {
    let (bytes, format, data_file) = row;
    let mut image = least_with(alloc, &[])?;
    put_bytes(&mut image, 104, bytes)?;
    let fields = read_header(alloc, image.bytes())?;
    same(
        (place(fields.backing_format), place(fields.data_file)),
        (format, data_file),
        row,
    )
}

#[test]
fn names_lie_in_their_extensions(rt: HostRuntime) -> Result<(), Fail> {
    each(rt.alloc(), &NAMES, check_names)
}
