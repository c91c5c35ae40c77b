//! Updates of a header from another one of the same image, and the field that a refused update reports.

use super::fixtures::{Changes, load_with};
use qcow2_base::Fault;
use qcow2_base::Field::{
    self, Autoclear, BackingName, BackingOffset, BackingSize, ClusterBits, Compatible, CryptMethod,
    Extensions, Incompatible, NbSnapshots, RefcountOrder, SnapshotsOffset, UnknownFields, Version,
};
use qcow2_calls::update_header;
use qcow2_metadata::Header;
use qcow2_testing::{each, printed, rows, same};
use std::alloc::Global;
use std::test::Fail;

// A disk of 32768 bytes with an L1 table of one entry at 0x200. The backing file's name is at two offsets.
const SMALL: Changes = "backing_file_offset=360, backing_file_size=2, size=0x8000, l1_size=1, \
    l1_table_offset=0x200, 360=:ab, 368=:ab";

// A disk of 65536 bytes with an L1 table of two entries at 0x200.
const GROWN: Changes = "backing_file_offset=360, backing_file_size=2, size=0x10000, l1_size=2, \
    l1_table_offset=0x200, 360=:ab, 368=:ab";

// Another size and other tables, different in all their bytes.
const MOVED: Changes =
    "size=0x102030405060708, l1_size=0x21222324, l1_table_offset=0x3132333435363a00, \
    refcount_table_offset=0x4142434445464800, refcount_table_clusters=0x51525354";

// Changes of the minimal header that make two headers, which agree in all but the updated fields.
const AGREEING: &[(Changes, Changes)] = rows! {
    // a disk of 32768 bytes becomes one of 65536, its L1 table one of 2 entries
    ("size=0x8000, l1_size=1, l1_table_offset=0x200", "size=0x10000, l1_size=2, l1_table_offset=0x200"),
    (SMALL, SMALL), (SMALL, GROWN), ("", MOVED), (MOVED, ""), ("", "size=0x100000000000000"),
    ("", "l1_size=0x1000000"), ("", "l1_table_offset=0x200"), ("", "refcount_table_offset=0x200"),
    ("", "refcount_table_clusters=0x1000000"),
    // bytes that no header keeps: those after End, padding, and in version 2 those after byte 72
    ("200=01", "200=02, size=1"), ("104=format 01:a, 113=01", "104=format 01:a, 113=02"),
    ("version=2", "version=2, incompatible_features=4, refcount_order=9"),
    // the same data file name, and the same extension of an unknown type
    ("104=data 01:a, 123=0700000001:b", "104=data 01:a, 123=0700000001:b"),
    // feature name tables: another order, a replaced name, and a name of no feature
    ("104=names 36 0000:d, 160=0100:lazy", "104=names 33 0100:lazy, 160=0000:d"),
    ("104=names 36 0100:old, 160=0100:lazy", FEATURE), ("104=names 36 0100:lazy, 160=0300:none", FEATURE),
};

// Fails unless the first header becomes the second one.
fn check_becomes(alloc: Global, (here, there): (Changes, Changes)) -> Result<(), Fail> {
    let mut header = load_with(alloc, here, "")?;
    let other = load_with(alloc, there, "")?;
    check_taken_over(alloc, &mut header, &other)
}

fn check_taken_over(alloc: Global, header: &mut Header, other: &Header) -> Result<(), Fail> {
    let expected = printed(alloc, other)?;
    same(update_header(header, other), Ok(()), &expected)?;
    same(&printed(alloc, header)?, &expected, "header")
}

#[test]
fn a_header_becomes_one_that_agrees_with_it(rt: HostRuntime) -> Result<(), Fail> {
    each(rt.alloc(), AGREEING, check_becomes)
}

// Changes of headers of these disks that make two headers, and the first field that differs. The tables move
// with the cluster size, so that they begin with a cluster.
type Differing = (Changes, Changes, Field);

const DIFFERING: &[Differing] = rows! {
    ("", "version=2, 107=07", Version), ("", "backing_file_offset=368, 107=07", BackingOffset),
    ("", "backing_file_offset=368, cluster_bits=10, l1_table_offset=0x400", BackingOffset),
    ("", "backing_file_size=1, 107=07", BackingSize),
    ("", "cluster_bits=10, l1_table_offset=0x400, 107=07", ClusterBits),
    ("", "crypt_method=1, 107=07", CryptMethod),
    ("", "nb_snapshots=1, 107=07", NbSnapshots), ("", "snapshots_offset=1, 107=07", SnapshotsOffset),
    ("", "incompatible_features=4, 107=07", Incompatible),
    ("", "compatible_features=1, 107=07", Compatible),
    ("", "autoclear_features=1, 107=07", Autoclear), ("", "refcount_order=3, 107=07", RefcountOrder),
    ("", "header_length=112, 107=07", UnknownFields), ("", "361=:c, 107=07", BackingName),
    ("", "107=07", Extensions),
    // empty names at two offsets, and a length without a name
    ("backing_file_offset=496, backing_file_size=0", "backing_file_offset=504, backing_file_size=0",
        BackingOffset),
    ("backing_file_offset=0, backing_file_size=1", "backing_file_offset=0, backing_file_size=0x1000001",
        BackingSize),
    // unknown fields of one length
    ("header_length=112, 104=01", "header_length=112, 104=02", UnknownFields),
    ("header_length=112", "header_length=112, 111=01", UnknownFields),
    // extensions: another order, one more, and none
    ("104=format 01:a, 120=data 01:b", "104=data 01:b, 120=format 01:a", Extensions),
    ("104=data 01:b", "104=data 01:b, 120=data 01:b", Extensions), ("", "104=data 00", Extensions),
    // extensions: another name, a longer one, and another type
    ("104=format 03:raw", "104=format 03:row", Extensions),
    ("104=data 03:raw", "104=data 04:raw2", Extensions),
    ("104=data 03:raw", "104=format 03:raw", Extensions),
    // extensions of unknown types: another type, another byte, another length
    ("107=0700000001:a", "107=0800000001:a", Extensions),
    ("107=0700000001:a", "107=0700000001:b", Extensions), ("107=0700000001", "107=0700000002", Extensions),
    // feature name tables: another name, bit or field, a longer name, one more, and none
    (FEATURE, "104=names 06 0100:lame", Extensions), (FEATURE, "104=names 06 0101:lazy", Extensions),
    (FEATURE, "104=names 06 0200:lazy", Extensions), (FEATURE, "104=names 07 0100:lazy!", Extensions),
    (FEATURE, "104=names 36 0100:lazy, 160=0000:name", Extensions), (FEATURE, "104=names 00", Extensions),
};

// A feature name table of one name.
const FEATURE: Changes = "104=names 06 0100:lazy";

// Fails unless an update is refused for this field, and changes nothing.
fn check_refused(
    alloc: Global,
    header: &mut Header,
    other: &Header,
    field: Field,
) -> Result<(), Fail> {
    let before = printed(alloc, header)?;
    let answer = update_header(header, other);
    let found = (answer, printed(alloc, header)?);
    same(found, (Err(Fault::FieldChanged(field)), before), field)
}

// Fails unless updates of either header by the other are refused for this field.
fn check_differing(alloc: Global, (here, there, field): Differing) -> Result<(), Fail> {
    let mut header = load_with(alloc, SMALL, here)?;
    let mut other = load_with(alloc, GROWN, there)?;
    check_both_refused(alloc, &mut header, &mut other, field)
}

fn check_both_refused(
    alloc: Global,
    header: &mut Header,
    other: &mut Header,
    field: Field,
) -> Result<(), Fail> {
    check_refused(alloc, header, other, field)?;
    check_refused(alloc, other, header, field)
}

#[test]
fn the_first_field_that_differs_is_told_and_nothing_changes(rt: HostRuntime) -> Result<(), Fail> {
    each(rt.alloc(), DIFFERING, check_differing)
}
