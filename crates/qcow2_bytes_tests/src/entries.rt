//! Entries of L1 and L2 tables.

use crate::calls::{first_bad_l2_entry, l1_entry, l2_entry};
use qcow2_base::{Fault, MemStorage};
use qcow2_bytes::{BadEntry, EntryMapping, HeaderFields, L2Pointer, NameRange};
use qcow2_testing::{COMPRESSED, COPIED, each, image_with, part_of, rows, same};
use std::alloc::Global;
use std::test::Fail;

pub(crate) const NONE: NameRange = NameRange {
    offset: 0,
    length: 0,
};

/// Returns the fields of a header of version 3 in which only these values matter.
pub(crate) fn fields(cluster_bits: u32, incompatible_features: u64) -> HeaderFields {
    HeaderFields {
        version: 3,
        cluster_bits,
        refcount_order: 4,
        crypt_method: 0,
        size: 0,
        l1_offset: 0,
        reftable_offset: 0,
        l1_entries: 0,
        reftable_clusters: 0,
        incompatible_features,
        compatible_features: 0,
        autoclear_features: 0,
        snapshots_offset: 0,
        snapshots: 0,
        backing_name: NONE,
        backing_format: NONE,
        data_file: NONE,
    }
}

// An L1 entry, and its offset and copied flag, or the fault that refuses it.
#[derive(Clone, Copy, Debug)]
struct Pointer {
    cluster_bits: u32,
    number: u64,
    says: Result<(u64, bool), Fault>,
}

const POINTERS: &[Pointer] = rows! { Pointer:
    { cluster_bits: 9, number: 0, says: Ok((0, false)) },
    { cluster_bits: 9, number: COPIED + 0x400, says: Ok((0x400, true)) },
    { cluster_bits: 16, number: 0x00ff_ffff_ffff_0000, says: Ok((0x00ff_ffff_ffff_0000, false)) },
    { cluster_bits: 16, number: 0x200, says: Err(Fault::EntryUnaligned) },
    { cluster_bits: 16, number: 0x201, says: Err(Fault::EntryReserved) },
    { cluster_bits: 16, number: COMPRESSED, says: Err(Fault::EntryReserved) },
};

fn check_pointer(_alloc: Global, row: Pointer) -> Result<(), Fail> {
    let found = l1_entry(row.number, &fields(row.cluster_bits, 0));
    let expected = row
        .says
        .map(|(offset, copied)| L2Pointer { offset, copied });
    same(found, expected, row)
}

#[test]
fn l1_entries_say_where_l2_tables_lie(rt: HostRuntime) -> Result<(), Fail> {
    each(rt.alloc(), POINTERS, check_pointer)
}

// An L2 entry, the features of its image, and the mapping of guest offset 0x20_0001: kind, copied flag,
// offset and length; or the fault that refuses it.
#[derive(Clone, Copy, Debug)]
struct Entry {
    cluster_bits: u32,
    features: u64,
    number: u64,
    says: Result<(u32, u32, u64, u64), Fault>,
}

const ENTRIES: &[Entry] = rows! { Entry:
    { cluster_bits: 9, features: 0, number: 0, says: Ok((0, 0, 0x20_0000, 512)) },
    { cluster_bits: 21, features: 0, number: COPIED, says: Ok((0, 0, 0x20_0000, 1 << 21)) },
    { cluster_bits: 9, features: 0, number: COPIED + 0xa00, says: Ok((1, 1, 0xa00, 512)) },
    { cluster_bits: 9, features: 0, number: 0xa00, says: Ok((1, 0, 0xa00, 512)) },
    { cluster_bits: 9, features: 4, number: COPIED, says: Ok((1, 1, 0, 512)) },
    { cluster_bits: 9, features: 0, number: COPIED + 1, says: Ok((2, 0, 0, 0)) },
    { cluster_bits: 9, features: 4, number: COPIED + 1, says: Ok((3, 1, 0, 512)) },
    { cluster_bits: 9, features: 0, number: 0xa01, says: Ok((3, 0, 0xa00, 512)) },
    { cluster_bits: 9, features: 0, number: COMPRESSED, says: Ok((4, 0, 0, 512)) },
    { cluster_bits: 21, features: 0, number: 0x7ffe_0000_001f_fe00, says: Ok((4, 0, 0x1f_fe00, 1 << 22)) },
    { cluster_bits: 16, features: 4, number: 0x4040_0000_0001_fff0, says: Ok((4, 0, 0x1_fff0, 528)) },
    { cluster_bits: 9, features: 0, number: 0x4100_0000_0000_0000, says: Err(Fault::EntryReserved) },
    { cluster_bits: 9, features: 0, number: COPIED + COMPRESSED, says: Err(Fault::EntryReserved) },
    { cluster_bits: 16, features: 0, number: 0x202, says: Err(Fault::EntryReserved) },
    { cluster_bits: 16, features: 0, number: 0x200, says: Err(Fault::EntryUnaligned) },
};

fn check_entry(_alloc: Global, row: Entry) -> Result<(), Fail> {
    let found = l2_entry(
        row.number,
        &fields(row.cluster_bits, row.features),
        0x20_0001,
    );
    let expected = row.says.map(|(kind, copied, offset, length)| EntryMapping {
        kind,
        copied,
        offset,
        length,
    });
    same(found, expected, row)
}

#[test]
fn l2_entries_say_what_their_guest_clusters_read_as(rt: HostRuntime) -> Result<(), Fail> {
    each(rt.alloc(), ENTRIES, check_entry)
}

// Invalid header fields: cluster bits, incompatible features, and the fault.
const MADE_UP: &[(u32, u64, Fault)] = rows! {
    (0, 0, Fault::ClusterSize), (8, 0, Fault::ClusterSize), (22, 0, Fault::ClusterSize),
    (63, 0, Fault::ClusterSize), (u32::MAX, 1, Fault::ClusterSize),
    (16, 0x1f, Fault::Incompatible(16)), (16, 0x14, Fault::Incompatible(16)),
    (21, u64::MAX, Fault::Incompatible(u64::MAX - 15)),
};

fn check_made_up(_alloc: Global, row: (u32, u64, Fault)) -> Result<(), Fail> {
    let (cluster_bits, features, fault) = row;
    let fields = fields(cluster_bits, features);
    same(l1_entry(u64::MAX, &fields), Err(fault), row)?;
    same(l2_entry(u64::MAX, &fields, u64::MAX), Err(fault), row)?;
    same(first_bad_l2_entry(&[0], &fields), Err(fault), row)
}

#[test]
fn fields_that_no_header_has_are_refused(rt: HostRuntime) -> Result<(), Fail> {
    each(rt.alloc(), MADE_UP, check_made_up)
}

// The number of passed bytes of a table, and the first invalid entry, or the fault.
const TABLES: &[(usize, Result<Option<(usize, Fault)>, Fault>)] = rows! {
    (0, Ok(None)), (24, Ok(None)), (32, Ok(Some((3, Fault::EntryReserved)))),
    (48, Ok(Some((3, Fault::EntryReserved)))), (1, Err(Fault::WrongLength)), (7, Err(Fault::WrongLength)),
    (31, Err(Fault::WrongLength)), (33, Err(Fault::WrongLength)),
};

fn table(alloc: Global) -> Result<MemStorage, Fault> {
    image_with(
        alloc,
        48,
        &[(0, COPIED + 0x600), (8, COMPRESSED), (24, 2), (40, 0xffff)],
    )
}

fn check_table(
    alloc: Global,
    row: (usize, Result<Option<(usize, Fault)>, Fault>),
) -> Result<(), Fail> {
    let (len, bad) = row;
    let image = table(alloc)?;
    let found = first_bad_l2_entry(part_of(image.bytes(), 0, len)?, &fields(9, 0));
    let expected = bad.map(|bad| bad.map(|(index, fault)| BadEntry { index, fault }));
    same(found, expected, row)
}

#[test]
fn the_first_number_that_is_no_entry_is_found(rt: HostRuntime) -> Result<(), Fail> {
    each(rt.alloc(), TABLES, check_table)
}
