//! Edits of the bytes of an L2 table, and refused ones.

use crate::calls::edit_l2_table;
use crate::entries::fields;
use qcow2_base::Fault;
use qcow2_bytes::{BadEntry, EditCounts, EditFields, EditRefusal, HeaderFields, HostClusters};
use qcow2_testing::{COMPRESSED, COPIED, Numbers, each, image_with, rows, same, same_bytes};
use std::alloc::Global;
use std::test::Fail;

// Entries 3, 4 and the last of a table of 64.
const THIRD: u64 = 24;

const FOURTH: u64 = 32;

const LAST: u64 = 504;

// A table of 512 bytes, edits of it, and their effect: the ranges that lose a reference, the clusters that
// gain one, and the entries afterwards.
#[derive(Clone, Copy)]
struct Edited {
    name: &'static str,
    version: u32,
    before: Numbers<'static>,
    edits: &'static [EditFields],
    freed: &'static [HostClusters],
    gained: &'static [u64],
    after: Numbers<'static>,
}

// Makes edits, each from its kind, the index of its entry, and an offset.
macro_rules! edits {
    ($($kind:literal $index:literal $offset:expr),* $(,)?) => {
        &[$(EditFields { kind: $kind, reserved: 7, index: $index, host_offset: $offset }),*]
    };
}

// Makes ranges of clusters, each from its first cluster and its length in clusters.
macro_rules! clusters {
    ($($first:literal + $count:literal),* $(,)?) => {
        &[$(HostClusters { first: $first, count: $count }),*]
    };
}

const NONE: &[HostClusters] = &[];

const EDITED: &[Edited] = rows! { Edited:
    { name: "data in a cluster", version: 2, before: &[], edits: edits! { 1 3 0xc00 },
        freed: NONE, gained: &[6], after: &[(THIRD, COPIED + 0xc00)] },
    { name: "data in another cluster", version: 3, before: &[(THIRD, COPIED + 0xa00)],
        edits: edits! { 1 3 0xc00 }, freed: clusters! { 5 + 1 }, gained: &[6],
        after: &[(THIRD, COPIED + 0xc00)] },
    { name: "data in the same cluster", version: 3, before: &[(THIRD, 0xa00)], edits: edits! { 1 3 0xa00 },
        freed: NONE, gained: &[], after: &[(THIRD, COPIED + 0xa00)] },
    { name: "the last cluster that can be", version: 3, before: &[], edits: edits! { 1 63 (1 << 56) - 512 },
        freed: NONE, gained: &[(1 << 47) - 1], after: &[(LAST, COPIED + (1 << 56) - 512)] },
    { name: "zeros", version: 3, before: &[(THIRD, COPIED + 0xa00)], edits: edits! { 2 3 0 },
        freed: clusters! { 5 + 1 }, gained: &[], after: &[(THIRD, 1)] },
    { name: "zeros that keep their cluster", version: 3, before: &[(THIRD, COPIED + 0xa00)],
        edits: edits! { 3 3 0x1234 }, freed: NONE, gained: &[], after: &[(THIRD, COPIED + 0xa01)] },
    { name: "zeros that have no cluster to keep", version: 3, before: &[], edits: edits! { 3 4 0 },
        freed: NONE, gained: &[], after: &[(FOURTH, 1)] },
    { name: "no data", version: 2, before: &[(LAST, COPIED + 0xa00)], edits: edits! { 4 63 1 },
        freed: clusters! { 5 + 1 }, gained: &[], after: &[] },
    { name: "no data where there was none", version: 3, before: &[], edits: edits! { 4 0 0 },
        freed: NONE, gained: &[], after: &[] },
    { name: "compressed data over a border", version: 3, before: &[(THIRD, COMPRESSED + (1 << 61) + 0x601)],
        edits: edits! { 4 3 0 }, freed: clusters! { 3 + 2 }, gained: &[], after: &[] },
    { name: "compressed data that keeps no cluster", version: 3, before: &[(THIRD, COMPRESSED + 0x600)],
        edits: edits! { 3 3 0 }, freed: clusters! { 3 + 1 }, gained: &[], after: &[(THIRD, 1)] },
    { name: "two edits of one entry", version: 3, before: &[(THIRD, COPIED + 0xa00)],
        edits: edits! { 4 3 0, 1 3 0xc00, 2 3 0 }, freed: clusters! { 5 + 1, 6 + 1 }, gained: &[6],
        after: &[(THIRD, 1)] },
    { name: "a cluster that moves to another entry", version: 3, before: &[(THIRD, COPIED + 0xa00)],
        edits: edits! { 4 3 0, 1 4 0xa00 }, freed: clusters! { 5 + 1 }, gained: &[5],
        after: &[(FOURTH, COPIED + 0xa00)] },
    { name: "no edit", version: 2, before: &[(THIRD, 0xa00)], edits: edits! {},
        freed: NONE, gained: &[], after: &[(THIRD, 0xa00)] },
};

// An unwritten element of a list.
const OLD: HostClusters = HostClusters { first: 8, count: 7 };

#[test]
fn a_table_has_its_edits_in_its_bytes(rt: HostRuntime) -> Result<(), Fail> {
    each(rt.alloc(), EDITED, check_edited)
}

fn check_edited(alloc: Global, row: Edited) -> Result<(), Fail> {
    let mut bytes = table_bytes(alloc, 512, row.before)?;
    let (mut freed, mut gained) = ([OLD; 4], [9; 4]);
    let fields = HeaderFields {
        version: row.version,
        ..fields(9, 0)
    };
    let counts = EditCounts {
        freed: row.freed.len(),
        gained: row.gained.len(),
    };
    let found = edit_l2_table(
        alloc,
        &mut bytes,
        &fields,
        row.edits,
        &mut freed,
        &mut gained,
    );
    same(found, Ok(counts), row.name)?;
    same_bytes(&bytes, &table_bytes(alloc, 512, row.after)?, row.name)?;
    check_list(&freed, row.freed, OLD, row.name)?;
    check_list(&gained, row.gained, 9, row.name)
}

// Fails unless a list begins with these elements, and all others are unchanged.
fn check_list<T: Copy + PartialEq + std::fmt::Debug + Drop>(
    list: &[T],
    expected: &[T],
    old: T,
    row: &str,
) -> Result<(), Fail> {
    for index in 0..list.len() {
        let element = expected.get(index).copied().unwrap_or(old);
        same(list.get(index).copied(), Some(element), row)?;
    }
    Ok(())
}

fn table_bytes(alloc: Global, len: usize, numbers: Numbers<'static>) -> Result<Vec<u8>, Fail> {
    let image = image_with(alloc, len, numbers)?;
    let mut bytes = Vec::with_capacity(alloc, len)?;
    bytes.extend_from_slice(image.bytes())?;
    Ok(bytes)
}

// Refused edits, with the length of the table in bytes, and the number of places in both lists.
#[derive(Clone, Copy)]
struct Refused {
    name: &'static str,
    version: u32,
    cluster_bits: u32,
    features: u64,
    len: usize,
    before: Numbers<'static>,
    edits: &'static [EditFields],
    places: (usize, usize),
    refusal: EditRefusal,
}

// A table whose entry 3 is data in cluster 5, and edits that discard it and map cluster 6 instead.
const REFUSED: Refused = Refused {
    name: "",
    version: 3,
    cluster_bits: 9,
    features: 0,
    len: 512,
    before: &[(THIRD, COPIED + 0xa00)],
    edits: edits! { 4 3 0, 1 3 0xc00 },
    places: (4, 4),
    refusal: EditRefusal::Edits(Fault::WrongLength),
};

const BY_CALL: &[Refused] = rows! {
    Refused { name: "zeros in version 2, before bad fields", version: 2, cluster_bits: 8,
        edits: edits! { 4 3 0, 2 3 0 }, refusal: EditRefusal::Edits(Fault::VersionNeeded), ..REFUSED },
    Refused { name: "kept zeros in version 2", version: 2, edits: edits! { 3 3 0 },
        refusal: EditRefusal::Edits(Fault::VersionNeeded), ..REFUSED },
    Refused { name: "clusters of 256 bytes", cluster_bits: 8, features: 1, len: 7,
        refusal: EditRefusal::Edits(Fault::ClusterSize), ..REFUSED },
    Refused { name: "clusters of 4 MiB", cluster_bits: 22, refusal: EditRefusal::Edits(Fault::ClusterSize),
        ..REFUSED },
    Refused { name: "a feature that isn't known", features: 16, len: 7,
        refusal: EditRefusal::Edits(Fault::Incompatible(16)), ..REFUSED },
    Refused { name: "one beside a mark", features: 17, refusal: EditRefusal::Edits(Fault::Incompatible(16)),
        ..REFUSED },
    Refused { name: "a dirty image, before a table of another length", features: 1, len: 7,
        refusal: EditRefusal::Edits(Fault::Marked), ..REFUSED },
    Refused { name: "a corrupt image, before a bad entry", features: 14, before: &[(LAST, 2)],
        refusal: EditRefusal::Edits(Fault::Marked), ..REFUSED },
    Refused { name: "no byte", len: 0, before: &[], ..REFUSED },
    Refused { name: "a byte too few, before a number that is no entry", len: 511, before: &[(0, 2)],
        ..REFUSED },
    Refused { name: "a number too many", len: 520, ..REFUSED },
    Refused { name: "a table of larger clusters", cluster_bits: 10, ..REFUSED },
    Refused { name: "a reserved bit, before a bad edit", before: &[(LAST, 2)], edits: edits! { 0 0 0 },
        refusal: EditRefusal::Table(BadEntry { index: 63, fault: Fault::EntryReserved }), ..REFUSED },
    Refused { name: "the first of two", before: &[(THIRD, 2), (FOURTH, 2)],
        refusal: EditRefusal::Table(BadEntry { index: 3, fault: Fault::EntryReserved }), ..REFUSED },
    Refused { name: "an offset that begins no cluster", cluster_bits: 10, len: 1024,
        before: &[(THIRD, 0x200)],
        refusal: EditRefusal::Table(BadEntry { index: 3, fault: Fault::EntryUnaligned }), ..REFUSED },
};

const BAD: EditRefusal = EditRefusal::Edits(Fault::BadEdit(1));

const BY_EDIT: &[Refused] = rows! {
    Refused { name: "a kind that isn't known", edits: edits! { 4 3 0, 0 3 0 }, refusal: BAD, ..REFUSED },
    Refused { name: "the greatest kind", edits: edits! { 4 3 0, 4294967295 3 0 }, refusal: BAD, ..REFUSED },
    Refused { name: "an entry past the end", edits: edits! { 4 3 0, 4 64 0 }, refusal: BAD, ..REFUSED },
    Refused { name: "the greatest index", edits: edits! { 4 3 0, 2 18446744073709551615 0 }, refusal: BAD,
        ..REFUSED },
    Refused { name: "an offset within a cluster", edits: edits! { 4 3 0, 1 3 0xc01 }, refusal: BAD,
        ..REFUSED },
    Refused { name: "the header's cluster", edits: edits! { 4 3 0, 1 3 0 }, refusal: BAD, ..REFUSED },
    Refused { name: "past the last cluster", edits: edits! { 4 3 0, 1 3 1 << 56 }, refusal: BAD, ..REFUSED },
    Refused { name: "a bad edit before lists that are too short", edits: edits! { 4 3 0, 4 64 0 },
        places: (0, 0), refusal: BAD, ..REFUSED },
    Refused { name: "no place for what is freed", places: (0, 4),
        refusal: EditRefusal::NoRoom(EditCounts { freed: 1, gained: 1 }), ..REFUSED },
    Refused { name: "no place for what is gained", places: (4, 0),
        refusal: EditRefusal::NoRoom(EditCounts { freed: 1, gained: 1 }), ..REFUSED },
};

#[test]
fn a_call_that_fits_no_table_changes_nothing(rt: HostRuntime) -> Result<(), Fail> {
    each(rt.alloc(), BY_CALL, check_refused)
}

#[test]
fn an_edit_that_cannot_be_made_changes_nothing(rt: HostRuntime) -> Result<(), Fail> {
    each(rt.alloc(), BY_EDIT, check_refused)
}

fn check_refused(alloc: Global, row: Refused) -> Result<(), Fail> {
    let before = table_bytes(alloc, row.len, row.before)?;
    let mut bytes = table_bytes(alloc, row.len, row.before)?;
    let (mut freed, mut gained) = ([OLD; 4], [9; 4]);
    let fields = HeaderFields {
        version: row.version,
        ..fields(row.cluster_bits, row.features)
    };
    let found = edit_l2_table(
        alloc,
        &mut bytes,
        &fields,
        row.edits,
        &mut freed[..row.places.0.min(4)],
        &mut gained[..row.places.1.min(4)],
    );
    same(found, Err(row.refusal), row.name)?;
    same_bytes(&bytes, &before, row.name)?;
    same((freed, gained), ([OLD; 4], [9; 4]), row.name)
}
