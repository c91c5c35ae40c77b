//! Extents of the entries in the bytes of an L2 table.

use crate::calls::l2_extents;
use crate::entries::fields;
use qcow2_base::Fault;
use qcow2_bytes::ExtentFields;
use qcow2_testing::{COMPRESSED, COPIED, each, part_of, rows, same};
use std::alloc::{AllocError, Global};
use std::fmt::Debug;
use std::test::Fail;

// An extent: its kind, guest offset, length in bytes, and the offset of its content.
type Part = (u32, u64, u64, u64);

// An unwritten element of the list.
const OLD: Part = (9, 8, 7, 6);

fn extent((kind, guest_offset, length, offset): Part) -> ExtentFields {
    ExtentFields {
        kind,
        reserved: 0,
        guest_offset,
        length,
        offset,
    }
}

fn table_bytes(alloc: Global, numbers: &[u64]) -> Result<Vec<u8>, AllocError> {
    let mut bytes = Vec::new(alloc);
    for number in numbers {
        bytes.extend_from_slice(&number.to_be_bytes())?;
    }
    Ok(bytes)
}

// Fails unless the list begins with these extents, and all other elements are unchanged.
fn check_places<R: Debug + Copy + Drop>(
    places: &[ExtentFields],
    expected: &[Part],
    row: R,
) -> Result<(), Fail> {
    for index in 0..places.len() {
        let part = expected.get(index).copied().unwrap_or(OLD);
        same(places.get(index).copied(), Some(extent(part)), row)?;
    }
    Ok(())
}

// Entries, the first of which maps the guest cluster at an offset, and the extents that they join to.
#[derive(Clone, Copy, Debug)]
struct Joined {
    cluster_bits: u32,
    features: u64,
    offset: u64,
    numbers: &'static [u64],
    extents: &'static [Part],
}

const SMALL: [Joined; 5] = [
    Joined {
        cluster_bits: 9,
        features: 0,
        offset: 0x2000,
        numbers: &[],
        extents: &[],
    },
    // in consecutive clusters, whatever the copied flags are
    Joined {
        cluster_bits: 9,
        features: 0,
        offset: 0x2000,
        numbers: &[COPIED + 0x400, 0x600, COPIED + 0x800],
        extents: &[(1, 0x2000, 0x600, 0x400)],
    },
    Joined {
        cluster_bits: 9,
        features: 0,
        offset: 0,
        numbers: &[0x400, 0xa00, 0x400, 0x600],
        extents: &[
            (1, 0, 0x200, 0x400),
            (1, 0x200, 0x200, 0xa00),
            (1, 0x400, 0x400, 0x400),
        ],
    },
    // zeros with and without a host cluster, and data in the cluster that would continue the zeros
    Joined {
        cluster_bits: 9,
        features: 0,
        offset: 0,
        numbers: &[1, COPIED + 1, 0x401, 0x601, 0x401, 0x600],
        extents: &[
            (2, 0, 0x400, 0),
            (3, 0x400, 0x400, 0x400),
            (3, 0x800, 0x200, 0x400),
            (1, 0xa00, 0x200, 0x600),
        ],
    },
    // host offset 0 means no cluster, with or without the copied flag
    Joined {
        cluster_bits: 9,
        features: 0,
        offset: 0x200,
        numbers: &[0, COPIED, 0x200, COPIED + 0x400, 0],
        extents: &[
            (0, 0x200, 0x400, 0x200),
            (1, 0x600, 0x400, 0x200),
            (0, 0xa00, 0x200, 0xa00),
        ],
    },
];

const OTHER: [Joined; 5] = [
    // compressed data joins wherever it lies
    Joined {
        cluster_bits: 9,
        features: 0,
        offset: 0,
        numbers: &[0x400, COMPRESSED + 0x600, COMPRESSED + 5, 0x800],
        extents: &[
            (1, 0, 0x200, 0x400),
            (4, 0x200, 0x400, 0x600),
            (1, 0x600, 0x200, 0x800),
        ],
    },
    // cluster 0 of an external data file
    Joined {
        cluster_bits: 9,
        features: 4,
        offset: 0,
        numbers: &[0, COPIED, COPIED + 0x200, 0x400, 0],
        extents: &[
            (0, 0, 0x200, 0),
            (1, 0x200, 0x600, 0),
            (0, 0x800, 0x200, 0x800),
        ],
    },
    Joined {
        cluster_bits: 9,
        features: 4,
        offset: 0,
        numbers: &[COPIED + 1, 1, 1, COPIED + 1],
        extents: &[(3, 0, 0x200, 0), (2, 0x200, 0x400, 0), (3, 0x600, 0x200, 0)],
    },
    // the largest offsets
    Joined {
        cluster_bits: 21,
        features: 0,
        offset: 1 << 55,
        numbers: &[0x00ff_ffff_ffe0_0000, 0],
        extents: &[
            (1, 1 << 55, 1 << 21, 0x00ff_ffff_ffe0_0000),
            (0, (1 << 55) + (1 << 21), 1 << 21, (1 << 55) + (1 << 21)),
        ],
    },
    Joined {
        cluster_bits: 9,
        features: 0,
        offset: u64::MAX - 0x3ff,
        numbers: &[0],
        extents: &[(0, u64::MAX - 0x3ff, 0x200, u64::MAX - 0x3ff)],
    },
];

fn check_joined(alloc: Global, row: Joined) -> Result<(), Fail> {
    let bytes = table_bytes(alloc, row.numbers)?;
    let mut places = vec![in alloc; extent(OLD); 8]?;
    let fields = fields(row.cluster_bits, row.features);
    let found = l2_extents(&bytes, &fields, row.offset, &mut places);
    same(found, Ok(row.extents.len()), row)?;
    check_places(&places, row.extents, row)
}

#[test]
fn small_tables_join_to_extents(rt: HostRuntime) -> Result<(), Fail> {
    each(rt.alloc(), &SMALL, check_joined)
}

#[test]
fn other_tables_join_to_extents(rt: HostRuntime) -> Result<(), Fail> {
    each(rt.alloc(), &OTHER, check_joined)
}

const FOUR: &[u64] = &[1, 0x400, 0x600, 0, COMPRESSED];

const FOUR_EXTENTS: &[Part] = &[
    (2, 0, 0x200, 0),
    (1, 0x200, 0x400, 0x400),
    (0, 0x600, 0x200, 0x600),
    (4, 0x800, 0x200, 0),
];

fn check_room(alloc: Global, (room, count): (usize, usize)) -> Result<(), Fail> {
    let bytes = table_bytes(alloc, FOUR)?;
    let mut places = vec![in alloc; extent(OLD); room]?;
    let found = l2_extents(&bytes, &fields(9, 0), 0, &mut places);
    same(found, Ok(count), room)?;
    check_places(&places, part_of(FOUR_EXTENTS, 0, count)?, room)
}

#[test]
fn as_many_extents_are_joined_as_there_is_room_for(rt: HostRuntime) -> Result<(), Fail> {
    let rows: &[(usize, usize)] = rows! { (0, 0), (1, 1), (3, 3), (4, 4), (6, 4) };
    each(rt.alloc(), rows, check_room)
}

// The number of passed bytes of a table that has one entry of data and then equal ones, and the number of
// extents, or the fault.
#[derive(Clone, Copy, Debug)]
struct Refused {
    cluster_bits: u32,
    features: u64,
    offset: u64,
    len: usize,
    others: u64,
    found: Result<usize, Fault>,
}

// The last offset of a cluster of 512 bytes.
const LAST: u64 = u64::MAX - 511;

// Bits 62 and 56.
const HIGH: u64 = 0x4100 << 48;

const REFUSED: &[Refused] = rows! { Refused:
    { cluster_bits: 8, features: 1, offset: 1, len: 7, others: 2, found: Err(Fault::ClusterSize) },
    { cluster_bits: 22, features: 0, offset: 0, len: 8, others: 0, found: Err(Fault::ClusterSize) },
    { cluster_bits: 9, features: 17, offset: 1, len: 7, others: 2, found: Err(Fault::Incompatible(16)) },
    { cluster_bits: 9, features: 0, offset: 0, len: 7, others: 2, found: Err(Fault::WrongLength) },
    { cluster_bits: 9, features: 0, offset: 0, len: 513, others: 0, found: Err(Fault::WrongLength) },
    { cluster_bits: 9, features: 0, offset: 0, len: 512, others: 0, found: Ok(2) },
    { cluster_bits: 9, features: 0, offset: 0, len: 520, others: 2, found: Err(Fault::WrongLength) },
    { cluster_bits: 10, features: 0, offset: 0, len: 520, others: 0, found: Ok(2) },
    { cluster_bits: 10, features: 0, offset: 0x200, len: 520, others: 2, found: Err(Fault::WrongLength) },
    { cluster_bits: 9, features: 0, offset: u64::MAX, len: 0, others: 0, found: Err(Fault::WrongLength) },
    { cluster_bits: 9, features: 0, offset: LAST, len: 0, others: 2, found: Ok(0) },
    { cluster_bits: 9, features: 0, offset: LAST, len: 8, others: 2, found: Err(Fault::WrongLength) },
    { cluster_bits: 9, features: 0, offset: LAST - 512, len: 16, others: 2, found: Err(Fault::WrongLength) },
    { cluster_bits: 9, features: 0, offset: 0, len: 512, others: 2, found: Err(Fault::EntryReserved) },
    { cluster_bits: 10, features: 0, offset: 0, len: 512, others: 0x200, found: Err(Fault::EntryUnaligned) },
    { cluster_bits: 9, features: 0, offset: 0, len: 512, others: 3 << 62, found: Err(Fault::EntryReserved) },
    { cluster_bits: 9, features: 0, offset: 0, len: 512, others: HIGH, found: Err(Fault::EntryReserved) },
    { cluster_bits: 13, features: 0, offset: 0, len: 16, others: HIGH, found: Err(Fault::EntryReserved) },
    { cluster_bits: 14, features: 0, offset: 0, len: 16, others: HIGH, found: Ok(2) },
    { cluster_bits: 9, features: 0, offset: 0, len: 16, others: 1 << 56, found: Err(Fault::EntryReserved) },
    { cluster_bits: 9, features: 0, offset: 0, len: 16, others: 1 << 61, found: Err(Fault::EntryReserved) },
};

fn check_refused(alloc: Global, row: Refused) -> Result<(), Fail> {
    let mut bytes = table_bytes(alloc, &[COPIED + (1 << 14)])?;
    for _ in 0..65 {
        bytes.extend_from_slice(&row.others.to_be_bytes())?;
    }
    let mut places = vec![in alloc; extent(OLD); 2]?;
    let fields = fields(row.cluster_bits, row.features);
    let found = l2_extents(
        part_of(&bytes, 0, row.len)?,
        &fields,
        row.offset,
        &mut places,
    );
    same(found, row.found, row)?;
    if found.is_err() {
        check_places(&places, &[], row)?;
    }
    Ok(())
}

#[test]
fn what_is_no_part_of_a_table_is_refused(rt: HostRuntime) -> Result<(), Fail> {
    each(rt.alloc(), REFUSED, check_refused)
}

// A whole table of consecutive host clusters from cluster 5 on, except that it skips one before an entry.
#[derive(Clone, Copy, Debug)]
struct Row {
    cluster_bits: u32,
    entries: u64,
    gap: u64,
}

const ROWS: &[Row] = rows! { Row:
    { cluster_bits: 9, entries: 64, gap: 1 }, { cluster_bits: 9, entries: 64, gap: 16 },
    { cluster_bits: 9, entries: 64, gap: 17 }, { cluster_bits: 9, entries: 64, gap: 18 },
    { cluster_bits: 9, entries: 64, gap: 63 }, { cluster_bits: 16, entries: 8192, gap: 80 },
    { cluster_bits: 16, entries: 8192, gap: 81 }, { cluster_bits: 16, entries: 8192, gap: 82 },
    { cluster_bits: 16, entries: 8192, gap: 8191 }, { cluster_bits: 21, entries: 262144, gap: 262143 },
};

// Returns the host cluster of an entry.
fn cluster_of(row: Row, index: u64) -> u64 {
    let gap = (index >= row.gap) as u64;
    index.saturating_add(5 + gap)
}

fn row_bytes(alloc: Global, row: Row) -> Result<Vec<u8>, AllocError> {
    let mut bytes = Vec::new(alloc);
    for index in 0..row.entries {
        let number = cluster_of(row, index).wrapping_shl(row.cluster_bits);
        bytes.extend_from_slice(&number.to_be_bytes())?;
    }
    Ok(bytes)
}

fn check_row(alloc: Global, row: Row) -> Result<(), Fail> {
    let bytes = row_bytes(alloc, row)?;
    let mut places = vec![in alloc; extent(OLD); 3]?;
    let found = l2_extents(&bytes, &fields(row.cluster_bits, 0), 0, &mut places);
    same(found, Ok(2), row)?;
    let bytes_of = |clusters: u64| clusters.wrapping_shl(row.cluster_bits);
    let (before, after) = (
        bytes_of(row.gap),
        bytes_of(row.entries.saturating_sub(row.gap)),
    );
    let second = bytes_of(cluster_of(row, row.gap));
    check_places(
        &places,
        &[(1, 0, before, bytes_of(5)), (1, before, after, second)],
        row,
    )
}

#[test]
fn rows_of_clusters_join_up_to_a_gap(rt: HostRuntime) -> Result<(), Fail> {
    each(rt.alloc(), ROWS, check_row)
}

// Checks the largest table, whose entries are all zeros but the last.
fn check_largest(alloc: Global, (last, found): (u64, Result<usize, Fault>)) -> Result<(), Fail> {
    let mut bytes = Vec::new(alloc);
    for _ in 0..262143 {
        bytes.extend_from_slice(&1u64.to_be_bytes())?;
    }
    bytes.extend_from_slice(&last.to_be_bytes())?;
    let mut places = vec![in alloc; extent(OLD); 2]?;
    same(
        l2_extents(&bytes, &fields(21, 0), 0, &mut places),
        found,
        last,
    )
}

#[test]
fn the_last_entry_of_the_largest_table_is_looked_at(rt: HostRuntime) -> Result<(), Fail> {
    let rows: &[(u64, Result<usize, Fault>)] = rows! {
        (1, Ok(1)), (0, Ok(2)), (2, Err(Fault::EntryReserved)), (1 << 20, Err(Fault::EntryUnaligned)),
    };
    each(rt.alloc(), rows, check_largest)
}
