//! Extents of disks: adjacent kinds of content, borders of clusters, of tables and of the disk, and the
//! faults of damaged tables.

use Content::{Absent, Compressed, Zeros};
use qcow2_base::{Fault, GuestOffset, HostOffset, Storage};
use qcow2_calls::load_header;
use qcow2_metadata::Header;
use qcow2_session::{Content, Extent, Extents};
use qcow2_testing::sample_image::{check_sample, sample_image};
use qcow2_testing::{COPIED, FailingStorage, Numbers, each, rows, same};
use std::alloc::Global;
use std::fmt::Debug;
use std::test::Fail;

// The length of an extent in bytes, and its content.
type Part = (u64, Content);

// Make an extent of data from a host offset on, and one of zeros that keep host clusters.
macro_rules! data {
    ($length:expr, $offset:expr) => {
        ($length, Content::Data(HostOffset($offset)))
    };
}

macro_rules! allocated {
    ($length:expr, $offset:expr) => {
        ($length, Content::AllocatedZeros(HostOffset($offset)))
    };
}

// Changes of the sample image, its extents, and the fault that ends them.
#[derive(Clone, Copy)]
struct Row {
    name: &'static str,
    cluster_bits: u32,
    changes: Numbers<'static>,
    parts: &'static [Part],
    fault: Option<Fault>,
}

const ROW: Row = Row {
    name: "",
    cluster_bits: 9,
    changes: &[],
    parts: &[],
    fault: None,
};

const ROWS: &[Row] = rows! {
    Row { name: "one cluster of data", parts: &[(1536, Absent), DATA, (30720, Absent)], ..ROW },
    Row { name: "a disk of 0 bytes", changes: &[(24, 0)], ..ROW },
    Row { name: "a disk of one byte", changes: &[(24, 1)], parts: &[(1, Absent)], ..ROW },
    Row { name: "to inside the data", changes: &[(24, 1537)], parts: &[(1536, Absent), data!(1, 0xa00)],
        ..ROW },
    Row { name: "to the data's end", changes: &[(24, 2048)], parts: &[(1536, Absent), DATA], ..ROW },
    // the largest disk, longer than its L1 table covers
    Row { name: "2^64 - 1", changes: &[(24, MAX)], parts: &[(1536, Absent), DATA, (MAX - 2048, Absent)],
        ..ROW },
    Row { name: "data in one host cluster after another, copied or not",
        changes: &[(1056, 0xc00), (1064, COPIED + 0xe00)],
        parts: &[(1536, Absent), data!(1536, 0xa00), (29696, Absent)], ..ROW },
    Row { name: "data backwards, with a hole, and shared",
        changes: &[(1056, 0x800), (1064, 0xc00), (1072, 0xc00)],
        parts: &[(1536, Absent), DATA, data!(512, 0x800), data!(512, 0xc00), data!(512, 0xc00),
        (29184, Absent)],
        ..ROW },
    Row { name: "zeros with clusters one after another, and without",
        changes: &[(1048, 0xa01), (1056, COPIED + 0xc01), (1064, 1), (1072, COPIED + 1), (1080, 0xe01)],
        parts: &[(1536, Absent), allocated!(1024, 0xa00), (1024, Zeros), allocated!(512, 0xe00),
        (28672, Absent)],
        ..ROW },
    Row { name: "compressed clusters of different places and lengths",
        changes: &[(1048, 0x4000_0000_0000_0601), (1056, 0x6000_0000_0000_0001)],
        parts: &[(1536, Absent), (1024, Compressed), (30208, Absent)], ..ROW },
    Row { name: "cluster 0 of an external data file, and the one after it",
        changes: &[(72, 4), (1040, 0), (1048, COPIED), (1056, 0x200), (1064, COPIED + 1)],
        parts: &[(1536, Absent), data!(1024, 0), allocated!(512, 0), (29696, Absent)], ..ROW },
    Row { name: "zeros without a cluster, and those of cluster 0 of an external data file",
        changes: &[(72, 4), (1048, 1), (1056, COPIED + 1), (1064, 1)],
        parts: &[(1536, Absent), (512, Zeros), allocated!(512, 0), (512, Zeros), (29696, Absent)], ..ROW },
};

// Disks of more than one L2 table, damaged ones, and large ones.
const OF_TABLES: &[Row] = rows! {
    Row { name: "data that goes on in the next L2 table",
        changes: &[(24, 65536), (32, 2), (520, 0x600), (1048, 0), (1528, 0xa00), (1536, 0xc00)],
        parts: &[(32256, Absent), data!(1024, 0xa00), (32256, Absent)], ..ROW },
    Row { name: "data that doesn't",
        changes: &[(24, 65536), (32, 2), (520, 0x600), (1048, 0), (1528, 0xa00), (1536, 0xa00)],
        parts: &[(32256, Absent), DATA, DATA, (32256, Absent)], ..ROW },
    Row { name: "the second L1 entry alone, of a table that is longer than the disk",
        changes: &[(24, 36000), (32, 4), (512, 0), (520, 0x400), (528, 0x200)],
        parts: &[(34304, Absent), DATA, (1184, Absent)], ..ROW },
    Row { name: "one L2 table twice", changes: &[(24, 65536), (32, 2), (520, 0x400)],
        parts: &[(1536, Absent), DATA, (32256, Absent), DATA, (30720, Absent)], ..ROW },
    // bad entries: after the disk's end in its last table, in a table after it, and in the second table
    Row { name: "in the last table", changes: &[(24, 1536), (1528, 2)], fault: RESERVED, ..ROW },
    Row { name: "in a table behind the disk's end", changes: &[(24, 32768), (32, 2), (520, 0x600), (1536, 2)],
        parts: &[(1536, Absent), DATA, (30720, Absent)], ..ROW },
    Row { name: "in the second table",
        changes: &[(24, 65536), (32, 2), (520, 0x600), (1536, 0x201), (1544, 2)],
        parts: &[(1536, Absent), DATA], fault: RESERVED, ..ROW },
    Row { name: "data past 2^40, in clusters of 2 MiB", cluster_bits: 21,
        changes: &[(24, 0x100_0100_0000), (32, 3), (0x20_0000, 0), (0x20_0010, 0x40_0000)],
        parts: &[(0x100_0060_0000, Absent), data!(0x20_0000, 0xa0_0000), (0x80_0000, Absent)], ..ROW },
    Row { name: "whole tables, in clusters of 64 KiB", cluster_bits: 16,
        changes: &[(24, 0x4000_0001), (32, 2), (0x1_0008, 0x2_0000)],
        parts: &[(0x3_0000, Absent), data!(0x1_0000, 0x5_0000), (0x1fff_0000, Absent),
        data!(0x1_0000, 0x5_0000), (0x1ffc_0001, Absent)],
        ..ROW },
};

const DATA: Part = data!(512, 0xa00);

const MAX: u64 = u64::MAX;

const RESERVED: Option<Fault> = Some(Fault::EntryReserved);

#[test]
fn each_disk_is_told_as_extents(rt: HostRuntime) -> Result<(), Fail> {
    each(rt.alloc(), ROWS, check_row)?;
    each(rt.alloc(), OF_TABLES, check_row)
}

// Checks the extents of a row's image, and that no byte changes.
fn check_row(alloc: Global, row: Row) -> Result<(), Fail> {
    let mut image = sample_image(alloc, row.cluster_bits, row.changes)?;
    check_extents(
        alloc,
        &mut image,
        row.parts,
        (row.fault, row.fault),
        row.name,
    )?;
    check_sample(
        alloc,
        image.bytes(),
        (row.cluster_bits, row.changes),
        row.name,
    )
}

// Returns the extents of an image, and the faults on the way. It repeats a refused call, and ends at the
// second refusal.
fn extents_of<S: Storage>(
    alloc: Global,
    image: &mut S,
) -> Result<(Vec<Extent>, Vec<Fault>), Fault> {
    let header = load_header(alloc, image, false)?;
    read_extents(alloc, image, &header)
}

fn read_extents<S: Storage>(
    alloc: Global,
    image: &mut S,
    header: &Header,
) -> Result<(Vec<Extent>, Vec<Fault>), Fault> {
    let mut extents = Extents::new(alloc, image, header)?;
    let mut told = Vec::new(alloc);
    let mut faults = Vec::new(alloc);
    while faults.len() < 2 {
        match extents.next(image) {
            Ok(Some(extent)) => told.push(extent)?,
            Ok(None) => break,
            Err(fault) => faults.push(fault)?,
        }
    }
    Ok((told, faults))
}

// Fails unless an image has these extents, and reading them meets these faults.
fn check_extents<S: Storage, R: Debug + Copy + Drop>(
    alloc: Global,
    image: &mut S,
    parts: &[Part],
    faults: (Option<Fault>, Option<Fault>),
    row: R,
) -> Result<(), Fail> {
    let (extents, found) = extents_of(alloc, image)?;
    same((found.first().copied(), found.get(1).copied()), faults, row)?;
    check_parts(&extents, parts, row)
}

// Compares extents, which must be contiguous from offset 0 on.
fn check_parts<R: Debug + Copy + Drop>(
    extents: &[Extent],
    parts: &[Part],
    row: R,
) -> Result<(), Fail> {
    same(extents.len(), parts.len(), row)?;
    let mut start = 0u64;
    for (extent, (length, content)) in extents.iter().zip(parts) {
        let expected = Extent {
            start: GuestOffset(start),
            length: *length,
            content: *content,
        };
        same(*extent, expected, row)?;
        start = start.saturating_add(*length);
    }
    Ok(())
}

// A disk of two L2 tables, its extents, and the number of reads that find them: two of the header, one of the
// L1 table, and one of each L2 table.
const TWO_TABLES: Numbers<'static> = &[(24, 65536), (32, 2), (520, 0x600)];

const PARTS: &[Part] = &[(1536, Absent), DATA, (63488, Absent)];

const READS: u64 = 5;

#[test]
fn a_failed_read_is_made_again(rt: HostRuntime) -> Result<(), Fail> {
    for failing in 0..=READS {
        check_read_again(rt.alloc(), failing)?;
    }
    Ok(())
}

// Checks the extents if a read fails. Only reads of L2 tables are repeated.
fn check_read_again(alloc: Global, failing: u64) -> Result<(), Fail> {
    let mut image = FailingStorage::new(alloc, sample_image(alloc, 9, TWO_TABLES)?);
    image.plan = Some(failing);
    if failing < 3 {
        let answer = extents_of(alloc, &mut image);
        return same(answer.err(), Some(Fault::Storage), failing);
    }
    let fault = (failing < READS).then_some(Fault::Storage);
    check_extents(alloc, &mut image, PARTS, (fault, None), failing)
}

// Changes of the sample image, and the number of storage calls that find its extents, two of them for its
// header.
type Calls = (&'static str, Numbers<'static>, usize);

const CALLS: &[Calls] = rows! {
    ("no L2 table", &[(512, 0)], 2 + 1),
    ("two L2 tables", TWO_TABLES, 2 + 3),
    ("one of them behind the disk's end", &[(24, 32768), (32, 2), (520, 0x600)], 2 + 2),
    ("one L2 table twice", &[(24, 65536), (32, 2), (520, 0x400)], 2 + 2),
};

#[test]
fn a_table_is_read_once_and_not_behind_the_disk(rt: HostRuntime) -> Result<(), Fail> {
    each(rt.alloc(), CALLS, check_calls)
}

fn check_calls(alloc: Global, (name, changes, calls): Calls) -> Result<(), Fail> {
    let mut image = FailingStorage::new(alloc, sample_image(alloc, 9, changes)?);
    extents_of(alloc, &mut image)?;
    same(image.calls.len(), calls, name)
}
