//! Extents of the disk of a whole image in memory: as many as there is room for, from any offset on, and
//! those before a fault.

use crate::calls::image_extents;
use qcow2_base::{Fault, MemStorage};
use qcow2_bytes::{CutShort, ExtentFields};
use qcow2_testing::sample_image::{
    LARGER, LAST_ENTRY, NEXT_ENTRY, NEXT_TABLE, THIRD_ENTRY, TWO_TABLES, sample_image,
};
use qcow2_testing::{
    COMPRESSED, COPIED, Numbers, VERSION_3, each, image_with, part_of, put_all, rows, same,
};
use std::alloc::Global;
use std::test::Fail;

// The sample image with a disk of two L2 tables of 64 entries each, the second of which is cluster 3.
const IMAGE: Numbers<'static> = &[
    LARGER,
    TWO_TABLES,
    (NEXT_TABLE, 0x600),
    (NEXT_ENTRY, 0xc00),
    (THIRD_ENTRY, 1),
    (0x430, 0xe01),
    (0x438, COMPRESSED + 0x801),
    (0x440, COMPRESSED + 0x901),
    (LAST_ENTRY, 0x1000),
    (0x600, 0x1200),
    (0x7f8, 0),
];

// The kind, the guest offset, the length and the offset of an extent.
type Part = (u32, u64, u64, u64);

const PARTS: [Part; 8] = [
    (0, 0, 0x600, 0),
    (1, 0x600, 0x400, 0xa00),
    (2, 0xa00, 0x200, 0),
    (3, 0xc00, 0x200, 0xe00),
    (4, 0xe00, 0x400, 0),
    (0, 0x1200, 0x6c00, 0x1200),
    // continues in the second table
    (1, 0x7e00, 0x400, 0x1000),
    (0, 0x8200, 0x7e00, 0x8200),
];

// Changes of the image, the number of its bytes that are passed, the first offset, the room for extents, how
// many extents of the whole disk are expected, which other ones, and the fault.
#[derive(Clone, Copy, Debug)]
struct Row {
    changes: Numbers<'static>,
    len: usize,
    from: u64,
    room: usize,
    first: usize,
    others: &'static [Part],
    fault: Option<Fault>,
}

const ROW: Row = Row {
    changes: &[],
    len: 0x800,
    from: 0,
    room: 20,
    first: 0,
    others: &[],
    fault: None,
};

const ROWS: &[Row] = rows! {
    Row { first: 8, ..ROW },
    Row { room: 8, first: 8, ..ROW },
    Row { room: 7, first: 7, ..ROW },
    Row { room: 1, first: 1, ..ROW },
    Row { room: 0, ..ROW },
    // marked dirty and corrupt
    Row { changes: &[(72, 3)], first: 8, ..ROW },
    // from the middle of an extent
    Row { from: 0x700, room: 1, others: &[(1, 0x700, 0x300, 0xb00)], ..ROW },
    Row { from: 0xa01, room: 1, others: &[(2, 0xa01, 0x1ff, 0)], ..ROW },
    Row { from: 0xd00, room: 1, others: &[(3, 0xd00, 0x100, 0xf00)], ..ROW },
    Row { from: 0x1001, room: 1, others: &[(4, 0x1001, 0x1ff, 0)], ..ROW },
    Row { from: 0x8100, others: &[(1, 0x8100, 0x100, 0x1300), (0, 0x8200, 0x7e00, 0x8200)], ..ROW },
    Row { from: 0xffff, others: &[(0, 0xffff, 1, 0xffff)], ..ROW },
    // at or past the disk's end
    Row { from: 0x1_0000, ..ROW },
    Row { from: u64::MAX, ..ROW },
    Row { changes: &[(24, 0)], ..ROW },
    Row { changes: &[(24, 0x7ff)], others: &[(0, 0, 0x600, 0), (1, 0x600, 0x1ff, 0xa00)], ..ROW },
    // the image reads as zeros past its last byte
    Row { len: 0x600, from: 0x8000, others: &[(0, 0x8000, 0x8000, 0x8000)], ..ROW },
    Row { len: 0x200, others: &[(0, 0, 0x1_0000, 0)], ..ROW },
};

const FAULTS: &[Row] = rows! {
    // the second table is read to find the end of the seventh extent
    Row { changes: &[(0x608, 2)], first: 6, fault: Some(Fault::EntryReserved), ..ROW },
    Row { changes: &[(0x608, 2)], room: 7, first: 6, fault: Some(Fault::EntryReserved), ..ROW },
    Row { changes: &[(0x608, 2)], room: 6, first: 6, ..ROW },
    Row { changes: &[(0x608, 2)], from: 0xffff, room: 1, fault: Some(Fault::EntryReserved), ..ROW },
    // a bad first table isn't read if the list begins in the second
    Row { changes: &[(0x408, 2)], from: 0x8200, others: &[(0, 0x8200, 0x7e00, 0x8200)], ..ROW },
    // faults of the L1 table and of the header
    Row { changes: &[(0x208, 0x601)], room: 0, fault: Some(Fault::EntryReserved), ..ROW },
    Row { changes: &[(0x208, 1 << 56)], from: u64::MAX, fault: Some(Fault::EntryReserved), ..ROW },
    Row { changes: &[(32, 0xffff_ffff)], fault: Some(Fault::TableTooBig), ..ROW },
    Row { changes: &[(16, 8)], fault: Some(Fault::ClusterSize), ..ROW },
    Row { changes: &[(72, 16)], fault: Some(Fault::Incompatible(16)), ..ROW },
    Row { len: 0, fault: Some(Fault::NotQcow2), ..ROW },
};

// An element of the list before the call.
const OLD: ExtentFields = ExtentFields {
    kind: 9,
    reserved: 9,
    guest_offset: 9,
    length: 9,
    offset: 9,
};

fn fields((kind, guest_offset, length, offset): Part) -> ExtentFields {
    ExtentFields {
        kind,
        reserved: 0,
        guest_offset,
        length,
        offset,
    }
}

// Returns the list that a row expects: its extents, and then unchanged elements.
fn expected(alloc: Global, row: &Row) -> Result<Vec<ExtentFields>, Fail> {
    let mut list = Vec::new(alloc);
    for part in PARTS.iter().take(row.first).chain(row.others) {
        list.push(fields(*part))?;
    }
    for _ in list.len()..row.room {
        list.push(OLD)?;
    }
    Ok(list)
}

fn image(alloc: Global, changes: Numbers<'static>) -> Result<MemStorage, Fault> {
    let mut image = sample_image(alloc, 9, IMAGE)?;
    put_all(&mut image, changes)?;
    Ok(image)
}

fn check_row(alloc: Global, row: Row) -> Result<(), Fail> {
    let image = image(alloc, row.changes)?;
    let mut list = vec![in alloc; OLD; row.room]?;
    let bytes = part_of(image.bytes(), 0, row.len)?;
    let found = image_extents(alloc, bytes, row.from, &mut list);
    let count = row.first.saturating_add(row.others.len());
    let end = match row.fault {
        Some(fault) => Err(CutShort { count, fault }),
        None => Ok(count),
    };
    same(found, end, row)?;
    same(list, expected(alloc, &row)?, row)
}

#[test]
fn extents_are_put_as_far_as_there_is_room(rt: HostRuntime) -> Result<(), Fail> {
    each(rt.alloc(), ROWS, check_row)
}

#[test]
fn extents_before_a_fault_are_put(rt: HostRuntime) -> Result<(), Fail> {
    each(rt.alloc(), FAULTS, check_row)
}

// The length of an image in bytes, its numbers, and its extents from an offset on.
#[derive(Clone, Copy, Debug)]
struct Large {
    name: &'static str,
    len: usize,
    numbers: Numbers<'static>,
    from: u64,
    parts: &'static [Part],
}

// Clusters of 64 KiB, and L2 tables of 8192 entries. The first and the last of 2048 L1 entries name the same
// table.
const TERABYTE: Numbers<'static> = &[
    (0, VERSION_3),
    (16, 16),
    (24, 0x100_0000_0000),
    (32, 2048),
    (40, 0x1_0000),
    (96, 0x4_0000_0068),
    (0x1_0000, COPIED + 0x2_0000),
    (0x1_3ff8, 0x2_0000),
    (0x2_0000, COPIED + 0x3_0000),
    (0x2_0008, 0x4_0000),
    (0x2_fff8, 1),
];

// Clusters of 2 MiB, and an L2 table of 2^18 entries.
const LARGE_CLUSTERS: Numbers<'static> = &[
    (0, VERSION_3),
    (16, 21),
    (24, 1 << 60),
    (32, 1),
    (40, 0x20_0000),
    (96, 0x4_0000_0068),
    (0x20_0000, 0x40_0000),
    (0x5f_fff8, 0x60_0000),
];

const LARGE: &[Large] = rows! { Large:
    { name: "a terabyte from its begin on", len: 0x3_0000, numbers: TERABYTE, from: 0, parts: &[
        (1, 0, 0x2_0000, 0x3_0000), (0, 0x2_0000, 0x1ffd_0000, 0x2_0000), (2, 0x1fff_0000, 0x1_0000, 0),
        (0, 0x2000_0000, 0xff_c000_0000, 0x2000_0000), (1, 0xff_e000_0000, 0x2_0000, 0x3_0000),
        (0, 0xff_e002_0000, 0x1ffd_0000, 0xff_e002_0000), (2, 0xff_ffff_0000, 0x1_0000, 0)] },
    { name: "a terabyte from its last table on", len: 0x3_0000, numbers: TERABYTE, from: 0xff_e001_0000,
        parts: &[(1, 0xff_e001_0000, 0x1_0000, 0x4_0000),
        (0, 0xff_e002_0000, 0x1ffd_0000, 0xff_e002_0000), (2, 0xff_ffff_0000, 0x1_0000, 0)] },
    { name: "clusters of 2 MiB", len: 0x60_0000, numbers: LARGE_CLUSTERS, from: 0x7f_ffdf_ffff, parts: &[
        (0, 0x7f_ffdf_ffff, 1, 0x7f_ffdf_ffff), (1, 0x7f_ffe0_0000, 0x20_0000, 0x60_0000),
        (0, 0x80_0000_0000, 0xfff_ff80_0000_0000, 0x80_0000_0000)] },
};

fn check_large(alloc: Global, row: Large) -> Result<(), Fail> {
    let image = image_with(alloc, row.len, row.numbers)?;
    let mut list = vec![in alloc; OLD; 10]?;
    let found = image_extents(alloc, image.bytes(), row.from, &mut list);
    same(found, Ok(row.parts.len()), row.name)?;
    for (index, part) in row.parts.iter().enumerate() {
        same(list.get(index).copied(), Some(fields(*part)), row.name)?;
    }
    same(list.last().copied(), Some(OLD), row.name)
}

#[test]
fn extents_of_disks_of_real_sizes_are_put(rt: HostRuntime) -> Result<(), Fail> {
    each(rt.alloc(), LARGE, check_large)
}
