//! Lookups of guest offsets: by each kind of entry, and in damaged images, with their faults.

use Answer::{Backing, Compressed, Data, Refused, Zeros};
use qcow2_base::{Fault, GuestOffset, HostCluster, MemStorage};
use qcow2_calls::{load_header, load_table};
use qcow2_metadata::L2Mapping;
use qcow2_session_calls::{lookup, lookup_image};
use qcow2_testing::sample_image::sample_image;
use qcow2_testing::{
    COPIED, FailingStorage, Numbers, StorageCall, each, part_of, rows, same, same_bytes,
};
use std::alloc::Global;
use std::fmt::Debug;
use std::test::Fail;

// The result of a lookup: a mapping in numbers, or a fault.
#[derive(Clone, Copy, Debug, PartialEq, Eq)]
enum Answer {
    Data(u64, bool),
    Zeros(Option<HostCluster>, bool),
    Compressed(u64, u64),
    Backing(u64),
    Refused(Fault),
}

// Guest offsets, and the mapping of each one's cluster.
type Offsets<'a> = &'a [(u64, Answer)];

// Changes of the sample image, and the mappings of offsets.
#[derive(Clone, Copy)]
struct Row {
    name: &'static str,
    cluster_bits: u32,
    changes: Numbers<'static>,
    offsets: Offsets<'static>,
}

const ROW: Row = Row {
    name: "",
    cluster_bits: 9,
    changes: &[],
    offsets: ABSENT,
};

const ROWS: &[Row] = rows! {
    Row { name: "one cluster of data",
        offsets: &[(1535, Backing(1024)), (1536, Data(5, true)), (2047, Data(5, true)), (2048, Backing(2048)),
        (32768, Backing(32768)), (u64::MAX, Backing(0xffff_ffff_ffff_fe00))],
        ..ROW },
    Row { name: "the first entry of an L2 table, the last and one between, in clusters of 2 MiB",
        cluster_bits: 21, changes: &[(0x40_0000, 0x60_0000), (0x5f_fff8, 0x80_0000)],
        offsets: &[(0x1f_ffff, Data(3, false)), (0x7f_ffff, Data(5, true)), (0x80_0000, Backing(0x80_0000)),
        (0x7f_ffff_ffff, Data(4, false)), (0x80_0000_0000, Backing(0x80_0000_0000)),
        (u64::MAX, Backing(0xffff_ffff_ffe0_0000))],
        ..ROW },
    Row { name: "data past 2^40, in clusters of 2 MiB", cluster_bits: 21,
        changes: &[(32, 3), (0x20_0010, 0x40_0000)],
        offsets: &[(0x100_0060_0000, Data(5, true)), (0x100_0080_0000, Backing(0x100_0080_0000))], ..ROW },
    Row { name: "a second L2 table, behind the image's end", changes: &[(32, 2), (520, COPIED + 0x600)],
        offsets: &[(1543, Data(5, true)), (34311, Backing(34304))], ..ROW },
    Row { name: "the second L1 entry alone", changes: &[(32, 2), (512, 0), (520, 0x400)],
        offsets: &[(1543, Backing(1536)), (34311, Data(5, true))], ..ROW },
    Row { name: "an L2 table at the end of 2^56", changes: &[(512, 0x80ff_ffff_ffff_fe00)], ..ROW },
    Row { name: "no L1 entry", changes: &[(32, 0)], ..ROW },
    Row { name: "no L1 entry, at 2^56", changes: &[(32, 0), (40, 1 << 56)], ..ROW },
    Row { name: "a disk of 0 bytes", changes: &[(24, 0)], offsets: &[(1543, Data(5, true))], ..ROW },
    Row { name: "data that isn't copied", changes: &[(1048, 0xa00)], offsets: &[(1543, Data(5, false))],
        ..ROW },
    Row { name: "zeros", changes: &[(1048, COPIED + 1)], offsets: &[(1543, Zeros(None, false))], ..ROW },
    Row { name: "zeros with a cluster", changes: &[(1048, 0xa01)],
        offsets: &[(1543, Zeros(Some(HostCluster(5)), false))], ..ROW },
    Row { name: "no data", changes: &[(1048, COPIED)], ..ROW },
    Row { name: "data in external cluster 0", changes: &[(72, 4), (1048, COPIED)],
        offsets: &[(1543, Data(0, true))], ..ROW },
    Row { name: "compressed", changes: &[(1048, 0x6000_0000_0000_0601)],
        offsets: &[(1543, Compressed(0x601, 1023))], ..ROW },
};

// Damaged images. The first bad part decides the fault.
const DAMAGED: &[Row] = rows! {
    Row { name: "no qcow2 image", changes: &[(0, 0x5146_49fa_0000_0003), (512, 1)],
        offsets: &[(1543, Refused(Fault::NotQcow2))], ..ROW },
    Row { name: "an unknown feature", changes: &[(72, 8)], offsets: &[(0, Refused(Fault::Incompatible(8)))],
        ..ROW },
    Row { name: "an unaligned L1 table", cluster_bits: 16, changes: &[(40, 0x1_0200)],
        offsets: &[(0, Refused(Fault::L1Unaligned))], ..ROW },
    Row { name: "2^32 - 1 L1 entries", changes: &[(32, 0xffff_ffff)],
        offsets: &[(1543, Refused(Fault::TableTooBig)), (u64::MAX, Refused(Fault::TableTooBig))], ..ROW },
    Row { name: "an L1 table at 2^56", changes: &[(40, 1 << 56)], offsets: TOO_FAR, ..ROW },
    Row { name: "an L1 table of no entry past 2^56", changes: &[(32, 0), (40, (1 << 56) + 512)],
        offsets: TOO_FAR, ..ROW },
    Row { name: "a bad L1 entry", changes: &[(32, 2), (520, 1)],
        offsets: &[(1543, RESERVED), (u64::MAX, RESERVED)], ..ROW },
    Row { name: "one past the table", changes: &[(520, 1)], offsets: &[(32768, Backing(32768))], ..ROW },
    Row { name: "an unaligned L2 table", cluster_bits: 16, changes: &[(0x1_0000, COPIED + 0x2_0200)],
        offsets: &[(u64::MAX, UNALIGNED)], ..ROW },
    Row { name: "a bad L2 entry", changes: &[(1528, 2)],
        offsets: &[(0, RESERVED), (32767, RESERVED), (32768, Backing(32768))], ..ROW },
    Row { name: "data that begins in a cluster, and then a bad entry", cluster_bits: 16,
        changes: &[(0x2_0018, 0x200), (0x2_0020, 2)],
        offsets: &[(0, UNALIGNED), (0x2000_0000, Backing(0x2000_0000))], ..ROW },
};

const RESERVED: Answer = Refused(Fault::EntryReserved);

const UNALIGNED: Answer = Refused(Fault::EntryUnaligned);

const ABSENT: Offsets<'static> = &[(0, Backing(0)), (1543, Backing(1536))];

const TOO_FAR: Offsets<'static> =
    rows! { (1543, Refused(Fault::TablePlace)), (u64::MAX, Refused(Fault::TablePlace)) };

// Lengths in bytes of the truncated sample image, from a first one to before an end, and the result of a
// lookup. Zeros follow a truncated image, so the entry needs no byte after its last one that isn't 0.
const CUTS: &[(usize, usize, Answer)] = &[
    (0, 4, Refused(Fault::NotQcow2)),
    (4, 8, Refused(Fault::Version)),
    (8, 24, Refused(Fault::ClusterSize)),
    (24, 104, Refused(Fault::HeaderShort)),
    (104, 1055, Backing(1536)),
    (1055, 1537, Data(5, true)),
];

#[test]
fn each_offset_reads_as_the_image_says(rt: HostRuntime) -> Result<(), Fail> {
    each(rt.alloc(), ROWS, check_row)?;
    each(rt.alloc(), DAMAGED, check_row)
}

fn check_row(alloc: Global, row: Row) -> Result<(), Fail> {
    let image = sample_image(alloc, row.cluster_bits, row.changes)?;
    check_offsets(alloc, image.bytes(), row.offsets, row.name)
}

#[test]
fn an_image_that_is_cut_off_reads_as_if_zeros_followed(rt: HostRuntime) -> Result<(), Fail> {
    let image = sample_image(rt.alloc(), 9, &[])?;
    for cut in CUTS {
        check_cuts(rt.alloc(), image.bytes(), *cut)?;
    }
    Ok(())
}

fn check_cuts(
    alloc: Global,
    image: &[u8],
    (first, end, expected): (usize, usize, Answer),
) -> Result<(), Fail> {
    for len in first..end {
        check_offsets(alloc, part_of(image, 0, len)?, &[(1543, expected)], len)?;
    }
    Ok(())
}

// Looks offsets up by the image alone, and by its header and its L1 table, and checks that no byte changes.
fn check_offsets<R: Debug + Copy + Drop>(
    alloc: Global,
    bytes: &[u8],
    offsets: Offsets<'_>,
    row: R,
) -> Result<(), Fail> {
    let mut image = MemStorage::new(Vec::from_slice(alloc, bytes)?);
    for (offset, expected) in offsets {
        let guest_offset = GuestOffset(*offset);
        let alone = answer_of(lookup_image(alloc, &mut image, guest_offset));
        let by_tables = answer_of(by_tables(alloc, &mut image, guest_offset));
        same((alone, by_tables), (*expected, *expected), (row, *offset))?;
    }
    same_bytes(image.bytes(), bytes, row)
}

// Looks an offset up by the header and the L1 table of an image, which it loads first.
fn by_tables(
    alloc: Global,
    image: &mut MemStorage,
    offset: GuestOffset,
) -> Result<L2Mapping, Fault> {
    let header = load_header(alloc, image, false)?;
    let cluster = header.l1_table_offset().cluster(header.cluster_bits());
    let l1_table = load_table(alloc, image, &header, cluster, header.l1_table_entries())?;
    lookup(alloc, image, &header, &l1_table, offset)
}

fn answer_of(found: Result<L2Mapping, Fault>) -> Answer {
    match found {
        Ok(mapping) => read_as(mapping),
        Err(fault) => Refused(fault),
    }
}

fn read_as(mapping: L2Mapping) -> Answer {
    match mapping {
        L2Mapping::DataFile {
            host_cluster,
            copied,
        } => Data(host_cluster.0, copied),
        L2Mapping::Zero {
            host_cluster,
            copied,
        } => Zeros(host_cluster, copied),
        L2Mapping::Compressed {
            host_offset,
            length,
        } => Compressed(host_offset.0, length.get()),
        L2Mapping::Backing { backing_offset } => Backing(backing_offset),
    }
}

// The reads of the sample image's two tables.
const TABLES: &[StorageCall] = rows! {
    StorageCall::Read { offset: 512, len: 8 },
    StorageCall::Read { offset: 1024, len: 512 },
};

#[test]
fn a_lookup_reads_the_header_and_one_table_of_each_kind(rt: HostRuntime) -> Result<(), Fail> {
    check_reads(rt.alloc(), 1543, 2)?;
    check_reads(rt.alloc(), 32768, 1)
}

// Fails unless a lookup reads the header by two calls, and then that many tables.
fn check_reads(alloc: Global, offset: u64, tables: usize) -> Result<(), Fail> {
    let mut image = FailingStorage::new(alloc, sample_image(alloc, 9, &[])?);
    let answer = lookup_image(alloc, &mut image, GuestOffset(offset));
    let header = image.calls.len().saturating_sub(tables);
    let found = (answer.err(), header, image.calls.get(header..));
    same(found, (None, 2, TABLES.get(..tables)), offset)
}
