//! Numbers as entries of tables, and their meaning.

use super::fixtures::{COPIED, DISK, Disk, EXTERNAL, header_with};
use super::l2_mapping::Reads::{Backing, Compressed, Data, Zeros};
use super::l2_mapping::{Reads, mapping_of};
use qcow2_base::{Fault, GuestCluster, HostOffset};
use qcow2_calls::header_of;
use qcow2_metadata::{AtomicL2Entry, Header, L1Entry, L2Entry, RefTableEntry, TableEntry};
use qcow2_testing::{all_same, each, fits, holds, rows, same};
use std::alloc::Global;
use std::test::Fail;

/// The kind of an entry.
#[derive(Clone, Copy, Debug)]
enum Kind {
    L1,
    L2,
    Reftable,
}

use Kind::{L1, L2, Reftable};

const RESERVED: Option<Fault> = Some(Fault::EntryReserved);

const UNALIGNED: Option<Fault> = Some(Fault::EntryUnaligned);

// A number, and the fault that refuses it as an entry of this kind, if any.
#[derive(Clone, Copy, Debug)]
struct Number {
    kind: Kind,
    cluster_bits: u32,
    number: u64,
    fault: Option<Fault>,
}

const NUMBERS: &[Number] = rows! { Number:
    { kind: L1, cluster_bits: 9, number: 0x8000_0000_0000_0400, fault: None },
    { kind: L1, cluster_bits: 9, number: 1, fault: RESERVED },
    { kind: L1, cluster_bits: 9, number: 0x8000_0000_0000_0001, fault: RESERVED },
    { kind: L1, cluster_bits: 9, number: 0x0100_0000_0000_0000, fault: RESERVED },
    { kind: L1, cluster_bits: 16, number: 0x200, fault: UNALIGNED },
    { kind: L1, cluster_bits: 16, number: 0x201, fault: RESERVED },
    { kind: Reftable, cluster_bits: 9, number: 0xffff_ffff_ffff_fe00, fault: None },
    { kind: Reftable, cluster_bits: 16, number: 0xffff_ffff_ffff_fe00, fault: UNALIGNED },
    { kind: Reftable, cluster_bits: 9, number: 1, fault: RESERVED },
    { kind: L2, cluster_bits: 9, number: 0x8000_0000_0000_0a01, fault: None },
    { kind: L2, cluster_bits: 9, number: 2, fault: RESERVED },
    { kind: L2, cluster_bits: 9, number: 0x4100_0000_0000_0000, fault: RESERVED },
    { kind: L2, cluster_bits: 9, number: 0xc000_0000_0000_0000, fault: RESERVED },
    { kind: L2, cluster_bits: 16, number: 0x200, fault: UNALIGNED },
    { kind: L2, cluster_bits: 16, number: 0x202, fault: RESERVED },
    // the longest compressed data at the largest offset, whose field has 56 bits or less from 14 cluster bits
    // on
    { kind: L2, cluster_bits: 13, number: 0x7eff_ffff_ffff_ffff, fault: None },
    { kind: L2, cluster_bits: 13, number: 0x7fff_ffff_ffff_ffff, fault: RESERVED },
    { kind: L2, cluster_bits: 14, number: 0x7fff_ffff_ffff_ffff, fault: None },
};

// Fails unless the number is refused by its fault, or becomes an entry with that number.
fn check_entry<E: TableEntry + Drop>(header: &Header, row: Number) -> Result<(), Fail> {
    let is_valid = E::is_lawful(row.number, header);
    same(is_valid, row.fault.is_none(), row)?;
    match E::try_from_plain(row.number, header) {
        Ok(entry) => same((None, entry.to_plain()), (row.fault, row.number), row),
        Err(found) => same(Some(found), row.fault, row),
    }
}

fn check_number(alloc: Global, row: Number) -> Result<(), Fail> {
    let header = header_with(alloc, row.cluster_bits)?;
    match row.kind {
        L1 => check_entry::<L1Entry>(&header, row),
        Reftable => check_entry::<RefTableEntry>(&header, row),
        L2 => {
            check_entry::<L2Entry>(&header, row)?;
            check_entry::<AtomicL2Entry>(&header, row)
        }
    }
}

#[test]
fn a_reserved_bit_and_else_an_unaligned_offset_is_refused(rt: HostRuntime) -> Result<(), Fail> {
    each(rt.alloc(), NUMBERS, check_number)
}

#[test]
fn entries_tell_where_l2_tables_and_blocks_lie(rt: HostRuntime) -> Result<(), Fail> {
    let header = header_with(rt.alloc(), 9)?;
    let entry = L1Entry::try_from_plain(COPIED + 0x400, &header)?;
    let other = RefTableEntry::try_from_plain(0xffff_ffff_ffff_fe00, &header)?;
    let without = entry.with_copied(false);
    all_same! {
        "L1 table and refcount table",
        without.to_plain() => 0x400, without.with_copied(true) => entry,
        entry.l2_offset() => Some(HostOffset(0x400)), entry.is_copied() => true, entry.reserved_bits() => 0,
        other.refblock_offset() => Some(HostOffset(0xffff_ffff_ffff_fe00)), other.reserved_bits() => 0,
    }
}

/// An entry, the first cluster that it refers to and the number of such clusters, if any, and the mapping of
/// guest cluster 7 by it.
#[derive(Clone, Copy, Debug)]
pub(crate) struct Meaning {
    pub(crate) disk: Disk,
    pub(crate) number: u64,
    pub(crate) clusters: Option<(u64, u64)>,
    pub(crate) reads: Reads,
}

pub(crate) const MEANINGS: &[Meaning] = rows! { Meaning:
    { disk: DISK, number: 0, clusters: None, reads: Backing(3584) },
    { disk: DISK, number: COPIED, clusters: None, reads: Backing(3584) },
    { disk: EXTERNAL, number: COPIED, clusters: Some((0, 1)), reads: Data(0, true) },
    { disk: DISK, number: COPIED + 0xa00, clusters: Some((5, 1)), reads: Data(5, true) },
    { disk: DISK, number: COPIED + 1, clusters: None, reads: Zeros(None, false) },
    { disk: EXTERNAL, number: COPIED + 1, clusters: Some((0, 1)), reads: Zeros(Some(0), true) },
    { disk: DISK, number: 0xa01, clusters: Some((5, 1)), reads: Zeros(Some(5), false) },
    { disk: Disk { cluster_bits: 21, external: false }, number: COPIED + 0x20_0001,
        clusters: Some((1, 1)), reads: Zeros(Some(1), true) },
    { disk: DISK, number: 0x4000_0000_0000_0000, clusters: Some((0, 1)), reads: Compressed(0, 512) },
    { disk: EXTERNAL, number: 0x6000_0000_0000_0001, clusters: Some((0, 2)), reads: Compressed(1, 1023) },
    { disk: DISK, number: 0x40ff_ffff_ffff_ffff,
        clusters: Some((LAST, 1)), reads: Compressed((1 << 56) - 1, 1) },
    { disk: Disk { cluster_bits: 21, external: false }, number: 0x7ffe_0000_001f_fe00,
        clusters: Some((0, 3)), reads: Compressed(0x1f_fe00, 4194304) },
    { disk: DISK, number: 0x60ff_ffff_ffff_ffff,
        clusters: Some((LAST, 2)), reads: Compressed((1 << 56) - 1, 513) },
    { disk: Disk { cluster_bits: 10, external: false }, number: 0x7000_0000_0000_0600,
        clusters: Some((1, 3)), reads: Compressed(0x600, 2048) },
    { disk: Disk { cluster_bits: 16, external: true }, number: 0x4040_0000_0001_fff0,
        clusters: Some((1, 2)), reads: Compressed(0x1_fff0, 528) },
    { disk: Disk { cluster_bits: 21, external: true }, number: 0x7fff_ffff_ffff_ffff,
        clusters: Some((268435455, 3)), reads: Compressed(0x1_ffff_ffff_ffff, 4193793) },
};

// The largest host cluster of any image.
const LAST: u64 = (1 << 47) - 1;

// Fails unless the entry has this meaning.
fn check_meaning(alloc: Global, row: Meaning) -> Result<(), Fail> {
    let external = row.disk.external;
    let mapping = mapping_of(row.reads)?;
    let header = header_of(alloc, row.disk.cluster_bits, 4, external)?;
    let bits = header.cluster_bits();
    holds(fits(7, 0, bits), row)?;
    let entry = L2Entry::try_from_plain(row.number, &header)?;
    let found = entry.into_mapping(GuestCluster(7), bits, external);
    let clusters = entry.allocation(bits, external);
    let clusters = clusters.map(|(first, count)| (first.0, count.0));
    same((found, clusters), (Ok(mapping), row.clusters), row)
}

#[test]
fn an_entry_reads_as_its_bits_and_refers_to_its_clusters(rt: HostRuntime) -> Result<(), Fail> {
    each(rt.alloc(), MEANINGS, check_meaning)
}

// An entry, the meaning of its bits, and its number without bit 63.
#[derive(Clone, Copy, Debug)]
struct Bits {
    number: u64,
    compressed: bool,
    copied: bool,
    zero: bool,
    rest: u64,
}

const BITS: &[Bits] = rows! { Bits:
    { number: 0xa00, compressed: false, copied: false, zero: false, rest: 0xa00 },
    { number: COPIED + 0xa01, compressed: false, copied: true, zero: true, rest: 0xa01 },
    { number: COMPRESSED, compressed: true, copied: false, zero: true, rest: COMPRESSED },
};

const COMPRESSED: u64 = 0x60ff_ffff_ffff_ffff;

fn check_reserved_bits(alloc: Global, row: Bits) -> Result<(), Fail> {
    let entry = L2Entry::try_from_plain(row.number, &header_with(alloc, 9)?)?;
    let other = entry.without_copied();
    if !entry.is_compressed() {
        let copied = entry.with_copied(true);
        same(copied.to_plain(), row.rest | COPIED, row)?;
    }
    let mut cell = AtomicL2Entry::new(entry);
    all_same! {
        row,
        entry.is_compressed() => row.compressed, entry.is_copied() => row.copied,
        entry.is_zero() => row.zero, entry.reserved_bits() => 0, other.to_plain() => row.rest,
        entry.with_copied(false) => other,
        entry.compressed_descriptor() => row.number & 0x3fff_ffff_ffff_ffff,
        cell.swap(other) => entry, cell.get() => other,
    }
}

#[test]
fn an_entry_tells_its_bits_and_keeps_all_but_copied(rt: HostRuntime) -> Result<(), Fail> {
    each(rt.alloc(), BITS, check_reserved_bits)
}
