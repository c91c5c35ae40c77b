//! The entries of mappings, and consecutive mappings.

ghost use Rattle.std.specs.Prelude.{◌*◌, ◌^◌, ◌<◌, ◌↔◌, IsTrue};
ghost use Rattle.qcow2_base.specs.Types.{IsClusterBits};
ghost use Rattle.qcow2_metadata.specs.Entries.L2Mapping.{FitsEntry, IsPlaced};

use super::fixtures::COPIED;
use qcow2_base::{GuestCluster, HostCluster, HostOffset};
use qcow2_metadata::{L2Entry, L2Mapping, TableEntry};
use qcow2_testing::{all_same, fits, holds, is_cluster_bits, rows, same};
use std::num::NonZero;
use std::test::Fail;

/// A mapping in numbers, for rows of tables.
#[derive(Clone, Copy, Debug)]
pub(crate) enum Reads {
    /// Data in a host cluster, and whether it is copied.
    Data(u64, bool),
    /// The backing file from an offset on.
    Backing(u64),
    /// Zeros, their host cluster, if any, and whether that is copied.
    Zeros(Option<u64>, bool),
    /// The offset of compressed data, and its length.
    Compressed(u64, u64),
}

use Reads::{Backing, Compressed, Data, Zeros};

/// Returns the mapping of these numbers.
pub(crate) fn mapping_of(reads: Reads) -> Result<L2Mapping, Fail> {
    Ok(match reads {
        Data(cluster, copied) => L2Mapping::DataFile {
            host_cluster: HostCluster(cluster),
            copied,
        },
        Backing(backing_offset) => L2Mapping::Backing { backing_offset },
        Zeros(cluster, copied) => L2Mapping::Zero {
            host_cluster: cluster.map(HostCluster),
            copied,
        },
        Compressed(offset, length) => L2Mapping::Compressed {
            host_offset: HostOffset(offset),
            length: NonZero::<u64>::new(length).ok_or("a length of no bytes")?,
        },
    })
}

// Returns whether the cluster begins below 2^56.
fn begins_in_an_image(cluster: u64, bits: u32) -> bool
    requires { IsClusterBits bits }
    ensures { IsTrue result ↔ (cluster * 2 ^ bits < 2 ^ 56) }
{
    match cluster.checked_mul(1 << bits) {
        Some(offset) => offset < 1 << 56,
        None => false,
    }
}

// Returns whether the mapping has an entry.
fn has_entry(mapping: L2Mapping, bits: u32) -> bool
    requires { IsClusterBits bits }
    ensures placed { IsTrue result → IsPlaced bits mapping }
    ensures fits { IsTrue result → FitsEntry bits mapping }
{
    match mapping {
        L2Mapping::DataFile { host_cluster, .. } => begins_in_an_image(host_cluster.0, bits),
        L2Mapping::Backing { .. } => true,
        L2Mapping::Zero {
            host_cluster: Some(host_cluster),
            ..
        } => begins_in_an_image(host_cluster.0, bits),
        L2Mapping::Zero {
            host_cluster: None,
            copied,
        } => !copied,
        L2Mapping::Compressed {
            host_offset,
            length,
        } => {
            host_offset.0 < 1 << 56 && host_offset.0 < 1 << (70 - bits) && length.get() < 1 << bits
        }
    }
}

// A mapping, the number of its entry, and the mapping of guest cluster 3 by that entry, without and with an
// external data file.
#[derive(Clone, Copy, Debug)]
struct Entered {
    cluster_bits: u32,
    mapping: Reads,
    number: u64,
    internal: Reads,
    external: Reads,
}

const ENTERED: &[Entered] = rows! { Entered:
    { cluster_bits: 9, mapping: Data(5, true), number: COPIED + 0xa00,
        internal: Data(5, true), external: Data(5, true) },
    { cluster_bits: 16, mapping: Zeros(Some(2), false), number: 0x2_0001,
        internal: Zeros(Some(2), false), external: Zeros(Some(2), false) },
    { cluster_bits: 21, mapping: Zeros(None, false), number: 1,
        internal: Zeros(None, false), external: Zeros(None, false) },
    { cluster_bits: 9, mapping: Backing(0), number: 0, internal: Backing(1536), external: Backing(1536) },
    // an entry has cluster 0 only with the copied flag, in an external data file
    { cluster_bits: 9, mapping: Data(0, true), number: COPIED,
        internal: Backing(1536), external: Data(0, true) },
    { cluster_bits: 9, mapping: Zeros(Some(0), true), number: COPIED + 1,
        internal: Zeros(None, false), external: Zeros(Some(0), true) },
    // compressed data reaches to the end of its last sector
    { cluster_bits: 16, mapping: Compressed(0x1_0010, 1000), number: 0x4040_0000_0001_0010,
        internal: Compressed(0x1_0010, 1008), external: Compressed(0x1_0010, 1008) },
    { cluster_bits: 21, mapping: Compressed(0x600, 2097151), number: 0x5ffe_0000_0000_0600,
        internal: Compressed(0x600, 2097152), external: Compressed(0x600, 2097152) },
};

// Checks that a mapping's entry has this number and the other mappings.
fn check_entry(row: Entered) -> Result<(), Fail> {
    let bits = row.cluster_bits;
    let mapping = mapping_of(row.mapping)?;
    holds(is_cluster_bits(bits), row)?;
    holds(has_entry(mapping, bits) && fits(3, 0, bits), row)?;
    let entry = L2Entry::from_mapping(mapping, bits);
    same(entry.to_plain(), row.number, row)?;
    all_same! {
        row,
        entry.into_mapping(GuestCluster(3), bits, false)? => mapping_of(row.internal)?,
        entry.into_mapping(GuestCluster(3), bits, true)? => mapping_of(row.external)?,
    }
}

#[test]
fn a_mapping_has_an_entry_that_reads_as_it() -> Result<(), Fail> {
    for row in ENTERED {
        check_entry(*row)?;
    }
    Ok(())
}

// Two mappings of an image of 512-byte clusters, and whether the second continues the first.
type Pair = (Reads, Reads, bool);

const GOES_ON: &[Pair] = rows! {
    (Data(5, true), Data(6, true), true), (Data(5, true), Data(6, false), false),
    (Data(u64::MAX, true), Data(0, true), false), (Data(5, true), Zeros(Some(6), true), false),
    (Zeros(Some(3), true), Zeros(None, false), true), (Zeros(None, false), Backing(512), false),
    (Backing(0), Backing(512), true), (Backing(0), Backing(511), false),
    (Backing(0xffff_ffff_ffff_fe00), Backing(0), false),
    (Compressed(0x1_0000, 7), Compressed(0, 9), true), (Compressed(0x1_0000, 7), Data(1, true), false),
};

fn check_run(row: Pair) -> Result<(), Fail> {
    let (first, second, goes_on) = row;
    let (first, second) = (mapping_of(first)?, mapping_of(second)?);
    same(second.is_consecutive(&first, 9), goes_on, row)
}

#[test]
fn a_mapping_goes_on_in_the_next_cluster_and_zeros_in_any() -> Result<(), Fail> {
    for row in GOES_ON {
        check_run(*row)?;
    }
    Ok(())
}
