//! Edits of L2 tables: entries and handed-back clusters; mappings of guest clusters; and places of compressed
//! data.

use super::entries::{MEANINGS, Meaning};
use super::fixtures::{COPIED, DISK, Disk, EXTERNAL, check_table, l2_entries, loaded, table_with};
use super::l2_mapping::Reads::Compressed;
use super::l2_mapping::{Reads, mapping_of};
use super::pending_clusters::clusters;
use qcow2_base::{Fault, GuestCluster, HostCluster};
use qcow2_calls::{NOT_MADE, discard_cluster, map_cluster, set_l2_copied, zero_cluster};
use qcow2_metadata::{CompressedClusterReadGuard, L2Mapping, L2Table, Table};
use qcow2_testing::{each, fits, holds, rows, same};
use std::alloc::Global;
use std::test::Fail;

/// The first handed-back cluster and the number of clusters, if any.
type Freed = Option<(u64, u64)>;

/// Returns the mapping of a guest cluster, on which the table and its write guard agree.
pub(crate) fn mapping(table: &mut L2Table, guest_cluster: u64) -> Result<L2Mapping, Fail> {
    holds(fits(guest_cluster, 0, table.cluster_bits()), guest_cluster)?;
    let found = table.get_mapping(GuestCluster(guest_cluster))?;
    let locked = table.lock_write().get_mapping(GuestCluster(guest_cluster))?;
    same(locked, found, guest_cluster)?;
    Ok(found)
}

fn range(guard: Option<CompressedClusterReadGuard<'_>>) -> Option<(u64, u64)> {
    guard.map(|guard| (guard.offset().0, guard.length().get()))
}

// Returns the offset and the length of the compressed data of a guest cluster, on which the table and its
// write guard agree.
fn compressed(table: &mut L2Table, guest_cluster: u64) -> Result<Option<(u64, u64)>, Fail> {
    holds(fits(guest_cluster, 0, table.cluster_bits()), guest_cluster)?;
    let found = range(table.lock_compressed_read(GuestCluster(guest_cluster))?);
    let lock = table.lock_write();
    let locked = range(lock.compressed_read_guard(GuestCluster(guest_cluster))?);
    same(locked, found, guest_cluster)?;
    Ok(found)
}

// Checks that guest cluster 7 has this mapping, and that guest cluster 8 isn't compressed.
fn check_reads(table: &mut L2Table, reads: Reads) -> Result<(), Fail> {
    same(mapping(table, 7)?, mapping_of(reads)?, reads)?;
    let range = match reads {
        Compressed(offset, length) => Some((offset, length)),
        _ => None,
    };
    let found = (compressed(table, 7)?, compressed(table, 8)?);
    same(found, (range, None), reads)
}

// Checks the mapping of an entry in a table.
fn check_read(alloc: Global, row: Meaning) -> Result<(), Fail> {
    let state = loaded(l2_entries(row.disk.cluster_bits), 7, row.number);
    check_reads(&mut table_with(alloc, row.disk, state)?, row.reads)
}

#[test]
fn a_guest_cluster_reads_as_its_entry_and_has_a_range_if_compressed(
    rt: HostRuntime,
) -> Result<(), Fail> {
    each(rt.alloc(), MEANINGS, check_read)
}

// An edit of an entry.
#[derive(Clone, Copy, Debug)]
enum Edit {
    // a map to data in a cluster
    Map(u64),
    // the same, with pending clusters
    MapPending(u64),
    // zeros without the cluster
    Zero,
    // zeros that keep the cluster
    Keep,
    Discard,
}

use Edit::{Discard, Keep, Map, MapPending, Zero};

// An edit of an entry, the clusters that it hands back, and the entry afterwards.
#[derive(Clone, Copy, Debug)]
struct Edited {
    disk: Disk,
    number: u64,
    edit: Edit,
    freed: Freed,
    after: u64,
}

// Data with the copied flag in cluster 5, and in cluster 6; compressed data of three clusters; and
// handed-back clusters.
const DATA_5: u64 = COPIED + 0xa00;

const DATA_6: u64 = COPIED + 0xc00;

const IN_THREE: u64 = 0x7000_0000_0000_0600;

const FIVE: Freed = Some((5, 1));

const THREE: Freed = Some((1, 3));

const EDITED: &[Edited] = rows! { Edited:
    { disk: DISK, number: DATA_5, edit: Map(5), freed: None, after: DATA_5 },
    { disk: DISK, number: DATA_5, edit: MapPending(6), freed: FIVE, after: DATA_6 },
    { disk: DISK, number: 0, edit: MapPending(5), freed: None, after: DATA_5 },
    { disk: DISK, number: 0xa01, edit: MapPending(6), freed: FIVE, after: DATA_6 },
    { disk: DISK, number: 0xa00, edit: MapPending(LAST), freed: FIVE, after: 0x80ff_ffff_ffff_fe00 },
    { disk: EXTERNAL, number: 0xa00, edit: MapPending(0), freed: FIVE, after: COPIED },
    // compressed data: within the mapped cluster, and on both sides of it
    { disk: Disk { cluster_bits: 16, external: false }, number: 0x4040_0000_0001_0010,
        edit: MapPending(1), freed: None, after: COPIED + 0x1_0000 },
    { disk: Disk { cluster_bits: 10, external: false }, number: IN_THREE,
        edit: MapPending(2), freed: THREE, after: COPIED + 0x800 },
    { disk: DISK, number: DATA_5, edit: Keep, freed: None, after: DATA_5 + 1 },
    { disk: DISK, number: 0xa01, edit: Keep, freed: None, after: 0xa01 },
    { disk: Disk { cluster_bits: 10, external: true }, number: IN_THREE,
        edit: Keep, freed: THREE, after: 1 },
    { disk: DISK, number: 0, edit: Keep, freed: None, after: 1 },
    { disk: EXTERNAL, number: COPIED, edit: Keep, freed: None, after: COPIED + 1 },
    { disk: DISK, number: DATA_5, edit: Discard, freed: FIVE, after: 0 },
    { disk: DISK, number: DATA_5, edit: Zero, freed: FIVE, after: 1 },
    { disk: EXTERNAL, number: COPIED, edit: Zero, freed: Some((0, 1)), after: 1 },
    { disk: DISK, number: COPIED, edit: Discard, freed: None, after: 0 },
    { disk: EXTERNAL, number: COPIED, edit: Discard, freed: Some((0, 1)), after: 0 },
    { disk: Disk { cluster_bits: 16, external: true }, number: 0x4040_0000_0001_fff0,
        edit: Discard, freed: Some((1, 2)), after: 0 },
    { disk: Disk { cluster_bits: 21, external: false }, number: 0x7fff_ffff_ffff_ffff,
        edit: Discard, freed: Some((268435455, 3)), after: 0 },
};

// The largest host cluster of any image.
const LAST: u64 = 0x7fff_ffff_ffff;

// Edits entry 63.
fn make(table: &mut L2Table, edit: Edit) -> Result<Freed, Fault> {
    let freed = match edit {
        Map(cluster) => map_cluster(table, 63, HostCluster(cluster), None),
        MapPending(cluster) => {
            map_cluster(table, 63, HostCluster(cluster), Some(clusters(cluster, 1)))
        }
        Zero => zero_cluster(table, 63, false),
        Keep => zero_cluster(table, 63, true),
        Discard => discard_cluster(table, 63),
    };
    Ok(freed?.map(|freed| (freed.first.0, freed.count.0)))
}

// Edits the entry, and fails unless all other entries stay.
fn check_edited(alloc: Global, row: Edited) -> Result<(), Fail> {
    let entries = l2_entries(row.disk.cluster_bits);
    let mut table = table_with(alloc, row.disk, loaded(entries, 63, row.number))?;
    same(make(&mut table, row.edit)?, row.freed, row)?;
    let state = loaded(entries, 63, row.after);
    check_table(&table, state.placed(Some(2), true), row)
}

#[test]
fn an_edit_leaves_its_entry_and_hands_back_what_it_drops(rt: HostRuntime) -> Result<(), Fail> {
    each(rt.alloc(), EDITED, check_edited)
}

// An entry, a copied flag for it, and the entry afterwards, or `None` if it can't have the flag.
#[derive(Clone, Copy, Debug)]
struct Flagged {
    disk: Disk,
    number: u64,
    is_copied: bool,
    after: Option<u64>,
}

const FLAGGED: &[Flagged] = rows! { Flagged:
    { disk: DISK, number: 0xa00, is_copied: true, after: Some(DATA_5) },
    { disk: DISK, number: DATA_5, is_copied: true, after: Some(DATA_5) },
    { disk: DISK, number: DATA_5, is_copied: false, after: Some(0xa00) },
    // zeros with a cluster, and an entry without one
    { disk: DISK, number: 0xa01, is_copied: true, after: Some(DATA_5 + 1) },
    { disk: DISK, number: DATA_5 + 1, is_copied: false, after: Some(0xa01) },
    { disk: DISK, number: 0, is_copied: true, after: Some(COPIED) },
    { disk: DISK, number: COPIED, is_copied: false, after: Some(0) },
    { disk: Disk { cluster_bits: 16, external: false }, number: 0xff_ffff_ffff_0000,
        is_copied: true, after: Some(0x80ff_ffff_ffff_0000) },
    { disk: Disk { cluster_bits: 21, external: false }, number: COPIED + 0x20_0001,
        is_copied: false, after: Some(0x20_0001) },
    // in an external data file: cluster 5, and cluster 0, which only the flag shows
    { disk: EXTERNAL, number: 0xa00, is_copied: true, after: Some(DATA_5) },
    { disk: EXTERNAL, number: COPIED, is_copied: false, after: Some(0) },
    // compressed data
    { disk: DISK, number: 0x60ff_ffff_ffff_ffff, is_copied: false, after: Some(0x60ff_ffff_ffff_ffff) },
    { disk: DISK, number: 0x60ff_ffff_ffff_ffff, is_copied: true, after: None },
    { disk: Disk { cluster_bits: 10, external: false }, number: IN_THREE, is_copied: true, after: None },
};

// Sets or clears the copied flag of the entry, and fails unless all else stays.
fn check_flagged(alloc: Global, row: Flagged) -> Result<(), Fail> {
    let entries = l2_entries(row.disk.cluster_bits);
    let mut table = table_with(alloc, row.disk, loaded(entries, 63, row.number))?;
    let answer = set_l2_copied(&mut table, 63, row.is_copied);
    let expected = if row.after.is_some() {
        Ok(())
    } else {
        Err(NOT_MADE)
    };
    same(answer, expected, row)?;
    let state = loaded(entries, 63, row.after.unwrap_or(row.number));
    check_table(&table, state.placed(Some(2), row.after.is_some()), row)
}

#[test]
fn an_l2_entry_gets_or_loses_the_copied_flag_alone(rt: HostRuntime) -> Result<(), Fail> {
    each(rt.alloc(), FLAGGED, check_flagged)
}
