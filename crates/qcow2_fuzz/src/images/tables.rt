//! L1 and L2 tables of a made image, and the clusters that they refer to.

use super::{Draft, L1_TABLE};
use crate::fields::COPIED;
use crate::numbers::{put_u64, u64_at};
use crate::random::Random;

/// An exclusive bound on the number of entries put into a table.
const MOST_ENTRIES: u64 = 12;

/// Puts the L1 table, and the L2 tables that it names.
pub(super) fn put_tables(draft: &mut Draft, random: &mut Random) {
    let l1_offset = L1_TABLE.wrapping_mul(draft.cluster_size());
    for index in 0..draft.l1_entries {
        if !random.is_one_in(4)
            && let Some(cluster) = draft.take_cluster()
        {
            let offset = cluster.wrapping_mul(draft.cluster_size());
            let place = l1_offset.wrapping_add(index.wrapping_mul(8));
            put_u64(draft.bytes.as_mut_slice(), place, COPIED | offset);
            put_l2_table(draft, random, offset);
        }
    }
}

// Puts entries into the L2 table at an offset: consecutive ones, or some at random indices.
fn put_l2_table(draft: &mut Draft, random: &mut Random, offset: u64) {
    let entries = draft.cluster_size() / 8;
    let first = random.below(entries);
    let is_row = random.is_one_in(2);
    for distance in 0..random.below(MOST_ENTRIES) {
        let index = if is_row {
            first.wrapping_add(distance)
        } else {
            random.below(entries)
        };
        if index < entries {
            let place = offset.wrapping_add(index.wrapping_mul(8));
            put_entry(draft, random, place);
        }
    }
}

// Puts an entry at a place, unless one was put there before.
fn put_entry(draft: &mut Draft, random: &mut Random, place: u64) {
    if u64_at(draft.bytes.as_slice(), place) == 0
        && let Some(number) = drawn_entry(draft, random)
    {
        put_u64(draft.bytes.as_mut_slice(), place, number);
    }
}

// Draws an entry, and counts the references to its clusters.
fn drawn_entry(draft: &mut Draft, random: &mut Random) -> Option<u64> {
    match random.below(8) {
        0 if draft.version == 3 => Some(1),
        1 if draft.version == 3 => Some(1 | data_entry(draft, random)?),
        2 | 3 if !draft.is_external => compressed_entry(draft, random),
        _ => data_entry(draft, random),
    }
}

// An entry of data in a cluster of its own, or in the external data file if there is one.
fn data_entry(draft: &mut Draft, random: &mut Random) -> Option<u64> {
    let cluster = if draft.is_external {
        random.below(20)
    } else {
        draft.take_cluster()?
    };
    let flag = if random.is_one_in(20) { 0 } else { COPIED };
    Some(flag | cluster.wrapping_mul(draft.cluster_size()))
}

// An entry of compressed data within a cluster. If refcounts have room, the next reference may share that
// cluster.
fn compressed_entry(draft: &mut Draft, random: &mut Random) -> Option<u64> {
    let cluster = draft.take_cluster()?;
    let cluster_size = draft.cluster_size();
    let within = random.below(cluster_size);
    let further = random.below(cluster_size / 512 - (within / 512).min(cluster_size / 512));
    if draft.refcount_order >= 2 && random.is_one_in(2) {
        draft.next = cluster;
    }
    let offset = cluster.wrapping_mul(cluster_size).wrapping_add(within);
    let place = 70u32.saturating_sub(draft.cluster_bits).min(62);
    Some(1 << 62 | further << place | offset)
}
