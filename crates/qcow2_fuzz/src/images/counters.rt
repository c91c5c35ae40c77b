//! The refcounts of a made image: the numbers of references to its clusters.

use super::{BLOCK, Draft};
use crate::numbers::{byte_at, put_bytes};

/// Puts the refcount of each cluster that the block counts.
pub(super) fn put_counters(draft: &mut Draft) {
    let block = BLOCK.wrapping_mul(draft.cluster_size());
    let order = draft.refcount_order.min(6);
    let counted = (draft.cluster_size() << 3) >> order;
    for cluster in 0..(draft.uses.len() as u64).min(counted) {
        let uses = draft.uses.get(cluster as usize).copied().unwrap_or(0);
        put_counter(draft.bytes.as_mut_slice(), block, order, cluster, uses);
    }
}

// Puts a refcount of 2^order bits into a block.
fn put_counter(bytes: &mut [u8], block: u64, order: u32, index: u64, counter: u64) {
    if order < 3 {
        return put_narrow_counter(bytes, block, order, index, counter);
    }
    let width = match order {
        3 => 1,
        4 => 2,
        5 => 4,
        _ => 8,
    };
    let place = block.wrapping_add(index.wrapping_mul(width as u64));
    let number = counter.to_be_bytes();
    let unused = number.len().saturating_sub(width);
    if let Some(number) = number.get(unused..) {
        put_bytes(bytes, place, number);
    }
}

// Does the same for refcounts that share a byte, the first one in its lowest bits.
fn put_narrow_counter(bytes: &mut [u8], block: u64, order: u32, index: u64, counter: u64) {
    let width = 1u64 << order.min(2);
    let bit = index.wrapping_mul(width);
    let place = block.wrapping_add(bit / 8);
    let greatest = match order {
        0 => 1,
        1 => 3,
        _ => 15,
    };
    let bits = counter.min(greatest) << (bit % 8);
    let byte = u64::from(byte_at(bytes, place)) | bits;
    put_bytes(bytes, place, &[(byte % 256) as u8]);
}
