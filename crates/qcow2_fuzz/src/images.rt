//! Made images: drawn from a seed, small, of all kinds, most of them consistent.

mod counters;
mod extensions;
mod tables;

use crate::numbers::{put_u32, put_u64};
use crate::random::Random;
use extensions::put_extensions;
use qcow2_base::Fault;
use std::alloc::Global;

/// The cluster bits of images, mostly small.
const CLUSTER_BITS: &[u32] = &[9, 9, 9, 9, 9, 9, 9, 9, 10, 10, 10, 11, 11, 12, 12, 12];

/// The largest size of an image in bytes, if that is eight clusters or more.
const MOST_BYTES: u64 = 1 << 15;

/// The clusters of the refcount table, its one block and the L1 table, and the first cluster after these.
const REFTABLE: u64 = 1;

const BLOCK: u64 = 2;

const L1_TABLE: u64 = 3;

const FIRST_FREE: u64 = 4;

/// An image under construction, and the number of references to each of its clusters.
#[derive(Drop)]
struct Draft {
    bytes: Vec<u8>,
    uses: Vec<u64>,
    version: u32,
    cluster_bits: u32,
    refcount_order: u32,
    l1_entries: u64,
    is_external: bool,
    /// The next cluster without a reference.
    next: u64,
}

impl Draft {
    fn cluster_size(&self) -> u64 {
        1 << self.cluster_bits.min(21)
    }

    fn cluster_count(&self) -> u64 {
        self.uses.len() as u64
    }

    // Takes a cluster without a reference, if there is one, and counts a reference to it.
    fn take_cluster(&mut self) -> Option<u64> {
        let cluster = self.next;
        if cluster >= self.cluster_count() {
            return None;
        }
        self.next = cluster.saturating_add(1);
        self.use_cluster(cluster);
        Some(cluster)
    }

    // Counts a reference to a cluster.
    fn use_cluster(&mut self, cluster: u64) {
        if let Some(uses) = self.uses.get_mut(cluster as usize) {
            *uses = uses.saturating_add(1);
        }
    }
}

/// Makes the bytes of an image.
pub(crate) fn made_image(alloc: Global, random: &mut Random) -> Result<Vec<u8>, Fault> {
    let mut draft = drawn_draft(alloc, random)?;
    for cluster in 0..FIRST_FREE {
        draft.use_cluster(cluster);
    }
    put_header(&mut draft, random);
    put_extensions(&mut draft, random);
    tables::put_tables(&mut draft, random);
    if random.is_one_in(8) {
        // a refcount that is too great
        let cluster = random.below(draft.cluster_count());
        draft.use_cluster(cluster);
    }
    counters::put_counters(&mut draft);
    Ok(draft.bytes)
}

fn drawn_draft(alloc: Global, random: &mut Random) -> Result<Draft, Fault> {
    let cluster_bits = if random.is_one_in(60) {
        16
    } else {
        random.pick(CLUSTER_BITS, 9)
    };
    let version = if random.is_one_in(4) { 2 } else { 3 };
    let most = (MOST_BYTES >> cluster_bits.min(21)).clamp(8, 48);
    let clusters = random.below(most - 7).saturating_add(8);
    let len = clusters << cluster_bits.min(21);
    Ok(Draft {
        bytes: vec![in alloc; 0; len as usize]?,
        uses: vec![in alloc; 0; clusters as usize]?,
        version,
        cluster_bits,
        refcount_order: if version == 2 {
            4
        } else {
            random.below(7).min(6) as u32
        },
        l1_entries: random.below(6).saturating_add(1),
        is_external: version == 3 && random.is_one_in(8),
        next: FIRST_FREE,
    })
}

fn put_header(draft: &mut Draft, random: &mut Random) {
    let cluster_size = draft.cluster_size();
    let size = drawn_size(draft, random);
    let bytes = draft.bytes.as_mut_slice();
    put_u32(bytes, 0, 0x5146_49fb);
    put_u32(bytes, 4, draft.version);
    put_u32(bytes, 20, draft.cluster_bits);
    put_u64(bytes, 24, size);
    put_u32(bytes, 36, draft.l1_entries.min(6) as u32);
    put_u64(bytes, 40, L1_TABLE << draft.cluster_bits.min(21));
    put_u64(bytes, 48, REFTABLE << draft.cluster_bits.min(21));
    put_u32(bytes, 56, 1);
    put_u64(bytes, cluster_size, BLOCK << draft.cluster_bits.min(21));
    if random.is_one_in(30) {
        // snapshots, which a check refuses
        put_u32(bytes, 60, 1);
    }
}

// The size of the disk: what the L1 table maps, or less or more.
fn drawn_size(draft: &Draft, random: &mut Random) -> u64 {
    let of_table = draft.cluster_size().wrapping_mul(draft.cluster_size() / 8);
    let whole = draft.l1_entries.wrapping_mul(of_table);
    match random.below(8) {
        0 => random.below(whole),
        1 => whole.wrapping_add(random.below(whole)),
        2 => whole.wrapping_sub(random.below(of_table)),
        3 => random.below(5),
        _ => whole,
    }
}
