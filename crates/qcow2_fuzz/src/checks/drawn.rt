//! Random arguments of commands: mostly plausible, some at the edges of their range.

use crate::fields::Fields;
use crate::random::Random;
use crate::text::Listed;
use qcow2_base::Fault;
use std::alloc::{AllocError, Global};

/// Numbers at the edges of their range.
const EDGES: &[u64] = &[
    0,
    1 << 31,
    1 << 47,
    1 << 56,
    (1 << 63) - 1,
    u64::MAX - 511,
    u64::MAX,
];

/// A host cluster.
pub(crate) fn cluster(fields: &Fields, random: &mut Random) -> u64 {
    if random.is_one_in(12) {
        return random.pick(EDGES, 0);
    }
    random.below(fields.clusters.saturating_add(3))
}

/// A guest offset on the disk or past it.
pub(crate) fn guest_offset(fields: &Fields, random: &mut Random) -> u64 {
    match random.below(10) {
        0 => random.pick(EDGES, 0),
        1 => random.next(),
        2 => fields.size,
        _ => random.below(fields.size),
    }
}

// A guest offset at the start of a cluster: that of a listed entry, of the cluster before one, or any.
fn aligned_offset(fields: &Fields, listed: &[Listed], random: &mut Random) -> u64 {
    let index = random.below(listed.len() as u64) as usize;
    let offset = match (random.below(4), listed.get(index)) {
        (0 | 1, Some(listed)) => listed.label,
        (2, Some(listed)) => listed.label.saturating_sub(fields.cluster_size()),
        _ => guest_offset(fields, random),
    };
    offset.wrapping_sub(fields.within_cluster(offset))
}

/// The index of an L1 entry: mostly of one that names a table, if there is one, else any below 9.
pub(crate) fn l1_index(tables: &[u64], random: &mut Random) -> u64 {
    if random.is_one_in(8) {
        return random.below(9);
    }
    random.pick(tables, 0)
}

/// An index in a table of this many entries, or at or past its end.
pub(crate) fn index(entries: u64, random: &mut Random) -> u64 {
    match random.below(12) {
        0 => entries,
        1 => random.pick(EDGES, 0),
        2 => entries.saturating_sub(1),
        _ => random.below(entries),
    }
}

/// Words of a few edits of an L2 table, each after a space.
pub(crate) fn edits(alloc: Global, fields: &Fields, random: &mut Random) -> Result<String, Fault> {
    let mut words = String::new(alloc);
    for _ in 0..random.below(4) {
        let index = index(fields.table_entries(), random);
        match random.below(4) {
            0 => write!(words, " map:{index}:{}", cluster(fields, random))?,
            1 => write!(words, " zero:{index}")?,
            2 => write!(words, " keep:{index}")?,
            _ => write!(words, " discard:{index}")?,
        }
    }
    Ok(words)
}

/// Words of a few edits of the disk, each after a space.
pub(crate) fn disk_edits(
    alloc: Global,
    fields: &Fields,
    listed: &[Listed],
    random: &mut Random,
) -> Result<String, Fault> {
    let mut words = String::new(alloc);
    for _ in 0..random.below(3).saturating_add(1) {
        add_disk_edit(&mut words, fields, listed, random)?;
    }
    Ok(words)
}

fn add_disk_edit(
    words: &mut String,
    fields: &Fields,
    listed: &[Listed],
    random: &mut Random,
) -> Result<(), AllocError> {
    let offset = if random.is_one_in(16) {
        guest_offset(fields, random)
    } else {
        aligned_offset(fields, listed, random)
    };
    let length = fields.cluster_size().wrapping_mul(random.below(6));
    match random.below(6) {
        0 => write!(words, " discard:{offset:#x}"),
        1 => write!(words, " zero:{offset}:{length:#x}"),
        2 => write!(words, " keep:{offset:#x}:{length}"),
        3 => write!(words, " map:{offset:#x}:{}", cluster(fields, random)),
        _ => write!(words, " discard:{offset}:{length}"),
    }
}
