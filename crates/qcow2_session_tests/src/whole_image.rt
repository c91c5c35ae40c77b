//! A whole image with two L2 tables that share no byte: all references after edits of one table, and the
//! mappings of the other.

use crate::tables::map;
use qcow2_base::{Fault, GuestOffset, HostCluster, MemStorage};
use qcow2_calls::header_of;
use qcow2_metadata::L2Mapping;
use qcow2_session::{Edit, Outcome};
use qcow2_session_calls::{edit_image, lookup_image};
use qcow2_testing::sample_image::sample_image;
use qcow2_testing::{COPIED, Numbers, each, part_of, row_error, rows, same};
use std::alloc::Global;
use std::test::Fail;

// The number of host clusters that are checked. Clusters have 512 bytes.
const CLUSTERS: usize = 32;

// The number of entries of both tables that refer to each host cluster.
type References = [u64; CLUSTERS];

// Clusters and the number of references to each. All others have none.
type Counts = &'static [(usize, u64)];

// The header, an L1 table of two entries in cluster 1, and L2 tables in clusters 2 and 3. The first has data
// in cluster 5, and compressed data in clusters 11 and 12; the second has data in cluster 5, too, zeros that
// keep cluster 6, and compressed data in cluster 12.
const TWO_TABLES: Numbers<'static> = rows! {
    (24, 65536), (32, 2), (520, COPIED + 0x600), (1056, 0x6000_0000_0000_1601),
    (1536, 0xa00), (1544, 0xc01), (1552, 0x4000_0000_0000_1801),
};

const BEFORE: Counts = &[(5, 2), (6, 1), (11, 1), (12, 2)];

// Edits of one table, 0 or 1, and the references afterwards.
#[derive(Clone, Copy)]
struct Row {
    name: &'static str,
    table: u64,
    edits: &'static [Edit],
    after: Counts,
}

const ROWS: &[Row] = rows! {
    Row { name: "no edit", table: 0, edits: &[], after: BEFORE },
    Row { name: "discards", table: 0, edits: &[Edit::Discard { index: 3 }, Edit::Discard { index: 4 }],
        after: &[(5, 1), (6, 1), (12, 1)] },
    Row { name: "to shared clusters, and one of two", table: 0, edits: &[map!(3, 6), map!(0, 5), map!(4, 12)],
        after: &[(5, 2), (6, 2), (12, 2)] },
    Row { name: "zeros", table: 1, edits: ZEROS, after: &[(5, 2), (11, 1), (12, 1)] },
    Row { name: "to its own cluster, there and back", table: 1,
        edits: &[map!(2, 12), map!(63, 31), Edit::Discard { index: 63 }, map!(63, 30)],
        after: &[(5, 2), (6, 1), (11, 1), (12, 2), (30, 1)] },
};

// Zeros that keep a cluster, zeros that keep none, and zeros in place of compressed data, which keep none
// either.
const ZEROS: &[Edit] = rows! {
    Edit::Zero { index: 0, keep_allocation: true }, Edit::Zero { index: 1, keep_allocation: false },
    Edit::Zero { index: 2, keep_allocation: true },
};

#[test]
fn no_reference_of_a_whole_image_is_lost(rt: HostRuntime) -> Result<(), Fail> {
    each(rt.alloc(), ROWS, check_row)
}

// Edits one table, and fails unless the other's mappings stay.
fn check_row(alloc: Global, row: Row) -> Result<(), Fail> {
    let (table, other_table) = (row.table % 2, 1 - row.table % 2);
    let mut image = sample_image(alloc, 9, TWO_TABLES)?;
    let other = mappings(alloc, &mut image, other_table)?;
    check_balance(alloc, &mut image, row)?;
    mappings(alloc, &mut image, table)?;
    same(mappings(alloc, &mut image, other_table)?, other, row.name)
}

// Checks the balance: references after plus freed ones equal references before plus gained ones.
fn check_balance(alloc: Global, image: &mut MemStorage, row: Row) -> Result<(), Fail> {
    let mut gained = references(image.bytes())?;
    same(gained, references_of(BEFORE)?, row.name)?;
    let outcome = edit(alloc, image, row)?;
    let mut freed = references(image.bytes())?;
    same(freed, references_of(row.after)?, row.name)?;
    add_outcome(&outcome, &mut gained, &mut freed);
    same(freed, gained, row.name)
}

fn edit(alloc: Global, image: &mut MemStorage, row: Row) -> Result<Outcome, Fault> {
    let header = header_of(alloc, 9, 4, false)?;
    edit_image(
        alloc,
        image,
        &header,
        HostCluster(2 + row.table % 2),
        row.edits,
    )
}

// Returns the mappings of all guest clusters of the first or the second table, none of which is refused.
fn mappings(alloc: Global, image: &mut MemStorage, table: u64) -> Result<Vec<L2Mapping>, Fault> {
    let mut mappings = Vec::new(alloc);
    for index in 0..64u64 {
        let offset = GuestOffset((table % 2 * 64 + index) * 512);
        mappings.push(lookup_image(alloc, image, offset)?)?;
    }
    Ok(mappings)
}

fn references_of(counts: Counts) -> Result<References, Fail> {
    let mut references = [0; CLUSTERS];
    for (cluster, count) in counts {
        let Some(number) = references.get_mut(*cluster) else {
            return Err(row_error(*cluster));
        };
        *number = *count;
    }
    Ok(references)
}

// Returns the references of all entries from cluster 2 on.
fn references(image: &[u8]) -> Result<References, Fail> {
    let mut references = [0; CLUSTERS];
    let (entries, _) = part_of(image, 1024, image.len())?.as_chunks::<8>();
    for entry in entries {
        let (first, count) = clusters_of(u64::from_be_bytes(*entry));
        add(&mut references, first, count);
    }
    Ok(references)
}

// Returns the first cluster that an entry refers to, and the number of such clusters. With clusters of one
// sector, bits 0 to 55 are the offset of compressed data, and bit 61 adds a second sector.
fn clusters_of(entry: u64) -> (u64, u64) {
    let first = entry % (1 << 56) / 512;
    if entry >> 62 & 1 == 1 {
        return (first, 1 + (entry >> 61 & 1));
    }
    (first, u64::from(first != 0))
}

fn add_outcome(outcome: &Outcome, gained: &mut References, freed: &mut References) {
    for cluster in &outcome.gained {
        add(gained, cluster.0, 1);
    }
    for range in &outcome.freed {
        add(freed, range.first.0, range.count.0);
    }
}

fn add(references: &mut References, first: u64, count: u64) {
    for cluster in first..first.saturating_add(count) {
        if let Some(number) = references.get_mut(cluster as usize) {
            *number = number.saturating_add(1);
        }
    }
}
