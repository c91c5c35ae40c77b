//! Refcount tables: growth, and the spare entries that it adds.

use super::fixtures::{
    DISK, NUMBER, check_grown, check_table, cleared, disk_of, loaded, table_with,
};
use qcow2_base::{ClusterCount, Fault};
use qcow2_calls::{grow_reftable, header_of, least_spare};
use qcow2_metadata::{RefTable, Table};
use qcow2_testing::{each, holds, rows, same};
use std::alloc::Global;
use std::test::Fail;

// Returns the least number of spare entries, if the table may have that many, and the turns of the search for
// it.
fn spare_of(alloc: Global, row: Growth) -> Result<(Option<usize>, usize), Fault> {
    let header = header_of(alloc, row.cluster_bits, row.refcount_order, false)?;
    Ok(least_spare(row.entries, row.index, &header))
}

// A growth of a refcount table to hold an index: the least number of spare entries, and the number of entries
// afterwards, if the table may have that many.
#[derive(Clone, Copy, Debug)]
struct Growth {
    cluster_bits: u32,
    refcount_order: u32,
    entries: usize,
    index: usize,
    spare: Option<usize>,
    grown: Option<usize>,
}

// A growth with over a thousand spare entries.
const THOUSAND: Growth = Growth {
    cluster_bits: 9,
    refcount_order: 6,
    entries: 4194304,
    index: 0,
    spare: Some(1041),
    grown: Some(4194304),
};

const GROWTHS: &[Growth] = rows! { Growth:
    { cluster_bits: 9, refcount_order: 6, entries: 0, index: 62, spare: Some(1), grown: Some(64) },
    { cluster_bits: 9, refcount_order: 6, entries: 0, index: 63, spare: Some(1), grown: Some(128) },
    { cluster_bits: 9, refcount_order: 6, entries: 0, index: 4030, spare: Some(1), grown: Some(4032) },
    { cluster_bits: 9, refcount_order: 6, entries: 0, index: 4031, spare: Some(2), grown: Some(4096) },
    { cluster_bits: 9, refcount_order: 6, entries: 4032, index: 0, spare: Some(1), grown: Some(4032) },
    { cluster_bits: 9, refcount_order: 6, entries: 4033, index: 0, spare: Some(2), grown: Some(4096) },
    { cluster_bits: 9, refcount_order: 6, entries: 4096, index: 4096, spare: Some(2), grown: Some(4160) },
    { cluster_bits: 9, refcount_order: 6, entries: 0, index: 4158, spare: Some(2), grown: Some(4224) },
    { cluster_bits: 9, refcount_order: 6, entries: 8065, index: 0, spare: Some(3), grown: Some(8128) },
    { cluster_bits: 9, refcount_order: 6, entries: 100000, index: 100000,
        spare: Some(25), grown: Some(100032) },
    { ..THOUSAND },
    { cluster_bits: 9, refcount_order: 6, entries: 0, index: 4193262,
        spare: Some(1041), grown: Some(4194304) },
    { cluster_bits: 9, refcount_order: 5, entries: 0, index: 8127, spare: Some(2), grown: Some(8192) },
    { cluster_bits: 9, refcount_order: 4, entries: 0, index: 16319, spare: Some(2), grown: Some(16384) },
    { cluster_bits: 10, refcount_order: 6, entries: 0, index: 16255, spare: Some(2), grown: Some(16384) },
    { cluster_bits: 12, refcount_order: 4, entries: 1048065, index: 0, spare: Some(2), grown: Some(1048576) },
    { cluster_bits: 16, refcount_order: 4, entries: 8192, index: 8191, spare: Some(1), grown: Some(16384) },
    { cluster_bits: 21, refcount_order: 6, entries: 0, index: 262143, spare: Some(1), grown: Some(524288) },
    // too many for a table
    { cluster_bits: 9, refcount_order: 6, entries: 0, index: 4193263, spare: None, grown: None },
    { cluster_bits: 9, refcount_order: 6, entries: 0, index: 4194304, spare: None, grown: None },
    { cluster_bits: 9, refcount_order: 6, entries: 0, index: usize::MAX, spare: None, grown: None },
    { cluster_bits: 9, refcount_order: 4, entries: 1, index: usize::MAX, spare: None, grown: None },
    { cluster_bits: 9, refcount_order: 0, entries: 0, index: 4194287, spare: None, grown: None },
    { cluster_bits: 21, refcount_order: 0, entries: 0, index: 4194303, spare: None, grown: None },
};

// Checks that the search for the least number of spare entries takes at most that many turns.
fn check_spare(alloc: Global, row: Growth) -> Result<(), Fail> {
    let (spare, turns) = spare_of(alloc, row)?;
    same(spare, row.spare, row)?;
    match spare {
        Some(least) => holds(1 <= turns && turns <= least, row),
        None => Ok(()),
    }
}

// Grows a table, whose last entry alone isn't 0, and which stays.
fn check_growth(alloc: Global, row: Growth) -> Result<(), Fail> {
    let number = if row.entries > 0 { NUMBER } else { 0 };
    let state = loaded(row.entries, row.entries.saturating_sub(1), number);
    let source: RefTable = table_with(alloc, disk_of(row.cluster_bits), state)?;
    let header = header_of(alloc, row.cluster_bits, row.refcount_order, false)?;
    let answer = grow_reftable(&source, &header, row.index);
    check_grown(answer, row.grown, state, row)?;
    check_table(&source, state, row)
}

// Returns the clusters of a table of 64 clusters once it has grown by one index.
fn clusters_of_grown(alloc: Global) -> Result<ClusterCount, Fail> {
    let state = cleared(4096).placed(Some(2), false);
    let source: RefTable = table_with(alloc, DISK, state)?;
    let grown = grow_reftable(&source, &header_of(alloc, 9, 6, false)?, 4096)?;
    Ok(grown.cluster_count())
}

#[test]
fn a_refcount_table_grows_with_the_least_spare_entries(rt: HostRuntime) -> Result<(), Fail> {
    each(rt.alloc(), GROWTHS, check_spare)?;
    each(rt.alloc(), GROWTHS, check_growth)?;
    same(clusters_of_grown(rt.alloc())?, ClusterCount(65), "clusters")?;
    same(spare_of(rt.alloc(), THOUSAND)?, (Some(1041), 3), "turns")
}
