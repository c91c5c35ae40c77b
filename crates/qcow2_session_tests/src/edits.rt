//! Lists of edits of an L2 table: their joint effect, and refused lists.

use crate::tables::{
    DATA_5, Entries, GONE, KEEP, PAST, References, TO_0, TO_1, TO_2, TO_5, TO_6, ZERO,
    check_outcome, check_table, map, outcome, table_with,
};
use qcow2_base::{ClusterCount, Fault, HostCluster};
use qcow2_metadata::ClustersToFreeEntry;
use qcow2_session::{Edit, Outcome};
use qcow2_session_calls::{edit_table, edits_fit};
use qcow2_testing::{COPIED, each, rows, same};
use std::alloc::{AllocError, Global};
use std::test::Fail;

// A list of edits of a table, their effect on references or the position of the first refused edit, and the
// entries afterwards.
#[derive(Clone, Copy)]
struct Row<'a> {
    name: &'a str,
    cluster_bits: u32,
    external: bool,
    before: Entries<'a>,
    edits: &'a [Edit],
    expected: Result<References<'a>, usize>,
    after: Entries<'a>,
}

const ROW: Row<'static> = Row {
    name: "no edit",
    cluster_bits: 9,
    external: false,
    before: DATA,
    edits: &[],
    expected: NOTHING,
    after: DATA,
};

const CLEARED: Entries<'static> = (0, &[]);

const DATA: Entries<'static> = (3, &[DATA_5]);

const NOTHING: Result<References<'static>, usize> = Ok(outcome!([], []));

const ROWS: &[Row<'static>] = rows! {
    ROW,
    Row { name: "gone again", edits: &[TO_5, TO_6, GONE], expected: Ok(outcome!([6], [(5, 1), (6, 1)])),
        after: CLEARED, ..ROW },
    Row { name: "zeros that are data again", before: (3, &[0xa00]), edits: &[KEEP, KEEP, TO_5], ..ROW },
    Row { name: "zeros, gone", edits: &[KEEP, ZERO, KEEP, GONE], expected: Ok(outcome!([], [(5, 1)])),
        after: CLEARED, ..ROW },
    // cluster 0 of an external data file, which only the copied flag shows
    Row { name: "data in cluster 0 again", external: true, before: CLEARED, edits: &[TO_0, KEEP, TO_0],
        expected: Ok(outcome!([0], [])), after: (3, &[COPIED]), ..ROW },
    Row { name: "zeros in cluster 0", external: true, before: CLEARED, edits: &[TO_0, KEEP],
        expected: Ok(outcome!([0], [])), after: (3, &[COPIED + 1]), ..ROW },
    Row { name: "no cluster 0 in the image", before: (3, &[COPIED]), edits: &[KEEP, TO_5],
        expected: Ok(outcome!([5], [])), ..ROW },
};

const OF_COMPRESSED: &[Row<'static>] = rows! {
    // compressed data within the mapped cluster, and in three clusters, which zeros can't keep
    Row { name: "its own", cluster_bits: 16, before: (3, &[0x4040_0000_0001_0010]), edits: &[TO_1],
        after: (3, &[COPIED + 0x1_0000]), ..ROW },
    Row { name: "the second of three", cluster_bits: 10, before: COMPRESSED_1_TO_3, edits: &[TO_2],
        expected: Ok(outcome!([2], [(1, 3)])), after: (3, &[COPIED + 0x800]), ..ROW },
    Row { name: "three that zeros can't keep", cluster_bits: 10, before: COMPRESSED_1_TO_3,
        edits: &[KEEP, TO_2, TO_1], expected: Ok(outcome!([2, 1], [(1, 3), (2, 1)])),
        after: (3, &[COPIED + 0x400]), ..ROW },
    // compressed data from the last byte of cluster 5 on, which ends in the next cluster, and in the one
    // after it
    Row { name: "two and three clusters of 2 MiB", cluster_bits: 21, external: true,
        before: (3, &[0x4002_0000_00bf_ffff, 0x6002_0000_00bf_ffff]), edits: &[ZERO, map!(4, 5)],
        expected: Ok(outcome!([5], [(5, 2), (5, 3)])), after: (3, &[1, COPIED + 0xa0_0000]), ..ROW },
    // compressed data in clusters 1 to 3 and in cluster 2, data in cluster 5, and data and zeros in cluster 6
    Row { name: "entries that share clusters", cluster_bits: 10,
        before: (0, &[0x7000_0000_0000_0600, 0x4000_0000_0000_0900, COPIED + 0x1400, 0x1800, 0x1801, 0]),
        edits: MIXED, expected: Ok(outcome!([8, 4, 9, 2], [(1, 3), (2, 1), (6, 1), (4, 1), (8, 1)])),
        after: (0, &[0, COPIED + 0x800, COPIED + 0x1400, 0x1801, 0, COPIED + 0x2400]), ..ROW },
};

const AT_ENDS: &[Row<'static>] = rows! {
    // the last index and the largest cluster
    Row { name: "the last entry of a table of 512 bytes", before: CLEARED,
        edits: &[map!(63, 0x7fff_ffff_ffff)], expected: Ok(outcome!([0x7fff_ffff_ffff], [])),
        after: (63, &[0x80ff_ffff_ffff_fe00]), ..ROW },
    Row { name: "the last entry of a table of 2 MiB", cluster_bits: 21, external: true,
        before: (262_143, &[0x80ff_ffff_ffe0_0000]),
        edits: &[Edit::Discard { index: 262_143 }, map!(262_143, 0x7_ffff_ffff)],
        expected: Ok(outcome!([0x7_ffff_ffff], [(0x7_ffff_ffff, 1)])),
        after: (262_143, &[0x80ff_ffff_ffe0_0000]), ..ROW },
    // refused: indices past the end, cluster 0, and clusters past the largest of 512 bytes and of 2 MiB
    Row { name: "past the end", edits: &[GONE, PAST], expected: Err(1), ..ROW },
    Row { name: "the greatest index", edits: &[ZERO, Edit::Discard { index: usize::MAX }], expected: Err(1),
        ..ROW },
    Row { name: "cluster 0", edits: &[KEEP, GONE, TO_0, PAST], expected: Err(2), ..ROW },
    Row { name: "cluster 0 of an empty table", before: CLEARED, edits: &[TO_0, KEEP, TO_0], expected: Err(0),
        after: CLEARED, ..ROW },
    Row { name: "2^47", external: true, edits: &[map!(3, 1 << 47)], expected: Err(0), ..ROW },
    Row { name: "2^35", cluster_bits: 21, before: CLEARED, edits: &[TO_5, TO_6, GONE, KEEP, map!(3, 1 << 35)],
        expected: Err(4), after: CLEARED, ..ROW },
    Row { name: "the greatest number", before: CLEARED, edits: &[GONE, map!(3, u64::MAX)], expected: Err(1),
        after: CLEARED, ..ROW },
};

const COMPRESSED_1_TO_3: Entries<'static> = (3, &[0x7000_0000_0000_0600]);

const MIXED: &[Edit] = rows! {
    map!(0, 8), Edit::Zero { index: 1, keep_allocation: false }, map!(2, 5), KEEP,
    Edit::Discard { index: 4 }, map!(5, 4), map!(5, 9), Edit::Discard { index: 0 }, map!(1, 2),
};

// Makes the edits of a row in a table without and with the modified flag.
fn check_both(alloc: Global, row: Row<'_>) -> Result<(), Fail> {
    check_edits(alloc, row, false)?;
    check_edits(alloc, row, true)
}

#[test]
fn edits_are_made_one_after_the_other(rt: HostRuntime) -> Result<(), Fail> {
    each(rt.alloc(), ROWS, check_both)
}

#[test]
fn edits_hand_all_clusters_of_compressed_data_back(rt: HostRuntime) -> Result<(), Fail> {
    each(rt.alloc(), OF_COMPRESSED, check_both)
}

#[test]
fn edits_at_the_ends_are_made_and_past_them_change_nothing(rt: HostRuntime) -> Result<(), Fail> {
    each(rt.alloc(), AT_ENDS, check_both)
}

// Makes the edits of a row in a table with this modified flag.
fn check_edits(alloc: Global, row: Row<'_>, modified: bool) -> Result<(), Fail> {
    let image = (row.cluster_bits, row.external);
    let mut table = table_with(alloc, image, row.before, modified)?;
    let fit = row.expected.map(|_| ());
    same(edits_fit(&table, row.edits), fit, row.name)?;
    let answer = edit_table(alloc, &mut table, row.edits);
    check_outcome(answer, row.expected.map_err(Fault::BadEdit), row.name)?;
    let is_edited = row.expected.is_ok() && !row.edits.is_empty();
    check_table(&table, row.after, modified || is_edited, row.name)
}

// Returns ten thousand edits of a table of 8192 entries, a map and then a discard for each of 5000 entries,
// and the clusters that gain and lose a reference.
fn many_edits(alloc: Global) -> Result<(Vec<Edit>, Outcome), AllocError> {
    let mut edits = Vec::new(alloc);
    let mut gained = Vec::new(alloc);
    let mut freed = Vec::new(alloc);
    for place in 0..5000usize {
        let first = HostCluster(1 + place as u64);
        let index = 8191 - place;
        edits.extend_from_slice(&[map!(index, first.0), Edit::Discard { index }])?;
        gained.push(first)?;
        freed.push(ClustersToFreeEntry {
            first,
            count: ClusterCount(1),
        })?;
    }
    Ok((edits, Outcome { gained, freed }))
}

#[test]
fn ten_thousand_edits_are_made_in_their_order(rt: HostRuntime) -> Result<(), Fail> {
    let (edits, outcome) = many_edits(rt.alloc())?;
    let expected: Result<References<'_>, usize> = Ok((&outcome.gained, &outcome.freed));
    let row = Row {
        name: "many",
        cluster_bits: 16,
        external: false,
        before: CLEARED,
        edits: &edits,
        expected,
        after: CLEARED,
    };
    check_edits(rt.alloc(), row, false)
}
