//! Lists of edits of an image: its bytes afterwards, the handed-back clusters, and refusals.

use crate::images::{Contents, check_image, recording_image};
use crate::tables::{GONE, PAST, References, TO_0, TO_5, TO_6, check_outcome, map, outcome};
use qcow2_base::{Fault, HostCluster};
use qcow2_calls::header_of;
use qcow2_session::Edit;
use qcow2_session_calls::edit_image;
use qcow2_testing::rows;
use std::alloc::Global;
use std::test::Fail;

// Edits of the first and the last entry of a table, with clusters of 2 MiB.
const ENDS_OF_2_MIB: &[Edit] = rows! {
    Edit::Zero { index: 0, keep_allocation: false },
    map!(262_143, 3),
};

// The entry of data in cluster 5 of 512 bytes.
const DATA: (u64, &[u8]) = (1048, &[0x80, 0, 0, 0, 0, 0, 0x0a, 0]);

// The last byte of an entry with the lowest reserved bit.
const RESERVED: &[u8] = &[2];

// A list of edits of the table at a cluster of an image, their effect on references or the fault that refuses
// them, and the image afterwards.
#[derive(Clone, Copy)]
struct Row {
    name: &'static str,
    cluster_bits: u32,
    cluster: u64,
    external: bool,
    before: Contents<'static>,
    edits: &'static [Edit],
    expected: Result<References<'static>, Fault>,
    after: Contents<'static>,
}

const ROW: Row = Row {
    name: "no edit",
    cluster_bits: 9,
    cluster: 2,
    external: false,
    before: ONE,
    edits: &[],
    expected: NOTHING,
    after: ONE,
};

const ROWS: &[Row] = rows! {
    Row { name: "gone", edits: &[TO_5, TO_6, GONE], expected: Ok(outcome!([6], [(5, 1), (6, 1)])),
        after: (1536, &[]), ..ROW },
    ROW,
    Row { name: "no edit at the last place", cluster: LAST, before: SHORT, after: SHORT, ..ROW },
    Row { name: "an edit that leaves the entry", edits: &[TO_5], ..ROW },
    Row { name: "a hundred edits", edits: &[GONE; 100], expected: Ok(outcome!([], [(5, 1)])),
        after: (1536, &[]), ..ROW },
    Row { name: "a table past the end", before: (1024, &[]), edits: &[TO_5], expected: Ok(outcome!([5], [])),
        ..ROW },
    Row { name: "cluster 0 of an external data file", external: true, before: (2000, &[DATA]), edits: &[TO_0],
        expected: Ok(outcome!([0], [(5, 1)])), after: (2000, &[(1048, &[0x80])]), ..ROW },
    Row { name: "both ends of a table of 2 MiB", cluster_bits: 21, cluster: 1,
        before: (4_194_400, &[(2_097_152, &[0x80, 0, 0, 0, 0, 0x40, 0, 0])]), edits: ENDS_OF_2_MIB,
        expected: Ok(outcome!([3], [(2, 1)])),
        after: (4_194_400, &[(2_097_159, &[1]), (4_194_296, &[0x80, 0, 0, 0, 0, 0x60, 0, 0])]), ..ROW },
    Row { name: "past the end", edits: &[GONE, PAST], expected: Err(Fault::BadEdit(1)), ..ROW },
    Row { name: "at the last place", cluster: LAST, before: SHORT, edits: &[PAST],
        expected: Err(Fault::BadEdit(0)), after: SHORT, ..ROW },
    Row { name: "past 2^56", cluster: LAST + 1, before: SHORT, edits: &[PAST],
        expected: Err(Fault::TablePlace), after: SHORT, ..ROW },
    Row { name: "past 64 bits", cluster: u64::MAX, before: SHORT, expected: Err(Fault::TablePlace),
        after: SHORT, ..ROW },
    // damaged entries: the last one, an unaligned one before one with a reserved bit, and the last one of 2
    // MiB
    Row { name: "reserved", before: DAMAGED, edits: &[PAST], expected: Err(Fault::EntryReserved),
        after: DAMAGED, ..ROW },
    Row { name: "unaligned", cluster_bits: 10, cluster: 1, before: DAMAGED_2, edits: &[GONE],
        expected: Err(Fault::EntryUnaligned), after: DAMAGED_2, ..ROW },
    Row { name: "of 2 MiB", cluster_bits: 21, cluster: 1, before: DAMAGED_LAST, edits: ENDS_OF_2_MIB,
        expected: Err(Fault::EntryReserved), after: DAMAGED_LAST, ..ROW },
};

const NOTHING: Result<References<'static>, Fault> = Ok(outcome!([], []));

// The last cluster of 512 bytes, which ends at 2^56.
const LAST: u64 = 0x7fff_ffff_ffff;

const ONE: Contents<'static> = (1536, &[DATA]);

const SHORT: Contents<'static> = (700, &[]);

const DAMAGED: Contents<'static> = (1536, &[DATA, (1535, RESERVED)]);

const DAMAGED_2: Contents<'static> = (2048, &[DATA, (1063, RESERVED)]);

const DAMAGED_LAST: Contents<'static> = (4_194_304, &[(4_194_303, RESERVED)]);

#[test]
fn edits_stand_in_the_image_or_leave_it(rt: HostRuntime) -> Result<(), Fail> {
    for row in ROWS {
        check_edits(rt.alloc(), *row, 0)?;
        check_edits(rt.alloc(), *row, 0xa5)?;
    }
    Ok(())
}

// Makes the edits of a row, with this byte around the table.
fn check_edits(alloc: Global, row: Row, around: u8) -> Result<(), Fail> {
    let place = (row.cluster_bits, row.cluster);
    let mut image = recording_image(alloc, place, around, row.before)?;
    let header = header_of(alloc, row.cluster_bits, 4, row.external)?;
    let answer = edit_image(
        alloc,
        &mut image,
        &header,
        HostCluster(row.cluster),
        row.edits,
    );
    let is_read = row.expected != Err(Fault::TablePlace);
    let is_written = row.expected.is_ok() && !row.edits.is_empty();
    check_outcome(answer, row.expected, row.name)?;
    let calls = (is_read, is_written);
    check_image(&image, alloc, place, around, row.after, calls, row.name)
}
