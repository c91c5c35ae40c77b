//! Refcounts of a block that follow edits of a table.

use crate::blocks::{Counters, block_of, check_counters};
use crate::tables::{
    DATA_5, Entries, GONE, KEEP, PAST, References, TO_5, TO_6, check_outcome, check_table, outcome,
    table_with,
};
use End::{Counted, Refused, Unchanged};
use qcow2_base::{Fault, HostCluster, MemStorage};
use qcow2_calls::{header_of, load_block, write_block};
use qcow2_metadata::{Header, L2Table, RefBlock};
use qcow2_session::{Edit, Outcome};
use qcow2_session_calls::{edit_image, edit_settled, settle};
use qcow2_testing::sample_image::sample_image;
use qcow2_testing::{each, put_bytes, rows, same, same_bytes};
use std::alloc::{AllocError, Global};
use std::test::Fail;

// The result of settling a block.
#[derive(Clone, Copy)]
enum End {
    /// Refcounts changed, so the block counts as modified.
    Counted,
    Unchanged,
    Refused(Fault),
}

// A block that begins with these bytes and has these refcounts, and its index in the refcount table; the
// effect of edits on references, the result of settling, and the refcounts afterwards.
#[derive(Clone, Copy)]
struct Row<'a> {
    name: &'static str,
    cluster_bits: u32,
    refcount_order: u32,
    external: bool,
    rt_index: usize,
    bytes: &'a [u8],
    before: Counters<'a>,
    references: References<'a>,
    end: End,
    after: Counters<'a>,
}

const ROW: Row<'static> = Row {
    name: "",
    cluster_bits: 9,
    refcount_order: 4,
    external: false,
    rt_index: 0,
    bytes: &[],
    before: FIVE,
    references: outcome!([], []),
    end: Unchanged,
    after: FIVE,
};

// The index in the refcount table of a block of 64 refcounts, the first of which is that of cluster 2^64.
const AT_2_TO_THE_64: usize = 1 << 58;

const MAX: u64 = u64::MAX;

// Refcount 1 for all clusters of a block of 64.
const ONES: Counters<'static> = &[(0, 64, 1)];

const FIVE: Counters<'static> = &[(5, 1, 1)];

const OUT_OF_RANGE: End = Refused(Fault::CounterRange);

const EXTERNAL: End = Refused(Fault::ExternalData);

const ROWS: &[Row<'static>] = rows! {
    Row { name: "one lost, one gained and lost", references: outcome!([6], [(5, 1), (6, 1)]), end: Counted,
        after: &[], ..ROW },
    Row { name: "one lost that has no reference", before: &[], references: outcome!([6], [(5, 1), (6, 1)]),
        end: OUT_OF_RANGE, after: &[], ..ROW },
    Row { name: "the first and the last of three", cluster_bits: 10, before: &[(1, 3, 1)],
        references: outcome!([2], [(1, 3)]), end: Counted, after: &[(2, 1, 1)], ..ROW },
    Row { name: "the last of a block and one past it", refcount_order: 6, before: &[(63, 1, 1)],
        references: outcome!([], [(63, 2)]), end: Counted, after: &[], ..ROW },
    Row { name: "the first of the second block", refcount_order: 6, rt_index: 1, before: &[(0, 1, 1)],
        references: outcome!([], [(63, 2)]), end: Counted, after: &[], ..ROW },
    Row { name: "one bit, gained before it is lost", refcount_order: 0, references: outcome!([5], [(5, 1)]),
        end: OUT_OF_RANGE, ..ROW },
    Row { name: "no cluster", references: outcome!([], [(5, 0)]), ..ROW },
    Row { name: "an external data file", external: true, references: outcome!([5], [(6, 1)]), end: EXTERNAL,
        ..ROW },
    // a refusal restores the refcounts that were raised or lowered before it
    Row { name: "200 counted down before one that can't be", before: FIRST_200,
        references: outcome!([0, 1, 2], [(0, 200), (255, 1)]), end: OUT_OF_RANGE, after: FIRST_200, ..ROW },
    // a cluster that gains or loses more than one reference
    Row { name: "gained twice, lost once", refcount_order: 1, references: outcome!([5, 5], [(5, 1)]),
        end: Counted, after: &[(5, 1, 2)], ..ROW },
    Row { name: "lost twice", before: &[(5, 2, 1)], references: outcome!([], [(5, 2), (5, 1)]),
        end: OUT_OF_RANGE, after: &[(5, 2, 1)], ..ROW },
};

const AT_BORDERS: &[Row<'static>] = rows! {
    // ranges that begin before the block, and that end before it and begin after it
    Row { name: "from before the block on", refcount_order: 6, rt_index: 1, before: ONES,
        references: outcome!([], [(60, 8)]), end: Counted, after: &[(4, 60, 1)], ..ROW },
    Row { name: "before the block and after it", refcount_order: 6, rt_index: 1, before: ONES,
        references: outcome!([], [(0, 64), (128, 1)]), after: ONES, ..ROW },
    // ranges of 2^64 - 1 clusters
    Row { name: "to 2^64", refcount_order: 6, before: ONES, references: outcome!([], [(1, MAX)]),
        end: Counted, after: &[(0, 1, 1)], ..ROW },
    Row { name: "at the last cluster", refcount_order: 6, before: ONES,
        references: outcome!([], [(MAX, MAX)]), after: ONES, ..ROW },
    // blocks that begin past every cluster, at 2^64, and 64 clusters before it
    Row { name: "past every cluster", refcount_order: 6, rt_index: usize::MAX, before: ONES,
        references: outcome!([MAX], [(MAX, MAX)]), after: ONES, ..ROW },
    Row { name: "at 2^64", refcount_order: 6, rt_index: AT_2_TO_THE_64, before: ONES,
        references: outcome!([], [(MAX, 3)]), end: Counted, after: &[(2, 62, 1)], ..ROW },
    Row { name: "64 before 2^64", refcount_order: 6, rt_index: AT_2_TO_THE_64 - 1, before: ONES,
        references: outcome!([], [(MAX, 3)]), end: Counted, after: &[(0, 63, 1)], ..ROW },
};

const FIRST_200: Counters<'static> = &[(0, 200, 1)];

// A refcount order, the number of refcounts in a block of 512 bytes, and the largest refcount.
type Width = (u32, usize, u64);

const WIDTHS: &[Width] = rows! {
    (0, 4096, 1), (1, 2048, 3), (2, 1024, 15), (3, 512, 255), (4, 256, 0xffff), (5, 128, 0xffff_ffff),
    (6, 64, MAX),
};

// Settles the block of a row, without and with the modified flag.
fn check_both(alloc: Global, row: Row<'_>) -> Result<(), Fail> {
    check_settled(alloc, row, false)?;
    check_settled(alloc, row, true)
}

#[test]
fn counters_follow_what_clusters_gained_and_lost(rt: HostRuntime) -> Result<(), Fail> {
    each(rt.alloc(), ROWS, check_both)
}

#[test]
fn counters_follow_the_clusters_of_their_block_alone(rt: HostRuntime) -> Result<(), Fail> {
    each(rt.alloc(), AT_BORDERS, check_both)
}

#[test]
fn no_counter_passes_the_greatest_number_of_its_width(rt: HostRuntime) -> Result<(), Fail> {
    each(rt.alloc(), WIDTHS, check_ends)
}

// Checks that a cluster can gain and lose a reference if its refcount is 0, but not if it is the largest one,
// as all refcounts are in bytes 0xff.
fn check_ends(alloc: Global, (order, count, greatest): Width) -> Result<(), Fail> {
    let full = [(0, count, greatest)];
    let below = [(5, 1, greatest.wrapping_sub(1)), (0, count, greatest)];
    check_end(alloc, (order, &[]), GAINED_AND_LOST, Counted, &[])?;
    check_end(alloc, (order, FULL), GAINED_AND_LOST, OUT_OF_RANGE, &full)?;
    check_end(
        alloc,
        (order, FULL),
        outcome!([], [(5, 1)]),
        Counted,
        &below,
    )
}

const GAINED_AND_LOST: References<'static> = outcome!([5], [(5, 1)]);

const FULL: &[u8] = &[0xff; 512];

// Settles a block of this refcount order that begins with these bytes.
fn check_end(
    alloc: Global,
    (refcount_order, bytes): (u32, &'static [u8]),
    references: References<'static>,
    end: End,
    after: Counters<'_>,
) -> Result<(), Fail> {
    let row = Row {
        name: "the ends of a width",
        refcount_order,
        bytes,
        before: &[],
        references,
        end,
        after,
        ..ROW
    };
    check_both(alloc, row)
}

// Returns gained and lost references as an outcome.
fn outcome_of(alloc: Global, (gained, freed): References<'_>) -> Result<Outcome, AllocError> {
    Ok(Outcome {
        gained: Vec::from_slice(alloc, gained)?,
        freed: Vec::from_slice(alloc, freed)?,
    })
}

// Settles the block of a row, with this modified flag.
fn check_settled(alloc: Global, row: Row<'_>, modified: bool) -> Result<(), Fail> {
    let image = (row.cluster_bits, row.refcount_order, row.external);
    let mut block = block_of(alloc, image, (row.bytes, row.before), modified)?;
    let header = header_of(alloc, image.0, image.1, image.2)?;
    let outcome = outcome_of(alloc, row.references)?;
    let answer = settle(&mut block, &header, row.rt_index, &outcome);
    let (expected, counts_some) = match row.end {
        Counted => (Ok(()), true),
        Unchanged => (Ok(()), false),
        Refused(fault) => (Err(fault), false),
    };
    same(answer, expected, row.name)?;
    check_counters(&block, row.after, modified || counts_some, row.name)
}

// An entry of compressed data in clusters 0 and 1.
const COMPRESSED_0_1: u64 = 0x6000_0000_0000_0001;

// A block, its index in the refcount table, and entry 3 of a table; edits of the table, their effect on
// references or the fault, the block and the entry afterwards; and whether the edits make the block count as
// modified.
#[derive(Clone, Copy)]
struct Settled {
    name: &'static str,
    refcount_order: u32,
    external: bool,
    rt_index: usize,
    before: Counters<'static>,
    entry: u64,
    edits: &'static [Edit],
    expected: Result<References<'static>, Fault>,
    after: Counters<'static>,
    entry_after: u64,
    counts_some: bool,
}

const SETTLED_ROW: Settled = Settled {
    name: "",
    refcount_order: 4,
    external: false,
    rt_index: 0,
    before: FIVE,
    entry: DATA_5,
    edits: &[],
    expected: NOTHING,
    after: FIVE,
    entry_after: DATA_5,
    counts_some: false,
};

const NOTHING: Result<References<'static>, Fault> = Ok(outcome!([], []));

const CANNOT_COUNT: Result<References<'static>, Fault> = Err(Fault::CounterRange);

const SETTLED: &[Settled] = rows! {
    Settled { name: "discarded data", edits: &[GONE], expected: Ok(outcome!([], [(5, 1)])), after: &[],
        entry_after: 0, counts_some: true, ..SETTLED_ROW },
    Settled { name: "discarded, but not counted", before: &[], edits: &[GONE], expected: CANNOT_COUNT,
        after: &[], ..SETTLED_ROW },
    Settled { name: "zeros that keep the cluster", edits: &[KEEP], entry_after: DATA_5 + 1, ..SETTLED_ROW },
    Settled { name: "compressed data, remapped", before: &[(0, 2, 1)], entry: COMPRESSED_0_1, edits: &[TO_5],
        expected: Ok(outcome!([5], [(0, 2)])), counts_some: true, ..SETTLED_ROW },
    Settled { name: "there and back", edits: &[TO_6, TO_5], expected: THERE_AND_BACK, counts_some: true,
        ..SETTLED_ROW },
    Settled { name: "there and back, by counters of one bit", refcount_order: 0, edits: &[TO_6, TO_5],
        expected: CANNOT_COUNT, ..SETTLED_ROW },
    Settled { name: "a hundred discards", edits: &[GONE; 100], expected: Ok(outcome!([], [(5, 1)])),
        after: &[], entry_after: 0, counts_some: true, ..SETTLED_ROW },
    Settled { name: "a block of other clusters", rt_index: 1, edits: &[GONE],
        expected: Ok(outcome!([], [(5, 1)])), entry_after: 0, ..SETTLED_ROW },
    Settled { name: "an edit past the end, which is refused first", before: &[], edits: &[GONE, PAST],
        expected: Err(Fault::BadEdit(1)), after: &[], ..SETTLED_ROW },
    Settled { name: "no edit", ..SETTLED_ROW },
    Settled { name: "an external data file", external: true, edits: &[PAST],
        expected: Err(Fault::ExternalData), ..SETTLED_ROW },
};

const THERE_AND_BACK: Result<References<'static>, Fault> = Ok(outcome!([6, 5], [(5, 1), (6, 1)]));

#[test]
fn edits_are_counted_or_not_made(rt: HostRuntime) -> Result<(), Fail> {
    for row in SETTLED {
        check_settled_edits(rt.alloc(), *row, (false, true))?;
        check_settled_edits(rt.alloc(), *row, (true, false))?;
    }
    Ok(())
}

// Makes the edits of a row in a table and a block with these modified flags.
fn check_settled_edits(
    alloc: Global,
    row: Settled,
    (table_modified, block_modified): (bool, bool),
) -> Result<(), Fail> {
    let image = (9, row.refcount_order, row.external);
    let mut table = table_with(alloc, (9, row.external), (3, &[row.entry]), table_modified)?;
    let mut block = block_of(alloc, image, (&[], row.before), block_modified)?;
    let answer = edit_both(alloc, &mut table, &mut block, row);
    check_outcome(answer, row.expected, row.name)?;
    let is_edited = row.expected.is_ok() && !row.edits.is_empty();
    let entries: Entries<'_> = (3, &[row.entry_after]);
    check_table(&table, entries, table_modified || is_edited, row.name)?;
    let block_modified = block_modified || row.counts_some;
    check_counters(&block, row.after, block_modified, row.name)
}

fn edit_both(
    alloc: Global,
    table: &mut L2Table,
    block: &mut RefBlock,
    row: Settled,
) -> Result<Outcome, Fault> {
    let header = header_of(alloc, 9, row.refcount_order, row.external)?;
    edit_settled(alloc, table, block, &header, row.rt_index, row.edits)
}

// Returns the sample image with a refcount block in cluster 3, where cluster 5 has refcount 1.
fn image_with_block(alloc: Global) -> Result<MemStorage, Fail> {
    let mut image = sample_image(alloc, 9, &[])?;
    put_bytes(&mut image, 1536, &[0, 1, 0, 1, 0, 1, 0, 1, 0, 0, 0, 1])?;
    put_bytes(&mut image, 2047, &[0])?;
    Ok(image)
}

// Edits the table in cluster 2 of the image, and settles the block in cluster 3.
fn edit_and_settle(alloc: Global, image: &mut MemStorage, edits: &[Edit]) -> Result<(), Fault> {
    let header = header_of(alloc, 9, 4, false)?;
    let outcome = edit_image(alloc, image, &header, HostCluster(2), edits)?;
    settle_in(alloc, image, &header, &outcome)
}

fn settle_in(
    alloc: Global,
    image: &mut MemStorage,
    header: &Header,
    outcome: &Outcome,
) -> Result<(), Fault> {
    let mut block = load_block(alloc, image, header, HostCluster(3))?;
    settle(&mut block, header, 0, outcome)?;
    write_block(&mut block, image)
}

#[test]
fn what_edits_of_an_image_did_is_counted_in_its_block(rt: HostRuntime) -> Result<(), Fail> {
    let mut image = image_with_block(rt.alloc())?;
    edit_and_settle(rt.alloc(), &mut image, &[TO_6])?;
    let mut expected = image_with_block(rt.alloc())?;
    put_bytes(&mut expected, 1048, &[0x80, 0, 0, 0, 0, 0, 0xc, 0])?;
    put_bytes(&mut expected, 1546, &[0, 0, 0, 1])?;
    same_bytes(image.bytes(), expected.bytes(), "the image")
}
