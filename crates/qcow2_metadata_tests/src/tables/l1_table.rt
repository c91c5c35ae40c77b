//! L1 tables: growth, entered L2 tables, and copied flags.

use super::fixtures::{
    COPIED, DISK, NUMBER, check_grown, check_table, cleared, disk_of, header_with, loaded,
    table_with,
};
use super::pending_clusters::{Entered, check_entered, pending_of};
use qcow2_calls::{NOT_MADE, enter_l2_table, grow_l1_table, set_l1_copied};
use qcow2_metadata::L1Table;
use qcow2_testing::{each, rows, same};
use std::alloc::Global;
use std::test::Fail;

// A table, an index, and the number of entries once the table has room for it, if it can.
#[derive(Clone, Copy, Debug)]
struct Growth {
    cluster_bits: u32,
    entries: usize,
    index: usize,
    grown: Option<usize>,
}

const GROWTHS: &[Growth] = rows! { Growth:
    { cluster_bits: 9, entries: 0, index: 0, grown: Some(64) },
    { cluster_bits: 9, entries: 0, index: 64, grown: Some(128) },
    { cluster_bits: 9, entries: 1, index: 64, grown: Some(128) },
    { cluster_bits: 9, entries: 64, index: 0, grown: Some(64) },
    { cluster_bits: 9, entries: 65, index: 63, grown: Some(128) },
    { cluster_bits: 9, entries: 4096, index: 4194303, grown: Some(4194304) },
    { cluster_bits: 21, entries: 1, index: 262144, grown: Some(524288) },
    { cluster_bits: 21, entries: 0, index: 4194303, grown: Some(4194304) },
    { cluster_bits: 9, entries: 0, index: 4194304, grown: None },
    { cluster_bits: 9, entries: 1, index: usize::MAX, grown: None },
};

// Grows a table, whose first entry alone isn't 0, and which stays.
fn check_growth(alloc: Global, row: Growth) -> Result<(), Fail> {
    let state = loaded(row.entries, 0, if row.entries > 0 { NUMBER } else { 0 });
    let source: L1Table = table_with(alloc, disk_of(row.cluster_bits), state)?;
    let header = header_with(alloc, row.cluster_bits)?;
    let answer = grow_l1_table(&source, row.index, &header);
    check_grown(answer, row.grown, state, row)?;
    check_table(&source, state, row)
}

#[test]
fn an_l1_table_grows_by_whole_clusters(rt: HostRuntime) -> Result<(), Fail> {
    each(rt.alloc(), GROWTHS, check_growth)
}

const ENTERED: &[Entered] = rows! { Entered:
    { cluster: Some(2), is_pending: false, number: 0x8000_0000_0000_0400 },
    { cluster: Some((1 << 47) - 1), is_pending: true, number: 0x80ff_ffff_ffff_fe00 },
    { cluster: None, is_pending: false, number: NUMBER }, { cluster: None, is_pending: true, number: NUMBER },
};

fn check_entering(alloc: Global, row: Entered) -> Result<(), Fail> {
    let mut table: L1Table = table_with(alloc, DISK, loaded(64, 3, NUMBER))?;
    let l2_table = table_with(alloc, DISK, cleared(64).placed(row.cluster, true))?;
    let found = enter_l2_table(&mut table, 3, &l2_table, pending_of(row));
    check_entered(&table, found, row)
}

#[test]
fn an_entered_l2_table_is_copied_and_at_its_offset(rt: HostRuntime) -> Result<(), Fail> {
    each(rt.alloc(), ENTERED, check_entering)
}

// The last entry of a table, a copied flag for it, and the entry afterwards.
#[derive(Clone, Copy, Debug)]
struct Flagged {
    cluster_bits: u32,
    entries: usize,
    number: u64,
    is_copied: bool,
    after: u64,
}

const FLAGGED: &[Flagged] = rows! { Flagged:
    { cluster_bits: 9, entries: 64, number: 0x400, is_copied: true, after: COPIED + 0x400 },
    { cluster_bits: 9, entries: 64, number: COPIED + 0x400, is_copied: true, after: COPIED + 0x400 },
    { cluster_bits: 9, entries: 64, number: COPIED + 0x400, is_copied: false, after: 0x400 },
    { cluster_bits: 9, entries: 1, number: FURTHEST, is_copied: true, after: COPIED + FURTHEST },
    { cluster_bits: 9, entries: 1, number: COPIED + FURTHEST, is_copied: false, after: FURTHEST },
    { cluster_bits: 16, entries: 2048, number: 0x3_0000, is_copied: true, after: COPIED + 0x3_0000 },
    { cluster_bits: 21, entries: 4194304, number: NUMBER, is_copied: false, after: 0x20_0000 },
    // an entry that names no table
    { cluster_bits: 9, entries: 64, number: 0, is_copied: true, after: COPIED },
    { cluster_bits: 9, entries: 64, number: COPIED, is_copied: false, after: 0 },
};

// The offset of the largest host cluster, for clusters of 512 bytes.
const FURTHEST: u64 = 0xff_ffff_ffff_fe00;

// Sets or clears the copied flag of the last entry, and fails unless all else stays.
fn check_flagged(alloc: Global, row: Flagged) -> Result<(), Fail> {
    let last = row.entries.saturating_sub(1);
    let state = loaded(row.entries, last, row.number);
    let mut table: L1Table = table_with(alloc, disk_of(row.cluster_bits), state)?;
    let past = set_l1_copied(&mut table, row.entries, row.is_copied);
    let answer = set_l1_copied(&mut table, last, row.is_copied);
    same((past, answer), (Err(NOT_MADE), Ok(())), row)?;
    let after = loaded(row.entries, last, row.after);
    check_table(&table, after.placed(Some(2), true), row)
}

#[test]
fn an_l1_entry_gets_or_loses_the_copied_flag_alone(rt: HostRuntime) -> Result<(), Fail> {
    each(rt.alloc(), FLAGGED, check_flagged)
}
