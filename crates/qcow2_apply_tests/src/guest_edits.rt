//! Edits of a disk as edits of its L2 tables, and those that don't fit the disk.

use crate::small_image::small_image;
use qcow2_apply::{GuestEdit, edits_in, first_unfit};
use qcow2_base::{GuestOffset, HostCluster};
use qcow2_edits::Edit;
use qcow2_metadata::Header;
use qcow2_testing::{each, row_error, rows, same};
use std::alloc::Global;
use std::test::Fail;

// An edit of a disk, and the edits that it makes in the L2 table of an L1 entry. Clusters have 512 bytes, and
// tables 64 entries.
#[derive(Clone, Copy)]
struct InTable<'a> {
    name: &'a str,
    edit: GuestEdit,
    l1_index: usize,
    edits: &'a [Edit],
}

const BOTH_TABLES: GuestEdit = GuestEdit::Discard {
    offset: GuestOffset(62 * 512),
    length: 4 * 512,
};

const MAPPED: GuestEdit = GuestEdit::Map {
    offset: GuestOffset(65 * 512),
    host_cluster: HostCluster(9),
};

const KEPT: GuestEdit = GuestEdit::Zero {
    offset: GuestOffset(512),
    length: 512,
    keep_allocation: true,
};

const IN_TABLES: &[InTable<'static>] = rows! { InTable:
    { name: "the end of a table", edit: BOTH_TABLES, l1_index: 0,
        edits: &[Edit::Discard { index: 62 }, Edit::Discard { index: 63 }] },
    { name: "the start of the next", edit: BOTH_TABLES, l1_index: 1,
        edits: &[Edit::Discard { index: 0 }, Edit::Discard { index: 1 }] },
    { name: "a table after the range", edit: BOTH_TABLES, l1_index: 2, edits: &[] },
    { name: "a mapped cluster", edit: MAPPED, l1_index: 1,
        edits: &[Edit::Map { index: 1, host_cluster: HostCluster(9) }] },
    { name: "a table before the range", edit: MAPPED, l1_index: 0, edits: &[] },
    { name: "zeros that keep their cluster", edit: KEPT, l1_index: 0,
        edits: &[Edit::Zero { index: 1, keep_allocation: true }] },
};

fn check_in_table(alloc: Global, row: InTable<'_>) -> Result<(), Fail> {
    if row.l1_index >= 1 << 32 {
        return Err(row_error(row.name));
    }
    let found = edits_in(alloc, &[row.edit], 9, row.l1_index)?;
    same(found.as_slice(), row.edits, row.name)
}

#[test]
fn an_edit_of_a_disk_is_edits_of_the_tables_of_its_range(rt: HostRuntime) -> Result<(), Fail> {
    each(rt.alloc(), IN_TABLES, check_in_table)
}

#[test]
fn edits_of_a_table_keep_their_order(rt: HostRuntime) -> Result<(), Fail> {
    let found = edits_in(rt.alloc(), &[KEPT, BOTH_TABLES, MAPPED], 9, 0)?;
    let expected = [
        Edit::Zero {
            index: 1,
            keep_allocation: true,
        },
        Edit::Discard { index: 62 },
        Edit::Discard { index: 63 },
    ];
    same(found.as_slice(), &expected, "three edits")
}

// A range of a disk of 128 clusters of 512 bytes, and whether it can be discarded.
#[derive(Clone, Copy)]
struct Range<'a> {
    name: &'a str,
    offset: u64,
    length: u64,
    fits: bool,
}

const RANGES: &[Range<'static>] = rows! { Range:
    { name: "the whole disk", offset: 0, length: 65536, fits: true },
    { name: "past its end", offset: 512, length: 65536, fits: false },
    { name: "an offset within a cluster", offset: 256, length: 512, fits: false },
    { name: "a length that isn't one of clusters", offset: 0, length: 513, fits: false },
    { name: "no length", offset: 0, length: 0, fits: false },
    { name: "the greatest offset and length", offset: u64::MAX - 511, length: u64::MAX - 511, fits: false },
};

// An offset of this disk, a host cluster, and whether the offset can be mapped to it.
#[derive(Clone, Copy)]
struct Mapping<'a> {
    name: &'a str,
    offset: u64,
    host_cluster: u64,
    fits: bool,
}

const MAPPINGS: &[Mapping<'static>] = rows! { Mapping:
    { name: "the last guest cluster", offset: 65024, host_cluster: 9, fits: true },
    { name: "the one after it", offset: 65536, host_cluster: 9, fits: false },
    { name: "the header's cluster", offset: 0, host_cluster: 0, fits: false },
    { name: "the last host cluster of an entry", offset: 0, host_cluster: (1 << 47) - 1, fits: true },
    { name: "a host cluster that no entry can name", offset: 0, host_cluster: 1 << 47, fits: false },
};

// Checks that the second of two edits is the first that doesn't fit, or that both fit.
fn check_fits(alloc: Global, edit: GuestEdit, fits: bool, name: &str) -> Result<(), Fail> {
    let header = Header::load(alloc, &mut small_image(alloc, &[])?, false)?;
    let expected = if fits { None } else { Some(1) };
    same(first_unfit(&header, &[KEPT, edit]), expected, name)
}

fn check_range(alloc: Global, row: Range<'_>) -> Result<(), Fail> {
    let edit = GuestEdit::Discard {
        offset: GuestOffset(row.offset),
        length: row.length,
    };
    check_fits(alloc, edit, row.fits, row.name)
}

fn check_mapping(alloc: Global, row: Mapping<'_>) -> Result<(), Fail> {
    let edit = GuestEdit::Map {
        offset: GuestOffset(row.offset),
        host_cluster: HostCluster(row.host_cluster),
    };
    check_fits(alloc, edit, row.fits, row.name)
}

#[test]
fn ranges_are_of_whole_clusters_of_the_disk(rt: HostRuntime) -> Result<(), Fail> {
    each(rt.alloc(), RANGES, check_range)
}

#[test]
fn entries_can_name_mapped_clusters(rt: HostRuntime) -> Result<(), Fail> {
    each(rt.alloc(), MAPPINGS, check_mapping)
}
