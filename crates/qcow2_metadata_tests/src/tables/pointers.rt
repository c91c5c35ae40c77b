//! Pointers of a header to its tables, and writes of just these and of the disk's size.

use super::fixtures::{DISK, cleared, cleared_l1_table, header_with, table_with};
use super::pending_clusters::clusters;
use qcow2_base::{ClusterCount, Fault, HostOffset, Storage};
use qcow2_calls::{
    Refusal, set_l1_table, set_reftable, write_l1_table_pointer, write_reftable_pointer, write_size,
};
use qcow2_metadata::{Header, L1Table, RefTable, Table};
use qcow2_testing::{all_same, filled_image, put_bytes, recorded, same, same_image};
use std::alloc::Global;
use std::test::Fail;

// Sets the header's L1 table, of one entry, with pending clusters: those of the table, or clusters 7 to 9 if
// it has no cluster.
fn set_pending_table(header: &mut Header, table: &L1Table) -> Result<(), Refusal> {
    let pending = match table.get_cluster() {
        Some(first) => clusters(first.0, table.cluster_count().0),
        None => clusters(7, 3),
    };
    set_l1_table(header, table, Some(pending))
}

// Sets the header's refcount table, of 65 entries, with a cluster or none.
fn set_table_of_65(alloc: Global, header: &mut Header, cluster: Option<u64>) -> Result<(), Fault> {
    let table: RefTable = table_with(alloc, DISK, cleared(65).placed(cluster, true))?;
    set_reftable(header, &table)
}

// Sets the header's L1 table of one entry at 0x200 and its refcount table of 65 entries at 0x800, and then
// tables without a cluster, which are refused.
fn set_tables(alloc: Global, header: &mut Header) -> Result<(), Fail> {
    let found = set_pending_table(header, &cleared_l1_table(alloc, 1, Some(1), true)?);
    let answer = set_table_of_65(alloc, header, Some(4));
    same((found, answer), (Ok(()), Ok(())), "placed")?;
    let found = set_pending_table(header, &cleared_l1_table(alloc, 1, None, true)?);
    let answer = set_table_of_65(alloc, header, None);
    let refusal = (Fault::NotPlaced, Some(clusters(7, 3)));
    let expected = (Err(refusal), Err(Fault::NotPlaced));
    same((found, answer), expected, "not placed")
}

// Returns a header with a disk of 4096 bytes and these tables.
fn header_with_tables(alloc: Global) -> Result<Header, Fail> {
    let mut header = header_with(alloc, 9)?;
    header.set_size(4096);
    set_tables(alloc, &mut header)?;
    Ok(header)
}

#[test]
fn a_header_refers_to_the_tables_that_it_was_given(rt: HostRuntime) -> Result<(), Fail> {
    let header = header_with_tables(rt.alloc())?;
    all_same! {
        "tables",
        header.size() => 4096, header.l1_table_offset() => HostOffset(0x200), header.l1_table_entries() => 1,
        header.reftable_offset() => HostOffset(0x800), header.reftable_clusters() => ClusterCount(2),
        header.reftable_entries() => 128,
    }
}

// A part of a header that has a write of its own.
#[derive(Clone, Copy, Debug)]
enum Part {
    Size,
    L1Table,
    Reftable,
}

fn write_part<S: Storage>(header: &Header, image: &mut S, part: Part) -> Result<(), Fault> {
    match part {
        Part::Size => write_size(header, image),
        Part::L1Table => write_l1_table_pointer(header, image),
        Part::Reftable => write_reftable_pointer(header, image),
    }
}

// The parts, with the offset of their bytes, and the bytes.
const PARTS: &[(Part, u64, &'static [u8])] = &[
    (Part::Size, 24, &[0, 0, 0, 0, 0, 0, 0x10, 0]),
    (Part::L1Table, 36, &[0, 0, 0, 1, 0, 0, 0, 0, 0, 0, 2, 0]),
    (Part::Reftable, 48, &[0, 0, 0, 0, 0, 0, 8, 0, 0, 0, 0, 2]),
];

// Writes the part over 72 bytes 0xa5, and fails unless that takes one storage call.
fn check_written(
    alloc: Global,
    header: &Header,
    part: Part,
    (at, bytes): (u64, &[u8]),
) -> Result<(), Fail> {
    let mut expected = filled_image(alloc, 72)?;
    put_bytes(&mut expected, at, bytes)?;
    let mut image = recorded(alloc, filled_image(alloc, 72)?);
    let answer = write_part(header, &mut image, part);
    same((answer, image.calls.len()), (Ok(()), 1), part)?;
    same_image(&image.inner, Ok(expected), part)
}

#[test]
fn a_part_is_written_by_one_call_and_no_other_byte_changes(rt: HostRuntime) -> Result<(), Fail> {
    let header = header_with_tables(rt.alloc())?;
    for (part, at, bytes) in PARTS {
        check_written(rt.alloc(), &header, *part, (*at, bytes))?;
    }
    Ok(())
}
