//! The tested calls without their contracts, so that proofs about tests needn't read them.

use qcow2_base::Fault;
use qcow2_bytes::{
    BadEntry, CheckTotals, CutShort, EditCounts, EditFields, EditRefusal, EntryMapping,
    ExtentFields, FindingFields, HeaderFields, HostClusters, L2Pointer,
};
use std::alloc::Global;

pub(crate) fn header_bytes(first_bytes: &[u8]) -> Result<usize, Fault> {
    qcow2_bytes::header_bytes(first_bytes)
}

pub(crate) fn read_header(alloc: Global, bytes: &[u8]) -> Result<HeaderFields, Fault> {
    qcow2_bytes::read_header(alloc, bytes)
}

pub(crate) fn l1_entry(entry: u64, fields: &HeaderFields) -> Result<L2Pointer, Fault> {
    qcow2_bytes::l1_entry(entry, fields)
}

pub(crate) fn l2_entry(
    entry: u64,
    fields: &HeaderFields,
    guest_offset: u64,
) -> Result<EntryMapping, Fault> {
    qcow2_bytes::l2_entry(entry, fields, guest_offset)
}

pub(crate) fn first_bad_l2_entry(
    bytes: &[u8],
    fields: &HeaderFields,
) -> Result<Option<BadEntry>, Fault> {
    qcow2_bytes::first_bad_l2_entry(bytes, fields)
}

pub(crate) fn image_lookup(
    alloc: Global,
    bytes: &[u8],
    guest_offset: u64,
) -> Result<EntryMapping, Fault> {
    qcow2_bytes::image_lookup(alloc, bytes, guest_offset)
}

pub(crate) fn read_refcounts(
    bytes: &[u8],
    refcount_order: u32,
    first: usize,
    counters: &mut [u64],
) -> Result<(), Fault> {
    qcow2_bytes::read_refcounts(bytes, refcount_order, first, counters)
}

pub(crate) fn settle_refcounts(
    alloc: Global,
    bytes: &mut [u8],
    refcount_order: u32,
    block_index: u64,
    freed: &[HostClusters],
    gained: &[u64],
) -> Result<(), Fault> {
    qcow2_bytes::settle_refcounts(alloc, bytes, refcount_order, block_index, freed, gained)
}

pub(crate) fn edit_l2_table(
    alloc: Global,
    bytes: &mut [u8],
    fields: &HeaderFields,
    edits: &[EditFields],
    freed: &mut [HostClusters],
    gained: &mut [u64],
) -> Result<EditCounts, EditRefusal> {
    qcow2_bytes::edit_l2_table(alloc, bytes, fields, edits, freed, gained)
}

pub(crate) fn l2_extents(
    bytes: &[u8],
    fields: &HeaderFields,
    first_guest_offset: u64,
    extents: &mut [ExtentFields],
) -> Result<usize, Fault> {
    qcow2_bytes::l2_extents(bytes, fields, first_guest_offset, extents)
}

pub(crate) fn image_extents(
    alloc: Global,
    bytes: &[u8],
    from_offset: u64,
    extents: &mut [ExtentFields],
) -> Result<usize, CutShort> {
    qcow2_bytes::image_extents(alloc, bytes, from_offset, extents)
}

pub(crate) fn image_check(
    alloc: Global,
    bytes: &[u8],
    findings: &mut [FindingFields],
) -> Result<CheckTotals, Fault> {
    qcow2_bytes::image_check(alloc, bytes, findings)
}
