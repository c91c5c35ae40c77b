//! The library's functions for C. `include/zaqulle.h` says what each does.
//!
//! A function returns 0 or the number of its fault.
#![tactic(auto)]

ghost use Rattle.std.specs.Prelude.{length};
ghost use Rattle.qcow2_base.specs.Storage.{image_of};
ghost use Rattle.qcow2_bytes.specs.Entries.{l2_entry_in};
ghost use Rattle.qcow2_bytes.specs.Header.{first_cluster_size};
ghost use Rattle.qcow2_bytes.specs.Images.{fields_at};
ghost use Rattle.qcow2_bytes.specs.Images.Extents.{guest_disk};
ghost use Rattle.qcow2_bytes.specs.Refcounts.{refcounts_in, settled_refcounts};
ghost use Rattle.qcow2_ffi.specs.Calls.{ChecksEntries, HandsOver, HandsOverCheck, HandsOverComputed, HandsOverDiskExtents, HandsOverHeader, SettlesCounters, l1_numbers};

use qcow2_bytes::{
    CheckTotals, EntryMapping, ExtentFields, FindingFields, HeaderFields, HostClusters,
    first_bad_l2_entry, header_bytes, image_check, image_extents, image_lookup, l1_entry, l2_entry,
    read_header, read_refcounts, settle_refcounts,
};
use std::alloc::Global;

mod tables;

/// Returns the size of an image's first cluster in bytes, from its first 104 bytes.
#[unsafe(no_mangle)]
pub extern "C" fn zq_header_bytes(first_bytes: &[u8], size: &mut usize) -> u32
    ensures { HandsOver (first_cluster_size first_bytes.now) result size.old size.new }
{
    match header_bytes(first_bytes) {
        Ok(found) => {
            *size = found;
            0
        }
        Err(fault) => fault.number(),
    }
}

/// Decodes the header of an image from the bytes of its first cluster.
#[unsafe(no_mangle)]
pub extern "C" fn zq_header_read(alloc: Global, bytes: &[u8], header: &mut HeaderFields) -> u32
    ensures { HandsOverHeader bytes.now result header.old header.new }
{
    match read_header(alloc, bytes) {
        Ok(fields) => {
            *header = fields;
            0
        }
        Err(fault) => fault.number(),
    }
}

/// Decodes an L1 entry.
#[unsafe(no_mangle)]
pub extern "C" fn zq_l1_entry(
    entry: u64,
    header: &HeaderFields,
    l2_offset: &mut u64,
    copied: &mut u32,
) -> u32
    ensures { HandsOver (l1_numbers header.now entry) result
        (l2_offset.old, copied.old) (l2_offset.new, copied.new) }
{
    match l1_entry(entry, header) {
        Ok(pointer) => {
            *l2_offset = pointer.offset;
            *copied = pointer.copied as u32;
            0
        }
        Err(fault) => fault.number(),
    }
}

/// Decodes the L2 entry of a guest offset's cluster.
#[unsafe(no_mangle)]
pub extern "C" fn zq_l2_entry(
    entry: u64,
    header: &HeaderFields,
    guest_offset: u64,
    mapping: &mut EntryMapping,
) -> u32
    ensures { HandsOver (l2_entry_in header.now entry guest_offset) result mapping.old mapping.new }
{
    match l2_entry(entry, header, guest_offset) {
        Ok(found) => {
            *mapping = found;
            0
        }
        Err(fault) => fault.number(),
    }
}

/// Finds the first invalid entry in the bytes of an L2 table, or of a part of one.
#[unsafe(no_mangle)]
pub extern "C" fn zq_l2_check(bytes: &[u8], header: &HeaderFields, index: &mut usize) -> u32
    ensures { ChecksEntries header.now bytes.now result index.old index.new }
{
    match first_bad_l2_entry(bytes, header) {
        Ok(None) => 0,
        Ok(Some(bad)) => {
            *index = bad.index;
            bad.fault.number()
        }
        Err(fault) => fault.number(),
    }
}

/// Finds the mapping of a guest offset's cluster, by the bytes of a whole image.
#[unsafe(no_mangle)]
pub extern "C" fn zq_image_lookup(
    alloc: Global,
    bytes: &[u8],
    guest_offset: u64,
    mapping: &mut EntryMapping,
) -> u32
    ensures { HandsOverComputed (fields_at guest_offset (image_of bytes.now)) result mapping.old mapping.new }
{
    match image_lookup(alloc, bytes, guest_offset) {
        Ok(found) => {
            *mapping = found;
            0
        }
        Err(fault) => fault.number(),
    }
}

/// Reads refcounts from the bytes of a refcount block, from an index on.
#[unsafe(no_mangle)]
pub extern "C" fn zq_refcounts_read(
    bytes: &[u8],
    refcount_order: u32,
    first: usize,
    counters: &mut [u64],
) -> u32
    ensures { HandsOver (refcounts_in bytes.now refcount_order first (length counters.old)) result
        counters.old counters.new }
{
    match read_refcounts(bytes, refcount_order, first, counters) {
        Ok(()) => 0,
        Err(fault) => fault.number(),
    }
}

/// Updates the refcounts in the bytes of a refcount block after an edit.
#[unsafe(no_mangle)]
pub extern "C" fn zq_refcounts_settle(
    alloc: Global,
    bytes: &mut [u8],
    refcount_order: u32,
    block_index: u64,
    freed: &[HostClusters],
    gained: &[u64],
) -> u32
    ensures { SettlesCounters refcount_order
        (settled_refcounts bytes.old refcount_order block_index freed.now gained.now)
        result bytes.old bytes.new }
{
    match settle_refcounts(alloc, bytes, refcount_order, block_index, freed, gained) {
        Ok(()) => 0,
        Err(fault) => fault.number(),
    }
}

/// Lists the extents of the guest's disk from an offset on, by the bytes of a whole image.
#[unsafe(no_mangle)]
pub extern "C" fn zq_image_extents(
    alloc: Global,
    bytes: &[u8],
    from_offset: u64,
    extents: &mut [ExtentFields],
    count: &mut usize,
) -> u32
    ensures { HandsOverDiskExtents (guest_disk (image_of bytes.now)) from_offset extents.old extents.new
        result count.new }
{
    match image_extents(alloc, bytes, from_offset, extents) {
        Ok(found) => {
            *count = found;
            0
        }
        Err(cut) => {
            *count = cut.count;
            cut.fault.number()
        }
    }
}

/// Checks a whole image by its bytes.
#[unsafe(no_mangle)]
pub extern "C" fn zq_image_check(
    alloc: Global,
    bytes: &[u8],
    findings: &mut [FindingFields],
    count: &mut usize,
    totals: &mut CheckTotals,
) -> u32
    ensures { HandsOverCheck (image_of bytes.now) findings.old findings.new result
        (count.old, totals.old) (count.new, totals.new) }
{
    match image_check(alloc, bytes, findings) {
        Ok(found) => {
            *count = found.findings.min(findings.len() as u64) as usize;
            *totals = found;
            0
        }
        Err(fault) => fault.number(),
    }
}
