//! Calls of headers: getters, setters, `update`, the pointer writes, and making entries for a header.

use super::Checks;
use crate::held::disk_header;
use qcow2_base::{Fault, MemStorage};
use qcow2_calls::{
    header_of, update_header, write_l1_table_pointer, write_reftable_pointer, write_size,
};
use qcow2_metadata::{FeatureType, Header, L1Entry, L2Entry, RefTableEntry, TableEntry};
use qcow2_testing::image_with;
use std::alloc::Global;

/// A new header, that of the disk, another like it, and an image with room for a header.
#[derive(Drop)]
pub(super) struct Headers {
    first: Header,
    disk: Header,
    other: Header,
    image: MemStorage,
}

pub(super) fn begin(alloc: Global) -> Result<Headers, Fault> {
    let (disk, other) = disk_headers(alloc)?;
    let first = header_of(alloc, 9, 4, false)?;
    let image = image_with(alloc, 512, &[])?;
    Ok(Headers {
        first,
        disk,
        other,
        image,
    })
}

// The header of the disk, twice.
fn disk_headers(alloc: Global) -> Result<(Header, Header), Fault> {
    let disk = disk_header(alloc, 32768)?;
    let other = disk_header(alloc, 32768)?;
    Ok((disk, other))
}

pub(super) fn make(turn: u64, headers: &mut Headers, checks: &mut Checks) {
    headers.disk.set_size(turn);
    checks.expect(is_of_9_bits(&headers.first) && is_of_9_bits(&headers.disk));
    checks.expect(points(&headers.first, 0, 0, 0));
    checks.expect(points(&headers.disk, turn, 512, 1));
    checks.expect(has_no_names(&headers.first) && has_no_names(&headers.disk));
    checks.expect(names_dirty(&headers.first) && !names_dirty(&headers.disk));
    checks.expect(update_header(&mut headers.other, &headers.disk).is_ok());
    checks.expect(headers.other.size() == turn);
    make_entries(turn % 1024 * 512, &headers.first, checks);
    write_pointers(&headers.disk, &mut headers.image, checks);
}

// Whether the header has version 3, clusters of 512 bytes and refcounts of 16 bits.
fn is_of_9_bits(header: &Header) -> bool {
    header.version() == 3
        && header.cluster_bits() == 9
        && header.cluster_size() == 512
        && header.l2_entries() == 64
        && header.refcount_order() == 4
        && header.rb_bits() == 8
        && header.rb_entries() == 256
        && header.require_version(3).is_ok()
}

// Whether the header has this size, an L1 table of this many entries at this offset, and no refcount table.
fn points(header: &Header, size: u64, l1_table_offset: u64, l1_table_entries: usize) -> bool {
    header.size() == size
        && header.l1_table_offset().0 == l1_table_offset
        && header.l1_table_entries() == l1_table_entries
        && header.reftable_offset().0 == 0
        && header.reftable_clusters().0 == 0
        && header.reftable_entries() == 0
}

fn has_no_names(header: &Header) -> bool {
    header.backing_filename().is_none()
        && header.backing_format().is_none()
        && header.external_data_filename().is_none()
        && !header.external_data_file()
}

fn names_dirty(header: &Header) -> bool {
    header.feature_name(FeatureType::Incompatible, 0).is_some()
}

fn make_entries(number: u64, header: &Header, checks: &mut Checks) {
    checks.expect(L1Entry::try_from_plain(number, header).is_ok());
    checks.expect(RefTableEntry::try_from_plain(number, header).is_ok());
    checks.expect(L2Entry::try_from_plain(number, header).is_ok());
}

fn write_pointers(header: &Header, image: &mut MemStorage, checks: &mut Checks) {
    checks.expect(write_size(header, image).is_ok());
    checks.expect(write_l1_table_pointer(header, image).is_ok());
    checks.expect(write_reftable_pointer(header, image).is_ok());
}
