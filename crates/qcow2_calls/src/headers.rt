//! Calls of headers.

use crate::NOT_MADE;
use qcow2_base::{Fault, Storage};
use qcow2_metadata::Header;
use qcow2_testing::is_cluster_bits;
use std::alloc::{AllocError, Global};

/// `Header::load`.
pub fn load_header<S: Storage>(
    alloc: Global,
    image: &mut S,
    writable: bool,
) -> Result<Header, Fault> {
    Header::load(alloc, image, writable)
}

/// `Header::into_writable`.
pub fn into_writable<S: Storage>(header: Header, image: &mut S) -> Result<Header, Fault> {
    header.into_writable(image)
}

// Copies a name, if there is one.
fn text(alloc: Global, name: Option<&str>) -> Result<Option<String>, AllocError> {
    name.map(|name| String::from_str(alloc, name)).transpose()
}

/// `Header::new`.
pub fn new_header(
    alloc: Global,
    cluster_bits: u32,
    refcount_order: u32,
    backing_filename: Option<&str>,
    backing_format: Option<&str>,
    external_data_file: Option<&str>,
) -> Result<Header, Fault> {
    if !is_cluster_bits(cluster_bits) || refcount_order > 6 {
        return Err(NOT_MADE);
    }
    let name = text(alloc, backing_filename)?;
    let format = text(alloc, backing_format)?;
    let data_file = text(alloc, external_data_file)?;
    Header::new(alloc, cluster_bits, refcount_order, name, format, data_file)
}

/// A new header without a backing file, with an external data file or without.
pub fn header_of(
    alloc: Global,
    cluster_bits: u32,
    refcount_order: u32,
    is_external: bool,
) -> Result<Header, Fault> {
    let data_file = is_external.then_some("data.raw");
    new_header(alloc, cluster_bits, refcount_order, None, None, data_file)
}

/// `Header::update`.
pub fn update_header(header: &mut Header, other: &Header) -> Result<(), Fault> {
    header.update(other)
}

/// `Header::write`.
pub fn write_header<S: Storage>(header: &mut Header, image: &mut S) -> Result<(), Fault> {
    header.write(image)
}

/// `Header::write_size`.
pub fn write_size<S: Storage>(header: &Header, image: &mut S) -> Result<(), Fault> {
    header.write_size(image)
}

/// `Header::write_l1_table_pointer`.
pub fn write_l1_table_pointer<S: Storage>(header: &Header, image: &mut S) -> Result<(), Fault> {
    header.write_l1_table_pointer(image)
}

/// `Header::write_reftable_pointer`.
pub fn write_reftable_pointer<S: Storage>(header: &Header, image: &mut S) -> Result<(), Fault> {
    header.write_reftable_pointer(image)
}
