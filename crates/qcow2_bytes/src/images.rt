//! Calls over the bytes of a whole image in memory.

ghost use Rattle.std.specs.Prelude.{◌≡◌, ◌⊎◌, IfErr};
ghost use Rattle.qcow2_base.specs.Storage.{image_of};
ghost use Rattle.qcow2_base.specs.declared.fault.Fault.TheVariants.{NoMemory};
ghost use Rattle.qcow2_image.specs.Lookups.{IsImageFault};
ghost use Rattle.qcow2_metadata.specs.Entries.L2Mapping.{IsPlaced, meaning};
ghost use Rattle.qcow2_metadata.specs.Results.{Computes, Reads};
ghost use Rattle.qcow2_bytes.specs.Entries.{mapping_fields};
ghost use Rattle.qcow2_bytes.specs.Images.{fields_at, fields_in};

use crate::EntryMapping;
use crate::header::{load_any_header, without_storage_fault};
use qcow2_base::{Fault, GuestOffset, SliceStorage, Storage};
use qcow2_image::lookup_with_header;
use qcow2_metadata::{Header, L2Mapping};
use std::alloc::Global;

mod check;
mod extents;

pub use check::{CheckTotals, FindingFields, image_check};
pub use extents::{CutShort, ExtentFields, image_extents};

/// Returns the mapping of a guest offset's cluster, by the bytes of a whole image. Past its last byte the
/// image reads as zeros. Ignores the size of the guest's disk.
///
/// Reads the header, the L1 table and at most one L2 table, and returns the fault of the first of them that
/// is refused (one of 1 to 21).
pub fn image_lookup(alloc: Global, bytes: &[u8], guest_offset: u64) -> Result<EntryMapping, Fault>
    ensures exact { Computes (λ mapping. mapping) result (fields_at guest_offset (image_of bytes.now)) }
    ensures faults { IfErr result (λ fault. (fault ≡ NoMemory) ⊎ IsImageFault fault) }
{
    let mut image = SliceStorage::new(bytes, 0);
    match lookup_fields(alloc, &mut image, guest_offset) {
        Ok(mapping) => Ok(mapping),
        Err(fault) => Err(without_storage_fault(fault)),
    }
}

// The mapping of a guest offset's cluster, in plain numbers.
fn lookup_fields<S: Storage>(
    alloc: Global,
    image: &mut S,
    guest_offset: u64,
) -> Result<EntryMapping, Fault>
    ensures { Reads (λ mapping. mapping) result (fields_at guest_offset) IsImageFault
        (S.state image.old) (S.state image.new) }
{
    let header = load_any_header(alloc, image)?;
    fields_with_header(alloc, image, &header, guest_offset)
}

// The same for an image with this header.
fn fields_with_header<S: Storage>(
    alloc: Global,
    image: &mut S,
    header: &Header,
    guest_offset: u64,
) -> Result<EntryMapping, Fault>
    ensures { Reads (λ mapping. mapping) result (fields_in header.now guest_offset) IsImageFault
        (S.state image.old) (S.state image.new) }
{
    match lookup_with_header(alloc, image, header, GuestOffset(guest_offset)) {
        Ok(found) => Ok(fields_of(found, header.cluster_bits())),
        Err(fault) => Err(fault),
    }
}

// A mapping in plain numbers.
fn fields_of(mapping: L2Mapping, cluster_bits: u32) -> EntryMapping
    requires { IsPlaced cluster_bits mapping }
    ensures { result ≡ mapping_fields cluster_bits (meaning mapping) }
{
    let cluster_size = 1 << cluster_bits;
    let (kind, copied, offset, length) = match mapping {
        L2Mapping::Backing { backing_offset } => (0, false, backing_offset, cluster_size),
        L2Mapping::DataFile {
            host_cluster,
            copied,
        } => (1, copied, host_cluster.offset(cluster_bits).0, cluster_size),
        L2Mapping::Zero {
            host_cluster: None,
            copied,
        } => (2, copied, 0, 0),
        L2Mapping::Zero {
            host_cluster: Some(cluster),
            copied,
        } => (3, copied, cluster.offset(cluster_bits).0, cluster_size),
        L2Mapping::Compressed {
            host_offset,
            length,
        } => (4, false, host_offset.0, length.get()),
    };
    EntryMapping {
        kind,
        copied: copied as u32,
        offset,
        length,
    }
}
