//! The extents of a whole image in memory.

ghost use Rattle.std.specs.Prelude.{◌≡◌, ◌⊎◌, Err, IfErr, IfOk, Ok, min};
ghost use Rattle.qcow2_base.specs.Storage.{OnImage, image_of};
ghost use Rattle.qcow2_base.specs.declared.fault.Fault.TheVariants.{NoMemory};
ghost use Rattle.qcow2_image.specs.Extents.{IsReaderOf};
ghost use Rattle.qcow2_image.specs.Lookups.{IsImageFault};
ghost use Rattle.qcow2_metadata.specs.Results.{IsFromOutside};
ghost use Rattle.qcow2_bytes.specs.Images.Extents.{PutsDiskExtents, PutsExtents, disk_for, extent_fields, guest_disk, guest_disk_in};

use crate::header::{load_any_header, without_storage_fault};
use qcow2_base::{Fault, GuestOffset, SliceStorage, Storage};
use qcow2_image::{Content, Extent, Extents};
use qcow2_metadata::Header;
use std::alloc::Global;

/// A part of the guest's disk with content of one kind, in plain numbers.
#[repr(C)]
#[derive(Clone, Copy, Debug, PartialEq, Eq)]
pub struct ExtentFields {
    /// The kind of content, by the numbers of `EntryMapping`.
    pub kind: u32,
    /// Always 0.
    pub reserved: u32,
    /// The offset of the extent on the guest's disk, in bytes.
    pub guest_offset: u64,
    /// The length of the extent in bytes. Never 0.
    pub length: u64,
    /// The offset of its first byte: for kind 0 in the backing file; for kinds 1 and 3 in the external data
    /// file, or in the image if it has none; 0 for kind 2. For kind 4, whose clusters are compressed one by
    /// one, `l2_extents` gives the offset of the first one's data, and `image_extents` gives 0.
    pub offset: u64,
}

/// The fault that ends a list of extents before the disk's end and the list's room are reached.
#[derive(Clone, Copy, Debug, PartialEq, Eq)]
pub struct CutShort {
    /// The number of extents before the fault.
    pub count: usize,
    pub fault: Fault,
}

// An extent in plain numbers.
fn fields_of(extent: &Extent) -> ExtentFields
    ensures { result ≡ extent_fields extent.now }
{
    let (kind, offset) = match extent.content {
        Content::Absent => (0, extent.start.0),
        Content::Data(offset) => (1, offset.0),
        Content::Zeros => (2, 0),
        Content::AllocatedZeros(offset) => (3, offset.0),
        Content::Compressed => (4, 0),
    };
    ExtentFields {
        kind,
        reserved: 0,
        guest_offset: extent.start.0,
        length: extent.length,
        offset,
    }
}

/// Writes the extents of the guest's disk from an offset on into `extents`, by the bytes of a whole image.
/// Returns their number: as many as fit, or all up to the disk's end. They follow one another from the offset
/// on, each as long as possible, as `Extents` returns them. There are none from the disk's end on. Past its
/// last byte the image reads as zeros.
///
/// Returns the fault of the header or of the L1 table with a count of 0, or that of an L2 table that is
/// needed to know an extent, with the number of extents before it: one of 1 to 21. Elements of `extents`
/// after them don't change.
pub fn image_extents(
    alloc: Global,
    bytes: &[u8],
    from_offset: u64,
    extents: &mut [ExtentFields],
) -> Result<usize, CutShort>
    ensures put { PutsDiskExtents (guest_disk (image_of bytes.now)) from_offset extents.old extents.new
        result }
    ensures faults { IfErr result (λ cut. (cut.fault ≡ NoMemory) ⊎ IsImageFault cut.fault) }
{
    let mut image = SliceStorage::new(bytes, 0);
    match put_extents(alloc, &mut image, GuestOffset(from_offset), extents) {
        Ok(count) => Ok(count),
        Err(cut) => Err(CutShort {
            count: cut.count,
            fault: without_storage_fault(cut.fault),
        }),
    }
}

// Writes the extents of an image's disk from an offset on.
fn put_extents<S: Storage>(
    alloc: Global,
    image: &mut S,
    from: GuestOffset,
    extents: &mut [ExtentFields],
) -> Result<usize, CutShort>
    ensures put { OnImage (S.state image.old) (λ bytes.
        PutsDiskExtents (guest_disk bytes) from.0 extents.old extents.new result) }
    ensures faults { IfErr result (λ cut. IsFromOutside cut.fault ⊎ IsImageFault cut.fault) }
{
    match load_any_header(alloc, image) {
        Ok(header) => put_with_header(alloc, image, &header, from, extents),
        Err(fault) => Err(CutShort { count: 0, fault }),
    }
}

// The same for an image with this header.
fn put_with_header<S: Storage>(
    alloc: Global,
    image: &mut S,
    header: &Header,
    from: GuestOffset,
    extents: &mut [ExtentFields],
) -> Result<usize, CutShort>
    ensures put { OnImage (S.state image.old) (λ bytes.
        PutsDiskExtents (guest_disk_in header.now bytes) from.0 extents.old extents.new result) }
    ensures faults { IfErr result (λ cut. IsFromOutside cut.fault ⊎ IsImageFault cut.fault) }
{
    match Extents::new(alloc, image, header) {
        Ok(mut reader) => {
            reader.seek(from);
            put_next(&mut reader, image, extents)
        }
        Err(fault) => Err(CutShort { count: 0, fault }),
    }
}

// Writes the next extents of a reader, as many as fit.
fn put_next<S: Storage>(
    reader: &mut Extents<'_>,
    image: &mut S,
    extents: &mut [ExtentFields],
) -> Result<usize, CutShort>
    requires { OnImage (S.state image.old) (λ bytes. IsReaderOf bytes reader.old) }
    ensures put { OnImage (S.state image.old) (λ bytes.
        PutsExtents (disk_for reader.old bytes) reader.old.position extents.old extents.new result) }
    ensures faults { IfErr result (λ cut. IsFromOutside cut.fault ⊎ IsImageFault cut.fault) }
{
    for count in 0..extents.len() {
        match reader.next(image) {
            Ok(Some(extent)) => extents[count] = fields_of(&extent),
            Ok(None) => return Ok(count),
            Err(fault) => return Err(CutShort { count, fault }),
        }
    }
    Ok(extents.len())
}
