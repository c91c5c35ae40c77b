//! A header with everything that a header can have, whole and truncated.

use super::fixtures::{Changes, least_with, refusal};
use qcow2_base::{Fault, MemStorage};
use qcow2_testing::{row_error, rows, same};
use std::alloc::Global;
use std::test::Fail;

/// A header with clusters of 512 bytes. It has the format and the data file twice, and the last chunk of its
/// feature name table has one byte and an unknown type.
pub(crate) const RICH: Changes =
    "backing_file_offset=360, backing_file_size=6, size=0x102030405060708, \
    crypt_method=0x11121314, l1_size=0x21222324, l1_table_offset=0x3132333435363a00, \
    refcount_table_offset=0x4142434445464800, refcount_table_clusters=0x51525354, \
    nb_snapshots=0x61626364, snapshots_offset=0x7172737475767778, incompatible_features=4, \
    compatible_features=0x8182838485868788, autoclear_features=0x9192939495969798, refcount_order=5, \
    header_length=112, 104=a1a2a3a4a5a6a7a8, 112=format 05:qcow2, 128=names 91 0000:old, 184=0100:lazy, \
    232=0000:new, 280=ff, 288=data 08:dät.raw, 304=00000007 00000003:xyz, 320=format 05:qcow2, \
    336=data 08:dät.raw, 360=:ä.img";

// An image of 1536 bytes: a header with a size and an L1 table, and an entry in each of two tables.
const TWO_TABLES: Changes = "size=0x8000, l1_size=1, l1_table_offset=0x200, 512=8000000000000400, \
    1048=8000000000000a00, 1535=00";

// The end of each range of lengths, and the fault of a load of an image of a length in it.
type Ranges = &'static [(usize, Option<Fault>)];

// The results of loads of the first bytes of an image, by their number.
const CUT_TABLES: Ranges = rows! {
    (4, Some(Fault::NotQcow2)), (8, Some(Fault::Version)), (24, Some(Fault::ClusterSize)),
    (104, Some(Fault::HeaderShort)), (1536, None),
};

const CUT_RICH: Ranges = rows! {
    (4, Some(Fault::NotQcow2)), (8, Some(Fault::Version)), (24, Some(Fault::ClusterSize)),
    (104, Some(Fault::HeaderShort)),
    // later extensions are missing
    (136, None),
    // the last byte of the feature name table is missing and reads as 0, which is a feature type
    (281, Some(Fault::FeatureNameCut)), (298, None),
    // the data file's name is truncated, first inside a character
    (299, Some(Fault::ExtensionText)), (324, None),
    // the second format, and the data file's second name, also inside a character
    (333, Some(Fault::FormatConflict)), (340, None), (346, Some(Fault::DataFileConflict)),
    (347, Some(Fault::ExtensionText)), (352, Some(Fault::DataFileConflict)), (361, None),
    // the backing name inside a character
    (362, Some(Fault::BackingNameText)), (366, None),
};

// Returns the fault of the range that a length is in.
fn fault_at(ranges: Ranges, place: usize) -> Result<Option<Fault>, Fail> {
    for (end, fault) in ranges {
        if place < *end {
            return Ok(*fault);
        }
    }
    Err(row_error(place))
}

// Returns the fault of a load of the first bytes of an image, if it is refused.
fn refusal_of(alloc: Global, bytes: &[u8]) -> Result<Option<Fault>, Fault> {
    let mut image = MemStorage::new(Vec::from_slice(alloc, bytes)?);
    Ok(refusal(alloc, &mut image))
}

// Loads the minimal header with these changes, truncated to each length.
fn check_cuts(alloc: Global, changes: Changes, ranges: Ranges) -> Result<(), Fail> {
    let image = least_with(alloc, changes, "")?;
    let bytes = image.bytes();
    for place in 0..bytes.len() {
        let found = refusal_of(alloc, &bytes[..place])?;
        same(found, fault_at(ranges, place)?, place)?;
    }
    Ok(())
}

#[test]
fn bytes_past_the_images_end_load_as_zeros(rt: HostRuntime) -> Result<(), Fail> {
    check_cuts(rt.alloc(), TWO_TABLES, CUT_TABLES)?;
    check_cuts(rt.alloc(), RICH, CUT_RICH)
}
