//! A small image with two L2 tables and two refcount blocks.

use qcow2_apply::{GuestEdit, apply_edits};
use qcow2_base::{Device, Fault, MemStorage, Storage};
use qcow2_metadata::{AcceptedFeatures, Header};
use qcow2_summary::is_consistent;
use qcow2_testing::sample_image::{LARGER, NEXT_TABLE, REFTABLE, TO_7, TWO_TABLES, sample_image};
use qcow2_testing::{COPIED, Numbers, counted, put_all};
use std::alloc::Global;

/// The offset of the second L2 table.
pub(crate) const OTHER_TABLE: u64 = 3072;

/// The offset of the second block.
pub(crate) const OTHER_BLOCK: u64 = 3584;

// A second L2 table in cluster 6, and a second block in cluster 7. L2 tables have 64 entries, and blocks 256
// refcounts of 16 bits. Guest cluster 64 is the data in cluster 256, whose refcount is 2.
const SMALL: Numbers<'static> = counted! {
    LARGER,
    TWO_TABLES,
    (NEXT_TABLE, COPIED | OTHER_TABLE),
    (REFTABLE + 8, OTHER_BLOCK),
    TO_7,
    (OTHER_TABLE, 256 << 9),
    (OTHER_BLOCK, 2 << 48),
    (OTHER_BLOCK + 504, 0),
};

/// Returns the sample image with these tables and changes.
pub(crate) fn small_image(alloc: Global, changes: Numbers<'_>) -> Result<MemStorage, Fault> {
    let mut image = sample_image(alloc, 9, SMALL)?;
    put_all(&mut image, changes)?;
    Ok(image)
}

// Make edits of guest clusters of 512 bytes: a map to a host cluster; and for a number of consecutive
// clusters zeros, zeros that keep their host clusters, and a discard.
macro_rules! map {
    ($guest:literal to $host:expr) => {
        GuestEdit::Map { offset: GuestOffset($guest * 512), host_cluster: HostCluster($host) }
    };
}

macro_rules! zeros {
    ($guest:literal, $count:literal) => {
        GuestEdit::Zero { offset: GuestOffset($guest * 512), length: $count * 512, keep_allocation: false }
    };
}

macro_rules! kept {
    ($guest:literal, $count:literal) => {
        GuestEdit::Zero { offset: GuestOffset($guest * 512), length: $count * 512, keep_allocation: true }
    };
}

macro_rules! discard {
    ($guest:literal, $count:literal) => {
        GuestEdit::Discard { offset: GuestOffset($guest * 512), length: $count * 512 }
    };
}

pub(crate) use discard;
pub(crate) use kept;
pub(crate) use map;
pub(crate) use zeros;

/// Loads the header of an image, which may be marked.
pub(crate) fn header_of<S: Storage>(alloc: Global, image: &mut S) -> Result<Header, Fault> {
    Header::load_accepting(alloc, image, false, AcceptedFeatures::each())
}

/// Makes edits of a disk: the call without its contract.
pub(crate) fn apply<S: Device>(
    alloc: Global,
    image: &mut S,
    header: &mut Header,
    edits: &[GuestEdit],
) -> Result<(), Fault> {
    apply_edits(alloc, image, header, edits)?;
    Ok(())
}

/// Returns whether an image is consistent.
pub(crate) fn is_image_consistent<S: Storage>(alloc: Global, image: &mut S) -> Result<bool, Fault> {
    let header = header_of(alloc, image)?;
    is_consistent(alloc, image, &header)
}
