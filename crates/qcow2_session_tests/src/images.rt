//! Images for edits and steps: a table or block of zeros, with other bytes around it.

use qcow2_base::{Fault, MemStorage};
use qcow2_testing::{FailingStorage, StorageCall, put_bytes, same, same_bytes};
use std::alloc::Global;
use std::test::Fail;

/// Bytes at offsets of an image.
pub(crate) type Parts<'a> = &'a [(u64, &'a [u8])];

/// The length of an image in bytes, and its parts.
pub(crate) type Contents<'a> = (usize, Parts<'a>);

// Returns an image with these parts. Its other bytes are 0 in a cluster, given with the cluster bits, and
// `around` elsewhere.
fn image_of(
    alloc: Global,
    (bits, cluster): (u32, u64),
    around: u8,
    (len, parts): Contents<'_>,
) -> Result<MemStorage, Fault> {
    let size = 1usize.wrapping_shl(bits);
    let start = (cluster as usize).saturating_mul(size).min(len);
    let end = start.saturating_add(size).min(len);
    let mut bytes = vec![in alloc; around; len]?;
    bytes[start..end].fill(0);
    with_parts(MemStorage::new(bytes), parts)
}

fn with_parts(mut image: MemStorage, parts: Parts<'_>) -> Result<MemStorage, Fault> {
    for (place, part) in parts {
        put_bytes(&mut image, *place, *part)?;
    }
    Ok(image)
}

/// Returns such an image that records its storage calls.
pub(crate) fn recording_image(
    alloc: Global,
    place: (u32, u64),
    around: u8,
    contents: Contents<'_>,
) -> Result<FailingStorage<MemStorage>, Fault> {
    Ok(FailingStorage::new(alloc, image_of(alloc, place, around, contents)?))
}

/// Fails unless the image is such a one, and its cluster was read and then written as the flags say, each by
/// one call for each piece of 4096 bytes.
pub(crate) fn check_image(
    image: &FailingStorage<MemStorage>,
    alloc: Global,
    place: (u32, u64),
    around: u8,
    contents: Contents<'_>,
    (is_read, is_written): (bool, bool),
    row: &str,
) -> Result<(), Fail> {
    let expected = image_of(alloc, place, around, contents)?;
    same_bytes(image.inner.bytes(), expected.bytes(), row)?;
    let pieces = 1usize.wrapping_shl(place.0).div_ceil(4096);
    let reads = if is_read { pieces } else { 0 };
    let writes = if is_written { pieces } else { 0 };
    same(reads_and_writes(image), (reads, writes), row)
}

// Returns the number of storage calls that were reads, and of those that were writes.
fn reads_and_writes(image: &FailingStorage<MemStorage>) -> (usize, usize) {
    let mut writes = 0usize;
    for call in &image.calls {
        if let StorageCall::Write { .. } = call {
            writes = writes.saturating_add(1);
        }
    }
    (image.calls.len().saturating_sub(writes), writes)
}
