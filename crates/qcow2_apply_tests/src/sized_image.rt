//! Images of several cluster sizes and refcount widths, given by the content of six guest clusters and six
//! host clusters.

use qcow2_base::{Fault, MemStorage};
use qcow2_testing::{COPIED, VERSION_3, image_with, put, put_bytes, rows};
use std::alloc::Global;

/// A cluster size in bytes and a refcount order, with the number of entries of an L2 table, and of refcounts
/// of a block.
#[derive(Clone, Copy)]
pub(crate) struct Shape<'a> {
    pub(crate) name: &'a str,
    pub(crate) cluster_bits: u32,
    pub(crate) cluster_size: u64,
    pub(crate) entries: u64,
    pub(crate) refcount_order: u64,
    pub(crate) counters: u64,
}

/// Clusters of 512 bytes, with refcounts of one bit.
pub(crate) const NARROW: Shape<'static> = Shape {
    name: "512 bytes, 1 bit",
    cluster_bits: 9,
    cluster_size: 512,
    entries: 64,
    refcount_order: 0,
    counters: 4096,
};

/// Clusters of 512 bytes, with refcounts of 16 or 64 bits.
pub(crate) const WIDE: &[Shape<'static>] = rows! { Shape:
    { name: "512 bytes, 16 bits", cluster_bits: 9, cluster_size: 512, entries: 64, refcount_order: 4,
        counters: 256 },
    { name: "512 bytes, 64 bits", cluster_bits: 9, cluster_size: 512, entries: 64, refcount_order: 6,
        counters: 64 },
};

/// Larger clusters.
pub(crate) const LARGE: &[Shape<'static>] = rows! { Shape:
    { name: "64 KiB, 1 bit", cluster_bits: 16, cluster_size: 65536, entries: 8192, refcount_order: 0,
        counters: 524288 },
    { name: "64 KiB, 16 bits", cluster_bits: 16, cluster_size: 65536, entries: 8192, refcount_order: 4,
        counters: 32768 },
};

/// The largest clusters.
pub(crate) const LARGEST: Shape<'static> = Shape {
    name: "2 MiB, 64 bits",
    cluster_bits: 21,
    cluster_size: 2097152,
    entries: 262144,
    refcount_order: 6,
    counters: 262144,
};

/// The content of a guest cluster. Host clusters are named by their index among six: clusters 7 to 9, and the
/// first three that the second block counts.
#[derive(Clone, Copy)]
pub(crate) enum Guest {
    /// No data.
    Nothing,
    /// Zeros without a host cluster.
    Zeros,
    /// Zeros with a host cluster, which has no other reference.
    Kept(u64),
    /// Data in a host cluster without another reference.
    Data(u64),
    /// Data in a host cluster with another reference.
    Shared(u64),
    /// Compressed data in the first sector of a host cluster.
    First(u64),
    /// Compressed data from byte 16 of that sector on.
    Later(u64),
    /// Compressed data from 16 bytes before the end of a host cluster to the first sector of the next.
    Over(u64),
}

/// The content of an image: of the guest clusters that are the first of the disk, the last two of the first
/// L2 table, the first two of the second one, and the last of the disk; and the refcounts of the six host
/// clusters.
#[derive(Clone, Copy)]
pub(crate) struct Content<'a> {
    pub(crate) guests: &'a [Guest],
    pub(crate) counters: [u8; 6],
}

/// Returns the guest cluster at an index among the six.
pub(crate) fn guest_cluster(shape: Shape<'_>, index: u64) -> u64 {
    let entries = shape.entries;
    match index {
        0 => 0,
        1 => entries.wrapping_sub(2),
        2 => entries.wrapping_sub(1),
        3 => entries,
        4 => entries.wrapping_add(1),
        _ => entries.wrapping_mul(2).wrapping_sub(1),
    }
}

/// Returns the host cluster at an index among the six.
pub(crate) fn host_cluster(shape: Shape<'_>, index: u64) -> u64 {
    if index < 3 {
        return index.wrapping_add(7);
    }
    shape.counters.wrapping_add(index.wrapping_sub(3))
}

// Returns the L2 entry of a guest cluster.
fn number_of(shape: Shape<'_>, guest: Guest) -> u64 {
    let size = shape.cluster_size;
    let offset = |index: u64| -> u64 { host_cluster(shape, index).wrapping_mul(size) };
    match guest {
        Guest::Nothing => 0,
        Guest::Zeros => 1,
        Guest::Kept(index) => COPIED | offset(index) | 1,
        Guest::Data(index) => COPIED | offset(index),
        Guest::Shared(index) => offset(index),
        Guest::First(index) => 1 << 62 | offset(index),
        Guest::Later(index) => 1 << 62 | offset(index) | 16,
        Guest::Over(index) => {
            let start = offset(index).wrapping_add(size).wrapping_sub(16);
            1 << 62 | 1u64.wrapping_shl(70u32.wrapping_sub(shape.cluster_bits)) | start
        }
    }
}

// Writes the entry of the guest cluster at an index, into the table in cluster 4 or the next one in cluster
// 5.
fn put_guest(
    image: &mut MemStorage,
    shape: Shape<'_>,
    index: u64,
    guest: Guest,
) -> Result<(), Fault> {
    let first = shape.cluster_size.wrapping_mul(4);
    let place = first.wrapping_add(guest_cluster(shape, index).wrapping_mul(8));
    put(image, place, number_of(shape, guest))
}

// Writes the refcount of a cluster into its block, in cluster 3 or 6. A refcount of one bit must be 0 before.
fn put_counter(
    image: &mut MemStorage,
    shape: Shape<'_>,
    cluster: u64,
    counter: u8,
) -> Result<(), Fault> {
    let (block, index) = if cluster < shape.counters {
        (shape.cluster_size.wrapping_mul(3), cluster)
    } else {
        (
            shape.cluster_size.wrapping_mul(6),
            cluster.wrapping_sub(shape.counters),
        )
    };
    match shape.refcount_order {
        0 => {
            let place = block.wrapping_add(index / 8);
            let byte = image.bytes().get(place as usize).copied().unwrap_or(0);
            put_bytes(
                image,
                place,
                &[byte | counter.wrapping_shl((index % 8) as u32)],
            )
        }
        4 => put_bytes(
            image,
            block.wrapping_add(index.wrapping_mul(2)),
            &(counter as u16).to_be_bytes(),
        ),
        _ => put(
            image,
            block.wrapping_add(index.wrapping_mul(8)),
            counter as u64,
        ),
    }
}

// Returns the image without guest clusters and refcounts: the L1 table in cluster 1, and the refcount table
// in cluster 2.
fn empty_image(alloc: Global, shape: Shape<'_>) -> Result<MemStorage, Fault> {
    let size = shape.cluster_size;
    let place = |cluster: u64| -> u64 { size.wrapping_mul(cluster) };
    let disk = shape.entries.wrapping_mul(2).wrapping_mul(size);
    let numbers = [
        (0, VERSION_3),
        (16, shape.cluster_bits as u64),
        (24, disk),
        (32, 2),
        (40, place(1)),
        (48, place(2)),
        (56, 1 << 32),
        (96, shape.refcount_order.wrapping_shl(32) | 104),
        (place(1), COPIED | place(4)),
        (place(1).wrapping_add(8), COPIED | place(5)),
        (place(2), place(3)),
        (place(2).wrapping_add(8), place(6)),
    ];
    image_with(alloc, place(7) as usize, &numbers)
}

/// Returns the image of a shape with this content. The refcounts of its seven clusters of header and tables
/// are 1.
pub(crate) fn sized_image(
    alloc: Global,
    shape: Shape<'_>,
    content: Content<'_>,
) -> Result<MemStorage, Fault> {
    let mut image = empty_image(alloc, shape)?;
    for cluster in 0..7 {
        put_counter(&mut image, shape, cluster, 1)?;
    }
    put_content(&mut image, shape, content)?;
    Ok(image)
}

fn put_content(
    image: &mut MemStorage,
    shape: Shape<'_>,
    content: Content<'_>,
) -> Result<(), Fault> {
    for index in 0..6usize {
        let Some(guest) = content.guests.get(index) else {
            return Err(Fault::WrongLength);
        };
        put_guest(image, shape, index as u64, *guest)?;
        let cluster = host_cluster(shape, index as u64);
        put_counter(image, shape, cluster, content.counters[index])?;
    }
    Ok(())
}
