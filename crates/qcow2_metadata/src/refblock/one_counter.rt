//! Reads one refcount of a block in an image, without the others.

ghost use Rattle.std.specs.Prelude.{◌≡◌, ◌+◌, ◌*◌, ◌/◌, ◌<◌, ◌≤◌, Ok, length};
ghost use Rattle.qcow2_base.specs.Format.{max_file_length};
ghost use Rattle.qcow2_metadata.specs.Results.{Reads};
ghost use Rattle.qcow2_metadata.specs.Refblock.Packing.{counter_at, per_byte};

use super::RefBlock;
use super::packing::WideCounter;
use crate::Header;
use crate::range::{range_offset, read_range};
use qcow2_base::{Fault, HostCluster, HostOffset, Storage, field, read_be};

// Reads the refcount of at most 8 bits at an index of the block at an offset.
fn read_narrow<S: Storage>(
    image: &mut S,
    order: u32,
    offset: HostOffset,
    index: usize,
) -> Result<u64, Fault>
    requires order { order ≤ 3 }
    requires fits { offset.0 + index / per_byte order < max_file_length }
    ensures reads { Reads (λ counter. counter) result (λ bytes. Ok (counter_at order bytes offset.0 index))
        (λ _. ⊥) (S.state image.old) (S.state image.new) }
{
    let per_byte = 1 << (3 - order);
    let mut byte = [0u8; 1];
    let place = HostOffset(offset.0 + (index / per_byte) as u64);
    read_range(image, place, &mut byte)?;
    let first = (index % per_byte) as u32 * (1 << order);
    Ok(field(u64::from(byte[0]), first, 1 << order))
}

// Reads the refcount of whole bytes at an index of the block at an offset, through a buffer of its length.
fn read_wide<T: WideCounter, S: Storage>(
    image: &mut S,
    offset: HostOffset,
    index: usize,
    buffer: &mut [u8],
) -> Result<T, Fault>
    requires len { length buffer.old ≡ T.ON_DISK_SIZE }
    requires fits { offset.0 + T.ON_DISK_SIZE * index + T.ON_DISK_SIZE ≤ max_file_length }
    ensures reads { Reads T.number result (λ bytes. Ok (counter_at T.order bytes offset.0 index))
        (λ _. ⊥) (S.state image.old) (S.state image.new) }
{
    let place = HostOffset(offset.0 + (T::ON_DISK_SIZE * index) as u64);
    read_range(image, place, buffer)?;
    Ok(read_be(buffer, 0))
}

impl RefBlock {
    ghost use Rattle.std.specs.Prelude.{◌<◌, slice_index};
    ghost use Rattle.qcow2_metadata.specs.Placed.{RefusesPlace};
    ghost use Rattle.qcow2_metadata.specs.Refblock.{IsBlockFault, block_entries, block_geometry_of, block_layout, loaded_block};
    ghost use Rattle.qcow2_metadata.specs.Results.{result_map};

    /// Reads the refcount at an index of the block at a cluster of the image, and nothing else of the block.
    /// Refuses a block that would end past 2^56 (21). Allocates nothing, and never changes a byte.
    pub fn load_counter<S: Storage>(
        image: &mut S,
        header: &Header,
        cluster: HostCluster,
        index: usize,
    ) -> Result<u64, Fault>
        requires index { index < block_entries header.now.v2.cluster_bits header.now.base.refcount_order }
        ensures refused { RefusesPlace (block_layout (block_geometry_of header.now)) cluster result }
        ensures reads { Reads (λ counter. counter) result
            (λ bytes. result_map (λ counters. slice_index counters index)
            (loaded_block header.now cluster bytes))
            (IsBlockFault header.now cluster) (S.state image.old) (S.state image.new) }
    {
        let (bits, order) = (header.cluster_bits(), header.refcount_order());
        let offset = range_offset(cluster, bits, 1 << bits)?;
        match order {
            4 => Ok(u64::from(read_wide::<u16, S>(image, offset, index, &mut [0; 2])?)),
            5 => Ok(u64::from(read_wide::<u32, S>(image, offset, index, &mut [0; 4])?)),
            6 => read_wide::<u64, S>(image, offset, index, &mut [0; 8]),
            _ => read_narrow(image, order, offset, index),
        }
    }
}
