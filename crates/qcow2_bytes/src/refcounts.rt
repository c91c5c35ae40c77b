//! The refcounts in the bytes of a refcount block.

ghost use Rattle.std.specs.Prelude.{◌≡◌, ◌+◌, ◌*◌, ◌^◌, ◌<◌, ◌≤◌, IfErr, IfOk, IfSome, length, map};
ghost use Rattle.std.specs.List.{range_with_len};
ghost use Rattle.qcow2_base.specs.Storage.{image_of};
ghost use Rattle.qcow2_base.specs.Types.{IsClusterBits};
ghost use Rattle.qcow2_metadata.specs.Refblock.{block_entries};
ghost use Rattle.qcow2_metadata.specs.Refblock.Packing.{counter_at, width};
ghost use Rattle.qcow2_metadata.specs.Results.{result_map};
ghost use Rattle.qcow2_bytes.specs.Refcounts as spec;
ghost use Rattle.qcow2_bytes.specs.Refcounts.{block_bits_in, refcounts_in};

mod settled;

use qcow2_base::{Fault, field, read_be};
pub use settled::{HostClusters, settle_refcounts};

/// Reads refcounts from the bytes of a refcount block into all of `counters`, from index `first` on. A
/// refcount has `2^refcount_order` bits.
///
/// Refuses orders past 6 (8), then bytes whose number isn't a cluster size, a power of two from 512 to 2^21
/// (31). Then refuses refcounts past the block's end (33, with the number of refcounts from `first` on).
/// After a fault `counters` is unchanged. Takes no memory.
pub fn read_refcounts(
    bytes: &[u8],
    refcount_order: u32,
    first: usize,
    counters: &mut [u64],
) -> Result<(), Fault>
    ensures exact { result_map (λ done. counters.new) result
        ≡ refcounts_in bytes.now refcount_order first (length counters.old) }
    ensures unchanged { IfErr result (λ fault. counters.new ≡ counters.old) }
{
    let cluster_bits = block_bits(bytes, refcount_order)?;
    let entries = entries_of(cluster_bits, refcount_order);
    let left = entries.saturating_sub(first);
    if first > entries || counters.len() > left {
        return Err(Fault::BadStep(left));
    }
    fill_counters(bytes, refcount_order, first, counters);
    Ok(())
}

// The cluster bits of a refcount block with these bytes. Refuses orders past 6 (8), and a number of bytes
// that isn't a cluster size (31).
fn block_bits(bytes: &[u8], refcount_order: u32) -> Result<u32, Fault>
    ensures exact { result ≡ block_bits_in (length bytes.now) refcount_order }
    ensures order { IfOk result (λ bits. refcount_order ≤ 6) }
    ensures bits { IfOk result IsClusterBits }
    ensures size { IfOk result (λ bits. length bytes.now ≡ 2 ^ bits) }
{
    if refcount_order > 6 {
        return Err(Fault::RefcountWidth);
    }
    bits_of_size(bytes.len()).ok_or(Fault::WrongLength)
}

// The cluster bits of a cluster size.
fn bits_of_size(size: usize) -> Option<u32>
    ensures exact { result ≡ spec.bits_of_size size }
    ensures bits { IfSome result IsClusterBits }
    ensures size { IfSome result (λ bits. size ≡ 2 ^ bits) }
{
    for bits in 9..22u32 {
        if size == 1 << bits {
            return Some(bits);
        }
    }
    None
}

// The number of refcounts in a block.
#[inline]
#[tactic(auto, using(crate::proofs::RefcountsLemmas::few_entries))]
fn entries_of(cluster_bits: u32, refcount_order: u32) -> usize
    requires bits { IsClusterBits cluster_bits }
    requires order { refcount_order ≤ 6 }
    ensures value { result ≡ block_entries cluster_bits refcount_order }
    ensures bound { result ≤ 2 ^ 24 }
{
    1 << (cluster_bits + 3 - refcount_order)
}

// Reads refcounts of the block from index `first` on into all of `counters`.
fn fill_counters(bytes: &[u8], order: u32, first: usize, counters: &mut [u64])
    requires order { order ≤ 6 }
    requires end { first + length counters.old < 2 ^ 64 }
    requires within { width order * (first + length counters.old) ≤ 8 * length bytes.now }
    ensures { counters.new
        ≡ map (counter_at order (image_of bytes.now) 0) (range_with_len first (length counters.old)) }
{
    for index in 0..counters.len() {
        counters[index] = counter(bytes, order, first + index);
    }
}

// The refcount at an index.
#[inline]
fn counter(bytes: &[u8], order: u32, index: usize) -> u64
    requires order { order ≤ 6 }
    requires within { width order * (index + 1) ≤ 8 * length bytes.now }
    ensures { result ≡ counter_at order (image_of bytes.now) 0 index }
{
    match order {
        4 => u64::from(read_be::<u16>(bytes, 2 * index)),
        5 => u64::from(read_be::<u32>(bytes, 4 * index)),
        6 => read_be(bytes, 8 * index),
        _ => narrow_counter(bytes, order, index),
    }
}

// The refcount at an index, if refcounts have at most eight bits.
#[inline]
fn narrow_counter(bytes: &[u8], order: u32, index: usize) -> u64
    requires order { order ≤ 3 }
    requires within { width order * (index + 1) ≤ 8 * length bytes.now }
    ensures { result ≡ counter_at order (image_of bytes.now) 0 index }
{
    let per_byte: usize = 1 << (3 - order);
    let byte = u64::from(bytes[index / per_byte]);
    field(byte, ((index % per_byte) as u32) << order, 1 << order)
}
