//! The refcounts of a block in memory: one integer each, of the smallest type that fits.

ghost use Rattle.std.specs.Prelude.{◌≡◌, ℕ, ◌*◌, ◌/◌, ◌%◌, ◌+◌, ◌^◌, ◌<◌, ◌≤◌, IfOk, length, replicate, slice_index, slice_set};
ghost use Rattle.qcow2_metadata.specs.Pieces.{piece_size};
ghost use Rattle.qcow2_base.specs.Storage.{image_of};
ghost use Rattle.qcow2_metadata.specs.Refblock.Counters.{AreCounters, CanHold, IsOfOrder, kept_counters, with_numbers_from};
ghost use Rattle.qcow2_metadata.specs.Refblock.Packing.{counters_at, counter_bytes, width};

use super::packing::{pack_narrow, pack_wide, unpack_narrow, unpack_wide};
use crate::pieces::PIECE_BYTES;
use std::alloc::{AllocError, Global};

/// A list of refcounts: of 1, 2, 4 or 8 bits in `U8`, and of as many bits as the integers in the others.
#[derive(Debug, Drop)]
pub(super) enum Counters {
    U8(Vec<u8>),
    U16(Vec<u16>),
    U32(Vec<u32>),
    U64(Vec<u64>),
}

impl Counters {
    pub(super) fn zeros(alloc: Global, order: u32, count: usize) -> Result<Counters, AllocError>
        requires { order ≤ 6 }
        ensures numbers { IfOk result (λ counters. kept_counters counters ≡ replicate count 0) }
        ensures order { IfOk result (IsOfOrder order) }
    {
        match order {
            4 => Ok(Counters::U16(vec![in alloc; 0; count]?)),
            5 => Ok(Counters::U32(vec![in alloc; 0; count]?)),
            6 => Ok(Counters::U64(vec![in alloc; 0; count]?)),
            _ => Ok(Counters::U8(vec![in alloc; 0; count]?)),
        }
    }

    pub(super) fn allocator(&self) -> Global {
        match self {
            Counters::U8(list) => *list.allocator(),
            Counters::U16(list) => *list.allocator(),
            Counters::U32(list) => *list.allocator(),
            Counters::U64(list) => *list.allocator(),
        }
    }

    #[inline]
    pub(super) fn get(&self, index: usize) -> u64
        requires { index < length (kept_counters self.now) }
        ensures { result ≡ slice_index (kept_counters self.now) index }
    {
        match self {
            Counters::U8(list) => u64::from(list[index]),
            Counters::U16(list) => u64::from(list[index]),
            Counters::U32(list) => u64::from(list[index]),
            Counters::U64(list) => list[index],
        }
    }

    // Replaces the refcount at an index by one that fits its width.
    #[inline]
    pub(super) fn set(&mut self, index: usize, counter: u64)
        requires index { index < length (kept_counters self.old) }
        requires fits { CanHold self.old counter }
        ensures numbers { kept_counters self.new ≡ slice_set (kept_counters self.old) index counter }
        ensures order { (order : ℕ) → IsOfOrder order self.old → IsOfOrder order self.new }
    {
        match self {
            Counters::U8(list) => list[index] = counter as u8,
            Counters::U16(list) => list[index] = counter as u16,
            Counters::U32(list) => list[index] = counter as u32,
            Counters::U64(list) => list[index] = counter,
        }
    }

    // Reads the refcounts of a piece of the block from its bytes.
    #[tactic(auto, using(crate::proofs::RefblockLemmas::narrow_length))]
    pub(super) fn unpack(&mut self, order: u32, piece: usize, bytes: &[u8])
        requires kind { IsOfOrder order self.old }
        requires piece { piece_size * piece < 2 ^ 21 }
        requires len { length bytes.now ≤ piece_size }
        requires within { 8 * (piece_size * piece + length bytes.now)
            ≤ width order * length (kept_counters self.old) }
        requires whole { length bytes.now % 8 ≡ 0 }
        ensures numbers { kept_counters self.new ≡ with_numbers_from (kept_counters self.old)
            (8 * (piece_size * piece) / width order)
            (counters_at order (image_of bytes.now) 0 (8 * length bytes.now / width order)) }
        ensures kind { IsOfOrder order self.new }
    {
        let first = 8 * PIECE_BYTES * piece >> order;
        let end = first + (8 * bytes.len() >> order);
        match self {
            Counters::U8(list) => unpack_narrow(&mut list[first..end], order, bytes),
            Counters::U16(list) => unpack_wide(&mut list[first..end], bytes),
            Counters::U32(list) => unpack_wide(&mut list[first..end], bytes),
            Counters::U64(list) => unpack_wide(&mut list[first..end], bytes),
        }
    }

    // Stores the bytes of a piece of the block in the buffer, which must have that piece's length.
    #[tactic(auto, using(crate::proofs::RefblockLemmas::narrow_within))]
    pub(super) fn pack(&self, order: u32, piece: usize, buffer: &mut [u8])
        requires kind { IsOfOrder order self.now }
        requires piece { piece_size * piece < 2 ^ 21 }
        requires small { AreCounters order (kept_counters self.now) }
        requires within { 8 * (piece_size * piece + length buffer.old)
            ≤ width order * length (kept_counters self.now) }
        requires whole { length buffer.old % 8 ≡ 0 }
        ensures packed { (i : ℕ) → i < length buffer.new → slice_index buffer.new i
            ≡ counter_bytes order (kept_counters self.now) (piece_size * piece + i) }
        ensures len { length buffer.new ≡ length buffer.old }
    {
        let first = PIECE_BYTES * piece;
        match self {
            Counters::U8(list) => pack_narrow(list, order, first, buffer),
            Counters::U16(list) => pack_wide(list, first / 2, buffer),
            Counters::U32(list) => pack_wide(list, first / 4, buffer),
            Counters::U64(list) => pack_wide(list, first / 8, buffer),
        }
    }
}
