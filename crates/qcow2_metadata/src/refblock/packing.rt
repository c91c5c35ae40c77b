//! Refcounts as an image has them: several in a byte, or of several bytes each.

ghost use Rattle.std.specs.Prelude.{◌≡◌, ℕ, ◌+◌, ◌-◌, ◌*◌, ◌/◌, ◌%◌, ◌^◌, ◌<◌, ◌≤◌, [], ◌∷◌, length, map, refl, slice_index};
ghost use Rattle.std.proofs.Common.{lit≤};
ghost use Rattle.qcow2_base.specs.Storage.{image_of};
ghost use Rattle.qcow2_base.specs.OnDiskStruct.{Big, big};
ghost use Rattle.qcow2_metadata.specs.Refblock.Counters.{AreCounters};
ghost use Rattle.qcow2_metadata.specs.Refblock.Packing.{counters_at, from_digits, counter_bytes, per_byte, width};

use qcow2_base::{OnDiskStruct, read_be, write_be};

/// An integer of whole bytes with exactly the width of a refcount.
pub(super) trait WideCounter: OnDiskStruct + Copy + Drop {
    /// The refcount order of this width.
    ghost order: { ℕ };

    ghost number: { Self → ℕ };

    ghost wide: { (4 ≤ order) × (order ≤ 6) };

    ghost size: { Self.ON_DISK_SIZE ≡ 2 ^ (order - 3) };

    ghost layout_is: { (value : Self) → Self.layout Big value ≡ big 0 Self.ON_DISK_SIZE (number value) ∷ [] };
}

impl WideCounter for u16 {
    ghost order = { 4 };

    ghost number = { λ n. n };

    ghost wide = { (lit≤ tt, lit≤ tt) };

    ghost size = { refl };

    ghost layout_is = { λ value. refl };
}

impl WideCounter for u32 {
    ghost order = { 5 };

    ghost number = { λ n. n };

    ghost wide = { (lit≤ tt, lit≤ tt) };

    ghost size = { refl };

    ghost layout_is = { λ value. refl };
}

impl WideCounter for u64 {
    ghost order = { 6 };

    ghost number = { λ n. n };

    ghost wide = { (lit≤ tt, lit≤ tt) };

    ghost size = { refl };

    ghost layout_is = { λ value. refl };
}

// Reads the refcounts in the bytes into the list, which must have as many.
pub(super) fn unpack_wide<T: WideCounter>(list: &mut [T], bytes: &[u8])
    requires { T.ON_DISK_SIZE * length list.old ≡ length bytes.now }
    ensures { map T.number list.new ≡ counters_at T.order (image_of bytes.now) 0 (length list.old) }
{
    for index in 0..list.len() {
        list[index] = read_be(bytes, T::ON_DISK_SIZE * index);
    }
}

// Stores the bytes of refcounts in the buffer, from those of refcount `first` on.
pub(super) fn pack_wide<T: WideCounter>(list: &[T], first: usize, buffer: &mut [u8])
    requires whole { length buffer.old % T.ON_DISK_SIZE ≡ 0 }
    requires within { T.ON_DISK_SIZE * first + length buffer.old ≤ T.ON_DISK_SIZE * length list.now }
    ensures packed { (i : ℕ) → i < length buffer.new → slice_index buffer.new i
        ≡ counter_bytes T.order (map T.number list.now) (T.ON_DISK_SIZE * first + i) }
    ensures len { length buffer.new ≡ length buffer.old }
{
    for index in 0..buffer.len() / T::ON_DISK_SIZE {
        write_be(buffer, T::ON_DISK_SIZE * index, &list[first + index]);
    }
}

// Reads the refcounts of `2^order` bits in the bytes into the list, which must have as many.
#[tactic(auto, using(crate::proofs::PackingLemmas::counters_are_bytes))]
pub(super) fn unpack_narrow(list: &mut [u8], order: u32, bytes: &[u8])
    requires order { order ≤ 3 }
    requires count { length list.old ≡ per_byte order * length bytes.now }
    ensures { list.new ≡ counters_at order (image_of bytes.now) 0 (length list.old) }
{
    match order {
        0 => unpack_bytes::<0, 8>(list, bytes),
        1 => unpack_bytes::<1, 4>(list, bytes),
        2 => unpack_bytes::<2, 2>(list, bytes),
        _ => list.copy_from_slice(bytes),
    }
}

// Reads the refcounts of order `ORDER`, of which a byte has `PER`. Most bytes are the same as those before
// them.
fn unpack_bytes<const ORDER: u32, const PER: usize>(list: &mut [u8], bytes: &[u8])
    requires order { ORDER ≤ 2 }
    requires per { PER ≡ per_byte ORDER }
    requires count { length list.old ≡ PER * length bytes.now }
    ensures { list.new ≡ counters_at ORDER (image_of bytes.now) 0 (length list.old) }
{
    let mut last = 0;
    let mut counters = unpack_byte::<ORDER, PER>(last);
    for index in 0..bytes.len() {
        if bytes[index] != last {
            last = bytes[index];
            counters = unpack_byte::<ORDER, PER>(last);
        }
        let first = PER * index;
        list[first..first + PER].copy_from_slice(&counters);
    }
}

// Returns the refcounts in a byte, the first one in the lowest bits.
#[inline]
fn unpack_byte<const ORDER: u32, const PER: usize>(byte: u8) -> [u8; PER]
    requires order { ORDER ≤ 2 }
    requires per { PER ≡ per_byte ORDER }
    ensures { result ≡ counters_at ORDER (image_of (byte ∷ [])) 0 PER }
{
    let width = 1 << ORDER;
    let mut counters = [0; PER];
    for index in 0..PER {
        counters[index] = (byte >> (width * index)) % (1 << width);
    }
    counters
}

// Stores the bytes of refcounts in the buffer, from byte `first` on.
pub(super) fn pack_narrow(list: &[u8], order: u32, first: usize, buffer: &mut [u8])
    requires order { order ≤ 3 }
    requires within { per_byte order * (first + length buffer.old) ≤ length list.now }
    requires small { AreCounters order list.now }
    ensures packed { (i : ℕ) → i < length buffer.new →
        slice_index buffer.new i ≡ counter_bytes order list.now (first + i) }
    ensures len { length buffer.new ≡ length buffer.old }
{
    match order {
        0 => pack_bytes::<0, 8>(list, first, buffer),
        1 => pack_bytes::<1, 4>(list, first, buffer),
        2 => pack_bytes::<2, 2>(list, first, buffer),
        _ => buffer.copy_from_slice(&list[first..first + buffer.len()]),
    }
}

// Stores the bytes of refcounts of order `ORDER`, of which a byte has `PER`.
fn pack_bytes<const ORDER: u32, const PER: usize>(list: &[u8], first: usize, buffer: &mut [u8])
    requires order { ORDER ≤ 2 }
    requires per { PER ≡ per_byte ORDER }
    requires within { PER * (first + length buffer.old) ≤ length list.now }
    requires small { AreCounters ORDER list.now }
    ensures packed { (i : ℕ) → i < length buffer.new →
        slice_index buffer.new i ≡ counter_bytes ORDER list.now (first + i) }
    ensures len { length buffer.new ≡ length buffer.old }
{
    for index in 0..buffer.len() {
        let place = PER * (first + index);
        buffer[index] = pack_byte::<ORDER, PER>(&list[place..place + PER]);
    }
}

// Returns the byte of these refcounts, the first one in the lowest bits.
#[inline]
fn pack_byte<const ORDER: u32, const PER: usize>(counters: &[u8]) -> u8
    requires order { ORDER ≤ 2 }
    requires per { PER ≡ per_byte ORDER }
    requires count { length counters.now ≡ PER }
    requires small { AreCounters ORDER counters.now }
    ensures { result ≡ from_digits (2 ^ width ORDER) counters.now }
{
    let width = 1 << ORDER;
    let mut byte = 0;
    for index in 0..PER {
        byte += counters[index] << (width * index);
    }
    byte
}
