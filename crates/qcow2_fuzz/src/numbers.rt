//! Big-endian numbers in bytes. A write that doesn't fit does nothing, and bytes past the end read as zero.

/// Puts bytes at a place.
pub(crate) fn put_bytes(bytes: &mut [u8], place: u64, new: &[u8]) {
    let len = bytes.len() as u64;
    if place <= len && new.len() as u64 <= len - place {
        let start = place as usize;
        bytes[start..start + new.len()].copy_from_slice(new);
    }
}

/// Puts a number of eight bytes at a place.
pub(crate) fn put_u64(bytes: &mut [u8], place: u64, number: u64) {
    put_bytes(bytes, place, &number.to_be_bytes());
}

/// Puts a number of four bytes at a place.
pub(crate) fn put_u32(bytes: &mut [u8], place: u64, number: u32) {
    put_bytes(bytes, place, &number.to_be_bytes());
}

/// The byte at a place.
pub(crate) fn byte_at(bytes: &[u8], place: u64) -> u8 {
    bytes.get(place as usize).copied().unwrap_or(0)
}

/// The number of eight bytes at a place.
pub(crate) fn u64_at(bytes: &[u8], place: u64) -> u64 {
    let mut number = 0u64;
    for distance in 0..8u64 {
        number = number << 8 | u64::from(byte_at(bytes, place.saturating_add(distance)));
    }
    number
}

/// The number of four bytes at a place.
pub(crate) fn u32_at(bytes: &[u8], place: u64) -> u64 {
    u64_at(bytes, place) >> 32
}
