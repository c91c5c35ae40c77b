//! The rest of a header: features, extensions and the backing file's name.

use super::Draft;
use crate::numbers::{put_bytes, put_u32, put_u64};
use crate::random::Random;

/// Types of extensions, and their data.
const EXTENSIONS: &[(u32, &[u8])] = &[
    (0xe279_2aca, b"raw"),
    (0xe279_2aca, b"qcow2"),
    (0x6803_f857, b"\0\x00dirty bit"),
    (0x6803_f857, b""),
    (0x4441_5441, b"data.raw"),
    (0x1234_5678, b"what nobody knows"),
    (0x0000_0007, b""),
];

/// Types of extensions with a place: bitmaps, and an encryption header.
const PLACED: &[u32] = &[0x2385_2875, 0x0537_be77];

/// Such places: none, an offset and a length, and the same within a cluster of most sizes.
const PLACES: &[&[u8]] = &[
    b"",
    b"\0\0\0\0\0\x20\0\0\0\0\0\0\0\0\x08\x01",
    b"\0\0\0\0\0\0\x06\0\0\0\0\0\0\0\x02\0",
];

/// Names of backing files.
const NAMES: &[&[u8]] = &[b"base.img", b"", b"a", b"b\xc3\xa4se", b"json:{}"];

/// Puts the rest of a header, which in version 2 is at most a name.
pub(super) fn put_extensions(draft: &mut Draft, random: &mut Random) {
    let end = if draft.version == 3 {
        put_features(draft, random);
        put_chain(draft, random)
    } else {
        72
    };
    if random.is_one_in(3) {
        put_name(draft, random, end.saturating_add(8));
    }
}

fn put_features(draft: &mut Draft, random: &mut Random) {
    let incompatible = if draft.is_external { 4 } else { 0 } | marks(random);
    let autoclear = if random.is_one_in(4) {
        random.below(4)
    } else {
        0
    };
    let order = draft.refcount_order;
    let bytes = draft.bytes.as_mut_slice();
    put_u64(bytes, 72, incompatible);
    // the compression type, unless an extension begins there
    put_u64(bytes, 104, (incompatible & 8) << 53);
    put_u64(bytes, 80, random.below(2));
    put_u64(bytes, 88, autoclear);
    put_u32(bytes, 96, order);
}

// Draws the bits of features with which some commands accept an image, mostly none.
fn marks(random: &mut Random) -> u64 {
    if random.is_one_in(4) {
        random.pick(&[1, 2, 3, 8], 0)
    } else {
        0
    }
}

// Puts the header's length and extensions, and returns where they end.
fn put_chain(draft: &mut Draft, random: &mut Random) -> u64 {
    let length = random.pick(&[104, 104, 112, 109], 104);
    put_u32(draft.bytes.as_mut_slice(), 100, length);
    let mut place = u64::from(length);
    for _ in 0..random.below(4) {
        let (extension, content) = random.pick(EXTENSIONS, (0, b""));
        place = put_extension(draft, place, extension, content);
    }
    if random.is_one_in(12) {
        let content = random.pick(PLACES, b"");
        place = put_extension(draft, place, random.pick(PLACED, 0), content);
        if random.is_one_in(2) {
            put_u32(draft.bytes.as_mut_slice(), 32, 2);
        }
    }
    place
}

// Puts an extension, and returns where the next one begins.
fn put_extension(draft: &mut Draft, place: u64, extension: u32, content: &[u8]) -> u64 {
    let bytes = draft.bytes.as_mut_slice();
    put_u32(bytes, place, extension);
    put_u32(
        bytes,
        place.saturating_add(4),
        content.len().min(1000) as u32,
    );
    put_bytes(bytes, place.saturating_add(8), content);
    let length = (content.len() as u64).div_ceil(8).wrapping_mul(8);
    place.saturating_add(8).saturating_add(length)
}

fn put_name(draft: &mut Draft, random: &mut Random, place: u64) {
    let name = random.pick(NAMES, b"");
    let bytes = draft.bytes.as_mut_slice();
    put_u64(bytes, 8, place);
    put_u32(bytes, 16, name.len().min(1000) as u32);
    put_bytes(bytes, place, name);
}
