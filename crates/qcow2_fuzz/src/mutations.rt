//! Changes of an image that no program would write: of bits, bytes, numbers and its length.

use crate::fields::{COPIED, Fields};
use crate::numbers::{byte_at, put_bytes, put_u64, u64_at};
use crate::random::Random;
use qcow2_base::Fault;

/// The numbers of changes to an image. Five images of nine get one change at most.
const COUNTS: &[u64] = &[0, 0, 0, 1, 1, 2, 3, 4, 8];

/// Bytes at the edges of their range.
const BYTES: &[u8] = &[0, 1, 0x7f, 0x80, 0xff];

/// Numbers at the edges of the ranges that fields and entries have.
const NUMBERS: &[u64] = &[
    0,
    1,
    1 << 9,
    1 << 16,
    1 << 32,
    (1 << 55) - 1,
    1 << 55,
    (1 << 56) - (1 << 16),
    (1 << 56) - (1 << 9),
    1 << 56,
    1 << 61,
    1 << 62,
    (1 << 62) + (1 << 61),
    COPIED,
    COPIED + 1,
    COPIED + (1 << 56) - (1 << 9),
    u64::MAX - 511,
    u64::MAX,
];

/// The largest number of places searched for a number that isn't 0.
const MOST_ZEROS: u64 = 64;

/// Numbers to add to a number.
const STEPS: &[u64] = &[1, 8, 512, 1 << 56, COPIED, u64::MAX, u64::MAX - 511];

/// Changes an image.
pub(crate) fn mutate(bytes: &mut Vec<u8>, random: &mut Random) -> Result<(), Fault> {
    let fields = Fields::of(bytes.as_slice());
    for _ in 0..random.pick(COUNTS, 1) {
        if random.is_one_in(25) {
            change_length(bytes, &fields, random)?;
        } else {
            change_bytes(bytes.as_mut_slice(), &fields, random);
        }
    }
    Ok(())
}

// Cuts the image, or lengthens it by up to two clusters of zeros.
fn change_length(bytes: &mut Vec<u8>, fields: &Fields, random: &mut Random) -> Result<(), Fault> {
    let len = bytes.len() as u64;
    if random.is_one_in(2) {
        bytes.truncate(random.below(len) as usize);
    } else if len <= 1 << 20 {
        let more = random.below(fields.cluster_size().wrapping_mul(2));
        bytes.resize(len.saturating_add(more) as usize, 0)?;
    }
    Ok(())
}

fn change_bytes(bytes: &mut [u8], fields: &Fields, random: &mut Random) {
    let place = drawn_place(bytes, fields, random);
    let aligned = place - place % 8;
    match random.below(8) {
        0 => {
            let flipped = byte_at(bytes, place) ^ 1 << random.below(8).min(7);
            put_bytes(bytes, place, &[flipped]);
        }
        1 => put_bytes(bytes, place, &[random.pick(BYTES, 0)]),
        2 => put_u64(bytes, aligned, random.pick(NUMBERS, 0)),
        3 | 4 => {
            let other = drawn_place(bytes, fields, random);
            put_u64(bytes, aligned, u64_at(bytes, other - other % 8));
        }
        5 => {
            let sum = u64_at(bytes, aligned).wrapping_add(random.pick(STEPS, 1));
            put_u64(bytes, aligned, sum);
        }
        _ => put_u64(bytes, aligned, drawn_number(fields, random)),
    }
}

// A place in the header, near the start of a cluster, or anywhere in one. Half of the time it is the next
// number from there on that isn't 0.
fn drawn_place(bytes: &[u8], fields: &Fields, random: &mut Random) -> u64 {
    let place = any_place(fields, random);
    if random.is_one_in(2) {
        return place;
    }
    let aligned = place - place % 8;
    for distance in 0..MOST_ZEROS {
        let next = aligned.saturating_add(distance.saturating_mul(8));
        if u64_at(bytes, next) != 0 {
            return next;
        }
    }
    place
}

fn any_place(fields: &Fields, random: &mut Random) -> u64 {
    if random.is_one_in(8) {
        return random.below(128);
    }
    let cluster = random.below(fields.clusters);
    let within = if random.is_one_in(3) {
        random.below(fields.cluster_size())
    } else {
        random.below(64)
    };
    cluster
        .wrapping_mul(fields.cluster_size())
        .saturating_add(within)
}

// The number of an entry that names a cluster of the image, or one just past its end.
fn drawn_number(fields: &Fields, random: &mut Random) -> u64 {
    let cluster = random.below(fields.clusters.saturating_add(2));
    let offset = cluster.wrapping_mul(fields.cluster_size());
    match random.below(4) {
        0 => offset,
        1 => offset | 1,
        2 => offset | 1 << 62,
        _ => offset | COPIED,
    }
}
