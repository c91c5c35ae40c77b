//! Images that begin with a header, given by the fields and bytes that differ.

use qcow2_base::{Fault, MemStorage};
use qcow2_calls::load_header;
use qcow2_metadata::Header;
use qcow2_testing::{filled_image, put_bytes, row_error, rows};
use std::alloc::Global;
use std::test::Fail;

/// The changes of an image, separated by commas. `version=2` sets a field of the header to a number, in
/// hexadecimal digits after `0x`. `104=format 03:raw` puts bytes at an offset: numbers of one to eight bytes
/// in hexadecimal digits, optionally with a repetition, as in `ff*40`; the name of an extension type before
/// its length, which is below 256; and a text after a colon. All other bytes stay, or are zero.
pub(crate) type Changes = &'static str;

// The fields of the header: name, offset and length in bytes.
const FIELDS: &[(&str, u64, usize)] = rows! {
    ("magic", 0, 4), ("version", 4, 4), ("backing_file_offset", 8, 8), ("backing_file_size", 16, 4),
    ("cluster_bits", 20, 4), ("size", 24, 8), ("crypt_method", 32, 4), ("l1_size", 36, 4),
    ("l1_table_offset", 40, 8), ("refcount_table_offset", 48, 8), ("refcount_table_clusters", 56, 4),
    ("nb_snapshots", 60, 4), ("snapshots_offset", 64, 8), ("incompatible_features", 72, 8),
    ("compatible_features", 80, 8), ("autoclear_features", 88, 8), ("refcount_order", 96, 4),
    ("header_length", 100, 4),
};

// The minimal header, with refcounts of 16 bits.
const LEAST: Changes =
    "magic=0x514649fb, version=3, cluster_bits=9, refcount_order=4, header_length=104";

/// Changes that turn the minimal header into one of version 2, with the backing file a.img.
pub(crate) const OLDER: Changes = "version=2, backing_file_offset=512, backing_file_size=5, \
    cluster_bits=16, 512=:a.img";

/// The same, with other bytes in place of the fields of version 3.
pub(crate) const OLDER_FILLED: Changes = "version=2, backing_file_offset=512, backing_file_size=5, \
    cluster_bits=16, 72=ff*32, 104=format 03:raw, 512=:a.img";

/// Returns an image of the minimal header with these changes, and then others.
pub(crate) fn least_with(
    alloc: Global,
    changes: Changes,
    others: Changes,
) -> Result<MemStorage, Fail> {
    let mut image = MemStorage::new(Vec::new(alloc));
    change(alloc, &mut image, LEAST)?;
    change(alloc, &mut image, changes)?;
    change(alloc, &mut image, others)?;
    Ok(image)
}

/// Makes the changes of an image, which grows as needed.
pub(crate) fn change(alloc: Global, image: &mut MemStorage, changes: Changes) -> Result<(), Fail> {
    for part in changes.split(", ") {
        if !part.is_empty() {
            change_part(alloc, image, part)?;
        }
    }
    Ok(())
}

fn change_part(alloc: Global, image: &mut MemStorage, part: &str) -> Result<(), Fail> {
    let Some((name, text)) = part.split_once('=') else {
        return Err(row_error(part));
    };
    if let Ok(place) = name.parse::<u64>() {
        let bytes = bytes_of(alloc, text)?;
        return Ok(put_bytes(image, place, &bytes)?);
    }
    let (Some((place, len)), Some(number)) = (field(name), number(text)) else {
        return Err(row_error(part));
    };
    put_number(image, place, len, number)
}

// Returns the offset and the length of a field.
fn field(name: &str) -> Option<(u64, usize)> {
    for (known, place, len) in FIELDS {
        if *known == name {
            return Some((*place, *len));
        }
    }
    None
}

fn number(text: &str) -> Option<u64> {
    let number = match text.strip_prefix("0x") {
        Some(digits) => u64::from_str_radix(digits, 16),
        None => text.parse::<u64>(),
    };
    number.ok()
}

// Writes the last `len` bytes of a number into the image; fails unless the others are zero.
fn put_number(image: &mut MemStorage, place: u64, len: usize, number: u64) -> Result<(), Fail> {
    let bytes = number.to_be_bytes();
    let Some((zeros, bytes)) = bytes.split_at_checked(8usize.saturating_sub(len)) else {
        return Err(row_error(place));
    };
    if zeros.iter().any(|byte| *byte != 0) {
        return Err(row_error(place));
    }
    Ok(put_bytes(image, place, bytes)?)
}

// Returns the bytes that a text describes.
fn bytes_of(alloc: Global, text: &str) -> Result<Vec<u8>, Fail> {
    let (words, name) = text.split_once(':').unwrap_or((text, ""));
    let mut bytes = Vec::new(alloc);
    for word in words.split_whitespace() {
        push_word(&mut bytes, word)?;
    }
    bytes.extend_from_slice(name.as_bytes())?;
    Ok(bytes)
}

fn push_word(bytes: &mut Vec<u8>, word: &str) -> Result<(), Fail> {
    let (digits, times) = word.split_once('*').unwrap_or((digits_of(word), "1"));
    let (Ok(number), Ok(times)) = (u64::from_str_radix(digits, 16), times.parse::<usize>()) else {
        return Err(row_error(word));
    };
    let number = number.to_be_bytes();
    let skipped = 8usize.checked_sub(digits.len() / 2);
    let (Some(skipped), 0) = (skipped, digits.len() % 2) else {
        return Err(row_error(word));
    };
    for _ in 0..times {
        bytes.extend_from_slice(&number[skipped..])?;
    }
    Ok(())
}

// Returns the digits of an extension type and of all but the last byte of its length, or other digits as they
// are.
fn digits_of(word: &str) -> &str {
    match word {
        "format" => "e2792aca000000",
        "names" => "6803f857000000",
        "data" => "44415441000000",
        digits => digits,
    }
}

/// Returns an image of `len` bytes 0xa5 that begins with the text, and is longer if the text is.
pub(crate) fn filled_with(alloc: Global, len: usize, text: &[u8]) -> Result<MemStorage, Fault> {
    let mut image = filled_image(alloc, len)?;
    put_bytes(&mut image, 0, text)?;
    Ok(image)
}

/// Loads the minimal header with these changes, and then others.
pub(crate) fn load_with(alloc: Global, changes: Changes, others: Changes) -> Result<Header, Fail> {
    Ok(load_header(alloc, &mut least_with(alloc, changes, others)?, false)?)
}

/// Returns the fault of a load, if it is refused.
pub(crate) fn refusal(alloc: Global, image: &mut MemStorage) -> Option<Fault> {
    load_header(alloc, image, false).err()
}
