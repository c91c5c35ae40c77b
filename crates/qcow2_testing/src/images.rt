//! Images in memory: making, changing and comparing them.

use crate::{FailingStorage, same_bytes};
use qcow2_base::{Fault, MemStorage, Storage};
use std::alloc::Global;
use std::fmt::Debug;
use std::test::Fail;

/// An image of `len` bytes of 0xa5.
pub fn filled_image(alloc: Global, len: usize) -> Result<MemStorage, Fault> {
    Ok(MemStorage::new(vec![in alloc; 0xa5; len]?))
}

/// An image of `len` bytes, all zero except for these numbers of eight bytes at these places.
pub fn image_with(alloc: Global, len: usize, numbers: &[(u64, u64)]) -> Result<MemStorage, Fault> {
    let mut image = MemStorage::new(vec![in alloc; 0; len]?);
    put_all(&mut image, numbers)?;
    Ok(image)
}

/// Puts numbers of eight bytes into the image, each at its place. Lengthens the image if necessary.
pub fn put_all<S: Storage>(image: &mut S, numbers: &[(u64, u64)]) -> Result<(), Fault> {
    for (place, number) in numbers {
        put(image, *place, *number)?;
    }
    Ok(())
}

/// Puts a number of eight bytes into the image. Lengthens the image if necessary.
pub fn put<S: Storage>(image: &mut S, place: u64, number: u64) -> Result<(), Fault> {
    put_bytes(image, place, &number.to_be_bytes())
}

/// Puts bytes into the image. Lengthens the image if necessary.
pub fn put_bytes<S: Storage>(image: &mut S, place: u64, bytes: &[u8]) -> Result<(), Fault> {
    if place >= 1 << 55 || bytes.len() >= 1 << 55 {
        return Err(Fault::TablePlace);
    }
    image.write(bytes, place)?;
    Ok(())
}

/// Wraps the image in a storage that records its calls.
pub fn recorded(alloc: Global, image: MemStorage) -> FailingStorage<MemStorage> {
    FailingStorage::new(alloc, image)
}

/// Fails unless the image has the bytes of the other.
pub fn same_image<R: Debug + Drop>(
    found: &MemStorage,
    expected: Result<MemStorage, Fault>,
    row: R,
) -> Result<(), Fail> {
    same_bytes(found.bytes(), expected?.bytes(), row)
}
