//! Loads for writing, which clear autoclear features by a write of the whole header.

use super::fixtures::{Changes, OLDER, OLDER_FILLED, filled_with, least_with};
use super::header_texts::RICH_WRITTEN;
use super::names::{NO_NAMES, Names, loaded_names};
use super::rich_header::RICH;
use qcow2_base::{Fault, FileStorage, MemStorage, Storage};
use qcow2_calls::{into_writable, load_header};
use qcow2_metadata::Header;
use qcow2_testing::{
    FailingStorage, StorageCall, all_same, each, holds, printed, put_bytes, rows, same, same_bytes,
    temporary_file,
};
use std::alloc::Global;
use std::fs;
use std::test::Fail;

// Returns an image of 2048 bytes that begins with the minimal header and these changes.
fn image_with(alloc: Global, changes: Changes) -> Result<FailingStorage<MemStorage>, Fail> {
    let text = least_with(alloc, changes, "")?;
    let image = filled_with(alloc, 2048, text.bytes())?;
    Ok(FailingStorage::new(alloc, image))
}

// The result of a load: the names, or the fault.
type Loaded = Result<Names<'static>, Fault>;

// A way to a writable header: by a load for writing, or by a load for reading and a call that makes the
// header writable.
#[derive(Clone, Copy, Debug)]
enum Way {
    AtOnce,
    AfterReading,
}

const WAYS: [Way; 2] = [Way::AtOnce, Way::AfterReading];

fn load_for_writing<S: Storage>(alloc: Global, image: &mut S, way: Way) -> Result<Header, Fault> {
    match way {
        Way::AtOnce => load_header(alloc, image, true),
        Way::AfterReading => into_writable(load_header(alloc, image, false)?, image),
    }
}

// Fails unless a load of the image for writing returns this.
fn check_load<S: Storage>(
    alloc: Global,
    image: &mut S,
    expected: Loaded,
    (row, way): (Changes, Way),
) -> Result<(), Fail> {
    let loaded = load_for_writing(alloc, image, way);
    same(loaded_names(&loaded), expected, (row, way))
}

// Autoclear features and other changes of the minimal header, the written text, and the result of a load for
// writing.
type Cleared = (Changes, Changes, Loaded);

const CLEARED: &[Cleared] = rows! {
    ("autoclear_features=1, 111=00", "111=00", Ok(NO_NAMES)),
    // names of features that take more room when written, and then don't fit
    (NAMED, "104=0000000700000178, 495=00", Ok(NO_NAMES)),
    // the highest feature, and all
    ("autoclear_features=0x8000000000000000, 511=00", "111=00", Ok(NO_NAMES)),
    ("autoclear_features=0xffffffffffffffff, 511=00", "111=00", Ok(NO_NAMES)),
    // a header of 105 bytes
    ("autoclear_features=1, header_length=105, 104=ab, 112=00", "header_length=112, 104=ab, 119=00",
        Ok(NO_NAMES)),
    // a name that lies within the magic, and a length without a name
    (WITHIN_MAGIC, "backing_file_offset=112, backing_file_size=2, 112=:FI", FI),
    ("autoclear_features=1, backing_file_size=0xffffffff, 111=00", "111=00", Ok(NO_NAMES)),
};

const FI: Loaded = Ok(Names {
    backing: Some("FI"),
    ..NO_NAMES
});

const A_IMG: Loaded = Ok(Names {
    backing: Some("a.img"),
    ..NO_NAMES
});

const NAMED: Changes = "autoclear_features=1, 104=names 03 0000:d, 120=0000000700000178, 511=00";

const WITHIN_MAGIC: Changes =
    "autoclear_features=1, backing_file_offset=1, backing_file_size=2, 111=00";

// Returns whether all calls are reads.
fn are_reads(calls: &[StorageCall]) -> bool {
    calls
        .iter()
        .all(|call| matches!(call, StorageCall::Read { .. }))
}

// Fails unless the calls are two reads, and then a write of `len` bytes.
fn check_two_reads_and_a_write(
    calls: &[StorageCall],
    len: usize,
    row: Changes,
) -> Result<(), Fail> {
    let write = StorageCall::Write { offset: 0, len };
    let [reads @ .., last] = calls else {
        return holds(false, row);
    };
    all_same! { row, reads.len() => 2, are_reads(reads) => true, *last => write }
}

// Fails unless a load for writing places the text in the image, and returns this.
fn check_clears(
    alloc: Global,
    image: &mut FailingStorage<MemStorage>,
    text: &[u8],
    (changes, loaded, way): (Changes, Loaded, Way),
) -> Result<(), Fail> {
    let mut expected = MemStorage::new(Vec::from_slice(alloc, image.inner.bytes())?);
    put_bytes(&mut expected, 0, text)?;
    check_load(alloc, image, loaded, (changes, way))?;
    check_two_reads_and_a_write(&image.calls, text.len(), changes)?;
    same_bytes(image.inner.bytes(), expected.bytes(), changes)
}

fn check_cleared(alloc: Global, (changes, text, loaded): Cleared) -> Result<(), Fail> {
    let text = least_with(alloc, text, "")?;
    for way in WAYS {
        let mut image = image_with(alloc, changes)?;
        check_clears(alloc, &mut image, text.bytes(), (changes, loaded, way))?;
    }
    Ok(())
}

#[test]
fn a_load_for_writing_clears_autoclear_features_by_one_write(rt: HostRuntime) -> Result<(), Fail> {
    each(rt.alloc(), CLEARED, check_cleared)
}

// Changes of the minimal header, and the result of a load for writing, which writes nothing.
const LEFT: &[(Changes, Loaded)] = rows! {
    // other features, and a header that can't be written
    ("compatible_features=0xffffffffffffffff, 111=00", Ok(NO_NAMES)),
    ("backing_file_offset=1, backing_file_size=2, header_length=504, 511=00", FI),
    // version 2 has no features, whatever their bytes are
    (OLDER, A_IMG), (OLDER_FILLED, A_IMG),
    // refused loads, for the header or for its length
    ("incompatible_features=2, autoclear_features=1, 111=00", Err(Fault::Incompatible(2))),
    ("backing_file_offset=1, backing_file_size=2, autoclear_features=1, header_length=504, 511=00",
        Err(Fault::HeaderTooLong)),
};

// Fails unless a load for writing returns this, and writes nothing.
fn check_only_reads(alloc: Global, (changes, loaded): (Changes, Loaded)) -> Result<(), Fail> {
    for way in WAYS {
        let mut image = image_with(alloc, changes)?;
        check_load(alloc, &mut image, loaded, (changes, way))?;
        holds(are_reads(&image.calls), (changes, way))?;
    }
    Ok(())
}

#[test]
fn a_load_for_writing_without_autoclear_features_or_refused_only_reads(
    rt: HostRuntime,
) -> Result<(), Fail> {
    each(rt.alloc(), LEFT, check_only_reads)
}

fn open(rt: &HostRuntime, path: &str) -> Result<FileStorage, Fault> {
    Ok(FileStorage::open(rt, path, true)?)
}

// Returns the printed header that a load of the image for writing returns.
fn printed_load<S: Storage>(alloc: Global, image: &mut S) -> Result<String, Fault> {
    let header = load_header(alloc, image, true)?;
    Ok(printed(alloc, &header)?)
}

// Fails unless a load of a file for writing places the text in it, and returns a header without autoclear
// features.
fn check_clears_file(rt: &HostRuntime, path: &str, text: &[u8]) -> Result<(), Fail> {
    let mut expected = MemStorage::new(fs::read(rt, path)?);
    put_bytes(&mut expected, 0, text)?;
    let header = printed_load(rt.alloc(), &mut open(rt, path)?)?;
    holds(header.as_str().contains("autoclear_features: 0,"), "header")?;
    same_bytes(&fs::read(rt, path)?, expected.bytes(), "file")
}

#[test]
fn a_load_for_writing_clears_autoclear_features_of_a_file(rt: HostRuntime) -> Result<(), Fail> {
    let begun = least_with(rt.alloc(), RICH, "399=00")?;
    let text = least_with(rt.alloc(), RICH_WRITTEN, "autoclear_features=0")?;
    let file = temporary_file(&rt, "autoclear-features", begun.bytes())?;
    check_clears_file(&rt, file.path.as_str(), text.bytes())
}
