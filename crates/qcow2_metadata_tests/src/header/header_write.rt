//! Writes of headers: the bytes that they place, and those that they leave.

use super::fixtures::{Changes, OLDER, OLDER_FILLED, filled_with, least_with, load_with};
use super::header_texts::{
    CUT, Cut, KNOWN, LOADED, Loaded, NEW, Name, NewHeader, OLDER_WRITTEN, Repeated, THREE_NAMES,
};
use super::names::{dirty, names_of};
use qcow2_base::{Fault, MemStorage};
use qcow2_calls::{load_header, new_header, write_header};
use qcow2_metadata::Header;
use qcow2_testing::{FailingStorage, StorageCall, each, filled_image, printed, same, same_bytes};
use std::alloc::{AllocError, Global};
use std::test::Fail;

// Fails unless a write of the header over an image of 300 bytes is one storage call, which places the text
// and leaves the bytes after it.
fn check_places(
    alloc: Global,
    header: &mut Header,
    text: &[u8],
    row: &'static str,
) -> Result<(), Fail> {
    let expected = filled_with(alloc, 300, text)?;
    let mut image = FailingStorage::new(alloc, filled_image(alloc, 300)?);
    let answer = write_header(header, &mut image);
    let call = StorageCall::Write {
        offset: 0,
        len: text.len(),
    };
    let found = (answer, image.calls.as_slice());
    same(found, (Ok(()), [call].as_slice()), row)?;
    same_bytes(image.inner.bytes(), expected.bytes(), row)
}

// Checks the same; that the text loads as a header with the same names, which is written as the same text;
// and the name of the first incompatible feature after each of the two writes.
fn check_round_trip(
    alloc: Global,
    header: &mut Header,
    text: &[u8],
    called: (Option<&str>, Option<&str>),
    row: &'static str,
) -> Result<(), Fail> {
    check_places(alloc, header, text, row)?;
    let mut loaded = load_header(alloc, &mut filled_with(alloc, 2048, text)?, false)?;
    same(names_of(&loaded), names_of(header), row)?;
    check_places(alloc, &mut loaded, text, row)?;
    same((dirty(header), dirty(&loaded)), called, row)
}

fn made(alloc: Global, cluster_bits: u32, name: Repeated) -> Result<Header, Fault> {
    let name = name.0.repeat(alloc, name.1)?;
    new_header(alloc, cluster_bits, 4, Some(name.as_str()), None, None)
}

fn check_new(
    alloc: Global,
    header: &mut Header,
    features: Changes,
    placed: Changes,
    row: &'static str,
) -> Result<(), Fail> {
    let called = (!features.is_empty()).then_some("dirty");
    let text = least_with(alloc, features, placed)?;
    check_round_trip(alloc, header, text.bytes(), (called, called), row)
}

fn check_new_header(alloc: Global, row: NewHeader) -> Result<(), Fail> {
    let mut header = made(alloc, row.cluster_bits, row.backing)?;
    check_new(alloc, &mut header, row.features, row.placed, row.name)
}

#[test]
fn a_new_header_is_written_with_the_names_of_features_where_they_fit(
    rt: HostRuntime,
) -> Result<(), Fail> {
    each(rt.alloc(), NEW, check_new_header)
}

#[test]
fn a_new_header_is_written_with_its_names(rt: HostRuntime) -> Result<(), Fail> {
    let (name, format) = (Some("base.img"), Some("qcow2"));
    let mut header = new_header(rt.alloc(), 16, 4, name, format, Some("data.raw"))?;
    check_new(rt.alloc(), &mut header, KNOWN, THREE_NAMES, "three names")
}

fn check_written(alloc: Global, row: Loaded) -> Result<(), Fail> {
    let text = least_with(alloc, row.written, "")?;
    let mut header = load_with(alloc, row.loaded, "")?;
    let called = (row.called, row.called);
    check_round_trip(alloc, &mut header, text.bytes(), called, row.name)
}

#[test]
fn a_write_places_each_part_and_pads_it(rt: HostRuntime) -> Result<(), Fail> {
    each(rt.alloc(), LOADED, check_written)
}

#[test]
fn a_header_of_version_2_ends_with_its_name(rt: HostRuntime) -> Result<(), Fail> {
    let image = least_with(rt.alloc(), OLDER_WRITTEN, "")?;
    let mut text = Vec::from_slice(rt.alloc(), image.bytes())?;
    text.truncate(85);
    for changes in [OLDER, OLDER_FILLED] {
        let mut header = load_with(rt.alloc(), changes, "")?;
        check_round_trip(rt.alloc(), &mut header, &text, (None, None), changes)?;
    }
    Ok(())
}

// A feature name table with one name of 46 bytes, whose type and bit are 0.
const FULL_NAME: Changes = "104=names 30, 167=00";

fn name_of(alloc: Global, name: Name) -> Result<String, AllocError> {
    let mut text = "a".repeat(alloc, name.0)?;
    text.push_str(&"\u{fffd}".repeat(alloc, name.1)?)?;
    Ok(text)
}

fn check_cut(alloc: Global, header: &mut Header, row: Cut) -> Result<(), Fail> {
    let first = name_of(alloc, row.called)?;
    let then = name_of(alloc, row.called_then)?;
    same(dirty(header), Some(first.as_str()), row)?;
    let text = least_with(alloc, FULL_NAME, row.written)?;
    let called = (Some(first.as_str()), Some(then.as_str()));
    check_round_trip(alloc, header, text.bytes(), called, row.loaded)
}

fn check_cut_row(alloc: Global, row: Cut) -> Result<(), Fail> {
    check_cut(alloc, &mut load_with(alloc, FULL_NAME, row.loaded)?, row)
}

#[test]
fn a_feature_name_that_is_cut_is_the_same_from_the_second_load_on(
    rt: HostRuntime,
) -> Result<(), Fail> {
    each(rt.alloc(), CUT, check_cut_row)
}

// Fails unless a write is refused by this fault without a storage call, and changes nothing.
fn check_refusal(alloc: Global, header: &mut Header, fault: Fault) -> Result<(), Fail> {
    let before = printed(alloc, header)?;
    let mut image = FailingStorage::new(alloc, filled_image(alloc, 2048)?);
    let answer = write_header(header, &mut image);
    let found = (answer, image.calls.len(), printed(alloc, header)?);
    same(found, (Err(fault), 0, before), fault)
}

// New headers, given by their cluster bits and the length of the name, and the fault of a write.
const LONG_NAMES: &[(u32, usize, Fault)] = &[
    (9, 401, Fault::HeaderTooLong),
    (9, 1023, Fault::HeaderTooLong),
    (9, 1024, Fault::NameTooLong),
    (16, 1024, Fault::NameTooLong),
];

// Loaded headers that are too long: one with 400 unknown bytes and the name FI; one with 384 unknown bytes,
// the name of a feature, and a backing file's name of 48 zero bytes; and one of version 2 with a name of 433
// bytes.
const TOO_LONG: &[Changes] = &[
    "header_length=504, backing_file_offset=1, backing_file_size=2",
    "header_length=488, 488=names 02, backing_file_offset=24, backing_file_size=48",
    "version=2, backing_file_offset=79, backing_file_size=433, 79=61*433",
];

fn check_new_refusal(
    alloc: Global,
    (cluster_bits, length, fault): (u32, usize, Fault),
) -> Result<(), Fail> {
    check_refusal(alloc, &mut made(alloc, cluster_bits, ("a", length))?, fault)
}

fn check_loaded_refusal(alloc: Global, changes: Changes) -> Result<(), Fail> {
    check_refusal(
        alloc,
        &mut load_with(alloc, changes, "")?,
        Fault::HeaderTooLong,
    )
}

#[test]
fn a_write_refuses_a_name_or_a_header_that_is_too_long(rt: HostRuntime) -> Result<(), Fail> {
    each(rt.alloc(), LONG_NAMES, check_new_refusal)?;
    each(rt.alloc(), TOO_LONG, check_loaded_refusal)
}
