//! The command `check` in JSON: its numbers, the file name, and its verdict.

use super::check::verdict_of;
use crate::failing_output::{FailingOutput, Failure};
use qcow2_base::{Fault, MemStorage};
use qcow2_calls::load_header;
use qcow2_session::Verdict;
use qcow2_session_calls::check_image_in_json;
use qcow2_testing::damages::{Damage, damages};
use qcow2_testing::sample_image::{check_sample, sample_image};
use qcow2_testing::{counted, each, rows, same};
use std::alloc::{AllocError, Global};
use std::test::Fail;

/// The output for the image with findings of all kinds, with `IMAGE` as the file name.
pub(crate) const ALL_OBJECT: &str =
    "{\n    \"image-end-offset\": 5120,\n    \"total-clusters\": 64,\n    \
    \"corruptions\": 3,\n    \"check-errors\": 0,\n    \"leaks\": 3,\n    \"shared\": 1,\n    \
    \"false-flags\": 1,\n    \"late-flags\": 1,\n    \"allocated-clusters\": 2,\n    \
    \"filename\": \"IMAGE\",\n    \"format\": \"qcow2\",\n    \"fragmented-clusters\": 1\n}\n";

/// The output for the image with late flags of two tables.
pub(crate) const LATE_OBJECT: &str =
    "{\n    \"image-end-offset\": 4096,\n    \"total-clusters\": 128,\n    \
    \"corruptions\": 4,\n    \"check-errors\": 0,\n    \"late-flags\": 4,\n    \
    \"allocated-clusters\": 2,\n    \
    \"filename\": \"IMAGE\",\n    \"format\": \"qcow2\"\n}\n";

#[test]
fn a_check_in_json_counts_what_it_finds(rt: HostRuntime) -> Result<(), Fail> {
    for rows in damages() {
        each(rt.alloc(), rows, check_damage)?;
    }
    Ok(())
}

fn check_damage(alloc: Global, row: Damage) -> Result<(), Fail> {
    let mut image = sample_image(alloc, 9, row.changes)?;
    check_object(alloc, &mut image, &row)?;
    check_sample(alloc, image.bytes(), (9, row.changes), row.name)
}

fn check_object(alloc: Global, image: &mut MemStorage, row: &Damage) -> Result<(), Fail> {
    let mut out = FailingOutput::new(alloc, Failure::Never);
    let verdict = checked(alloc, image, "disk", &mut out);
    let expected = object_of(alloc, row)?;
    let found = (verdict, std::str::from_utf8(out.bytes())?);
    same(found, (Ok(verdict_of(row)), expected.as_str()), row.name)
}

fn checked(
    alloc: Global,
    image: &mut MemStorage,
    file_name: &str,
    out: &mut FailingOutput,
) -> Result<Verdict, Fault> {
    let header = load_header(alloc, image, false)?;
    check_image_in_json(alloc, image, &header, file_name, out)
}

// Returns the output for an image in the file `disk`. Counts of 0 have no member.
fn object_of(alloc: Global, row: &Damage) -> Result<String, AllocError> {
    let (sizes, totals) = (row.sizes, row.totals());
    let corruptions = totals
        .missing
        .wrapping_add(totals.past)
        .wrapping_add(totals.false_flags)
        .wrapping_add(totals.late_flags)
        .wrapping_add(u64::from(row.is_short));
    let mut text = format!(in alloc; "{{\n    \"image-end-offset\": {}", sizes.end)?;
    add_count(&mut text, "compressed-clusters", sizes.compressed)?;
    add_count(&mut text, "total-clusters", sizes.clusters)?;
    add_count(&mut text, "corruptions", corruptions)?;
    text.push_str(",\n    \"check-errors\": 0")?;
    add_count(&mut text, "leaks", totals.leaked)?;
    add_count(&mut text, "shared", totals.shared)?;
    add_count(&mut text, "past", totals.past)?;
    add_count(&mut text, "false-flags", totals.false_flags)?;
    add_count(&mut text, "late-flags", totals.late_flags)?;
    add_count(&mut text, "allocated-clusters", sizes.allocated)?;
    text.push_str(",\n    \"filename\": \"disk\",\n    \"format\": \"qcow2\"")?;
    add_count(&mut text, "fragmented-clusters", sizes.fragmented)?;
    text.push_str("\n}\n")?;
    Ok(text)
}

fn add_count(text: &mut String, name: &str, count: u64) -> Result<(), AllocError> {
    if count == 0 {
        return Ok(());
    }
    write!(text, ",\n    \"{name}\": {count}")
}

// The name of a file, and its text in a JSON string.
#[derive(Clone, Copy)]
struct Named {
    name: &'static str,
    file_name: &'static str,
    string: &'static str,
}

const FILE_NAMES: &[Named] = rows! { Named:
    { name: "no name", file_name: "", string: "" },
    { name: "printable ASCII", file_name: " !#[]^`~/", string: " !#[]^`~/" },
    { name: "quotation marks and backslashes", file_name: "\"a\\b\"", string: "\\\"a\\\\b\\\"" },
    { name: "control characters", file_name: "\0\u{1}\u{8}\t\n\u{b}\u{c}\r\u{1f}\u{7f}",
        string: "\\u0000\\u0001\\b\\t\\n\\u000B\\f\\r\\u001F\\u007F" },
    { name: "characters that UTF-16 has in one unit", file_name: "\u{80}\u{e9}\u{d7ff}\u{e000}\u{ffff}",
        string: "\\u0080\\u00E9\\uD7FF\\uE000\\uFFFF" },
    { name: "characters that it has in two", file_name: "\u{10000}\u{1f600}\u{10ffff}",
        string: "\\uD800\\uDC00\\uD83D\\uDE00\\uDBFF\\uDFFF" },
};

#[test]
fn a_check_in_json_names_the_file_by_a_string(rt: HostRuntime) -> Result<(), Fail> {
    each(rt.alloc(), FILE_NAMES, check_named)
}

// The image is consistent.
fn check_named(alloc: Global, row: Named) -> Result<(), Fail> {
    let mut image = sample_image(alloc, 9, counted! {})?;
    let mut out = FailingOutput::new(alloc, Failure::Never);
    let verdict = checked(alloc, &mut image, row.file_name, &mut out);
    let expected = format!(in alloc;
        "{{\n    \"image-end-offset\": 3072,\n    \"total-clusters\": 64,\n    \"check-errors\": 0,\n    \
        \"allocated-clusters\": 1,\n    \"filename\": \"{}\",\n    \"format\": \"qcow2\"\n}}\n",
        row.string
    )?;
    let found = (verdict, std::str::from_utf8(out.bytes())?);
    same(found, (Ok(Verdict::Fine), expected.as_str()), row.name)
}
