//! Calls of headers over a storage that fails each call in turn: the header and the image stay. The same call
//! succeeds afterwards.

use super::fixtures::{Changes, change, load_with};
use qcow2_base::{Fault, MemStorage, Storage};
use qcow2_calls::{
    into_writable, load_header, write_header, write_l1_table_pointer, write_reftable_pointer,
    write_size,
};
use qcow2_metadata::Header;
use qcow2_testing::{FailingStorage, each, filled_image, holds, printed, rows, same, same_bytes};
use std::alloc::Global;
use std::test::Fail;

#[derive(Clone, Copy)]
enum Call {
    Load,
    LoadForWriting,
    LoadAndIntoWritable,
    Write,
    WriteSize,
    WriteL1TablePointer,
    WriteReftablePointer,
}

use Call::{
    Load, LoadAndIntoWritable, LoadForWriting, Write, WriteL1TablePointer, WriteReftablePointer,
    WriteSize,
};

// A call of a header with these changes; an image of `len` bytes 0xa5 with changes before the call, and
// further ones after it; and the number of its storage calls.
#[derive(Clone, Copy)]
struct Run {
    name: &'static str,
    call: Call,
    header: Changes,
    len: usize,
    before: Changes,
    after: Changes,
    calls: u64,
}

const RUNS: &[Run] = rows! { Run:
    { name: "a load", call: Load, header: SMALL, len: 2048, before: DISK, after: "", calls: 2 },
    { name: "a load that clears autoclear features", call: LoadForWriting, header: SMALL,
        len: 1024, before: AUTOCLEAR, after: "autoclear_features=0", calls: 3 },
    { name: "one that lengthens the image", call: LoadForWriting, header: SMALL,
        len: 104, before: AUTOCLEAR_AT_END, after: "autoclear_features=0, 111=00", calls: 3 },
    { name: "one for reading, and then for writing", call: LoadAndIntoWritable, header: SMALL,
        len: 1024, before: AUTOCLEAR, after: "autoclear_features=0", calls: 3 },
    { name: "one that takes names of features out", call: LoadForWriting, header: SMALL,
        len: 2048, before: AUTOCLEAR_NAMED, after: NAMED_WRITTEN, calls: 3 },
    { name: "a write that takes names of features out", call: Write, header: NAMED,
        len: 2048, before: "", after: NAMED_WRITTEN, calls: 1 },
    { name: "a write past the end", call: Write, header: NAMED,
        len: 0, before: "", after: NAMED_WRITTEN, calls: 1 },
    { name: "the size", call: WriteSize, header: SMALL,
        len: 1024, before: "", after: "size=0x8000", calls: 1 },
    { name: "the L1 table's place", call: WriteL1TablePointer, header: SMALL,
        len: 1024, before: "", after: "l1_size=1, l1_table_offset=0x200", calls: 1 },
    { name: "the refcount table's place", call: WriteReftablePointer, header: SMALL, len: 1024, before: "",
        after: "refcount_table_offset=0x400, refcount_table_clusters=1", calls: 1 },
};

const SMALL: Changes =
    "size=0x8000, l1_size=1, l1_table_offset=0x200, refcount_table_offset=0x400, \
    refcount_table_clusters=1";

const DISK: Changes =
    "0=00*512, magic=0x514649fb, version=3, cluster_bits=9, size=0x8000, l1_size=1, \
    l1_table_offset=0x200, refcount_order=4, header_length=104";

const AUTOCLEAR: Changes =
    "0=00*512, magic=0x514649fb, version=3, cluster_bits=9, autoclear_features=1, \
    refcount_order=4, header_length=104";

const AUTOCLEAR_AT_END: Changes = "0=00*104, magic=0x514649fb, version=3, cluster_bits=9, \
    autoclear_features=1, refcount_order=4, header_length=104";

// A feature name of one byte, and then an extension of zeros. A written name takes more room, and then
// doesn't fit.
const NAMED: Changes = "104=names 03 0000:d, 120=0000000700000178, 511=00";

const AUTOCLEAR_NAMED: Changes = "0=00*512, magic=0x514649fb, version=3, cluster_bits=9, \
    autoclear_features=1, refcount_order=4, header_length=104, 104=names 03 0000:d, 120=0000000700000178";

const NAMED_WRITTEN: Changes =
    "0=00*496, magic=0x514649fb, version=3, cluster_bits=9, refcount_order=4, \
    header_length=104, 104=0000000700000178";

fn image_before(alloc: Global, run: Run) -> Result<MemStorage, Fail> {
    let mut image = filled_image(alloc, run.len)?;
    change(alloc, &mut image, run.before)?;
    Ok(image)
}

fn image_after(alloc: Global, run: Run) -> Result<MemStorage, Fail> {
    let mut image = image_before(alloc, run)?;
    change(alloc, &mut image, run.after)?;
    Ok(image)
}

fn make<S: Storage>(
    alloc: Global,
    call: Call,
    header: &mut Header,
    image: &mut S,
) -> Result<(), Fault> {
    match call {
        Load => *header = load_header(alloc, image, false)?,
        LoadForWriting => *header = load_header(alloc, image, true)?,
        LoadAndIntoWritable => *header = into_writable(load_header(alloc, image, false)?, image)?,
        Write => write_header(header, image)?,
        WriteSize => write_size(header, image)?,
        WriteL1TablePointer => write_l1_table_pointer(header, image)?,
        WriteReftablePointer => write_reftable_pointer(header, image)?,
    }
    Ok(())
}

// Fails unless the call is refused, and leaves the header and the image.
fn check_refused(
    alloc: Global,
    run: Run,
    header: &mut Header,
    image: &mut FailingStorage<MemStorage>,
) -> Result<(), Fail> {
    let before = printed(alloc, header)?;
    let answer = make(alloc, run.call, header, image);
    same(answer, Err(Fault::Storage), run.name)?;
    holds(printed(alloc, header)? == before, (run.name, "header"))?;
    let expected = image_before(alloc, run)?;
    same_bytes(image.inner.bytes(), expected.bytes(), run.name)
}

// Fails unless the call succeeds with its number of storage calls.
fn check_done(
    alloc: Global,
    run: Run,
    header: &mut Header,
    image: &mut FailingStorage<MemStorage>,
) -> Result<(), Fail> {
    image.calls.clear();
    let answer = make(alloc, run.call, header, image);
    let found = (answer, image.calls.len() as u64);
    same(found, (Ok(()), run.calls), run.name)?;
    let mut after = image_after(alloc, run)?;
    same_bytes(image.inner.bytes(), after.bytes(), run.name)?;
    let expected = match run.call {
        Load | LoadForWriting | LoadAndIntoWritable | Write => load_header(
            alloc, &mut after, false,
        )?,
        WriteSize | WriteL1TablePointer | WriteReftablePointer => load_with(alloc, run.header, "")?,
    };
    let is_same = printed(alloc, header)? == printed(alloc, &expected)?;
    holds(is_same, (run.name, "header"))
}

fn check_each_refusal(alloc: Global, run: Run) -> Result<(), Fail> {
    for passes in 0..run.calls {
        let mut header = load_with(alloc, run.header, "")?;
        let mut image = FailingStorage::new(alloc, image_before(alloc, run)?);
        image.plan = Some(passes);
        check_refused(alloc, run, &mut header, &mut image)?;
        check_done(alloc, run, &mut header, &mut image)?;
    }
    Ok(())
}

#[test]
fn a_refused_call_of_the_storage_leaves_the_header_and_the_image(
    rt: HostRuntime,
) -> Result<(), Fail> {
    each(rt.alloc(), RUNS, check_each_refusal)
}
