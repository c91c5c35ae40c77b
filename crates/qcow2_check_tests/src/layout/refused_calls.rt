//! Layouts over a storage that fails one call.

use super::calls::{runs_of, shapes_of_image};
use crate::sample_image::sample_image;
use qcow2_base::Fault;
use qcow2_testing::sample_image::{L2_TABLE, REFTABLE};
use qcow2_testing::{Numbers, recorded, same, same_bytes};
use std::test::Fail;

// More storage calls than a layout of the image makes.
const MOST_CALLS: u64 = 64;

// A second block, with a leaked cluster, and data far away.
const TWO_BLOCKS: Numbers<'static> = &[
    (REFTABLE + 8, 3072),
    (3072 + 504, 1),
    (L2_TABLE + 32, 8192 << 9),
];

#[test]
fn a_reader_of_runs_goes_on_after_a_refused_read(rt: HostRuntime) -> Result<(), Fail> {
    let alloc = rt.alloc();
    let whole = sample_image(alloc, TWO_BLOCKS)?;
    let all = runs_of(alloc, &mut sample_image(alloc, TWO_BLOCKS)?)?;
    let mut image = recorded(alloc, sample_image(alloc, TWO_BLOCKS)?);
    // whether an earlier iteration made a reader
    let mut is_made = false;
    for refused in 0..MOST_CALLS {
        image.plan = Some(refused);
        let found = runs_of(alloc, &mut image);
        if image.plan.is_some() {
            return same((is_made, refused > 5), (true, true), refused);
        }
        match found {
            Ok(found) => {
                is_made = true;
                same(found.as_slice(), all.as_slice(), refused)?;
            }
            Err(fault) => same((fault, is_made), (Fault::Storage, false), refused)?,
        }
        same_bytes(image.inner.bytes(), whole.bytes(), refused)?;
    }
    Err(Fail::new("a layout makes ever more calls"))
}

#[test]
fn a_picture_is_whole_or_refused_with_each_read(rt: HostRuntime) -> Result<(), Fail> {
    let alloc = rt.alloc();
    let whole = sample_image(alloc, TWO_BLOCKS)?;
    let all = shapes_of_image(alloc, &mut sample_image(alloc, TWO_BLOCKS)?)?;
    let mut image = recorded(alloc, sample_image(alloc, TWO_BLOCKS)?);
    for refused in 0..MOST_CALLS {
        image.plan = Some(refused);
        let found = shapes_of_image(alloc, &mut image);
        same_bytes(image.inner.bytes(), whole.bytes(), refused)?;
        if image.plan.is_some() {
            return same((found, refused > 5), (Ok(all), true), refused);
        }
        same(found.err(), Some(Fault::Storage), refused)?;
    }
    Err(Fail::new("a picture makes ever more calls"))
}
