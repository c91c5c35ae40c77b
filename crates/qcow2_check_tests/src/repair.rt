//! Repairs: their results, their refusals, and the number of times that they load a table.

use crate::readers::{is_image_consistent, repaired};
use qcow2_testing::damages::{
    Loaded, REPAIR_LOADS, Repair, Unrepairable, loaded_images, repairs, unrepairable_images,
};
use qcow2_testing::sample_image::{check_sample, sample_image};
use qcow2_testing::{each, recorded, same};
use std::alloc::Global;
use std::test::Fail;

fn check_repaired(alloc: Global, row: Repair) -> Result<(), Fail> {
    let mut image = sample_image(alloc, 9, row.changes)?;
    same(repaired(alloc, &mut image), Ok(()), row.name)?;
    check_sample(alloc, image.bytes(), (9, row.left), row.name)?;
    let found = is_image_consistent(alloc, &mut image);
    same(found, Ok(row.agrees()), row.name)
}

#[test]
fn a_repair_makes_counters_and_flags_right(rt: HostRuntime) -> Result<(), Fail> {
    for rows in repairs() {
        each(rt.alloc(), rows, check_repaired)?;
    }
    Ok(())
}

fn check_refused(alloc: Global, row: Unrepairable) -> Result<(), Fail> {
    let mut image = sample_image(alloc, 9, row.changes)?;
    same(repaired(alloc, &mut image), Err(row.fault), row.name)?;
    check_sample(alloc, image.bytes(), (9, row.changes), row.name)
}

#[test]
fn what_cannot_be_repaired_is_refused_before_a_byte_changes(rt: HostRuntime) -> Result<(), Fail> {
    each(rt.alloc(), unrepairable_images(), check_refused)
}

fn check_loads(alloc: Global, row: Loaded) -> Result<(), Fail> {
    let mut image = recorded(alloc, sample_image(alloc, 9, row.changes)?);
    same(repaired(alloc, &mut image), Ok(()), row.name)?;
    for table in row.l2_tables {
        same(image.reads_of(*table), REPAIR_LOADS, row.name)?;
    }
    Ok(())
}

#[test]
fn a_repair_loads_each_l2_table_three_times(rt: HostRuntime) -> Result<(), Fail> {
    each(rt.alloc(), loaded_images(), check_loads)
}
