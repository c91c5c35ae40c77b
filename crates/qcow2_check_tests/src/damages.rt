//! Readers of damaged images: findings, wrong flags, consistency, and the images that they refuse.

use crate::layout::runs_of;
use crate::readers::{findings_of, flags_of, is_image_consistent, past_end_of};
use qcow2_testing::damages::{Damage, Refused, damages, refused_images};
use qcow2_testing::sample_image::sample_image;
use qcow2_testing::{all_same, each, same};
use std::alloc::Global;
use std::test::Fail;

fn check_findings(alloc: Global, row: Damage) -> Result<(), Fail> {
    let found = findings_of(alloc, &mut sample_image(alloc, 9, row.changes)?)?;
    same(found.as_slice(), row.clusters, row.name)
}

#[test]
fn findings_are_the_clusters_whose_counter_or_uses_are_wrong(rt: HostRuntime) -> Result<(), Fail> {
    for rows in damages() {
        each(rt.alloc(), rows, check_findings)?;
    }
    Ok(())
}

fn check_past(alloc: Global, row: Damage) -> Result<(), Fail> {
    let mut image = sample_image(alloc, 9, row.changes)?;
    for before in [0, 1, 1000] {
        let found = past_end_of(alloc, &mut image, before)?;
        same(found.as_slice(), row.past, row.name)?;
    }
    Ok(())
}

#[test]
fn clusters_past_the_end_are_those_with_references_there(rt: HostRuntime) -> Result<(), Fail> {
    for rows in damages() {
        each(rt.alloc(), rows, check_past)?;
    }
    Ok(())
}

fn check_flags(alloc: Global, row: Damage) -> Result<(), Fail> {
    let found = flags_of(alloc, &mut sample_image(alloc, 9, row.changes)?)?;
    same(found.as_slice(), row.flags, row.name)
}

#[test]
fn wrong_flags_are_those_that_the_counter_of_the_cluster_denies(
    rt: HostRuntime,
) -> Result<(), Fail> {
    for rows in damages() {
        each(rt.alloc(), rows, check_flags)?;
    }
    Ok(())
}

fn check_consistency(alloc: Global, row: Damage) -> Result<(), Fail> {
    let found = is_image_consistent(alloc, &mut sample_image(alloc, 9, row.changes)?);
    let expected = row.clusters.is_empty() && row.flags.is_empty();
    same(found, Ok(expected), row.name)
}

#[test]
fn an_image_is_consistent_where_counters_uses_and_flags_agree(rt: HostRuntime) -> Result<(), Fail> {
    for rows in damages() {
        each(rt.alloc(), rows, check_consistency)?;
    }
    Ok(())
}

fn check_refused(alloc: Global, row: Refused) -> Result<(), Fail> {
    let mut image = sample_image(alloc, 9, row.changes)?;
    let fault = Some(row.fault);
    all_same! {
        row.name,
        findings_of(alloc, &mut image).err() => fault,
        is_image_consistent(alloc, &mut image).err() => fault,
        runs_of(alloc, &mut image).err() => fault,
    }
}

#[test]
fn an_image_that_cannot_be_checked_is_refused_by_each_reader(rt: HostRuntime) -> Result<(), Fail> {
    for rows in refused_images() {
        each(rt.alloc(), rows, check_refused)?;
    }
    Ok(())
}
