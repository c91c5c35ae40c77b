//! Checks of a whole image in memory: findings, as many as there is room for, and totals.

use crate::calls::image_check;
use qcow2_base::Fault;
use qcow2_bytes::{CheckTotals, FindingFields};
use qcow2_testing::damages::{Damage, FoundCluster, Refused, damages, refused_images};
use qcow2_testing::sample_image::{TO_6, sample_image};
use qcow2_testing::{counted, each, same};
use std::alloc::Global;
use std::test::Fail;

// An element of the list before the call.
const OLD: FindingFields = FindingFields {
    kinds: 9,
    reserved: 9,
    cluster: 9,
    counter: 9,
    uses: 9,
};

// Returns the expected finding. Its kinds are the sum of 1 for a leaked, 2 for a missing and 4 for a shared
// cluster.
fn fields(found: &FoundCluster) -> FindingFields {
    let is_leaked = found.counter > found.uses;
    let is_missing = found.counter < found.uses;
    FindingFields {
        kinds: u32::from(is_leaked) | u32::from(is_missing) << 1 | u32::from(found.shared) << 2,
        reserved: 0,
        cluster: found.cluster,
        counter: found.counter,
        uses: found.uses,
    }
}

fn totals_of(row: &Damage) -> CheckTotals {
    let totals = row.totals();
    CheckTotals {
        findings: row.clusters.len() as u64,
        leaked: totals.leaked,
        missing: totals.missing,
        shared: totals.shared,
        false_flags: totals.false_flags,
        late_flags: totals.late_flags,
    }
}

// Checks an image with room for `room` findings.
fn check_found(alloc: Global, row: &Damage, room: usize) -> Result<(), Fail> {
    let image = sample_image(alloc, 9, row.changes)?;
    let mut list = vec![in alloc; OLD; room]?;
    let found = image_check(alloc, image.bytes(), &mut list)?;
    same(found, totals_of(row), row.name)?;
    for (index, element) in list.iter().enumerate() {
        let expected = row.clusters.get(index).map(fields).unwrap_or(OLD);
        same(*element, expected, (row.name, index))?;
    }
    Ok(())
}

fn check_rooms(alloc: Global, row: Damage) -> Result<(), Fail> {
    for room in [0, 2, row.clusters.len(), 9] {
        check_found(alloc, &row, room)?;
    }
    Ok(())
}

#[test]
fn findings_are_put_as_far_as_there_is_room(rt: HostRuntime) -> Result<(), Fail> {
    for rows in damages() {
        each(rt.alloc(), rows, check_rooms)?;
    }
    Ok(())
}

fn check_refused(alloc: Global, row: Refused) -> Result<(), Fail> {
    let image = sample_image(alloc, 9, row.changes)?;
    let mut list = [OLD; 2];
    let found = image_check(alloc, image.bytes(), &mut list);
    same(found, Err(row.fault), row.name)?;
    same(list, [OLD; 2], row.name)
}

#[test]
fn an_image_that_cannot_be_checked_leaves_the_list(rt: HostRuntime) -> Result<(), Fail> {
    for rows in refused_images() {
        each(rt.alloc(), rows, check_refused)?;
    }
    Ok(())
}

#[test]
fn no_bytes_are_no_image(rt: HostRuntime) -> Result<(), Fail> {
    let mut list = [OLD; 2];
    let found = image_check(rt.alloc(), &[], &mut list);
    same((found, list), (Err(Fault::NotQcow2), [OLD; 2]), "no bytes")
}

// The marks stand in the header's features. They change no finding.
#[test]
fn a_marked_image_is_checked(rt: HostRuntime) -> Result<(), Fail> {
    let image = sample_image(rt.alloc(), 9, counted! { (72, 3), TO_6 })?;
    let mut list = [OLD; 1];
    let totals = image_check(rt.alloc(), image.bytes(), &mut list)?;
    let found = list.first().map(|finding| (finding.kinds, finding.cluster));
    same(
        (totals.findings, totals.leaked, found),
        (1, 1, Some((1, 6))),
        "a leak",
    )
}
