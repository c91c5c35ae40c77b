//! Plans of edits of a disk.

use crate::small_image::{OTHER_TABLE, discard, header_of, kept, map, small_image, zeros};
use qcow2_apply::{Changes, GuestEdit, Plan};
use qcow2_base::{ClusterCount, Fault, GuestOffset, HostCluster, MemStorage};
use qcow2_metadata::{ClustersToFreeEntry, Header, Table};
use qcow2_testing::sample_image::BLOCK;
use qcow2_testing::{
    FailingStorage, Numbers, StorageCall, all_same, each, recorded, same, same_image,
};
use std::alloc::Global;
use std::test::Fail;

// Changes of the image, edits of its disk, and the clusters that gain and lose a reference, by the index of
// the refcount block that counts them.
#[derive(Clone, Copy)]
struct Planned<'a> {
    name: &'a str,
    before: Numbers<'a>,
    edits: &'a [GuestEdit],
    gains: [&'a [HostCluster]; 2],
    losses: [&'a [ClustersToFreeEntry]; 2],
}

// Makes a range of clusters that lose a reference.
macro_rules! lost {
    ($first:literal, $count:literal) => {
        &[ClustersToFreeEntry { first: HostCluster($first), count: ClusterCount($count) }]
    };
}

const PLANNED: [Planned<'static>; 7] = [
    Planned {
        name: "no edits",
        before: &[],
        edits: &[],
        gains: [&[], &[]],
        losses: [&[], &[]],
    },
    Planned {
        name: "a map in each table",
        before: &[],
        edits: &[map!(127 to 300), map!(0 to 9)],
        gains: [&[HostCluster(9)], &[HostCluster(300)]],
        losses: [&[], &[]],
    },
    Planned {
        name: "the whole disk",
        before: &[],
        edits: &[discard!(0, 128)],
        gains: [&[], &[]],
        losses: [lost!(5, 1), lost!(256, 1)],
    },
    Planned {
        name: "zeros that keep a cluster, and that keep none",
        before: &[],
        edits: &[kept!(3, 1), zeros!(64, 1)],
        gains: [&[], &[]],
        losses: [&[], lost!(256, 1)],
    },
    Planned {
        name: "maps in the place of data",
        before: &[],
        edits: &[map!(3 to 300), map!(64 to 9)],
        gains: [&[HostCluster(9)], &[HostCluster(300)]],
        losses: [lost!(5, 1), lost!(256, 1)],
    },
    Planned {
        name: "a map that is discarded",
        before: &[],
        edits: &[map!(0 to 9), discard!(0, 1)],
        gains: [&[HostCluster(9)], &[]],
        losses: [lost!(9, 1), &[]],
    },
    Planned {
        name: "compressed data over the border of two blocks",
        before: &[(OTHER_TABLE, 3 << 61 | (256 << 9) - 16), (BLOCK + 504, 1)],
        edits: &[discard!(64, 1)],
        gains: [&[], &[]],
        losses: [lost!(255, 1), lost!(256, 1)],
    },
];

fn plan_of(
    alloc: Global,
    image: &mut FailingStorage<MemStorage>,
    header: &Header,
    edits: &[GuestEdit],
) -> Result<Plan, Fault> {
    Plan::new(alloc, image, header, edits)
}

// Fails unless the clusters of a block gain and lose these references.
fn check_changes(
    changes: &Changes,
    index: usize,
    gained: &[HostCluster],
    lost: &[ClustersToFreeEntry],
    name: &str,
) -> Result<(), Fail> {
    let Some(outcome) = changes.outcome_of(index) else {
        return all_same! { (name, index), gained.len() => 0, lost.len() => 0 };
    };
    same(outcome.gained.as_slice(), gained, (name, index))?;
    same(outcome.freed.as_slice(), lost, (name, index))
}

// Fails unless a plan has the image's tables, and lists gains and losses separately.
fn check_plan(plan: &Plan, row: &Planned<'_>) -> Result<(), Fail> {
    all_same! { row.name, plan.l1_table.entries() => 2, plan.reftable.entries() => 64 }?;
    for index in 0..2usize {
        check_changes(&plan.gains, index, row.gains[index], &[], row.name)?;
        check_changes(&plan.losses, index, &[], row.losses[index], row.name)?;
    }
    Ok(())
}

fn check_planned(alloc: Global, row: Planned<'_>) -> Result<(), Fail> {
    let mut image = recorded(alloc, small_image(alloc, row.before)?);
    let header = header_of(alloc, &mut image.inner)?;
    let plan = plan_of(alloc, &mut image, &header, row.edits)?;
    check_plan(&plan, &row)?;
    for call in &image.calls {
        same(
            matches!(*call, StorageCall::Read { .. } | StorageCall::Len),
            true,
            (row.name, *call),
        )?;
    }
    same_image(&image.inner, small_image(alloc, row.before), row.name)
}

#[test]
fn a_plan_has_what_clusters_gain_and_lose_and_only_reads(rt: HostRuntime) -> Result<(), Fail> {
    each(rt.alloc(), &PLANNED, check_planned)
}

#[test]
fn each_refused_read_of_a_plan_is_the_storage_fault(rt: HostRuntime) -> Result<(), Fail> {
    let alloc = rt.alloc();
    let edits = [map!(127 to 300), discard!(3, 1), map!(0 to 9)];
    let mut image = recorded(alloc, small_image(alloc, &[])?);
    let header = header_of(alloc, &mut image.inner)?;
    for passes in 0..64 {
        image.plan = Some(passes);
        let found = plan_of(alloc, &mut image, &header, &edits);
        if image.plan.is_some() {
            return same(found.err(), None, passes);
        }
        same(found.err(), Some(Fault::Storage), passes)?;
    }
    Err(Fail::new("a plan makes ever more calls"))
}
