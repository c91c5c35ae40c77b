//! The lists of clusters that edits of a disk free, keep and gain.

use crate::small_image::{OTHER_BLOCK, OTHER_TABLE, discard, header_of, map, small_image};
use qcow2_apply::{ChangedClusters, GuestEdit, KeptCluster, Plan, apply_edits};
use qcow2_base::{ClusterCount, Device, Fault, GuestOffset, HostCluster, MemStorage};
use qcow2_metadata::{ClustersToFreeEntry, Header};
use qcow2_testing::sample_image::BLOCK;
use qcow2_testing::{COPIED, Numbers, each, recorded, same, same_image};
use std::alloc::Global;
use std::test::Fail;

// Changes of the image, edits of its disk, and the lists of clusters that the edits return.
#[derive(Clone, Copy)]
struct Changed<'a> {
    name: &'a str,
    before: Numbers<'a>,
    edits: &'a [GuestEdit],
    freed: &'a [ClustersToFreeEntry],
    kept: &'a [KeptCluster],
    gained: &'a [HostCluster],
}

// Makes a range of clusters.
macro_rules! range {
    ($first:literal, $count:literal) => {
        ClustersToFreeEntry { first: HostCluster($first), count: ClusterCount($count) }
    };
}

const CHANGED: &[Changed<'static>] = &[
    Changed {
        name: "no edits",
        before: &[],
        edits: &[],
        freed: &[],
        kept: &[],
        gained: &[],
    },
    Changed {
        name: "the whole disk",
        before: &[],
        edits: &[discard!(0, 128)],
        freed: &[range!(5, 1)],
        kept: &[KeptCluster {
            cluster: HostCluster(256),
            counter: 1,
        }],
        gained: &[],
    },
    Changed {
        name: "maps, the last table's first",
        before: &[],
        edits: &[map!(127 to 300), map!(0 to 9)],
        freed: &[],
        kept: &[],
        gained: &[HostCluster(9), HostCluster(300)],
    },
    Changed {
        name: "a map that is discarded",
        before: &[],
        edits: &[map!(0 to 9), discard!(0, 1)],
        freed: &[range!(9, 1)],
        kept: &[],
        gained: &[HostCluster(9)],
    },
    Changed {
        name: "data in a row, whose counters are in two blocks",
        before: &[
            (BLOCK + 504, 1),
            (OTHER_BLOCK, 1 << 48),
            (OTHER_TABLE, COPIED | 256 << 9),
            (OTHER_TABLE + 8, COPIED | 255 << 9),
        ],
        edits: &[discard!(64, 2)],
        freed: &[range!(255, 2)],
        kept: &[],
        gained: &[],
    },
];

fn planned_by<S: Device>(
    alloc: Global,
    image: &mut S,
    header: &Header,
    edits: &[GuestEdit],
) -> Result<ChangedClusters, Fault> {
    let plan = Plan::new(alloc, image, header, edits)?;
    Ok(plan.clusters)
}

fn check_lists(found: &ChangedClusters, row: Changed<'_>) -> Result<(), Fail> {
    same(found.freed.as_slice(), row.freed, row.name)?;
    same(found.kept.as_slice(), row.kept, row.name)?;
    same(found.gained.as_slice(), row.gained, row.name)
}

fn check_planned(alloc: Global, row: Changed<'_>) -> Result<(), Fail> {
    let mut image: MemStorage = small_image(alloc, row.before)?;
    let header = header_of(alloc, &mut image)?;
    check_lists(&planned_by(alloc, &mut image, &header, row.edits)?, row)?;
    same_image(&image, small_image(alloc, row.before), row.name)
}

fn check_made(alloc: Global, row: Changed<'_>) -> Result<(), Fail> {
    let mut image: MemStorage = small_image(alloc, row.before)?;
    let mut header = header_of(alloc, &mut image)?;
    check_lists(
        &apply_edits(alloc, &mut image, &mut header, row.edits)?,
        row,
    )
}

#[test]
fn clusters_are_listed_by_what_becomes_of_them(rt: HostRuntime) -> Result<(), Fail> {
    each(rt.alloc(), CHANGED, check_planned)?;
    each(rt.alloc(), CHANGED, check_made)
}

#[test]
fn each_refused_read_of_a_list_is_the_storage_fault(rt: HostRuntime) -> Result<(), Fail> {
    let alloc = rt.alloc();
    let edits = [map!(127 to 300), discard!(3, 1), map!(0 to 9)];
    let mut image = recorded(alloc, small_image(alloc, &[])?);
    let header = header_of(alloc, &mut image.inner)?;
    for passes in 0..128 {
        image.plan = Some(passes);
        let found = planned_by(alloc, &mut image, &header, &edits);
        if image.plan.is_some() {
            return same(found.err(), None, passes);
        }
        same(found.err(), Some(Fault::Storage), passes)?;
    }
    Err(Fail::new("a list makes ever more calls"))
}
