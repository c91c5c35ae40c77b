//! Refcounts that follow the references that clusters gained and lost.

use crate::small_image::{OTHER_BLOCK, small_image};
use qcow2_apply::{Changes, CounterTables, follow_changes};
use qcow2_base::{ClusterCount, Device, Fault, HostCluster};
use qcow2_check::Counters;
use qcow2_edits::Outcome;
use qcow2_metadata::{ClustersToFreeEntry, Header, RefBlock};
use qcow2_testing::sample_image::BLOCK;
use qcow2_testing::{Numbers, StorageCall, each, recorded, rows, same, same_image};
use std::alloc::Global;
use std::test::Fail;

// Clusters that gained a reference, runs of clusters that lost one, each as its first cluster and its length,
// the changes of the image that follow, and the fault, if any.
#[derive(Clone, Copy)]
struct Followed<'a> {
    name: &'a str,
    gained: &'a [u64],
    lost: &'a [(u64, u64)],
    changes: Numbers<'a>,
    fault: Option<Fault>,
}

const FOLLOWED: &[Followed<'static>] = rows! { Followed:
    { name: "nothing", gained: &[], lost: &[], changes: &[], fault: None },
    { name: "a lost cluster", gained: &[], lost: &[(5, 1)], changes: &[(BLOCK + 8, 0x0001_0000_0001_0001)],
        fault: None },
    { name: "one that has others", gained: &[], lost: &[(256, 1)], changes: &[(OTHER_BLOCK, 1 << 48)],
        fault: None },
    { name: "one that is lost twice", gained: &[], lost: &[(256, 1), (256, 1)], changes: &[(OTHER_BLOCK, 0)],
        fault: None },
    { name: "a run", gained: &[], lost: &[(4, 2), (6, 2)], changes: &[(BLOCK + 8, 0)], fault: None },
    { name: "clusters of both blocks", gained: &[300, 8], lost: &[],
        changes: &[(BLOCK + 16, 1 << 48), (OTHER_BLOCK + 88, 1 << 48)], fault: None },
    { name: "a run over a border", gained: &[255], lost: &[(255, 2)], changes: &[(OTHER_BLOCK, 1 << 48)],
        fault: None },
    { name: "gained and lost", gained: &[9], lost: &[(9, 1)], changes: &[], fault: None },
    { name: "one that no block counts", gained: &[512], lost: &[(513, 1)], changes: &[], fault: None },
    { name: "more losses than references", gained: &[], lost: &[(5, 1), (5, 1)], changes: &[],
        fault: Some(Fault::CounterRange) },
    { name: "so in the second block", gained: &[8], lost: &[(256, 3)], changes: &[(BLOCK + 16, 1 << 48)],
        fault: Some(Fault::CounterRange) },
};

// Returns gained and lost clusters as an outcome.
fn outcome_of(alloc: Global, gained: &[u64], lost: &[(u64, u64)]) -> Result<Outcome, Fault> {
    let mut outcome = Outcome {
        gained: Vec::new(alloc),
        freed: Vec::new(alloc),
    };
    for cluster in gained {
        outcome.gained.push(HostCluster(*cluster))?;
    }
    for (first, count) in lost {
        outcome.freed.push(ClustersToFreeEntry {
            first: HostCluster(*first),
            count: ClusterCount(*count),
        })?;
    }
    Ok(outcome)
}

// Makes the refcounts of an image follow the outcome.
fn follow<S: Device>(alloc: Global, image: &mut S, outcome: &Outcome) -> Result<(), Fault> {
    let header = Header::load(alloc, image, false)?;
    if header.external_data_file() {
        return Err(Fault::ExternalData);
    }
    let reftable = Counters::new(alloc, image, &header)?.into_reftable();
    let tables = CounterTables {
        header: &header,
        reftable: &reftable,
    };
    let mut changes = Changes::new(alloc, &header);
    changes.add_all_gained(alloc, outcome.gained.as_slice())?;
    changes.add_all_lost(alloc, outcome.freed.as_slice())?;
    let mut block = RefBlock::new_cleared(alloc, image, &header)?;
    follow_changes(image, &tables, &mut block, &changes)
}

fn check_followed(alloc: Global, row: Followed<'_>) -> Result<(), Fail> {
    let outcome = outcome_of(alloc, row.gained, row.lost)?;
    let mut image = small_image(alloc, &[])?;
    same(
        follow(alloc, &mut image, &outcome).err(),
        row.fault,
        row.name,
    )?;
    same_image(&image, small_image(alloc, row.changes), row.name)
}

#[test]
fn counters_follow_what_clusters_gained_and_lost(rt: HostRuntime) -> Result<(), Fail> {
    each(rt.alloc(), FOLLOWED, check_followed)
}

#[test]
fn each_refused_call_is_the_storage_fault_and_the_last(rt: HostRuntime) -> Result<(), Fail> {
    let alloc = rt.alloc();
    let outcome = outcome_of(alloc, &[8], &[(256, 1)])?;
    for refused in 0..64 {
        let mut image = recorded(alloc, small_image(alloc, &[])?);
        image.plan = Some(refused);
        let found = follow(alloc, &mut image, &outcome);
        if image.plan.is_some() {
            same(found, Ok(()), refused)?;
            return same(
                image.calls.last().copied(),
                Some(StorageCall::Sync),
                refused,
            );
        }
        same(found, Err(Fault::Storage), refused)?;
        same(image.calls.len() as u64, refused + 1, refused)?;
    }
    Err(Fail::new("counters make ever more calls"))
}
