//! The two programs of the example, over small image files.

use qcow2_base::{ClusterCount, Fault, GuestOffset, HostCluster, MemStorage};
use qcow2_example::{discard, discard_range};
use qcow2_metadata::ClustersToFreeEntry;
use qcow2_session::Outcome;
use qcow2_testing::{TemporaryFile, file_holds, image_with, same, temporary_file};
use std::alloc::Global;
use std::test::Fail;

// Offsets inside guest clusters 3 and 4, of 512 bytes.
const IN_CLUSTER_3: GuestOffset = GuestOffset(0x6ff);

const IN_CLUSTER_4: GuestOffset = GuestOffset(0x800);

// The differences between the images: the entry of guest cluster 3, the offset of the first refcount block,
// and the refcount of host cluster 5.
struct Image {
    l2_entry: u64,
    block_offset: u64,
    counter_5: u64,
}

// Data in host cluster 5, which has no other reference.
const DATA_IN_5: u64 = 1 << 63 | 5 << 9;

const MAPPED: Image = Image {
    l2_entry: DATA_IN_5,
    block_offset: 4 << 9,
    counter_5: 1,
};

const DISCARDED: Image = Image {
    l2_entry: 0,
    block_offset: 4 << 9,
    counter_5: 0,
};

const NOT_COUNTED: Image = Image {
    l2_entry: DATA_IN_5,
    block_offset: 4 << 9,
    counter_5: 0,
};

const WITHOUT_A_BLOCK: Image = Image {
    l2_entry: DATA_IN_5,
    block_offset: 0,
    counter_5: 1,
};

const CLUSTER_5: ClustersToFreeEntry = ClustersToFreeEntry {
    first: HostCluster(5),
    count: ClusterCount(1),
};

// Returns an image of six clusters of 512 bytes with a disk of 64. Cluster 0 has the header, 1 the L1 table,
// 2 the L2 table, 3 the refcount table, 4 the refcount block, with refcounts of 16 bits, and 5 the data.
fn image_of(alloc: Global, image: &Image) -> Result<MemStorage, Fault> {
    let numbers = [
        (0, 0x5146_49fb_0000_0003), // magic, version 3
        (16, 9), // cluster_bits
        (24, 64 << 9), // size
        (32, 1), // l1_size
        (40, 1 << 9), // l1_table_offset
        (48, 3 << 9), // refcount_table_offset
        (56, 1 << 32), // refcount_table_clusters
        (96, 0x0000_0004_0000_0068), // refcount_order, header_length
        (1 << 9, 1 << 63 | 2 << 9),
        ((2 << 9) + 3 * 8, image.l2_entry),
        (3 << 9, image.block_offset),
        (4 << 9, 0x0001_0001_0001_0001),
        ((4 << 9) + 8, 1 << 48 | image.counter_5 << 32),
    ];
    image_with(alloc, 6 << 9, &numbers)
}

// Returns the result of a discard in a file with an image. Fails unless the file is the other image
// afterwards.
fn check_discard(
    rt: &HostRuntime,
    name: &str,
    offset: GuestOffset,
    (before, after): (&Image, &Image),
) -> Result<Result<Option<Outcome>, Fault>, Fail> {
    let file = file_of(rt, name, before)?;
    let found = discard(rt, file.path.as_str(), offset);
    check_file(rt, file.path.as_str(), after, name)?;
    Ok(found)
}

fn file_of<'a>(
    rt: &'a HostRuntime,
    name: &str,
    image: &Image,
) -> Result<TemporaryFile<'a, HostRuntime>, Fail> {
    let image = image_of(rt.alloc(), image)?;
    temporary_file(rt, name, image.bytes())
}

fn check_file(rt: &HostRuntime, path: &str, image: &Image, name: &str) -> Result<(), Fail> {
    let image = image_of(rt.alloc(), image)?;
    file_holds(rt, path, image.bytes(), name)
}

#[test]
fn discarded_data_loses_its_entry_and_its_count(rt: HostRuntime) -> Result<(), Fail> {
    let images = (&MAPPED, &DISCARDED);
    let Some(outcome) = check_discard(&rt, "example-data", IN_CLUSTER_3, images)?? else {
        return Err(Fail::new("nothing was discarded"));
    };
    same(&outcome.freed.as_slice(), &[CLUSTER_5].as_slice(), "freed")?;
    same(&outcome.gained.len(), &0, "gained")
}

#[test]
fn a_discarded_range_loses_its_entry_and_its_count(rt: HostRuntime) -> Result<(), Fail> {
    let file = file_of(&rt, "example-range", &MAPPED)?;
    let found = discard_range(&rt, file.path.as_str(), GuestOffset(0x600), 0x200)?;
    check_file(&rt, file.path.as_str(), &DISCARDED, "example-range")?;
    same(&found.freed.as_slice(), &[CLUSTER_5].as_slice(), "freed")?;
    same(&found.kept.len(), &0, "kept")?;
    same(&found.gained.len(), &0, "gained")
}

#[test]
fn an_offset_without_data_changes_nothing(rt: HostRuntime) -> Result<(), Fail> {
    let found = check_discard(&rt, "example-backing", IN_CLUSTER_4, (&MAPPED, &MAPPED))??;
    same(&found.is_none(), &true, "nothing is discarded")
}

// Fails unless a discard in cluster 3 is refused by this fault and leaves the file.
fn check_refusal(rt: &HostRuntime, name: &str, image: &Image, expected: Fault) -> Result<(), Fail> {
    match check_discard(rt, name, IN_CLUSTER_3, (image, image))? {
        Ok(_) => Err(Fail::new("it was discarded")),
        Err(fault) => same(&fault, &expected, name),
    }
}

#[test]
fn data_that_is_not_counted_stays(rt: HostRuntime) -> Result<(), Fail> {
    check_refusal(
        &rt,
        "example-not-counted",
        &NOT_COUNTED,
        Fault::CounterRange,
    )?;
    check_refusal(
        &rt,
        "example-without-a-block",
        &WITHOUT_A_BLOCK,
        Fault::NotPlaced,
    )
}
