//! L2 tables that edits of a disk change.

use crate::small_image::{OTHER_TABLE, small_image};
use qcow2_apply::{EditsByTable, GuestEdit, edit_tables, first_unfit};
use qcow2_base::{Device, Fault, GuestOffset, HostCluster};
use qcow2_check::load_l1_table;
use qcow2_metadata::{Header, L2Table};
use qcow2_testing::sample_image::{L1_TABLE, L2_TABLE};
use qcow2_testing::{COPIED, Numbers, StorageCall, each, recorded, rows, same, same_image};
use std::alloc::Global;
use std::test::Fail;

// Changes of the image, edits of its disk, the changes after both, and the fault, if any.
#[derive(Clone, Copy)]
struct Edited<'a> {
    name: &'a str,
    before: Numbers<'a>,
    edits: &'a [GuestEdit],
    changes: Numbers<'a>,
    fault: Option<Fault>,
}

const ONE_CLUSTER: &[GuestEdit] = &[GuestEdit::Discard {
    offset: GuestOffset(3 * 512),
    length: 512,
}];

const WHOLE_DISK: &[GuestEdit] = &[GuestEdit::Discard {
    offset: GuestOffset(0),
    length: 65536,
}];

const OTHER_CLUSTER: &[GuestEdit] = &[GuestEdit::Discard {
    offset: GuestOffset(32768),
    length: 512,
}];

const MAPS: &[GuestEdit] = &[
    GuestEdit::Map {
        offset: GuestOffset(0),
        host_cluster: HostCluster(9),
    },
    GuestEdit::Map {
        offset: GuestOffset(65024),
        host_cluster: HostCluster(10),
    },
];

const ZEROS: &[GuestEdit] = &[GuestEdit::Zero {
    offset: GuestOffset(3 * 512),
    length: 512,
    keep_allocation: true,
}];

const EDITED: &[Edited<'static>] = rows! { Edited:
    { name: "no edits", before: &[], edits: &[], changes: &[], fault: None },
    { name: "a discarded cluster", before: &[], edits: ONE_CLUSTER,
        changes: &[(L2_TABLE + 24, 0)], fault: None },
    { name: "the whole disk", before: &[], edits: WHOLE_DISK,
        changes: &[(L2_TABLE + 24, 0), (OTHER_TABLE, 0)], fault: None },
    { name: "a map in each table", before: &[], edits: MAPS,
        changes: &[(L2_TABLE, COPIED | 9 << 9), (OTHER_TABLE + 504, COPIED | 10 << 9)], fault: None },
    { name: "zeros that keep their cluster", before: &[], edits: ZEROS,
        changes: &[(L2_TABLE + 24, COPIED | 2561)], fault: None },
    { name: "no table", before: &[(L1_TABLE, 0)], edits: WHOLE_DISK,
        changes: &[(L1_TABLE, 0), (OTHER_TABLE, 0)], fault: None },
    { name: "a table that can't be loaded", before: &[(L2_TABLE, 2)], edits: WHOLE_DISK,
        changes: &[(L2_TABLE, 2)], fault: Some(Fault::EntryReserved) },
    { name: "one that isn't edited", before: &[(L2_TABLE, 2)], edits: OTHER_CLUSTER,
        changes: &[(L2_TABLE, 2), (OTHER_TABLE, 0)], fault: None },
};

/// Makes edits in the L2 tables of an image, without refcounts.
pub(crate) fn edit<S: Device>(
    alloc: Global,
    image: &mut S,
    edits: &[GuestEdit],
) -> Result<(), Fault> {
    let header = Header::load(alloc, image, false)?;
    if let Some(position) = first_unfit(&header, edits) {
        return Err(Fault::BadEdit(position));
    }
    let l1_table = load_l1_table(alloc, image, &header)?;
    let mut table = L2Table::new_cleared(alloc, &header)?;
    let by_table = EditsByTable::of(alloc, &header, &l1_table, edits)?;
    edit_tables(image, &header, &l1_table, &mut table, edits, &by_table)
}

fn check_edited(alloc: Global, row: Edited<'_>) -> Result<(), Fail> {
    let mut image = small_image(alloc, row.before)?;
    same(
        edit(alloc, &mut image, row.edits).err(),
        row.fault,
        row.name,
    )?;
    same_image(&image, small_image(alloc, row.changes), row.name)
}

#[test]
fn edits_of_a_disk_change_its_tables(rt: HostRuntime) -> Result<(), Fail> {
    each(rt.alloc(), EDITED, check_edited)
}

#[test]
fn each_refused_call_is_the_storage_fault_and_the_last(rt: HostRuntime) -> Result<(), Fail> {
    let alloc = rt.alloc();
    for refused in 0..64 {
        let mut image = recorded(alloc, small_image(alloc, &[])?);
        image.plan = Some(refused);
        let found = edit(alloc, &mut image, MAPS);
        if image.plan.is_some() {
            same(found, Ok(()), refused)?;
            return same(
                image.calls.last().copied(),
                Some(StorageCall::Sync),
                refused,
            );
        }
        same(found, Err(Fault::Storage), refused)?;
        same(image.calls.len() as u64, refused + 1, refused)?;
    }
    Err(Fail::new("edits make ever more calls"))
}
