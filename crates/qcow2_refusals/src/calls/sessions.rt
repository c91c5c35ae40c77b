//! Lists of edits and steps, and lookups.

use super::tell;
use crate::held::{BLOCK, Held, TABLES};
use qcow2_base::{Device, Fault, GuestOffset, HostCluster, Storage};
use qcow2_session::{Edit, GuestEdit, Step};
use qcow2_session_calls::{
    apply_edits, edit_image, edit_settled, edit_table, lookup, lookup_image, plan_edits,
    step_block, step_image,
};
use qcow2_testing::rows;

// Edits of a table in memory, and edits of the first and the last entry of a table of 65536 bytes.
const TABLE_EDITS: &[Edit] = rows! {
    Edit::Map { index: 0, host_cluster: HostCluster(8) }, Edit::Zero { index: 1, keep_allocation: true },
    Edit::Discard { index: 2 },
};

const IMAGE_EDITS: &[Edit] = rows! {
    Edit::Map { index: 0, host_cluster: HostCluster(5) },
    Edit::Map { index: 8191, host_cluster: HostCluster(6) },
};

// Steps of a block in memory, and steps of a block of 4096 bytes.
const BLOCK_STEPS: &[Step] =
    rows! { Step::Inc { index: 5 }, Step::Dec { index: 7 }, Step::Dec { index: 6 } };

const IMAGE_STEPS: &[Step] =
    rows! { Step::Inc { index: 0 }, Step::Dec { index: 1 }, Step::Inc { index: 2047 } };

// Edits of guest clusters 0 and 3 of the disk, of which 3 has data.
const DISK_EDITS: &[GuestEdit] = rows! {
    GuestEdit::Map { offset: GuestOffset(0), host_cluster: HostCluster(6) },
    GuestEdit::Discard { offset: GuestOffset(1536), length: 512 },
};

// An offset in guest cluster 3 of the disk.
const GUEST_OFFSET: GuestOffset = GuestOffset(1543);

pub(super) fn edit(held: &mut Held) -> Result<(), Fault> {
    let outcome = edit_table(held.alloc, &mut held.l2_table, TABLE_EDITS)?;
    tell(&mut held.out, &outcome)
}

pub(super) fn step(held: &mut Held) -> Result<(), Fault> {
    let replies = step_block(held.alloc, &mut held.block, BLOCK_STEPS)?;
    tell(&mut held.out, &replies)
}

pub(super) fn settle(held: &mut Held) -> Result<(), Fault> {
    let (header, table, block) = (&held.header, &mut held.l2_table, &mut held.block);
    let outcome = edit_settled(held.alloc, table, block, header, 0, TABLE_EDITS)?;
    tell(&mut held.out, &outcome)
}

// Succeeds if `settle` fails because the refcounts can't follow.
pub(super) fn settle_in_vain(held: &mut Held) -> Result<(), Fault> {
    match settle(held) {
        Err(Fault::CounterRange) => Ok(()),
        Err(fault) => Err(fault),
        Ok(()) => Err(Fault::CounterRange),
    }
}

pub(super) fn edit_in<S: Storage>(held: &mut Held, image: &mut S) -> Result<(), Fault> {
    let outcome = edit_image(held.alloc, image, &held.header, TABLES, IMAGE_EDITS)?;
    tell(&mut held.out, &outcome)
}

pub(super) fn step_in<S: Storage>(held: &mut Held, image: &mut S) -> Result<(), Fault> {
    let replies = step_image(held.alloc, image, &held.header, BLOCK, IMAGE_STEPS)?;
    tell(&mut held.out, &replies)
}

pub(super) fn plan<S: Device>(held: &mut Held, image: &mut S) -> Result<(), Fault> {
    let plan = plan_edits(held.alloc, image, &held.header, DISK_EDITS)?;
    tell(&mut held.out, &plan.clusters)
}

pub(super) fn apply<S: Device>(held: &mut Held, image: &mut S) -> Result<(), Fault> {
    let clusters = apply_edits(held.alloc, image, &mut held.header, DISK_EDITS)?;
    tell(&mut held.out, &clusters)
}

pub(super) fn look_up<S: Storage>(held: &mut Held, image: &mut S) -> Result<(), Fault> {
    let (header, l1_table) = (&held.header, &held.l1_table);
    let mapping = lookup(held.alloc, image, header, l1_table, GUEST_OFFSET)?;
    tell(&mut held.out, &mapping)
}

pub(super) fn look_up_image<S: Storage>(held: &mut Held, image: &mut S) -> Result<(), Fault> {
    let mapping = lookup_image(held.alloc, image, GUEST_OFFSET)?;
    tell(&mut held.out, &mapping)
}
