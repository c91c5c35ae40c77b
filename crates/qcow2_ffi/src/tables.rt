//! Functions over the bytes of L2 tables.

ghost use Rattle.qcow2_ffi.specs.Tables.{EditsTableFor, HandsOverEdits, HandsOverExtents};

use qcow2_base::Fault;
use qcow2_bytes::{
    EditCounts, EditFields, EditRefusal, ExtentFields, HeaderFields, HostClusters, edit_l2_table,
    l2_extents,
};
use std::alloc::Global;

/// Joins the entries in the bytes of an L2 table, or of a part of one, into extents.
#[unsafe(no_mangle)]
pub extern "C" fn zq_l2_extents(
    bytes: &[u8],
    header: &HeaderFields,
    first_guest_offset: u64,
    extents: &mut [ExtentFields],
    count: &mut usize,
) -> u32
    ensures { HandsOverExtents header.now bytes.now first_guest_offset extents.old extents.new
        result count.old count.new }
{
    match l2_extents(bytes, header, first_guest_offset, extents) {
        Ok(found) => {
            *count = found;
            0
        }
        Err(fault) => fault.number(),
    }
}

/// Makes edits in the bytes of a whole L2 table.
#[unsafe(no_mangle)]
pub extern "C" fn zq_l2_edit(
    alloc: Global,
    bytes: &mut [u8],
    header: &HeaderFields,
    edits: &[EditFields],
    freed: &mut [HostClusters],
    freed_count: &mut usize,
    gained: &mut [u64],
    gained_count: &mut usize,
    bad: &mut usize,
) -> u32
    ensures { EditsTableFor header.now edits.now
        (record { bytes = bytes.old; freed = freed.old; gained = gained.old })
        (record { bytes = bytes.new; freed = freed.new; gained = gained.new }) result
        (record { freed = freed_count.old; gained = gained_count.old; bad = bad.old })
        (record { freed = freed_count.new; gained = gained_count.new; bad = bad.new }) }
{
    hand_over_edits(
        edit_l2_table(alloc, bytes, header, edits, freed, gained),
        freed_count,
        gained_count,
        bad,
    )
}

// Stores the numbers of the answer, and returns 0 or the fault's number.
fn hand_over_edits(
    answer: Result<EditCounts, EditRefusal>,
    freed_count: &mut usize,
    gained_count: &mut usize,
    bad: &mut usize,
) -> u32
    ensures { HandsOverEdits answer result
        (record { freed = freed_count.old; gained = gained_count.old; bad = bad.old })
        (record { freed = freed_count.new; gained = gained_count.new; bad = bad.new }) }
{
    match answer {
        Ok(counts) => {
            *freed_count = counts.freed;
            *gained_count = counts.gained;
            0
        }
        Err(EditRefusal::NoRoom(counts)) => {
            *freed_count = counts.freed;
            *gained_count = counts.gained;
            Fault::WrongLength.number()
        }
        Err(EditRefusal::Table(entry)) => {
            *bad = entry.index;
            entry.fault.number()
        }
        Err(EditRefusal::Edits(Fault::BadEdit(position))) => {
            *bad = position;
            Fault::BadEdit(position).number()
        }
        Err(EditRefusal::Edits(fault)) => fault.number(),
    }
}
