//! The L2 tables that edits need, and which of them are missing.

ghost use Rattle.std.specs.Prelude.{◌≡◌, ◌&&◌, length, not, true};
ghost use Rattle.std.specs.List.{list_any};
ghost use Rattle.qcow2_metadata.specs.Header.{geometry_of};
ghost use Rattle.qcow2_check.specs.NamedTables.{named_cluster};
ghost use Rattle.qcow2_apply.specs.GuestEdits.{ends_after, guest_edit_fits, has_clusters_in, is_discard};
ghost use Rattle.qcow2_apply.specs.NeededTables.{IsFirstMissing, are_more_needed, is_table_needed};
ghost use Rattle.qcow2_apply.specs.Tables.{AllFit};

use crate::guest_edits::GuestEdit;
use qcow2_check::named_cluster;
use qcow2_metadata::{Header, L1Table, Table};

// The index of the first L1 entry before `end` that the edit concerns and that names no table, or `end`.
fn first_missing_of(edit: &GuestEdit, header: &Header, l1_table: &L1Table, end: usize) -> usize
    requires geometry { l1_table.now.geometry ≡ geometry_of header.now }
    requires fits { guest_edit_fits header.now edit.now ≡ true }
    ensures { IsFirstMissing header.now l1_table.now.numbers
        (λ i. has_clusters_in header.now.v2.cluster_bits i edit.now) end result }
{
    let (start, after) = edit.tables(header);
    for index in start..after.min(end) {
        if named_cluster(l1_table, index).is_none() {
            return index;
        }
    }
    end
}

/// The index of the first L1 entry that an edit other than a discard concerns and that names no table, or the
/// number of entries.
pub(crate) fn first_missing(header: &Header, l1_table: &L1Table, edits: &[GuestEdit]) -> usize
    requires geometry { l1_table.now.geometry ≡ geometry_of header.now }
    requires fit { AllFit header.now edits.now }
    ensures { IsFirstMissing header.now l1_table.now.numbers
        (is_table_needed header.now.v2.cluster_bits edits.now) (length l1_table.now.numbers) result }
{
    let mut first = l1_table.entries();
    for edit in edits {
        if !edit.is_discard() {
            first = first_missing_of(edit, header, l1_table, first);
        }
    }
    first
}

/// Whether an edit other than a discard has guest clusters after those of the last L1 entry.
pub(crate) fn are_more_needed(edits: &[GuestEdit], header: &Header) -> bool
    ensures { let entries = header.now.v2.l1_size in
        result ≡ are_more_needed header.now.v2.cluster_bits edits.now entries }
{
    edits.iter().any(
        |edit: &GuestEdit| -> bool
            ensures { let entries = header.entry.now.v2.l1_size in
                result ≡ (ends_after header.entry.now.v2.cluster_bits entries edit.now
                && not (is_discard edit.now)) }
        { edit.ends_after(header) && !edit.is_discard() },
    )
}
