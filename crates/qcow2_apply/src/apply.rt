//! Edits of guest ranges, with the refcounts of the clusters that gain and lose references by them.

ghost use Rattle.std.specs.Prelude.{◌≡◌, ◌≢◌, ℕ, IfErr, IfOk, IsOkUnless, MatchResult, OnOk};
ghost use Rattle.qcow2_base.specs.Storage.{Image, OnImage, OnImages, SameOutside};
ghost use Rattle.qcow2_base.specs.declared.fault.Fault.TheVariants.{NoMemory, Storage};
ghost use Rattle.qcow2_check.specs.Failures.{RefusesAs, ReportsFailures};
ghost use Rattle.qcow2_apply.specs.Apply.{Applies, AreAllApart, BreaksOffApplying, CanBeMade, EditsDisk, FollowsPlan, IsElsewhere, IsWorkspaceOf, LeavesHeader, tables_by};
ghost use Rattle.qcow2_apply.specs.Plan.{IsPlanFor, IsPlanOf, edits_within};

use crate::blocks::follow_changes;
use crate::plan::Plan;
use crate::{ChangedClusters, CounterTables, GuestEdit, edit_tables};
use qcow2_base::{Device, Fault, Storage};
use qcow2_metadata::{Header, L2Table, RefBlock};
use std::alloc::Global;

// The table and the refcount block that all others are read into. They are allocated before the first write,
// so that memory can't run out after it.
#[derive(Drop)]
struct Workspace {
    table: L2Table,
    block: RefBlock,
}

impl Workspace {
    fn of<S: Storage>(alloc: Global, image: &S, header: &Header) -> Result<Workspace, Fault>
        ensures fault { IsOkUnless result Fault.NoMemory }
        ensures workspace { IfOk result (IsWorkspaceOf header.now) }
    {
        Ok(Workspace {
            table: L2Table::new_cleared(alloc, header)?,
            block: RefBlock::new_cleared(alloc, image, header)?,
        })
    }
}

impl Plan {
    // Makes the planned edits: raises the refcounts of clusters that gain references, edits the tables, and
    // lowers the refcounts of those that lose references. Syncs each part to the device before the next.
    fn make<S: Device>(
        &self,
        image: &mut S,
        header: &Header,
        edits: &[GuestEdit],
        workspace: &mut Workspace,
    ) -> Result<(), Fault>
        requires plan { IsPlanFor header.now edits.now self.now }
        requires workspace { IsWorkspaceOf header.now workspace.old }
        ensures applied { let tables = tables_by header.now self.now in AreAllApart tables →
            OnImages (S.state image.old) (S.state image.new) (λ before after. MatchResult result
            (λ _. Applies tables edits.now self.now.gains self.now.losses before after)
            (λ fault. BreaksOffApplying tables edits.now self.now.gains self.now.losses fault before after)) }
        ensures others { OnImages (S.state image.old) (S.state image.new) (λ before after.
            (o : ℕ) → IsElsewhere (tables_by header.now self.now) o → after o ≡ before o) }
        ensures fault { let tables = tables_by header.now self.now in AreAllApart tables →
            IfErr result (λ fault. OnImage (S.state image.old) (λ bytes. (first : Image) →
            CanBeMade tables edits.now self.now.gains self.now.losses first → SameOutside 88 8 first bytes →
            fault ≡ Storage)) }
        ensures memory { IfErr result (λ fault. fault ≢ NoMemory) }
        ensures storage { ReportsFailures result (S.state image.old) (S.state image.new) }
    {
        prove!(header.cluster_bits() <= 21);
        prove!(header.refcount_order() <= 6);
        let tables = CounterTables {
            header,
            reftable: &self.reftable,
        };
        follow_changes(image, &tables, &mut workspace.block, &self.gains)?;
        edit_tables(
            image,
            header,
            &self.l1_table,
            &mut workspace.table,
            edits,
            &self.by_table,
        )?;
        follow_changes(image, &tables, &mut workspace.block, &self.losses)
    }
}

impl Plan {
    // Clears the autoclear features of the image and of `header`, syncs that to the device, and makes the
    // planned edits.
    fn carry_out<S: Device>(
        &self,
        image: &mut S,
        header: &mut Header,
        edits: &[GuestEdit],
        workspace: &mut Workspace,
    ) -> Result<(), Fault>
        requires plan { IsPlanFor header.old edits.now self.now }
        requires workspace { IsWorkspaceOf header.old workspace.old }
        ensures header { LeavesHeader header.old result header.new }
        ensures followed { OnImages (S.state image.old) (S.state image.new) (λ before after.
            IsPlanOf header.old edits.now before self.now →
            FollowsPlan header.old edits.now self.now result before after) }
        ensures storage { ReportsFailures result (S.state image.old) (S.state image.new) }
    {
        header.clear_autoclear(image)?;
        image.sync()?;
        self.make(image, header, edits, workspace)
    }
}

/// Makes edits of guest ranges in an image with this header, and updates the refcounts of the host clusters
/// concerned. Returns the clusters that become free, and those that lost or gained references and are in use.
///
/// Checks everything before the first write. The refusals are, in this order:
///
/// - 42 if the image is marked dirty or corrupt;
/// - 41 if the L1 table is too short for the disk;
/// - 36 with an external data file;
/// - 32 and the position of the first edit that doesn't fit the disk;
/// - 27 for zeros in version 2;
/// - the faults of the L1 table and of the refcount table, and 21 if the image ends before a table or block
///   that it names, as in `refuse_tables_past_end` of `qcow2_check`;
/// - for each L2 table in order: 23 if it is missing, except for discards; 40 and the position of its first
///   edit if its refcount isn't 1 or its L1 entry has no copied flag; a fault of its load; for a mapped
///   cluster 23 if no refcount block counts it, and 32 if its refcount isn't 0 or another edit maps it;
/// - 30 if a refcount can't follow.
///
/// Doesn't check that mapped clusters lie before the image's end.
///
/// Then clears the autoclear features, in `header` too, raises the refcounts of clusters that gain
/// references, edits the tables, and lowers the refcounts of clusters that lose references. Syncs each part
/// to the device before the next. So if no cluster belongs to two tables or blocks, or to one of them and the
/// header, a fault leaves no refcount lower than its references that wasn't before, one torn write aside.
///
/// After 34 some of this may be done, and any bytes may be in one table or block: don't repeat the call, but
/// check the image and repair it. After any other fault no byte has changed, if nothing overlaps so. All
/// memory is allocated before the first write, so after 35 no byte has changed in any image.
pub fn apply_edits<S: Device>(
    alloc: Global,
    image: &mut S,
    header: &mut Header,
    edits: &[GuestEdit],
) -> Result<ChangedClusters, Fault>
    ensures header { LeavesHeader header.old result header.new }
    ensures edited { OnImages (S.state image.old) (S.state image.new)
        (EditsDisk header.old header.new edits.now result) }
    ensures end { OnImage (S.state image.old) (λ bytes.
        RefusesAs (edits_within header.old edits.now (S.state image.old).len bytes) result) }
    ensures storage { ReportsFailures result (S.state image.old) (S.state image.new) }
{
    let plan = Plan::new(alloc, image, header, edits)?;
    let mut workspace = Workspace::of(alloc, image, header)?;
    plan.carry_out(image, header, edits, &mut workspace)?;
    Ok(plan.clusters)
}
