//! The plan of edits, made before anything is written.

ghost use Rattle.std.specs.Prelude.{◌≡◌, ◌⊎◌, ◌<◌, Err, IfErr, IfOk, Ok, ◌/◌, Some};
ghost use Rattle.qcow2_base.specs.Storage.{OnImage, OnlyReads};
ghost use Rattle.qcow2_check.specs.Failures.{RefusesAs};
ghost use Rattle.qcow2_metadata.specs.Results.{IsFromOutside, unless_refused};
ghost use Rattle.qcow2_apply.specs.Plan.{AreRead, CanBePlannedBy, IsPlanFor, IsPlanOf, RefusesEdits, edits_within};

use crate::guest_edits::check_edits;
use crate::planned_tables::plan_by_tables;
use crate::{ChangedClusters, Changes, CounterTables, EditsByTable, GuestEdit};
use qcow2_base::{Device, Fault};
use qcow2_check::{Counters, load_l1_table, refuse_tables_past_end};
use qcow2_metadata::{Header, L1Table, RefTable};
use std::alloc::Global;

// Reads the tables that a plan needs: the L1 table, and the refcount table with a reader of refcounts.
// Refuses edits by the faults of `check_edits`, and then an image by those of `refuse_tables_past_end`.
fn read_tables<'a, S: Device>(
    alloc: Global,
    image: &mut S,
    header: &'a Header,
    edits: &[GuestEdit],
) -> Result<(L1Table, Counters<'a>), Fault>
    ensures read { IfOk result (λ tables. OnImage (S.state image.old) (λ bytes.
        AreRead header.now edits.now bytes tables.0.numbers tables.1.reftable)) }
    ensures tables { IfOk result (λ tables. CanBePlannedBy header.now edits.now tables.0 tables.1) }
    ensures refused { IfErr result (λ fault. OnImage (S.state image.old) (λ bytes.
        IsFromOutside fault ⊎ RefusesEdits header.now edits.now bytes fault)) }
    ensures end { OnImage (S.state image.old) (λ bytes.
        RefusesAs (edits_within header.now edits.now (S.state image.old).len bytes) result) }
    ensures storage { OnlyReads result (S.state image.old) (S.state image.new) }
{
    check_edits(header, edits)?;
    refuse_tables_past_end(alloc, image, header)?;
    let l1_table = load_l1_table(alloc, image, header)?;
    let counters = Counters::new(alloc, image, header)?;
    Ok((l1_table, counters))
}

/// The effect of edits on an image before they are made: the tables that they need, the references that
/// clusters gain and lose, and the clusters that become free or stay in use.
#[derive(Drop)]
pub struct Plan {
    /// The image's L1 table.
    pub l1_table: L1Table,
    /// The edits that concern each L2 table.
    pub by_table: EditsByTable,
    /// The image's refcount table.
    pub reftable: RefTable,
    /// The references that clusters gain, by the refcount block that counts them.
    pub gains: Changes,
    /// The references that clusters lose.
    pub losses: Changes,
    /// The clusters that become free, that lose a reference and have others, or that gain one.
    pub clusters: ChangedClusters,
}

impl Plan {
    /// Checks edits and determines their effect. Refuses them by the faults that `apply_edits` names. Changes
    /// no byte.
    pub fn new<S: Device>(
        alloc: Global,
        image: &mut S,
        header: &Header,
        edits: &[GuestEdit],
    ) -> Result<Plan, Fault>
        ensures planned { IfOk result (λ plan. OnImage (S.state image.old) (λ bytes.
            IsPlanOf header.now edits.now bytes plan)) }
        ensures plan { IfOk result (IsPlanFor header.now edits.now) }
        ensures refused { IfErr result (λ fault. OnImage (S.state image.old) (λ bytes.
            IsFromOutside fault ⊎ RefusesEdits header.now edits.now bytes fault)) }
        ensures end { OnImage (S.state image.old) (λ bytes.
            RefusesAs (edits_within header.now edits.now (S.state image.old).len bytes) result) }
        ensures storage { OnlyReads result (S.state image.old) (S.state image.new) }
    {
        let (l1_table, mut counters) = read_tables(alloc, image, header, edits)?;
        let (by_table, planned) = plan_by_tables(image, header, &l1_table, &mut counters, edits)?;
        let reftable = counters.into_reftable();
        let tables = CounterTables {
            header,
            reftable: &reftable,
        };
        let clusters = planned.changed_clusters(alloc, image, &tables)?;
        Ok(Plan {
            l1_table,
            by_table,
            reftable,
            gains: planned.gains,
            losses: planned.losses,
            clusters,
        })
    }
}
