//! Updates of the refcounts in an image after changes of references.

ghost use Rattle.std.specs.Prelude.{◌≡◌, ◌⊎◌, ◌+◌, ◌<◌, false, IfErr, IfOk, MatchResult, None, OnOk, Some, slice_index, true};
ghost use Rattle.qcow2_base.specs.Storage.{OnImage, OnImages, OnlyReads, OnlyWrites};
ghost use Rattle.qcow2_base.specs.declared.fault.Fault.TheVariants.{CounterRange, Storage};
ghost use Rattle.qcow2_metadata.specs.Header.{uses_external_data};
ghost use Rattle.qcow2_metadata.specs.Placed.{offset_of, place_fault};
ghost use Rattle.qcow2_metadata.specs.Refblock.{block_geometry_of, block_layout};
ghost use Rattle.qcow2_check.specs.Failures.{ReportsFailures, TearsAtMost};
ghost use Rattle.qcow2_apply.specs.Changes.{IsOutcomeOf};
ghost use Rattle.qcow2_apply.specs.CounterTables.{BlockFollows, BlockIsStuck, IsByBlocks, block_numbers};
ghost use Rattle.qcow2_apply.specs.Passes.{ArePlacesApart, KeepsOutside, StepsAt, TearsOne};
ghost use Rattle.qcow2_apply.specs.Blocks.{FollowsChanges, IsStuckAt, SomeIsStuck, StopsFollowing, blocks};

use crate::counter_tables::follow;
use crate::{Changes, CounterTables};
use qcow2_base::{Device, Fault, HostCluster, Storage};
use qcow2_check::named_block;
use qcow2_edits::Outcome;
use qcow2_metadata::{Header, RefBlock, RefTable, Table};

// Reads the refcount block at a cluster into `block`, and updates its refcounts by what their clusters gained
// and lost.
fn follow_block<S: Storage>(
    image: &mut S,
    tables: &CounterTables<'_>,
    block: &mut RefBlock,
    cluster: HostCluster,
    index: usize,
    changes: &Changes,
    outcome: &Outcome,
) -> Result<(), Fault>
    requires data { uses_external_data tables.now.header ≡ false }
    requires place { place_fault (block_layout (block_geometry_of tables.now.header)) cluster ≡ None }
    requires block { block.old.geometry ≡ block_geometry_of tables.now.header }
    requires bits { IsByBlocks tables.now changes.now }
    requires outcome { IsOutcomeOf changes.now index (Some outcome.now) }
    ensures followed { OnOk result (OnImages (S.state image.old) (S.state image.new) (λ before after.
        BlockFollows tables.now changes.now index (block_numbers tables.now cluster before)
        (block_numbers tables.now cluster after))) }
    ensures fault { IfErr result (λ fault. (fault ≡ Storage) ⊎ ((fault ≡ CounterRange)
        × OnImage (S.state image.old) (λ bytes.
        BlockIsStuck tables.now changes.now index (block_numbers tables.now cluster bytes)))) }
    ensures block { block.new.geometry ≡ block.old.geometry }
    ensures storage { let layout = block_layout (block_geometry_of tables.now.header) in
        OnlyWrites result (Some (offset_of layout cluster)) layout.byte_count
        (S.state image.old) (S.state image.new) }
{
    block.reload(image, tables.header, cluster)?;
    follow(block, tables, index, changes, outcome)?;
    block.write_changes(image, cluster)
}

// The same for the block at an index of the refcount table. Does nothing if the index names no block, or none
// of its clusters gained or lost references.
fn follow_at<S: Storage>(
    image: &mut S,
    tables: &CounterTables<'_>,
    block: &mut RefBlock,
    index: usize,
    changes: &Changes,
) -> Result<(), Fault>
    requires data { uses_external_data tables.now.header ≡ false }
    requires block { block.old.geometry ≡ block_geometry_of tables.now.header }
    requires bits { IsByBlocks tables.now changes.now }
    ensures followed { ArePlacesApart (blocks tables.now) →
        OnImages (S.state image.old) (S.state image.new) (λ before after. MatchResult result
        (λ _. StepsAt (blocks tables.now) (BlockFollows tables.now changes.now) index before after)
        (λ fault. TearsAtMost fault (TearsOne (blocks tables.now)) before after)) }
    ensures others { OnImages (S.state image.old) (S.state image.new) (KeepsOutside (blocks tables.now)) }
    ensures fault { IfErr result (λ fault. (fault ≡ Storage) ⊎ ((fault ≡ CounterRange)
        × OnImage (S.state image.old) (IsStuckAt tables.now changes.now index))) }
    ensures block { block.new.geometry ≡ block.old.geometry }
    ensures storage { ReportsFailures result (S.state image.old) (S.state image.new) }
{
    prove!(tables.header.cluster_bits() <= 21);
    prove!(tables.header.refcount_order() <= 6);
    let Some(outcome) = changes.outcome_of(index) else {
        return Ok(());
    };
    let Some(cluster) = named_block(tables.reftable, index) else {
        return Ok(());
    };
    follow_block(image, tables, block, cluster, index, changes, outcome)
}

/// Updates all refcounts of an image by what their clusters gained and lost, and syncs them to the device.
/// Reads each refcount block into `block` and writes its changed pieces at most once, so it takes no memory.
/// Skips clusters that no block counts.
///
/// Adds all gains of a cluster before it subtracts losses. Returns 30 if a refcount can't hold both so. After
/// a fault some refcounts may be updated, so the call must not be repeated. If the storage failed, any bytes
/// may also be in one block.
pub fn follow_changes<S: Device>(
    image: &mut S,
    tables: &CounterTables<'_>,
    block: &mut RefBlock,
    changes: &Changes,
) -> Result<(), Fault>
    requires data { uses_external_data tables.now.header ≡ false }
    requires block { block.old.geometry ≡ block_geometry_of tables.now.header }
    requires bits { IsByBlocks tables.now changes.now }
    ensures followed { ArePlacesApart (blocks tables.now) →
        OnImages (S.state image.old) (S.state image.new) (λ before after. MatchResult result
        (λ _. FollowsChanges tables.now changes.now before after)
        (λ fault. StopsFollowing tables.now changes.now fault before after)) }
    ensures others { OnImages (S.state image.old) (S.state image.new) (KeepsOutside (blocks tables.now)) }
    ensures fault { IfErr result (λ fault. (fault ≡ Storage) ⊎ ((fault ≡ CounterRange)
        × (ArePlacesApart (blocks tables.now) →
        OnImage (S.state image.old) (SomeIsStuck tables.now changes.now)))) }
    ensures block { block.new.geometry ≡ block.old.geometry }
    ensures storage { ReportsFailures result (S.state image.old) (S.state image.new) }
{
    for index in 0..tables.reftable.entries() {
        follow_at(image, tables, block, index, changes)?;
    }
    image.sync()?;
    Ok(())
}
