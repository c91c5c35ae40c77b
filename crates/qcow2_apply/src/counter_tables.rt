//! Updates of the refcounts of a block in memory, and the tables that say where refcount blocks lie.

ghost use Rattle.std.specs.Prelude.{◌≡◌, ◌⊎◌, ℕ, false, IfErr, IfOk, None, OnOk, Some, true};
ghost use Rattle.qcow2_base.specs.Storage.{OnImage, OnlyReads};
ghost use Rattle.qcow2_base.specs.declared.fault.Fault.TheVariants.{CounterRange};
ghost use Rattle.qcow2_metadata.specs.Header.{geometry_of, uses_external_data};
ghost use Rattle.qcow2_metadata.specs.Placed.{place_fault};
ghost use Rattle.qcow2_metadata.specs.Refblock.{block_geometry_of, block_layout};
ghost use Rattle.qcow2_metadata.specs.Results.{IsFromOutside};
ghost use Rattle.qcow2_check.specs.Counters.{blocks_fault, counters_each};
ghost use Rattle.qcow2_apply.specs.Changes.{IsOutcomeOf};
ghost use Rattle.qcow2_apply.specs.CounterTables.{BlockFollows, BlockIsStuck, IsBlockOf, IsByBlocks, NamesBlock, block_numbers};
ghost use Rattle.qcow2_apply.specs.PlannedChanges.{AreSorted, BlockIsLeft, CannotCount};

use crate::changes::Changes;
use qcow2_base::{Fault, HostCluster, Storage};
use qcow2_edits::{Outcome, settle};
use qcow2_metadata::{Header, RefBlock, RefTable, Table};
use std::alloc::Global;
use std::marker::Model;

/// The header and the refcount table of an image, which say where its refcounts are. Contracts see the header
/// and the table's entries.
#[derive(Drop)]
pub struct CounterTables<'a> {
    pub header: &'a Header,
    pub reftable: &'a RefTable,
}

impl<'a> Model for CounterTables<'a> {
    ghost use Rattle.std.specs.Prelude.{◌≡◌, None};
    ghost use Rattle.qcow2_metadata.specs.Header.{geometry_of};
    ghost use Rattle.qcow2_check.specs.Counters.{blocks_fault};
    ghost use Rattle.qcow2_apply.specs.CounterTables.{CounterTablesState};

    ghost Value = { CounterTablesState };

    ghost view = { λ t. record { header = t.header.now; reftable = t.reftable.now.numbers } };

    ghost invariant = { λ t. (t.reftable.now.geometry ≡ geometry_of t.header.now)
        × (blocks_fault t.header.now t.reftable.now.numbers ≡ None) };
}

/// Updates the refcounts of a block by what their clusters gained and lost. `index` is that of the block in
/// the refcount table.
pub(crate) fn follow(
    block: &mut RefBlock,
    tables: &CounterTables<'_>,
    index: usize,
    changes: &Changes,
    outcome: &Outcome,
) -> Result<(), Fault>
    requires data { uses_external_data tables.now.header ≡ false }
    requires block { IsBlockOf tables.now block.old }
    requires bits { IsByBlocks tables.now changes.now }
    requires outcome { IsOutcomeOf changes.now index (Some outcome.now) }
    ensures followed { OnOk result
        (BlockFollows tables.now changes.now index block.old.numbers block.new.numbers) }
    ensures fault { IfErr result (λ fault. (fault ≡ CounterRange)
        × BlockIsStuck tables.now changes.now index block.old.numbers) }
    ensures same { block.new
        ≡ record block.old { numbers = block.new.numbers; modified = block.new.modified } }
    ensures modified { (block.new ≡ block.old) ⊎ (block.new.modified ≡ true) }
{
    settle(block, tables.header, index, outcome)
}

// The same, if `changes` has any for the block.
fn follow_if_changed(
    block: &mut RefBlock,
    tables: &CounterTables<'_>,
    index: usize,
    changes: &Changes,
) -> Result<(), Fault>
    requires data { uses_external_data tables.now.header ≡ false }
    requires block { IsBlockOf tables.now block.old }
    requires bits { IsByBlocks tables.now changes.now }
    ensures followed { OnOk result
        (BlockFollows tables.now changes.now index block.old.numbers block.new.numbers) }
    ensures fault { IfErr result (λ fault. (fault ≡ CounterRange)
        × BlockIsStuck tables.now changes.now index block.old.numbers) }
    ensures same { block.new
        ≡ record block.old { numbers = block.new.numbers; modified = block.new.modified } }
{
    match changes.outcome_of(index) {
        Some(outcome) => follow(block, tables, index, changes, outcome),
        None => Ok(()),
    }
}

/// Loads the refcount block at a cluster, and updates its refcounts in memory.
pub(crate) fn load_followed<S: Storage>(
    alloc: Global,
    image: &mut S,
    tables: &CounterTables<'_>,
    place: HostCluster,
    index: usize,
    changes: &Changes,
) -> Result<RefBlock, Fault>
    requires data { uses_external_data tables.now.header ≡ false }
    requires place { place_fault (block_layout (block_geometry_of tables.now.header)) place ≡ None }
    requires bits { IsByBlocks tables.now changes.now }
    ensures followed { IfOk result (λ block. OnImage (S.state image.old) (λ bytes.
        BlockFollows tables.now changes.now index (block_numbers tables.now place bytes) block.numbers)) }
    ensures block { IfOk result (IsBlockOf tables.now) }
    ensures fault { IfErr result (λ fault. IsFromOutside fault ⊎ ((fault ≡ CounterRange)
        × OnImage (S.state image.old) (λ bytes.
        BlockIsStuck tables.now changes.now index (block_numbers tables.now place bytes)))) }
    ensures storage { OnlyReads result (S.state image.old) (S.state image.new) }
{
    let mut block = RefBlock::load(alloc, image, tables.header, place)?;
    follow_if_changed(&mut block, tables, index, changes)?;
    Ok(block)
}

/// The same by gains and then by losses. Returns 30 if a refcount can't hold both so.
pub(crate) fn load_left<S: Storage>(
    alloc: Global,
    image: &mut S,
    tables: &CounterTables<'_>,
    place: HostCluster,
    index: usize,
    gains: &Changes,
    losses: &Changes,
) -> Result<RefBlock, Fault>
    requires data { uses_external_data tables.now.header ≡ false }
    requires place { NamesBlock tables.now index place }
    requires sorted { AreSorted (counters_each tables.now.header) gains.now losses.now }
    ensures left { IfOk result (λ block. OnImage (S.state image.old) (λ bytes. BlockIsLeft tables.now
        gains.now losses.now index (block_numbers tables.now place bytes) block.numbers)) }
    ensures block { IfOk result (IsBlockOf tables.now) }
    ensures fault { IfErr result (λ fault. IsFromOutside fault ⊎ ((fault ≡ CounterRange)
        × OnImage (S.state image.old) (λ bytes.
        (c : ℕ) × CannotCount tables.now gains.now losses.now bytes c))) }
    ensures storage { OnlyReads result (S.state image.old) (S.state image.new) }
{
    prove!(tables.header.refcount_order() <= 6);
    let mut block = load_followed(alloc, image, tables, place, index, gains)?;
    prove!(block.entries() > 0);
    follow_if_changed(&mut block, tables, index, losses)?;
    Ok(block)
}
