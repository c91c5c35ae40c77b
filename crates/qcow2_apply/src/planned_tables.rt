//! The planning of edits, table by table, before anything is written.

ghost use Rattle.std.specs.Prelude.{◌≡◌, ℕ, ◌<◌, ◌&&◌, Err, IfOk, IsOkUnless, None, Ok, OnOk, false, length, not, ◌/◌, Some, slice_index, true};
ghost use Rattle.std.specs.List.{list_any, position};
ghost use Rattle.qcow2_base.specs.Storage.{OnImage, OnlyReads};
ghost use Rattle.qcow2_base.specs.declared.fault.Fault.TheVariants.{NoMemory};
ghost use Rattle.qcow2_metadata.specs.Header.{geometry_of, uses_external_data};
ghost use Rattle.qcow2_metadata.specs.Results.{Answers, unless_refused};
ghost use Rattle.qcow2_metadata.specs.Table.L2Guards.{handed_back};
ghost use Rattle.qcow2_check.specs.Counters.{counters_each, IsKeptBlockOf, IsSameButBlock};
ghost use Rattle.qcow2_check.specs.NamedTables.{IsInImage, named_cluster};
ghost use Rattle.qcow2_check.specs.Uses.{image_tables};
ghost use Rattle.qcow2_apply.specs.Changes.{HasNone};
ghost use Rattle.qcow2_apply.specs.EditsByTable.{IsByTable, positions_in};
ghost use Rattle.qcow2_apply.specs.GuestEdits.{has_clusters_in};
ghost use Rattle.qcow2_apply.specs.NeededTables.{are_more_needed, is_table_needed};
ghost use Rattle.qcow2_apply.specs.PlannedChanges.{StaySorted, AreSorted};
ghost use Rattle.qcow2_apply.specs.PlannedTables.{tables_refusal, AddsTable, AreKnown, IsPlanned, planning_tables, AreSources, alone_fault, mapping_fault, mapping_fault_in, mappings_fault, named_table_refusal, table_refusal, AreReadBy};
ghost use Rattle.qcow2_apply.specs.Tables.{AllFit};

use crate::changes::joined;
use crate::guest_edits::first_in;
use crate::mapped_clusters::MappedClusters;
use crate::needed_tables::{are_more_needed, first_missing};
use crate::planned_changes::PlannedChanges;
use crate::tables::load_outcome;
use crate::{EditsByTable, GuestEdit};
use qcow2_base::{Fault, HostCluster, Storage};
use qcow2_check::{Counters, named_cluster};
use qcow2_metadata::{Header, L1Table, Table};
use std::alloc::Global;

// The inputs of a plan.
#[derive(Drop)]
struct Sources<'a> {
    header: &'a Header,
    l1_table: &'a L1Table,
    edits: &'a [GuestEdit],
    by_table: EditsByTable,
    mapped: MappedClusters,
}

// Refuses an edit that maps a host cluster without a refcount block (fault 23), or one whose refcount isn't 0
// or that another edit maps too (fault 32 with the edit's position).
fn check_mapping<S: Storage>(
    image: &mut S,
    sources: &Sources<'_>,
    counters: &mut Counters<'_>,
    position: usize,
    edit: GuestEdit,
) -> Result<(), Fault>
    requires sources { AreSources sources.now counters.old }
    requires kept { OnImage (S.state image.old) (λ bytes.
        IsKeptBlockOf counters.old.header bytes counters.old.block) }
    ensures exact { OnImage (S.state image.old) (λ bytes. Answers (λ done. done) result (unless_refused
        (mapping_fault (planning_tables sources.now counters.old) sources.now.edits.now bytes position edit)
        (Ok tt))) }
    ensures reader { IsSameButBlock (S.state image.old) counters.old counters.new }
    ensures storage { OnlyReads result (S.state image.old) (S.state image.new) }
{
    let GuestEdit::Map { host_cluster, .. } = edit else {
        return Ok(());
    };
    if !counters.has_block(host_cluster) {
        return Err(Fault::NotPlaced);
    }
    let counter = counters.get(image, host_cluster)?;
    if counter != 0 || !sources.mapped.is_sole(host_cluster) {
        return Err(Fault::BadEdit(position));
    }
    Ok(())
}

// The same for the edit at a position, if it concerns the table of the L1 entry at an index.
fn check_mapping_in<S: Storage>(
    image: &mut S,
    sources: &Sources<'_>,
    counters: &mut Counters<'_>,
    index: u32,
    position: usize,
) -> Result<(), Fault>
    requires sources { AreSources sources.now counters.old }
    requires position { position < length sources.now.edits.now }
    requires kept { OnImage (S.state image.old) (λ bytes.
        IsKeptBlockOf counters.old.header bytes counters.old.block) }
    ensures exact { OnImage (S.state image.old) (λ bytes. Answers (λ done. done) result (unless_refused
        (mapping_fault_in (planning_tables sources.now counters.old) sources.now.edits.now bytes index
        position) (Ok tt))) }
    ensures reader { IsSameButBlock (S.state image.old) counters.old counters.new }
    ensures storage { OnlyReads result (S.state image.old) (S.state image.new) }
{
    let edit = sources.edits[position];
    if !edit.has_clusters_in(sources.header, index) {
        return Ok(());
    }
    check_mapping(image, sources, counters, position, edit)
}

// The same for the edits at all these positions, which are those of the table of the L1 entry at an index.
fn check_mappings<S: Storage>(
    image: &mut S,
    sources: &Sources<'_>,
    counters: &mut Counters<'_>,
    index: u32,
    positions: &[usize],
) -> Result<(), Fault>
    requires sources { AreSources sources.now counters.old }
    requires positions { let cb = sources.now.header.now.v2.cluster_bits in
        positions.now ≡ positions_in cb index sources.now.edits.now }
    requires kept { OnImage (S.state image.old) (λ bytes.
        IsKeptBlockOf counters.old.header bytes counters.old.block) }
    ensures exact { OnImage (S.state image.old) (λ bytes. Answers (λ done. done) result (unless_refused
        (mappings_fault (planning_tables sources.now counters.old) sources.now.edits.now bytes index)
        (Ok tt))) }
    ensures reader { IsSameButBlock (S.state image.old) counters.old counters.new }
    ensures storage { OnlyReads result (S.state image.old) (S.state image.new) }
{
    for position in positions {
        check_mapping_in(image, sources, counters, index, *position)?;
    }
    Ok(())
}

// Refuses edits of a table that may have other references: its refcount isn't 1, or its L1 entry has no
// copied flag (fault 40 with the position of its first edit).
fn check_alone<S: Storage>(
    image: &mut S,
    sources: &Sources<'_>,
    counters: &mut Counters<'_>,
    index: u32,
    table: HostCluster,
) -> Result<(), Fault>
    requires sources { AreSources sources.now counters.old }
    requires kept { OnImage (S.state image.old) (λ bytes.
        IsKeptBlockOf counters.old.header bytes counters.old.block) }
    ensures exact { OnImage (S.state image.old) (λ bytes. Answers (λ done. done) result (unless_refused
        (alone_fault (planning_tables sources.now counters.old) sources.now.edits.now bytes index table)
        (Ok tt))) }
    ensures reader { IsSameButBlock (S.state image.old) counters.old counters.new }
    ensures storage { OnlyReads result (S.state image.old) (S.state image.new) }
{
    let is_sole = counters.get(image, table)? == 1;
    if is_sole && sources.l1_table.get(index as usize).is_copied() {
        return Ok(());
    }
    match first_in(sources.edits, sources.header, index) {
        Some(position) => Err(Fault::Shared(position)),
        None => Ok(()),
    }
}

// Adds the effect of the edits of the table that an L1 entry names. Refuses them if the table may have other
// references, doesn't load, or gets a mapping that `check_mappings` refuses.
fn plan_named_table<S: Storage>(
    image: &mut S,
    sources: &Sources<'_>,
    counters: &mut Counters<'_>,
    planned: &mut PlannedChanges,
    index: u32,
    table: HostCluster,
    positions: &[usize],
) -> Result<(), Fault>
    requires sources { AreSources sources.now counters.old }
    requires positions { let cb = sources.now.header.now.v2.cluster_bits in
        positions.now ≡ positions_in cb index sources.now.edits.now }
    requires table { named_cluster sources.now.header.now.v2.cluster_bits
        (slice_index sources.now.l1_table.now.numbers index) ≡ Some table }
    requires place { IsInImage sources.now.header.now.v2.cluster_bits table }
    requires kept { OnImage (S.state image.old) (λ bytes.
        IsKeptBlockOf counters.old.header bytes counters.old.block) }
    ensures exact { OnImage (S.state image.old) (λ bytes. Answers (λ done. done) result (unless_refused
        (named_table_refusal (planning_tables sources.now counters.old) sources.now.edits.now bytes index
        table) (Ok tt))) }
    ensures planned { OnOk result (OnImage (S.state image.old) (λ bytes. AddsTable
        (planning_tables sources.now counters.old) sources.now.edits.now bytes index planned.old
        planned.new)) }
    ensures sorted { OnOk result (StaySorted planned.old planned.new) }
    ensures reader { IsSameButBlock (S.state image.old) counters.old counters.new }
    ensures storage { OnlyReads result (S.state image.old) (S.state image.new) }
{
    let alloc = sources.l1_table.allocator();
    check_alone(image, sources, counters, index, table)?;
    let outcome = load_outcome(
        alloc,
        image,
        sources.header,
        table,
        index as usize,
        sources.edits,
        positions,
    )?;
    check_mappings(image, sources, counters, index, positions)?;
    let outcome = joined(alloc, outcome)?;
    planned.add(alloc, counters, &outcome)
}

// Adds the effect of the edits of the table of the L1 entry at an index. If the entry names none, only
// discards concern it, and it adds nothing.
fn plan_table<S: Storage>(
    image: &mut S,
    sources: &Sources<'_>,
    counters: &mut Counters<'_>,
    planned: &mut PlannedChanges,
    index: u32,
) -> Result<(), Fault>
    requires sources { AreSources sources.now counters.old }
    requires there { let cb = sources.now.header.now.v2.cluster_bits in
        named_cluster cb (slice_index sources.now.l1_table.now.numbers index) ≡ None →
        is_table_needed cb sources.now.edits.now index ≡ false }
    requires kept { OnImage (S.state image.old) (λ bytes.
        IsKeptBlockOf counters.old.header bytes counters.old.block) }
    ensures exact { OnImage (S.state image.old) (λ bytes. Answers (λ done. done) result (unless_refused
        (table_refusal (planning_tables sources.now counters.old) sources.now.edits.now bytes index)
        (Ok tt))) }
    ensures planned { OnOk result (OnImage (S.state image.old) (λ bytes. AddsTable
        (planning_tables sources.now counters.old) sources.now.edits.now bytes index planned.old
        planned.new)) }
    ensures sorted { OnOk result (StaySorted planned.old planned.new) }
    ensures reader { IsSameButBlock (S.state image.old) counters.old counters.new }
    ensures storage { OnlyReads result (S.state image.old) (S.state image.new) }
{
    let Some(table) = named_cluster(sources.l1_table, index as usize) else {
        return Ok(());
    };
    let positions = sources.by_table.positions_in(index as usize);
    if positions.is_empty() {
        return Ok(());
    }
    plan_named_table(image, sources, counters, planned, index, table, positions)
}

// Adds the effect of the edits of all tables, and refuses edits that need a missing table (fault 23).
fn plan_tables<S: Storage>(
    image: &mut S,
    sources: &Sources<'_>,
    counters: &mut Counters<'_>,
    planned: &mut PlannedChanges,
) -> Result<(), Fault>
    requires sources { AreSources sources.now counters.old }
    requires none { HasNone planned.old.gains × HasNone planned.old.losses
        × (planned.old.are_counted ≡ true) }
    requires kept { OnImage (S.state image.old) (λ bytes.
        IsKeptBlockOf counters.old.header bytes counters.old.block) }
    ensures exact { OnImage (S.state image.old) (λ bytes. Answers (λ done. done) result (unless_refused
        (tables_refusal (planning_tables sources.now counters.old) sources.now.edits.now bytes) (Ok tt))) }
    ensures planned { OnOk result (OnImage (S.state image.old) (λ bytes. IsPlanned
        (planning_tables sources.now counters.old) sources.now.edits.now bytes
        sources.now.header.now.v2.l1_size planned.new)) }
    ensures sorted { OnOk result (StaySorted planned.old planned.new) }
    ensures reader { IsSameButBlock (S.state image.old) counters.old counters.new }
    ensures storage { OnlyReads result (S.state image.old) (S.state image.new) }
{
    let header = sources.header;
    let entries = header.l1_table_entries();
    let end = first_missing(header, sources.l1_table, sources.edits);
    for index in 0..end as u32 {
        plan_table(image, sources, counters, planned, index)?;
    }
    if end < entries {
        return Err(Fault::NotPlaced);
    }
    if are_more_needed(sources.edits, header) {
        return Err(Fault::NotPlaced);
    }
    Ok(())
}

/// Plans edits that fit the disk, by the tables of an image. Refuses them if a table can't have them.
pub(crate) fn plan_by_tables<S: Storage>(
    image: &mut S,
    header: &Header,
    l1_table: &L1Table,
    counters: &mut Counters<'_>,
    edits: &[GuestEdit],
) -> Result<(EditsByTable, PlannedChanges), Fault>
    requires tables { AreReadBy header.now l1_table.now counters.old }
    requires data { uses_external_data header.now ≡ false }
    requires fit { AllFit header.now edits.now }
    requires kept { OnImage (S.state image.old) (λ bytes.
        IsKeptBlockOf counters.old.header bytes counters.old.block) }
    ensures exact { OnImage (S.state image.old) (λ bytes. Answers (λ planned. tt {0}) result (unless_refused
        (tables_refusal (image_tables header.now l1_table.now.numbers counters.old.reftable) edits.now bytes)
        (Ok tt))) }
    ensures planned { IfOk result (λ planned. OnImage (S.state image.old) (λ bytes. IsPlanned
        (image_tables header.now l1_table.now.numbers counters.old.reftable) edits.now bytes
        header.now.v2.l1_size planned.1)) }
    ensures known { IfOk result (λ planned.
        AreKnown header.now l1_table.now.numbers edits.now planned.0 planned.1) }
    ensures reader { IsSameButBlock (S.state image.old) counters.old counters.new }
    ensures storage { OnlyReads result (S.state image.old) (S.state image.new) }
{
    let alloc = l1_table.allocator();
    let sources = Sources {
        header,
        l1_table,
        edits,
        by_table: EditsByTable::of(alloc, header, l1_table, edits)?,
        mapped: MappedClusters::of(alloc, edits)?,
    };
    let mut planned = PlannedChanges::new(alloc, header);
    plan_tables(image, &sources, counters, &mut planned)?;
    Ok((sources.by_table, planned))
}
