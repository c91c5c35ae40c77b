//! A tally as a sink of the walk: it counts the references that it takes.

ghost use Rattle.std.specs.Prelude.{◌≡◌, ℕ, ◌+◌, ◌-◌, ◌*◌, ◌^◌, ◌<◌, ◌≤◌, [], ◌∷◌, false, is_some, IfSome, IsOkUnless, IsTrue, None, Some, OnOk, flat_map, length, slice_index};
ghost use Rattle.std.proofs.Common.{arith};
ghost use Rattle.std.proofs.lemmas.Grind.{fold-append};
ghost use Rattle.std.proofs.lemmas.List.{map-append};
ghost use Rattle.qcow2_base.specs.Format.{most_l1_entries};
ghost use Rattle.qcow2_base.specs.Storage.{OnImage};
ghost use Rattle.qcow2_base.specs.declared.fault.Fault.TheVariants.{NoMemory};
ghost use Rattle.qcow2_metadata.specs.Entries.L2Entry.{allocation, l2_fault};
ghost use Rattle.qcow2_base.specs.Types.{IsClusterBits};
ghost use Rattle.qcow2_metadata.specs.Header.{geometry, geometry_of};
ghost use Rattle.qcow2_metadata.specs.Results.{Reads};
ghost use Rattle.qcow2_metadata.specs.Table.{IsEntryFault};
ghost use Rattle.qcow2_check.specs.Flags.{KeepsMarks};
ghost use Rattle.qcow2_check.specs.NamedTables.{IsInImage, named_cluster};
ghost use Rattle.qcow2_check.specs.Repeats.{AreTimesOf, table_names};
ghost use Rattle.qcow2_check.specs.Tally.{CountsGroup, CountsMore, CountsTimes, repetition, used_clusters};
ghost use Rattle.qcow2_check.specs.Uses.{all_load, entry_uses, image_uses, l1_entry_loads};
ghost use Rattle.qcow2_check.specs.Walk.{CountsUses, Took, l1_list, repeated_list, tally_kind};

use crate::flags::Marks;
use crate::groups::{TOGETHER, are_unallocated, entry_at, row_at, starts_group};
use crate::image_tables::ImageTables;
use crate::named_tables::{load_l2_table, named_cluster};
use crate::repeats::Repeats;
use crate::tally::{Tally, TallyKind};
use crate::use_sink::UseSink;
use crate::uses::{Use, UseKind};
use crate::walk::walk_tables;
use qcow2_base::{Fault, HostCluster, Storage, field};
use qcow2_metadata::{L2Entry, L2Table, Table, TableEntry};

// Counts `times` references to each of `count` clusters from `first` on.
#[tactic(auto, using(crate::proofs::TallyLemmas::counts_next))]
fn count_clusters(
    tally: &mut Tally,
    kind: TallyKind,
    first: HostCluster,
    count: u64,
    times: u32,
) -> Result<(), Fault>
    ensures fault { IsOkUnless result NoMemory }
    ensures counted { OnOk result (CountsTimes times (used_clusters kind first count)
        tally.old tally.new) }
{
    let start = first.0.max(tally.first());
    let end = first.0.saturating_add(count).min(tally.end());
    for cluster in start..end.max(start) {
        tally.add(cluster, kind, times)?;
    }
    Ok(())
}

// Counts `times` references to the clusters that an L2 entry refers to.
#[inline(never)]
#[tactic(auto, using(crate::proofs::UsesLemmas::entry_counts, crate::proofs::UsesLemmas::no_entry_counts))]
fn count_entry(
    tally: &mut Tally,
    entry: L2Entry,
    cluster_bits: u32,
    times: u32,
) -> Result<(), Fault>
    requires { IsClusterBits cluster_bits }
    ensures fault { IsOkUnless result NoMemory }
    ensures counted { OnOk result (CountsMore
        (repetition times (entry_uses (geometry cluster_bits false) entry)) tally.old tally.new) }
{
    match entry.allocation(cluster_bits, false) {
        Some((first, count)) => count_clusters(tally, TallyKind::Guest, first, count.0, times),
        None => Ok(()),
    }
}

/// Whether an L2 entry refers to a cluster. Has no branch, since the processor couldn't predict it.
#[inline(always)]
pub fn refers(entry: L2Entry) -> bool
    ensures { (cb : ℕ) → result ≡ is_some (allocation (geometry cb false) entry) }
{
    entry.is_compressed() | (field(entry.to_plain(), 9, 47) != 0)
}

/// The first and the last cluster that an L2 entry refers to, if it refers to any. Has no branch either.
#[inline(always)]
#[tactic(auto, using(crate::proofs::UsesLemmas::compressed_ends, crate::proofs::UsesLemmas::standard_ends))]
pub fn cluster_bounds(entry: L2Entry, cluster_bits: u32) -> (u64, u64)
    requires bits { IsClusterBits cluster_bits }
    requires valid { l2_fault cluster_bits entry ≡ None }
    ensures { IfSome (allocation (geometry cluster_bits false) entry) (λ clusters.
        (clusters.first.0 ≡ result.0) × (clusters.count.0 ≡ result.1 - result.0 + 1)) }
{
    let number = entry.to_plain();
    let offset_bits = 70 - cluster_bits;
    let standard = field(number, 9, 47);
    let compressed = field(number, 9, offset_bits - 9);
    let more = field(number, offset_bits, cluster_bits - 8);
    // In sectors of 512 bytes.
    let (first, last) = if entry.is_compressed() {
        (compressed, compressed + more)
    } else {
        (standard, standard)
    };
    (first >> (cluster_bits - 9), last >> (cluster_bits - 9))
}

// Counts the reference of an L2 entry to a single cluster. Returns false and changes nothing if the entry
// refers to several, or if `try_add_if` can't count it.
#[inline(always)]
fn count_single(tally: &mut Tally, entry: L2Entry, cluster_bits: u32) -> bool
    requires bits { IsClusterBits cluster_bits }
    requires valid { l2_fault cluster_bits entry ≡ None }
    ensures counted { IsTrue result → CountsMore (entry_uses (geometry cluster_bits false) entry)
        tally.old tally.new }
    ensures same { result ≡ false → tally.new ≡ tally.old }
{
    let (first, last) = cluster_bounds(entry, cluster_bits);
    if first != last {
        return false;
    }
    tally.try_add_if(first, TallyKind::Guest, refers(entry))
}

// Counts the clusters that the `TOGETHER` entries from an index on refer to, if they are all 0 or a row.
// Returns false and changes nothing if they aren't, or if `Tally::add_group` can't count them.
#[inline(always)]
fn count_group(tally: &mut Tally, table: &L2Table, index: usize) -> bool
    requires group { index + 16 ≤ length table.now.numbers }
    requires inside { table.now.geometry.external_data_file ≡ false }
    ensures counted { IsTrue result → CountsGroup (entry_uses table.now.geometry) table.now.numbers index
        tally.old tally.new }
    ensures same { result ≡ false → tally.new ≡ tally.old }
{
    if are_unallocated(table, index) {
        return true;
    }
    prove!(table.cluster_bits() > 0);
    match row_at(table, index) {
        Some(start) => tally.add_group(start.0),
        None => false,
    }
}

// Counts the clusters that the entries of an L2 table refer to.
#[tactic(auto, using(crate::proofs::TallyLemmas::once_counts, crate::proofs::UsesLemmas::counts_entry))]
fn count_entries(tally: &mut Tally, table: &L2Table) -> Result<(), Fault>
    ensures fault { IsOkUnless result NoMemory }
    ensures counted { OnOk result (CountsMore (flat_map (entry_uses table.now.geometry) table.now.numbers)
        tally.old tally.new) }
{
    if table.external_data_file() {
        return Ok(());
    }
    let (cluster_bits, entries) = (table.cluster_bits(), table.entries());
    let mut index = 0;
    while index < entries {
        if starts_group(table, index) && count_group(tally, table, index) {
            index += TOGETHER;
        } else {
            let entry = entry_at(table, index);
            if !count_single(tally, entry, cluster_bits) {
                count_entry(tally, entry, cluster_bits, 1)?;
            }
            index += 1;
        }
    }
    Ok(())
}

// Counts `times` references to the clusters that each entry of an L2 table refers to.
#[tactic(auto, using(crate::proofs::UsesLemmas::counts_entry))]
fn count_repeated(tally: &mut Tally, table: &L2Table, times: u32) -> Result<(), Fault>
    ensures fault { IsOkUnless result NoMemory }
    ensures counted { OnOk result (CountsMore
        (repetition times (flat_map (entry_uses table.now.geometry) table.now.numbers)) tally.old tally.new) }
{
    if table.external_data_file() {
        return Ok(());
    }
    for index in 0..table.entries() {
        count_entry(tally, entry_at(table, index), table.cluster_bits(), times)?;
    }
    Ok(())
}

impl UseKind {
    // The kind that a tally counts such a reference as.
    #[inline(always)]
    fn tally_kind(self) -> TallyKind
        ensures { result ≡ tally_kind self }
    {
        match self {
            UseKind::L2Table => TallyKind::L2Table,
            UseKind::Data => TallyKind::Guest,
            UseKind::Compressed => TallyKind::Guest,
            UseKind::Header => TallyKind::Fixed,
            UseKind::L1Table => TallyKind::Fixed,
            UseKind::RefcountTable => TallyKind::Fixed,
            UseKind::EncryptionHeader => TallyKind::Fixed,
            UseKind::RefcountBlock => TallyKind::Fixed,
        }
    }
}

impl UseSink for Tally {
    ghost takes = { CountsUses };

    fn take(&mut self, used: Use) -> Result<(), Fault> {
        let (kind, clusters) = (used.kind.tally_kind(), used.clusters);
        count_clusters(self, kind, clusters.first, clusters.count.0, 1)
    }

    #[tactic(auto, using(crate::proofs::CountingLemmas::counted_entries))]
    fn take_table(&mut self, table: &L2Table, l1_index: usize) -> Result<(), Fault> {
        count_entries(self, table)
    }

    ghost takes_none = { λ s. Prim.grind arith };

    ghost takes_both = { λ first second a b c one other.
        Prim.grind (arith, one, other, map-append, fold-append) };
}

/// The most references that one cluster of an image can have: one from each L1 entry that names an L2 table,
/// one from each entry of these tables, one from each refcount table entry, and four from the header.
pub(crate) fn most_uses(tables: &ImageTables<'_>) -> u64 {
    let l1_table = tables.l1_table;
    let mut named = 0u64;
    for index in 0..l1_table.entries() {
        named = named.saturating_add(u64::from(named_cluster(l1_table, index).is_some()));
    }
    let each = tables.header.l2_entries() as u64;
    let entries = named.saturating_mul(each.saturating_add(1));
    entries
        .saturating_add(tables.reftable.entries() as u64)
        .saturating_add(4)
}

// Counts the references of an L2 table `times` times.
fn count_times(tally: &mut Tally, table: &L2Table, times: u32) -> Result<(), Fault>
    ensures fault { IsOkUnless result NoMemory }
    ensures counted { OnOk result (CountsMore
        (repetition times (flat_map (entry_uses table.now.geometry) table.now.numbers)) tally.old tally.new) }
{
    match times {
        1 => count_entries(tally, table),
        _ => count_repeated(tally, table, times),
    }
}

// Counts the references of the L2 table at a cluster, which the L1 entry at an index names, `times` times,
// and notes the flags of both.
fn count_table<S: Storage>(
    tally: &mut Tally,
    marks: &mut Marks,
    image: &mut S,
    tables: &ImageTables<'_>,
    index: usize,
    cluster: HostCluster,
    times: u32,
) -> Result<(), Fault>
    requires cluster { IsInImage tables.now.header.v2.cluster_bits cluster }
    requires named { named_cluster tables.now.header.v2.cluster_bits (slice_index tables.now.l1 index)
        ≡ Some cluster }
    requires index { index < most_l1_entries }
    ensures reads { Reads (λ done. done) result
        (λ bytes. l1_entry_loads (geometry_of tables.now.header) bytes (slice_index tables.now.l1 index))
        IsEntryFault (S.state image.old) (S.state image.new) }
    ensures taken { OnOk result (Took CountsUses (S.state image.old) (λ bytes. repetition times
        (l1_list (geometry_of tables.now.header) bytes index (slice_index tables.now.l1 index)))
        tally.old tally.new) }
    ensures marks { KeepsMarks tables.now (S.state image.old) marks.old marks.new }
{
    let alloc = tables.l1_table.allocator();
    let table = load_l2_table(alloc, image, tables.header, cluster)?;
    count_times(tally, &table, times)?;
    marks.pass_table(tables.l1_table, index, cluster, &table);
    Ok(())
}

// Counts the references of the L2 table that an L1 entry names `times` times, and notes the flags of both.
fn count_l1_entry<S: Storage>(
    tally: &mut Tally,
    marks: &mut Marks,
    image: &mut S,
    tables: &ImageTables<'_>,
    index: usize,
    times: u32,
) -> Result<(), Fault>
    requires { index < most_l1_entries }
    ensures reads { Reads (λ done. done) result
        (λ bytes. l1_entry_loads (geometry_of tables.now.header) bytes (slice_index tables.now.l1 index))
        IsEntryFault (S.state image.old) (S.state image.new) }
    ensures taken { OnOk result (Took CountsUses (S.state image.old) (λ bytes. repetition times
        (l1_list (geometry_of tables.now.header) bytes index (slice_index tables.now.l1 index)))
        tally.old tally.new) }
    ensures marks { KeepsMarks tables.now (S.state image.old) marks.old marks.new }
{
    match named_cluster(tables.l1_table, index) {
        Some(cluster) => count_table(tally, marks, image, tables, index, cluster, times),
        None => {
            marks.pass_unnamed(index);
            Ok(())
        }
    }
}

// Counts the references of all L2 entries, and notes the flags. Reads each table once, at the first L1 entry
// that names it.
fn count_guest<S: Storage>(
    tally: &mut Tally,
    marks: &mut Marks,
    image: &mut S,
    tables: &ImageTables<'_>,
    repeats: &Repeats,
) -> Result<(), Fault>
    requires { AreTimesOf (table_names tables.now.l1) repeats.now }
    ensures reads { Reads (λ done. done) result (all_load (geometry_of tables.now.header) tables.now.l1)
        IsEntryFault (S.state image.old) (S.state image.new) }
    ensures taken { OnOk result (Took CountsUses (S.state image.old)
        (repeated_list tables.now repeats.now) tally.old tally.new) }
    ensures marks { KeepsMarks tables.now (S.state image.old) marks.old marks.new }
{
    for index in 0..tables.l1_table.entries() {
        let times = repeats.times(index);
        if times > 0 || named_cluster(tables.l1_table, index).is_none() {
            count_l1_entry(tally, marks, image, tables, index, times)?;
        }
    }
    Ok(())
}

/// Counts all references of an image to clusters, and notes which of the first L1 entries and their L2 tables
/// have no wrong flag. `repeats` must be those of the L1 table.
pub(crate) fn count_image<S: Storage>(
    tally: &mut Tally,
    marks: &mut Marks,
    image: &mut S,
    tables: &ImageTables<'_>,
    repeats: &Repeats,
) -> Result<(), Fault>
    requires { AreTimesOf (table_names tables.now.l1) repeats.now }
    ensures reads { Reads (λ done. done) result (all_load (geometry_of tables.now.header) tables.now.l1)
        IsEntryFault (S.state image.old) (S.state image.new) }
    ensures counted { OnOk result (OnImage (S.state image.old) (λ bytes.
        CountsMore (image_uses tables.now bytes) tally.old tally.new)) }
    ensures first { OnOk result (tally.new.first ≡ tally.old.first) }
    ensures marks { KeepsMarks tables.now (S.state image.old) marks.old marks.new }
{
    walk_tables(tables, tally)?;
    count_guest(tally, marks, image, tables, repeats)
}
