//! The walk over all references of an image: those to its tables, and those in the tables.

ghost use Rattle.std.specs.Prelude.{◌≡◌, ℕ, ◌+◌, ◌<◌, ◌≤◌, [], ◌∷◌, IsOkUnless, OnOk, length, slice_index};
ghost use Rattle.qcow2_base.specs.Format.{most_l1_entries, most_reftable_entries};
ghost use Rattle.qcow2_base.specs.declared.fault.Fault.TheVariants.{NoMemory};
ghost use Rattle.qcow2_metadata.specs.Header.{geometry_of};
ghost use Rattle.qcow2_metadata.specs.Placed.{numbers_at};
ghost use Rattle.qcow2_metadata.specs.Results.{Reads, result_map};
ghost use Rattle.qcow2_metadata.specs.Table.{IsEntryFault, l2_layout, loaded_l2_table};
ghost use Rattle.qcow2_check.specs.NamedTables.{IsInImage};
ghost use Rattle.qcow2_check.specs.Repeats.{AreTimesOf, table_names};
ghost use Rattle.qcow2_check.specs.Uses.{all_load, l1_entry_loads};
ghost use Rattle.qcow2_check.specs.Walk.{IsOwned, Took, block_list, entries_list, guest_list, header_list, l1_list, list_from, table_list, tables_list, unrepeated_list, use_list};

use crate::image_tables::ImageTables;
use crate::named_tables::{load_l2_table, named_block, named_cluster};
use crate::repeats::Repeats;
use crate::use_sink::UseSink;
use crate::uses::{Use, UseKind};
use qcow2_base::{ClusterCount, Fault, HostCluster, Storage};
use qcow2_metadata::{Header, L1Table, RefTable, Table};

/// Takes the references of a header: to its own cluster, the L1 table, the refcount table, and the encryption
/// header, which has no clusters if there is none.
pub fn walk_header<U: UseSink>(header: &Header, sink: &mut U) -> Result<(), Fault>
    ensures fault { IsOkUnless result NoMemory }
    ensures taken { OnOk result (U.takes (header_list header.now) sink.old sink.new) }
{
    let cluster_bits = header.cluster_bits();
    let l1_clusters = ClusterCount::from_byte_size(
        8 * header.l1_table_entries() as u64,
        cluster_bits,
    );
    let l1_cluster = header.l1_table_offset().cluster(cluster_bits);
    let reftable_cluster = header.reftable_offset().cluster(cluster_bits);
    let reftable_clusters = header.reftable_clusters();
    let no_clusters = (HostCluster(0), ClusterCount(0));
    let (first, count) = header.encryption_clusters().unwrap_or(no_clusters);
    sink.take(Use::new(UseKind::Header, HostCluster(0), 1, 0))?;
    sink.take(Use::new(UseKind::L1Table, l1_cluster, l1_clusters.0, 0))?;
    sink.take(Use::new(
        UseKind::RefcountTable,
        reftable_cluster,
        reftable_clusters.0,
        0,
    ))?;
    sink.take(Use::new(UseKind::EncryptionHeader, first, count.0, 0))
}

// Takes the refcount block that a refcount table entry names.
#[inline]
fn take_block<U: UseSink>(reftable: &RefTable, index: usize, sink: &mut U) -> Result<(), Fault>
    requires { index < most_reftable_entries }
    ensures fault { IsOkUnless result NoMemory }
    ensures taken { OnOk result (U.takes (block_list reftable.now.geometry.cluster_bits index
        (slice_index reftable.now.numbers index)) sink.old sink.new) }
{
    match named_block(reftable, index) {
        Some(cluster) => sink.take(Use::new(UseKind::RefcountBlock, cluster, 1, index as u64)),
        None => Ok(()),
    }
}

/// Takes the refcount blocks that a refcount table names.
pub fn walk_blocks<U: UseSink>(reftable: &RefTable, sink: &mut U) -> Result<(), Fault>
    requires { length reftable.now.numbers ≤ most_reftable_entries }
    ensures fault { IsOkUnless result NoMemory }
    ensures taken { OnOk result (U.takes
        (list_from (block_list reftable.now.geometry.cluster_bits) 0 reftable.now.numbers)
        sink.old sink.new) }
{
    for index in 0..reftable.entries() {
        take_block(reftable, index, sink)?;
    }
    Ok(())
}

// Takes the L2 table that an L1 entry names.
#[inline]
fn take_l2_table<U: UseSink>(l1_table: &L1Table, index: usize, sink: &mut U) -> Result<(), Fault>
    requires { index < most_l1_entries }
    ensures fault { IsOkUnless result NoMemory }
    ensures taken { OnOk result (U.takes (table_list l1_table.now.geometry.cluster_bits index
        (slice_index l1_table.now.numbers index)) sink.old sink.new) }
{
    match named_cluster(l1_table, index) {
        Some(cluster) => sink.take(Use::new(UseKind::L2Table, cluster, 1, index as u64)),
        None => Ok(()),
    }
}

/// Takes the L2 tables that an L1 table names, but not what their entries refer to.
pub fn walk_l2_tables<U: UseSink>(l1_table: &L1Table, sink: &mut U) -> Result<(), Fault>
    requires { length l1_table.now.numbers ≤ most_l1_entries }
    ensures fault { IsOkUnless result NoMemory }
    ensures taken { OnOk result (U.takes
        (list_from (table_list l1_table.now.geometry.cluster_bits) 0 l1_table.now.numbers)
        sink.old sink.new) }
{
    for index in 0..l1_table.entries() {
        take_l2_table(l1_table, index, sink)?;
    }
    Ok(())
}

/// Takes the references to the tables themselves, by `walk_header`, `walk_blocks` and `walk_l2_tables`. Reads
/// nothing of the image, and fails only if memory runs out.
pub fn walk_tables<U: UseSink>(tables: &ImageTables<'_>, sink: &mut U) -> Result<(), Fault>
    ensures fault { IsOkUnless result NoMemory }
    ensures taken { OnOk result (U.takes (tables_list tables.now) sink.old sink.new) }
{
    walk_header(tables.header, sink)?;
    walk_blocks(tables.reftable, sink)?;
    walk_l2_tables(tables.l1_table, sink)
}

// Loads the L2 table at a cluster, and takes the references of its entries.
fn walk_table<S: Storage, U: UseSink>(
    tables: &ImageTables<'_>,
    image: &mut S,
    sink: &mut U,
    cluster: HostCluster,
    index: usize,
) -> Result<(), Fault>
    requires cluster { IsInImage tables.now.header.v2.cluster_bits cluster }
    requires index { index < most_l1_entries }
    ensures reads { Reads (λ done. done) result
        (λ bytes. result_map (λ _. tt) (loaded_l2_table (geometry_of tables.now.header) cluster bytes))
        IsEntryFault (S.state image.old) (S.state image.new) }
    ensures taken { let g = geometry_of tables.now.header in
        OnOk result (Took U.takes (S.state image.old)
        (λ bytes. entries_list g index (numbers_at (l2_layout g) cluster bytes)) sink.old sink.new) }
{
    let alloc = tables.l1_table.allocator();
    let table = load_l2_table(alloc, image, tables.header, cluster)?;
    sink.take_table(&table, index)
}

// Takes the references of the L2 table that an L1 entry names.
fn walk_l1_entry<S: Storage, U: UseSink>(
    tables: &ImageTables<'_>,
    image: &mut S,
    sink: &mut U,
    index: usize,
) -> Result<(), Fault>
    requires { index < most_l1_entries }
    ensures reads { Reads (λ done. done) result
        (λ bytes. l1_entry_loads (geometry_of tables.now.header) bytes (slice_index tables.now.l1 index))
        IsEntryFault (S.state image.old) (S.state image.new) }
    ensures taken { OnOk result (Took U.takes (S.state image.old)
        (λ bytes. l1_list (geometry_of tables.now.header) bytes index (slice_index tables.now.l1 index))
        sink.old sink.new) }
{
    match named_cluster(tables.l1_table, index) {
        Some(cluster) => walk_table(tables, image, sink, cluster, index),
        None => Ok(()),
    }
}

/// Takes the references of all L2 entries, in the order of the guest's disk.
///
/// Fails with the fault of an L2 table that doesn't load, or if memory runs out. Changes no byte.
pub fn walk_guest<S: Storage, U: UseSink>(
    tables: &ImageTables<'_>,
    image: &mut S,
    sink: &mut U,
) -> Result<(), Fault>
    ensures reads { Reads (λ done. done) result (all_load (geometry_of tables.now.header) tables.now.l1)
        IsEntryFault (S.state image.old) (S.state image.new) }
    ensures taken { OnOk result (Took U.takes (S.state image.old) (guest_list tables.now)
        sink.old sink.new) }
{
    for index in 0..tables.l1_table.entries() {
        walk_l1_entry(tables, image, sink, index)?;
    }
    Ok(())
}

/// Takes the references of all L2 entries as `walk_guest` does, but leaves out L2 tables that an earlier L1
/// entry names too, so that each table is read once. `repeats` must be those of the L1 table.
///
/// Fails with the fault of an L2 table that doesn't load, or if memory runs out. Changes no byte.
pub fn walk_guest_once<S: Storage, U: UseSink>(
    tables: &ImageTables<'_>,
    repeats: &Repeats,
    image: &mut S,
    sink: &mut U,
) -> Result<(), Fault>
    requires { AreTimesOf (table_names tables.now.l1) repeats.now }
    ensures reads { Reads (λ done. done) result (all_load (geometry_of tables.now.header) tables.now.l1)
        IsEntryFault (S.state image.old) (S.state image.new) }
    ensures taken { OnOk result (Took U.takes (S.state image.old)
        (unrepeated_list tables.now repeats.now) sink.old sink.new) }
{
    for index in 0..tables.l1_table.entries() {
        if repeats.times(index) > 0 {
            walk_l1_entry(tables, image, sink, index)?;
        }
    }
    Ok(())
}

/// Takes all references of an image: those of `walk_tables`, and then those of `walk_guest`. Fails as
/// `walk_guest` does.
pub fn walk_uses<S: Storage, U: UseSink>(
    tables: &ImageTables<'_>,
    image: &mut S,
    sink: &mut U,
) -> Result<(), Fault>
    ensures reads { Reads (λ done. done) result (all_load (geometry_of tables.now.header) tables.now.l1)
        IsEntryFault (S.state image.old) (S.state image.new) }
    ensures taken { OnOk result (Took U.takes (S.state image.old) (use_list tables.now) sink.old sink.new) }
{
    walk_tables(tables, sink)?;
    walk_guest(tables, image, sink)
}
