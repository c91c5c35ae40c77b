//! The edits of L2 tables in an image.

ghost use Rattle.std.specs.Prelude.{◌≡◌, ◌⊎◌, ◌<◌, ◌^◌, Err, IfErr, IfOk, MatchResult, Ok, OnOk, length};
ghost use Rattle.qcow2_base.specs.declared.fault.Fault.TheVariants.{Storage};
ghost use Rattle.qcow2_base.specs.Storage.{OnImage, OnImages, OnlyReads, OnlyWrites};
ghost use Rattle.qcow2_edits.specs.Edits.{table_edit};
ghost use Rattle.qcow2_metadata.specs.Header.{geometry_of};
ghost use Rattle.qcow2_metadata.specs.Placed.{numbers_at, offset_of};
ghost use Rattle.qcow2_metadata.specs.Results.{IsFromOutside};
ghost use Rattle.qcow2_metadata.specs.Table.{IsContentFault, l2_layout, loaded_l2_table};
ghost use Rattle.qcow2_check.specs.NamedTables.{IsInImage};
ghost use Rattle.qcow2_check.specs.Failures.{ReportsFailures, TearsAtMost};
ghost use Rattle.qcow2_apply.specs.EditsByTable.{IsByTable, positions_in};
ghost use Rattle.qcow2_apply.specs.GuestEdits.{edits_in};
ghost use Rattle.qcow2_apply.specs.Passes.{ArePlacesApart, KeepsOutside, PassBreaksOff, Passes, StepsAt, TearsOne};
ghost use Rattle.qcow2_apply.specs.Tables.{AllFit, AreMade, ComesToOutcome, EditsTable, IsEdited, IsHeldTable, IsLeftBy, IsRereadFault, IsL2TableOf, LoadAll, LoadsAt, MakesRun, l2_tables};

use crate::edits_by_table::EditsByTable;
use crate::guest_edits::{GuestEdit, edits_at};
use qcow2_base::{Device, Fault, HostCluster, Storage};
use qcow2_check::{load_l2_table, named_cluster};
use qcow2_edits::{Edit, Outcome, edit_table};
use qcow2_metadata::{Header, L1Table, L2Table, Table};
use std::alloc::Global;

// Loads the L2 table at a cluster, and makes edits that fit it. Doesn't write the table.
fn load_edited<S: Storage>(
    alloc: Global,
    image: &mut S,
    header: &Header,
    cluster: HostCluster,
    edits: &[Edit],
) -> Result<(L2Table, Outcome), Fault>
    requires place { IsInImage header.now.v2.cluster_bits cluster }
    requires fit { AreMade header.now edits.now }
    ensures edited { IfOk result (λ done. OnImage (S.state image.old) (λ bytes.
        let numbers = numbers_at (l2_layout (geometry_of header.now)) cluster bytes in
        (loaded_l2_table (geometry_of header.now) cluster bytes ≡ Ok numbers)
        × MakesRun header.now edits.now numbers done.0 done.1)) }
    ensures table { IfOk result (λ done. IsHeldTable header.now cluster done.0) }
    ensures fault { IfErr result (λ fault. IsContentFault fault × OnImage (S.state image.old) (λ bytes.
        IsFromOutside fault ⊎ (loaded_l2_table (geometry_of header.now) cluster bytes ≡ Err fault))) }
    ensures storage { OnlyReads result (S.state image.old) (S.state image.new) }
{
    let mut table = load_l2_table(alloc, image, header, cluster)?;
    let outcome = edit_table(alloc, &mut table, edits)?;
    Ok((table, outcome))
}

/// The references that the L2 table at a cluster gains and loses by the edits at some positions. `index` is
/// that of its L1 entry. Doesn't write the table.
pub(crate) fn load_outcome<S: Storage>(
    alloc: Global,
    image: &mut S,
    header: &Header,
    cluster: HostCluster,
    index: usize,
    edits: &[GuestEdit],
    positions: &[usize],
) -> Result<Outcome, Fault>
    requires place { (index < 2 ^ 32) × IsInImage header.now.v2.cluster_bits cluster }
    requires fit { AllFit header.now edits.now }
    requires positions { positions.now ≡ positions_in header.now.v2.cluster_bits index edits.now }
    ensures made { IfOk result (λ outcome. OnImage (S.state image.old) (λ bytes.
        let numbers = numbers_at (l2_layout (geometry_of header.now)) cluster bytes in
        (loaded_l2_table (geometry_of header.now) cluster bytes ≡ Ok numbers)
        × ComesToOutcome header.now (edits_in header.now.v2.cluster_bits index edits.now) numbers outcome)) }
    ensures fault { IfErr result (λ fault. IsContentFault fault × OnImage (S.state image.old) (λ bytes.
        IsFromOutside fault ⊎ (loaded_l2_table (geometry_of header.now) cluster bytes ≡ Err fault))) }
    ensures storage { OnlyReads result (S.state image.old) (S.state image.new) }
{
    let edits = edits_at(alloc, edits, positions, header.cluster_bits(), index)?;
    let (_, outcome) = load_edited(alloc, image, header, cluster, edits.as_slice())?;
    Ok(outcome)
}

// Makes the edits at some positions in a table in memory. `index` is that of its L1 entry.
fn make_edits(
    table: &mut L2Table,
    header: &Header,
    index: usize,
    edits: &[GuestEdit],
    positions: &[usize],
)
    requires index { index < 2 ^ 32 }
    requires table { IsL2TableOf header.now table.old }
    requires fit { AllFit header.now edits.now }
    requires positions { positions.now ≡ positions_in header.now.v2.cluster_bits index edits.now }
    ensures { IsLeftBy header.now (edits_in header.now.v2.cluster_bits index edits.now) table.old table.new }
{
    for position in positions {
        edits[*position].make_in(table, header, index);
    }
}

// Reads the L2 table at a cluster into `table`, makes the edits at some positions, and writes it if it has
// changed. `index` is that of its L1 entry.
fn edit_named<S: Storage>(
    image: &mut S,
    header: &Header,
    table: &mut L2Table,
    cluster: HostCluster,
    index: usize,
    edits: &[GuestEdit],
    positions: &[usize],
) -> Result<(), Fault>
    requires place { (index < 2 ^ 32) × IsInImage header.now.v2.cluster_bits cluster }
    requires table { IsL2TableOf header.now table.old }
    requires fit { AllFit header.now edits.now }
    requires positions { positions.now ≡ positions_in header.now.v2.cluster_bits index edits.now }
    ensures edited { OnOk result (OnImages (S.state image.old) (S.state image.new)
        (EditsTable header.now (edits_in header.now.v2.cluster_bits index edits.now) cluster)) }
    ensures fault { IfErr result (λ fault. IsRereadFault fault × OnImage (S.state image.old) (λ bytes.
        (fault ≡ Storage) ⊎ (loaded_l2_table (geometry_of header.now) cluster bytes ≡ Err fault))) }
    ensures table { IsL2TableOf header.now table.new }
    ensures storage { let layout = l2_layout (geometry_of header.now) in OnlyWrites result
        (Some (offset_of layout cluster)) layout.byte_count (S.state image.old) (S.state image.new) }
{
    table.reload(image, header, cluster)?;
    make_edits(table, header, index, edits, positions);
    table.write_if_modified(image, cluster)
}

// The same for the L2 table of the L1 entry at an index. Does nothing if the entry names no table, or no edit
// concerns it.
fn edit_at<S: Storage>(
    image: &mut S,
    header: &Header,
    l1_table: &L1Table,
    table: &mut L2Table,
    index: usize,
    edits: &[GuestEdit],
    by_table: &EditsByTable,
) -> Result<(), Fault>
    requires index { index < 2 ^ 32 }
    requires tables { (l1_table.now.geometry ≡ geometry_of header.now) × IsL2TableOf header.now table.old }
    requires fit { AllFit header.now edits.now }
    requires by_table { IsByTable header.now l1_table.now.numbers edits.now by_table.now }
    ensures edited { let tables = l2_tables header.now l1_table.now.numbers in ArePlacesApart tables →
        OnImages (S.state image.old) (S.state image.new) (λ before after. MatchResult result
        (λ _. StepsAt tables (IsEdited header.now edits.now) index before after)
        (λ fault. TearsAtMost fault (TearsOne tables) before after)) }
    ensures loaded { LoadsAt header.now l1_table.now.numbers edits.now index result (S.state image.old) }
    ensures others { OnImages (S.state image.old) (S.state image.new)
        (KeepsOutside (l2_tables header.now l1_table.now.numbers)) }
    ensures table { IsL2TableOf header.now table.new }
    ensures storage { ReportsFailures result (S.state image.old) (S.state image.new) }
{
    let Some(cluster) = named_cluster(l1_table, index) else {
        return Ok(());
    };
    let positions = by_table.positions_in(index);
    if positions.is_empty() {
        return Ok(());
    }
    edit_named(image, header, table, cluster, index, edits, positions)
}

/// Makes edits in all L2 tables of an image, and syncs them to the device. Reads each table into `table`,
/// which stays a table of the image, and writes it at most once, so it takes no memory. Skips guest clusters
/// without a table.
///
/// Returns the fault of the first table that doesn't load. After a fault the tables before it may be edited,
/// so the call must not be repeated. If the storage failed, any bytes may also be in one more. Takes time in
/// proportion to the number of L1 entries, of tables read, and of clusters edited.
pub fn edit_tables<S: Device>(
    image: &mut S,
    header: &Header,
    l1_table: &L1Table,
    table: &mut L2Table,
    edits: &[GuestEdit],
    by_table: &EditsByTable,
) -> Result<(), Fault>
    requires tables { (l1_table.now.geometry ≡ geometry_of header.now) × IsL2TableOf header.now table.old }
    requires count { length l1_table.now.numbers ≡ header.now.v2.l1_size }
    requires fit { AllFit header.now edits.now }
    requires by_table { IsByTable header.now l1_table.now.numbers edits.now by_table.now }
    ensures edited { let tables = l2_tables header.now l1_table.now.numbers in ArePlacesApart tables →
        OnImages (S.state image.old) (S.state image.new) (λ before after. MatchResult result
        (λ _. Passes tables (IsEdited header.now edits.now) before after)
        (λ fault. PassBreaksOff tables (IsEdited header.now edits.now) fault before after)) }
    ensures loaded { LoadAll header.now l1_table.now.numbers edits.now result (S.state image.old) }
    ensures others { OnImages (S.state image.old) (S.state image.new)
        (KeepsOutside (l2_tables header.now l1_table.now.numbers)) }
    ensures table { IsL2TableOf header.now table.new }
    ensures storage { ReportsFailures result (S.state image.old) (S.state image.new) }
{
    for index in 0..header.l1_table_entries() {
        edit_at(image, header, l1_table, table, index, edits, by_table)?;
    }
    image.sync()?;
    Ok(())
}
