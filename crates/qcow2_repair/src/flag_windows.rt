//! A repair's pass over all copied flags of an image, by windows of clusters whose references are counted.

ghost use Rattle.std.specs.Prelude.{◌≡◌, ◌<◌, ◌≤◌, IfErr, IfOk, IfSome, IsOkUnless, MatchResult, None, OnOk, Option, Some, false, length};
ghost use Rattle.qcow2_base.specs.Format.{max_file_length};
ghost use Rattle.qcow2_base.specs.Storage.{OnImage, OnImages, OnlyWrites};
ghost use Rattle.qcow2_base.specs.declared.fault.Fault.TheVariants.{Storage as StorageFailed};
ghost use Rattle.qcow2_metadata.specs.Header.{geometry_of};
ghost use Rattle.qcow2_metadata.specs.Placed.{offset_of, place_fault};
ghost use Rattle.qcow2_check.specs.Findings.{CountsAll, IsLaterFault};
ghost use Rattle.qcow2_check.specs.ImageTables.{IsPlacedReftable};
ghost use Rattle.qcow2_check.specs.NamedTables.{l1_cluster, l1_layout};
ghost use Rattle.qcow2_check.specs.Uses.{image_tables};
ghost use Rattle.qcow2_repair.specs.Repair.{IsRepairable};
ghost use Rattle.qcow2_check.specs.Failures.{ReportsFailures};
ghost use Rattle.qcow2_repair.specs.Flags.{BreaksOffFlags, IsL1TableOf, PassesFlags, l1_in, pass_all, pass_between};

use crate::flags::FlagPass;
use crate::kept_tally::KeptTally;
use qcow2_base::{Device, Fault, Storage};
use qcow2_check::{ImageTables, Repeats, counted_end};
use qcow2_metadata::{Header, L1Table, RefTable, Table};

// Writes the L1 table if it is modified.
fn write_l1_table<S: Storage>(
    image: &mut S,
    header: &Header,
    l1_table: &mut L1Table,
) -> Result<(), Fault>
    requires geometry { l1_table.old.geometry ≡ geometry_of header.now }
    requires place { (l1_table.old.cluster ≡ Some (l1_cluster header.now))
        × (length l1_table.old.numbers ≡ header.now.v2.l1_size) }
    requires placed { place_fault (l1_layout header.now) (l1_cluster header.now) ≡ None }
    requires unmodified { l1_table.old.modified ≡ false → OnImage (S.state image.old) (λ bytes.
        l1_table.old.numbers ≡ l1_in header.now bytes) }
    ensures written { OnOk result (IsL1TableOf header.now (S.state image.new) l1_table.new) }
    ensures same { l1_table.new ≡ record l1_table.old { modified = l1_table.new.modified } }
    ensures fault { IsOkUnless result StorageFailed }
    ensures storage { let layout = l1_layout header.now in OnlyWrites result
        (Some (offset_of layout (l1_cluster header.now))) layout.byte_count
        (S.state image.old) (S.state image.new) }
{
    if l1_table.is_modified() {
        l1_table.write(image)?;
    }
    Ok(())
}

// Clears or sets copied flags, as `flag` says, in the entries that need it and name clusters of the window
// from `first` on. Returns the window's end.
#[tactic(auto, using(crate::proofs::FlagWindowsLemmas::l1_fits))]
fn pass_window<S: Storage>(
    image: &mut S,
    header: &Header,
    l1_table: &mut L1Table,
    reftable: &RefTable,
    kept: &mut KeptTally,
    first: u64,
    flag: bool,
) -> Result<u64, Fault>
    requires first { first < max_file_length }
    requires reftable { IsPlacedReftable header.now reftable.now }
    requires placed { place_fault (l1_layout header.now) (l1_cluster header.now) ≡ None }
    requires l1_table { IsL1TableOf header.now (S.state image.old) l1_table.old }
    requires repairable { OnImage (S.state image.old)
        (IsRepairable (image_tables header.now l1_table.old.numbers reftable.now.numbers)) }
    requires kept { OnImage (S.state image.old) (λ bytes. IfSome kept.old.tally
        (CountsAll (image_tables header.now l1_table.old.numbers reftable.now.numbers) bytes)) }
    ensures passed { let tables = image_tables header.now l1_table.old.numbers reftable.now.numbers in
        OnImages (S.state image.old) (S.state image.new) (λ before after. MatchResult result
        (λ end. PassesFlags (pass_between tables before flag first end) before after)
        (λ fault. BreaksOffFlags (pass_all tables before flag) fault before after)) }
    ensures further { IfOk result (λ end. (first < end) × (end ≤ max_file_length)) }
    ensures kept { OnOk result (IsL1TableOf header.now (S.state image.new) l1_table.new)
        × OnImages (S.state image.old) (S.state image.new) (λ _ after. OnOk result (IfSome kept.new.tally
        (CountsAll (image_tables header.now l1_table.new.numbers reftable.now.numbers) after))) }
    ensures fault { IfErr result (IsLaterFault (S.state image.old)) }
    ensures storage { ReportsFailures result (S.state image.old) (S.state image.new) }
{
    let tables = ImageTables {
        header,
        l1_table,
        reftable,
    };
    kept.keep_from(image, &tables, first)?;
    let tally = kept.tally.as_ref().unwrap();
    let pass = FlagPass {
        header,
        reftable,
        tally,
        flag,
    };
    pass.pass_l1(l1_table);
    let repeats = Repeats::new(l1_table.allocator(), l1_table)?;
    write_l1_table(image, header, l1_table)?;
    pass.pass_tables(image, l1_table, &repeats)?;
    Ok(tally.end())
}

/// Clears or sets copied flags as `flag` says, in all entries of an image with these tables that need it, and
/// syncs them to the device. Keeps `l1_table` equal to the image's. Runs at least one window, since copied
/// flags in an external data file depend on no refcount.
#[tactic(auto, using(crate::proofs::FlagWindowsLemmas::l1_fits))]
pub(crate) fn pass_all_flags<S: Device>(
    image: &mut S,
    header: &Header,
    l1_table: &mut L1Table,
    reftable: &RefTable,
    kept: &mut KeptTally,
    flag: bool,
) -> Result<(), Fault>
    requires reftable { IsPlacedReftable header.now reftable.now }
    requires placed { place_fault (l1_layout header.now) (l1_cluster header.now) ≡ None }
    requires l1_table { IsL1TableOf header.now (S.state image.old) l1_table.old }
    requires repairable { OnImage (S.state image.old)
        (IsRepairable (image_tables header.now l1_table.old.numbers reftable.now.numbers)) }
    requires kept { OnImage (S.state image.old) (λ bytes. IfSome kept.old.tally
        (CountsAll (image_tables header.now l1_table.old.numbers reftable.now.numbers) bytes)) }
    ensures passed { let tables = image_tables header.now l1_table.old.numbers reftable.now.numbers in
        OnImages (S.state image.old) (S.state image.new) (λ before after. MatchResult result
        (λ _. PassesFlags (pass_all tables before flag) before after)
        (λ fault. BreaksOffFlags (pass_all tables before flag) fault before after)) }
    ensures l1_table { OnOk result (IsL1TableOf header.now (S.state image.new) l1_table.new) }
    ensures kept { OnImages (S.state image.old) (S.state image.new) (λ _ after. OnOk result
        (IfSome kept.new.tally
        (CountsAll (image_tables header.now l1_table.new.numbers reftable.now.numbers) after))) }
    ensures fault { IfErr result (IsLaterFault (S.state image.old)) }
    ensures storage { ReportsFailures result (S.state image.old) (S.state image.new) }
{
    let end = counted_end(header, reftable);
    let mut first = pass_window(image, header, l1_table, reftable, kept, 0, flag)?;
    while first < end {
        first = pass_window(image, header, l1_table, reftable, kept, first, flag)?;
    }
    image.sync()?;
    Ok(())
}
