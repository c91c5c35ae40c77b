//! Repairs of an image's refcounts and copied flags.

ghost use Rattle.std.specs.Prelude.{◌≡◌, ◌⊎◌, Err, IfErr, IfOk, IfSome, IsOkUnless, MatchResult, None, Ok, OnOk, true};
ghost use Rattle.qcow2_base.specs.Storage.{Image, OnImage, OnImages, SameOutside};
ghost use Rattle.qcow2_base.specs.declared.fault.Fault.TheVariants.{Storage as StorageFailed};
ghost use Rattle.qcow2_metadata.specs.Header.Open.{header_after_load};
ghost use Rattle.qcow2_metadata.specs.Placed.{place_fault};
ghost use Rattle.qcow2_metadata.specs.Results.{IsFromOutside};
ghost use Rattle.qcow2_check.specs.Findings.{CountsAll};
ghost use Rattle.qcow2_check.specs.ImageTables.{IsPlacedReftable};
ghost use Rattle.qcow2_check.specs.NamedTables.{l1_cluster, l1_layout};
ghost use Rattle.qcow2_repair.specs.Repair.{BreaksOffCounters, BreaksOffRepair, ClearsMarks, EndsRepair, IsPassFault, IsRepairFault, IsRepairable, Lowers, Raises, Repairs, RepairsImage, TellsPassed, tables_in};
ghost use Rattle.qcow2_check.specs.Failures.{RefusesAs, ReportsFailures, TearsAtMost};
ghost use Rattle.qcow2_repair.specs.Flags.{IsL1TableOf};
ghost use Rattle.qcow2_repair.specs.Refusals.{repair_within, repairable_tables};

use crate::counters::{CounterPass, pass_all_counters};
use crate::flag_windows::pass_all_flags;
use crate::kept_tally::KeptTally;
use crate::refusals::{refuse_past_end, repairable_tables};
use qcow2_base::{Device, Fault};
use qcow2_check::{ImageTables, Tally, Windows};
use qcow2_metadata::{Header, L1Table, RefTable};
use std::alloc::Global;

/// Makes the refcounts and the copied flags of an image with this header right, without new refcount blocks.
/// Each refcount becomes its cluster's number of references, and each copied flag says whether that number is
/// 1. Flags of clusters that no refcount block counts stay as they are. Those of an external data file's
/// clusters are all set.
///
/// Returns the header that the image has then. The call first clears the autoclear features, as
/// `Header::into_writable` does, and then makes four passes: it clears the copied flags of clusters that
/// don't have exactly one reference, raises refcounts, lowers refcounts, and sets the flags of clusters that
/// have exactly one. Last it clears the marks `dirty` and `corrupt`, as `Header::clear_marks` does, if the
/// header has any and nothing stays wrong: refcount blocks count each cluster at which something was wrong,
/// and no cluster that begins past the end of the image's file has references. `Device::sync` puts each step
/// on the device before the next writes anything. Nothing else changes.
///
/// Returns the fault of `refuse_unrepairable`, of `refuse_tables_past_end` or of `Findings::new`, or that of
/// the first cluster that can't be repaired: 38 if its references exclude each other, 30 if its refcount
/// can't hold their number. After these come 24 if the header has no room, and 25 for a name that no loaded
/// header has. None of these faults changes a byte. If memory runs out, some steps may be done, and each
/// refcount and each entry is the old one or that of its step. If the storage fails, any bytes may also be in
/// the text of the header, in the field of its marks, or in one table or block.
pub fn repair_image<S: Device>(
    alloc: Global,
    image: &mut S,
    header: Header,
) -> Result<Header, Fault>
    ensures repairs { RepairsImage header result (S.state image.old) (S.state image.new) }
    ensures end { OnImage (S.state image.old) (λ bytes.
        RefusesAs (repair_within header (S.state image.old).len bytes) result) }
{
    refuse_past_end(alloc, image, &header)?;
    repair_whole(alloc, image, header)
}

// `repair_image` for an image that ends after all tables and blocks that it names.
fn repair_whole<S: Device>(alloc: Global, image: &mut S, header: Header) -> Result<Header, Fault>
    ensures { RepairsImage header result (S.state image.old) (S.state image.new) }
{
    let (mut header, leaves_nothing) = repair_marked(alloc, image, header)?;
    if leaves_nothing {
        clear_marks(image, &mut header)?;
    }
    Ok(header)
}

// The same without the marks. Returns the header that the image has then, and whether nothing stays wrong.
fn repair_marked<S: Device>(
    alloc: Global,
    image: &mut S,
    header: Header,
) -> Result<(Header, bool), Fault>
    ensures { EndsRepair header (λ file. TellsPassed file header) result
        (S.state image.old) (S.state image.new) }
{
    let (mut l1_table, reftable, tally, leaves_nothing) = repairable_tables(alloc, image, &header)?;
    let header = header.into_writable(image)?;
    repair_written(image, &header, &mut l1_table, &reftable, tally)?;
    Ok((header, leaves_nothing))
}

// Clears the marks of a repaired image, and syncs it to the device, if it has any.
fn clear_marks<S: Device>(image: &mut S, header: &mut Header) -> Result<(), Fault>
    ensures marks { OnImages (S.state image.old) (S.state image.new) (λ before after. MatchResult result
        (λ _. ClearsMarks header.old header.new before after)
        (λ fault. TearsAtMost fault (SameOutside 72 8) before after)) }
    ensures fault { IsOkUnless result StorageFailed }
    ensures storage { ReportsFailures result (S.state image.old) (S.state image.new) }
{
    if !header.is_marked() {
        return Ok(());
    }
    header.clear_marks(image)?;
    image.sync()?;
    Ok(())
}

// Syncs the writable header to the device, and then makes the refcounts and copied flags of the image right.
// `tally` has its counted references.
fn repair_written<S: Device>(
    image: &mut S,
    header: &Header,
    l1_table: &mut L1Table,
    reftable: &RefTable,
    tally: Option<Tally>,
) -> Result<(), Fault>
    requires reftable { IsPlacedReftable header.now reftable.now }
    requires placed { place_fault (l1_layout header.now) (l1_cluster header.now) ≡ None }
    requires l1_table { IsL1TableOf header.now (S.state image.old) l1_table.old }
    requires repairable { OnImage (S.state image.old) (λ bytes.
        IsRepairable (tables_in header.now reftable.now.numbers bytes) bytes) }
    requires counted { OnImage (S.state image.old) (λ bytes.
        IfSome tally (CountsAll (tables_in header.now reftable.now.numbers bytes) bytes)) }
    ensures repairs { OnImages (S.state image.old) (S.state image.new) (λ before after. MatchResult result
        (λ _. Repairs header.now reftable.now.numbers before after)
        (λ fault. BreaksOffRepair header.now reftable.now.numbers fault before after)) }
    ensures fault { IfErr result (λ fault. IsPassFault header.now fault
        × OnImage (S.state image.old) (λ _. IsFromOutside fault)) }
    ensures storage { ReportsFailures result (S.state image.old) (S.state image.new) }
{
    image.sync()?;
    let tables = ImageTables {
        header,
        l1_table,
        reftable,
    };
    let windows = Windows::new(&tables, 0);
    let mut kept = KeptTally { windows, tally };
    repair_tables(image, header, l1_table, reftable, &mut kept)
}

// Makes the refcounts and copied flags of an image with these tables right, in four passes.
fn repair_tables<S: Device>(
    image: &mut S,
    header: &Header,
    l1_table: &mut L1Table,
    reftable: &RefTable,
    kept: &mut KeptTally,
) -> Result<(), Fault>
    requires reftable { IsPlacedReftable header.now reftable.now }
    requires placed { place_fault (l1_layout header.now) (l1_cluster header.now) ≡ None }
    requires l1_table { IsL1TableOf header.now (S.state image.old) l1_table.old }
    requires repairable { OnImage (S.state image.old) (λ bytes.
        IsRepairable (tables_in header.now reftable.now.numbers bytes) bytes) }
    requires kept { OnImage (S.state image.old) (λ bytes.
        IfSome kept.old.tally (CountsAll (tables_in header.now reftable.now.numbers bytes) bytes)) }
    ensures repairs { OnImages (S.state image.old) (S.state image.new) (λ before after. MatchResult result
        (λ _. Repairs header.now reftable.now.numbers before after)
        (λ fault. BreaksOffRepair header.now reftable.now.numbers fault before after)) }
    ensures fault { IfErr result (IsRepairFault (S.state image.old)) }
    ensures storage { ReportsFailures result (S.state image.old) (S.state image.new) }
{
    pass_all_flags(image, header, l1_table, reftable, kept, false)?;
    pass_both_counters(image, header, l1_table, reftable, kept)?;
    pass_all_flags(image, header, l1_table, reftable, kept, true)?;
    Ok(())
}

// Raises the refcounts of an image with these tables, and then lowers them.
#[tactic(auto, using(crate::proofs::FlagWindowsLemmas::l1_fits))]
fn pass_both_counters<S: Device>(
    image: &mut S,
    header: &Header,
    l1_table: &L1Table,
    reftable: &RefTable,
    kept: &mut KeptTally,
) -> Result<(), Fault>
    requires reftable { IsPlacedReftable header.now reftable.now }
    requires placed { place_fault (l1_layout header.now) (l1_cluster header.now) ≡ None }
    requires l1_table { IsL1TableOf header.now (S.state image.old) l1_table.now }
    requires repairable { OnImage (S.state image.old) (λ bytes.
        IsRepairable (tables_in header.now reftable.now.numbers bytes) bytes) }
    requires kept { OnImage (S.state image.old) (λ bytes.
        IfSome kept.old.tally (CountsAll (tables_in header.now reftable.now.numbers bytes) bytes)) }
    ensures counters { OnImages (S.state image.old) (S.state image.new) (λ before after. MatchResult result
        (λ _. (mid : Image) × Raises header.now reftable.now.numbers before mid
        × Lowers header.now reftable.now.numbers mid after)
        (λ fault. BreaksOffCounters header.now reftable.now.numbers fault before after)) }
    ensures l1_table { IfOk result (λ _. IsL1TableOf header.now (S.state image.new) l1_table.now) }
    ensures repairable { OnOk result (OnImage (S.state image.new) (λ bytes.
        let tables = tables_in header.now reftable.now.numbers bytes in
        IsRepairable tables bytes × IfSome kept.new.tally (CountsAll tables bytes))) }
    ensures fault { IfErr result (IsRepairFault (S.state image.old)) }
    ensures storage { ReportsFailures result (S.state image.old) (S.state image.new) }
{
    let tables = ImageTables {
        header,
        l1_table,
        reftable,
    };
    pass_all_counters(image, &tables, kept, CounterPass::Rise)?;
    pass_all_counters(image, &tables, kept, CounterPass::Fall)?;
    Ok(())
}
