//! The refusals of a repair before it writes: parts whose references it can't count, an L1 table that is too
//! short, references that exclude each other, and more references than a refcount holds.

ghost use Rattle.std.specs.Prelude.{◌≡◌, ◌⊎◌, ◌≤◌, IfErr, IfOk, IfSome, MatchResult, None, Ok, Some};
ghost use Rattle.qcow2_base.specs.Storage.{OnImage};
ghost use Rattle.qcow2_base.specs.declared.fault.Fault.TheVariants.{CounterRange, Overlap};
ghost use Rattle.qcow2_metadata.specs.Placed.{place_fault};
ghost use Rattle.qcow2_metadata.specs.Refblock.{greatest_counter};
ghost use Rattle.qcow2_metadata.specs.Results.{Reads, unless_refused};
ghost use Rattle.qcow2_check.specs.FileEnd.{file_clusters};
ghost use Rattle.qcow2_check.specs.Findings.{CountsAll, IsBegun, IsFindingsOf, MovesFindings, findings_left, image_findings, tables_of};
ghost use Rattle.qcow2_check.specs.ImageTables.{IsPlacedReftable};
ghost use Rattle.qcow2_check.specs.NamedTables.{l1_cluster, l1_layout};
ghost use Rattle.qcow2_check.specs.Uses.{image_tables};
ghost use Rattle.qcow2_repair.specs.Repair.{IsRepairable};
ghost use Rattle.qcow2_repair.specs.Flags.{IsL1TableOf};
ghost use Rattle.qcow2_repair.specs.Refusals.{IsFindingRefusal, IsRepairRefusal, are_counted, findings_refusal, header_refusal, leaves_nothing, refusal_of, repair_within, repairable_tables, unrefused_tables};

use qcow2_base::{Device, Fault, Storage};
use qcow2_check::{Finding, Findings, Tally, refuse_short_l1, refuse_tables_past_end};
use qcow2_metadata::{Header, L1Table, RefTable};
use std::alloc::Global;

// The greatest refcount of a refcount order.
#[tactic(auto, using(crate::proofs::RefusalsLemmas::greatest_shifted))]
fn greatest_counter(refcount_order: u32) -> u64
    requires { refcount_order ≤ 6 }
    ensures { result ≡ greatest_counter refcount_order }
{
    let width = 1u32 << refcount_order;
    u64::MAX >> (64 - width)
}

// Refuses a finding that no refcount can make right: references that exclude each other (fault 38), or more
// of them than the refcount can hold (fault 30).
fn check_finding(findings: &Findings<'_>, finding: &Finding) -> Result<(), Fault>
    ensures refusal { let reader = findings.now in
        let refusal = refusal_of reader.header reader.counters.reftable finding.now in
        MatchResult result (λ done. refusal ≡ None) (λ fault. refusal ≡ Some fault) }
    ensures fault { IfErr result (λ fault. (fault ≡ Overlap) ⊎ (fault ≡ CounterRange)) }
{
    if finding.shared {
        return Err(Fault::Overlap);
    }
    let greatest = greatest_counter(findings.header().refcount_order());
    if findings.has_block(finding.cluster) && finding.uses > greatest {
        return Err(Fault::CounterRange);
    }
    Ok(())
}

// Refuses the first of a reader's remaining findings that can't be made right. Returns whether refcount
// blocks count the clusters of all of them.
fn check_findings<S: Storage>(findings: &mut Findings<'_>, image: &mut S) -> Result<bool, Fault>
    requires { OnImage (S.state image.old) (λ bytes. IsFindingsOf bytes findings.old) }
    ensures reads { let reader = findings.old in
        Reads (λ _. tt {0}) result (λ bytes. unless_refused
        (findings_refusal reader.header reader.counters.reftable (findings_left reader bytes)) (Ok (tt {0})))
        IsFindingRefusal (S.state image.old) (S.state image.new) }
    ensures counted { let reader = findings.old in
        IfOk result (λ leaves_nothing. OnImage (S.state image.old) (λ bytes. leaves_nothing
        ≡ are_counted reader.header reader.counters.reftable (findings_left reader bytes))) }
    ensures reader { MovesFindings (S.state image.old) findings.old findings.new }
{
    let mut leaves_nothing = true;
    while let Some(finding) = findings.next(image)? {
        check_finding(findings, &finding)?;
        leaves_nothing = leaves_nothing && findings.has_block(finding.cluster);
    }
    Ok(leaves_nothing)
}

// Refuses the first of a reader's findings that can't be made right. Returns the reader, which then seeks
// clusters past the end of the image's file, and whether a repair leaves nothing wrong: refcount blocks count
// the clusters of all findings, and no cluster past the end has references.
fn check_all<'a, S: Device>(
    findings: Findings<'a>,
    image: &mut S,
) -> Result<(Findings<'a>, bool), Fault>
    requires begun { IsBegun findings }
    requires reader { OnImage (S.state image.old) (λ bytes. IsFindingsOf bytes findings) }
    ensures reads { let reader = findings.entry in
        Reads (λ _. tt {0}) result (λ bytes. unless_refused
        (findings_refusal reader.header reader.counters.reftable (image_findings (tables_of reader) bytes))
        (Ok (tt {0}))) IsFindingRefusal (S.state image.old) (S.state image.new) }
    ensures nothing { IfOk result (λ found. OnImage (S.state image.old) (λ bytes.
        found.1 ≡ leaves_nothing (file_clusters (S.state image.old).len findings.entry.header)
        (tables_of findings.entry) bytes)) }
    ensures reader { IfOk result (λ found. (tables_of found.0 ≡ tables_of findings.entry)
        × OnImage (S.state image.old) (λ bytes. IsFindingsOf bytes found.0)) }
{
    let mut findings = findings;
    let are_counted = check_findings(&mut findings, image)?;
    let mut past = findings.into_past_end(image)?;
    let ends_within = past.next(image)?.is_none();
    Ok((past, are_counted && ends_within))
}

// Loads the L1 table and the refcount table of an image whose findings aren't refused, with the last counted
// references, and says whether a repair leaves nothing wrong. Doesn't test whether the L1 table is too short.
fn unrefused_tables<S: Device>(
    alloc: Global,
    image: &mut S,
    header: &Header,
) -> Result<(L1Table, RefTable, Option<Tally>, bool), Fault>
    ensures reads { Reads (λ found. image_tables header.now found.0.numbers found.1.numbers) result
        (unrefused_tables header.now) (IsRepairRefusal header.now) (S.state image.old) (S.state image.new) }
    ensures reftable { IfOk result (λ found. IsPlacedReftable header.now found.1) }
    ensures repairable { IfOk result (λ found. OnImage (S.state image.old)
        (IsRepairable (image_tables header.now found.0.numbers found.1.numbers))) }
    ensures l1_table { IfOk result (λ found. IsL1TableOf header.now (S.state image.old) found.0
        × (place_fault (l1_layout header.now) (l1_cluster header.now) ≡ None)) }
    ensures counted { IfOk result (λ found. OnImage (S.state image.old) (λ bytes.
        let tables = image_tables header.now found.0.numbers found.1.numbers in
        IfSome found.2 (CountsAll tables bytes) × (found.3
        ≡ leaves_nothing (file_clusters (S.state image.old).len header.now) tables bytes))) }
{
    prove!(header.cluster_bits() <= 21);
    prove!(header.refcount_order() <= 6);
    let reader = Findings::new(alloc, image, header)?;
    let (findings, leaves_nothing) = check_all(reader, image)?;
    let (l1_table, reftable, tally) = findings.into_parts();
    Ok((l1_table, reftable, tally, leaves_nothing))
}

/// Refuses an image that can't be repaired whatever its tables say: one with a part that
/// `Header::uncounted_part` returns (fault 37), or with an L1 table that is too short for its disk (fault
/// 41).
pub fn refuse_unrepairable(header: &Header) -> Result<(), Fault>
    ensures { result ≡ unless_refused (header_refusal header.now) (Ok tt) }
{
    if let Some(part) = header.uncounted_part() {
        return Err(Fault::Uncounted(part));
    }
    refuse_short_l1(header)
}

// Refuses an image by the faults of `refuse_unrepairable` and `refuse_tables_past_end`. Changes no byte.
pub(crate) fn refuse_past_end<S: Device>(
    alloc: Global,
    image: &mut S,
    header: &Header,
) -> Result<(), Fault>
    ensures reads { Reads (λ done. done) result (repair_within header.now (S.state image.old).len)
        (IsRepairRefusal header.now) (S.state image.old) (S.state image.new) }
{
    refuse_unrepairable(header)?;
    refuse_tables_past_end(alloc, image, header)
}

/// Loads the L1 table and the refcount table of an image that can be repaired, with the last counted
/// references if any are held, and says whether a repair leaves nothing wrong: refcount blocks count each
/// cluster at which something is, and no cluster past the end of the image's file has references.
///
/// Returns the fault of `refuse_unrepairable` or of `Findings::new`, or that of the first cluster that can't
/// be repaired: 38 if its references exclude each other, 30 if its refcount can't hold their number. Changes
/// no byte.
pub(crate) fn repairable_tables<S: Device>(
    alloc: Global,
    image: &mut S,
    header: &Header,
) -> Result<(L1Table, RefTable, Option<Tally>, bool), Fault>
    ensures reads { Reads (λ found. image_tables header.now found.0.numbers found.1.numbers) result
        (repairable_tables header.now) (IsRepairRefusal header.now) (S.state image.old) (S.state image.new) }
    ensures reftable { IfOk result (λ found. IsPlacedReftable header.now found.1) }
    ensures repairable { IfOk result (λ found. OnImage (S.state image.old)
        (IsRepairable (image_tables header.now found.0.numbers found.1.numbers))) }
    ensures l1_table { IfOk result (λ found. IsL1TableOf header.now (S.state image.old) found.0
        × (place_fault (l1_layout header.now) (l1_cluster header.now) ≡ None)) }
    ensures counted { IfOk result (λ found. OnImage (S.state image.old) (λ bytes.
        let tables = image_tables header.now found.0.numbers found.1.numbers in
        IfSome found.2 (CountsAll tables bytes) × (found.3
        ≡ leaves_nothing (file_clusters (S.state image.old).len header.now) tables bytes))) }
{
    refuse_unrepairable(header)?;
    unrefused_tables(alloc, image, header)
}
