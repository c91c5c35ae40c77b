//! The check of a whole image in memory.

ghost use Rattle.std.specs.Prelude.{◌≡◌, ◌⊎◌, ◌+◌, Ok, IfErr, IfOk, IsOkUnless, length, map, set};
ghost use Rattle.qcow2_base.specs.Storage.{OnImage, OnlyReads, image_of};
ghost use Rattle.qcow2_base.specs.declared.fault.Fault.TheVariants.{NoMemory};
ghost use Rattle.qcow2_check.specs.Findings.{IsBegun, IsFindingsOf, IsLaterFault, MovesFindings, checked_tables, image_findings, tables_of};
ghost use Rattle.qcow2_check.specs.Totals.{finding_totals};
ghost use Rattle.qcow2_metadata.specs.Results.{IsFromOutside};
ghost use Rattle.qcow2_bytes.specs.Images.Check.{AreFirstPut, IsCheckRefusal, PutsFindings, finding_fields, tables_at, totals_in_fields};

use crate::header::{load_any_header, without_storage_fault};
use qcow2_base::{Fault, SliceStorage, Storage};
use qcow2_check::{Finding, Findings, Totals};
use qcow2_metadata::Header;
use std::alloc::Global;

/// A wrong cluster, in plain numbers.
#[repr(C)]
#[derive(Clone, Copy, Debug, PartialEq, Eq)]
pub struct FindingFields {
    /// A sum: 1 if the cluster is leaked, with a refcount greater than its number of references; 2 if it is
    /// missing, with a smaller one; 4 if it is shared, with references that exclude each other.
    pub kinds: u32,
    /// Always 0.
    pub reserved: u32,
    /// The number of the cluster. It begins at that multiple of the cluster size.
    pub cluster: u64,
    /// Its refcount: 0 if no refcount block counts it.
    pub counter: u64,
    /// The number of references to it.
    pub uses: u64,
}

/// The numbers of wrong clusters and copied flags in an image.
#[repr(C)]
#[derive(Clone, Copy, Debug, PartialEq, Eq)]
pub struct CheckTotals {
    /// Wrong clusters.
    pub findings: u64,
    /// Leaked clusters among them.
    pub leaked: u64,
    /// Missing clusters among them.
    pub missing: u64,
    /// Shared clusters among them.
    pub shared: u64,
    /// Copied flags that are set though the cluster's refcount isn't 1.
    pub false_flags: u64,
    /// Copied flags that aren't set though the refcount is 1 or the cluster has none.
    pub late_flags: u64,
}

/// Checks an image by its whole bytes. Writes as many wrong clusters as fit into `findings`, in the order of
/// clusters, and returns the totals of the whole check. Elements of `findings` after them don't change. Past
/// its last byte the image reads as zeros, and references to clusters there count like others.
///
/// Returns the fault of the header or of `Findings::new` (one of 1 to 21 or 37), and then doesn't change
/// `findings`. After 35 the elements of `findings` are unspecified, if the image can be checked.
pub fn image_check(
    alloc: Global,
    bytes: &[u8],
    findings: &mut [FindingFields],
) -> Result<CheckTotals, Fault>
    ensures checks { let image = image_of bytes.now in
        PutsFindings (tables_at image) image findings.old findings.new result }
    ensures faults { IfErr result (λ fault. (fault ≡ NoMemory) ⊎ IsCheckRefusal fault) }
{
    let mut image = SliceStorage::new(bytes, 0);
    match check_bytes(alloc, &mut image, findings) {
        Ok(totals) => Ok(totals),
        Err(fault) => Err(without_storage_fault(fault)),
    }
}

// `image_check` over a storage.
fn check_bytes<S: Storage>(
    alloc: Global,
    image: &mut S,
    findings: &mut [FindingFields],
) -> Result<CheckTotals, Fault>
    ensures checks { OnImage (S.state image.old) (λ bytes.
        PutsFindings (tables_at bytes) bytes findings.old findings.new result) }
    ensures faults { IfErr result (λ fault. IsFromOutside fault ⊎ IsCheckRefusal fault) }
{
    let header = load_any_header(alloc, image)?;
    check_with_header(alloc, image, &header, findings)
}

// The same for an image with this header.
fn check_with_header<S: Storage>(
    alloc: Global,
    image: &mut S,
    header: &Header,
    findings: &mut [FindingFields],
) -> Result<CheckTotals, Fault>
    ensures checks { OnImage (S.state image.old) (λ bytes.
        PutsFindings (checked_tables header.now bytes) bytes findings.old findings.new result) }
    ensures faults { IfErr result (λ fault. IsFromOutside fault ⊎ IsCheckRefusal fault) }
{
    let reader = Findings::new(alloc, image, header)?;
    put_all(reader, image, findings)
}

// The same with a reader before its first finding.
fn put_all<S: Storage>(
    mut reader: Findings<'_>,
    image: &mut S,
    findings: &mut [FindingFields],
) -> Result<CheckTotals, Fault>
    requires reader { OnImage (S.state image.old) (λ bytes. IsFindingsOf bytes reader) }
    requires begun { IsBegun reader }
    ensures checks { OnImage (S.state image.old) (λ bytes.
        PutsFindings (Ok (tables_of reader.entry)) bytes findings.old findings.new result) }
    ensures fault { IfErr result (IsLaterFault (S.state image.old)) }
{
    let (count, totals) = put_findings(&mut reader, image, findings)?;
    let mut flags = reader.into_flags();
    let totals = totals.with_flags_left(&mut flags, image)?;
    Ok(totals_in_fields(count, &totals))
}

// Writes the findings of a reader before its first one to the list, as many as fit. Returns their number, and
// their totals.
fn put_findings<S: Storage>(
    reader: &mut Findings<'_>,
    image: &mut S,
    findings: &mut [FindingFields],
) -> Result<(u64, Totals), Fault>
    requires reader { OnImage (S.state image.old) (λ bytes. IsFindingsOf bytes reader.old) }
    requires begun { IsBegun reader.old }
    ensures put { IfOk result (λ counts. OnImage (S.state image.old) (λ bytes.
        let all = image_findings (tables_of reader.old) bytes in
        (counts.0 ≡ length all) × (counts.1 ≡ finding_totals all)
        × AreFirstPut (map finding_fields all) findings.old findings.new)) }
    ensures reader { MovesFindings (S.state image.old) reader.old reader.new }
    ensures fault { IfErr result (IsLaterFault (S.state image.old)) }
    ensures storage { OnlyReads result (S.state image.old) (S.state image.new) }
{
    let (mut count, mut totals) = (0, Totals::new());
    while let Some(finding) = reader.next(image)? {
        put_finding(findings, count, &finding);
        totals = totals.with_clusters(&finding, 1)?;
        count = one_more(count)?;
    }
    Ok((count, totals))
}

// The next number. No image has enough clusters to overflow it.
fn one_more(number: u64) -> Result<u64, Fault>
    ensures fault { IsOkUnless result NoMemory }
    ensures sum { IfOk result (λ sum. sum ≡ number + 1) }
{
    number.checked_add(1).ok_or(Fault::NoMemory)
}

// Writes a finding to an index of the list, if the list is long enough.
fn put_finding(findings: &mut [FindingFields], place: u64, finding: &Finding)
    ensures { findings.new ≡ set findings.old place (finding_fields finding.now) }
{
    if place < findings.len() as u64 {
        findings[place as usize] = fields_of(finding);
    }
}

// A finding in plain numbers.
fn fields_of(finding: &Finding) -> FindingFields
    ensures { result ≡ finding_fields finding.now }
{
    let (is_leaked, is_missing) = (finding.is_leaked(), finding.is_missing());
    FindingFields {
        kinds: is_leaked as u32 + 2 * is_missing as u32 + 4 * finding.shared as u32,
        reserved: 0,
        cluster: finding.cluster.0,
        counter: finding.counter,
        uses: finding.uses,
    }
}

// The number of findings and the totals, in plain numbers.
fn totals_in_fields(findings: u64, totals: &Totals) -> CheckTotals
    ensures { result ≡ totals_in_fields findings totals.now }
{
    CheckTotals {
        findings,
        leaked: totals.leaked,
        missing: totals.missing,
        shared: totals.shared,
        false_flags: totals.false_flags,
        late_flags: totals.late_flags,
    }
}
