//! The results of a check in numbers.

ghost use Rattle.std.specs.Prelude.{◌≡◌, ◌+◌, ◌≤◌, nat_lt, if◌then◌else◌, IfErr, IfOk, IsOkUnless};
ghost use Rattle.qcow2_base.specs.Storage.{OnImage, OnlyReads};
ghost use Rattle.qcow2_base.specs.declared.fault.Fault.TheVariants.{NoMemory};
ghost use Rattle.qcow2_check.specs.FileEnd.{file_clusters};
ghost use Rattle.qcow2_check.specs.Findings.{IsBegun, IsFindingsOf, IsLaterFault, MovesFindings, image_findings, tables_of};
ghost use Rattle.qcow2_check.specs.Totals.{cluster_totals, finding_totals, totals_within, with_clusters};
ghost use Rattle.qcow2_summary.specs.ImageEnd.{findings_end, image_end, most_clusters};
ghost use Rattle.qcow2_metadata.specs.Results.{Answers, IsFromOutside};
ghost use Rattle.qcow2_session.specs.Commands.Check.Account.{checked_account};

use qcow2_base::{ClusterCount, Device, Fault, Storage};
use qcow2_check::{Finding, Findings, Totals};
use qcow2_metadata::{Header, IncompatibleFeatures};
use qcow2_summary::{EntryCounts, count_entries, end_of_image, most_clusters};
use std::alloc::Global;

/// The results of a check in numbers.
#[derive(Clone, Copy)]
pub(super) struct Account {
    pub(super) totals: Totals,
    /// The number of corruptions as QEMU counts them, among them an L1 table too short for the disk.
    pub(super) corruptions: u64,
    /// The end of the image, in bytes.
    pub(super) image_end: u64,
    /// The number of clusters of the guest's disk.
    pub(super) guest_clusters: u64,
    /// Whether the image is marked dirty.
    pub(super) is_dirty: bool,
    /// Whether the image is marked corrupt.
    pub(super) is_corrupt: bool,
    pub(super) entries: EntryCounts,
}

// The findings so far: their totals, and the number after the last cluster below a limit.
#[derive(Clone, Copy)]
struct Found {
    totals: Totals,
    end: u64,
}

impl Found {
    // Adds a finding.
    fn with_finding(self, finding: &Finding, limit: u64) -> Result<Found, Fault>
        ensures fault { IsOkUnless result NoMemory }
        ensures totals { IfOk result (λ found. found.totals ≡ with_clusters self.totals finding.now 1) }
        ensures end { IfOk result (λ found. found.end
            ≡ (if nat_lt finding.now.cluster.0 limit then finding.now.cluster.0 + 1 else self.end)) }
    {
        let cluster = finding.cluster.0;
        Ok(Found {
            totals: self.totals.with_clusters(finding, 1)?,
            end: if cluster < limit {
                cluster + 1
            } else {
                self.end
            },
        })
    }
}

// Counts the findings of a reader that is at their start.
fn count_findings<S: Storage>(
    findings: &mut Findings<'_>,
    image: &mut S,
    limit: u64,
) -> Result<Found, Fault>
    requires reader { OnImage (S.state image.old) (λ bytes. IsFindingsOf bytes findings.old) }
    requires begun { IsBegun findings.old }
    requires limit { limit ≡ most_clusters findings.old.header }
    ensures found { IfOk result (λ found. (found.end ≤ limit) × OnImage (S.state image.old) (λ bytes.
        let tables = tables_of findings.old in
        (found.totals ≡ finding_totals (image_findings tables bytes))
        × (found.end ≡ findings_end tables bytes))) }
    ensures reader { MovesFindings (S.state image.old) findings.old findings.new }
    ensures fault { IfErr result (IsLaterFault (S.state image.old)) }
    ensures storage { OnlyReads result (S.state image.old) (S.state image.new) }
{
    let mut found = Found {
        totals: Totals::new(),
        end: 0,
    };
    while let Some(finding) = findings.next(image)? {
        found = found.with_finding(&finding, limit)?;
    }
    Ok(found)
}

// Counts the findings of a reader that is at their start, and then the clusters in use past the end of the
// image's file. Returns the reader after these too.
fn count_clusters<'a, S: Device>(
    findings: Findings<'a>,
    image: &mut S,
    limit: u64,
) -> Result<(Findings<'a>, Found), Fault>
    requires reader { OnImage (S.state image.old) (λ bytes. IsFindingsOf bytes findings) }
    requires begun { IsBegun findings }
    requires limit { limit ≡ most_clusters findings.header }
    ensures found { IfOk result (λ found. (found.1.end ≤ limit) × OnImage (S.state image.old) (λ bytes.
        let tables = tables_of findings.entry in
        let file = file_clusters (S.state image.old).len tables.header in
        (found.1.totals ≡ cluster_totals file tables bytes) × (found.1.end ≡ findings_end tables bytes))) }
    ensures reader { IfOk result (λ found. (tables_of found.0 ≡ tables_of findings.entry)
        × OnImage (S.state image.old) (λ bytes. IsFindingsOf bytes found.0)) }
    ensures fault { IfErr result (λ fault. OnImage (S.state image.old) (λ _. IsFromOutside fault)) }
    ensures storage { OnlyReads result (S.state image.old) (S.state image.new) }
{
    let mut findings = findings;
    let found = count_findings(&mut findings, image, limit)?;
    let mut past = findings.into_past_end(image)?;
    let totals = found.totals.with_past_left(&mut past, image)?;
    Ok((past, Found { totals, ..found }))
}

// The totals and the end in bytes of an image, from a reader at the start of its findings.
fn totals_and_end<S: Device>(
    findings: Findings<'_>,
    image: &mut S,
    header: &Header,
) -> Result<(Totals, u64), Fault>
    requires reader { OnImage (S.state image.old) (λ bytes. IsFindingsOf bytes findings) }
    requires begun { IsBegun findings }
    requires header { findings.header ≡ header.now }
    ensures found { IfOk result (λ found. OnImage (S.state image.old) (λ bytes.
        let tables = tables_of findings.entry in
        (found.0 ≡ totals_within (file_clusters (S.state image.old).len header.now) tables bytes)
        × (found.1 ≡ image_end tables bytes))) }
    ensures fault { IfErr result (λ fault. OnImage (S.state image.old) (λ _. IsFromOutside fault)) }
    ensures storage { OnlyReads result (S.state image.old) (S.state image.new) }
{
    let (past, found) = count_clusters(findings, image, most_clusters(header))?;
    let mut flags = past.into_flags();
    let totals = found.totals.with_flags_left(&mut flags, image)?;
    let mut counters = flags.into_counters();
    let end = end_of_image(&mut counters, image, found.end)?;
    Ok((totals, end))
}

/// Checks an image with this header, and returns the results.
pub(super) fn take_account<S: Device>(
    alloc: Global,
    image: &mut S,
    header: &Header,
) -> Result<Account, Fault>
    ensures exact { OnImage (S.state image.old) (λ bytes.
        Answers (λ account. account) result (checked_account header.now (S.state image.old).len bytes)) }
    ensures storage { OnlyReads result (S.state image.old) (S.state image.new) }
{
    let findings = Findings::new(alloc, image, header)?;
    let (totals, image_end) = totals_and_end(findings, image, header)?;
    let entries = count_entries(alloc, image, header)?;
    Ok(Account {
        totals,
        corruptions: totals.corruptions(header)?,
        image_end,
        guest_clusters: ClusterCount::from_byte_size(header.size(), header.cluster_bits()).0,
        is_dirty: header.has_feature(IncompatibleFeatures::Dirty),
        is_corrupt: header.has_feature(IncompatibleFeatures::Corrupt),
        entries,
    })
}
