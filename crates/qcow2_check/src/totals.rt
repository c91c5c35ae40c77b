//! The sums of a check by kind of error, and the verdict on them.

ghost use Rattle.std.specs.Prelude.{◌≡◌, ◌+◌, if◌then◌else◌, IfErr, IfOk, IsOkUnless, length};
ghost use Rattle.qcow2_base.specs.Storage.{OnImage, OnlyReads};
ghost use Rattle.qcow2_base.specs.declared.fault.Fault.TheVariants.{NoMemory};
ghost use Rattle.qcow2_check.specs.Findings.{IsFindingsOf, IsLaterFault, MovesFindings, findings_left};
ghost use Rattle.qcow2_check.specs.Flags.{IsFlagsOf, MovesFlags, flags_left};
ghost use Rattle.qcow2_check.specs.Totals.{corruptions_in, harms_nobody, is_harmed, no_totals, verdict_in, verdict_of, with_clusters, with_flag, with_flags, with_past};

use crate::findings::{Finding, Findings};
use crate::flags::{Flags, WrongFlag};
use crate::l1_length::is_l1_short;
use crate::verdict::Verdict;
use qcow2_base::{Fault, Storage};
use qcow2_metadata::{Header, IncompatibleFeatures};

/// The numbers of wrong clusters and copied flags that a check found. A cluster may count in several.
#[derive(Clone, Copy, Debug, PartialEq, Eq)]
pub struct Totals {
    /// Clusters whose refcount is greater than their number of references.
    pub leaked: u64,
    /// Clusters whose refcount is smaller than their number of references.
    pub missing: u64,
    /// Clusters whose references exclude each other.
    pub shared: u64,
    /// Clusters that have references though they begin past the end of the image's file.
    pub past: u64,
    /// Copied flags that are set though the cluster's refcount isn't 1.
    pub false_flags: u64,
    /// Copied flags that aren't set though the refcount is 1 or the cluster has none.
    pub late_flags: u64,
}

// The sum of two numbers. No image has enough clusters or flags to overflow it.
fn sum(total: u64, more: u64) -> Result<u64, Fault>
    ensures fault { IsOkUnless result NoMemory }
    ensures sum { IfOk result (λ sum. sum ≡ total + more) }
{
    total.checked_add(more).ok_or(Fault::NoMemory)
}

// `count` if the clusters are of a kind, else 0.
fn count_if(is_kind: bool, count: u64) -> u64
    ensures { result ≡ (if is_kind then count else 0) }
{
    if is_kind { count } else { 0 }
}

// Whether an image with this header has damage that isn't counted: it is marked corrupt, or its L1 table is
// too short for the disk.
fn is_harmed(header: &Header) -> bool
    ensures { result ≡ is_harmed header.now }
{
    header.has_feature(IncompatibleFeatures::Corrupt) || is_l1_short(header)
}

impl Totals {
    /// The totals before anything is found.
    pub fn new() -> Totals
        ensures { result ≡ no_totals }
    {
        Totals {
            leaked: 0,
            missing: 0,
            shared: 0,
            past: 0,
            false_flags: 0,
            late_flags: 0,
        }
    }

    /// Adds `count` clusters with this finding to the totals. Fails if a sum doesn't fit 64 bits (fault 35).
    pub fn with_clusters(self, finding: &Finding, count: u64) -> Result<Totals, Fault>
        ensures fault { IsOkUnless result NoMemory }
        ensures totals { IfOk result (λ totals. totals ≡ with_clusters self finding.now count) }
    {
        Ok(Totals {
            leaked: sum(self.leaked, count_if(finding.is_leaked(), count))?,
            missing: sum(self.missing, count_if(finding.is_missing(), count))?,
            shared: sum(self.shared, count_if(finding.shared, count))?,
            ..self
        })
    }

    /// Adds `count` clusters past the end of the image's file to the totals. Fails if the sum doesn't fit 64
    /// bits (fault 35).
    pub fn with_past(self, count: u64) -> Result<Totals, Fault>
        ensures fault { IsOkUnless result NoMemory }
        ensures totals { IfOk result (λ totals. totals ≡ with_past self count) }
    {
        Ok(Totals {
            past: sum(self.past, count)?,
            ..self
        })
    }

    /// Adds a wrong flag to the totals. Fails if a sum doesn't fit 64 bits (fault 35).
    pub fn with_flag(self, flag: &WrongFlag) -> Result<Totals, Fault>
        ensures fault { IsOkUnless result NoMemory }
        ensures totals { IfOk result (λ totals. totals ≡ with_flag self flag.now) }
    {
        Ok(Totals {
            false_flags: sum(self.false_flags, u64::from(flag.is_set))?,
            late_flags: sum(self.late_flags, u64::from(!flag.is_set))?,
            ..self
        })
    }

    /// Adds all clusters that a reader of clusters past the end of the image's file has left to the totals.
    ///
    /// Fails if the storage fails or memory runs out. Changes no byte.
    pub fn with_past_left<S: Storage>(
        self,
        past: &mut Findings<'_>,
        image: &mut S,
    ) -> Result<Totals, Fault>
        requires { OnImage (S.state image.old) (λ bytes. IsFindingsOf bytes past.old) }
        ensures totals { IfOk result (λ totals. OnImage (S.state image.old) (λ bytes.
            totals ≡ with_past self (length (findings_left past.old bytes)))) }
        ensures reader { MovesFindings (S.state image.old) past.old past.new }
        ensures fault { IfErr result (IsLaterFault (S.state image.old)) }
        ensures storage { OnlyReads result (S.state image.old) (S.state image.new) }
    {
        let mut totals = self;
        while past.next(image)?.is_some() {
            totals = totals.with_past(1)?;
        }
        Ok(totals)
    }

    /// Adds all wrong flags that a reader has left to the totals.
    ///
    /// Fails if the storage fails or memory runs out. Changes no byte.
    pub fn with_flags_left<S: Storage>(
        self,
        flags: &mut Flags<'_>,
        image: &mut S,
    ) -> Result<Totals, Fault>
        requires { OnImage (S.state image.old) (λ bytes. IsFlagsOf bytes flags.old) }
        ensures totals { IfOk result (λ totals. OnImage (S.state image.old) (λ bytes.
            totals ≡ with_flags self (flags_left flags.old bytes))) }
        ensures reader { MovesFlags (S.state image.old) flags.old flags.new }
        ensures fault { IfErr result (IsLaterFault (S.state image.old)) }
        ensures storage { OnlyReads result (S.state image.old) (S.state image.new) }
    {
        let mut totals = self;
        while let Some(flag) = flags.next(image)? {
            totals = totals.with_flag(&flag)?;
        }
        Ok(totals)
    }

    /// Returns the number of corruptions in an image with this header: those that QEMU counts, and one more
    /// if the L1 table is too short for the disk, since QEMU doesn't open such an image. Fails if the sum
    /// doesn't fit 64 bits (fault 35).
    #[tactic(auto, unfolding(crate::specs::Totals::corruptions_in))]
    pub fn corruptions(&self, header: &Header) -> Result<u64, Fault>
        ensures fault { IsOkUnless result NoMemory }
        ensures sum { IfOk result (λ sum. sum ≡ corruptions_in header.now self.now) }
    {
        let clusters = sum(self.missing, self.past)?;
        let found = sum(sum(clusters, self.false_flags)?, self.late_flags)?;
        sum(found, u64::from(is_l1_short(header)))
    }

    // Whether the check found nothing that may destroy data.
    fn harms_nobody(&self) -> bool
        ensures { result ≡ harms_nobody self.now }
    {
        self.missing == 0 && self.shared == 0 && self.past == 0 && self.false_flags == 0
    }

    // The verdict on the findings alone, whatever the header says.
    fn found_verdict(&self) -> Verdict
        ensures { result ≡ verdict_of self.now }
    {
        if !self.harms_nobody() {
            Verdict::Harmful
        } else if self.leaked == 0 && self.late_flags == 0 {
            Verdict::Fine
        } else {
            Verdict::Harmless
        }
    }

    /// The verdict on an image with this header. It is `Harmful` if the image is marked corrupt. It also is
    /// if the L1 table is too short for the disk, since clusters that seem leaked may then be in use.
    pub fn verdict(&self, header: &Header) -> Verdict
        ensures { result ≡ verdict_in header.now self.now }
    {
        if is_harmed(header) {
            return Verdict::Harmful;
        }
        self.found_verdict()
    }
}
