//! Runs of findings of neighbouring clusters.

ghost use Rattle.std.specs.Prelude.{◌≡◌, ◌+◌, ◌^◌, ◌<◌};
ghost use Rattle.qcow2_session.specs.Commands.Check.Runs.{goes_on, single};

use qcow2_base::{Fault, Storage};
use qcow2_check::{Finding, Findings};
use std::marker::Model;

/// Consecutive clusters with the same finding.
#[derive(Clone, Copy)]
pub struct FindingRun {
    // The finding of the first cluster.
    pub(super) first: Finding,
    // The number of clusters.
    pub(super) count: u64,
}

impl FindingRun {
    // The run of one finding.
    fn new(first: Finding) -> FindingRun
        ensures { result ≡ single first }
    {
        FindingRun { first, count: 1 }
    }

    // Whether a finding extends the run: it is of the next cluster, and otherwise the same.
    fn goes_on(&self, finding: &Finding) -> bool
        requires { self.now.first.cluster.0 + self.now.count < 2 ^ 64 }
        ensures { result ≡ goes_on self.now finding.now }
    {
        finding.cluster.0 == self.first.cluster.0 + self.count
            && finding.counter == self.first.counter
            && finding.uses == self.first.uses
            && finding.shared == self.first.shared
    }
}

/// A reader of the runs of an image's findings.
#[derive(Drop)]
pub(super) struct FindingRuns<'a> {
    findings: Findings<'a>,
    // The finding after the last run, read to see where that run ends.
    ahead: Option<Finding>,
}

impl<'a> Model for FindingRuns<'a> {
    ghost use Rattle.std.specs.Prelude.{◌<◌, IfSome};
    ghost use Rattle.qcow2_session.specs.Commands.Check.Runs.{RunsState};

    ghost Value = { RunsState };

    ghost view = { λ r. record { findings = r.findings; ahead = r.ahead } };

    ghost invariant = { λ r. IfSome r.ahead (λ finding. finding.cluster.0 < r.findings.position) };
}

impl<'a> FindingRuns<'a> {
    ghost use Rattle.std.specs.Prelude.{◌≡◌, ◌<◌, ◌≤◌, ◌∷◌, IfErr, IfOk, IfSome, None};
    ghost use Rattle.qcow2_base.specs.Storage.{OnImage, OnlyReads};
    ghost use Rattle.qcow2_check.specs.Findings.{IsFindingsOf, IsLaterFault, MovesFindings, findings_left};
    ghost use Rattle.qcow2_session.specs.Commands.Check.Runs.{TakesFirst, all_left, runs_of, most_left, runs_left};

    /// Makes a reader of the runs of the findings that a reader has left.
    pub(super) fn new(findings: Findings<'a>) -> FindingRuns<'a>
        ensures { result ≡ record { findings = findings.entry; ahead = None } }
    {
        FindingRuns {
            findings,
            ahead: None,
        }
    }

    /// Returns the reader of findings, which is at its end if this one is.
    pub(super) fn into_findings(self) -> Findings<'a>
        ensures { result ≡ self.entry.findings }
    {
        self.findings
    }

    /// Returns the next run, or nothing after the last. After a fault a run may be lost.
    pub(super) fn next<S: Storage>(&mut self, image: &mut S) -> Result<Option<FindingRun>, Fault>
        requires { OnImage (S.state image.old) (λ bytes. IsFindingsOf bytes self.old.findings) }
        ensures run { OnImage (S.state image.old) (λ bytes.
            TakesFirst (runs_left self.old bytes) (runs_left self.new bytes) result) }
        ensures further { IfOk result (λ run. IfSome run (λ _. most_left self.new < most_left self.old)) }
        ensures reader { MovesFindings (S.state image.old) self.old.findings self.new.findings }
        ensures fault { IfErr result (IsLaterFault (S.state image.old)) }
        ensures storage { OnlyReads result (S.state image.old) (S.state image.new) }
    {
        let Some(first) = self.take_finding(image)? else {
            return Ok(None);
        };
        Ok(Some(self.run_from(image, first)?))
    }

    // Returns the finding that was read ahead, or else the next one.
    fn take_finding<S: Storage>(&mut self, image: &mut S) -> Result<Option<Finding>, Fault>
        requires { OnImage (S.state image.old) (λ bytes. IsFindingsOf bytes self.old.findings) }
        ensures finding { OnImage (S.state image.old) (λ bytes. TakesFirst
            (all_left self.old bytes) (findings_left self.new.findings bytes) result) }
        ensures further { IfOk result (λ found. IfSome found (λ finding.
            (most_left self.new < most_left self.old) × (finding.cluster.0 < self.new.findings.position))) }
        ensures reader { MovesFindings (S.state image.old) self.old.findings self.new.findings
            × (self.new.ahead ≡ None) }
        ensures fault { IfErr result (IsLaterFault (S.state image.old)) }
        ensures storage { OnlyReads result (S.state image.old) (S.state image.new) }
    {
        match self.ahead.take() {
            Some(finding) => Ok(Some(finding)),
            None => self.findings.next(image),
        }
    }

    // Returns the run that begins with a finding, the last one read.
    fn run_from<S: Storage>(&mut self, image: &mut S, first: Finding) -> Result<FindingRun, Fault>
        requires reader { OnImage (S.state image.old) (λ bytes. IsFindingsOf bytes self.old.findings) }
        requires first { first.cluster.0 < self.old.findings.position }
        requires none { self.old.ahead ≡ None }
        ensures run { IfOk result (λ run. OnImage (S.state image.old) (λ bytes.
            runs_of (first ∷ findings_left self.old.findings bytes) ≡ run ∷ runs_left self.new bytes)) }
        ensures further { most_left self.new ≤ most_left self.old }
        ensures reader { MovesFindings (S.state image.old) self.old.findings self.new.findings }
        ensures fault { IfErr result (IsLaterFault (S.state image.old)) }
        ensures storage { OnlyReads result (S.state image.old) (S.state image.new) }
    {
        let mut run = FindingRun::new(first);
        while let Some(finding) = self.findings.next(image)? {
            if !run.goes_on(&finding) {
                self.ahead = Some(finding);
                return Ok(run);
            }
            run.count += 1;
        }
        Ok(run)
    }
}
