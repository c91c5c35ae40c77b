//! The search for the first cluster or L2 table whose refcount or references make a command refuse.

ghost use Rattle.std.specs.Prelude.{IsErrOf};
ghost use Rattle.qcow2_base.specs.Storage.{OnImage, ReadsFor};
ghost use Rattle.qcow2_base.specs.declared.fault.Fault.TheVariants.{Storage as StorageFailed};
ghost use Rattle.qcow2_check.specs.Counters.{IsKeptBlockOf};
ghost use Rattle.qcow2_check.specs.Findings.{IsFindingsOf};

use super::places::{Place, entry_offset};
use super::refusals::Refusal;
use qcow2_base::{Fault, Storage};
use qcow2_check::{Counters, Finding, Findings, load_l1_table, named_cluster};
use qcow2_metadata::{Header, L1Table, Table, TableEntry};
use std::alloc::Global;

/// For fault 38, the refusal by the first cluster whose references exclude each other; for 30, by the first
/// cluster whose refcount is smaller than its number of references. A fault of `Findings::new` comes first.
/// Changes no byte.
pub(super) fn cluster_refusal<S: Storage>(
    alloc: Global,
    image: &mut S,
    header: &Header,
    fault: Fault,
) -> Result<Option<Refusal>, Fault>
    ensures storage { ReadsFor (IsErrOf result StorageFailed) (S.state image.old) (S.state image.new) }
{
    let mut findings = Findings::new(alloc, image, header)?;
    match first_about(&mut findings, image, fault)? {
        Some(finding) => Ok(Some(Refusal::at(alloc, fault, cluster_place(&finding))?)),
        None => Ok(None),
    }
}

// The first of a reader's remaining findings that makes a command refuse with a fault.
fn first_about<S: Storage>(
    findings: &mut Findings<'_>,
    image: &mut S,
    fault: Fault,
) -> Result<Option<Finding>, Fault>
    requires { OnImage (S.state image.old) (λ bytes. IsFindingsOf bytes findings.old) }
    ensures storage { ReadsFor (IsErrOf result StorageFailed) (S.state image.old) (S.state image.new) }
{
    while let Some(finding) = findings.next(image)? {
        if is_about(fault, &finding) {
            return Ok(Some(finding));
        }
    }
    Ok(None)
}

// The cluster of a finding, with its refcount and its number of references.
fn cluster_place(finding: &Finding) -> Place {
    Place::Cluster {
        cluster: finding.cluster.0,
        counter: finding.counter,
        uses: finding.uses,
    }
}

// Whether a finding makes a command refuse with a fault.
fn is_about(fault: Fault, finding: &Finding) -> bool {
    match fault {
        Fault::Overlap => finding.shared,
        _ => finding.counter < finding.uses,
    }
}

/// The refusal by the first L1 entry whose L2 table may have another reference (40): the entry has no copied
/// flag, or the table's refcount isn't 1. The faults of the tables come first. Changes no byte.
pub(super) fn shared_table_refusal<S: Storage>(
    alloc: Global,
    image: &mut S,
    header: &Header,
) -> Result<Option<Refusal>, Fault>
    ensures storage { ReadsFor (IsErrOf result StorageFailed) (S.state image.old) (S.state image.new) }
{
    let l1_table = load_l1_table(alloc, image, header)?;
    let mut counters = Counters::new(alloc, image, header)?;
    match first_shared(&mut counters, image, &l1_table)? {
        Some((l1_index, counter)) => {
            let place = shared_place(header, &l1_table, l1_index, counter);
            Ok(Some(Refusal::at(alloc, Fault::Shared(0), place)?))
        }
        None => Ok(None),
    }
}

// The index of the first L1 entry whose L2 table may have another reference, and that table's refcount.
fn first_shared<S: Storage>(
    counters: &mut Counters<'_>,
    image: &mut S,
    l1_table: &L1Table,
) -> Result<Option<(usize, u64)>, Fault>
    requires { OnImage (S.state image.old) (λ bytes.
        IsKeptBlockOf counters.old.header bytes counters.old.block) }
    ensures storage { ReadsFor (IsErrOf result StorageFailed) (S.state image.old) (S.state image.new) }
{
    for l1_index in 0..l1_table.entries() {
        if let Some(cluster) = named_cluster(l1_table, l1_index) {
            let counter = counters.get(image, cluster)?;
            if counter != 1 || !l1_table.get(l1_index).is_copied() {
                return Ok(Some((l1_index, counter)));
            }
        }
    }
    Ok(None)
}

// The place of the L1 entry at an index, whose L2 table has this refcount.
fn shared_place(header: &Header, l1_table: &L1Table, l1_index: usize, counter: u64) -> Place {
    Place::SharedTable {
        index: l1_index,
        offset: entry_offset(header.l1_table_offset().0, l1_index),
        number: l1_table.get(l1_index).to_plain(),
        counter,
    }
}
