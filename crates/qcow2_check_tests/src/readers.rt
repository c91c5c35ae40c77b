//! The tested calls, without their contracts.

use qcow2_base::{Device, Fault, HostCluster, MAX_FILE_LENGTH, Storage};
use qcow2_check::{Counters, Finding, Findings, FlagPlace, WrongFlag};
use qcow2_metadata::{AcceptedFeatures, Header};
use qcow2_repair::repair_image;
use qcow2_summary::is_consistent;
use qcow2_testing::damages::{FoundCluster, FoundFlag, FoundPlace};
use std::alloc::Global;

// Loads the header of an image, which may be marked.
fn header_of<S: Storage>(alloc: Global, image: &mut S) -> Result<Header, Fault> {
    Header::load_accepting(alloc, image, false, AcceptedFeatures::each())
}

/// Returns the findings of an image in order, the first hundred at most.
pub(crate) fn findings_of<S: Storage>(
    alloc: Global,
    image: &mut S,
) -> Result<Vec<FoundCluster>, Fault> {
    let header = header_of(alloc, image)?;
    let mut found = Vec::new(alloc);
    read_findings(alloc, image, &header, &mut found)?;
    Ok(found)
}

fn read_findings<S: Storage>(
    alloc: Global,
    image: &mut S,
    header: &Header,
    found: &mut Vec<FoundCluster>,
) -> Result<(), Fault> {
    let mut findings = Findings::new(alloc, image, header)?;
    for _ in 0..100 {
        let Some(finding) = findings.next(image)? else {
            return Ok(());
        };
        found.push(cluster_of(&finding))?;
    }
    Ok(())
}

/// Returns the clusters past the end of an image that have references, in order, the first hundred at most.
/// The reader has returned `before` of the image's findings then.
pub(crate) fn past_end_of<S: Device>(
    alloc: Global,
    image: &mut S,
    before: usize,
) -> Result<Vec<FoundCluster>, Fault> {
    let header = header_of(alloc, image)?;
    let mut found = Vec::new(alloc);
    read_past(alloc, image, &header, before, &mut found)?;
    Ok(found)
}

fn read_past<S: Device>(
    alloc: Global,
    image: &mut S,
    header: &Header,
    before: usize,
    found: &mut Vec<FoundCluster>,
) -> Result<(), Fault> {
    let mut findings = Findings::new(alloc, image, header)?;
    for _ in 0..before {
        findings.next(image)?;
    }
    let mut past = findings.into_past_end(image)?;
    for _ in 0..100 {
        let Some(finding) = past.next(image)? else {
            return Ok(());
        };
        found.push(cluster_of(&finding))?;
    }
    Ok(())
}

fn cluster_of(finding: &Finding) -> FoundCluster {
    FoundCluster {
        cluster: finding.cluster.0,
        counter: finding.counter,
        uses: finding.uses,
        shared: finding.shared,
    }
}

/// Returns the wrong flags of an image in order, the first hundred at most. After a failed read it calls the
/// reader again.
pub(crate) fn flags_of<S: Storage>(alloc: Global, image: &mut S) -> Result<Vec<FoundFlag>, Fault> {
    let header = header_of(alloc, image)?;
    let mut found = Vec::new(alloc);
    read_flags(alloc, image, &header, &mut found)?;
    Ok(found)
}

fn read_flags<S: Storage>(
    alloc: Global,
    image: &mut S,
    header: &Header,
    found: &mut Vec<FoundFlag>,
) -> Result<(), Fault> {
    let mut flags = Findings::new(alloc, image, header)?.into_flags();
    for _ in 0..100 {
        match flags.next(image) {
            Ok(Some(flag)) => found.push(flag_of(&flag))?,
            Ok(None) => return Ok(()),
            Err(Fault::Storage) => {}
            Err(fault) => return Err(fault),
        }
    }
    Ok(())
}

fn flag_of(flag: &WrongFlag) -> FoundFlag {
    let place = match flag.place {
        FlagPlace::L1Index(index) => FoundPlace::L1Index(index),
        FlagPlace::Offset(offset) => FoundPlace::Offset(offset.0),
    };
    FoundFlag {
        place,
        cluster: flag.cluster.0,
        counter: flag.counter,
        is_set: flag.is_set,
    }
}

/// Returns the refcounts of these clusters.
pub(crate) fn counters_of<S: Storage>(
    alloc: Global,
    image: &mut S,
    clusters: &[u64],
) -> Result<Vec<u64>, Fault> {
    let header = header_of(alloc, image)?;
    let mut found = Vec::new(alloc);
    read_counters(alloc, image, &header, clusters, &mut found)?;
    Ok(found)
}

/// Returns the cluster up to which the refcount table shows, without a read, that no refcounts of unused
/// clusters are reported from one on. It is at most `limit`.
pub(crate) fn free_end_of<S: Storage>(
    alloc: Global,
    image: &mut S,
    from: u64,
    limit: u64,
) -> Result<u64, Fault> {
    let header = header_of(alloc, image)?;
    let counters = Counters::new(alloc, image, &header)?;
    let from = HostCluster(from.min(limit).min(MAX_FILE_LENGTH - 1));
    Ok(counters.free_end(from, limit))
}

fn read_counters<S: Storage>(
    alloc: Global,
    image: &mut S,
    header: &Header,
    clusters: &[u64],
    found: &mut Vec<u64>,
) -> Result<(), Fault> {
    let mut counters = Counters::new(alloc, image, header)?;
    for cluster in clusters {
        found.push(counters.get(image, HostCluster(*cluster))?)?;
    }
    Ok(())
}

/// Whether an image is consistent.
pub(crate) fn is_image_consistent<S: Storage>(alloc: Global, image: &mut S) -> Result<bool, Fault> {
    let header = header_of(alloc, image)?;
    is_consistent(alloc, image, &header)
}

/// Repairs an image.
pub(crate) fn repaired<S: Device>(alloc: Global, image: &mut S) -> Result<(), Fault> {
    let header = header_of(alloc, image)?;
    repair_image(alloc, image, header)?;
    Ok(())
}
