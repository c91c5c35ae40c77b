//! Checks that edits of the disk do what their plan says, keep refcounts right, and are undone by others.

use super::drawn;
use super::readings::{Readings, read_check};
use crate::kinds::{Kind, STORAGE};
use crate::numbers::put_u64;
use crate::random::Random;
use crate::text::{Listed, Mapping, Totals};
use crate::trial::{Answer, Trial, is_same_from};
use qcow2_base::Fault;

/// Plans edits of the disk, makes them, and reports what contradicts the plan or `check`.
pub(crate) fn check_edits(
    trial: &mut Trial<'_>,
    random: &mut Random,
    readings: &Readings,
) -> Result<(), Fault> {
    let words = drawn::disk_edits(trial.alloc, &trial.fields, &readings.listed, random)?;
    let line = format!(in trial.alloc; "apply IMAGE plan{words}")?;
    let plan = trial.run(Kind::Plan, line.as_str())?;
    let holds = plan.is_err() || !trial.fields.is_l1_short() && !trial.fields.is_marked();
    trial.unless(
        holds,
        line.as_str(),
        "a fault, as the L1 table is too short or the image is marked",
        "none",
    );
    let planned = trial.take_printed();
    let line = format!(in trial.alloc; "apply IMAGE{words}")?;
    let apply = trial.run(Kind::Apply, line.as_str())?;
    if is_of_storage(apply) {
        return check_torn(trial, readings, line.as_str());
    }
    let is_same = apply == plan && trial.printed() == lines_of_clusters(planned.as_slice());
    // edits of overlapping tables change what later edits find
    let is_same = is_same || !readings.lie_apart();
    trial.unless(is_same, line.as_str(), "what the plan says", "another end");
    match apply {
        Ok(_) => check_kept_books(trial, readings, line.as_str())?,
        Err(_) => {
            let is_kept = !readings.lie_apart() || trial.is_kept();
            trial.unless(is_kept, line.as_str(), "each byte as before", "others");
        }
    }
    trial.restore()
}

// The lines of a plan on clusters: all except a last line with the number of stale bitmaps.
fn lines_of_clusters(planned: &[u8]) -> &str {
    let planned = std::str::from_utf8(planned).unwrap_or("");
    match planned.split_once("stale-bitmaps ") {
        Some((lines, _)) => lines,
        None => planned,
    }
}

fn is_of_storage(answer: Answer) -> bool {
    match answer {
        Ok(_) => false,
        Err(fault) => fault.number() == STORAGE,
    }
}

// Checks an image after edits, and reports findings that edits can't cause.
fn check_kept_books(trial: &mut Trial<'_>, readings: &Readings, line: &str) -> Result<(), Fault> {
    let (check, totals) = read_check(trial)?;
    if !readings.lie_apart() {
        return Ok(());
    }
    let holds = check.is_ok() && keeps_books(&readings.totals, &totals);
    trial.unless(holds, line, "no new findings of `check`", "some");
    Ok(())
}

// Whether edits of the disk may leave these findings in an image whose tables don't overlap. Refcounts keep
// their distance to the references: as many clusters are leaked, and no more are missing. If none was
// missing, none is shared, and no copied flag is false unless one was. A flag may be late.
fn keeps_books(before: &Totals, after: &Totals) -> bool {
    let brings_errors = before.missing == 0
        && (after.shared != 0 || before.false_flags == 0 && after.false_flags != 0);
    after.leaked == before.leaked && after.missing <= before.missing && !brings_errors
}

// Checks an image after a refused write interrupted edits: without errors before, it has leaks at most.
fn check_torn(trial: &mut Trial<'_>, readings: &Readings, line: &str) -> Result<(), Fault> {
    let (check, totals) = read_check(trial)?;
    if readings.lie_apart() && !readings.totals.has_errors() {
        let holds = check.is_ok() && !totals.has_errors();
        trial.unless(holds, line, "leaks at most", "errors");
    }
    trial.restore()
}

/// Discards a guest cluster of data, maps it again, and reports what isn't as before.
pub(crate) fn check_undone(
    trial: &mut Trial<'_>,
    random: &mut Random,
    readings: &Readings,
) -> Result<(), Fault> {
    let Some((offset, cluster)) = drawn_data(trial, random, readings) else {
        return Ok(());
    };
    let line = format!(in trial.alloc; "apply IMAGE discard:{offset:#x}")?;
    let discard = trial.run(Kind::Apply, line.as_str())?;
    let freed = format!(in trial.alloc; "freed {cluster} 1\n")?;
    if discard.is_err() || trial.printed() != freed.as_str() {
        return trial.restore();
    }
    let line = format!(in trial.alloc; "apply IMAGE map:{offset}:{cluster}")?;
    let map = trial.run(Kind::Apply, line.as_str())?;
    let gained = format!(in trial.alloc; "gained {cluster}\n")?;
    let is_mapped = map.is_ok() && trial.printed() == gained.as_str();
    trial.unless(
        is_mapped,
        line.as_str(),
        gained.as_str().trim_end(),
        "another end",
    );
    let mut expected = Vec::from_slice(trial.alloc, trial.before)?;
    if trial.fields.has_autoclear {
        put_u64(&mut expected, 88, 0);
    }
    let holds = is_same_from(trial.bytes(), expected.as_slice(), 0);
    trial.unless(
        holds,
        line.as_str(),
        "each byte as before, once undone",
        "others",
    );
    trial.restore()
}

// The guest offset and the host cluster of data that is listed as copied, in an image without errors.
fn drawn_data(trial: &Trial<'_>, random: &mut Random, readings: &Readings) -> Option<(u64, u64)> {
    if !readings.lie_apart() || readings.totals.has_errors() || trial.fields.is_external {
        return None;
    }
    let index = random.below(readings.listed.len() as u64) as usize;
    match readings.listed.as_slice().get(index) {
        Some(
            Listed {
                label,
                mapping: Mapping::Data {
                    offset,
                    is_copied: true,
                },
            },
        ) => Some((*label, trial.fields.cluster_of(*offset))),
        _ => None,
    }
}
