//! Checks that a repair leaves what it prints, that a second one changes nothing, and that the disk reads
//! as before.

use super::readings::Readings;
use crate::fields::Fields;
use crate::kinds::Kind;
use crate::text::{Totals, extents_in, totals_in};
use crate::trial::Trial;
use qcow2_base::Fault;

/// Repairs the image, and reports what doesn't hold.
pub(crate) fn check_repair(trial: &mut Trial<'_>, readings: &Readings) -> Result<(), Fault> {
    let line = "check IMAGE repair";
    let repair = trial.run(Kind::Repair, line)?;
    let holds = repair.is_err() || !trial.fields.is_l1_short();
    trial.unless(holds, line, "a fault, as the L1 table is too short", "none");
    if repair.is_err() {
        return trial.restore();
    }
    let printed = trial.take_printed();
    let repaired = Vec::from_slice(trial.alloc, trial.bytes())?;
    let check = trial.run(Kind::Check, "check IMAGE")?;
    let is_same = check == repair && trial.printed().as_bytes() == printed.as_slice();
    trial.unless(is_same, line, "what `check` prints then", "other findings");
    let totals = totals_in(trial.printed());
    check_left(trial, totals, Fields::of(repaired.as_slice()));
    let again = trial.run(Kind::Repair, line)?;
    let is_same = again == repair && trial.printed().as_bytes() == printed.as_slice();
    trial.unless(is_same, line, "the same, once repaired", "another end");
    let is_kept = trial.bytes() == repaired.as_slice();
    trial.unless(is_kept, line, "each byte kept by a second repair", "others");
    let map = trial.run(Kind::Map, "map IMAGE")?;
    let extents = extents_in(trial.alloc, trial.printed())?;
    let is_kept = map == readings.map
        && extents.is_some_and(|extents| extents.as_slice() == readings.extents.as_slice());
    trial.unless(is_kept, line, "a disk that reads as before", "another one");
    trial.restore()
}

// Reports totals of a repaired image, or marks of its header, that a repair can't leave.
fn check_left(trial: &mut Trial<'_>, totals: Option<Totals>, left: Fields) {
    let line = "check IMAGE repair";
    // clusters that no block counts may stay, and flags of entries that name them
    let is_repaired = totals.is_some_and(|totals| totals.leaked == 0
        && totals.shared == 0
        && totals.late_flags == 0);
    trial.unless(
        is_repaired,
        line,
        "missing clusters and false flags at most",
        "others",
    );
    let is_clean = totals.is_some_and(|totals| !totals.has_errors());
    let before = trial.fields;
    let holds = left.is_dirty == (before.is_dirty && !is_clean)
        && left.is_corrupt == (before.is_corrupt && !is_clean);
    trial.unless(
        holds,
        line,
        "marks exactly if something stays wrong",
        "others",
    );
}
