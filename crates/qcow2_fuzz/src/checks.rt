//! Checks of an image: runs all commands, and compares what they print and leave.

mod agreement;
mod applies;
mod books;
mod counts;
mod drawn;
mod edits;
mod explanations;
mod json;
mod readings;
mod repairs;

use crate::kinds::Kind;
use crate::random::Random;
use crate::trial::Trial;
use qcow2_base::Fault;
use readings::Readings;

/// Each command once, for an image whose header is refused.
const LINES: &[(Kind, &str)] = &[
    (Kind::List, "list IMAGE"),
    (Kind::Map, "map IMAGE"),
    (Kind::Map, "map IMAGE json"),
    (Kind::At, "at IMAGE 0"),
    (Kind::Tables, "tables IMAGE"),
    (Kind::Layout, "layout IMAGE"),
    (Kind::Layout, "layout IMAGE svg"),
    (Kind::Refcount, "refcount IMAGE 0 1"),
    (Kind::Check, "check IMAGE"),
    (Kind::Check, "check IMAGE json"),
    (Kind::Repair, "check IMAGE repair"),
    (Kind::Plan, "apply IMAGE plan discard:0"),
    (Kind::Apply, "apply IMAGE discard:0"),
    (Kind::Edit, "edit IMAGE 0 discard:0"),
    (Kind::Count, "count IMAGE 1 inc:0"),
    (Kind::L2, "l2 IMAGE 9 1"),
];

/// Runs all commands on an image, and reports what doesn't hold.
pub(crate) fn check_image(trial: &mut Trial<'_>, random: &mut Random) -> Result<(), Fault> {
    if let Err(fault) = trial.run(Kind::Info, "info IMAGE")? {
        return check_refusal(trial, fault);
    }
    let readings = readings::read(trial, random)?;
    agreement::check_map(trial, &readings)?;
    agreement::check_lookups(trial, random, &readings)?;
    books::check_books(trial, random, &readings)?;
    explanations::check_faults(trial, &readings)?;
    check_changes(trial, random, &readings)
}

// Runs the commands that change the image, each on the original image.
fn check_changes(
    trial: &mut Trial<'_>,
    random: &mut Random,
    readings: &Readings,
) -> Result<(), Fault> {
    edits::check_undone(trial, random, readings)?;
    edits::run_any(trial, random)?;
    counts::check_undone(trial, random)?;
    counts::run_any(trial, random)?;
    applies::check_edits(trial, random, readings)?;
    applies::check_undone(trial, random, readings)?;
    repairs::check_repair(trial, readings)
}

// Runs each command on an image whose header is refused. Each run checks that it returns the same fault.
fn check_refusal(trial: &mut Trial<'_>, fault: Fault) -> Result<(), Fault> {
    trial.set_header_fault(Some(fault));
    for (kind, line) in LINES {
        trial.restore()?;
        let _answer = trial.run(*kind, line)?;
    }
    explanations::check_fault(trial, fault)
}
