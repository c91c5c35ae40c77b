//! Checks that `explain` finds each fault that a command returned for the image.

use super::readings::Readings;
use crate::trial::Trial;
use qcow2_base::Fault;

/// The text of `explain` if it doesn't find the fault.
const NONE: &str = "in IMAGE: this image doesn't have this fault\n";

/// Runs `explain` on the fault of `check`, or else of `list`.
pub(crate) fn check_faults(trial: &mut Trial<'_>, readings: &Readings) -> Result<(), Fault> {
    match (readings.check, readings.list) {
        (Err(fault), _) | (_, Err(fault)) => check_fault(trial, fault),
        _ => Ok(()),
    }
}

/// Runs `explain` on a fault of the image, and reports it if it finds nothing.
pub(crate) fn check_fault(trial: &mut Trial<'_>, fault: Fault) -> Result<(), Fault> {
    let lines = trial.explain(fault)?;
    let is_found = lines.as_str() != NONE && lines.as_str().starts_with("in IMAGE: ");
    let number = fault.number();
    let line = format!(in trial.alloc; "explain {number} IMAGE")?;
    trial.unless(is_found, line.as_str(), "where the fault is", "nothing");
    Ok(())
}
