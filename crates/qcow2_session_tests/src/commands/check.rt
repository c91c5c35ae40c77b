//! The command `check` on damaged images: its lines, its statuses, and its refusals.

use super::in_memory::run_command;
use super::run::Ended::{self, Done, Failed, Harmful, Harmless};
use super::whole_images::{RUN, Run, check_run};
use crate::failing_output::{FailingOutput, Failure};
use qcow2_base::{Fault, MemStorage};
use qcow2_calls::load_header;
use qcow2_session::Verdict;
use qcow2_session_calls::check_image;
use qcow2_testing::damages::{Damage, Refused, damages, refused_images};
use qcow2_testing::sample_image::{check_sample, sample_image};
use qcow2_testing::{Numbers, each, same};
use std::alloc::Global;
use std::test::Fail;

/// Returns the verdict on an image with this damage.
pub(super) fn verdict_of(row: &Damage) -> Verdict {
    let totals = row.totals();
    let harms = [
        totals.missing,
        totals.shared,
        totals.past,
        totals.false_flags,
    ];
    let is_harmful = harms.iter().any(|count| *count > 0);
    if is_harmful || row.is_short {
        return Verdict::Harmful;
    }
    if totals.leaked > 0 || totals.late_flags > 0 {
        return Verdict::Harmless;
    }
    Verdict::Fine
}

#[test]
fn a_check_prints_what_is_wrong_and_changes_nothing(rt: HostRuntime) -> Result<(), Fail> {
    for rows in damages() {
        each(rt.alloc(), rows, check_checked)?;
    }
    Ok(())
}

fn check_checked(alloc: Global, row: Damage) -> Result<(), Fail> {
    let mut image = sample_image(alloc, 9, row.changes)?;
    check_lines(alloc, &mut image, &row)?;
    check_sample(alloc, image.bytes(), (9, row.changes), row.name)
}

fn check_lines(alloc: Global, image: &mut MemStorage, row: &Damage) -> Result<(), Fail> {
    let mut out = FailingOutput::new(alloc, Failure::Never);
    let verdict = checked(alloc, image, &mut out);
    let found = (verdict, std::str::from_utf8(out.bytes())?);
    same(found, (Ok(verdict_of(row)), row.lines), row.name)
}

fn checked(
    alloc: Global,
    image: &mut MemStorage,
    out: &mut FailingOutput,
) -> Result<Verdict, Fault> {
    let header = load_header(alloc, image, false)?;
    check_image(alloc, image, &header, out)
}

#[test]
fn the_program_ends_with_the_status_of_the_verdict(rt: HostRuntime) -> Result<(), Fail> {
    for rows in damages() {
        check_statuses(&rt, rows)?;
    }
    Ok(())
}

fn check_statuses(rt: &HostRuntime, rows: &[Damage]) -> Result<(), Fail> {
    for row in rows {
        let run = run_over(row.changes, ended_by(verdict_of(row), row.lines));
        check_run(rt, "checked", &run)?;
    }
    Ok(())
}

// Returns a run of a check that leaves its image unchanged.
fn run_over<'a>(before: Numbers<'a>, ended: Ended<'a>) -> Run<'a> {
    Run {
        line: "check IMAGE",
        before,
        ended,
        after: before,
        ..RUN
    }
}

/// Returns the end of a check with this verdict and output.
pub(crate) fn ended_by(verdict: Verdict, text: &str) -> Ended<'_> {
    match verdict {
        Verdict::Fine => Done(text),
        Verdict::Harmless => Harmless(text),
        Verdict::Harmful => Harmful(text),
    }
}

#[test]
fn an_image_that_cannot_be_checked_is_refused_before_any_line(rt: HostRuntime) -> Result<(), Fail> {
    for rows in refused_images() {
        each(rt.alloc(), rows, check_refused)?;
        check_unchecked(&rt, rows)?;
    }
    Ok(())
}

fn check_unchecked(rt: &HostRuntime, rows: &[Refused]) -> Result<(), Fail> {
    for row in rows {
        let reported = format!(in rt.alloc(); "qmeta: fault {}\n", row.fault.number())?;
        let run = run_over(row.changes, Failed("", reported.as_str()));
        check_run(rt, "unchecked", &run)?;
    }
    Ok(())
}

fn check_refused(alloc: Global, row: Refused) -> Result<(), Fail> {
    let mut image = sample_image(alloc, 9, row.changes)?;
    for line in ["check IMAGE", "check IMAGE json", "check IMAGE repair"] {
        check_refused_line(alloc, &mut image, line, &row)?;
    }
    check_sample(alloc, image.bytes(), (9, row.changes), row.name)
}

// Fails unless the line is refused, and prints nothing.
fn check_refused_line(
    alloc: Global,
    image: &mut MemStorage,
    line: &str,
    row: &Refused,
) -> Result<(), Fail> {
    let mut out = FailingOutput::new(alloc, Failure::Never);
    let answer = run_command(alloc, image, line, &mut out)?;
    let place = (row.name, line);
    same((answer, out.bytes()), (Some(Err(row.fault)), &[]), place)
}
