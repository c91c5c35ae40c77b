//! The command `check`: compares refcounts and copied flags with the references, and repairs them.

ghost use Rattle.std.specs.Prelude.{◌≡◌, IfOk, IsErrOf, false, flat_map, length, map, string_bytes};
ghost use Rattle.qcow2_base.specs.Storage.{OnImage, ReadsFor};
ghost use Rattle.qcow2_base.specs.declared.fault.Fault.TheVariants.{Storage as StorageFailed};
ghost use Rattle.qcow2_check.specs.FileEnd.{file_clusters};
ghost use Rattle.qcow2_check.specs.Findings.{IsBegun, IsFindingsOf, MovesFindings, tables_of};
ghost use Rattle.qcow2_check.specs.Flags.{IsFlagsOf, flags_left};
ghost use Rattle.qcow2_check.specs.Totals.{cluster_totals, finding_totals, verdict_in, with_flags, with_past};
ghost use Rattle.qcow2_session.specs.Commands.Check.{EndsCheck, HasVerdict, PrintsLines, PrintsReport, RepairsAndChecks, check_command, checked_report, cluster_lines, prints_early, repairs, report_on};
ghost use Rattle.qcow2_session.specs.Commands.Check.Json.{checked_object};
ghost use Rattle.qcow2_session.specs.Commands.Check.Lines.{end_lines, flag_line, past_line, run_lines};
ghost use Rattle.qcow2_session.specs.Commands.Check.Runs.{all_left, runs_left};
ghost use Rattle.qcow2_session.specs.Commands.Printing.{Prints, PrintsLast, PrintsText, run_over};
ghost use Rattle.qcow2_session.specs.Commands.Words.{Parses};

use super::Command;
use super::words::FileName;
use crate::Verdict;
use crate::lines::{LineBuffer, Output, ToLine, print};
use account::take_account;
use json::print_object;
use lines::{end_lines, put_past};
use qcow2_base::{Device, Fault, Storage};
use qcow2_check::{Findings, Flags, Totals};
use qcow2_metadata::Header;
use qcow2_metadata::laws::every_header_is_valid;
use qcow2_repair::repair_image;
use runs::FindingRuns;
use std::alloc::{AllocError, Global};
use std::io::Write;

mod account;
mod json;
mod lines;
mod runs;

/// The form of a check's output, and whether it repairs the image first.
#[derive(Drop)]
pub enum CheckForm {
    /// A line for each thing that is wrong, for people.
    Text,
    /// One JSON object of numbers, as `qemu-img check --output=json` prints it.
    Json { file_name: FileName },
    /// Repairs refcounts and copied flags, and then prints what is still wrong, in lines.
    Repair,
}

/// Prints what is wrong with the refcounts and copied flags of an image with this header, and returns the
/// verdict. First come clusters whose refcount isn't their number of references, or whose references
/// exclude each other: for each run of neighbours with the same numbers a line of each kind that applies.
/// Then come clusters past the end of the file that have references, if the end is known, and wrong flags,
/// then an L1 table that is too short for the disk, and last the totals, or that the image is consistent.
///
/// Returns the fault of `Findings::new` before any line. A fault after a line is 34 or 35. A failed write
/// to `out` is the storage fault. Changes no byte of the image.
pub fn check_image<S: Device, O: Write>(
    alloc: Global,
    image: &mut S,
    header: &Header,
    out: &mut O,
) -> Result<Verdict, Fault>
    ensures prints { PrintsReport (run_over S.state O.contents result image.old image.new out.old out.new)
        (checked_report header.now (S.state image.old).len) }
    ensures storage { ReadsFor (IsErrOf result StorageFailed) (S.state image.old) (S.state image.new) }
{
    let findings = Findings::new(alloc, image, header)?;
    print_report(findings, image, header, out)
}

/// Prints the results of a check of an image with this header as one JSON object, with the name of its
/// file, and returns the verdict. Leaves out numbers that are 0, except `check-errors`.
///
/// Returns the fault of `Findings::new`, or 34 or 35, before it prints anything. A failed write to `out` is
/// the storage fault. Changes no byte of the image.
pub fn check_image_in_json<S: Device, O: Write>(
    alloc: Global,
    image: &mut S,
    header: &Header,
    file_name: &str,
    out: &mut O,
) -> Result<Verdict, Fault>
    ensures prints { Prints (run_over S.state O.contents result image.old image.new out.old out.new)
        (checked_object file_name.now header.now (S.state image.old).len) }
    ensures verdict { HasVerdict (run_over S.state O.contents result image.old image.new out.old out.new)
        (checked_report header.now (S.state image.old).len) }
    ensures last { PrintsLast (run_over S.state O.contents result image.old image.new out.old out.new) }
    ensures unchanged { (S.state image.new).byte_at ≡ (S.state image.old).byte_at }
{
    let account = take_account(alloc, image, header)?;
    let mut out = Output::new(out);
    print_object(file_name, &account, &mut out);
    out.result()?;
    Ok(account.totals.verdict(header))
}

/// Repairs the refcounts and copied flags of an image with this header, as `repair_image` does. Then prints
/// what `check_image` still finds, and returns its verdict.
///
/// Returns the fault of `repair_image` before any line; `repair_image` says what that leaves. A repaired
/// image can be checked, so a later fault is 34 or 35, and the image stays repaired.
pub fn repair_and_check_image<S: Device, O: Write>(
    alloc: Global,
    image: &mut S,
    header: Header,
    out: &mut O,
) -> Result<Verdict, Fault>
    ensures { RepairsAndChecks header
        (run_over S.state O.contents result image.old image.new out.old out.new) }
{
    // A repaired image can be checked: this is proved for valid headers.
    every_header_is_valid(&header);
    let header = repair_image(alloc, image, header)?;
    check_image(alloc, image, &header, out)
}

/// Checks an image with this header in one of the forms, and returns the verdict.
pub(super) fn check_in_form<S: Device, O: Write>(
    alloc: Global,
    image: &mut S,
    header: Header,
    form: &CheckForm,
    out: &mut O,
) -> Result<Verdict, Fault>
    ensures ends { EndsCheck form.now header
        (run_over S.state O.contents result image.old image.new out.old out.new) }
    ensures last { prints_early form.now ≡ false →
        PrintsLast (run_over S.state O.contents result image.old image.new out.old out.new) }
    ensures unchanged { repairs form.now ≡ false →
        (S.state image.new).byte_at ≡ (S.state image.old).byte_at }
{
    match form {
        CheckForm::Text => check_image(alloc, image, &header, out),
        CheckForm::Json { file_name } => {
            check_image_in_json(alloc, image, &header, file_name.as_str(), out)
        }
        CheckForm::Repair => repair_and_check_image(alloc, image, header, out),
    }
}

/// Parses the arguments of the command `check`. `json` takes the name of the image too.
pub(super) fn parse(
    alloc: Global,
    image: &str,
    arguments: &[String],
) -> Option<Result<Command, AllocError>>
    ensures { Parses result (check_command image.now (map string_bytes arguments.now)) }
{
    match arguments {
        [] => Some(Ok(Command::Check {
            form: CheckForm::Text,
        })),
        [word] if word.as_str() == "json" => match FileName::new(alloc, image) {
            Ok(file_name) => Some(Ok(Command::Check {
                form: CheckForm::Json { file_name },
            })),
            Err(error) => Some(Err(error)),
        },
        [word] if word.as_str() == "repair" => Some(Ok(Command::Check {
            form: CheckForm::Repair,
        })),
        _ => None,
    }
}

// Prints the report of a reader at the start of an image's findings, and returns the verdict.
fn print_report<S: Device, O: Write>(
    findings: Findings<'_>,
    image: &mut S,
    header: &Header,
    out: &mut O,
) -> Result<Verdict, Fault>
    requires header { findings.header ≡ header.now }
    requires reader { OnImage (S.state image.old) (λ bytes. IsFindingsOf bytes findings) }
    requires begun { IsBegun findings }
    ensures prints { PrintsLines (run_over S.state O.contents result image.old image.new out.old out.new)
        (λ bytes. let file = file_clusters (S.state image.old).len findings.entry.header in
        (report_on file (tables_of findings.entry) bytes).lines) }
    ensures verdict { IfOk result (λ verdict. OnImage (S.state image.old) (λ bytes.
        let file = file_clusters (S.state image.old).len findings.entry.header in
        verdict ≡ (report_on file (tables_of findings.entry) bytes).verdict)) }
    ensures storage { ReadsFor (IsErrOf result StorageFailed) (S.state image.old) (S.state image.new) }
{
    let (past, cluster_totals) = print_clusters(findings, image, out)?;
    let mut flags = past.into_flags();
    let totals = print_flags(&mut flags, image, cluster_totals, out)?;
    print_end(&totals, header, out)
}

// Prints the runs of a reader at the start of an image's findings, and then the clusters past the end of the
// image's file that have references. Returns the reader after these, and the totals of all.
fn print_clusters<'a, S: Device, O: Write>(
    findings: Findings<'a>,
    image: &mut S,
    out: &mut O,
) -> Result<(Findings<'a>, Totals), Fault>
    requires reader { OnImage (S.state image.old) (λ bytes. IsFindingsOf bytes findings) }
    requires begun { IsBegun findings }
    ensures prints { PrintsLines (run_over S.state O.contents result image.old image.new out.old out.new)
        (λ bytes. let file = file_clusters (S.state image.old).len findings.entry.header in
        cluster_lines file (tables_of findings.entry) bytes) }
    ensures totals { IfOk result (λ found. OnImage (S.state image.old) (λ bytes.
        let file = file_clusters (S.state image.old).len findings.entry.header in
        found.1 ≡ cluster_totals file (tables_of findings.entry) bytes)) }
    ensures reader { IfOk result (λ found. (tables_of found.0 ≡ tables_of findings.entry)
        × OnImage (S.state image.new) (λ bytes. IsFindingsOf bytes found.0)) }
    ensures storage { ReadsFor (IsErrOf result StorageFailed) (S.state image.old) (S.state image.new) }
{
    let mut runs = FindingRuns::new(findings);
    let totals = print_runs(&mut runs, image, out)?;
    let past = runs.into_findings().into_past_end(image)?;
    let mut past_runs = FindingRuns::new(past);
    let totals = print_past(&mut past_runs, image, totals, out)?;
    Ok((past_runs.into_findings(), totals))
}

// Prints the last lines of a check of an image with this header, and returns the verdict.
fn print_end<O: Write>(totals: &Totals, header: &Header, out: &mut O) -> Result<Verdict, Fault>
    ensures text { PrintsText result (O.contents out.old) (O.contents out.new)
        (end_lines header.now totals.now) }
    ensures verdict { IfOk result (λ verdict. verdict ≡ verdict_in header.now totals.now) }
{
    print(end_lines(totals, header).as_bytes(), out)?;
    Ok(totals.verdict(header))
}

// Prints the runs that a reader has left, and returns the totals of their clusters.
fn print_runs<S: Storage, O: Write>(
    runs: &mut FindingRuns<'_>,
    image: &mut S,
    out: &mut O,
) -> Result<Totals, Fault>
    requires { OnImage (S.state image.old) (λ bytes. IsFindingsOf bytes runs.old.findings) }
    ensures prints { PrintsLines (run_over S.state O.contents result image.old image.new out.old out.new)
        (λ bytes. flat_map run_lines (runs_left runs.old bytes)) }
    ensures totals { IfOk result (λ totals. OnImage (S.state image.old) (λ bytes.
        totals ≡ finding_totals (all_left runs.old bytes))) }
    ensures reader { MovesFindings (S.state image.old) runs.old.findings runs.new.findings }
    ensures storage { ReadsFor (IsErrOf result StorageFailed) (S.state image.old) (S.state image.new) }
{
    let mut totals = Totals::new();
    let mut line = LineBuffer::new();
    while let Some(run) = runs.next(image)? {
        totals = totals.with_clusters(&run.first, run.count)?;
        run.put_in(&mut line);
        print(line.as_bytes(), out)?;
    }
    Ok(totals)
}

// Prints the runs that a reader of clusters past the end of the image's file has left, and returns the totals
// with their clusters.
fn print_past<S: Storage, O: Write>(
    runs: &mut FindingRuns<'_>,
    image: &mut S,
    totals: Totals,
    out: &mut O,
) -> Result<Totals, Fault>
    requires { OnImage (S.state image.old) (λ bytes. IsFindingsOf bytes runs.old.findings) }
    ensures prints { PrintsLines (run_over S.state O.contents result image.old image.new out.old out.new)
        (λ bytes. flat_map past_line (runs_left runs.old bytes)) }
    ensures totals { IfOk result (λ new. OnImage (S.state image.old) (λ bytes.
        new ≡ with_past totals (length (all_left runs.old bytes)))) }
    ensures reader { MovesFindings (S.state image.old) runs.old.findings runs.new.findings }
    ensures storage { ReadsFor (IsErrOf result StorageFailed) (S.state image.old) (S.state image.new) }
{
    let mut totals = totals;
    let mut line = LineBuffer::new();
    while let Some(run) = runs.next(image)? {
        totals = totals.with_past(run.count)?;
        put_past(&run, &mut line);
        print(line.as_bytes(), out)?;
    }
    Ok(totals)
}

// Prints the wrong flags that a reader has left, and returns the totals with these.
fn print_flags<S: Storage, O: Write>(
    flags: &mut Flags<'_>,
    image: &mut S,
    totals: Totals,
    out: &mut O,
) -> Result<Totals, Fault>
    requires { OnImage (S.state image.old) (λ bytes. IsFlagsOf bytes flags.old) }
    ensures prints { PrintsLines (run_over S.state O.contents result image.old image.new out.old out.new)
        (λ bytes. flat_map flag_line (flags_left flags.old bytes)) }
    ensures totals { IfOk result (λ new. OnImage (S.state image.old) (λ bytes.
        new ≡ with_flags totals (flags_left flags.old bytes))) }
    ensures storage { ReadsFor (IsErrOf result StorageFailed) (S.state image.old) (S.state image.new) }
{
    let mut totals = totals;
    let mut line = LineBuffer::new();
    while let Some(flag) = flags.next(image)? {
        totals = totals.with_flag(&flag)?;
        flag.put_in(&mut line);
        print(line.as_bytes(), out)?;
    }
    Ok(totals)
}
