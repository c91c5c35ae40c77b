//! Runs of lines over failing files and outputs, and lines that are no command.

use super::whole_images::{RUN, Run, check_run};
use crate::failing_output::{FailingOutput, Failure};
use qcow2_session::{Verdict, report_fault, run_words};
use qcow2_session_calls::parse_command;
use qcow2_testing::{FAULTS, FaultyFiles, Opens, ReportedFault, each, rows, same};
use std::alloc::Global;
use std::rt::Files;
use std::test::Fail;

/// The end of a run, with the flushed part of its outputs.
#[derive(Clone, Copy, Debug, PartialEq)]
pub(crate) enum Ended<'a> {
    /// The output, without a fault.
    Done(&'a str),
    /// The output, with harmless findings only.
    Harmless(&'a str),
    /// The output, with findings that may destroy data.
    Harmful(&'a str),
    /// The output, and the report of the fault.
    Failed(&'a str, &'a str),
    /// The report that the line is no command.
    NoCommand(&'a str),
}

impl<'a> Ended<'a> {
    /// Returns the status, and the flushed part of the output and of the error output.
    fn parts(self) -> (u8, &'a str, &'a str) {
        match self {
            Ended::Done(out) => (0, out, ""),
            Ended::Harmless(out) => (3, out, ""),
            Ended::Harmful(out) => (4, out, ""),
            Ended::Failed(out, err) => (1, out, err),
            Ended::NoCommand(err) => (2, "", err),
        }
    }
}

// The failures of a run's output and error output.
pub(crate) type Failures = (Failure, Failure);

pub(crate) const NO_FAILURES: Failures = (Failure::Never, Failure::Never);

// Runs a line over outputs with these failures, and returns the status and the outputs.
pub(crate) fn run_line(
    files: &mut FaultyFiles<'_, HostRuntime>,
    image: &str,
    line: &str,
    (out, err): Failures,
) -> Result<(u8, FailingOutput, FailingOutput), Fail> {
    let words = words_of(files.alloc(), line, image)?;
    let mut out = FailingOutput::new(files.alloc(), out);
    let mut err = FailingOutput::new(files.alloc(), err);
    let status = run_words(files, words.as_slice(), &mut out, &mut err);
    Ok((status, out, err))
}

// Returns the words of a line, separated by single spaces, with the path of an image in place of the word
// `IMAGE`. An empty line has none.
pub(crate) fn words_of(alloc: Global, line: &str, image: &str) -> Result<Vec<String>, Fail> {
    let mut words = Vec::new(alloc);
    if line.is_empty() {
        return Ok(words);
    }
    for word in line.split(' ') {
        let word = if word == "IMAGE" { image } else { word };
        words.push(String::from_str(alloc, word)?)?;
    }
    Ok(words)
}

// Runs a line, and fails unless it ends as expected.
pub(crate) fn check_line(
    files: &mut FaultyFiles<'_, HostRuntime>,
    image: &str,
    line: &str,
    failures: Failures,
    expected: Ended<'_>,
) -> Result<(), Fail> {
    let (status, out, err) = run_line(files, image, line, failures)?;
    let out = std::str::from_utf8(out.flushed())?;
    let err = std::str::from_utf8(err.flushed())?;
    same((status, out, err), expected.parts(), line)
}

// Lines that are no command. A number has 1 to 20 digits and fits 64 bits.
const NO_COMMANDS: &[&str] = rows! {
    // no words, wrong names, and options
    "", " ", " IMAGE 9 2", "L2 IMAGE 9 2", "l22 IMAGE 9 2", "IMAGE l2 9 2", "information IMAGE", "--list",
    // a word too few, one too many, and numbers that aren't cluster bits
    "l2", "l2 IMAGE", "l2 IMAGE 9", "l2 IMAGE 9 2 ", "l2 IMAGE 8 2", "l2 IMAGE 22 2", "l2 IMAGE 4294967305 2",
    "l2 IMAGE +9 2", "l2 IMAGE 000000000000000000009 2",
    // words that aren't numbers
    "l2 IMAGE 9 ", "l2 IMAGE 9 +2", "l2 IMAGE 9 -1", "l2 IMAGE 9 \t2", "l2 IMAGE 9 9\n", "l2 IMAGE 9 1_0",
    "l2 IMAGE 9 9.0", "l2 IMAGE 9 1e1", "l2 IMAGE 9 0x9", "l2 IMAGE 9 a", "l2 IMAGE 9 \u{0669}",
    "l2 IMAGE 9 18446744073709551616", "l2 IMAGE 9 000000000000000000002",
    "info", "info IMAGE 9", "list IMAGE ", "at IMAGE", "at IMAGE 0x600", "at IMAGE 0 0",
    "check", "check IMAGE ", "check IMAGE x", "check IMAGE 0", "check IMAGE Repair",
    "edit IMAGE", "edit IMAGE map:3:5", "edit IMAGE 0 map:3", "edit IMAGE 0 map:3:5:1", "edit IMAGE 0 map::5",
    "edit IMAGE 0 zero:3:1", "edit IMAGE 0 keep", "edit IMAGE 0 Discard:3", "edit IMAGE 0 discard:3 inc:3",
    // edits of a disk: none, and malformed ones
    "apply", "apply IMAGE", "apply IMAGE plan", "apply IMAGE plan plan", "apply IMAGE discard:0 plan",
    "apply IMAGE plan:0", "apply IMAGE discard", "apply IMAGE discard:", "apply IMAGE discard:0:",
    "apply IMAGE discard:0:512:1", "apply IMAGE zero:0", "apply IMAGE keep:0", "apply IMAGE map:0",
    "apply IMAGE map:0:5:1", "apply IMAGE map::5", "apply IMAGE Discard:0", "apply IMAGE discard:0 inc:3",
    "apply IMAGE discard:+0", "apply IMAGE discard:x0", "apply IMAGE discard:0x", "apply IMAGE discard:0X0",
    "apply IMAGE discard:0xg", "apply IMAGE discard:0x+1", "apply IMAGE discard:0x00000000000000000",
    "apply IMAGE discard:0x0x0", "apply IMAGE discard:600h", "apply IMAGE discard:18446744073709551616",
    "count IMAGE", "count IMAGE 3 inc:", "count IMAGE 3 add:0", "count IMAGE 3 inc:+1",
    "count IMAGE 3 inc:0:1", "count IMAGE 3 inc:0 discard:0",
    // faults that don't exist, and too many words
    "explain 0 IMAGE", "explain 43 IMAGE", "explain x IMAGE", "explain +3 IMAGE", "explain IMAGE",
    "explain IMAGE 3", "explain 3 IMAGE IMAGE", "Explain 3 IMAGE",
};

pub(super) const NO_COMMAND: Ended<'static> = Ended::NoCommand(
    "usage: qmeta COMMAND IMAGE ARGUMENTS\n",
);

// No file is opened.
#[test]
fn words_that_are_no_command_are_the_usage_line(rt: HostRuntime) -> Result<(), Fail> {
    for line in NO_COMMANDS {
        let run = Run {
            line: *line,
            ended: NO_COMMAND,
            ..RUN
        };
        check_run(&rt, "no-command", &run)?;
    }
    Ok(())
}

// Lines that print the help of a command, and other lines that print the same.
const HELPS: &[(&str, &str)] = rows! {
    ("map --help", "help map"), ("map -h", "help map"), ("tables --help", "help tables"),
    ("tables -h", "help tables"), ("layout --help", "help layout"), ("layout -h", "help layout"),
    ("refcount --help", "help refcount"), ("refcount -h", "help refcount"), ("check --help", "help check"),
    ("check -h", "help check"), ("apply --help", "help apply"), ("apply -h", "help apply"),
    ("help --help", "help help"), ("help -h", "help help"), ("explain --help", "help explain"),
    ("explain -h", "help explain"), ("version --help", "help version"), ("version -h", "help version"),
};

// No file is opened.
#[test]
fn words_for_help_after_a_command_print_its_help(rt: HostRuntime) -> Result<(), Fail> {
    for (line, help) in HELPS {
        let mut files = FaultyFiles::new(&rt);
        let (status, expected, _) = run_line(&mut files, "", *help, NO_FAILURES)?;
        let expected = std::str::from_utf8(expected.flushed())?;
        same((status, expected.is_empty()), (0, false), *help)?;
        check_line(&mut files, "", *line, NO_FAILURES, Ended::Done(expected))?;
        same(files.opens(), NO_OPENS, *line)?;
    }
    Ok(())
}

const NO_OPENS: Opens = Opens {
    reading: 0,
    other: 0,
};

// Names of commands and of images, and whether these two words alone are a command on that image.
const NAMED: &[(&str, &str, bool)] = rows! {
    ("info", "--help", true), ("info", "-h", true), ("list", "--help", true), ("list", "-h", true),
    ("map", "--help", false), ("map", "-h", false), ("map", "-help", true), ("map", "--hel", true),
    ("tables", "-h", false), ("tables", "./-h", true), ("layout", "--help", false),
    ("layout", "--helpx", true),
    ("check", "--help", false), ("check", "-h", false), ("check", "--version", true), ("check", "help", true),
};

#[test]
fn words_for_help_are_images_of_some_commands(rt: HostRuntime) -> Result<(), Fail> {
    each(rt.alloc(), NAMED, check_named)
}

fn check_named(alloc: Global, (name, image, expected): (&str, &str, bool)) -> Result<(), Fail> {
    let command = parse_command(alloc, name, image, &[]);
    same((command.is_some(), image), (expected, image), name)
}

// Before further words, an image may have any name.
#[test]
fn a_word_for_help_before_others_is_an_image(rt: HostRuntime) -> Result<(), Fail> {
    for line in [
        "check --help json",
        "apply -h discard:0",
        "refcount --help 0",
        "map -h json",
        "at --help 0",
    ] {
        let mut files = FaultyFiles::new(&rt);
        let no_file = Ended::Failed("", "qmeta: fault 34\n");
        check_line(&mut files, "", line, NO_FAILURES, no_file)?;
    }
    Ok(())
}

// Checks the report on an output that takes everything, one that takes three bytes a call, and one that is
// interrupted once.
fn check_reported(alloc: Global, fault: ReportedFault) -> Result<(), Fail> {
    check_reported_on(alloc, Failure::Never, fault)?;
    check_reported_on(alloc, Failure::Short, fault)?;
    check_reported_on(alloc, Failure::Interrupted, fault)
}

fn check_reported_on(
    alloc: Global,
    failure: Failure,
    ReportedFault { fault, number, .. }: ReportedFault,
) -> Result<(), Fail> {
    let mut err = FailingOutput::new(alloc, failure);
    let status = report_fault(fault, &mut err);
    let line = format!(in alloc; "qmeta: fault {number}\n")?;
    same(
        (status, std::str::from_utf8(err.flushed())?),
        (1, line.as_str()),
        fault,
    )
}

#[test]
fn a_fault_is_reported_by_its_number(rt: HostRuntime) -> Result<(), Fail> {
    each(rt.alloc(), FAULTS, check_reported)
}

// 1 and 2 are the statuses of faults and of words that are no command.
#[test]
fn a_verdict_is_a_status(rt: HostRuntime) -> Result<(), Fail> {
    each(rt.alloc(), VERDICTS, check_verdict)
}

const VERDICTS: &[(Verdict, u8)] = rows! {
    (Verdict::Fine, 0),
    (Verdict::Harmless, 3),
    (Verdict::Harmful, 4),
};

fn check_verdict(_alloc: Global, (verdict, status): (Verdict, u8)) -> Result<(), Fail> {
    same(verdict.status(), status, verdict)
}
