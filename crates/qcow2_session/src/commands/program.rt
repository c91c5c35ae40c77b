//! The whole program: runs a command line.

ghost use Rattle.std.specs.Prelude.{◌≡◌, ◌≢◌, ◌≤◌, ◌↔◌, IfOk, map, string_bytes};
ghost use Rattle.qcow2_check.specs.declared.verdict.Verdict.TheVariants.{Fine};
ghost use Rattle.qcow2_session.specs.Commands.Help.{text_of};
ghost use Rattle.qcow2_session.specs.Commands.Printing.{PrintsText};
ghost use Rattle.qcow2_session.specs.Commands.Report.{Reports};
ghost use Rattle.qcow2_session.specs.Commands.Request.{IsForNothing, asked_by, request_of};
ghost use Rattle.qcow2_session.specs.Commands.Program.{EndsAs, PrintsAnswer, RunsRequest, RunsWords, world};

use super::explain::Question;
use super::help::HelpText;
use super::report::{refuse_words, report_fault};
use super::request::Request;
use super::running::{after_flush, fine, run_on_file};
use crate::lines::print;
use qcow2_base::{Fault, ImageFiles};
use qcow2_check::Verdict;
use std::io::Write;
use std::rt::Files;

/// Runs a command line, the words after the program's name, and returns the program's status, as
/// `run_request` does. If memory for the command runs out, reports fault 35, does nothing else, and returns
/// 1.
pub fn run_words<R: Files + ImageFiles + AllocGlobal, O: Write, E: Write>(
    rt: &mut R,
    words: &[String],
    out: &mut O,
    err: &mut E,
) -> u8
    ensures status { result ≤ 4 }
    ensures wrong_words { (result ≡ 2) ↔ IsForNothing (request_of (map string_bytes words.now)) }
    ensures runs { RunsWords (request_of (map string_bytes words.now)) result
        (world (R.file_at rt.old) O.contents out.old E.contents err.old)
        (world (R.file_at rt.new) O.contents out.new E.contents err.new) }
    ensures reports { Reports result E.contents err.old err.new }
{
    match Request::parse(rt.alloc(), words) {
        Ok(request) => run_request(rt, &request, out, err),
        Err(error) => report_fault(Fault::from(error), err),
    }
}

/// Runs a request, and returns the program's status: 0 for success, 1 for a fault, 2 for wrong words, and 3
/// or 4, the statuses of `Verdict::status`, if a command finds something wrong with its image.
///
/// The command prints to `out`, where lines before a fault stay. `help`, `explain` and `version` print a
/// text there, and open no image; `explain` with an image adds lines on where in it the fault is. A fault
/// prints the line `qmeta: fault N` to `err`, wrong words print the usage line there. `out` is flushed
/// after a command that ran, `err` after a line. A failed write to `out` is the storage fault; one to `err`
/// changes nothing. Only a command changes a file, and only its image.
pub fn run_request<R: Files + ImageFiles + AllocGlobal, O: Write, E: Write>(
    rt: &mut R,
    request: &Request<'_>,
    out: &mut O,
    err: &mut E,
) -> u8
    ensures status { result ≤ 4 }
    ensures wrong_words { (result ≡ 2) ↔ IsForNothing (asked_by request.now) }
    ensures runs { RunsRequest (asked_by request.now) result
        (world (R.file_at rt.old) O.contents out.old E.contents err.old)
        (world (R.file_at rt.new) O.contents out.new E.contents err.new) }
    ensures reports { Reports result E.contents err.old err.new }
{
    match request {
        Request::Text(text) => status_of(print_text(*text, out), err),
        Request::Question(question) => status_of(answer(&*rt, question, out), err),
        Request::Command { command, path } => {
            let alloc = rt.alloc();
            status_of(run_on_file(alloc, rt, path, command, out), err)
        }
        Request::Nothing => refuse_words(err),
    }
}

// Prints a text, and flushes the output.
fn print_text<O: Write>(text: HelpText<'_>, out: &mut O) -> Result<Verdict, Fault>
    ensures text { PrintsText result (O.contents out.old) (O.contents out.new) (text_of text.entry) }
    ensures verdict { IfOk result (λ verdict. verdict ≡ Fine) }
{
    let printed = text.print(out);
    after_flush(fine(printed), out.flush())
}

// Prints the text on a fault and its place in an image, and flushes the output.
fn answer<R: Files + AllocGlobal, O: Write>(
    rt: &R,
    question: &Question<'_>,
    out: &mut O,
) -> Result<Verdict, Fault>
    ensures text { PrintsAnswer result (O.contents out.old) (O.contents out.new) question.now.text.now }
    ensures verdict { IfOk result (λ verdict. verdict ≡ Fine) }
{
    let answer = question.answer(rt)?;
    let printed = print(answer.as_str().as_bytes(), out);
    after_flush(fine(printed), out.flush())
}

// Returns the status of a run: that of its verdict, or 1 after reporting its fault.
fn status_of<E: Write>(ran: Result<Verdict, Fault>, err: &mut E) -> u8
    ensures status { result ≤ 4 }
    ensures right_words { result ≢ 2 }
    ensures ends { EndsAs ran result (E.contents err.old) (E.contents err.new) }
    ensures reports { Reports result E.contents err.old err.new }
{
    match ran {
        Ok(verdict) => verdict.status(),
        Err(fault) => report_fault(fault, err),
    }
}
