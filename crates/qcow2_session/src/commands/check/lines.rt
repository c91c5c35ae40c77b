//! The lines of a check: runs of findings, wrong flags, and the end.

ghost use Rattle.std.specs.Prelude.{◌≡◌, ◌+◌, ◌≤◌, ◌++◌, codes, length};
ghost use Rattle.qcow2_session.specs.Commands.Check.Lines.{counter_text, counts_line, end_lines, flag_line, header_lines, past_count, past_line, place_text, run_lines, run_numbers, totals_line};

use super::runs::FindingRun;
use crate::lines::{LineBuffer, ToLine};
use qcow2_check::{FlagPlace, Totals, Verdict, WrongFlag, is_l1_short, needed_l1_entries};
use qcow2_metadata::{Header, IncompatibleFeatures};

/// Clusters with the same finding: a line for each kind that it is.
impl ToLine for FindingRun {
    ghost text = { run_lines };

    fn put_in(&self, line: &mut LineBuffer) {
        line.clear();
        if self.first.shared {
            prepend_numbers(line, self);
            line.prepend("shared ");
        }
        if self.first.is_missing() {
            prepend_numbers(line, self);
            line.prepend("missing ");
        }
        if self.first.is_leaked() {
            prepend_numbers(line, self);
            line.prepend("leaked ");
        }
    }
}

/// Replaces a line by that of clusters past the end of the image's file that have references.
pub(super) fn put_past(run: &FindingRun, line: &mut LineBuffer)
    ensures { line.new ≡ past_line run.now }
{
    line.clear();
    prepend_numbers(line, run);
    line.prepend("past ");
}

// Puts the numbers of a run in front of a line.
fn prepend_numbers(line: &mut LineBuffer, run: &FindingRun)
    requires { length line.old ≤ 100 }
    ensures text { line.new ≡ run_numbers run.now ++ line.old }
    ensures bound { length line.new ≤ length line.old + 84 }
{
    line.prepend("\n");
    line.prepend_decimal(run.first.uses);
    line.prepend(" ");
    line.prepend_decimal(run.first.counter);
    line.prepend(" ");
    line.prepend_decimal(run.count);
    line.prepend(" ");
    line.prepend_decimal(run.first.cluster.0);
}

/// A wrong copied flag.
impl ToLine for WrongFlag {
    ghost text = { flag_line };

    fn put_in(&self, line: &mut LineBuffer) {
        line.clear();
        line.prepend("\n");
        prepend_counter(line, self.counter);
        line.prepend(" ");
        line.prepend_decimal(self.cluster.0);
        line.prepend(" ");
        prepend_place(line, self.place);
        line.prepend(if self.is_set { "false " } else { "late " });
    }
}

// Puts the refcount of a cluster in front of a line, or `none`.
fn prepend_counter(line: &mut LineBuffer, counter: Option<u64>)
    requires { length line.old ≤ 100 }
    ensures text { line.new ≡ counter_text counter ++ line.old }
    ensures bound { length line.new ≤ length line.old + 20 }
{
    match counter {
        Some(counter) => line.prepend_decimal(counter),
        None => line.prepend("none"),
    }
}

// Puts the place of a flag in front of a line: its L1 index, or its guest offset.
fn prepend_place(line: &mut LineBuffer, place: FlagPlace)
    requires { length line.old ≤ 100 }
    ensures text { line.new ≡ place_text place ++ line.old }
    ensures bound { length line.new ≤ length line.old + 23 }
{
    match place {
        FlagPlace::L1Index(index) => {
            line.prepend_decimal(index as u64);
            line.prepend("l1 ");
        }
        FlagPlace::Offset(offset) => line.prepend_offset(offset.0),
    }
}

/// The last lines of a check with these totals, for an image with this header.
pub(super) fn end_lines(totals: &Totals, header: &Header) -> LineBuffer
    ensures { result ≡ end_lines header.now totals.now }
{
    let mut lines = totals_line(totals, header);
    prepend_header_lines(&mut lines, header);
    lines
}

// Puts the lines of what a header says in front of others: that the image is marked dirty or corrupt, and an
// L1 table too short for the disk.
fn prepend_header_lines(lines: &mut LineBuffer, header: &Header)
    requires { length lines.old ≤ 165 }
    ensures { lines.new ≡ header_lines header.now ++ lines.old }
{
    if is_l1_short(header) {
        lines.prepend("\n");
        lines.prepend_decimal(needed_l1_entries(header));
        lines.prepend(" ");
        lines.prepend_decimal(header.l1_table_entries() as u64);
        lines.prepend("short-l1 ");
    }
    if header.has_feature(IncompatibleFeatures::Corrupt) {
        lines.prepend("corrupt\n");
    }
    if header.has_feature(IncompatibleFeatures::Dirty) {
        lines.prepend("dirty\n");
    }
}

// The last line of a check.
fn totals_line(totals: &Totals, header: &Header) -> LineBuffer
    ensures text { result ≡ totals_line header.now totals.now }
    ensures bound { length result ≤ 165 }
{
    match totals.verdict(header) {
        Verdict::Fine => consistent_line(),
        Verdict::Harmless => counts_line(totals),
        Verdict::Harmful => counts_line(totals),
    }
}

// The end of a line with the number of clusters past the end of the image's file, if there are any.
fn past_count(totals: &Totals) -> LineBuffer
    ensures text { result ≡ past_count totals.now ++ codes "\n" }
    ensures bound { length result ≤ 27 }
{
    let mut line = LineBuffer::new();
    line.prepend("\n");
    if totals.past != 0 {
        line.prepend_decimal(totals.past);
        line.prepend(" past ");
    }
    line
}

// The number of clusters and flags of each kind.
fn counts_line(totals: &Totals) -> LineBuffer
    ensures text { result ≡ counts_line totals.now }
    ensures bound { length result ≤ 165 }
{
    let mut line = past_count(totals);
    line.prepend_decimal(totals.late_flags);
    line.prepend(" late ");
    line.prepend_decimal(totals.false_flags);
    line.prepend(" false ");
    line.prepend_decimal(totals.shared);
    line.prepend(" shared ");
    line.prepend_decimal(totals.missing);
    line.prepend(" missing ");
    line.prepend_decimal(totals.leaked);
    line.prepend("leaked ");
    line
}

// The line for a consistent image.
fn consistent_line() -> LineBuffer
    ensures text { result ≡ codes "consistent\n" }
    ensures bound { length result ≤ 150 }
{
    let mut line = LineBuffer::new();
    line.prepend("consistent\n");
    line
}
