//! The line on standard error: a fault, or the usage after wrong words.

ghost use Rattle.std.specs.Prelude.{◌≡◌};
ghost use Rattle.qcow2_session.specs.Commands.Printing.{AppendsPart};
ghost use Rattle.qcow2_session.specs.Commands.Report.{fault_line, usage_line};

use crate::lines::{LineBuffer, write_out};
use qcow2_base::Fault;
use std::io::Write;

/// Reports a fault on `err`, and returns its status. If a write fails, only a first part of the line is
/// there, perhaps nothing. Allocates no memory.
pub fn report_fault<E: Write>(fault: Fault, err: &mut E) -> u8
    ensures status { result ≡ 1 }
    ensures line { AppendsPart (E.contents err.old) (E.contents err.new) (fault_line fault) }
{
    let mut line = LineBuffer::new();
    line.prepend("\n");
    line.prepend_decimal(u64::from(fault.number()));
    line.prepend("qmeta: fault ");
    write_line(line.as_bytes(), err);
    1
}

/// Writes the usage line to `err`, as `report_fault` writes a fault, and returns the status of wrong words.
pub(super) fn refuse_words<E: Write>(err: &mut E) -> u8
    ensures status { result ≡ 2 }
    ensures line { AppendsPart (E.contents err.old) (E.contents err.new) usage_line }
{
    write_line(b"usage: qmeta COMMAND IMAGE ARGUMENTS\n", err);
    2
}

// Writes a line and flushes it, up to the first call that fails.
#[tactic(auto, using(crate::proofs::OutputLemmas::part_kept))]
fn write_line<E: Write>(line: &[u8], err: &mut E)
    ensures { AppendsPart (E.contents err.old) (E.contents err.new) line.now }
{
    write_out(line, err);
    let _ = err.flush();
}
