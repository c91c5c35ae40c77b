//! An output that stops at the first failed write.

ghost use Rattle.std.specs.Prelude.{◌≡◌, ◌≤◌, false, if◌then◌else◌, length, take};
ghost use Rattle.std.specs.Io.KnownBytes.{Appends};
ghost use Rattle.qcow2_session.specs.Commands.Printing.{PrintsText};
ghost use Rattle.qcow2_session.specs.Lines.Output.{Begins, Gets, GoesOn};

use qcow2_base::Fault;
use std::io::{ErrorKind, Write};

/// A writer, and whether a write to it has failed.
#[derive(Drop)]
pub(crate) struct Output<'a, W: Write> {
    writer: &'a mut W,
    has_failed: bool,
}

impl<'a, W: Write> Output<'a, W> {
    /// Makes an output without a failed write.
    pub(crate) fn new(writer: &'a mut W) -> Output<'a, W>
        ensures { Begins writer.entry result }
    {
        Output {
            writer,
            has_failed: false,
        }
    }

    /// Prints bytes, unless a write has failed before.
    #[inline]
    #[tactic(auto, using(crate::proofs::OutputLemmas::appended_unless))]
    pub(crate) fn print(&mut self, bytes: &[u8])
        ensures text { Gets W.contents self.old self.new bytes.now }
        ensures goes_on { GoesOn self.old self.new }
    {
        if !self.has_failed {
            self.has_failed = write_out(bytes, self.writer) < bytes.len();
        }
    }

    /// Returns the storage fault if a write has failed.
    pub(crate) fn result(&self) -> Result<(), Fault>
        ensures { result ≡ (if self.now.has_failed then Err Fault.Storage else Ok tt) }
    {
        if self.has_failed {
            Err(Fault::Storage)
        } else {
            Ok(())
        }
    }
}

/// Prints bytes.
#[inline(always)]
#[tactic(auto, using(crate::proofs::OutputLemmas::part_taken))]
pub(crate) fn print<W: Write>(bytes: &[u8], writer: &mut W) -> Result<(), Fault>
    ensures { PrintsText result (W.contents writer.old) (W.contents writer.new) bytes.now }
{
    if write_out(bytes, writer) < bytes.len() {
        return Err(Fault::Storage);
    }
    Ok(())
}

/// Writes bytes until all are written or a write fails, and returns how many were. Usually one write takes
/// all, so another function writes the rest. Makes no write for no bytes.
#[inline(always)]
#[tactic(auto, using(crate::proofs::ReportLemmas::appends_more))]
pub(crate) fn write_out<W: Write>(bytes: &[u8], writer: &mut W) -> usize
    ensures bound { result ≤ length bytes.now }
    ensures bytes { Appends (W.contents writer.old) (W.contents writer.new) (take result bytes.now) }
{
    if bytes.is_empty() {
        return 0;
    }
    let (count, is_failed) = write_part(bytes, writer);
    if is_failed || count == bytes.len() {
        return count;
    }
    count + write_rest(&bytes[count..], writer)
}

// Writes the bytes that the first write didn't take.
#[inline(never)]
#[tactic(auto, using(crate::proofs::ReportLemmas::appends_more))]
fn write_rest<W: Write>(bytes: &[u8], writer: &mut W) -> usize
    ensures bound { result ≤ length bytes.now }
    ensures bytes { Appends (W.contents writer.old) (W.contents writer.new) (take result bytes.now) }
{
    let mut written = 0;
    for _ in 0..u64::MAX {
        if written == bytes.len() {
            return written;
        }
        let (count, is_failed) = write_part(&bytes[written..], writer);
        written += count;
        if is_failed {
            return written;
        }
    }
    written
}

// Writes a part of the bytes. Returns how many, and whether the write failed: an interrupted one didn't,
// and can be repeated.
#[inline(always)]
fn write_part<W: Write>(bytes: &[u8], writer: &mut W) -> (usize, bool)
    ensures bound { result.0 ≤ length bytes.now }
    ensures bytes { Appends (W.contents writer.old) (W.contents writer.new) (take result.0 bytes.now) }
{
    match writer.write(bytes) {
        Ok(count) => (count, count == 0),
        Err(error) => (0, error.kind() != ErrorKind::Interrupted),
    }
}
