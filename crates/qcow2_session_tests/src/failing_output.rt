//! An output that records what was flushed, and fails where a test plans it, to show how a caller reacts.

ghost use Rattle.std.specs.Prelude.{None};

use std::alloc::Global;
use std::io;
use std::io::{ErrorKind, Write};

/// The planned failure of an output.
#[derive(Clone, Copy)]
pub(crate) enum Failure {
    /// None.
    Never,
    /// The first write past this many bytes, once.
    WriteAfter(usize),
    /// Each flush.
    Flush,
    /// None, but a write takes at most three bytes.
    Short,
    /// The first write is interrupted, once, and has to be repeated.
    Interrupted,
}

/// An output that keeps the written bytes, and the number of flushed ones. A failed call keeps nothing.
#[derive(Drop)]
pub(crate) struct FailingOutput {
    bytes: Vec<u8>,
    flushed: usize,
    failure: Failure,
}

impl FailingOutput {
    /// Returns an empty output with this failure.
    pub(crate) fn new(alloc: Global, failure: Failure) -> FailingOutput {
        FailingOutput {
            bytes: Vec::new(alloc),
            flushed: 0,
            failure,
        }
    }

    /// Returns the written bytes, in order.
    pub(crate) fn bytes(&self) -> &[u8] {
        &self.bytes
    }

    /// Returns the bytes that were written before the last flush.
    pub(crate) fn flushed(&self) -> &[u8] {
        self.bytes.get(..self.flushed).unwrap_or(&[])
    }

    // Returns the number of bytes that a write of `len` bytes may take.
    fn room(&mut self, len: usize) -> io::Result<usize> {
        match self.failure {
            Failure::WriteAfter(0) if len > 0 => {
                self.failure = Failure::Never;
                Err(io::Error::other("the write was planned to fail"))
            }
            Failure::WriteAfter(room) => {
                self.failure = Failure::WriteAfter(room.saturating_sub(len));
                Ok(room)
            }
            Failure::Short => Ok(3),
            Failure::Interrupted => {
                self.failure = Failure::Never;
                Err(ErrorKind::Interrupted.into())
            }
            Failure::Never | Failure::Flush => Ok(len),
        }
    }
}

impl Write for FailingOutput {
    ghost contents = { λ _. None };

    fn write(&mut self, buf: &[u8]) -> io::Result<usize> {
        let taken = self.room(buf.len())?.min(buf.len());
        self.bytes.write(&buf[..taken])
    }

    fn flush(&mut self) -> io::Result<()> {
        if let Failure::Flush = self.failure {
            return Err(io::Error::other("the flush was planned to fail"));
        }
        self.flushed = self.bytes.len();
        Ok(())
    }
}
