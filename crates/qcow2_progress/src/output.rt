//! An output that shares its terminal with the progress line.

use super::progress::Progress;
use std::io;
use std::io::Write;
use std::time::Clock;

/// An output that wipes the progress line before it writes, if both go to a terminal.
#[derive(Drop)]
pub struct WatchedOutput<'a, W, C, E> {
    output: W,
    progress: Option<&'a Progress<'a, C, E>>,
}

impl<'a, W, C, E> WatchedOutput<'a, W, C, E> {
    /// Wraps an output. `is_terminal` says whether it goes to a terminal.
    pub fn new(
        output: W,
        progress: &'a Progress<'a, C, E>,
        is_terminal: bool,
    ) -> WatchedOutput<'a, W, C, E> {
        WatchedOutput {
            output,
            progress: is_terminal.then_some(progress),
        }
    }
}

impl<W: Write, C: Clock, E: Write + Copy> Write for WatchedOutput<'_, W, C, E> {
    fn write(&mut self, buf: &[u8]) -> io::Result<usize> {
        if let Some(progress) = self.progress {
            progress.wipe();
        }
        let count = self.output.write(buf)?;
        if let Some(progress) = self.progress {
            progress.has_written(&buf[..count]);
        }
        Ok(count)
    }

    fn flush(&mut self) -> io::Result<()> {
        self.output.flush()
    }
}
