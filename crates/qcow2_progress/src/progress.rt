//! The progress line.

use super::tables::WatchedTable;
use std::alloc::Global;
use std::cell::Cell;
use std::io::Write;
use std::time::{Clock, Duration, Instant};

// The milliseconds before the first line.
const PATIENCE: u64 = 2000;

// The fewest milliseconds between two drawings of the line.
const PAUSE: u64 = 100;

// Returns to the start of the terminal's line and clears it.
const WIPE: &str = "\r\x1b[K";

/// The progress of a command that reads an image's L2 tables: how many it has begun to read, and in which
/// pass over all of them. A line shows it after two seconds, and is redrawn at most ten times a second.
#[derive(Drop)]
pub struct Progress<'a, C, E> {
    alloc: Global,
    clock: &'a C,
    terminal: E,
    tables: &'a [WatchedTable],
    // The earliest time for the next line. `None` if no line is ever drawn.
    next: Cell<Option<Instant>>,
    pass: Cell<u64>,
    begun: Cell<u64>,
    is_shown: Cell<bool>,
    is_mid_line: Cell<bool>,
}

impl<'a, C: Clock, E: Write + Copy> Progress<'a, C, E> {
    /// The progress of a command that begins now. `tables` are the image's L2 tables, in the order of their
    /// offsets. Without tables no line is ever drawn.
    pub fn new(
        alloc: Global,
        clock: &'a C,
        terminal: E,
        tables: &'a [WatchedTable],
    ) -> Progress<'a, C, E> {
        Progress {
            alloc,
            clock,
            terminal,
            tables,
            next: Cell::new(if tables.is_empty() {
                None
            } else {
                later(clock, PATIENCE)
            }),
            pass: Cell::new(1),
            begun: Cell::new(0),
            is_shown: Cell::new(false),
            is_mid_line: Cell::new(false),
        }
    }

    /// Wipes the line if it is shown.
    pub fn wipe(&self) {
        if self.is_shown.replace(false) {
            self.show(WIPE);
        }
    }

    // Counts the tables that begin between the two offsets, and draws the line if it is due.
    pub(crate) fn has_read(&self, first: u64, end: u64) {
        if self.next.get().is_none() {
            return;
        }
        let start = self.tables.partition_point(|table| table.offset < first);
        for table in self.tables.iter().skip(start) {
            if table.offset >= end {
                break;
            }
            self.begin(table);
        }
        if self.is_time() {
            self.draw();
        }
    }

    // Counts a table whose first bytes are read, once in a pass. If this pass has begun all tables, the table
    // is the first of the next pass.
    fn begin(&self, table: &WatchedTable) {
        let all = self.tables.len() as u64;
        if table.pass.get() == self.pass.get() {
            if self.begun.get() < all {
                return;
            }
            self.pass.set(self.pass.get().saturating_add(1));
            self.begun.set(0);
        }
        table.pass.set(self.pass.get());
        self.begun.set(self.begun.get().saturating_add(1));
    }

    // Notes what an output has written to the same terminal: the progress line isn't drawn into an unfinished
    // line.
    pub(crate) fn has_written(&self, bytes: &[u8]) {
        if let Some(last) = bytes.last() {
            self.is_mid_line.set(*last != b'\n');
        }
    }

    // Whether a line may be drawn now.
    fn is_time(&self) -> bool {
        match (self.next.get(), Instant::now(self.clock)) {
            (Some(next), Ok(now)) => !self.is_mid_line.get() && next <= now,
            _ => false,
        }
    }

    // Draws the line, unless memory runs out.
    fn draw(&self) {
        let (begun, all, pass) = (self.begun.get(), self.tables.len(), self.pass.get());
        if begun == 0 {
            return;
        }
        let line = if pass == 1 {
            format!(in self.alloc; "{WIPE}qmeta: table {begun} of {all}")
        } else {
            format!(in self.alloc; "{WIPE}qmeta: table {begun} of {all}, pass {pass}")
        };
        if let Ok(line) = line {
            self.is_shown.set(true);
            self.show(line.as_str());
        }
        self.next.set(later(self.clock, PAUSE));
    }

    // Writes to the terminal, and ignores failures.
    fn show(&self, text: &str) {
        let mut terminal = self.terminal;
        let _ = terminal.write_all(text.as_bytes());
    }
}

// The time in `pause` milliseconds. `None` if the clock fails.
fn later<C: Clock>(clock: &C, pause: u64) -> Option<Instant> {
    Instant::now(clock)
        .ok()?
        .checked_add(Duration::from_millis(pause))
}
