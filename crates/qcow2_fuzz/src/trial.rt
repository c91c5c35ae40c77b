//! An image that commands run on, and what must hold after each run.

use crate::fields::Fields;
use crate::kinds::{COMPRESSION_TYPE, Kind, LAST_OF_HEADER, STORAGE};
use crate::storage::BoundedStorage;
use qcow2_base::{Fault, MemStorage};
use qcow2_session::Verdict;
use qcow2_session::commands::locate_fault;
use qcow2_session_calls::{parse_command, run};
use std::alloc::Global;
use std::io::Write;
use std::mem;

/// The result of a command.
pub(crate) type Answer = Result<Verdict, Fault>;

/// The numbers of runs, of runs that ended in a fault, and of wrong runs.
#[derive(Clone, Copy)]
pub(crate) struct Tally {
    pub(crate) runs: u64,
    pub(crate) faults: u64,
    pub(crate) wrong: u64,
}

/// An image as it was made and as commands left it, and a report of what is wrong.
#[derive(Drop)]
pub(crate) struct Trial<'a> {
    pub(crate) alloc: Global,
    pub(crate) seed: u64,
    /// The runs of this image and of those before it.
    pub(crate) tally: Tally,
    /// A line for each wrong run.
    pub(crate) report: Vec<u8>,
    pub(crate) before: &'a [u8],
    pub(crate) fields: Fields,
    image: BoundedStorage<MemStorage>,
    /// Whether the image is as it was made.
    is_fresh: bool,
    /// The fault of the image's header, once it is known.
    header_fault: Option<Fault>,
    printed: Vec<u8>,
    /// The number of runs on this image.
    runs: u64,
}

impl<'a> Trial<'a> {
    /// Begins with an image of these bytes, on which nothing has run.
    pub(crate) fn new(
        alloc: Global,
        seed: u64,
        before: &'a [u8],
        tally: Tally,
    ) -> Result<Trial<'a>, Fault> {
        Ok(Trial {
            alloc,
            seed,
            tally,
            report: Vec::new(alloc),
            before,
            fields: Fields::of(before),
            image: image_of(alloc, before)?,
            is_fresh: true,
            header_fault: None,
            printed: Vec::new(alloc),
            runs: 0,
        })
    }

    /// Restores the original image.
    pub(crate) fn restore(&mut self) -> Result<(), Fault> {
        if self.image.is_written() {
            self.image = image_of(self.alloc, self.before)?;
            self.is_fresh = true;
        }
        Ok(())
    }

    /// Runs the command of a line, whose second word is the image. Reports what must hold after every run
    /// and doesn't.
    pub(crate) fn run(&mut self, kind: Kind, line: &str) -> Result<Answer, Fault> {
        let was_fresh = self.is_fresh;
        self.begin();
        let Some(answer) = self.answer_of(line)? else {
            self.wrong(line, "a command", "words that are none");
            return Err(Fault::WrongLength);
        };
        self.end(kind, line, &answer, was_fresh)?;
        Ok(answer)
    }

    // Counts a run, and empties the output.
    fn begin(&mut self) {
        self.tally.runs = self.tally.runs.saturating_add(1);
        self.runs = self.runs.saturating_add(1);
        self.printed.clear();
    }

    // Runs the command of a line, and returns its result, if it is a command.
    fn answer_of(&mut self, line: &str) -> Result<Option<Answer>, Fault> {
        let words = words_of(self.alloc, line)?;
        let [name, _, arguments @ ..] = words.as_slice() else {
            return Ok(None);
        };
        match parse_command(self.alloc, name.as_str(), "IMAGE", arguments) {
            Some(Ok(command)) => {
                let printed = &mut self.printed;
                Ok(Some(run(self.alloc, &mut self.image, &command, printed)))
            }
            Some(Err(error)) => Err(Fault::from(error)),
            None => Ok(None),
        }
    }

    // Counts the fault of a run, and reports what must hold after every run and doesn't.
    fn end(
        &mut self,
        kind: Kind,
        line: &str,
        answer: &Answer,
        was_fresh: bool,
    ) -> Result<(), Fault> {
        match answer {
            Ok(verdict) => {
                let is_check = matches!(kind, Kind::Check | Kind::Repair);
                self.unless(
                    is_check || *verdict == Verdict::Fine,
                    line,
                    "status 0",
                    "another",
                );
            }
            Err(fault) => self.check_fault(kind, line, *fault)?,
        }
        if was_fresh {
            self.check_header(kind, line, answer)?;
            self.check_bytes(kind, line, answer);
        }
        if kind.changes() {
            self.is_fresh = self.is_kept();
        }
        Ok(())
    }

    // Reports a fault that the command can't return here, and lines before a fault that must come first.
    fn check_fault(&mut self, kind: Kind, line: &str, fault: Fault) -> Result<(), Fault> {
        self.tally.faults = self.tally.faults.saturating_add(1);
        let number = fault.number();
        if !kind.may_give(number) || number == STORAGE && !self.image.has_failed() {
            let found = format!(in self.alloc; "fault {number}")?;
            self.wrong(line, "a fault of this command", found.as_str());
        }
        let is_well = kind.prints_before_faults() || number == STORAGE || self.printed.is_empty();
        self.unless(is_well, line, "no line before the fault", "lines");
        Ok(())
    }

    // Reports a command that finds another fault of the header than `info`, but for the features that it
    // accepts and `info` refuses.
    fn check_header(&mut self, kind: Kind, line: &str, answer: &Answer) -> Result<(), Fault> {
        if !kind.reads_header() || kind == Kind::Info {
            return Ok(());
        }
        let found = match answer {
            Err(fault) if fault.number() <= LAST_OF_HEADER => Some(*fault),
            _ => None,
        };
        let header_fault = self.header_fault_for(kind.accepted_features());
        if found != header_fault {
            let expected = format!(in self.alloc; "{header_fault:?} of the header")?;
            let found = format!(in self.alloc; "{found:?}")?;
            self.wrong(line, expected.as_str(), found.as_str());
        }
        Ok(())
    }

    // The fault of the header for a command that accepts these features.
    fn header_fault_for(&self, accepted: u64) -> Option<Fault> {
        let features = match self.header_fault {
            None => 0,
            Some(Fault::Incompatible(features)) => features,
            other => return other,
        };
        if features & !accepted != 0 {
            return Some(Fault::Incompatible(features & !accepted));
        }
        let is_denied = accepted & COMPRESSION_TYPE != 0 && !self.fields.agrees_on_compression;
        is_denied.then_some(Fault::Incompatible(COMPRESSION_TYPE))
    }

    // Reports bytes that have changed though they mustn't: by a command that only reads, or before a
    // refusal. `edit` and `count` may have written the header without autoclear bits. What a refused
    // `apply` leaves depends on the image.
    fn check_bytes(&mut self, kind: Kind, line: &str, answer: &Answer) {
        let is_refused = match answer {
            Ok(_) => false,
            Err(fault) => fault.number() != STORAGE,
        };
        if !kind.changes() || kind == Kind::Repair && is_refused {
            let is_kept = self.is_kept();
            self.unless(is_kept, line, "each byte as before", "others");
        } else if is_refused && kind != Kind::Apply {
            let is_kept = self.has_bytes_but_header(self.before);
            self.unless(is_kept, line, "each byte as before", "others");
        }
    }

    /// Explains a fault, and returns the lines on the image.
    pub(crate) fn explain(&mut self, fault: Fault) -> Result<String, Fault> {
        self.begin();
        let lines = locate_fault(self.alloc, &mut self.image, fault, "IMAGE")?;
        let is_kept = self.is_kept() || !self.is_fresh;
        self.unless(is_kept, "explain", "each byte as before", "others");
        Ok(lines)
    }

    /// Whether the image has these bytes, up to zeros at the end of one of them. If the image had autoclear
    /// bits, ignores the first cluster.
    pub(crate) fn has_bytes_but_header(&self, bytes: &[u8]) -> bool {
        let start = if self.fields.has_autoclear {
            self.fields.cluster_size()
        } else {
            0
        };
        is_same_from(self.image.inner.bytes(), bytes, start as usize)
    }

    /// Reports a line after which the image isn't as before, the header's cluster aside if it had autoclear
    /// bits, and restores the image.
    pub(crate) fn end_undone(&mut self, line: &str) -> Result<(), Fault> {
        let holds = self.has_bytes_but_header(self.before);
        self.unless(holds, line, "each byte as before, once undone", "others");
        self.restore()
    }

    /// Whether the image has its original bytes.
    pub(crate) fn is_kept(&self) -> bool {
        !self.image.is_written() || self.image.inner.bytes() == self.before
    }

    /// The image's bytes as commands left them.
    pub(crate) fn bytes(&self) -> &[u8] {
        self.image.inner.bytes()
    }

    /// The output of the last command.
    pub(crate) fn printed(&self) -> &str {
        std::str::from_utf8(&self.printed).unwrap_or("")
    }

    /// Takes the output of the last command.
    pub(crate) fn take_printed(&mut self) -> Vec<u8> {
        let alloc = self.alloc;
        mem::replace(&mut self.printed, Vec::new(alloc))
    }

    /// Sets the fault of the header that `info` found.
    pub(crate) fn set_header_fault(&mut self, fault: Option<Fault>) {
        self.header_fault = fault;
    }

    /// Reports a run unless a condition holds.
    pub(crate) fn unless(&mut self, holds: bool, line: &str, expected: &str, found: &str) {
        if !holds {
            self.wrong(line, expected, found);
        }
    }

    /// Reports a wrong run.
    pub(crate) fn wrong(&mut self, line: &str, expected: &str, found: &str) {
        self.tally.wrong = self.tally.wrong.saturating_add(1);
        let (seed, run) = (self.seed, self.runs);
        let _ = writeln!(
            self.report,
            "seed {seed} run {run}: {line}: expected {expected}, found {found}"
        );
    }
}

/// Whether bytes are the expected ones from a place on. The shorter ones count as if zeros followed.
pub(crate) fn is_same_from(found: &[u8], expected: &[u8], start: usize) -> bool {
    let both = found.len().min(expected.len());
    let first = start.min(both);
    let rest = start.max(both);
    found.get(first..both) == expected.get(first..both)
        && are_zeros(found.get(rest..).unwrap_or(&[]))
        && are_zeros(expected.get(rest..).unwrap_or(&[]))
}

fn are_zeros(bytes: &[u8]) -> bool {
    bytes.iter().all(|byte| *byte == 0)
}

fn image_of(alloc: Global, bytes: &[u8]) -> Result<BoundedStorage<MemStorage>, Fault> {
    Ok(BoundedStorage::new(MemStorage::new(Vec::from_slice(alloc, bytes)?)))
}

// The words of a line.
fn words_of(alloc: Global, line: &str) -> Result<Vec<String>, Fault> {
    let mut words = Vec::new(alloc);
    for word in line.split(' ') {
        words.push(String::from_str(alloc, word)?)?;
    }
    Ok(words)
}
