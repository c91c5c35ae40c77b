//! Makes each run over an image in memory and over a file, and repeats it if memory is refused the first
//! time.
//!
//! A refusal comes from outside, once in the life of the program. The preparation of a run is repeated too,
//! so all runs are made, whichever allocation is refused.

use crate::attempts::{Attempt, Wrong, begin, unless};
use crate::calls::{Answer, make};
use crate::rows::{blocks, headers, lists, new_values, sessions, tables};
use crate::runs::{Call, Run};
use qcow2_base::{Fault, FileStorage, MemStorage};
use std::alloc::Global;
use std::fs;
use std::io::Write;

/// The runs to make.
#[derive(Clone, Copy)]
pub(crate) enum Selected {
    All,
    /// Those of this call.
    Call(Call),
    /// The one with this number, from 1 on.
    Number(u64),
}

/// Makes the selected runs, and reports wrong ones.
#[derive(Drop)]
pub(crate) struct Memory<'a, O> {
    pub(crate) rt: &'a HostRuntime,
    pub(crate) out: &'a mut O,
    /// The path of a run's file.
    pub(crate) path: &'a str,
    pub(crate) selected: Selected,
    /// The number of runs seen, selected or not, and of runs made.
    pub(crate) passed: u64,
    pub(crate) made: u64,
    pub(crate) all_right: bool,
}

impl<O: Write> Memory<'_, O> {
    /// Makes the selected runs.
    pub(crate) fn make_all(&mut self) {
        self.make_each(headers::runs());
        self.make_each(tables::runs());
        self.make_each(blocks::runs());
        self.make_each(new_values::runs());
        self.make_each(lists::runs());
        self.make_each(sessions::runs());
    }

    fn make_each(&mut self, runs: &[Run]) {
        for run in runs {
            self.passed = self.passed.saturating_add(1);
            if self.is_selected(run) {
                self.make(run);
            }
        }
    }

    fn is_selected(&self, run: &Run) -> bool {
        match self.selected {
            Selected::All => true,
            Selected::Call(call) => call == run.call,
            Selected::Number(number) => number == self.passed,
        }
    }

    fn make(&mut self, run: &Run) {
        self.made = self.made.saturating_add(1);
        let made = match over_memory(self.rt.alloc(), run) {
            Ok(()) if run.is_in_a_file() => over_file(self.rt, self.path, run),
            made => made,
        };
        if let Err(wrong) = made {
            self.all_right = false;
            let _ = writeln!(self.out, "{:?}: {wrong:?} is wrong", run.call);
        }
    }
}

/// Makes a call, and repeats it if it fails the first time.
pub(crate) fn again<T: Drop, E: Drop, F: Fn() -> Result<T, E>>(call: F) -> Result<T, E>
    requires { F.IsAlwaysCallable call }
{
    match call() {
        Err(_) => call(),
        answer => answer,
    }
}

fn begun(alloc: Global, run: &Run) -> Result<Attempt, Fault> {
    again(|| begin(alloc, run))
}

fn over_memory(alloc: Global, run: &Run) -> Result<(), Wrong> {
    let mut image = again(|| run.before(alloc))?;
    let mut attempt = begun(alloc, run)?;
    make_in_memory(run, &mut attempt, &mut image)
}

fn make_in_memory(run: &Run, attempt: &mut Attempt, image: &mut MemStorage) -> Result<(), Wrong> {
    for _ in 0..2 {
        let answer = make(run.call, &mut attempt.held, image);
        if has_done(run, attempt, answer, image.bytes())? {
            return Ok(());
        }
    }
    Err(Wrong::Answer)
}

fn over_file(rt: &HostRuntime, path: &str, run: &Run) -> Result<(), Wrong> {
    let mut attempt = begun(rt.alloc(), run)?;
    make_in_file(rt, path, run, &mut attempt)
}

fn open(rt: &HostRuntime, path: &str) -> Result<FileStorage, Fault> {
    FileStorage::open(rt, path, true)
}

fn make_in_file(
    rt: &HostRuntime,
    path: &str,
    run: &Run,
    attempt: &mut Attempt,
) -> Result<(), Wrong> {
    let is_written = fs::write(rt, path, attempt.before.bytes()).is_ok();
    unless(is_written, Wrong::Beginning)?;
    let mut file = again(|| open(rt, path))?;
    for _ in 0..2 {
        let answer = make(run.call, &mut attempt.held, &mut file);
        let Ok(bytes) = again(|| fs::read(rt, path)) else {
            return Err(Wrong::Beginning);
        };
        if has_done(run, attempt, answer, &bytes)? {
            return Ok(());
        }
    }
    Err(Wrong::Answer)
}

// Returns whether the call succeeded. Fails unless everything is right after this answer. A call may fail
// because memory runs out, or by the storage fault if the image had to grow.
fn has_done(run: &Run, attempt: &mut Attempt, answer: Answer, image: &[u8]) -> Result<bool, Wrong> {
    let may_fail = answer != Answer::StorageFailed || attempt.grows;
    unless(may_fail, Wrong::Answer)?;
    attempt.check(run, answer, image)?;
    Ok(answer == Answer::Done)
}
