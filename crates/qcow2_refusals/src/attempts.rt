//! A run under way, and the checks after its call.

use crate::calls::Answer;
use crate::held::{Held, MOST_NUMBERS, Shown, hold};
use crate::runs::Run;
use qcow2_base::{Fault, MemStorage};
use std::alloc::Global;

/// The part of a run that is wrong.
#[derive(Clone, Copy, Debug)]
pub(crate) enum Wrong {
    /// Its preparation failed.
    Beginning,
    /// The call's result, which no refusal explains.
    Answer,
    /// The image's bytes.
    Image,
    /// The text that the call reported.
    Report,
    /// The values that the call works on besides the image.
    Held,
}

impl From<Fault> for Wrong {
    fn from(_fault: Fault) -> Wrong {
        Wrong::Beginning
    }
}

/// Fails with `wrong` unless something holds.
pub(crate) fn unless(holds: bool, wrong: Wrong) -> Result<(), Wrong> {
    if holds {
        return Ok(());
    }
    Err(wrong)
}

/// The values of a run, the numbers that they showed at first and show now, and its image before and after
/// the call.
#[derive(Drop)]
pub(crate) struct Attempt {
    pub(crate) held: Held,
    first: Shown,
    shown: Shown,
    pub(crate) before: MemStorage,
    opened: MemStorage,
    after: MemStorage,
    /// Whether the call lengthens the image.
    pub(crate) grows: bool,
}

/// Begins a run.
pub(crate) fn begin(alloc: Global, run: &Run) -> Result<Attempt, Fault> {
    let mut first = Shown(Vec::with_capacity(alloc, MOST_NUMBERS)?);
    let shown = Shown(Vec::with_capacity(alloc, MOST_NUMBERS)?);
    let before = run.before(alloc)?;
    let opened = run.opened(alloc)?;
    let after = run.after(alloc)?;
    let held = hold(alloc, run)?;
    held.show(&mut first);
    let grows = before.bytes().len() < after.bytes().len();
    Ok(Attempt {
        held,
        first,
        shown,
        before,
        opened,
        after,
        grows,
    })
}

impl Attempt {
    /// Fails unless everything is right after this answer: the call's report, the values that it works on,
    /// and the image, which has these bytes now.
    pub(crate) fn check(&mut self, run: &Run, answer: Answer, image: &[u8]) -> Result<(), Wrong> {
        unless(answer != Answer::Other, Wrong::Answer)?;
        let is_done = answer == Answer::Done;
        let image_stands = if is_done {
            image == self.after.bytes()
        } else {
            image == self.before.bytes() || image == self.opened.bytes()
        };
        unless(image_stands, Wrong::Image)?;
        unless(self.report_stands(run, answer), Wrong::Report)?;
        let changes = if is_done { run.changes } else { &[] };
        unless(self.held_stands(changes), Wrong::Held)
    }

    // Whether the whole report is there, or a first part of it if the call was refused.
    fn report_stands(&self, run: &Run, answer: Answer) -> bool {
        let (all, reported) = (run.reports.as_bytes(), self.held.out.as_slice());
        let is_long_enough = answer != Answer::Done || reported.len() == all.len();
        is_long_enough && all.get(..reported.len()) == Some(reported)
    }

    // Whether the values show their first numbers, apart from these changes.
    fn held_stands(&mut self, changes: &[(usize, u64)]) -> bool {
        self.held.show(&mut self.shown);
        takes_all_back(&mut self.shown.0, &self.first.0, changes)
    }
}

// Puts the old numbers back in place of the changes, and returns whether all numbers are old then.
fn takes_all_back(numbers: &mut [u64], first: &[u64], changes: &[(usize, u64)]) -> bool {
    for change in changes {
        if !takes_back(numbers, first, *change) {
            return false;
        }
    }
    *numbers == *first
}

// Puts the old number back in place of a change, and returns whether the change was there.
fn takes_back(numbers: &mut [u64], first: &[u64], (index, number): (usize, u64)) -> bool {
    let (Some(now), Some(old)) = (numbers.get_mut(index), first.get(index)) else {
        return false;
    };
    let stands = *now == number;
    *now = *old;
    stands
}
