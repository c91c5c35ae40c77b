//! Lists of refcount steps of a block: each step is done or refused by itself.

ghost use Rattle.std.specs.Prelude.{◌≡◌, ◌<◌, Err, IfErr, IfOk, IfSome, length, nat_lt, not};
ghost use Rattle.qcow2_base.specs.declared.fault.Fault.TheVariants.{BadStep};
ghost use Rattle.qcow2_edits.specs.Steps.{Counts, MakesStep, steps_left, first_unfit_step, index_of, block_left, steps_or_refusal};
ghost use Rattle.qcow2_metadata.specs.Results.{Computes};

use qcow2_base::Fault;
use qcow2_metadata::RefBlock;
use std::alloc::Global;

/// A change of one refcount of a block, with the refcount's index.
#[derive(Clone, Copy, Debug, PartialEq, Eq)]
pub enum Step {
    /// Adds 1.
    Inc { index: usize },
    /// Subtracts 1.
    Dec { index: usize },
}

/// The result of a step.
#[derive(Clone, Copy, Debug, PartialEq, Eq)]
pub enum StepReply {
    /// The step was done. The value is the refcount before it.
    Done(u64),
    /// The refcount stays: it was at the greatest number of its width, or at 0.
    Refused,
}

impl Step {
    // Returns the index of the step's refcount.
    #[inline]
    fn index(&self) -> usize
        ensures { result ≡ index_of self.now }
    {
        match *self {
            Step::Inc { index } | Step::Dec { index } => index,
        }
    }

    // Makes the step, if the refcount stays in range.
    fn make(&self, block: &mut RefBlock) -> StepReply
        requires { index_of self.now < length block.old.numbers }
        ensures { MakesStep self.now result block.old block.new }
    {
        let mut guard = block.lock_write();
        let answer = match *self {
            Step::Inc { index } => guard.increment(index),
            Step::Dec { index } => guard.decrement(index),
        };
        match answer {
            Ok(before) => StepReply::Done(before),
            Err(_) => StepReply::Refused,
        }
    }
}

// Returns the position of the first step whose index is past the block's end.
fn first_unfit(block: &RefBlock, steps: &[Step]) -> Option<usize>
    ensures { result ≡ first_unfit_step (length block.now.numbers) steps.now }
{
    let entries = block.entries();
    steps.iter().position(
        |step: &Step| -> bool
            ensures { result ≡ not (nat_lt (index_of step.now) entries) }
        { step.index() >= entries },
    )
}

/// Makes all steps of a block in order, and returns a reply for each. The block then counts as modified if at
/// least one was done.
///
/// Refuses steps whose indices aren't all in bounds (fault 33), with the position of the first that isn't.
/// Allocates the replies before the first step. A refusal leaves the block unchanged. Its cluster stays.
pub fn step_block(
    alloc: Global,
    block: &mut RefBlock,
    steps: &[Step],
) -> Result<Vec<StepReply>, Fault>
    ensures unfit { IfSome (first_unfit_step (length block.old.numbers) steps.now)
        (λ at. result ≡ Err (BadStep at)) }
    ensures exact { Computes (λ replies. steps_left block.new replies.items) result
        (steps_or_refusal block.old steps.now) }
    ensures unchanged { IfErr result (λ fault. block.new ≡ block.old) }
    ensures block { IfOk result (λ replies.
        block.new ≡ block_left replies.items block.old block.new.numbers) }
    ensures counts { IfOk result (λ replies. Counts steps.now replies.items block.old block.new) }
{
    if let Some(position) = first_unfit(block, steps) {
        return Err(Fault::BadStep(position));
    }
    let mut replies = Vec::with_capacity(alloc, steps.len())?;
    for step in steps {
        replies.push(step.make(block)).unwrap();
    }
    Ok(replies)
}
