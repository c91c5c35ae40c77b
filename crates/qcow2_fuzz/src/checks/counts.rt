//! Checks that opposite steps undo steps of refcounts, and that they agree with `refcount`.

use super::drawn;
use crate::kinds::Kind;
use crate::numbers::u64_at;
use crate::random::Random;
use crate::trial::Trial;
use qcow2_base::Fault;

/// Steps a refcount, then makes the opposite step, and reports what isn't as before.
pub(crate) fn check_undone(trial: &mut Trial<'_>, random: &mut Random) -> Result<(), Fault> {
    let fields = trial.fields;
    let number = u64_at(trial.before, fields.reftable_offset);
    let block = fields.cluster_of(number);
    // only a block with a valid offset outside the header's cluster, of a refcount table that has clusters
    let table_clusters = u64_at(trial.before, 56) >> 32;
    if fields.within_cluster(number) != 0 || block == 0 || table_clusters == 0 {
        return Ok(());
    }
    let index = random.below(fields.block_entries());
    let (step, undo) = if random.is_one_in(2) {
        ("inc", "dec")
    } else {
        ("dec", "inc")
    };
    let refcount = format!(in trial.alloc; "refcount IMAGE {index}")?;
    let counter = match trial.run(Kind::Refcount, refcount.as_str())? {
        Ok(_) => Some(String::from_str(trial.alloc, trial.printed())?),
        Err(_) => None,
    };
    let line = format!(in trial.alloc; "count IMAGE {block} {step}:{index}")?;
    if trial.run(Kind::Count, line.as_str())?.is_err() {
        return trial.restore();
    }
    let is_refused = trial.printed() == "refused\n";
    let holds = is_refused || counter.is_none_or(|counter| is_counter(trial, &counter, index));
    trial.unless(holds, line.as_str(), "the counter of `refcount`", "another");
    if !is_refused {
        let line = format!(in trial.alloc; "count IMAGE {block} {undo}:{index}")?;
        let undone = trial.run(Kind::Count, line.as_str())?;
        trial.unless(undone.is_ok(), line.as_str(), "status 0", "a fault");
    }
    trial.end_undone(line.as_str())
}

// Whether a step prints the refcount that `refcount` printed of its cluster.
fn is_counter(trial: &Trial<'_>, counter: &String, index: u64) -> bool {
    let Ok(expected) = format!(in trial.alloc; "{index} ") else {
        return false;
    };
    let before = counter.as_str().strip_prefix(expected.as_str());
    before.is_some() && trial.printed().strip_prefix("ok ") == before
}

/// Makes arbitrary steps.
pub(crate) fn run_any(trial: &mut Trial<'_>, random: &mut Random) -> Result<(), Fault> {
    let fields = trial.fields;
    let block = drawn::cluster(&fields, random);
    let first = drawn::index(fields.block_entries(), random);
    let second = drawn::index(fields.block_entries(), random);
    let line = format!(in trial.alloc; "count IMAGE {block} dec:{first} inc:{second}")?;
    let _answer = trial.run(Kind::Count, line.as_str())?;
    trial.restore()
}
