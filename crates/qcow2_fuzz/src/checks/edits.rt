//! Checks that `at` shows the edits of an L2 table, and that other edits undo them.

use super::drawn;
use super::readings::Readings;
use crate::fields::{COPIED, OFFSET};
use crate::kinds::Kind;
use crate::numbers::u64_at;
use crate::random::Random;
use crate::trial::Trial;
use qcow2_base::Fault;

/// The largest number of entries edited at once.
const MOST_EDITS: u64 = 3;

/// The entries of a table that edits can restore.
#[derive(Clone, Copy)]
enum Entry {
    /// The number 0.
    Absent,
    /// The number 1.
    Zeros,
    /// Data in this cluster, copied.
    Data(u64),
    /// Zeros that keep this cluster, copied.
    AllocatedZeros(u64),
}

/// The words of edits, and of edits that undo them, each after a space.
#[derive(Drop)]
struct Undone {
    edits: String,
    undo: String,
}

/// Edits a table, undoes the edits, and reports what isn't as before.
pub(crate) fn check_undone(
    trial: &mut Trial<'_>,
    random: &mut Random,
    readings: &Readings,
) -> Result<(), Fault> {
    let fields = trial.fields;
    let tables = fields.named_tables(trial.alloc, trial.before)?;
    let l1_index = drawn::l1_index(tables.as_slice(), random);
    let table = fields.l2_offset(trial.before, l1_index);
    if table == 0 || !fields.lies_apart(table) {
        return Ok(());
    }
    let first = first_index(trial, random, readings);
    let undone = drawn_edits(trial, random, table, first)?;
    if undone.edits.is_empty() {
        return Ok(());
    }
    let line = format!(in trial.alloc; "edit IMAGE {l1_index}{}", undone.edits)?;
    if trial.run(Kind::Edit, line.as_str())?.is_err() {
        return trial.restore();
    }
    check_edited(trial, &undone, l1_index)?;
    let line = format!(in trial.alloc; "edit IMAGE {l1_index}{}", undone.undo)?;
    let answer = trial.run(Kind::Edit, line.as_str())?;
    trial.unless(answer.is_ok(), line.as_str(), "status 0", "a fault");
    trial.end_undone(line.as_str())
}

// The first entry to edit: a listed one, or any.
fn first_index(trial: &Trial<'_>, random: &mut Random, readings: &Readings) -> u64 {
    let fields = trial.fields;
    let entry = random.below(readings.listed.len() as u64) as usize;
    match readings.listed.as_slice().get(entry) {
        Some(listed) if random.is_one_in(2) => {
            fields.cluster_of(listed.label) % fields.table_entries().max(1)
        }
        _ => random.below(fields.table_entries()),
    }
}

// Edits of consecutive entries that can be undone.
fn drawn_edits(
    trial: &Trial<'_>,
    random: &mut Random,
    table: u64,
    first: u64,
) -> Result<Undone, Fault> {
    let mut undone = Undone {
        edits: String::new(trial.alloc),
        undo: String::new(trial.alloc),
    };
    let last = first.saturating_add(random.below(MOST_EDITS));
    for index in first..=last.min(trial.fields.table_entries().saturating_sub(1)) {
        let place = table.saturating_add(index.saturating_mul(8));
        if let Some(entry) = entry_of(u64_at(trial.before, place), trial.fields.cluster_bits) {
            add_edit(trial, random, &mut undone, index)?;
            add_undo(&mut undone, index, entry)?;
        }
    }
    Ok(undone)
}

// The entry of a number, if edits can restore it.
fn entry_of(number: u64, cluster_bits: u32) -> Option<Entry> {
    let cluster = (number & OFFSET) >> cluster_bits.min(21);
    match number {
        0 => Some(Entry::Absent),
        1 => Some(Entry::Zeros),
        _ if cluster == 0 => None,
        _ if number == number & OFFSET | COPIED => Some(Entry::Data(cluster)),
        _ if number == number & OFFSET | COPIED | 1 => Some(Entry::AllocatedZeros(cluster)),
        _ => None,
    }
}

fn add_edit(
    trial: &Trial<'_>,
    random: &mut Random,
    undone: &mut Undone,
    index: u64,
) -> Result<(), Fault> {
    let edits = &mut undone.edits;
    match random.below(4) {
        0 => write!(edits, " zero:{index}")?,
        1 => write!(edits, " discard:{index}")?,
        2 => write!(edits, " keep:{index}")?,
        _ => {
            let cluster = random.below(trial.fields.clusters).max(1);
            write!(edits, " map:{index}:{cluster}")?;
        }
    }
    Ok(())
}

fn add_undo(undone: &mut Undone, index: u64, entry: Entry) -> Result<(), Fault> {
    let undo = &mut undone.undo;
    match entry {
        Entry::Absent => write!(undo, " discard:{index}")?,
        Entry::Zeros => write!(undo, " discard:{index} zero:{index}")?,
        Entry::Data(cluster) => write!(undo, " map:{index}:{cluster}")?,
        Entry::AllocatedZeros(cluster) => write!(undo, " map:{index}:{cluster} keep:{index}")?,
    }
    Ok(())
}

// Looks up the first edited entry, and reports a mapping that its edit doesn't leave.
fn check_edited(trial: &mut Trial<'_>, undone: &Undone, l1_index: u64) -> Result<(), Fault> {
    let Some((index, expected)) = expected_of(trial, undone)? else {
        return Ok(());
    };
    let offset = trial.fields.guest_offset(l1_index, index);
    let line = format!(in trial.alloc; "at IMAGE {offset}")?;
    let answer = trial.run(Kind::At, line.as_str())?;
    let holds = answer.is_ok() && trial.printed().starts_with(expected.as_str());
    trial.unless(
        holds,
        line.as_str(),
        expected.as_str().trim_end(),
        "another mapping",
    );
    Ok(())
}

// The index of the first edit, and the start of the mapping that it leaves.
fn expected_of(trial: &Trial<'_>, undone: &Undone) -> Result<Option<(u64, String)>, Fault> {
    let alloc = trial.alloc;
    let word = undone.edits.as_str().split(' ').nth(1).unwrap_or("");
    let (name, numbers) = word.split_once(':').unwrap_or((word, ""));
    let (index, cluster) = numbers.split_once(':').unwrap_or((numbers, "0"));
    let (Ok(index), Ok(cluster)) = (index.parse::<u64>(), cluster.parse::<u64>()) else {
        return Ok(None);
    };
    let expected = match name {
        "map" => {
            let offset = cluster.wrapping_mul(trial.fields.cluster_size());
            format!(in alloc; "data {offset:#x} copied\n")?
        }
        "discard" => String::from_str(alloc, "backing 0x")?,
        _ => String::from_str(alloc, "zero")?,
    };
    Ok(Some((index, expected)))
}

/// Makes arbitrary edits.
pub(crate) fn run_any(trial: &mut Trial<'_>, random: &mut Random) -> Result<(), Fault> {
    let tables = trial.fields.named_tables(trial.alloc, trial.before)?;
    let l1_index = drawn::l1_index(tables.as_slice(), random);
    let words = drawn::edits(trial.alloc, &trial.fields, random)?;
    let line = format!(in trial.alloc; "edit IMAGE {l1_index}{words}")?;
    let _answer = trial.run(Kind::Edit, line.as_str())?;
    trial.restore()
}
