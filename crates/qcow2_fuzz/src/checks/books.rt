//! Compares the commands that read refcounts: `check`, `check` in JSON, `layout`, `tables` and `refcount`.

use super::drawn;
use super::readings::Readings;
use crate::fields::Fields;
use crate::kinds::Kind;
use crate::random::Random;
use crate::text::{json_number, last_line, number_of, offset_of};
use crate::trial::Trial;
use qcow2_base::Fault;
use qcow2_session::Verdict;

/// The line of an L2 table in `tables`.
#[derive(Clone, Copy)]
struct PlacedTable {
    l1_index: u64,
    cluster: u64,
    guest_offset: u64,
    counter: u64,
}

/// Runs these commands, and reports what contradicts `check`.
pub(crate) fn check_books(
    trial: &mut Trial<'_>,
    random: &mut Random,
    readings: &Readings,
) -> Result<(), Fault> {
    let totals = readings.totals;
    let verdict = match (
        totals.has_errors() || trial.fields.is_l1_short() || trial.fields.is_corrupt,
        totals.leaked != 0 || totals.late_flags != 0,
    ) {
        (true, _) => Verdict::Harmful,
        (false, true) => Verdict::Harmless,
        (false, false) => Verdict::Fine,
    };
    let holds = readings.check.is_err() || readings.check == Ok(verdict);
    trial.unless(
        holds,
        "check IMAGE",
        "the status of its last line",
        "another",
    );
    check_json(trial, readings)?;
    check_layout(trial, readings)?;
    check_tables(trial)?;
    check_counters(trial, random)
}

fn check_json(trial: &mut Trial<'_>, readings: &Readings) -> Result<(), Fault> {
    let line = "check IMAGE json";
    let check = trial.run(Kind::Check, line)?;
    let totals = readings.totals;
    let corruptions = totals
        .missing
        .saturating_add(totals.past)
        .saturating_add(totals.false_flags)
        .saturating_add(totals.late_flags)
        .saturating_add(u64::from(check.is_ok() && trial.fields.is_l1_short()));
    let fields = trial.fields;
    let text = trial.printed();
    let is_same = json_number(text, "\"leaks\"") == Some(totals.leaked)
        && json_number(text, "\"corruptions\"") == Some(corruptions)
        && json_number(text, "\"shared\"") == Some(totals.shared)
        && json_number(text, "\"past\"") == Some(totals.past)
        && json_number(text, "\"false-flags\"") == Some(totals.false_flags)
        && json_number(text, "\"late-flags\"") == Some(totals.late_flags);
    let is_marked = check.is_err() || has_marks(text, fields);
    trial.unless(
        check == readings.check && is_same && is_marked,
        line,
        "what `check` says",
        "others",
    );
    Ok(())
}

// Whether the object has the marks that the header has.
fn has_marks(text: &str, fields: Fields) -> bool {
    text.contains("\"dirty\": true") == fields.is_dirty
        && text.contains("\"corrupt\": true") == fields.is_corrupt
}

fn check_layout(trial: &mut Trial<'_>, readings: &Readings) -> Result<(), Fault> {
    let line = "layout IMAGE";
    let layout = trial.run(Kind::Layout, line)?;
    let is_row = end_of_runs(trial.printed()).is_some();
    let is_begun = layout.is_err() || trial.printed().starts_with("0 ");
    trial.unless(is_row && is_begun, line, "runs one after another", "others");
    trial.unless(
        layout.err() == readings.check.err(),
        line,
        "the fault of `check`",
        "another",
    );
    let line = "layout IMAGE svg";
    let picture = trial.run(Kind::Layout, line)?;
    trial.unless(picture == layout, line, "the fault of `layout`", "another");
    let is_whole = picture.is_err() || last_line(trial.printed()) == "</svg>";
    trial.unless(is_whole, line, "a whole picture", "a part of one");
    Ok(())
}

// The end of runs of clusters that follow one another from cluster 0 on, if they do and none is empty.
fn end_of_runs(text: &str) -> Option<u64> {
    let mut end = 0u64;
    for line in text.lines() {
        let (first, rest) = line.split_once(' ')?;
        let (count, _) = rest.split_once(' ')?;
        let count = number_of(count)?;
        if number_of(first)? != end || count == 0 {
            return None;
        }
        end = end.checked_add(count)?;
    }
    Some(end)
}

// Runs `tables`, and `refcount` of an L2 table's cluster.
fn check_tables(trial: &mut Trial<'_>) -> Result<(), Fault> {
    let line = "tables IMAGE";
    let tables = trial.run(Kind::Tables, line)?;
    if tables.is_err() {
        return Ok(());
    }
    let mut placed = Vec::new(trial.alloc);
    for line in trial.printed().lines() {
        if let Some(table) = placed_table_of(line) {
            placed.push(table)?;
        }
    }
    let holds = placed.as_slice().iter().all(|table| is_named(trial, table));
    trial.unless(holds, line, "what the L1 table names", "others");
    let Some(table) = placed.as_slice().last() else {
        return Ok(());
    };
    let (cluster, counter) = (table.cluster, table.counter);
    let expected = format!(in trial.alloc; "{cluster} {counter}\n")?;
    let line = format!(in trial.alloc; "refcount IMAGE {cluster}")?;
    let _answer = trial.run(Kind::Refcount, line.as_str())?;
    let holds = trial.printed() == expected.as_str();
    trial.unless(
        holds,
        line.as_str(),
        "the counter that `tables` prints",
        "another",
    );
    Ok(())
}

fn placed_table_of(line: &str) -> Option<PlacedTable> {
    let (l1_index, rest) = line.strip_prefix("l2 ")?.split_once(' ')?;
    let (cluster, rest) = rest.split_once(' ')?;
    let (guest_offset, rest) = rest.split_once(' ')?;
    let (_, counter) = rest.split_once(' ')?;
    Some(PlacedTable {
        l1_index: number_of(l1_index)?,
        cluster: number_of(cluster)?,
        guest_offset: offset_of(guest_offset)?,
        counter: number_of(counter)?,
    })
}

// Whether the L1 entry names the table, and maps the printed guest offset.
fn is_named(trial: &Trial<'_>, table: &PlacedTable) -> bool {
    let fields = trial.fields;
    let offset = table.cluster.wrapping_mul(fields.cluster_size());
    offset == fields.l2_offset(trial.before, table.l1_index)
        && table.guest_offset == fields.guest_offset(table.l1_index, 0)
}

// Runs `refcount` of any two clusters.
fn check_counters(trial: &mut Trial<'_>, random: &mut Random) -> Result<(), Fault> {
    let first = drawn::cluster(&trial.fields, random);
    let second = drawn::cluster(&trial.fields, random);
    let line = format!(in trial.alloc; "refcount IMAGE {first} {second}")?;
    let refcount = trial.run(Kind::Refcount, line.as_str())?;
    let count = trial.printed().lines().count();
    let holds = count == if refcount.is_ok() { 2 } else { 0 };
    trial.unless(holds, line.as_str(), "a line for each cluster", "others");
    Ok(())
}
