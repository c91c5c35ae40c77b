//! Compares `list`, `map`, `at` and `l2`.

use super::drawn;
use super::json::rows_of;
use super::readings::Readings;
use crate::fields::Fields;
use crate::kinds::Kind;
use crate::random::Random;
use crate::text::{Content, Extent, Listed, Mapping, listed_in, mapping_of};
use crate::trial::{Answer, Trial};
use qcow2_base::Fault;

/// The number of offsets to look up.
const LOOKUPS: u32 = 6;

/// Reports extents that don't follow one another over the disk, or that contradict `list` or the JSON form.
pub(crate) fn check_map(trial: &mut Trial<'_>, readings: &Readings) -> Result<(), Fault> {
    let (fields, line) = (trial.fields, "map IMAGE");
    let extents = readings.extents.as_slice();
    let end = end_of(extents);
    let is_row = end.is_some_and(|end| end == fields.size || readings.map.is_err());
    trial.unless(
        is_row,
        line,
        "extents up to the disk's size",
        "a gap or another end",
    );
    let longest = extents.windows(2).all(|pair| !goes_on(pair));
    trial.unless(
        longest,
        line,
        "extents as long as can be",
        "two that are one",
    );
    if readings.has_both() {
        check_listed(trial, readings);
    }
    check_json(trial, readings)
}

// Reports extents that contradict `list`.
fn check_listed(trial: &mut Trial<'_>, readings: &Readings) {
    let (fields, line) = (trial.fields, "map IMAGE");
    let extents = readings.extents.as_slice();
    trial.unless(
        readings.map.is_ok() || readings.map == readings.list,
        line,
        "the fault of `list`",
        "another",
    );
    let rest = unmatched(extents, readings.listed.as_slice(), fields.cluster_size());
    let agree = rest.is_some_and(|lines| {
        lines
            .first()
            .is_none_or(|listed| listed.label >= fields.size)
            || readings.map.is_err()
    });
    trial.unless(agree, line, "what `list` prints", "other contents");
}

// The end of extents that follow one another from offset 0 on, if they do and none is empty.
fn end_of(extents: &[Extent]) -> Option<u64> {
    let mut end = 0u64;
    for extent in extents {
        if extent.start != end || extent.length == 0 {
            return None;
        }
        end = end.checked_add(extent.length)?;
    }
    Some(end)
}

// Whether the second of two extents continues the first.
fn goes_on(pair: &[Extent]) -> bool {
    match pair {
        [first, second] => second.content == first.content.moved(first.length),
        _ => false,
    }
}

// The lines of `list` after those of the extents, if extents and lines agree.
fn unmatched<'a>(
    extents: &[Extent],
    lines: &'a [Listed],
    cluster_size: u64,
) -> Option<&'a [Listed]> {
    let mut rest = lines;
    for extent in extents {
        rest = rest.get(matched(extent, rest, cluster_size)?..)?;
    }
    Some(rest)
}

// The number of lines for an extent at the start of these lines, if they agree with it.
fn matched(extent: &Extent, lines: &[Listed], cluster_size: u64) -> Option<usize> {
    if extent.content == Content::Absent {
        let end = extent.start.saturating_add(extent.length);
        return lines
            .first()
            .is_none_or(|listed| listed.label >= end)
            .then_some(0);
    }
    let count = extent.length.div_ceil(cluster_size.max(1)) as usize;
    let mut distance = 0u64;
    for listed in lines.get(..count)? {
        if listed.label != extent.start.wrapping_add(distance)
            || listed.mapping.content(0) != extent.content.moved(distance)
        {
            return None;
        }
        distance = distance.wrapping_add(cluster_size);
    }
    Some(count)
}

// Runs `map` in JSON, and reports extents other than those of `map`.
fn check_json(trial: &mut Trial<'_>, readings: &Readings) -> Result<(), Fault> {
    let line = "map IMAGE json";
    let map = trial.run(Kind::Map, line)?;
    let rows = rows_of(trial.alloc, readings.extents.as_slice(), map.is_ok())?;
    // nothing is printed if the L1 table is refused
    let is_empty = map.is_err() && trial.printed().is_empty() && readings.extents.is_empty();
    let is_same = map == readings.map && (is_empty || trial.printed() == rows.as_str());
    trial.unless(is_same, line, "what `map` says", "another list");
    Ok(())
}

/// Looks up offsets with `at`, and a table with `l2`, and reports what contradicts `list`.
pub(crate) fn check_lookups(
    trial: &mut Trial<'_>,
    random: &mut Random,
    readings: &Readings,
) -> Result<(), Fault> {
    for _ in 0..LOOKUPS {
        let offset = drawn_offset(trial, random, readings);
        check_lookup(trial, readings, offset)?;
    }
    check_l2(trial, random, readings)
}

// An offset in a listed guest cluster, at or just before the start of an extent, or any.
fn drawn_offset(trial: &Trial<'_>, random: &mut Random, readings: &Readings) -> u64 {
    let index = random.below(readings.listed.len().max(readings.extents.len()) as u64) as usize;
    let listed = readings.listed.as_slice().get(index);
    let extent = readings.extents.as_slice().get(index);
    match (random.below(4), listed, extent) {
        (0 | 1, Some(listed), _) => {
            let distance = random.below(trial.fields.cluster_size());
            listed.label.wrapping_add(distance)
        }
        (2, _, Some(extent)) => extent.start.wrapping_sub(random.below(2)),
        _ => drawn::guest_offset(&trial.fields, random),
    }
}

fn check_lookup(trial: &mut Trial<'_>, readings: &Readings, offset: u64) -> Result<(), Fault> {
    let line = format!(in trial.alloc; "at IMAGE {offset}")?;
    let at = trial.run(Kind::At, line.as_str())?;
    let distance = trial.fields.within_cluster(offset);
    let found = mapping_of(trial.printed().trim_end_matches('\n'));
    let expected = listed_at(readings, offset.wrapping_sub(distance));
    let holds = match (at, expected) {
        (Ok(_), Some(mapping)) => found == Some(mapping),
        (Ok(_), None) => found.is_some() && readings.list.is_err(),
        (Err(_), _) => readings.list.is_err() && found.is_none(),
    };
    trial.unless(holds, line.as_str(), "what `list` says", "another mapping");
    let is_extent = at.is_err() || agrees_with_map(readings, offset, distance, found);
    trial.unless(
        is_extent,
        line.as_str(),
        "what `map` says",
        "another mapping",
    );
    Ok(())
}

// The mapping by `list` of the guest cluster at an offset. Unknown past the last line if `list` was
// refused.
fn listed_at(readings: &Readings, offset: u64) -> Option<Mapping> {
    let listed = readings.listed.as_slice();
    match listed.iter().find(|listed| listed.label >= offset) {
        Some(found) if found.label == offset => Some(found.mapping),
        None if readings.list.is_err() => None,
        _ => Some(Mapping::Backing { offset }),
    }
}

// Whether a mapping agrees with the extent at the offset, if there is one.
fn agrees_with_map(
    readings: &Readings,
    offset: u64,
    distance: u64,
    mapping: Option<Mapping>,
) -> bool {
    let extents = readings.extents.as_slice();
    let extent = extents.iter().find(|extent| offset >= extent.start
        && offset - extent.start < extent.length);
    match (extent, mapping) {
        (Some(extent), Some(mapping)) => {
            extent.content.moved(offset.wrapping_sub(extent.start)) == mapping.content(distance)
        }
        _ => true,
    }
}

// Lists with `l2` a table that an L1 entry names, and reports lines other than those of `list`.
fn check_l2(trial: &mut Trial<'_>, random: &mut Random, readings: &Readings) -> Result<(), Fault> {
    let fields = trial.fields;
    let tables = fields.named_tables(trial.alloc, trial.before)?;
    let l1_index = drawn::l1_index(tables.as_slice(), random);
    let offset = fields.l2_offset(trial.before, l1_index);
    if offset == 0 {
        return Ok(());
    }
    let (bits, cluster) = (fields.cluster_bits, fields.cluster_of(offset));
    let line = format!(in trial.alloc; "l2 IMAGE {bits} {cluster}")?;
    let l2 = trial.run(Kind::L2, line.as_str())?;
    let lines = listed_in(trial.alloc, trial.printed())?;
    let first = fields.guest_offset(l1_index, 0);
    let holds = fields.is_external
        || lines.is_some_and(|lines| is_part(l2, lines.as_slice(), readings, first, &fields));
    trial.unless(holds, line.as_str(), "lines of `list`", "others");
    Ok(())
}

// Whether the lines of `l2` are those of `list` from the table's first guest offset on. If `list` was
// refused, it may have printed no line of this table.
fn is_part(l2: Answer, lines: &[Listed], readings: &Readings, first: u64, fields: &Fields) -> bool {
    let listed = readings.listed.as_slice();
    let start = listed.iter().filter(|listed| listed.label < first).count();
    if l2.is_err() || readings.list.is_err() && start == listed.len() {
        return readings.list.is_err();
    }
    let rest = listed.get(start..).unwrap_or(&[]);
    let Some(part) = rest.get(..lines.len()) else {
        return false;
    };
    let end = fields
        .guest_offset(0, fields.table_entries())
        .saturating_add(first);
    let is_whole = rest
        .get(lines.len())
        .is_none_or(|listed| listed.label >= end);
    is_whole
        && part.iter().zip(lines).all(|(listed, line)| {
            listed.mapping == line.mapping
                && listed.label == first.wrapping_add(fields.guest_offset(0, line.label))
        })
}
