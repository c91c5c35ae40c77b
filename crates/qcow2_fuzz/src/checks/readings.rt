//! The results of the commands that only read.

use super::drawn;
use crate::kinds::Kind;
use crate::random::Random;
use crate::text::{Extent, Listed, Totals, extents_in, listed_in, totals_in};
use crate::trial::{Answer, Trial};
use qcow2_base::Fault;

/// The results and the parsed output of commands.
#[derive(Drop)]
pub(crate) struct Readings {
    pub(crate) list: Answer,
    pub(crate) listed: Vec<Listed>,
    pub(crate) map: Answer,
    pub(crate) extents: Vec<Extent>,
    pub(crate) check: Answer,
    pub(crate) totals: Totals,
    /// Whether no two L1 entries name one L2 table.
    pub(crate) has_distinct_tables: bool,
}

impl Readings {
    /// Whether both `list` and `map` accept the features of the image.
    pub(crate) fn has_both(&self) -> bool {
        let is_accepted = |answer| !matches!(answer, Err(Fault::Incompatible(_)));
        is_accepted(self.list) && is_accepted(self.map)
    }

    /// Whether the tables of the image don't overlap, as far as `check` shows.
    pub(crate) fn lie_apart(&self) -> bool {
        self.check.is_ok() && self.totals.shared == 0 && self.has_distinct_tables
    }
}

/// Runs `list`, `map` and `check`, and `l2` on any cluster.
pub(crate) fn read(trial: &mut Trial<'_>, random: &mut Random) -> Result<Readings, Fault> {
    let (list, listed) = read_list(trial)?;
    let (map, extents) = read_map(trial)?;
    let (check, totals) = read_check(trial)?;
    run_l2_anywhere(trial, random)?;
    Ok(Readings {
        list,
        listed,
        map,
        extents,
        check,
        totals,
        has_distinct_tables: trial.fields.has_distinct_tables(trial.alloc, trial.before)?,
    })
}

fn read_list(trial: &mut Trial<'_>) -> Result<(Answer, Vec<Listed>), Fault> {
    let list = trial.run(Kind::List, "list IMAGE")?;
    match listed_in(trial.alloc, trial.printed())? {
        Some(listed) => Ok((list, listed)),
        None => {
            trial.wrong("list IMAGE", "lines of `list`", "others");
            Ok((list, Vec::new(trial.alloc)))
        }
    }
}

fn read_map(trial: &mut Trial<'_>) -> Result<(Answer, Vec<Extent>), Fault> {
    let map = trial.run(Kind::Map, "map IMAGE")?;
    match extents_in(trial.alloc, trial.printed())? {
        Some(extents) => Ok((map, extents)),
        None => {
            trial.wrong("map IMAGE", "lines of `map`", "others");
            Ok((map, Vec::new(trial.alloc)))
        }
    }
}

/// Runs `check`, and returns its totals too: zeros if it is refused.
pub(crate) fn read_check(trial: &mut Trial<'_>) -> Result<(Answer, Totals), Fault> {
    let check = trial.run(Kind::Check, "check IMAGE")?;
    let fields = trial.fields;
    let says = |start: &str| trial.printed().lines().any(|line| line.starts_with(start));
    let holds = says("short-l1 ") == fields.is_l1_short()
        && says("dirty") == fields.is_dirty
        && says("corrupt") == fields.is_corrupt;
    trial.unless(
        check.is_err() || holds,
        "check IMAGE",
        "what the header says",
        "otherwise",
    );
    match totals_in(trial.printed()) {
        Some(totals) => Ok((check, totals)),
        None => {
            trial.unless(
                check.is_err(),
                "check IMAGE",
                "totals in the last line",
                "none",
            );
            Ok((check, Totals::NONE))
        }
    }
}

// Runs `l2` on any cluster.
fn run_l2_anywhere(trial: &mut Trial<'_>, random: &mut Random) -> Result<(), Fault> {
    let cluster = drawn::cluster(&trial.fields, random);
    let cluster_bits = random.below(5).saturating_add(9);
    let line = format!(in trial.alloc; "l2 IMAGE {cluster_bits} {cluster}")?;
    let _answer = trial.run(Kind::L2, line.as_str())?;
    Ok(())
}
