//! The command `edit`: edits one L2 table.

ghost use Rattle.std.specs.Prelude.{◌≡◌, ◌++◌, flat_map, map, string_bytes};
ghost use Rattle.qcow2_base.specs.Storage.{OnImage, OnlyReads};
ghost use Rattle.qcow2_edits.specs.Edits.{cluster_numbers};
ghost use Rattle.qcow2_metadata.specs.Header.{geometry_of};
ghost use Rattle.qcow2_metadata.specs.Results.{Answers};
ghost use Rattle.qcow2_metadata.specs.Table.{l2_layout};
ghost use Rattle.qcow2_session.specs.Commands.Changing.{PrintsChange};
ghost use Rattle.qcow2_session.specs.Commands.Edit.{edit_of, edit_command, end_of_edits, freed_line, gained_line, map_edit_of, table_cluster};
ghost use Rattle.qcow2_session.specs.Commands.Printing.{PrintsLast, PrintsText, run_over};
ghost use Rattle.qcow2_session.specs.Commands.Words.{Parses, parts_of};

use super::Command;
use super::words::{Arguments, FromWord, number, parts};
use crate::lines::{LineBuffer, ToLine, print_lines};
use crate::{Edit, Outcome, edit_image, load_l1_table, named_cluster};
use qcow2_base::{Device, Fault, HostCluster, Storage};
use qcow2_metadata::{ClustersToFreeEntry, Header};
use std::alloc::{AllocError, Global};
use std::io::Write;

/// Edits the L2 table that an L1 entry names, in an image with this header. Then prints the clusters that
/// lost a reference, and those that gained one.
///
/// Returns the fault of the L1 table, 23 if the L1 entry names no table, the fault of the L2 table, or that
/// of the first edit that doesn't fit, before any line and without changing a byte. A failed write to `out`
/// is the storage fault: the table is written by then. After a storage fault of the image the table may be
/// partly or wholly written.
pub fn edit_entries<S: Storage, O: Write>(
    alloc: Global,
    image: &mut S,
    header: &Header,
    l1_index: usize,
    edits: &[Edit],
    out: &mut O,
) -> Result<(), Fault>
    ensures edits { PrintsChange (run_over S.state O.contents result image.old image.new out.old out.new)
        (l2_layout (geometry_of header.now)) (end_of_edits l1_index edits.now header.now) }
    ensures last { PrintsLast (run_over S.state O.contents result image.old image.new out.old out.new) }
{
    let cluster = table_of_entry(alloc, image, header, l1_index)?;
    let outcome = edit_image(alloc, image, header, cluster, edits)?;
    print_outcome(&outcome, out)
}

// Does the same, and waits until the edits are on the device before it prints.
pub(super) fn edit_and_wait<S: Device, O: Write>(
    alloc: Global,
    image: &mut S,
    header: &Header,
    l1_index: usize,
    edits: &[Edit],
    out: &mut O,
) -> Result<(), Fault>
    ensures edits { PrintsChange (run_over S.state O.contents result image.old image.new out.old out.new)
        (l2_layout (geometry_of header.now)) (end_of_edits l1_index edits.now header.now) }
    ensures last { PrintsLast (run_over S.state O.contents result image.old image.new out.old out.new) }
{
    let cluster = table_of_entry(alloc, image, header, l1_index)?;
    let outcome = edit_image(alloc, image, header, cluster, edits)?;
    image.sync()?;
    print_outcome(&outcome, out)
}

// Returns the cluster of the L2 table that an L1 entry names.
fn table_of_entry<S: Storage>(
    alloc: Global,
    image: &mut S,
    header: &Header,
    l1_index: usize,
) -> Result<HostCluster, Fault>
    ensures exact { OnImage (S.state image.old) (λ bytes.
        Answers (λ cluster. cluster) result (table_cluster header.now l1_index bytes)) }
    ensures storage { OnlyReads result (S.state image.old) (S.state image.new) }
{
    let l1_table = load_l1_table(alloc, image, header)?;
    named_cluster(&l1_table, l1_index).ok_or(Fault::NotPlaced)
}

#[tactic(auto, using(crate::proofs::PrintingLemmas::outcome_printed))]
fn print_outcome<O: Write>(outcome: &Outcome, out: &mut O) -> Result<(), Fault>
    ensures { PrintsText result (O.contents out.old) (O.contents out.new)
        (flat_map freed_line outcome.now.freed.items
        ++ flat_map gained_line (cluster_numbers outcome.now.gained.items)) }
{
    print_lines(outcome.freed.as_slice(), out)?;
    print_lines(outcome.gained.as_slice(), out)
}

/// Clusters that lost a reference.
impl ToLine for ClustersToFreeEntry {
    ghost text = { freed_line };

    fn put_in(&self, line: &mut LineBuffer) {
        line.clear();
        line.prepend("\n");
        line.prepend_decimal(self.count.0);
        line.prepend(" ");
        line.prepend_decimal(self.first.0);
        line.prepend("freed ");
    }
}

/// A cluster that gained a reference.
impl ToLine for HostCluster {
    ghost text = { λ cluster. gained_line cluster.0 };

    fn put_in(&self, line: &mut LineBuffer) {
        line.clear();
        line.prepend("\n");
        line.prepend_decimal(self.0);
        line.prepend("gained ");
    }
}

/// Parses the arguments of the command `edit`.
pub(super) fn parse(alloc: Global, arguments: &[String]) -> Option<Result<Command, AllocError>>
    ensures { Parses result (edit_command (map string_bytes arguments.now)) }
{
    let [l1_index, words @ ..] = arguments else {
        return None;
    };
    let l1_index = number(l1_index.as_str())? as usize;
    match Arguments::parse(alloc, words)? {
        Ok(edits) => Some(Ok(Command::Edit { l1_index, edits })),
        Err(error) => Some(Err(error)),
    }
}

impl FromWord for Edit {
    ghost from_word = { edit_of };

    fn from_word(word: &str) -> Option<Edit> {
        let (name, numbers) = parts(word)?;
        match name {
            "map" => map_edit_of(numbers),
            "zero" => Some(Edit::Zero {
                index: number(numbers)? as usize,
                keep_allocation: false,
            }),
            "keep" => Some(Edit::Zero {
                index: number(numbers)? as usize,
                keep_allocation: true,
            }),
            "discard" => Some(Edit::Discard {
                index: number(numbers)? as usize,
            }),
            _ => None,
        }
    }
}

// Parses an edit that maps a cluster: its index and the host cluster.
fn map_edit_of(numbers: &str) -> Option<Edit>
    ensures { result ≡ map_edit_of (parts_of numbers.now) }
{
    let (index, cluster) = parts(numbers)?;
    Some(Edit::Map {
        index: number(index)? as usize,
        host_cluster: HostCluster(number(cluster)?),
    })
}
