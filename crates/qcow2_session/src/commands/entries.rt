//! The entries of an L2 table in lines, for the commands `l2` and `list`.

ghost use Rattle.std.specs.Prelude.{◌≡◌, ◌-◌, ◌*◌, ◌^◌, ◌<◌, ◌≤◌, ◌++◌, length};
ghost use Rattle.qcow2_base.specs.Format.{most_l1_entries};
ghost use Rattle.qcow2_base.specs.Types.{IsClusterBits};
ghost use Rattle.qcow2_metadata.specs.Entries.L2Mapping.{IsPlaced, meaning};
ghost use Rattle.qcow2_metadata.specs.Table.{l2_entries, mapping_at};
ghost use Rattle.qcow2_session.specs.Commands.Entries.{IsTold, entry_line, label_text, table_lines};
ghost use Rattle.qcow2_session.specs.Commands.Printing.{PrintsText};

use crate::lines::{LineBuffer, prepend_mapping, print};
use qcow2_base::{Fault, GuestCluster};
use qcow2_metadata::{L2Mapping, L2Table, Table};
use std::io::Write;

// The label of an entry's line: the number of its guest cluster, which is the entry's index in the table of
// L1 entry 0, or its guest offset.
#[derive(Clone, Copy)]
pub(super) enum Label {
    Index,
    Offset,
}

/// Prints a line for each entry of the L2 table of an L1 index, except those left to the backing file.
#[tactic(auto, using(crate::proofs::TablesLemmas::table_starts))]
pub(super) fn print_entries<O: Write>(
    table: &L2Table,
    l1_index: usize,
    label: Label,
    out: &mut O,
) -> Result<(), Fault>
    requires entries { length table.now.numbers ≡ l2_entries table.now.geometry.cluster_bits }
    requires index { l1_index < most_l1_entries }
    ensures { PrintsText result (O.contents out.old) (O.contents out.new)
        (table_lines label table.now.geometry l1_index table.now.numbers) }
{
    let cluster_bits = table.cluster_bits();
    let mut line = LineBuffer::new();
    let mut l2_index = 0;
    while l2_index < table.entries() {
        let guest_cluster = GuestCluster::from_l1_l2_indices(l1_index, l2_index, cluster_bits);
        let mapping = table.get_mapping(guest_cluster)?;
        print_entry(&mut line, guest_cluster, label, &mapping, cluster_bits, out)?;
        l2_index += entries_told(table, guest_cluster, &mapping);
    }
    Ok(())
}

// Returns the number of entries, from a guest cluster's on, of which at most the first has a line: the whole
// run of those left to the backing file, or 1.
#[inline]
fn entries_told(table: &L2Table, guest_cluster: GuestCluster, mapping: &L2Mapping) -> usize
    requires { meaning mapping.now ≡ mapping_at table.now guest_cluster.0 }
    ensures { IsTold table.now guest_cluster.0 result }
{
    match mapping {
        L2Mapping::Backing { .. } => table.run_length(guest_cluster).0 as usize,
        _ => 1,
    }
}

// Prints the line of a guest cluster's entry: its label, a space, and its mapping. An entry left to the
// backing file has no line. Overwrites `line`.
fn print_entry<O: Write>(
    line: &mut LineBuffer,
    guest_cluster: GuestCluster,
    label: Label,
    mapping: &L2Mapping,
    cluster_bits: u32,
    out: &mut O,
) -> Result<(), Fault>
    requires placed { IsPlaced cluster_bits mapping.now }
    requires fits { guest_cluster.0 * 2 ^ cluster_bits < 2 ^ 64 }
    ensures { PrintsText result (O.contents out.old) (O.contents out.new)
        (entry_line cluster_bits (label_text label cluster_bits guest_cluster.0) (meaning mapping.now)) }
{
    if let L2Mapping::Backing { .. } = mapping {
        return Ok(());
    }
    line.clear();
    line.prepend("\n");
    prepend_mapping(line, mapping, cluster_bits);
    line.prepend(" ");
    prepend_label(line, label, guest_cluster, cluster_bits);
    print(line.as_bytes(), out)
}

// Puts the label of a guest cluster in front of a line.
#[inline]
fn prepend_label(
    line: &mut LineBuffer,
    label: Label,
    guest_cluster: GuestCluster,
    cluster_bits: u32,
)
    requires room { length line.old ≤ 200 }
    requires bits { IsClusterBits cluster_bits }
    requires fits { guest_cluster.0 * 2 ^ cluster_bits < 2 ^ 64 }
    ensures { line.new ≡ label_text label cluster_bits guest_cluster.0 ++ line.old }
{
    match label {
        Label::Index => line.prepend_decimal(guest_cluster.0),
        Label::Offset => line.prepend_offset(guest_cluster.offset(cluster_bits).0),
    }
}
