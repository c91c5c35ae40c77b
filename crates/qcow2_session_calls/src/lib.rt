//! The calls of `qcow2_session` without their contracts, as `qcow2_calls` has those of `qcow2_metadata`:
//! lists of edits and steps, lookups, and commands.
#![tactic(auto)]

ghost use Rattle.std.specs.Prelude.{◌≡◌, IsTrue};

use qcow2_base::{Device, Fault, GuestOffset, HostCluster, ImageFiles, Storage};
use qcow2_calls::NOT_MADE;
use qcow2_metadata::{Header, L1Table, L2Mapping, L2Table, RefBlock, Table};
use qcow2_session::{
    ChangedClusters, Command, Edit, GuestEdit, Outcome, Plan, Step, StepReply, Verdict,
};
use qcow2_testing::is_cluster_bits;
use std::alloc::{AllocError, Global};
use std::io::Write;

/// `qcow2_session::edits_fit`.
pub fn edits_fit(table: &L2Table, edits: &[Edit]) -> Result<(), usize> {
    qcow2_session::edits_fit(table, edits)
}

/// `qcow2_session::edit_table`.
pub fn edit_table(alloc: Global, table: &mut L2Table, edits: &[Edit]) -> Result<Outcome, Fault> {
    qcow2_session::edit_table(alloc, table, edits)
}

/// `qcow2_session::edit_image`.
pub fn edit_image<S: Storage>(
    alloc: Global,
    image: &mut S,
    header: &Header,
    cluster: HostCluster,
    edits: &[Edit],
) -> Result<Outcome, Fault> {
    qcow2_session::edit_image(alloc, image, header, cluster, edits)
}

/// `qcow2_session::step_block`.
pub fn step_block(
    alloc: Global,
    block: &mut RefBlock,
    steps: &[Step],
) -> Result<Vec<StepReply>, Fault> {
    qcow2_session::step_block(alloc, block, steps)
}

/// `qcow2_session::step_image`.
pub fn step_image<S: Storage>(
    alloc: Global,
    image: &mut S,
    header: &Header,
    cluster: HostCluster,
    steps: &[Step],
) -> Result<Vec<StepReply>, Fault> {
    qcow2_session::step_image(alloc, image, header, cluster, steps)
}

/// `qcow2_session::Plan::new`.
pub fn plan_edits<S: Device>(
    alloc: Global,
    image: &mut S,
    header: &Header,
    edits: &[GuestEdit],
) -> Result<Plan, Fault> {
    Plan::new(alloc, image, header, edits)
}

/// `qcow2_session::apply_edits`.
pub fn apply_edits<S: Device>(
    alloc: Global,
    image: &mut S,
    header: &mut Header,
    edits: &[GuestEdit],
) -> Result<ChangedClusters, Fault> {
    qcow2_session::apply_edits(alloc, image, header, edits)
}

/// `qcow2_session::settle`.
pub fn settle(
    block: &mut RefBlock,
    header: &Header,
    rt_index: usize,
    outcome: &Outcome,
) -> Result<(), Fault> {
    if !counts_for(block, header) {
        return Err(NOT_MADE);
    }
    qcow2_session::settle(block, header, rt_index, outcome)
}

/// `qcow2_session::edit_settled`.
pub fn edit_settled(
    alloc: Global,
    table: &mut L2Table,
    block: &mut RefBlock,
    header: &Header,
    rt_index: usize,
    edits: &[Edit],
) -> Result<Outcome, Fault> {
    if header.cluster_bits() != table.cluster_bits()
        || header.external_data_file() != table.external_data_file()
        || !counts_for(block, header)
    {
        return Err(NOT_MADE);
    }
    qcow2_session::edit_settled(alloc, table, block, header, rt_index, edits)
}

// Whether the block has the cluster size and the refcount order of the header.
fn counts_for(block: &RefBlock, header: &Header) -> bool
    ensures cluster_bits { IsTrue result →
        header.now.v2.cluster_bits ≡ block.now.geometry.cluster_bits }
    ensures refcount_order { IsTrue result →
        header.now.base.refcount_order ≡ block.now.geometry.refcount_order }
{
    header.cluster_bits() == block.cluster_bits()
        && header.refcount_order() == block.refcount_order()
}

/// `qcow2_session::lookup`.
pub fn lookup<S: Storage>(
    alloc: Global,
    image: &mut S,
    header: &Header,
    l1_table: &L1Table,
    guest_offset: GuestOffset,
) -> Result<L2Mapping, Fault> {
    if header.cluster_bits() != l1_table.cluster_bits() {
        return Err(NOT_MADE);
    }
    qcow2_session::lookup(alloc, image, header, l1_table, guest_offset)
}

/// `qcow2_session::lookup_image`.
pub fn lookup_image<S: Storage>(
    alloc: Global,
    image: &mut S,
    guest_offset: GuestOffset,
) -> Result<L2Mapping, Fault> {
    qcow2_session::lookup_image(alloc, image, guest_offset)
}

/// `Command::parse`.
pub fn parse_command(
    alloc: Global,
    name: &str,
    image: &str,
    arguments: &[String],
) -> Option<Result<Command, AllocError>> {
    Command::parse(alloc, name, image, arguments)
}

/// `qcow2_session::run`.
pub fn run<S: Device, O: Write>(
    alloc: Global,
    image: &mut S,
    command: &Command,
    out: &mut O,
) -> Result<Verdict, Fault> {
    qcow2_session::run(alloc, image, command, out)
}

/// `qcow2_session::run_on_file`.
pub fn run_on_file<R: ImageFiles, O: Write>(
    alloc: Global,
    files: &mut R,
    path: &str,
    command: &Command,
    out: &mut O,
) -> Result<Verdict, Fault> {
    qcow2_session::run_on_file(alloc, files, path, command, out)
}

/// `qcow2_session::commands::check_image`.
pub fn check_image<S: Device, O: Write>(
    alloc: Global,
    image: &mut S,
    header: &Header,
    out: &mut O,
) -> Result<Verdict, Fault> {
    qcow2_session::commands::check_image(alloc, image, header, out)
}

/// `qcow2_session::commands::check_image_in_json`.
pub fn check_image_in_json<S: Device, O: Write>(
    alloc: Global,
    image: &mut S,
    header: &Header,
    file_name: &str,
    out: &mut O,
) -> Result<Verdict, Fault> {
    qcow2_session::commands::check_image_in_json(alloc, image, header, file_name, out)
}

/// `qcow2_session::commands::list_l2_table`.
pub fn list_l2_table<S: Storage, O: Write>(
    alloc: Global,
    image: &mut S,
    cluster_bits: u32,
    cluster: HostCluster,
    out: &mut O,
) -> Result<(), Fault> {
    if !is_cluster_bits(cluster_bits) {
        return Err(NOT_MADE);
    }
    qcow2_session::commands::list_l2_table(alloc, image, cluster_bits, cluster, out)
}
