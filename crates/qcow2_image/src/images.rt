//! Edits of an image: loads a table or block, changes it, and writes it if it is modified.

ghost use Rattle.std.specs.Prelude.{◌≡◌, ◌⊎◌, [], IfErr, IfOk, false, length};
ghost use Rattle.qcow2_base.specs.Storage.{OnImage, OnImages};
ghost use Rattle.qcow2_edits.specs.Edits.{cluster_numbers};
ghost use Rattle.qcow2_edits.specs.Steps.{Counts, are_some_done};
ghost use Rattle.qcow2_metadata.specs.Header.{geometry_of};
ghost use Rattle.qcow2_metadata.specs.Refblock.{block_geometry_of, block_layout};
ghost use Rattle.qcow2_metadata.specs.Results.{Answers, IsFromOutside, result_map};
ghost use Rattle.qcow2_metadata.specs.Table.{l2_entries, l2_layout};
ghost use Rattle.qcow2_image.specs.Images.{ChangesImage, IsEditsFault, IsOfCluster, IsStepsFault, WritesBack, KeepsReferences, block_in, edits_end, references_of, steps_end};

use qcow2_base::{Fault, HostCluster, Storage};
use qcow2_check::load_l2_table;
use qcow2_edits::{Edit, Outcome, Step, StepReply, edit_table, step_block};
use qcow2_metadata::{Header, L2Table, RefBlock};
use std::alloc::Global;

/// Makes all edits of the L2 table that begins with a cluster of an image with this header, in order. Writes
/// the table unless there are no edits. Returns the changes of references. For each host cluster, the table's
/// references afterwards plus those freed are its references before plus those gained.
///
/// Refuses a table that `L2Table::load` refuses: for an end past 2^56, then for the first invalid entry. Then
/// refuses edits that don't all fit, with the position of the first, as `edits_fit` returns it.
///
/// Suppose the table overlaps neither the image's first cluster nor its L1 table. Then guest offsets of other
/// tables that don't overlap it read as before, and its own as the edits say. If no two tables of the image
/// overlap, and each offset can be looked up, that remains so. The references of all tables then balance as
/// those of this one do.
///
/// A storage fault may leave some 4096-byte pieces of the table written and any bytes in the next one; those
/// after it are unchanged. The call then doesn't return the changes of references. Any other fault changes no
/// byte. Bytes outside the table's cluster never change.
pub fn edit_image<S: Storage>(
    alloc: Global,
    image: &mut S,
    header: &Header,
    cluster: HostCluster,
    edits: &[Edit],
) -> Result<Outcome, Fault>
    ensures exact { OnImage (S.state image.old) (λ bytes.
        Answers (λ outcome. (outcome.freed.items, cluster_numbers outcome.gained.items)) result
        (references_of header.now cluster edits.now bytes)) }
    ensures changes { ChangesImage (l2_layout (geometry_of header.now)) cluster
        (edits_end header.now cluster edits.now) (λ end. end.numbers) result
        (S.state image.old) (S.state image.new) }
    ensures faults { IfErr result (λ fault.
        IsEditsFault header.now cluster edits.now fault ⊎ IsFromOutside fault) }
    ensures references { OnImages (S.state image.old) (S.state image.new) (λ before after.
        IfOk result (λ outcome. KeepsReferences header.now cluster outcome before after)) }
    ensures idle { edits.now ≡ [] → (S.state image.new).byte_at ≡ (S.state image.old).byte_at }
{
    let mut table = load_l2_table(alloc, image, header, cluster)?;
    let outcome = edit_table(alloc, &mut table, edits)?;
    write_table_back(&mut table, image, cluster)?;
    Ok(outcome)
}

/// Makes all steps of the refcount block that begins with a cluster of an image with this header, in order.
/// Writes the block if at least one step was done, and returns a reply for each.
///
/// Refuses a block that `RefBlock::load` refuses, for an end past 2^56. Then refuses steps whose indices
/// aren't all in bounds, with the position of the first that isn't.
///
/// A storage fault may leave some 4096-byte pieces of the block written and any bytes in the next one; those
/// after it are unchanged. The call then returns no replies. Any other fault changes no byte. Bytes outside
/// the block's cluster never change.
#[tactic(auto, using(crate::proofs::ImagesLemmas::refused_steps))]
pub fn step_image<S: Storage>(
    alloc: Global,
    image: &mut S,
    header: &Header,
    cluster: HostCluster,
    steps: &[Step],
) -> Result<Vec<StepReply>, Fault>
    ensures exact { OnImage (S.state image.old) (λ bytes.
        Answers (λ replies. replies.items) result
        (result_map (λ end. end.replies) (steps_end header.now cluster steps.now bytes))) }
    ensures changes { ChangesImage (block_layout (block_geometry_of header.now)) cluster
        (steps_end header.now cluster steps.now) (λ end. end.counters) result
        (S.state image.old) (S.state image.new) }
    ensures faults { IfErr result (λ fault.
        IsStepsFault header.now cluster steps.now fault ⊎ IsFromOutside fault) }
    ensures counts { OnImages (S.state image.old) (S.state image.new) (λ before after.
        IfOk result (λ replies. Counts steps.now replies.items
        (block_in header.now cluster before) (block_in header.now cluster after))) }
    ensures idle { OnImages (S.state image.old) (S.state image.new) (λ before after.
        IfOk (steps_end header.now cluster steps.now before)
        (λ end. are_some_done end.replies ≡ false → after ≡ before)) }
{
    let mut block = RefBlock::load(alloc, image, header, cluster)?;
    let replies = step_block(alloc, &mut block, steps)?;
    write_block_back(&mut block, image, cluster)?;
    Ok(replies)
}

// Writes a modified table to the cluster that it was loaded from. The image already has an unmodified one
// there.
#[tactic(auto, using(crate::proofs::ImagesLemmas::writes_back))]
fn write_table_back<S: Storage>(
    table: &mut L2Table,
    image: &mut S,
    cluster: HostCluster,
) -> Result<(), Fault>
    requires entries { length table.old.numbers ≡ l2_entries table.old.geometry.cluster_bits }
    requires of { IsOfCluster (l2_layout table.old.geometry) cluster (S.state image.old) table.old }
    ensures { WritesBack (l2_layout table.old.geometry) cluster table.old result
        (S.state image.old) (S.state image.new) }
{
    table.write_if_modified(image, cluster)
}

// Writes a modified block to the cluster that it was loaded from. The image already has an unmodified one
// there.
#[tactic(auto, using(crate::proofs::ImagesLemmas::writes_back))]
fn write_block_back<S: Storage>(
    block: &mut RefBlock,
    image: &mut S,
    cluster: HostCluster,
) -> Result<(), Fault>
    requires { IsOfCluster (block_layout block.old.geometry) cluster (S.state image.old) block.old }
    ensures { WritesBack (block_layout block.old.geometry) cluster block.old result
        (S.state image.old) (S.state image.new) }
{
    block.write_if_modified(image, cluster)
}
