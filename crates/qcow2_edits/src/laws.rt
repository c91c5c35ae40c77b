//! Laws: facts about the definitions that contracts name. Each is a function that does nothing. Its
//! contract is the law, and its name says it.

ghost use Rattle.std.specs.Prelude.{◌≡◌, ℕ, ◌+◌, ◌<◌, List, MatchResult, Ok, length, map, slice_index};
ghost use Rattle.qcow2_base.specs.Types.{IsClusterBits};
ghost use Rattle.qcow2_base.specs.declared.fault.Fault.TheVariants.{CounterRange};
ghost use Rattle.qcow2_edits.specs.Edits.{Balances, cluster_numbers, table_edit};
ghost use Rattle.qcow2_edits.specs.Settled.{CoversReferences, Settles, block_or_refusal, settled_edits_or_refusal, first_counted};
ghost use Rattle.qcow2_edits.specs.declared.edits.Edit.{Edit};
ghost use Rattle.qcow2_edits.specs.declared.edits.Outcome.{Outcome};
ghost use Rattle.qcow2_metadata.specs.Header.{HeaderRecord};
ghost use Rattle.qcow2_metadata.specs.Refblock.{BlockState, greatest_counter};
ghost use Rattle.qcow2_metadata.specs.Table.{TableState};
ghost use Rattle.qcow2_metadata.specs.Table.L2Guards.{references, run_of, times_gained};

/// If settling an outcome isn't refused, each refcount of the block plus its cluster's losses is the refcount
/// before plus its gains. The block counts as modified if a cluster gained or lost a reference. All else
/// stays.
pub fn a_settled_block_counts_the_outcome()
    ensures { (first : ℕ) (outcome : Outcome) (old new : BlockState) →
        block_or_refusal old first outcome.freed.items (cluster_numbers outcome.gained.items) ≡ Ok new →
        Settles first outcome old new }
{}

/// If a table gained and lost references by an outcome, and a block counted that outcome, then for each of
/// the block's clusters the refcount after plus the references before is the refcount before plus the
/// references after.
pub fn counters_follow_references()
    ensures { (first : ℕ) (outcome : Outcome) (old_table new_table : TableState)
        (old_block new_block : BlockState) (index : ℕ) →
        Balances outcome old_table new_table → Settles first outcome old_block new_block →
        index < length old_block.numbers →
        slice_index new_block.numbers index
        + references old_table.geometry old_table.numbers (first + index)
        ≡ slice_index old_block.numbers index
        + references new_table.geometry new_table.numbers (first + index) }
{}

/// Refcounts that were at least the table's references remain so after settled edits. In that case only a
/// gain that would raise a refcount past the greatest number is refused.
pub fn covered_references_stay_covered()
    ensures { (header : HeaderRecord) (table : TableState) (block : BlockState) (rt_index : ℕ)
        (edits : List Edit) → IsClusterBits table.geometry.cluster_bits →
        let first = first_counted block rt_index in CoversReferences first block table →
        MatchResult (settled_edits_or_refusal header table block rt_index edits)
        (λ end. CoversReferences first end.1 end.0)
        (λ fault. fault ≡ CounterRange → (index : ℕ) × (index < length block.numbers)
        × (greatest_counter block.geometry.refcount_order < slice_index block.numbers index
        + times_gained (run_of table.geometry (map table_edit edits) table.numbers).gained (first + index))) }
{}
