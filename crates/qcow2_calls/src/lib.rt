//! The calls of `qcow2_metadata` without their contracts. Tests compare the results of calls with their
//! tables, and no proof about a test has to read a call's contract.
//!
//! A call whose `requires` doesn't hold isn't made, and returns the fault `NOT_MADE`.
#![tactic(auto)]

mod blocks;
mod headers;
mod tables;

pub use blocks::{
    decrement, increment, load_block, load_counter, new_block, reload_block, set_block_cluster,
    set_counter, write_block, write_block_changes, write_block_if_modified,
};
pub use headers::{
    header_of, into_writable, load_header, new_header, update_header, write_header,
    write_l1_table_pointer, write_reftable_pointer, write_size,
};
use qcow2_base::Fault;
use qcow2_metadata::{ClustersToFreeEntry, Refused};
pub use tables::{
    LoadedTable, copy_l2_table, discard_cluster, enter_l2_table, enter_refblock, grow_l1_table,
    grow_reftable, least_spare, load_snapshots, load_table, map_cluster, new_l2_table,
    reload_l2_table, set_cluster, set_l1_copied, set_l1_table, set_l2_copied, set_reftable,
    write_entry, write_l2_table_if_modified, write_table, zero_cluster,
};

/// The fault of a call that isn't made. No call here returns it otherwise.
pub const NOT_MADE: Fault = Fault::WrongLength;

/// The fault of a call, and the pending clusters that it handed back, if any.
pub type Refusal = (Fault, Option<ClustersToFreeEntry>);

// Gives up the pending clusters that a refusal hands back.
fn given_up(answer: Result<(), Refused>) -> Result<(), Refusal> {
    let Err(Refused { fault, pending }) = answer else {
        return Ok(());
    };
    Err((fault, pending.map(|pending| pending.give_up())))
}
