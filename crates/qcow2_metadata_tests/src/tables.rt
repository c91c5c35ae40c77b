//! Tests of entries, tables and refcount blocks, and their fixtures.

mod block_numbers;
mod blocks;
mod changed_pieces;
mod entries;
mod every_table;
mod fixtures;
mod l1_table;
mod l2_edits;
mod l2_mapping;
mod l2_table;
mod one_entry;
mod pending_clusters;
mod pieces;
mod pointers;
mod refcount_blocks;
mod reftable_growth;
mod refused_calls;
mod reloaded_blocks;
mod reloaded_tables;
mod table_files;
