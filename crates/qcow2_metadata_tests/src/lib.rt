//! Tests of headers, entries, tables and refcount blocks.
#![tactic(auto)]

#[cfg(test)]
mod header;
#[cfg(test)]
mod tables;
