//! Tests of faults, storages, locks, conversions and layouts.
#![tactic(auto)]

#[cfg(test)]
mod fault;
#[cfg(test)]
mod locks;
#[cfg(test)]
mod on_disk_struct;
#[cfg(test)]
mod storage;
#[cfg(test)]
mod types;
