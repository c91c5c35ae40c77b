//! Tests of the calls over bytes that the caller has read.
#![tactic(auto)]

#[cfg(test)]
mod calls;
#[cfg(test)]
mod check;
#[cfg(test)]
mod edits;
#[cfg(test)]
mod entries;
#[cfg(test)]
mod extents;
#[cfg(test)]
mod header;
#[cfg(test)]
mod images;
#[cfg(test)]
mod refcounts;
#[cfg(test)]
mod tables;
