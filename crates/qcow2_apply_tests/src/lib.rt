//! Tests of edits of guest ranges: the entries that they edit, the refcounts that follow, and the changed
//! tables.
#![tactic(auto)]

#[cfg(test)]
mod apply;
#[cfg(test)]
mod changed_clusters;
#[cfg(test)]
mod counters;
#[cfg(test)]
mod guest_edits;
#[cfg(test)]
mod many_edits;
#[cfg(test)]
mod plan;
#[cfg(test)]
mod refusals;
#[cfg(test)]
mod refused_calls;
#[cfg(test)]
mod sized_image;
#[cfg(test)]
mod small_image;
#[cfg(test)]
mod tables;
