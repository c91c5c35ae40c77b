//! Tests of what an image says about its host clusters: references, refcounts, findings, wrong flags,
//! consistency, layout, and repairs.
#![tactic(auto)]

#[cfg(test)]
mod counters;
#[cfg(test)]
mod damages;
#[cfg(test)]
mod layout;
#[cfg(test)]
mod readers;
#[cfg(test)]
mod refused_calls;
#[cfg(test)]
mod repair;
#[cfg(test)]
mod repeats;
#[cfg(test)]
mod sample_image;
#[cfg(test)]
mod uses;
