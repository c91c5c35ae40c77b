//! Tests of lists of edits and of steps, of lookups, of the program's commands, and of the example of the
//! front page.
#![tactic(auto)]

#[cfg(test)]
mod blocks;
#[cfg(test)]
mod commands;
#[cfg(test)]
mod edits;
#[cfg(test)]
mod example;
#[cfg(test)]
mod extents;
#[cfg(test)]
mod failing_output;
#[cfg(test)]
mod image_edits;
#[cfg(test)]
mod image_steps;
#[cfg(test)]
mod images;
#[cfg(test)]
mod lookups;
#[cfg(test)]
mod plain_storage;
#[cfg(test)]
mod refused_calls;
#[cfg(test)]
mod repeated_tables;
#[cfg(test)]
mod settled;
#[cfg(test)]
mod steps;
#[cfg(test)]
mod tables;
#[cfg(test)]
mod whole_image;
