//! A check's results for an image as a whole: whether it is consistent, how many guest clusters are mapped,
//! and where it ends.
#![tactic(auto)]

mod consistency;
mod entry_counts;
mod image_end;
pub mod laws;

pub use consistency::is_consistent;
pub use entry_counts::{EntryCounts, count_entries};
pub use image_end::{end_of_image, most_clusters};
