//! Support for the tests of all crates: comparisons that report the row, a storage and files that fail at a
//! planned call, images in memory, a small image with damages by name, files in the temporary folder, all
//! faults, and the conditions of conversions as functions.
#![tactic(auto)]

mod comparisons;
mod conditions;
pub mod damages;
mod failing;
mod faults;
mod faulty_files;
mod images;
mod known_files;
mod numbers;
mod pictures;
pub mod sample_image;
mod temporary_files;

pub use comparisons::{each, holds, part_of, printed, row_error, same, same_bytes, same_text};
pub use conditions::{fits, is_cluster_bits};
pub use failing::{FailingStorage, StorageCall, take_turn};
pub use faults::{FAULTS, ReportedFault};
pub use faulty_files::{FaultyFile, FaultyFiles, Opens};
pub use images::{filled_image, image_with, put, put_all, put_bytes, recorded, same_image};
pub use known_files::{KnownFile, KnownFiles};
pub use numbers::{COMPRESSED, COPIED, Numbers, VERSION_2, VERSION_3};
pub use temporary_files::{TemporaryFile, file_holds, temporary_file, temporary_path};
