//! Keeps two programs from changing an image at once.
#![tactic(auto)]

mod file_lock;
mod guarded_files;
mod held_image;
mod lock_list;

pub use file_lock::{FileId, FileLock, LockKind};
pub use guarded_files::{GuardedFile, GuardedFiles};
pub use held_image::{HeldImage, Unlisted, hold_alone};
pub use lock_list::listed_locks;
