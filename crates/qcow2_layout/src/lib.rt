//! The layout of an image: what each host cluster is, such as a table, guest data, leaked or free. It comes
//! as runs of clusters and as a picture: squares in rows, each with the colour of its most severe content.
#![tactic(auto)]

pub mod laws;
mod layout;
mod painting;
mod parts;
mod picture;
mod places;
mod window;
mod windows;

pub use layout::Layout;
pub use painting::picture_of;
pub use parts::{Part, Run};
pub use picture::{COLUMNS, Picture, Shape};
