//! Tests of an image's layout, in runs and as a picture.

mod calls;
mod picture;
mod refused_calls;
mod runs;

pub(crate) use calls::runs_of;
