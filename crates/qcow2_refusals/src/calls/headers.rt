//! Calls of headers.

use super::tell;
use crate::held::Held;
use qcow2_base::{Fault, Storage};
use qcow2_calls::{load_header, load_snapshots, new_header};
use qcow2_metadata::Header;

pub(super) fn load<S: Storage>(
    for_writing: bool,
    held: &mut Held,
    image: &mut S,
) -> Result<(), Fault> {
    held.header = load_header(held.alloc, image, for_writing)?;
    Ok(())
}

pub(super) fn tell_snapshots<S: Storage>(held: &mut Held, image: &mut S) -> Result<(), Fault> {
    let table = load_snapshots(held.alloc, image, &held.header)?;
    let found = (table.snapshots().len(), table.byte_count());
    tell(&mut held.out, &found)
}

pub(super) fn new(held: &mut Held) -> Result<(), Fault> {
    let (name, format) = (Some("base.img"), Some("qcow2"));
    let header = new_header(held.alloc, 9, 4, name, format, Some("data.raw"))?;
    tell_names(&header, &mut held.out)
}

fn tell_names(header: &Header, out: &mut Vec<u8>) -> Result<(), Fault> {
    tell(out, &header.backing_filename())?;
    tell(out, &header.backing_format())?;
    tell(out, &header.external_data_filename())
}
