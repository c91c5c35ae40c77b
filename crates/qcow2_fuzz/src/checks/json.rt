//! The JSON list of extents that `map` prints.

use crate::text::{Content, Extent};
use qcow2_base::Fault;
use std::alloc::{AllocError, Global};

/// The list of extents, without the closing bracket if `map` was refused.
pub(crate) fn rows_of(alloc: Global, extents: &[Extent], is_whole: bool) -> Result<String, Fault> {
    let mut rows = String::from_str(alloc, "[")?;
    for extent in extents {
        if extent.start != 0 {
            rows.push_str(",\n")?;
        }
        add_row(&mut rows, extent)?;
    }
    if is_whole {
        rows.push_str("]\n")?;
    }
    Ok(rows)
}

fn add_row(rows: &mut String, extent: &Extent) -> Result<(), AllocError> {
    let (start, length) = (extent.start, extent.length);
    let (is_present, is_zero, is_data) = match extent.content {
        Content::Data(_) | Content::Compressed => (true, false, true),
        Content::Zeros | Content::AllocatedZeros(_) => (true, true, false),
        Content::Absent => (false, true, false),
    };
    write!(
        rows,
        "{{ \"start\": {start}, \"length\": {length}, \"depth\": 0, "
    )?;
    write!(
        rows,
        "\"present\": {is_present}, \"zero\": {is_zero}, \"data\": {is_data}"
    )?;
    match extent.content {
        Content::Data(offset) | Content::AllocatedZeros(offset) => {
            write!(rows, ", \"offset\": {offset}}}")
        }
        Content::Zeros | Content::Compressed | Content::Absent => rows.push_str("}"),
    }
}
