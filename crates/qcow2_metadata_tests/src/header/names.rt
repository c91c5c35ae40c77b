//! Names in headers, new and loaded.

use qcow2_base::Fault;
use qcow2_calls::new_header;
use qcow2_metadata::{FeatureType, Header};
use std::alloc::Global;

/// The names in a header: the backing file's, its format and the data file's; and whether guest data is
/// external.
#[derive(Clone, Copy, Debug, PartialEq, Eq)]
pub(crate) struct Names<'a> {
    pub(crate) backing: Option<&'a str>,
    pub(crate) format: Option<&'a str>,
    pub(crate) data_file: Option<&'a str>,
    pub(crate) external: bool,
}

pub(crate) const NO_NAMES: Names<'static> = Names {
    backing: None,
    format: None,
    data_file: None,
    external: false,
};

/// Returns a new header with these names.
pub(crate) fn header_with_names(
    alloc: Global,
    bits: u32,
    order: u32,
    names: Names<'_>,
) -> Result<Header, Fault> {
    new_header(
        alloc,
        bits,
        order,
        names.backing,
        names.format,
        names.data_file,
    )
}

/// Returns the names of a loaded header, or the fault.
pub(crate) fn loaded_names(loaded: &Result<Header, Fault>) -> Result<Names<'_>, Fault> {
    match loaded {
        Ok(header) => Ok(names_of(header)),
        Err(fault) => Err(*fault),
    }
}

/// Returns the names in a header.
pub(crate) fn names_of(header: &Header) -> Names<'_> {
    Names {
        backing: header.backing_filename().map(|name| name.as_str()),
        format: header.backing_format().map(|name| name.as_str()),
        data_file: header.external_data_filename().map(|name| name.as_str()),
        external: header.external_data_file(),
    }
}

/// Returns a header's name of a feature.
pub(crate) fn called(header: &Header, feature_type: FeatureType, bit: u32) -> Option<&str> {
    header
        .feature_name(feature_type, bit)
        .map(|name| name.as_str())
}

/// Returns a header's name of the first incompatible feature.
pub(crate) fn dirty(header: &Header) -> Option<&str> {
    called(header, FeatureType::Incompatible, 0)
}
