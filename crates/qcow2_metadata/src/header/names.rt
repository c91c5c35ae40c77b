//! Names that several header extensions may give: the first, and whether all are the same. And the
//! incompatible features that are accepted.

ghost use Rattle.std.specs.Prelude.{◌≡◌, IfErr, Ok, map, option_map, string_bytes};
ghost use Rattle.qcow2_metadata.specs.Results.{after_conditions};
ghost use Rattle.qcow2_metadata.specs.Header as spec;
ghost use Rattle.qcow2_metadata.specs.Header.{all_same, first_by, names_by};
ghost use Rattle.qcow2_metadata.specs.Header.Extensions.{extension_of, name_in};
ghost use Rattle.qcow2_metadata.specs.Header.Grammar.{IsHeaderFault, last_conditions};

use super::extensions::{HeaderExtension, HeaderExtensionType};
use super::features::{AcceptedFeatures, FeatureType, IncompatibleFeatures};
use qcow2_base::{Fault, V3HeaderBase};

// Returns the name in the first extension of this type.
#[tactic(auto, using(crate::proofs::HeaderLemmas::first_by_at, crate::proofs::HeaderLemmas::no_name_more))]
pub(super) fn first_name(
    extensions: &[HeaderExtension],
    extension_type: HeaderExtensionType,
) -> Option<&String>
    ensures { option_map (λ name. string_bytes name.now) result
        ≡ first_by (name_in extension_type) (map extension_of extensions.now) }
{
    for extension in extensions {
        if let Some(name) = extension.name(extension_type) {
            return Some(name);
        }
    }
    None
}

// Whether all extensions of this type have the same name.
fn same_names(extensions: &[HeaderExtension], extension_type: HeaderExtensionType) -> bool
    ensures { result ≡ all_same (names_by (name_in extension_type) (map extension_of extensions.now)) }
{
    let first = first_name(extensions, extension_type);
    for extension in extensions {
        if let Some(name) = extension.name(extension_type) {
            if first != Some(name) {
                return false;
            }
        }
    }
    true
}

// Whether the image has an incompatible feature.
pub(super) fn has_feature(base: &V3HeaderBase, feature: IncompatibleFeatures) -> bool
    ensures { result ≡ spec.has_feature feature base.now }
{
    let bit = <(FeatureType, u8)>::from(feature).1;
    base.incompatible_features >> bit & 1 == 1
}

// Returns the bit of a feature as a mask if it is accepted and the image has it.
fn accepted_feature(base: &V3HeaderBase, feature: IncompatibleFeatures, is_accepted: bool) -> u64
    ensures { result ≡ spec.accepted_feature is_accepted feature base.now }
{
    if is_accepted && has_feature(base, feature) {
        u64::from(feature)
    } else {
        0
    }
}

// Returns the incompatible features except the external data file and those that are accepted.
fn other_features(base: &V3HeaderBase, accepted: AcceptedFeatures) -> u64
    ensures { result ≡ spec.other_features accepted base.now }
{
    base.incompatible_features
        .saturating_sub(accepted_feature(base, IncompatibleFeatures::ExternalDataFile, true))
        .saturating_sub(accepted_feature(base, IncompatibleFeatures::Dirty, accepted.dirty))
        .saturating_sub(accepted_feature(base, IncompatibleFeatures::Corrupt, accepted.corrupt))
        .saturating_sub(accepted_feature(
            base,
            IncompatibleFeatures::CompressionType,
            accepted.compression_type,
        ))
}

// Returns the number of the compression type.
pub(super) fn compression_type(unknown_header_fields: &[u8]) -> u8
    ensures { result ≡ spec.compression_type unknown_header_fields.now }
{
    unknown_header_fields.first().copied().unwrap_or(0)
}

// Whether the compression type is one that the image may have, by its features.
fn is_compression(base: &V3HeaderBase, unknown_header_fields: &[u8]) -> bool
    ensures { result ≡ spec.is_compression base.now unknown_header_fields.now }
{
    let expected = has_feature(base, IncompatibleFeatures::CompressionType);
    compression_type(unknown_header_fields) == u8::from(expected)
}

// Refuses different names in extensions of one type, and incompatible features that aren't accepted. If a
// compression type is accepted, refuses one that doesn't agree with the feature.
pub(super) fn check_extensions(
    base: &V3HeaderBase,
    unknown_header_fields: &[u8],
    extensions: &[HeaderExtension],
    accepted: AcceptedFeatures,
) -> Result<(), Fault>
    ensures exact { result ≡ after_conditions (last_conditions accepted base.now unknown_header_fields.now
        (map extension_of extensions.now)) (λ _. Ok tt) }
    ensures faults { IfErr result IsHeaderFault }
{
    if !same_names(extensions, HeaderExtensionType::BackingFileFormat) {
        return Err(Fault::FormatConflict);
    }
    if !same_names(extensions, HeaderExtensionType::ExternalDataFileName) {
        return Err(Fault::DataFileConflict);
    }
    let others = other_features(base, accepted);
    if others != 0 {
        return Err(Fault::Incompatible(others));
    }
    if accepted.compression_type && !is_compression(base, unknown_header_fields) {
        return Err(Fault::Incompatible(u64::from(IncompatibleFeatures::CompressionType)));
    }
    Ok(())
}
