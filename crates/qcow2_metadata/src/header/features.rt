//! Features: optional properties of an image, each with a bit in one of three header fields.

ghost use Rattle.std.specs.Prelude.{◌≡◌, ◌^◌};
ghost use Rattle.qcow2_metadata.specs.Header as spec;
ghost use Rattle.qcow2_metadata.specs.declared.header.features.FeatureType.TheVariants.{Autoclear, Compatible, Incompatible};
ghost use Rattle.qcow2_metadata.specs.Header.Features.{HasNumber, autoclear_bit, compatible_bit, feature_type_number, incompatible_bit};

use thiserror::Error;

/// The error for a number without a value of the type.
#[derive(Clone, Copy, Debug, PartialEq, Eq, Error)]
#[error("the number stands for no value of this type")]
pub struct UnknownValue;

/// The header field of a feature's bit, by its number in feature name tables.
#[derive(Clone, Copy, Debug, PartialEq, Eq, PartialOrd, Ord)]
pub enum FeatureType {
    /// A program must know the feature to open the image.
    Incompatible = 0,
    /// A program may ignore the feature.
    Compatible = 1,
    /// A program that doesn't know the feature must clear its bit before it writes to the image.
    Autoclear = 2,
}

impl TryFrom<u8> for FeatureType {
    type Error = UnknownValue;

    ghost try_from_gives = { λ number result.
        HasNumber feature_type_number result number };

    fn try_from(number: u8) -> Result<FeatureType, UnknownValue> {
        match number {
            0 => Ok(FeatureType::Incompatible),
            1 => Ok(FeatureType::Compatible),
            2 => Ok(FeatureType::Autoclear),
            _ => Err(UnknownValue),
        }
    }
}

/// The field's number.
impl From<FeatureType> for u8 {
    ghost from_gives = { λ value number. number ≡ feature_type_number value };

    fn from(value: FeatureType) -> u8 {
        value as u8
    }
}

/// Incompatible features. The number of each is its bit as a mask, `2^bit`.
#[derive(Clone, Copy, Debug, PartialEq, Eq)]
pub enum IncompatibleFeatures {
    /// Refcounts may be wrong.
    Dirty = 1,
    /// Any structure may be wrong.
    Corrupt = 2,
    /// Guest data lies in another file.
    ExternalDataFile = 4,
    /// Compressed clusters have another compression than the default.
    CompressionType = 8,
    /// Entries of L2 tables have 16 bytes.
    ExtendedL2Entries = 16,
}

impl TryFrom<u64> for IncompatibleFeatures {
    type Error = UnknownValue;

    ghost try_from_gives = { λ number result.
        HasNumber (λ feature. 2 ^ incompatible_bit feature) result number };

    fn try_from(number: u64) -> Result<IncompatibleFeatures, UnknownValue> {
        match number {
            1 => Ok(IncompatibleFeatures::Dirty),
            2 => Ok(IncompatibleFeatures::Corrupt),
            4 => Ok(IncompatibleFeatures::ExternalDataFile),
            8 => Ok(IncompatibleFeatures::CompressionType),
            16 => Ok(IncompatibleFeatures::ExtendedL2Entries),
            _ => Err(UnknownValue),
        }
    }
}

/// The feature's bit as a mask, `2^bit`.
impl From<IncompatibleFeatures> for u64 {
    ghost from_gives = { λ value number. number ≡ 2 ^ incompatible_bit value };

    fn from(value: IncompatibleFeatures) -> u64 {
        value as u64
    }
}

/// The feature's key in feature name tables.
impl From<IncompatibleFeatures> for (FeatureType, u8) {
    ghost from_gives = { λ feature key. key ≡ (Incompatible, incompatible_bit feature) };

    fn from(feature: IncompatibleFeatures) -> (FeatureType, u8) {
        let bit = match feature {
            IncompatibleFeatures::Dirty => 0,
            IncompatibleFeatures::Corrupt => 1,
            IncompatibleFeatures::ExternalDataFile => 2,
            IncompatibleFeatures::CompressionType => 3,
            IncompatibleFeatures::ExtendedL2Entries => 4,
        };
        (FeatureType::Incompatible, bit)
    }
}

/// The incompatible features with which a header is accepted, beside the external data file. By default there
/// are none.
///
/// No call looks at the marks `dirty` and `corrupt`. A program that accepts them can read the image, but must
/// not change it: refcounts may be wrong, so edits could free clusters in use.
#[derive(Clone, Copy, Debug, Default, PartialEq, Eq)]
pub struct AcceptedFeatures {
    /// Refcounts may be wrong: a program stopped before it wrote all of them.
    pub dirty: bool,
    /// Any structure may be wrong: a program has found one that is.
    pub corrupt: bool,
    /// Compressed clusters have another compression than the default. Which one, the byte at 104 says.
    pub compression_type: bool,
}

impl AcceptedFeatures {
    /// No feature: [`Header::load`](super::Header::load) accepts these.
    pub fn none() -> AcceptedFeatures
        ensures { result ≡ spec.no_feature }
    {
        AcceptedFeatures {
            dirty: false,
            corrupt: false,
            compression_type: false,
        }
    }

    /// Each feature that can be accepted.
    pub fn each() -> AcceptedFeatures
        ensures { result ≡ spec.each_feature }
    {
        AcceptedFeatures {
            dirty: true,
            corrupt: true,
            compression_type: true,
        }
    }
}

/// Compatible features. The number of each is its bit as a mask, `2^bit`.
#[derive(Clone, Copy, Debug, PartialEq, Eq)]
pub enum CompatibleFeatures {
    /// Updates of refcounts may be postponed.
    LazyRefcounts = 1,
}

impl TryFrom<u64> for CompatibleFeatures {
    type Error = UnknownValue;

    ghost try_from_gives = { λ number result.
        HasNumber (λ feature. 2 ^ compatible_bit feature) result number };

    fn try_from(number: u64) -> Result<CompatibleFeatures, UnknownValue> {
        match number {
            1 => Ok(CompatibleFeatures::LazyRefcounts),
            _ => Err(UnknownValue),
        }
    }
}

/// The feature's bit as a mask, `2^bit`.
impl From<CompatibleFeatures> for u64 {
    ghost from_gives = { λ value number. number ≡ 2 ^ compatible_bit value };

    fn from(value: CompatibleFeatures) -> u64 {
        value as u64
    }
}

/// The feature's key in feature name tables.
impl From<CompatibleFeatures> for (FeatureType, u8) {
    ghost from_gives = { λ feature key. key ≡ (Compatible, compatible_bit feature) };

    fn from(feature: CompatibleFeatures) -> (FeatureType, u8) {
        match feature {
            CompatibleFeatures::LazyRefcounts => (FeatureType::Compatible, 0),
        }
    }
}

/// Autoclear features. The number of each is its bit as a mask, `2^bit`.
#[derive(Clone, Copy, Debug, PartialEq, Eq)]
pub enum AutoclearFeatures {
    /// The persistent bitmaps agree with the disk.
    Bitmaps = 1,
    /// The external data file is a raw image of the guest's disk.
    RawExternalData = 2,
}

impl TryFrom<u64> for AutoclearFeatures {
    type Error = UnknownValue;

    ghost try_from_gives = { λ number result.
        HasNumber (λ feature. 2 ^ autoclear_bit feature) result number };

    fn try_from(number: u64) -> Result<AutoclearFeatures, UnknownValue> {
        match number {
            1 => Ok(AutoclearFeatures::Bitmaps),
            2 => Ok(AutoclearFeatures::RawExternalData),
            _ => Err(UnknownValue),
        }
    }
}

/// The feature's bit as a mask, `2^bit`.
impl From<AutoclearFeatures> for u64 {
    ghost from_gives = { λ value number. number ≡ 2 ^ autoclear_bit value };

    fn from(value: AutoclearFeatures) -> u64 {
        value as u64
    }
}

/// The feature's key in feature name tables.
impl From<AutoclearFeatures> for (FeatureType, u8) {
    ghost from_gives = { λ feature key. key ≡ (Autoclear, autoclear_bit feature) };

    fn from(feature: AutoclearFeatures) -> (FeatureType, u8) {
        let bit = match feature {
            AutoclearFeatures::Bitmaps => 0,
            AutoclearFeatures::RawExternalData => 1,
        };
        (FeatureType::Autoclear, bit)
    }
}
