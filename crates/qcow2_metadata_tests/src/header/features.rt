//! Features, feature types and extension types by their numbers, and the keys of features.

use qcow2_metadata::{
    AutoclearFeatures, CompatibleFeatures, FeatureType, HeaderExtensionType, IncompatibleFeatures,
    UnknownValue,
};
use qcow2_testing::{all_same, rows, same, same_text};
use std::fmt::Debug;
use std::test::Fail;

// Numbers, and the value of each.
type Numbers<N, T> = &'static [(N, Result<T, UnknownValue>)];

const INCOMPATIBLE: Numbers<u64, IncompatibleFeatures> = rows! {
    (1, Ok(IncompatibleFeatures::Dirty)), (2, Ok(IncompatibleFeatures::Corrupt)),
    (4, Ok(IncompatibleFeatures::ExternalDataFile)), (8, Ok(IncompatibleFeatures::CompressionType)),
    (16, Ok(IncompatibleFeatures::ExtendedL2Entries)),
    (0, Err(UnknownValue)), (3, Err(UnknownValue)), (32, Err(UnknownValue)),
};

const COMPATIBLE: Numbers<u64, CompatibleFeatures> =
    rows! { (1, Ok(CompatibleFeatures::LazyRefcounts)), (2, Err(UnknownValue)) };

const AUTOCLEAR: Numbers<u64, AutoclearFeatures> = rows! {
    (1, Ok(AutoclearFeatures::Bitmaps)), (2, Ok(AutoclearFeatures::RawExternalData)), (3, Err(UnknownValue)),
};

const FIELDS: Numbers<u8, FeatureType> = rows! {
    (0, Ok(FeatureType::Incompatible)), (1, Ok(FeatureType::Compatible)), (2, Ok(FeatureType::Autoclear)),
    (3, Err(UnknownValue)),
};

const EXTENSIONS: Numbers<u32, HeaderExtensionType> = rows! {
    (0, Ok(HeaderExtensionType::End)), (0xe279_2aca, Ok(HeaderExtensionType::BackingFileFormat)),
    (0x6803_f857, Ok(HeaderExtensionType::FeatureNameTable)),
    (0x4441_5441, Ok(HeaderExtensionType::ExternalDataFileName)), (7, Err(UnknownValue)),
};

// Fails unless each number converts to its value, and each value back to its number.
fn check_numbers<N, T>(rows: Numbers<N, T>) -> Result<(), Fail>
where
    N: Copy + PartialEq + Debug,
    T: TryFrom<N, Error = UnknownValue> + Into<N> + Copy + PartialEq + Debug,
{
    for row in rows {
        let (number, expected) = *row;
        same(T::try_from(number), expected, number)?;
        if let Ok(value) = expected {
            same(value.into(), number, number)?;
        }
    }
    Ok(())
}

#[test]
fn a_number_stands_for_what_has_it(rt: HostRuntime) -> Result<(), Fail> {
    check_numbers(INCOMPATIBLE)?;
    check_numbers(COMPATIBLE)?;
    check_numbers(AUTOCLEAR)?;
    check_numbers(FIELDS)?;
    check_numbers(EXTENSIONS)?;
    same_text(
        rt.alloc(),
        UnknownValue,
        "the number stands for no value of this type",
    )
}

fn key(feature: impl Into<(FeatureType, u8)>) -> (FeatureType, u8) {
    feature.into()
}

#[test]
fn the_key_of_a_feature_is_its_field_and_its_bit() -> Result<(), Fail> {
    all_same! {
        "keys, and their order",
        key(IncompatibleFeatures::Dirty) => (FeatureType::Incompatible, 0),
        key(IncompatibleFeatures::Corrupt) => (FeatureType::Incompatible, 1),
        key(IncompatibleFeatures::ExternalDataFile) => (FeatureType::Incompatible, 2),
        key(IncompatibleFeatures::CompressionType) => (FeatureType::Incompatible, 3),
        key(IncompatibleFeatures::ExtendedL2Entries) => (FeatureType::Incompatible, 4),
        key(CompatibleFeatures::LazyRefcounts) => (FeatureType::Compatible, 0),
        key(AutoclearFeatures::Bitmaps) => (FeatureType::Autoclear, 0),
        key(AutoclearFeatures::RawExternalData) => (FeatureType::Autoclear, 1),
        FeatureType::Incompatible < FeatureType::Compatible => true,
        FeatureType::Compatible < FeatureType::Autoclear => true,
    }
}
