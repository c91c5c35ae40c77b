//! Numbers, kinds and messages of faults.

use qcow2_base::{Fault, Field, StorageFault};
use qcow2_testing::{FAULTS, ReportedFault, all_same, each, same, same_text};
use std::alloc::{AllocError, AllocFailed, Global};
use std::test::Fail;

fn check_reported(alloc: Global, row: ReportedFault) -> Result<(), Fail> {
    let fault = row.fault;
    same(
        (fault.number(), fault.kind()),
        (row.number, row.kind),
        fault,
    )?;
    same_text(alloc, fault, row.message)
}

#[test]
fn each_fault_has_its_number_its_kind_and_its_message(rt: HostRuntime) -> Result<(), Fail> {
    each(rt.alloc(), FAULTS, check_reported)
}

// 42 is the largest number.
#[test]
fn a_number_names_a_fault_of_that_number() -> Result<(), Fail> {
    for row in FAULTS {
        let found = Fault::of_number(u64::from(row.number));
        same(
            found.map(|fault| fault.number()),
            Some(row.number),
            row.fault,
        )?;
    }
    for number in [0, 43, u64::MAX] {
        same(Fault::of_number(number), None, number)?;
    }
    Ok(())
}

const NAMES: &[(Field, &'static str)] = &[
    (Field::Magic, "magic"),
    (Field::Version, "version"),
    (Field::BackingOffset, "backing_file_offset"),
    (Field::BackingSize, "backing_file_size"),
    (Field::ClusterBits, "cluster_bits"),
    (Field::CryptMethod, "crypt_method"),
    (Field::NbSnapshots, "nb_snapshots"),
    (Field::SnapshotsOffset, "snapshots_offset"),
    (Field::Incompatible, "incompatible_features"),
    (Field::Compatible, "compatible_features"),
    (Field::Autoclear, "autoclear_features"),
    (Field::RefcountOrder, "refcount_order"),
    (Field::UnknownFields, "the unknown header fields"),
    (Field::BackingName, "the backing file name"),
    (Field::Extensions, "the header extensions"),
    (Field::ExternalData, "the use of an external data file"),
];

#[test]
fn a_changed_field_is_named_as_the_format_names_it(rt: HostRuntime) -> Result<(), Fail> {
    for (field, name) in NAMES {
        same_text(rt.alloc(), *field, name)?;
    }
    Ok(())
}

#[test]
fn a_failed_storage_and_refused_memory_are_their_own_faults(rt: HostRuntime) -> Result<(), Fail> {
    let refused = AllocFailed { value: 5u8 };
    all_same! {
        "as `?` makes them",
        Fault::from(StorageFault) => Fault::Storage, Fault::from(AllocError) => Fault::NoMemory,
        Fault::from(refused) => Fault::NoMemory,
    }?;
    same_text(rt.alloc(), StorageFault, "the storage failed")
}
