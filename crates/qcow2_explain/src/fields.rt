//! The fields of the header, and their values in an image.

ghost use Rattle.std.specs.Prelude.{IsErrOf};
ghost use Rattle.qcow2_base.specs.Storage.{ReadsFor};
ghost use Rattle.qcow2_base.specs.declared.fault.Fault.TheVariants.{Storage as StorageFailed};

use super::places::Place;
use qcow2_base::{Fault, MAX_FILE_LENGTH, Storage};
use std::alloc::Global;
use std::fmt;

/// The subject of a group of header fields.
#[derive(Clone, Copy)]
pub(super) enum Topic {
    /// The number of snapshots.
    Snapshots,
    /// Encryption whose keys lie in clusters of the image.
    Encryption,
    /// The offset and the length of the L1 table.
    L1Table,
    /// The offset and the length of the refcount table.
    RefTable,
}

/// The form in which a field's value is printed.
#[derive(Clone, Copy)]
enum Form {
    /// A count or a size, in decimal.
    Count,
    /// An offset, or bits with meanings, in hexadecimal.
    Bits,
}

/// A field of the header: its name, the offset and number of its bytes, and the form of its value.
#[derive(Clone, Copy)]
pub(super) struct Field {
    name: &'static str,
    offset: u64,
    bytes: u32,
    form: Form,
}

impl Field {
    /// Writes the field's offset and name, and this value.
    pub(super) fn write_value<W: fmt::Write>(
        &self,
        value: u64,
        f: &mut fmt::Formatter<W>,
    ) -> fmt::Result {
        let Field {
            name,
            offset,
            form,
            ..
        } = *self;
        match form {
            Form::Count => write!(f, "byte {offset}: {name} is {value}"),
            Form::Bits => write!(f, "byte {offset}: {name} is {value:#x}"),
        }
    }
}

pub(super) const MAGIC: Field = Field {
    name: "magic",
    offset: 0,
    bytes: 4,
    form: Form::Bits,
};

pub(super) const VERSION: Field = Field {
    name: "version",
    offset: 4,
    bytes: 4,
    form: Form::Count,
};

pub(super) const BACKING_OFFSET: Field = Field {
    name: "backing_file_offset",
    offset: 8,
    bytes: 8,
    form: Form::Bits,
};

pub(super) const BACKING_SIZE: Field = Field {
    name: "backing_file_size",
    offset: 16,
    bytes: 4,
    form: Form::Count,
};

pub(super) const CLUSTER_BITS: Field = Field {
    name: "cluster_bits",
    offset: 20,
    bytes: 4,
    form: Form::Count,
};

pub(super) const SIZE: Field = Field {
    name: "size",
    offset: 24,
    bytes: 8,
    form: Form::Count,
};

pub(super) const L1_SIZE: Field = Field {
    name: "l1_size",
    offset: 36,
    bytes: 4,
    form: Form::Count,
};

pub(super) const L1_OFFSET: Field = Field {
    name: "l1_table_offset",
    offset: 40,
    bytes: 8,
    form: Form::Bits,
};

pub(super) const REFTABLE_OFFSET: Field = Field {
    name: "refcount_table_offset",
    offset: 48,
    bytes: 8,
    form: Form::Bits,
};

const REFTABLE_CLUSTERS: Field = Field {
    name: "refcount_table_clusters",
    offset: 56,
    bytes: 4,
    form: Form::Count,
};

const CRYPT_METHOD: Field = Field {
    name: "crypt_method",
    offset: 32,
    bytes: 4,
    form: Form::Count,
};

const SNAPSHOTS: Field = Field {
    name: "nb_snapshots",
    offset: 60,
    bytes: 4,
    form: Form::Count,
};

pub(super) const INCOMPATIBLE: Field = Field {
    name: "incompatible_features",
    offset: 72,
    bytes: 8,
    form: Form::Bits,
};

pub(super) const AUTOCLEAR: Field = Field {
    name: "autoclear_features",
    offset: 88,
    bytes: 8,
    form: Form::Bits,
};

pub(super) const REFCOUNT_ORDER: Field = Field {
    name: "refcount_order",
    offset: 96,
    bytes: 4,
    form: Form::Count,
};

pub(super) const HEADER_LENGTH: Field = Field {
    name: "header_length",
    offset: 100,
    bytes: 4,
    form: Form::Count,
};

// The fields of a topic.
fn fields_about(topic: Topic) -> &'static [Field] {
    match topic {
        Topic::Snapshots => &[SNAPSHOTS],
        Topic::Encryption => &[CRYPT_METHOD],
        Topic::L1Table => &[L1_SIZE, L1_OFFSET],
        Topic::RefTable => &[REFTABLE_CLUSTERS, REFTABLE_OFFSET],
    }
}

/// Reads the fields of a topic from the image. Changes no byte.
pub(super) fn fields_of<S: Storage>(
    alloc: Global,
    image: &mut S,
    topic: Topic,
) -> Result<Vec<Place>, Fault>
    ensures storage { ReadsFor (IsErrOf result StorageFailed) (S.state image.old) (S.state image.new) }
{
    read_fields(alloc, image, fields_about(topic))
}

/// Reads these fields from the image. Changes no byte.
pub(super) fn read_fields<S: Storage>(
    alloc: Global,
    image: &mut S,
    fields: &[Field],
) -> Result<Vec<Place>, Fault>
    ensures storage { ReadsFor (IsErrOf result StorageFailed) (S.state image.old) (S.state image.new) }
{
    let mut places = Vec::new(alloc);
    for field in fields {
        places.push(read_field(image, *field)?)?;
    }
    Ok(places)
}

// Reads a field from the image.
fn read_field<S: Storage>(image: &mut S, field: Field) -> Result<Place, Fault>
    ensures storage { ReadsFor (IsErrOf result StorageFailed) (S.state image.old) (S.state image.new) }
{
    let value = read_number(image, field.offset, field.bytes)?;
    Ok(Place::Field(field, value))
}

/// Reads a big-endian number of 4 or 8 bytes. It is 0 past the end of the largest image. Changes no byte.
pub(super) fn read_number<S: Storage>(image: &mut S, offset: u64, bytes: u32) -> Result<u64, Fault>
    ensures storage { ReadsFor (IsErrOf result StorageFailed) (S.state image.old) (S.state image.new) }
{
    let mut buffer = [0u8; 8];
    if offset <= MAX_FILE_LENGTH - 8 {
        image.read(&mut buffer, offset)?;
    }
    let number = u64::from_be_bytes(buffer);
    Ok(if bytes == 4 { number >> 32 } else { number })
}
