//! Updates a header from a newer one of the same image.

ghost use Rattle.std.specs.Prelude.{◌≡◌, All, MatchResult, OnErr, OnOk};
ghost use Rattle.qcow2_metadata.specs.Header.Update.{AgreeIn, IsFirstChange, kept_fields, same_value, value_in, with_size_and_tables};

use super::Header;
use qcow2_base::{Fault, Field};

// The fields that must not change while an image is used, in the order in which `update` compares them.
const KEPT_FIELDS: [Field; 16] = [
    Field::Magic,
    Field::Version,
    Field::BackingOffset,
    Field::BackingSize,
    Field::ClusterBits,
    Field::CryptMethod,
    Field::NbSnapshots,
    Field::SnapshotsOffset,
    Field::Incompatible,
    Field::Compatible,
    Field::Autoclear,
    Field::RefcountOrder,
    Field::UnknownFields,
    Field::BackingName,
    Field::Extensions,
    Field::ExternalData,
];

impl Header {
    /// Copies from another header of the same image what may change while the image is used: the size of the
    /// guest's disk, the L1 table's number of entries and offset, and the refcount table's offset and number
    /// of clusters. Everything else stays, including the header's length.
    ///
    /// Apart from these and the length, both headers must be equal. Else returns fault 26 with the first
    /// field that differs, in the order of `Field`, and changes nothing. The other header may have another
    /// cluster size, which is such a field. Allocates nothing.
    pub fn update(&mut self, other: &Header) -> Result<(), Fault>
        ensures agree { MatchResult result (λ _. All (AgreeIn self.old other.now) kept_fields)
            (IsFirstChange self.old other.now) }
        ensures follows { OnOk result (self.new ≡ record other.now {
          base = record other.now.base { header_length = self.old.base.header_length };
        }) }
        ensures taken { OnOk result (self.new ≡ with_size_and_tables self.old other.now) }
        ensures unchanged { OnErr result (self.new ≡ self.old) }
    {
        for field in KEPT_FIELDS {
            if !self.agrees_in(other, field) {
                return Err(Fault::FieldChanged(field));
            }
        }
        self.v2.size = other.v2.size;
        self.v2.l1_size = other.v2.l1_size;
        self.v2.l1_table_offset = other.v2.l1_table_offset;
        self.v2.refcount_table_offset = other.v2.refcount_table_offset;
        self.v2.refcount_table_clusters = other.v2.refcount_table_clusters;
        Ok(())
    }

    // Whether the other header has the same value in this field.
    #[tactic(auto, using(crate::proofs::ExtensionsLemmas::same_extensions_of))]
    fn agrees_in(&self, other: &Header, field: Field) -> bool
        ensures { result ≡ same_value (value_in field self.now) (value_in field other.now) }
    {
        match field {
            Field::Magic => self.v2.magic == other.v2.magic,
            Field::Version => self.v2.version == other.v2.version,
            Field::BackingOffset => self.v2.backing_file_offset == other.v2.backing_file_offset,
            Field::BackingSize => self.v2.backing_file_size == other.v2.backing_file_size,
            Field::ClusterBits => self.v2.cluster_bits == other.v2.cluster_bits,
            Field::CryptMethod => self.v2.crypt_method == other.v2.crypt_method,
            Field::NbSnapshots => self.v2.nb_snapshots == other.v2.nb_snapshots,
            Field::SnapshotsOffset => self.v2.snapshots_offset == other.v2.snapshots_offset,
            Field::Incompatible => self.base.incompatible_features
                == other.base.incompatible_features,
            Field::Compatible => self.base.compatible_features == other.base.compatible_features,
            Field::Autoclear => self.base.autoclear_features == other.base.autoclear_features,
            Field::RefcountOrder => self.base.refcount_order == other.base.refcount_order,
            Field::UnknownFields => self.unknown_header_fields == other.unknown_header_fields,
            Field::BackingName => self.backing_filename == other.backing_filename,
            Field::Extensions => self.extensions == other.extensions,
            Field::ExternalData => self.external_data_file() == other.external_data_file(),
        }
    }
}
