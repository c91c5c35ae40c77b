//! The header of an image.

ghost use Rattle.std.specs.Prelude.{◌≡◌, ◌⊎◌, ◌+◌, ◌-◌, ◌^◌, ◌≤◌, IsOkUnless, IfOk, MatchResult, None, map, option_map, string_bytes};
ghost use Rattle.qcow2_base.specs.Types.{IsClusterBits, IsRefblockBits};
ghost use Rattle.qcow2_metadata.specs.Header as spec;
ghost use Rattle.qcow2_metadata.specs.Header.{new_header};

mod backing_filename;
mod bitmap_count;
mod bytes;
mod encryption_header;
mod extensions;
mod feature_names;
mod features;
mod fixed_parts;
mod load;
mod marks;
mod names;
mod pointers;
mod text;
mod update;
mod write;

use bitmap_count::{BITMAPS, first_bitmap_count};
use encryption_header::{ENCRYPTION, LUKS, encryption_clusters};
use extensions::has_unknown;
pub use extensions::{HeaderExtension, HeaderExtensionType};
use feature_names::known_names;
pub use features::{
    AcceptedFeatures, AutoclearFeatures, CompatibleFeatures, FeatureType, IncompatibleFeatures,
    UnknownValue,
};
use names::{compression_type, first_name, has_feature};
use qcow2_base::{
    ClusterCount, EXTERNAL_DATA_FILE_BIT, Fault, HostCluster, HostOffset, MAGIC, UncountedPart,
    V2Header, V3HeaderBase,
};
use std::alloc::Global;
use std::marker::Model;

/// The header of an image in memory. In contracts it is its record.
#[derive(Debug, Drop)]
pub struct Header {
    alloc: Global,
    v2: V2Header,
    base: V3HeaderBase,
    unknown_header_fields: Vec<u8>,
    backing_filename: Option<String>,
    extensions: Vec<HeaderExtension>,
}

impl Model for Header {
    ghost use Rattle.std.specs.Prelude.{map, option_map, string_bytes};
    ghost use Rattle.qcow2_metadata.specs.Header.{HeaderRecord, IsValidHeader};
    ghost use Rattle.qcow2_metadata.specs.Header.Extensions.{extension_of};

    ghost Value = { HeaderRecord };

    ghost view = { λ h. record {
      v2 = h.v2;
      base = h.base;
      unknown_header_fields = h.unknown_header_fields.items;
      backing_filename = option_map string_bytes h.backing_filename;
      extensions = map extension_of h.extensions.items;
    } };

    ghost invariant = { λ h. IsValidHeader record {
      v2 = h.v2;
      base = h.base;
      unknown_header_fields = h.unknown_header_fields.items;
      backing_filename = option_map string_bytes h.backing_filename;
      extensions = map extension_of h.extensions.items;
    } };
}

impl Header {
    ghost use Rattle.std.specs.Prelude.{◌-◌, ◌*◌, ◌<◌};
    ghost use Rattle.qcow2_metadata.specs.Header.{IsValidHeader, encryption_clusters, first_by, has_bitmaps, hides_keys, new_header, uncounted_part, uses_external_data};
    ghost use Rattle.qcow2_metadata.specs.Header.BitmapCount.{consistent_bitmaps};
    ghost use Rattle.qcow2_metadata.specs.Header.Extensions.{feature_name_in, name_in};
    ghost use Rattle.qcow2_metadata.specs.declared.header.extensions.HeaderExtensionType.TheVariants as kind;

    /// Returns a header of version 3 for a new image. Guest data lies in the image, or in the external data
    /// file if there is one.
    ///
    /// `cluster_bits` is the logarithm of the cluster size in bytes, `refcount_order` that of the width of a
    /// refcount in bits. Fails only if memory runs out.
    pub fn new(
        alloc: Global,
        cluster_bits: u32,
        refcount_order: u32,
        backing_filename: Option<String>,
        backing_format: Option<String>,
        external_data_file: Option<String>,
    ) -> Result<Header, Fault>
        requires cluster_bits { IsClusterBits cluster_bits }
        requires refcount_order { refcount_order ≤ 6 }
        ensures fault { IsOkUnless result Fault.NoMemory }
        ensures record { IfOk result (λ header. header ≡ new_header cluster_bits refcount_order
            (option_map string_bytes backing_filename) (option_map string_bytes backing_format)
            (option_map string_bytes external_data_file)) }
    {
        let incompatible_features = if external_data_file.is_some() {
            1 << EXTERNAL_DATA_FILE_BIT
        } else {
            0
        };
        let mut extensions = Vec::new(alloc);
        extensions.push(HeaderExtension::FeatureNameTable(known_names(alloc)?))?;
        if let Some(format) = backing_format {
            extensions.push(HeaderExtension::BackingFileFormat(format))?;
        }
        if let Some(name) = external_data_file {
            extensions.push(HeaderExtension::ExternalDataFileName(name))?;
        }
        Ok(Header {
            alloc,
            v2: new_v2_header(cluster_bits),
            base: V3HeaderBase {
                incompatible_features,
                refcount_order,
                header_length: 0,
                ..V3HeaderBase::default()
            },
            unknown_header_fields: Vec::new(alloc),
            backing_filename,
            extensions,
        })
    }

    // Proves that the header is valid.
    pub(crate) fn validity(&self)
        ensures { IsValidHeader self.now }
    {
        let _ = &self.v2;
    }

    /// Returns the logarithm of the cluster size in bytes, from 9 to 21.
    #[inline]
    pub fn cluster_bits(&self) -> u32
        ensures value { result ≡ self.now.v2.cluster_bits }
        ensures range { IsClusterBits result }
    {
        self.v2.cluster_bits
    }

    /// Returns the cluster size in bytes.
    #[inline]
    #[tactic(auto, using(crate::proofs::HeaderLemmas::powers))]
    pub fn cluster_size(&self) -> usize
        ensures value { result ≡ 2 ^ self.now.v2.cluster_bits }
        ensures bound { result ≤ 2 ^ 21 }
    {
        1 << self.v2.cluster_bits
    }

    /// Returns the number of entries in an L2 table, which fills one cluster with eight bytes each.
    #[inline]
    #[tactic(auto, using(crate::proofs::HeaderLemmas::powers))]
    pub fn l2_entries(&self) -> usize
        ensures value { result ≡ 2 ^ (self.now.v2.cluster_bits - 3) }
        ensures some { 64 ≤ result }
        ensures bound { result ≤ 2 ^ 18 }
    {
        1 << (self.v2.cluster_bits - 3)
    }

    /// Whether guest data lies in an external data file.
    #[inline]
    pub fn external_data_file(&self) -> bool
        ensures { result ≡ uses_external_data self.now }
    {
        self.base.incompatible_features >> EXTERNAL_DATA_FILE_BIT & 1 == 1
    }

    /// Whether the header has an incompatible feature. A header that [`Header::load`] returns has none but
    /// the external data file.
    pub fn has_feature(&self, feature: IncompatibleFeatures) -> bool
        ensures { result ≡ spec.has_feature feature self.now.base }
    {
        has_feature(&self.base, feature)
    }

    /// Returns the number of the compression type of compressed clusters: 0 for zlib, 1 for zstd.
    ///
    /// It is the byte at 104, and 0 if the header ends before it. Only a load that accepts the feature tests
    /// it, so a header that [`Header::load`] returns may have any number.
    pub fn compression_type(&self) -> u8
        ensures { result ≡ spec.compression_type self.now.unknown_header_fields }
    {
        compression_type(&self.unknown_header_fields)
    }

    /// Returns the size of the guest's disk, in bytes.
    #[inline]
    pub fn size(&self) -> u64
        ensures { result ≡ self.now.v2.size }
    {
        self.v2.size
    }

    /// Returns the logarithm of the width of a refcount in bits, from 0 to 6.
    #[inline]
    pub fn refcount_order(&self) -> u32
        ensures value { result ≡ self.now.base.refcount_order }
        ensures range { result ≤ 6 }
    {
        self.base.refcount_order
    }

    /// Returns the logarithm of the number of refcounts in a refcount block, which fills one cluster.
    #[inline]
    pub fn rb_bits(&self) -> u32
        ensures value { result ≡ self.now.v2.cluster_bits + 3 - self.now.base.refcount_order }
        ensures range { IsRefblockBits result }
    {
        self.v2.cluster_bits + 3 - self.base.refcount_order
    }

    /// Returns the number of refcounts in a refcount block.
    #[inline]
    #[tactic(auto, using(crate::proofs::HeaderLemmas::powers))]
    pub fn rb_entries(&self) -> usize
        ensures value { result ≡ 2 ^ (self.now.v2.cluster_bits + 3 - self.now.base.refcount_order) }
        ensures some { 64 ≤ result }
        ensures bound { result ≤ 2 ^ 24 }
    {
        1 << self.rb_bits()
    }

    /// Returns the offset of the L1 table.
    #[inline]
    pub fn l1_table_offset(&self) -> HostOffset
        ensures { result.0 ≡ self.now.v2.l1_table_offset }
    {
        HostOffset(self.v2.l1_table_offset)
    }

    /// Returns the number of entries of the L1 table.
    #[inline]
    pub fn l1_table_entries(&self) -> usize
        ensures value { result ≡ self.now.v2.l1_size }
        ensures bound { result < 2 ^ 32 }
    {
        self.v2.l1_size as usize
    }

    /// Returns the offset of the refcount table.
    #[inline]
    pub fn reftable_offset(&self) -> HostOffset
        ensures { result.0 ≡ self.now.v2.refcount_table_offset }
    {
        HostOffset(self.v2.refcount_table_offset)
    }

    /// Returns the number of clusters of the refcount table.
    #[inline]
    pub fn reftable_clusters(&self) -> ClusterCount
        ensures value { result.0 ≡ self.now.v2.refcount_table_clusters }
        ensures bound { result.0 < 2 ^ 32 }
    {
        ClusterCount(self.v2.refcount_table_clusters as u64)
    }

    /// Returns the number of entries of the refcount table, which fills its clusters with eight bytes each.
    #[inline]
    pub fn reftable_entries(&self) -> usize
        ensures value { result
            ≡ self.now.v2.refcount_table_clusters * 2 ^ (self.now.v2.cluster_bits - 3) }
        ensures bound { result < 2 ^ 50 }
    {
        self.v2.refcount_table_clusters as usize * self.l2_entries()
    }

    /// Returns the number of internal snapshots.
    #[inline]
    pub fn snapshot_count(&self) -> u32
        ensures { result ≡ self.now.v2.nb_snapshots }
    {
        self.v2.nb_snapshots
    }

    /// Returns the offset of the snapshot table. Says nothing if there are no snapshots.
    #[inline]
    pub fn snapshots_offset(&self) -> HostOffset
        ensures { result.0 ≡ self.now.v2.snapshots_offset }
    {
        HostOffset(self.v2.snapshots_offset)
    }

    /// Returns the name of the backing file, which has the guest's data wherever the image maps none.
    #[inline]
    pub fn backing_filename(&self) -> Option<&String>
        ensures { option_map (λ name. string_bytes name.now) result ≡ self.now.backing_filename }
    {
        self.backing_filename.as_ref()
    }

    /// Returns the format of the backing file: the first one in a header extension.
    pub fn backing_format(&self) -> Option<&String>
        ensures { option_map (λ name. string_bytes name.now) result
            ≡ first_by (name_in kind.BackingFileFormat) self.now.extensions }
    {
        first_name(&self.extensions, HeaderExtensionType::BackingFileFormat)
    }

    /// Returns the name of the external data file: the first one in a header extension.
    pub fn external_data_filename(&self) -> Option<&String>
        ensures { option_map (λ name. string_bytes name.now) result
            ≡ first_by (name_in kind.ExternalDataFileName) self.now.extensions }
    {
        first_name(&self.extensions, HeaderExtensionType::ExternalDataFileName)
    }

    /// Returns the name of a feature, from the first feature name table that has one. No feature has a bit
    /// past 63, and no table a name for a bit past 255.
    pub fn feature_name(&self, feature_type: FeatureType, bit: u32) -> Option<&String>
        ensures named { bit < 256 → option_map (λ name. string_bytes name.now) result
            ≡ first_by (feature_name_in (feature_type, bit)) self.now.extensions }
        ensures past { 256 ≤ bit → result ≡ None }
    {
        let bit = u8::try_from(bit).ok()?;
        for extension in &self.extensions {
            if let Some(name) = extension.feature_name(feature_type, bit) {
                return Some(name);
            }
        }
        None
    }

    /// Returns the clusters of the encryption header, which keeps the keys of LUKS: the first of them and
    /// their number, by the one extension of type 0x0537be77. Its data are 16 bytes: the offset, a multiple
    /// of the cluster size, and the length in bytes, at most 32 MiB. `None` without such an extension, with
    /// several, or if the bytes would end past 2^56.
    pub fn encryption_clusters(&self) -> Option<(HostCluster, ClusterCount)>
        ensures { result ≡ encryption_clusters self.now }
    {
        encryption_clusters(&self.extensions, self.v2.cluster_bits)
    }

    /// Returns the first part of the image that refers to clusters and that these crates don't read, if it
    /// has one: snapshots, bitmaps that agree with the disk, or encryption with keys in clusters that
    /// `encryption_clusters` doesn't tell. Bitmaps whose autoclear bit is clear are stale, and refer to
    /// nothing. A `crypt_method` of 2 (LUKS) or more shows encryption, and an extension without that method
    /// too. Extensions of version 2 aren't read, so there only the header fields show a part.
    #[tactic(auto, using(crate::proofs::EncryptionHeaderLemmas::uncounted_is))]
    pub fn uncounted_part(&self) -> Option<UncountedPart>
        ensures { result ≡ uncounted_part self.now }
    {
        if self.v2.nb_snapshots != 0 {
            return Some(UncountedPart::Snapshots);
        }
        if self.has_bitmaps() {
            return Some(UncountedPart::Bitmaps);
        }
        self.hides_keys().then_some(UncountedPart::Encryption)
    }

    // Whether the image has bitmaps that agree with the disk.
    fn has_bitmaps(&self) -> bool
        ensures { result ≡ has_bitmaps self.now }
    {
        self.base.autoclear_features & 1 == 1 && has_unknown(&self.extensions, BITMAPS)
    }

    // Whether the image may keep keys in clusters that are none of its encryption header's.
    fn hides_keys(&self) -> bool
        ensures { result ≡ hides_keys self.now }
    {
        let has_keys = LUKS <= self.v2.crypt_method || has_unknown(&self.extensions, ENCRYPTION);
        let is_placed = self.v2.crypt_method == LUKS && self.encryption_clusters().is_some();
        has_keys && !is_placed
    }

    /// Returns the number of persistent bitmaps that agree with the disk: the number in the bitmaps
    /// extension, or `None` without one or if the autoclear bit is clear. A change of the disk clears that
    /// bit, and the bitmaps are then stale.
    pub fn consistent_bitmaps(&self) -> Option<u32>
        ensures { result ≡ consistent_bitmaps self.now }
    {
        if self.base.autoclear_features & 1 == 0 {
            return None;
        }
        first_bitmap_count(&self.extensions)
    }

    /// Returns the version of the format, 2 or 3.
    #[inline]
    pub fn version(&self) -> u32
        ensures value { result ≡ self.now.v2.version }
        ensures known { (result ≡ 2) ⊎ (result ≡ 3) }
    {
        self.v2.version
    }

    /// Refuses a header of a version below `minimum` with fault 27.
    pub fn require_version(&self, minimum: u32) -> Result<(), Fault>
        ensures { MatchResult result (λ _. minimum ≤ self.now.v2.version)
            (λ fault. (self.now.v2.version < minimum) × (fault ≡ Fault.VersionNeeded)) }
    {
        if self.v2.version < minimum {
            return Err(Fault::VersionNeeded);
        }
        Ok(())
    }
}

fn new_v2_header(cluster_bits: u32) -> V2Header
    ensures { result ≡ (new_header cluster_bits 0 None None None).v2 }
{
    V2Header {
        magic: MAGIC,
        version: 3,
        backing_file_offset: 0,
        backing_file_size: 0,
        cluster_bits,
        size: 0,
        crypt_method: 0,
        l1_size: 0,
        l1_table_offset: 0,
        refcount_table_offset: 0,
        refcount_table_clusters: 0,
        nb_snapshots: 0,
        snapshots_offset: 0,
    }
}
